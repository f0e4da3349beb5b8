//! Laws about the definitions alone.

ghost use Rattle.std.specs.Prelude.{List};
ghost use Rattle.netlink_json.specs.Fields.{Field, no_field, object_text, with_parts};
ghost use Rattle.netlink_json.specs.Grammar.{IsValue};
ghost use Rattle.netlink_json.specs.Json.{Json, json_text};

/// Each text of a value, and so each object that is written member by member, is a value of the grammar
/// of RFC 8259.
pub fn texts_are_json()
    ensures values { (value : Json) → IsValue (json_text value) }
    ensures objects { (parts : List (List Field)) → IsValue (object_text (with_parts no_field parts)) }
{}
