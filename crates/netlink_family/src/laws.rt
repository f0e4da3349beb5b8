//! Laws about the definitions alone. Calling a law does nothing at run time: its contract is the
//! theorem.

ghost use Rattle.std.specs.Prelude.{◌≡◌, ◌≤◌, ◌<◌, length, List, ℕ, Some, is_none, is_some};
ghost use Rattle.netlink_packet_core.specs.declared.header.NetlinkHeader.{NetlinkHeader};
ghost use Rattle.netlink_family.specs.Tables.{table_error};
ghost use Rattle.netlink_family.specs.Message.{message_reading};
ghost use Rattle.netlink_shapes.specs.Shapes.{has_type, reading_by};
ghost use Rattle.netlink_shapes.specs.declared.error.FamilyError.{FamilyError};
ghost use Rattle.netlink_shapes.specs.declared.error.FamilyError.TheVariants.{InvalidAttribute};
ghost use Rattle.netlink_shapes.specs.declared.attribute_error.AttributeError.{AttributeError};

use crate::family::Table;

/// A payload decodes if and only if it has no error, and it has at most one error. The offset of an
/// invalid attribute is in the payload, after the header.
pub fn errors<F: Table>()
    ensures complete { (h : NetlinkHeader) (payload : List ℕ)
        → is_none (table_error F.Table h.message_type payload)
        ≡ is_some (message_reading (has_type F.types) F.short F.header_len (λ t. reading_by (F.rows t)) h payload) }
    ensures unique { (h : NetlinkHeader) (payload : List ℕ) (e f : FamilyError)
        → table_error F.Table h.message_type payload ≡ Some e
        → table_error F.Table h.message_type payload ≡ Some f → e ≡ f }
    ensures inside { (h : NetlinkHeader) (payload : List ℕ) (f : AttributeError)
        → table_error F.Table h.message_type payload ≡ Some (InvalidAttribute f)
        → (F.header_len h.message_type ≤ f.offset) × (f.offset < length payload) }
{}
