//! The object of a prefix that a router announces.

ghost use Rattle.std.specs.Prelude.{◌≡◌, OnOk};
ghost use Rattle.netlink_json.specs.Fields.{AddsParts};
ghost use Rattle.netlink_objects.specs.Prefix.{prefix_parts, prefix_rows};
ghost use Rattle.netlink_objects.specs.Rows.{rows_in};

use crate::form::Form;
use crate::row::{Place, Row, put_rows, source_of};
use netlink_family::MessageView;
use netlink_json::Object;
use netlink_names::name_table::Names;
use netlink_route::Prefixes;
use netlink_route::prefixes::{PREFIX_ADDRESS, PREFIX_CACHEINFO};
use std::alloc::{AllocError, Global};

/// The members of a prefix, each of which is one value, with lifetimes in seconds. Each flag has two bits,
/// as in the line.
const ROWS: [Row; 7] = [
    ("prefix", Place::Attribute(PREFIX_ADDRESS), Form::Ip),
    ("prefixlen", Place::Header(9, 1), Form::Number),
    ("dev", Place::Header(4, 4), Form::Device),
    ("onlink", Place::Header(10, 1), Form::NullIf(0x81)),
    ("autoconf", Place::Header(10, 1), Form::NullIf(0x42)),
    ("valid", Place::Inside(PREFIX_CACHEINFO, 4, 4), Form::Number),
    (
        "preferred",
        Place::Inside(PREFIX_CACHEINFO, 0, 4),
        Form::Number,
    ),
];

/// Returns these rows.
fn prefix_rows() -> &'static [Row]
    ensures { rows_in result.now ≡ prefix_rows }
{
    &ROWS
}

/// Appends the members of a message about an announced prefix: the prefix and its length, the link, the
/// flags and the lifetimes. `ip` has no object for it: the keys are `prefixlen` and the words of its line.
/// Returns `AllocError` if an allocation fails.
#[tactic(auto, unfolding(crate::specs::Prefix::prefix_parts))]
pub fn put_prefix(
    alloc: Global,
    object: &mut Object,
    known: &Names<'_>,
    prefix: &MessageView<'_, Prefixes>,
) -> Result<(), AllocError>
    ensures parts { OnOk result (AddsParts object.old object.new
        (prefix_parts known.now prefix.now.payload.now)) }
{
    put_rows(alloc, object, known, &source_of(prefix), prefix_rows())
}
