//! The object of a neighbour.

ghost use Rattle.std.specs.Prelude.{◌≡◌, OnOk};
ghost use Rattle.netlink_json.specs.Fields.{AddsParts};
ghost use Rattle.netlink_objects.specs.Neighbour.{neighbour_parts, neighbour_rows};
ghost use Rattle.netlink_objects.specs.Rows.{rows_in};

use crate::form::{Form, put_null, put_true};
use crate::row::{Place, Row, put_rows, source_of};
use netlink_family::MessageView;
use netlink_json::Object;
use netlink_names::name_table::Names;
use netlink_route::Neighbours;
use netlink_route::neighbours::{
    NDA_DST, NDA_FLAGS_EXT, NDA_LLADDR, NDA_PROTOCOL, RTM_DELNEIGH, RTM_GETNEIGH,
};
use std::alloc::{AllocError, Global};

/// The members of a neighbour that are one value each.
const ROWS: [Row; 10] = [
    ("dst", Place::Attribute(NDA_DST), Form::Ip),
    ("dev", Place::Header(4, 4), Form::Device),
    ("lladdr", Place::Attribute(NDA_LLADDR), Form::Hardware),
    ("router", Place::Header(10, 1), Form::NullIf(0x80)),
    ("proxy", Place::Header(10, 1), Form::NullIf(0x08)),
    (
        "managed",
        Place::Attribute(NDA_FLAGS_EXT),
        Form::NullIf(0x1),
    ),
    ("extern_learn", Place::Header(10, 1), Form::NullIf(0x10)),
    ("offload", Place::Header(10, 1), Form::NullIf(0x20)),
    ("state", Place::Header(8, 2), Form::States),
    (
        "protocol",
        Place::Attribute(NDA_PROTOCOL),
        Form::Protocol(0, 0),
    ),
];

/// Returns these rows.
fn neighbour_rows() -> &'static [Row]
    ensures { rows_in result.now ≡ neighbour_rows }
{
    &ROWS
}

/// Appends the members of a message about a neighbour, with the keys of `ip -j neigh` and in its order:
/// the address, the link, the link address, the flags, the states and the protocol. Returns `AllocError`
/// if an allocation fails.
#[tactic(auto, unfolding(crate::specs::Neighbour::neighbour_parts))]
pub fn put_neighbour(
    alloc: Global,
    object: &mut Object,
    known: &Names<'_>,
    neighbour: &MessageView<'_, Neighbours>,
) -> Result<(), AllocError>
    ensures parts { OnOk result (AddsParts object.old object.new
        (neighbour_parts known.now neighbour.now.message_type neighbour.now.payload.now)) }
{
    put_true(object, "deleted", neighbour.message_type == RTM_DELNEIGH)?;
    put_null(object, "miss", neighbour.message_type == RTM_GETNEIGH)?;
    put_rows(
        alloc,
        object,
        known,
        &source_of(neighbour),
        neighbour_rows(),
    )
}
