//! Callers of the getters of an owned message.

ghost use Rattle.std.specs.Prelude.{◌≡◌, None};
ghost use Rattle.std.specs.Option.{option_map};
ghost use Rattle.netlink_family.specs.Finding.{first_at};
ghost use Rattle.netlink_packet_core.specs.Numbers.{number_be, number_le};
ghost use Rattle.netlink_family.specs.declared.shape.Shape.TheVariants.{Nested};
ghost use Rattle.netlink_family_tests.specs.declared.neighbours.TheConstants.{NDA_PORT, NDA_PROBES};
ghost use Rattle.netlink_family_tests.specs.declared.rules.TheConstants.{MARK};

use crate::neighbours::{NDA_LLADDR, NDA_PORT, NDA_PROBES, NDA_VLAN, NeighbourMessage};
use crate::rules::{MARKS, RTM_NEWRULE, Rules};
use netlink_family::{Shape, Value, shape_of};

/// The number of probes. The table is computed away, so the clause does not mention it.
pub fn probes(message: &NeighbourMessage) -> Option<u32>
    ensures { result ≡ option_map number_le (first_at 12 message.now.bytes.items NDA_PROBES) }
{
    message.view().u32(NDA_PROBES)
}

/// The port of a neighbour, which is big-endian.
pub fn port(message: &NeighbourMessage) -> Option<u16>
    ensures { result ≡ option_map number_be (first_at 12 message.now.bytes.items NDA_PORT) }
{
    message.view().be16(NDA_PORT)
}

/// The shape of an element of a list: its row is that for `ANY`, and flag bits are ignored.
pub fn mark_shape() -> Shape
    ensures { result ≡ Nested MARK }
{
    shape_of::<Rules>(RTM_NEWRULE, MARKS, 0x8005)
}

/// Returns `None`: the table gives the kind the shape `U16`.
pub fn no_number(message: &NeighbourMessage) -> Option<u32>
    ensures { result ≡ None }
{
    message.view().u32(NDA_VLAN)
}

/// Counts the attributes that are a `u32`.
pub fn numbers(message: &NeighbourMessage) -> u32 {
    let mut count = 0u32;
    for (_kind, value) in message.view().attributes() {
        if let Value::U32(_number) = value {
            count = count.wrapping_add(1);
        }
    }
    count
}

/// The link-layer address.
pub fn link_address(message: &NeighbourMessage) -> Option<&[u8]> {
    message.view().bytes(NDA_LLADDR)
}
