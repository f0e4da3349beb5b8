//! The values of a route's attributes and of those of its encapsulation. Each function for a route
//! requires that the table gives the kind one shape, so only that goal of a caller's proof reads
//! the table, which has 127 rows.

ghost use Rattle.std.specs.Prelude.{◌≡◌, OnOk, slice_index};
ghost use Rattle.std.specs.Option.{option_map};
ghost use Rattle.netlink_family.specs.Finding.{first_at};
ghost use Rattle.netlink_family.specs.Shapes.{shape_in};
ghost use Rattle.netlink_family.specs.declared.shape.Shape.TheVariants.{Ip, U32, U8};
ghost use Rattle.netlink_route_lines.specs.Route.{route_bytes, route_number};
ghost use Rattle.netlink_route_lines.specs.Values.{value_of};
ghost use Rattle.netlink_words.specs.Parts.{AddsPart, number_part};

use netlink_family::{BlockView, MessageIndex, Table};
use netlink_route::Routes;
use netlink_words::parts::{or_empty, push_number};
use std::alloc::AllocError;

/// Returns the value of a kind, if there is one. Requires that its shape is `U32`.
#[inline(always)]
pub(crate) fn u32_of(route: &MessageIndex<'_, Routes>, kind: u16) -> Option<u32>
    requires { shape_in (⟦<Routes as Table>⟧.rows 24) 0 kind ≡ U32 }
    ensures { result ≡ route_number route.now.message.payload.now kind }
{
    route.index().u32(kind)
}

/// Returns the value of a kind, if there is one. Requires that its shape is `U8`.
#[inline(always)]
pub(crate) fn u8_of(route: &MessageIndex<'_, Routes>, kind: u16) -> Option<u8>
    requires { shape_in (⟦<Routes as Table>⟧.rows 24) 0 kind ≡ U8 }
    ensures { result ≡ option_map (λ value. slice_index value 0) (first_at 12 route.now.message.payload.now kind) }
{
    route.index().u8(kind)
}

/// Returns the address of a kind; empty if there is none. Requires that its shape is `Ip`.
#[inline(always)]
pub(crate) fn ip_of<'a>(route: &MessageIndex<'a, Routes>, kind: u16) -> &'a [u8]
    requires { shape_in (⟦<Routes as Table>⟧.rows 24) 0 kind ≡ Ip }
    ensures { result.now ≡ route_bytes route.now.message.payload.now kind }
{
    or_empty(route.index().ip(kind))
}

/// Returns the value of the first attribute of a kind; empty if there is none.
pub(crate) fn value_of<'a>(nest: &BlockView<'a>, kind: u16) -> &'a [u8]
    ensures { result.now ≡ value_of nest.now.block.now kind }
{
    or_empty(nest.first(kind))
}

/// Appends a key and a number of one byte, if there is one.
#[tactic(auto, unfolding(netlink_words::specs::Parts::number_part, netlink_words::specs::Parts::with_part))]
pub(crate) fn push_byte(text: &mut String, key: &str, byte: Option<u8>) -> Result<(), AllocError>
    ensures { OnOk result (AddsPart text.old text.new (number_part key.now byte)) }
{
    match byte {
        None => Ok(()),
        Some(byte) => push_number(text, key, Some(byte as u32)),
    }
}
