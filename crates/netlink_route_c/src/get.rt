//! The integers of a view.

ghost use Rattle.netlink_family.specs.Finding.{be16_by, be32_by, be64_by, i32_by, i64_by, u16_by, u32_by, u64_by, u8_by};
ghost use Rattle.netlink_route_c.specs.Gets.{Gets};

use crate::find::{Found, seen};
use crate::results::{NO_PLACE, OK};
use crate::view::{Tables, View};
use netlink_family::{Shape, Table};
use netlink_shapes::decoders::{be16_in, be32_in, be64_in, i32_in, i64_in, u16_in, u32_in, u64_in};

/// Reads the first attribute of a kind in a view, if the table gives the kind the shape `U8`.
///
/// Returns 0; `NO_PLACE` if there is no such attribute, the table gives the kind another shape, or
/// the view is not inside the payload; and `WRONG_SHAPE` if the value does not have the shape of the
/// kind, which is never so in a view that a function of this library wrote for this payload. Changes
/// `number` only if it returns 0. Equals `BlockView::u8`. Does not allocate.
#[unsafe(no_mangle)]
pub extern "C" fn nlp_view_u8(payload: &[u8], view: &View, kind: u16, number: &mut u8) -> u32
    ensures gets { Gets ⟦<Tables as Table>⟧ u8_by payload.now view.now kind number.old number.new result }
{
    match seen(payload, view, kind) {
        Ok(
            Found {
                shape: Shape::U8,
                value,
                ..
            },
        ) => {
            *number = value[0];
            OK
        }
        Ok(_) => NO_PLACE,
        Err(result) => result,
    }
}

/// Reads a `u16` in native byte order, as `nlp_view_u8` reads a `u8`. Equals `BlockView::u16`.
#[unsafe(no_mangle)]
pub extern "C" fn nlp_view_u16(payload: &[u8], view: &View, kind: u16, number: &mut u16) -> u32
    ensures gets { Gets ⟦<Tables as Table>⟧ u16_by payload.now view.now kind number.old number.new result }
{
    match seen(payload, view, kind) {
        Ok(
            Found {
                shape: Shape::U16,
                value,
                ..
            },
        ) => {
            *number = u16_in(value);
            OK
        }
        Ok(_) => NO_PLACE,
        Err(result) => result,
    }
}

/// Reads a `u32` in native byte order, as `nlp_view_u8` reads a `u8`. Equals `BlockView::u32`.
#[unsafe(no_mangle)]
pub extern "C" fn nlp_view_u32(payload: &[u8], view: &View, kind: u16, number: &mut u32) -> u32
    ensures gets { Gets ⟦<Tables as Table>⟧ u32_by payload.now view.now kind number.old number.new result }
{
    match seen(payload, view, kind) {
        Ok(
            Found {
                shape: Shape::U32,
                value,
                ..
            },
        ) => {
            *number = u32_in(value);
            OK
        }
        Ok(_) => NO_PLACE,
        Err(result) => result,
    }
}

/// Reads a `u64` in native byte order, as `nlp_view_u8` reads a `u8`. Equals `BlockView::u64`.
#[unsafe(no_mangle)]
pub extern "C" fn nlp_view_u64(payload: &[u8], view: &View, kind: u16, number: &mut u64) -> u32
    ensures gets { Gets ⟦<Tables as Table>⟧ u64_by payload.now view.now kind number.old number.new result }
{
    match seen(payload, view, kind) {
        Ok(
            Found {
                shape: Shape::U64,
                value,
                ..
            },
        ) => {
            *number = u64_in(value);
            OK
        }
        Ok(_) => NO_PLACE,
        Err(result) => result,
    }
}

/// Reads an `i32` in native byte order, as `nlp_view_u8` reads a `u8`. Equals `BlockView::i32`.
#[unsafe(no_mangle)]
pub extern "C" fn nlp_view_i32(payload: &[u8], view: &View, kind: u16, number: &mut i32) -> u32
    ensures gets { Gets ⟦<Tables as Table>⟧ i32_by payload.now view.now kind number.old number.new result }
{
    match seen(payload, view, kind) {
        Ok(
            Found {
                shape: Shape::I32,
                value,
                ..
            },
        ) => {
            *number = i32_in(value);
            OK
        }
        Ok(_) => NO_PLACE,
        Err(result) => result,
    }
}

/// Reads an `i64` in native byte order, as `nlp_view_u8` reads a `u8`. Equals `BlockView::i64`.
#[unsafe(no_mangle)]
pub extern "C" fn nlp_view_i64(payload: &[u8], view: &View, kind: u16, number: &mut i64) -> u32
    ensures gets { Gets ⟦<Tables as Table>⟧ i64_by payload.now view.now kind number.old number.new result }
{
    match seen(payload, view, kind) {
        Ok(
            Found {
                shape: Shape::I64,
                value,
                ..
            },
        ) => {
            *number = i64_in(value);
            OK
        }
        Ok(_) => NO_PLACE,
        Err(result) => result,
    }
}

/// Reads a big-endian `u16`, as `nlp_view_u8` reads a `u8`. Equals `BlockView::be16`.
#[unsafe(no_mangle)]
pub extern "C" fn nlp_view_be16(payload: &[u8], view: &View, kind: u16, number: &mut u16) -> u32
    ensures gets { Gets ⟦<Tables as Table>⟧ be16_by payload.now view.now kind number.old number.new result }
{
    match seen(payload, view, kind) {
        Ok(
            Found {
                shape: Shape::Be16,
                value,
                ..
            },
        ) => {
            *number = be16_in(value);
            OK
        }
        Ok(_) => NO_PLACE,
        Err(result) => result,
    }
}

/// Reads a big-endian `u32`, as `nlp_view_u8` reads a `u8`. Equals `BlockView::be32`.
#[unsafe(no_mangle)]
pub extern "C" fn nlp_view_be32(payload: &[u8], view: &View, kind: u16, number: &mut u32) -> u32
    ensures gets { Gets ⟦<Tables as Table>⟧ be32_by payload.now view.now kind number.old number.new result }
{
    match seen(payload, view, kind) {
        Ok(
            Found {
                shape: Shape::Be32,
                value,
                ..
            },
        ) => {
            *number = be32_in(value);
            OK
        }
        Ok(_) => NO_PLACE,
        Err(result) => result,
    }
}

/// Reads a big-endian `u64`, as `nlp_view_u8` reads a `u8`. Equals `BlockView::be64`.
#[unsafe(no_mangle)]
pub extern "C" fn nlp_view_be64(payload: &[u8], view: &View, kind: u16, number: &mut u64) -> u32
    ensures gets { Gets ⟦<Tables as Table>⟧ be64_by payload.now view.now kind number.old number.new result }
{
    match seen(payload, view, kind) {
        Ok(
            Found {
                shape: Shape::Be64,
                value,
                ..
            },
        ) => {
            *number = be64_in(value);
            OK
        }
        Ok(_) => NO_PLACE,
        Err(result) => result,
    }
}
