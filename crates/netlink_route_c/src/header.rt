//! The fields of the fixed header of a view.

ghost use Rattle.std.specs.Prelude.{◌≡◌, ◌+◌, ◌≤◌, ◌/◌, IfNone, IfSome, length, slice_index};
ghost use Rattle.netlink_packet_core.specs.Fields.{number_at};
ghost use Rattle.netlink_packet_core.specs.Numbers.{signed};
ghost use Rattle.netlink_route_c.specs.Headers.{GetsField, field_result, header_of};
ghost use Rattle.netlink_route_c.specs.declared.header.TheConstants.{I32, U16, U32, U8};

use crate::results::{NO_PLACE, OK};
use crate::view::View;
use netlink_family::{HeaderView, Shape};

/// The number of the shape of a field, which is the lowest byte of its number for C. The rest is
/// the offset of the field in bytes.
const U8: u32 = 1;

const U16: u32 = 2;

const U32: u32 = 3;

const I32: u32 = 4;

/// Reads a `u8` of the fixed header of a view. A field is 256 times its offset in bytes, plus the
/// number of its shape. The bytes that a short payload lacks are read as 0.
///
/// Returns 0; or `NO_PLACE` if the field has another shape or is not inside the header, or the
/// header not inside the payload. Changes `number` only if it returns 0. Equals `HeaderView::u8`.
/// Does not allocate.
#[unsafe(no_mangle)]
pub extern "C" fn nlp_view_header_u8(
    payload: &[u8],
    view: &View,
    field: u32,
    number: &mut u8,
) -> u32
    ensures gets { GetsField (field_result U8 1 field (length payload.now) view.now)
        (slice_index (header_of payload.now view.now) (field / 256)) number.old number.new result }
{
    let Some(header) = header_with(payload, view, field, U8, 1) else {
        return NO_PLACE;
    };
    *number = header.u8(("", (field / 256) as usize, Shape::U8));
    OK
}

/// Reads a `u16` in native byte order, as `nlp_view_header_u8` reads a `u8`. Equals `HeaderView::u16`.
#[unsafe(no_mangle)]
pub extern "C" fn nlp_view_header_u16(
    payload: &[u8],
    view: &View,
    field: u32,
    number: &mut u16,
) -> u32
    ensures gets { GetsField (field_result U16 2 field (length payload.now) view.now)
        (number_at (field / 256) 2 (header_of payload.now view.now)) number.old number.new result }
{
    let Some(header) = header_with(payload, view, field, U16, 2) else {
        return NO_PLACE;
    };
    *number = header.u16(("", (field / 256) as usize, Shape::U16));
    OK
}

/// Reads a `u32` in native byte order, as `nlp_view_header_u8` reads a `u8`. Equals `HeaderView::u32`.
#[unsafe(no_mangle)]
pub extern "C" fn nlp_view_header_u32(
    payload: &[u8],
    view: &View,
    field: u32,
    number: &mut u32,
) -> u32
    ensures gets { GetsField (field_result U32 4 field (length payload.now) view.now)
        (number_at (field / 256) 4 (header_of payload.now view.now)) number.old number.new result }
{
    let Some(header) = header_with(payload, view, field, U32, 4) else {
        return NO_PLACE;
    };
    *number = header.u32(("", (field / 256) as usize, Shape::U32));
    OK
}

/// Reads an `i32` in native byte order, as `nlp_view_header_u8` reads a `u8`. Equals `HeaderView::i32`.
#[unsafe(no_mangle)]
pub extern "C" fn nlp_view_header_i32(
    payload: &[u8],
    view: &View,
    field: u32,
    number: &mut i32,
) -> u32
    ensures gets { GetsField (field_result I32 4 field (length payload.now) view.now)
        (signed 4 (number_at (field / 256) 4 (header_of payload.now view.now))) number.old number.new result }
{
    let Some(header) = header_with(payload, view, field, I32, 4) else {
        return NO_PLACE;
    };
    *number = header.i32(("", (field / 256) as usize, Shape::I32));
    OK
}

/// Returns the header of a view if the field has this shape and is inside it, with its size in
/// bytes, and the header is inside the payload.
#[inline(always)]
fn header_with<'a>(
    payload: &'a [u8],
    view: &View,
    field: u32,
    shape: u32,
    size: usize,
) -> Option<HeaderView<'a>>
    requires small { size ≤ 4 }
    ensures some { IfSome result (λ h. field_result shape size field (length payload.now) view.now ≡ 0) }
    ensures none { IfNone result (field_result shape size field (length payload.now) view.now ≡ 34) }
    ensures bytes { IfSome result (λ h. h.bytes.now ≡ header_of payload.now view.now) }
    ensures missing { IfSome result (λ h. h.missing ≡ view.now.missing) }
    ensures inside { IfSome result (λ h. field / 256 + size ≤ length h.bytes.now + h.missing) }
{
    let start = view.header.offset;
    let most = view.header.size;
    if start > payload.len() || most > payload.len() - start {
        return None;
    }
    let end = (field / 256) as usize + size;
    if field % 256 != shape || end.saturating_sub(view.missing) > most {
        return None;
    }
    Some(HeaderView {
        bytes: &payload[start..start + most],
        missing: view.missing,
    })
}
