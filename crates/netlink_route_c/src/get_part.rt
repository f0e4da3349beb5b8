//! The strings, addresses, bytes and nests of a view.

ghost use Rattle.std.specs.Prelude.{◌≡◌, ◌+◌, ◌<◌, ◌≤◌, ◌^◌, IfNone, IfSome, None, Some, length, take};
ghost use Rattle.netlink_family.specs.Finding.{bytes_by, exact_by, ip_by, str_by};
ghost use Rattle.netlink_family.specs.Shapes.{nest_start};
ghost use Rattle.netlink_route_c.specs.Gets.{Gets, GetsNest, GetsPart, any_by, mac_by, nest_view};

use crate::find::{Found, seen};
use crate::results::{NO_PLACE, OK};
use crate::view::{Part, Tables, View};
use netlink_family::{Shape, Table, bytes_until_nul};
use netlink_shapes::shape::{nest_start, policy_of};

/// Finds the string in the first attribute of a kind in a view, without its NUL, if the table gives
/// the kind the shape `Str` or `NulStr`. The offset in `text` is from the start of the payload.
///
/// Returns 0; `NO_PLACE` if there is no such attribute, the table gives the kind another shape, or
/// the view is not inside the payload; and `WRONG_SHAPE` if the value does not have the shape of the
/// kind, which is never so in a view that a function of this library wrote for this payload. Changes
/// `text` only if it returns 0. Equals `BlockView::str_bytes`. Does not allocate.
#[unsafe(no_mangle)]
pub extern "C" fn nlp_view_str(payload: &[u8], view: &View, kind: u16, text: &mut Part) -> u32
    ensures gets { GetsPart ⟦<Tables as Table>⟧ str_by payload.now view.now kind text.old text.new result }
{
    match seen(payload, view, kind) {
        Ok(found) => match text_size(found.shape, found.value) {
            Some(size) => {
                *text = Part {
                    offset: found.part.offset,
                    size,
                };
                OK
            }
            None => NO_PLACE,
        },
        Err(result) => result,
    }
}

/// Returns the size of a string without its NUL, or `None` if the shape is not that of a string.
#[tactic(auto, using(crate::proofs::Places::text_taken, crate::proofs::Places::text_size))]
fn text_size(shape: Shape, value: &[u8]) -> Option<usize>
    ensures some { IfSome result (λ n. str_by shape (Some value.now) ≡ Some (take n value.now)) }
    ensures inside { IfSome result (λ n. n ≤ length value.now) }
    ensures none { IfNone result (str_by shape (Some value.now) ≡ None) }
{
    match shape {
        Shape::NulStr | Shape::Str => Some(bytes_until_nul(value).len()),
        _ => None,
    }
}

/// Finds an IP address, 4 or 16 bytes, as `nlp_view_str` finds a string. Equals `BlockView::ip`.
#[unsafe(no_mangle)]
pub extern "C" fn nlp_view_ip(payload: &[u8], view: &View, kind: u16, value: &mut Part) -> u32
    ensures gets { GetsPart ⟦<Tables as Table>⟧ ip_by payload.now view.now kind value.old value.new result }
{
    match seen(payload, view, kind) {
        Ok(
            Found {
                shape: Shape::Ip,
                part,
                ..
            },
        ) => {
            *value = part;
            OK
        }
        Ok(_) => NO_PLACE,
        Err(result) => result,
    }
}

/// Finds bytes of the size that the table states (the shape `ExactLen`), as `nlp_view_str` finds a
/// string. Equals `BlockView::exact`.
#[unsafe(no_mangle)]
pub extern "C" fn nlp_view_exact(payload: &[u8], view: &View, kind: u16, value: &mut Part) -> u32
    ensures gets { GetsPart ⟦<Tables as Table>⟧ exact_by payload.now view.now kind value.old value.new result }
{
    match seen(payload, view, kind) {
        Ok(
            Found {
                shape: Shape::ExactLen(_),
                part,
                ..
            },
        ) => {
            *value = part;
            OK
        }
        Ok(_) => NO_PLACE,
        Err(result) => result,
    }
}

/// Finds bytes of any size, or of a minimum size (the shapes `Bytes` and `MinLen`), as
/// `nlp_view_str` finds a string. Equals `BlockView::bytes`.
#[unsafe(no_mangle)]
pub extern "C" fn nlp_view_bytes(payload: &[u8], view: &View, kind: u16, value: &mut Part) -> u32
    ensures gets { GetsPart ⟦<Tables as Table>⟧ bytes_by payload.now view.now kind value.old value.new result }
{
    match seen(payload, view, kind) {
        Ok(
            Found {
                shape: Shape::Bytes | Shape::MinLen(_),
                part,
                ..
            },
        ) => {
            *value = part;
            OK
        }
        Ok(_) => NO_PLACE,
        Err(result) => result,
    }
}

/// Finds the value of the first attribute of a kind as bytes, whatever its shape, as `nlp_view_str`
/// finds a string. Equals `BlockView::first`.
#[unsafe(no_mangle)]
pub extern "C" fn nlp_view_first(payload: &[u8], view: &View, kind: u16, value: &mut Part) -> u32
    ensures gets { GetsPart ⟦<Tables as Table>⟧ any_by payload.now view.now kind value.old value.new result }
{
    match seen(payload, view, kind) {
        Ok(found) => {
            *value = found.part;
            OK
        }
        Err(result) => result,
    }
}

/// Copies a MAC address, 6 bytes of the shape `Bytes` or `MinLen`, as `nlp_view_str` finds a string.
/// A value of another size is no MAC address, which is `NO_PLACE`.
#[unsafe(no_mangle)]
pub extern "C" fn nlp_view_mac(payload: &[u8], view: &View, kind: u16, address: &mut [u8; 6]) -> u32
    ensures gets { Gets ⟦<Tables as Table>⟧ mac_by payload.now view.now kind address.old address.new result }
{
    match seen(payload, view, kind) {
        Ok(
            Found {
                shape: Shape::MinLen(_) | Shape::Bytes,
                value,
                ..
            },
        ) => {
            if value.len() != 6 {
                return NO_PLACE;
            }
            address.copy_from_slice(value);
            OK
        }
        Ok(_) => NO_PLACE,
        Err(result) => result,
    }
}

/// Finds the nest in the first attribute of a kind in a view, and writes a view of it, if the table
/// gives the kind the shape `Nested` or `HeaderNested`. The header of the view is that of the nest,
/// which is empty for `Nested`.
///
/// Returns what `nlp_view_str` returns. Changes `inner` only if it returns 0. Equals
/// `BlockView::nest` and `BlockView::nest_header`. Does not allocate.
#[unsafe(no_mangle)]
pub extern "C" fn nlp_view_nest(payload: &[u8], view: &View, kind: u16, inner: &mut View) -> u32
    ensures gets { GetsNest ⟦<Tables as Table>⟧ payload.now view.now kind inner.old inner.new result }
{
    match seen(payload, view, kind) {
        Ok(found) => match policy_of(found.shape) {
            Some(policy) => {
                *inner = nest_view(view.message_type, policy, found.shape, found.part);
                OK
            }
            None => NO_PLACE,
        },
        Err(result) => result,
    }
}

/// Returns the view of a nest whose value is this part of the payload.
pub(crate) fn nest_view(message_type: u16, policy: u16, shape: Shape, part: Part) -> View
    requires start { nest_start shape ≤ part.size }
    requires inside { part.offset + part.size < 2 ^ 64 }
    ensures { result ≡ nest_view message_type policy shape part }
{
    let start = nest_start(shape);
    View {
        message_type,
        policy,
        missing: 0,
        header: Part {
            offset: part.offset,
            size: start,
        },
        attributes: Part {
            offset: part.offset + start,
            size: part.size - start,
        },
    }
}
