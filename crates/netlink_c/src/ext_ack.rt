//! The extended acknowledgement of an error or done message.

ghost use Rattle.std.specs.Prelude.{◌≡◌, ℕ, List, length, option_and_then};
ghost use Rattle.std.specs.Option.{option_map};
ghost use Rattle.netlink_replies.specs.AckValues.{FirstValue, number_of_value, without_nul};
ghost use Rattle.netlink_replies.specs.PathSteps.{block_of, offset_of, GivesPath};
ghost use Rattle.netlink_replies.specs.Paths.{IsPath, place_in};
ghost use Rattle.netlink_c.specs.ExtAck.{FillsOut, IsNumberOut, IsPartOut, IsPathOut};

use crate::frame::Part;
use crate::results::{NO_PLACE, NO_ROOM, OK};
use netlink_replies::{ExtendedAck, Path};

/// The error text (`NLMSGERR_ATTR_MSG`).
const MSG: u16 = 1;

/// A value of the sub-protocol (`NLMSGERR_ATTR_COOKIE`).
const COOKIE: u16 = 3;

/// The policy for a rejected attribute (`NLMSGERR_ATTR_POLICY`).
const POLICY: u16 = 4;

/// Writes the location of the error text, without the zero byte at its end, into `text`. The offset
/// is relative to the start of the attributes. Returns 0, or `NO_PLACE` if there is none. Wraps
/// `ExtendedAck::place`. Does not allocate.
#[unsafe(no_mangle)]
pub extern "C" fn nlp_ext_ack_text(attributes: &[u8], text: &mut Part) -> u32
    ensures part { FirstValue 1 attributes.now (λ value.
        IsPartOut (option_map without_nul value) attributes.now text.old text.new result) }
{
    let ack = ExtendedAck { attributes };
    match ack.place(MSG) {
        Some((start, end)) => {
            let size = text_size(&attributes[start..end]);
            *text = Part {
                offset: start,
                size,
            };
            OK
        }
        None => NO_PLACE,
    }
}

/// Writes the offset, in the request, of the attribute that caused the error. Returns 0, or
/// `NO_PLACE` if there is none, or if its value does not have 4 bytes. Wraps
/// `ExtendedAck::offset`. Does not allocate.
#[unsafe(no_mangle)]
pub extern "C" fn nlp_ext_ack_offset(attributes: &[u8], offset: &mut u32) -> u32
    ensures number { FirstValue 2 attributes.now (λ value.
        IsNumberOut (option_and_then number_of_value value) offset.old offset.new result) }
{
    let ack = ExtendedAck { attributes };
    number_out(ack.offset(), offset)
}

/// Writes the location of the value that the sub-protocol added, as `nlp_ext_ack_text` does for the
/// text. Returns 0, or `NO_PLACE` if there is none. Does not allocate.
#[unsafe(no_mangle)]
pub extern "C" fn nlp_ext_ack_cookie(attributes: &[u8], cookie: &mut Part) -> u32
    ensures part { FirstValue 3 attributes.now (λ value.
        IsPartOut value attributes.now cookie.old cookie.new result) }
{
    value_out(attributes, COOKIE, cookie)
}

/// Writes the location of the attributes that describe which values the kernel accepts for the
/// attribute that caused the error, as `nlp_ext_ack_text` does for the text. Returns 0, or
/// `NO_PLACE` if there is none. Does not allocate.
#[unsafe(no_mangle)]
pub extern "C" fn nlp_ext_ack_policy(attributes: &[u8], policy: &mut Part) -> u32
    ensures part { FirstValue 4 attributes.now (λ value.
        IsPartOut value attributes.now policy.old policy.new result) }
{
    value_out(attributes, POLICY, policy)
}

/// Writes the kind of the attribute that the request lacks. Returns 0, or `NO_PLACE` if there is
/// none, or if its value does not have 4 bytes. Wraps `ExtendedAck::missing_type`. Does not
/// allocate.
#[unsafe(no_mangle)]
pub extern "C" fn nlp_ext_ack_missing_type(attributes: &[u8], kind: &mut u32) -> u32
    ensures number { FirstValue 5 attributes.now (λ value.
        IsNumberOut (option_and_then number_of_value value) kind.old kind.new result) }
{
    let ack = ExtendedAck { attributes };
    number_out(ack.missing_type(), kind)
}

/// Writes the offset, in the request, of the nest that lacks an attribute. Returns 0, or `NO_PLACE`
/// if there is none, which means the top level, or if its value does not have 4 bytes. Wraps
/// `ExtendedAck::missing_nest`. Does not allocate.
#[unsafe(no_mangle)]
pub extern "C" fn nlp_ext_ack_missing_nest(attributes: &[u8], offset: &mut u32) -> u32
    ensures number { FirstValue 6 attributes.now (λ value.
        IsNumberOut (option_and_then number_of_value value) offset.old offset.new result) }
{
    let ack = ExtendedAck { attributes };
    number_out(ack.missing_nest(), offset)
}

/// Writes the kinds of the attributes that contain the offset of the error, without their flag
/// bits: that of the outermost, then that of the one in its value, and so on. `request` is the
/// request that was sent, from its header to its end, and `fixed_size` the size of its fixed header
/// in bytes, with padding.
///
/// Sets `count` to the number of kinds. It is 0 if there is no offset, or if it is outside of the
/// request's attributes. Returns 0, or `NO_ROOM` if the path has more kinds than `kinds` can hold,
/// which then has the first ones. Wraps `ExtendedAck::path`. Does not allocate.
#[unsafe(no_mangle)]
pub extern "C" fn nlp_ext_ack_path(
    attributes: &[u8],
    request: &[u8],
    fixed_size: usize,
    kinds: &mut [u16],
    count: &mut usize,
) -> u32
    ensures path { FirstValue 2 attributes.now (λ value.
        IsPathOut (place_in (option_and_then number_of_value value) request.now fixed_size)
        kinds.old kinds.new count.new result) }
{
    let ack = ExtendedAck { attributes };
    *count = path_out(&ack.path(request, fixed_size), kinds);
    if *count <= kinds.len() { OK } else { NO_ROOM }
}

/// Writes the kinds of a path, as far as there is room, and returns how many there are.
fn path_out(path: &Path<'_>, kinds: &mut [u16]) -> usize
    requires path { GivesPath path.now }
    ensures path { (all : List ℕ) × IsPath (block_of path.now) (offset_of path.now) all
        × FillsOut all kinds.old kinds.new result }
{
    let mut count = 0;
    for kind in *path {
        if count < kinds.len() {
            kinds[count] = kind;
        }
        count += 1;
    }
    count
}

/// Writes the location of the value of the first attribute of a kind.
fn value_out(attributes: &[u8], kind: u16, part: &mut Part) -> u32
    ensures part { FirstValue kind attributes.now (λ value.
        IsPartOut value attributes.now part.old part.new result) }
{
    let ack = ExtendedAck { attributes };
    match ack.place(kind) {
        Some((start, end)) => {
            *part = Part {
                offset: start,
                size: end - start,
            };
            OK
        }
        None => NO_PLACE,
    }
}

/// Writes an integer, if there is one.
fn number_out(number: Option<u32>, out: &mut u32) -> u32
    ensures { IsNumberOut number out.old out.new result }
{
    match number {
        Some(number) => {
            *out = number;
            OK
        }
        None => NO_PLACE,
    }
}

/// Returns the size of the bytes without one zero byte at the end.
fn text_size(value: &[u8]) -> usize
    ensures { result ≡ length (without_nul value.now) }
{
    let size = value.len();
    if size > 0 && value[size - 1] == 0 {
        size - 1
    } else {
        size
    }
}
