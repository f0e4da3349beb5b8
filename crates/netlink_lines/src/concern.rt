//! The attribute of a request that the kernel complains of.

ghost use Rattle.std.specs.Prelude.{◌≡◌, ℕ, IfOk, List, option_and_then, string_bytes};
ghost use Rattle.netlink_replies.specs.AckValues.{FirstValue, number_of_value};
ghost use Rattle.netlink_replies.specs.PathSteps.{GivesPath, block_of, offset_of};
ghost use Rattle.netlink_replies.specs.Paths.{IsPath};
ghost use Rattle.netlink_lines.specs.Concern.{IsPlace, header_in, header_size, missing_words, path_text, place_of};

use netlink_packet_core::{NETLINK_HEADER_LEN, u16_at};
use netlink_replies::{ExtendedAck, Path};
use netlink_words::text::push_separated;
use std::alloc::{AllocError, Global};

/// Returns where the attribute is that the kernel complains of: its offset in the request in bytes, and
/// the kinds of the attributes that contain it, the outermost first. Nothing if there is no offset.
pub(crate) fn place_words(
    alloc: Global,
    ack: &ExtendedAck<'_>,
    request: &[u8],
) -> Result<String, AllocError>
    ensures { FirstValue 2 ack.now.attributes.now (λ value. IfOk result (λ words.
        IsPlace (option_and_then number_of_value value) request.now (string_bytes words))) }
{
    let Some(offset) = ack.offset() else {
        return Ok(String::new(alloc));
    };
    let kinds = path_text(alloc, &path_of(ack, request))?;
    if kinds.is_empty() {
        return format!(in alloc; "; byte {offset}");
    }
    format!(in alloc; "; byte {offset}, attribute {kinds}")
}

/// Returns the path to the attribute that the kernel complains of. It is empty if the size of the
/// request's header is not known.
fn path_of<'b>(ack: &ExtendedAck<'_>, request: &'b [u8]) -> Path<'b>
    ensures block { FirstValue 2 ack.now.attributes.now (λ value. block_of result
        ≡ (place_of (option_and_then number_of_value value) request.now).0) }
    ensures offset { FirstValue 2 ack.now.attributes.now (λ value. offset_of result
        ≡ (place_of (option_and_then number_of_value value) request.now).1) }
    ensures path { GivesPath result }
{
    match header_size(request) {
        Some(size) => ack.path(request, size),
        None => Path::new(&[], 0),
    }
}

/// Returns the size in bytes of the fixed header of a request of route netlink. Returns `None` if its
/// type is another one, or if not even the netlink header is there.
fn header_size(request: &[u8]) -> Option<usize>
    ensures { result ≡ header_size request.now }
{
    if request.len() < NETLINK_HEADER_LEN {
        return None;
    }
    header_in(u16_at(request, 4) / 4)
}

/// Returns the size of the fixed header in a group of four message types (linux/rtnetlink.h).
fn header_in(group: u16) -> Option<usize>
    ensures { result ≡ header_in group }
{
    match group {
        4 => Some(16),
        5 => Some(8),
        6 => Some(12),
        7 => Some(12),
        8 => Some(12),
        16 => Some(4),
        22 => Some(4),
        _ => None,
    }
}

/// Returns the kinds of a path, with a slash between them.
fn path_text(alloc: Global, path: &Path<'_>) -> Result<String, AllocError>
    requires path { GivesPath path.now }
    ensures text { IfOk result (λ text. (kinds : List ℕ) × IsPath (block_of path.now) (offset_of path.now) kinds
        × (string_bytes text ≡ path_text kinds)) }
{
    let mut text = String::new(alloc);
    for kind in *path {
        push_separated(&mut text, "/", kind.to_string(alloc)?.as_str())?;
    }
    Ok(text)
}

/// Returns that the request lacks an attribute of a kind, in the nest at an offset if there is one.
/// Nothing if there is no kind.
pub(crate) fn missing_words(
    alloc: Global,
    kind: Option<u32>,
    nest: Option<u32>,
) -> Result<String, AllocError>
    ensures { IfOk result (λ words. string_bytes words ≡ missing_words kind nest) }
{
    match (kind, nest) {
        (None, _) => Ok(String::new(alloc)),
        (Some(kind), None) => format!(in alloc; "; attribute {kind} is missing"),
        (Some(kind), Some(nest)) => {
            format!(in alloc; "; attribute {kind} is missing in the nest at byte {nest}")
        }
    }
}
