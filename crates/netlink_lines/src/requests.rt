//! What a program asks of the kernel: to change something, or to list what there is.

ghost use Rattle.std.specs.Prelude.{◌≡◌, IfOk, string_bytes};
ghost use Rattle.netlink_lines.specs.Requests.{asked_line, is_dump, is_request, lower_line, repeats_flags, request_line};

use netlink_packet_core::{NLM_F_DUMP, NLM_F_REQUEST};
use std::alloc::{AllocError, Global};

/// The bits of a type that tell what a message does, and their value in the types `RTM_GET*`
/// (`rtnl_msgtype_kind` of the kernel).
const KIND_BITS: u16 = 3;

const GETS: u16 = 2;

/// Returns whether a message with these flags and of this type asks for a change.
pub(crate) fn is_request(flags: u16, message_type: u16) -> bool
    ensures { result ≡ is_request flags message_type }
{
    let asks = (flags & NLM_F_REQUEST != 0) & (message_type & KIND_BITS != GETS);
    asks & !repeats_flags(message_type / 4)
}

/// Returns whether the flags of a message say nothing, by its group of four types: those of filters, of
/// actions and of next hops. The kernel repeats the flags of a request in its own message about what it
/// added, replaced or deleted.
fn repeats_flags(group: u16) -> bool
    ensures { result ≡ repeats_flags group }
{
    match group {
        11 | 12 | 26 => true,
        _ => false,
    }
}

/// Returns whether a message with these flags and of this type asks for a dump, by either bit of
/// `NLM_F_DUMP`.
pub(crate) fn is_dump(flags: u16, message_type: u16) -> bool
    ensures { result ≡ is_dump flags message_type }
{
    let is_asked = (flags & NLM_F_REQUEST != 0) & (flags & NLM_F_DUMP != 0);
    is_asked & (message_type & KIND_BITS == GETS)
}

/// Returns the line of a message with these flags and of this type, by its line as no request.
pub(crate) fn asked_line(
    alloc: Global,
    flags: u16,
    message_type: u16,
    line: String,
) -> Result<String, AllocError>
    ensures { IfOk result (λ text. string_bytes text ≡ asked_line flags message_type (string_bytes line)) }
{
    if !is_request(flags, message_type) {
        return Ok(line);
    }
    request_line(alloc, line.as_str())
}

/// Returns the line of a request for a change, by the line of the same message without the flag:
/// `request delete` in place of `Deleted` or `deleted`, or `request ` before the line.
fn request_line(alloc: Global, line: &str) -> Result<String, AllocError>
    ensures { IfOk result (λ text. string_bytes text ≡ request_line line.now) }
{
    match line.strip_prefix("Deleted") {
        Some(rest) => format!(in alloc; "request delete{rest}"),
        None => lower_line(alloc, line),
    }
}

/// Returns the line of a request for a change as `request_line` does, by a line of traffic control, which
/// may begin with `deleted`, or by one that does not begin with `Deleted`.
fn lower_line(alloc: Global, line: &str) -> Result<String, AllocError>
    ensures { IfOk result (λ text. string_bytes text ≡ lower_line line.now) }
{
    match line.strip_prefix("deleted") {
        Some(rest) => format!(in alloc; "request delete{rest}"),
        None => format!(in alloc; "request {line}"),
    }
}
