//! What the next message is shown as: its lines, or its object.

ghost use Rattle.std.specs.Prelude.{IfOk, string_bytes};
ghost use Rattle.netlink_lines.specs.Check.{check_of};
ghost use Rattle.netlink_lines.specs.Messages.{Tells, TellsLines, memory_of};
ghost use Rattle.netlink_packet_core.specs.FrameWalk.{IsWholeFrame};

use crate::bytes::with_bytes;
use crate::line::Line;
use crate::messages::{Shown, message_lines};
use crate::objects::object_shown;
use crate::state::State;
use crate::time::time_in;
use std::alloc::{AllocError, Global};

/// Returns the lines of the message in a frame at this offset of the input, after the messages that
/// left this state, and updates the state. Requires that the bytes are one frame.
///
/// Links are printed by their names from the messages so far, this one included. A time has no
/// line. It precedes the first line of the next message, unless that is a time too. If the options say
/// so, the lines of the bytes of a message follow, unless it is a time, or its object is returned in
/// place of its lines. Returns `AllocError` if an allocation fails.
pub(crate) fn next_lines<F: Line>(
    alloc: Global,
    state: &mut State,
    at: u64,
    frame: &[u8],
) -> Result<Shown, AllocError>
    requires whole { IsWholeFrame frame.now }
    ensures tells { IfOk result (λ s. Tells (check_of F.Table) at frame.now
        (memory_of state.old) (string_bytes s.text, s.is_malformed) (memory_of state.new)) }
{
    if state.options.json {
        return object_shown::<F>(alloc, state, at, frame);
    }
    lines_shown::<F>(alloc, state, at, frame)
}

/// Returns the lines of a message as `next_lines` does. Inline, since most messages have lines.
#[inline(always)]
fn lines_shown<F: Line>(
    alloc: Global,
    state: &mut State,
    at: u64,
    frame: &[u8],
) -> Result<Shown, AllocError>
    requires whole { IsWholeFrame frame.now }
    ensures tells { IfOk result (λ s. TellsLines (check_of F.Table) at frame.now
        (memory_of state.old) (string_bytes s.text, s.is_malformed) (memory_of state.new)) }
{
    let shown = message_lines::<F>(alloc, state, at, frame)?;
    if !state.options.bytes {
        return Ok(shown);
    }
    match time_in(frame) {
        Some(_) => Ok(shown),
        None => with_bytes::<F>(shown, frame),
    }
}
