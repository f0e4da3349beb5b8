//! The times that `rtmon` writes before messages.

ghost use Rattle.std.specs.Prelude.{◌≡◌, IfOk, string_bytes};
ghost use Rattle.netlink_packet_core.specs.FrameWalk.{IsWholeFrame};
ghost use Rattle.netlink_lines.specs.Time.{time_in, time_text, zeros_before};

use netlink_input::time::Time;
use netlink_packet_core::{NetlinkBuffer, u32_at};
use std::alloc::{AllocError, Global};

/// The message type of a time (`NLMSG_TSTAMP` of iproute2's libnetlink.h).
pub(crate) const NLMSG_TSTAMP: u16 = 15;

/// The size in bytes of the payload of a time: two numbers of 32 bits.
const TIME_LEN: usize = 8;

/// Returns the time in a frame, if it is a message of the type 15 with a payload of 8 bytes. Requires
/// that the bytes are one frame.
#[tactic(auto, unfolding(crate::specs::Time::time_in, crate::specs::Time::time_of))]
pub(crate) fn time_in(frame: &[u8]) -> Option<Time>
    requires whole { IsWholeFrame frame.now }
    ensures time { result ≡ time_in frame.now }
{
    let view = NetlinkBuffer::new(frame);
    if view.message_type() != NLMSG_TSTAMP {
        return None;
    }
    let payload = view.payload();
    if payload.len() != TIME_LEN {
        return None;
    }
    Some(Time {
        seconds: u32_at(payload, 0) as u64,
        micros: u32_at(payload, 4),
    })
}

/// Returns a time as it precedes a line: the seconds and the microseconds, which have at least six
/// digits, in brackets, and a space.
#[tactic(auto, unfolding(crate::specs::Time::time_text))]
pub(crate) fn time_text(alloc: Global, time: Time) -> Result<String, AllocError>
    ensures { IfOk result (λ text. string_bytes text ≡ time_text time) }
{
    let seconds = time.seconds;
    let micros = time.micros;
    let zeros = zeros_before(micros);
    format!(in alloc; "[{seconds}.{zeros}{micros}] ")
}

/// Returns the zeros that a number has before it if it is written with six digits.
#[tactic(auto, unfolding(crate::specs::Time::zeros_before))]
fn zeros_before(number: u32) -> &'static str
    ensures { result.now ≡ zeros_before number }
{
    if number < 10 {
        return "00000";
    }
    if number < 100 {
        return "0000";
    }
    if number < 1000 {
        return "000";
    }
    if number < 10000 {
        return "00";
    }
    if number < 100_000 {
        return "0";
    }
    ""
}
