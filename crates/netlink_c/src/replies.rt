//! The answer to a request: which frames of a datagram belong to it, and when it is complete.

ghost use Rattle.std.specs.Prelude.{◌≡◌, ◌≢◌, ◌⊎◌, ◌<◌, ◌≤◌, Err, None, Some, drop, length, max};
ghost use Rattle.netlink_replies.specs.Answers.{waiting};
ghost use Rattle.netlink_replies.specs.Reads.{Gives};
ghost use Rattle.netlink_c.specs.Fault.{Refuses};
ghost use Rattle.netlink_c.specs.ReplyItems.{GivesReply};
ghost use Rattle.netlink_c.specs.States.{is_set, request_to, state_from, state_numbers};

use crate::fault::{FaultNumbers, refused};
use crate::reply_item::{ReplyItem, reply_at};
use crate::results::{END, OK};
use netlink_packet_core::NetlinkHeader;
use netlink_replies::{Replies, Request};

/// What identifies the answer to a request, and what ends it (`struct nlp_request`). In `is_dump`
/// and `wants_ack`, 0 means false, and every other number means true.
#[derive(Clone, Copy, Debug, PartialEq, Eq)]
#[repr(C)]
pub struct RequestNumbers {
    /// The sequence number of the request and of its answer.
    pub sequence_number: u32,
    /// The port number of the answer, or 0 to accept every port number.
    pub port_number: u32,
    /// Whether the request is a dump.
    pub is_dump: u32,
    /// Whether the request asks for an acknowledgement.
    pub wants_ack: u32,
}

/// The state of the answer to a request (`struct nlp_replies`). In `ended` and `interrupted`, 0
/// means false, and every other number means true.
#[derive(Clone, Copy, Debug, PartialEq, Eq)]
#[repr(C)]
pub struct RepliesNumbers {
    /// The request.
    pub request: RequestNumbers,
    /// Whether the answer has ended.
    pub ended: u32,
    /// Whether a frame of the answer had the flag `NLM_F_DUMP_INTR`.
    pub interrupted: u32,
}

/// Writes the state in which the answer is open and nothing was read.
///
/// Takes the numbers and `NLM_F_ACK` from the header of the request that is sent. The request is a
/// dump if `is_dump` is not 0. Wraps `Request::dump`, `Request::single` and `Replies::new`. Does
/// not allocate.
#[unsafe(no_mangle)]
pub extern "C" fn nlp_replies_begin(
    header: &NetlinkHeader,
    is_dump: u32,
    replies: &mut RepliesNumbers,
)
    ensures state { replies.new
        ≡ state_numbers (waiting (request_to header.now (is_set is_dump))) }
{
    let request = if is_dump != 0 {
        Request::dump(header)
    } else {
        Request::single(header)
    };
    *replies = numbers_of(&Replies::new(request));
}

/// Reads frames of the datagram, starting at `cursor`, until one is not a noop. Moves the cursor
/// past it, and updates `replies`. Set the cursor to 0 before the first call for a datagram.
///
/// Returns 0 on success, with what the frame means in `reply`. Returns `END` if nothing is left in
/// the datagram; the cursor is then at or past the end. Returns `FrameShort`, `FrameCut` or
/// `FrameLength`, and moves the cursor to the end, if there is no complete frame at the cursor.
/// Returns `DoneShort` or `ErrorShort`, and moves the cursor past the frame, if a done or error
/// message of the answer is too short. After each of these errors, the answer is still open.
/// Changes `reply` only if it returns 0. Wraps `Replies::next_at`. Does not allocate.
#[unsafe(no_mangle)]
pub extern "C" fn nlp_replies_next(
    bytes: &[u8],
    cursor: &mut usize,
    replies: &mut RepliesNumbers,
    reply: &mut ReplyItem,
    fault: &mut FaultNumbers,
) -> u32
    ensures reply { result ≡ 0 → GivesReply (state_from replies.old) bytes.now cursor.old
        reply.new (state_from replies.new) cursor.new }
    ensures end { result ≡ 32 → Gives (state_from replies.old) (drop cursor.old bytes.now) None
        (state_from replies.new) (drop cursor.new bytes.now)
        × (cursor.new ≡ max cursor.old (length bytes.now)) }
    ensures refuses { result ≢ 0 → result ≢ 32
        → Refuses (λ e. Gives (state_from replies.old) (drop cursor.old bytes.now) (Some (Err e))
        (state_from replies.new) (drop cursor.new bytes.now)) result fault.new
        × (cursor.old < cursor.new) × (cursor.new ≤ length bytes.now) }
    ensures flags { replies.new ≡ state_numbers (state_from replies.new) }
    ensures kept { result ≢ 0 → reply.new ≡ reply.old }
    ensures unfaulted { (result ≡ 0) ⊎ (result ≡ 32) → fault.new ≡ fault.old }
{
    let mut state = state_of(replies);
    let result = read(bytes, cursor, &mut state, reply, fault);
    *replies = numbers_of(&state);
    result
}

/// Reads frames as `nlp_replies_next` does.
fn read(
    bytes: &[u8],
    cursor: &mut usize,
    state: &mut Replies,
    reply: &mut ReplyItem,
    fault: &mut FaultNumbers,
) -> u32
    ensures reply { result ≡ 0 → GivesReply state.old bytes.now cursor.old reply.new state.new
        cursor.new }
    ensures end { result ≡ 32 → Gives state.old (drop cursor.old bytes.now) None state.new
        (drop cursor.new bytes.now) × (cursor.new ≡ max cursor.old (length bytes.now)) }
    ensures refuses { result ≢ 0 → result ≢ 32
        → Refuses (λ e. Gives state.old (drop cursor.old bytes.now) (Some (Err e)) state.new
        (drop cursor.new bytes.now)) result fault.new
        × (cursor.old < cursor.new) × (cursor.new ≤ length bytes.now) }
    ensures kept { result ≢ 0 → reply.new ≡ reply.old }
    ensures unfaulted { (result ≡ 0) ⊎ (result ≡ 32) → fault.new ≡ fault.old }
{
    let mut start = 0;
    match state.next_at(bytes, cursor, &mut start) {
        None => END,
        Some(Ok(item)) => {
            *reply = reply_at(bytes, start, &item);
            OK
        }
        Some(Err(cause)) => refused(fault, &cause),
    }
}

/// Returns the state that the numbers mean.
fn state_of(replies: &RepliesNumbers) -> Replies
    ensures { result ≡ state_from replies.now }
{
    let request = Request {
        sequence_number: replies.request.sequence_number,
        port_number: replies.request.port_number,
        is_dump: replies.request.is_dump != 0,
        wants_ack: replies.request.wants_ack != 0,
    };
    Replies::resume(request, replies.ended != 0, replies.interrupted != 0)
}

/// Returns the numbers that mean a state: 1 for true, and 0 for false.
fn numbers_of(state: &Replies) -> RepliesNumbers
    ensures { result ≡ state_numbers state.now }
{
    let request = state.request();
    RepliesNumbers {
        request: RequestNumbers {
            sequence_number: request.sequence_number,
            port_number: request.port_number,
            is_dump: u32::from(request.is_dump),
            wants_ack: u32::from(request.wants_ack),
        },
        ended: u32::from(state.has_ended()),
        interrupted: u32::from(state.is_interrupted()),
    }
}
