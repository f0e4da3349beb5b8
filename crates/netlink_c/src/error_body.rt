//! The body of an error message: the code, the request that it answers, and the extended
//! acknowledgement.

ghost use Rattle.std.specs.Prelude.{◌≡◌, ◌≢◌, ◌+◌, ◌≤◌, drop, length};
ghost use Rattle.netlink_packet_core.specs.Header.{field};
ghost use Rattle.netlink_packet_core.specs.Numbers.{signed};
ghost use Rattle.netlink_replies.specs.Bodies.{error_attributes, request_of};
ghost use Rattle.netlink_c.specs.Bodies.{IsShortError};
ghost use Rattle.netlink_c.specs.Fault.{Refuses};
ghost use Rattle.netlink_c.specs.Parts.{part_of};

use crate::fault::{FaultNumbers, refused};
use crate::frame::Part;
use crate::results::OK;
use netlink_packet_core::{DecodeError, i32_at};

/// The size in bytes of the code, which precedes the request.
const CODE_SIZE: usize = 4;

/// The body of an error message (`struct nlp_error`).
#[derive(Clone, Copy, Debug, PartialEq, Eq)]
#[repr(C)]
pub struct ErrorBody {
    /// 0 for an acknowledgement, else a negative errno.
    pub code: i32,
    /// The header of the request, and what is present of its payload.
    pub request: Part,
    /// The attributes of the extended acknowledgement, or a part of size 0.
    pub attributes: Part,
}

/// Reads the body of a message of type `NLMSG_ERROR` whose header has these flags: its code, and
/// where the request and the attributes that follow it are, as `netlink_replies::ErrorBody` says.
/// Returns 0, or the number of `ErrorShort` if there are fewer than 4 bytes. Wraps `ErrorBody`. Does
/// not allocate.
#[unsafe(no_mangle)]
pub extern "C" fn nlp_error_body(
    payload: &[u8],
    flags: u16,
    body: &mut ErrorBody,
    fault: &mut FaultNumbers,
) -> u32
    ensures code { result ≡ 0 → (4 ≤ length payload.now)
        × (body.new.code ≡ signed 4 (field 0 4 payload.now)) }
    ensures request { result ≡ 0 → (body.new.request.offset ≡ 4)
        × (part_of body.new.request payload.now ≡ request_of flags (drop 4 payload.now)) }
    ensures attributes { result ≡ 0
        → (body.new.attributes.offset + body.new.attributes.size ≡ length payload.now)
        × (part_of body.new.attributes payload.now ≡ error_attributes flags (drop 4 payload.now)) }
    ensures unfaulted { result ≡ 0 → fault.new ≡ fault.old }
    ensures refuses { result ≢ 0 → Refuses (IsShortError payload.now) result fault.new
        × (body.new ≡ body.old) }
{
    let size = payload.len();
    if size < CODE_SIZE {
        return refused(
            fault,
            &DecodeError::ErrorShort {
                size,
                inside: false,
            },
        );
    }
    let parts = netlink_replies::ErrorBody::new(flags, &payload[CODE_SIZE..]);
    *body = ErrorBody {
        code: i32_at(payload, 0),
        request: Part {
            offset: CODE_SIZE,
            size: parts.request.len(),
        },
        attributes: Part {
            offset: size - parts.attributes.len(),
            size: parts.attributes.len(),
        },
    };
    OK
}
