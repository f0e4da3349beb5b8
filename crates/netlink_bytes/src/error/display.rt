//! The text of each error.

ghost use Rattle.std.specs.Prelude.{◌≡◌};
ghost use Rattle.netlink_bytes.specs.Causes.{cause_text, done_line, error_line, frame_line};

use crate::error::DecodeError;
use std::fmt;

impl fmt::Display for DecodeError {
    ghost use Rattle.std.specs.Prelude.{Some};

    ghost output = { λ e. Some (cause_text e) };

    /// Prints the error text, prefixed with the line of its message or body if `inside` is true.
    fn fmt<W: fmt::Write>(&self, f: &mut fmt::Formatter<W>) -> fmt::Result {
        match self {
            DecodeError::InvalidBuffer {
                name,
                received,
                minimum_length,
            } => write!(
                f,
                "Invalid buffer {name}. Expected at least {minimum_length} bytes, \
                 received {received} bytes"
            ),
            DecodeError::InvalidMacAddress { received } => write!(
                f,
                "Invalid MAC address. Expected 6 bytes, received {received} bytes"
            ),
            DecodeError::InvalidIpAddress { received } => write!(
                f,
                "Invalid IP address. Expected 4 or 16 bytes, received {received} bytes"
            ),
            DecodeError::InvalidNumber { expected, received } => write!(
                f,
                "Invalid number. Expected {expected} bytes, received {received} bytes"
            ),
            DecodeError::NlaBufferTooSmall {
                buffer_len,
                nla_len,
            } => write!(
                f,
                "buffer has length {buffer_len}, but an NLA header is {nla_len} bytes"
            ),
            DecodeError::NlaLengthMismatch {
                buffer_len,
                nla_len,
            } => write!(
                f,
                "buffer has length: {buffer_len}, but the NLA is {nla_len} bytes"
            ),
            DecodeError::NlaInvalidLength {
                buffer_len,
                nla_len,
            } => write!(
                f,
                "NLA has invalid length: {nla_len} (should be at least {buffer_len} bytes)"
            ),
            DecodeError::BufferTooSmall {
                buffer_len,
                value_len,
            } => write!(
                f,
                "Buffer too small: {buffer_len} (should be at least {value_len} bytes"
            ),
            DecodeError::FrameShort { size, inside } => {
                f.write_str(frame_line(*inside))?;
                write!(
                    f,
                    "invalid netlink buffer length caused by invalid netlink buffer: \
                     length is {size} but netlink packets are at least 16 bytes"
                )
            }
            DecodeError::FrameCut {
                length,
                size,
                inside,
            } => {
                f.write_str(frame_line(*inside))?;
                write!(
                    f,
                    "invalid netlink buffer length caused by invalid netlink buffer: \
                     length field says {length} the buffer is {size} bytes long"
                )
            }
            DecodeError::FrameLength { length, inside } => {
                f.write_str(frame_line(*inside))?;
                write!(
                    f,
                    "invalid netlink buffer length caused by invalid netlink buffer: \
                     length field says {length} but netlink packets are at least 16 bytes"
                )
            }
            DecodeError::DoneShort { size, inside } => {
                f.write_str(done_line(*inside))?;
                write!(
                    f,
                    "invalid DoneBuffer length caused by invalid DoneBuffer: \
                     length is {size} but DoneBuffer are at least 4 bytes"
                )
            }
            DecodeError::ErrorShort { size, inside } => {
                f.write_str(error_line(*inside))?;
                write!(
                    f,
                    "invalid ErrorBuffer length caused by invalid ErrorBuffer: \
                     length is {size} but ErrorBuffer are at least 4 bytes"
                )
            }
            DecodeError::Message(text) => f.write_str(text.as_str()),
            DecodeError::TooLong => f.write_str("message does not fit a 32-bit length"),
            DecodeError::OutOfMemory => f.write_str("out of memory"),
        }
    }
}

/// Returns the line before the text of a frame's error, which is empty unless `inside` is true.
fn frame_line(inside: bool) -> &'static str
    ensures { result.now ≡ frame_line inside }
{
    if inside {
        "failed deserializing NetlinkMessage caused by "
    } else {
        ""
    }
}

/// Returns the line before the text of an error in a done message's body, which is empty unless
/// `inside` is true.
fn done_line(inside: bool) -> &'static str
    ensures { result.now ≡ done_line inside }
{
    if inside {
        "failed to parse NLMSG_DONE caused by "
    } else {
        ""
    }
}

/// Returns the line before the text of an error in an error message's body, which is empty unless
/// `inside` is true.
fn error_line(inside: bool) -> &'static str
    ensures { result.now ≡ error_line inside }
{
    if inside {
        "failed parsing NLMSG_ERROR caused by "
    } else {
        ""
    }
}
