//! What the program prints for a datagram. `nlas` explains why each of the two modules has its own
//! loop.

ghost use Rattle.std.specs.Prelude.{◌≡◌, List, ℕ, Option, IfOk, IfErr, string_bytes};
ghost use Rattle.netlink_packet_core.specs.DecodeError.{DecodeError};
ghost use Rattle.netlink_packet_core.specs.Header.{HoldsFrame};
ghost use Rattle.netlink_tree.specs.FrameWalk.{FrameWalk};
ghost use Rattle.netlink_frame.specs.Lines.{frame_line, frame_lines};

use netlink_packet_core::{DecodeError, NetlinkBuffer};
use netlink_tree::Frames;
use netlink_tree::laws::frames_unique;
use std::alloc::{AllocError, Global};

/// Returns the lines of a datagram's frames, up to its end or the error that ends the walk, which
/// `frames_fault` returns. A line has the length and the type of a frame, in decimal. Returns
/// `OutOfMemory`, and no other error, if an allocation fails.
pub fn frames_text(alloc: Global, datagram: &[u8]) -> Result<String, DecodeError>
    ensures lines { IfOk result
        (λ text. (all : List (List ℕ)) × (fault : Option DecodeError)
        × FrameWalk datagram.now all fault × (string_bytes text ≡ frame_lines all)) }
    ensures each { IfOk result
        (λ text. (all : List (List ℕ)) (fault : Option DecodeError)
        → FrameWalk datagram.now all fault → string_bytes text ≡ frame_lines all) }
    ensures memory { IfErr result (λ e. e ≡ DecodeError.OutOfMemory) }
{
    frames_unique();
    Ok(shown_frames(alloc, datagram)?)
}

/// Returns the error that ends the walk of a datagram (`FrameShort`, `FrameCut` or `FrameLength`),
/// or `None` if the walk ends without one. Wraps `frames_fault` of `netlink_tree`. Does not
/// allocate.
pub fn frames_fault(datagram: &[u8]) -> Option<DecodeError>
    ensures fault { (all : List (List ℕ)) × FrameWalk datagram.now all result }
    ensures each { (all : List (List ℕ)) (fault : Option DecodeError)
        → FrameWalk datagram.now all fault → result ≡ fault }
{
    netlink_tree::frames_fault(datagram)
}

/// Returns the lines of a datagram's frames, or `AllocError` if an allocation fails.
fn shown_frames(alloc: Global, datagram: &[u8]) -> Result<String, AllocError>
    ensures { IfOk result
        (λ text. (all : List (List ℕ)) × (fault : Option DecodeError)
        × FrameWalk datagram.now all fault × (string_bytes text ≡ frame_lines all)) }
{
    let mut text = String::new(alloc);
    for item in Frames::new(datagram) {
        match item {
            Ok(frame) => text.push_str(line_text(alloc, frame)?.as_str())?,
            Err(_) => return Ok(text),
        }
    }
    Ok(text)
}

/// Returns the line of a frame. Requires bytes that hold a complete frame. Returns `AllocError` if
/// an allocation fails.
fn line_text(alloc: Global, frame: &[u8]) -> Result<String, AllocError>
    requires { HoldsFrame frame.now }
    ensures { IfOk result (λ text. string_bytes text ≡ frame_line frame.now) }
{
    let view = NetlinkBuffer::new(frame);
    let length = view.length();
    let message_type = view.message_type();
    format!(in alloc; "{length} {message_type}\n")
}
