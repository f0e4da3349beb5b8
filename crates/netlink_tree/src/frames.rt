//! The frames of a datagram, one after another.

ghost use Rattle.std.specs.Prelude.{◌≡◌, ◌+◌, ◌%◌, ◌^◌, ◌<◌, ◌≤◌, ◌++◌, ◌⊎◌, ◌∷◌, [], List, ℕ, None, false, IfErr, IfOk, IsOk, OnErr, OnOk, Option, length, vec_len, vec_capacity};
ghost use Rattle.std.specs.Iterator.{at_most};
ghost use Rattle.netlink_packet_core.specs.DecodeError.{DecodeError};
ghost use Rattle.netlink_packet_core.specs.Header.{field, HoldsFrame};
ghost use Rattle.netlink_packet_core.specs.Refusal.{IsFrameFault};
ghost use Rattle.netlink_tree.specs.FrameSteps.{unread_frames, frame_steps, frame_bound, GivesFrames};
ghost use Rattle.netlink_packet_core.specs.FrameWalk.{StartsFrame, FrameWalk, frame_of, padded_frame};

use netlink_packet_core::{DecodeError, NetlinkBuffer, append_padding, nlmsg_align};
use std::alloc::Global;

/// An iterator over the frames of a datagram, in order. An error (`FrameShort`, `FrameCut` or
/// `FrameLength`) is the last item; from then on, `next` returns `None`.
///
/// An item is a frame without its padding, which `NetlinkBuffer::new_checked` accepts. Two
/// iterators are equal if and only if the bytes still to be walked are equal. No method allocates.
#[derive(Clone, Copy, Debug, PartialEq, Eq)]
pub struct Frames<T> {
    rest: T,
}

impl<'a> Frames<&'a [u8]> {
    /// Returns an iterator over the frames of `buffer`.
    #[inline]
    pub fn new(buffer: &'a [u8]) -> Self
        ensures keeps { unread_frames result ≡ buffer.now }
        ensures items { GivesFrames result }
    {
        Frames { rest: buffer }
    }
}

impl<'a> Iterator for Frames<&'a [u8]> {
    type Item = Result<&'a [u8], DecodeError>;

    ghost next_gives = { frame_steps };

    ghost remaining = { λ walk. at_most (frame_bound (unread_frames walk)) };

    #[inline]
    fn next(&mut self) -> Option<Result<&'a [u8], DecodeError>> {
        let bytes = self.rest;
        match first_frame(bytes) {
            Ok(frame) => {
                self.rest = after_frame(bytes, frame.len());
                Some(Ok(frame))
            }
            // The end is tested only here, which is faster: no frame fits into the empty slice.
            Err(fault) => {
                if bytes.is_empty() {
                    return None;
                }
                self.rest = &[];
                Some(Err(fault))
            }
        }
    }
}

/// Returns the error that ends the walk of a datagram (`FrameShort`, `FrameCut` or `FrameLength`),
/// or `None` if the walk ends without one.
///
/// So `None` means that the bytes are frames from the first byte to the last. Does not allocate.
pub fn frames_fault(datagram: &[u8]) -> Option<DecodeError>
    ensures fault { (all : List (List ℕ)) × FrameWalk datagram.now all result }
    ensures each { (all : List (List ℕ)) (fault : Option DecodeError)
        → FrameWalk datagram.now all fault → result ≡ fault }
{
    for item in Frames::new(datagram) {
        match item {
            Ok(_) => {}
            Err(fault) => return Some(fault),
        }
    }
    None
}

/// Returns the frame that the bytes start with, or the error if they hold no complete frame.
#[inline(always)]
fn first_frame(bytes: &[u8]) -> Result<&[u8], DecodeError>
    ensures whole { OnOk result (HoldsFrame bytes.now) }
    ensures frame { IfOk result (λ frame. frame.now ≡ frame_of bytes.now) }
    ensures size { IfOk result (λ frame. length frame.now ≡ field 0 4 bytes.now) }
    ensures fits { OnOk result (field 0 4 bytes.now < 2 ^ 32) }
    ensures refuses { IfErr result (IsFrameFault false bytes.now) }
{
    let size = NetlinkBuffer::new_checked(bytes)?.length() as usize;
    Ok(&bytes[..size])
}

/// Returns what follows the frame that the bytes start with, and its padding. Requires that the
/// bytes hold a complete frame, and that `size` is its length field and less than 2^32.
#[inline(always)]
fn after_frame(bytes: &[u8], size: usize) -> &[u8]
    requires whole { HoldsFrame bytes.now }
    requires size { size ≡ field 0 4 bytes.now }
    requires fits { size < 2 ^ 32 }
    ensures starts { StartsFrame bytes.now (frame_of bytes.now) result.now }
    ensures shorter { length result.now + 16 ≤ length bytes.now }
{
    let end = nlmsg_align(size);
    if end < bytes.len() {
        &bytes[end..]
    } else {
        &[]
    }
}

/// Appends a frame to a datagram, padded with zeros. Requires that the size of the datagram in
/// bytes is a multiple of 4, as it is if the datagram is empty and after each call.
///
/// Appends the first `length` bytes of `frame`, and ignores what follows them. Returns the error of
/// `NetlinkBuffer::new_checked` (`FrameShort`, `FrameCut` or `FrameLength`), without allocating, if
/// `frame` holds no complete frame. Returns `Ok` if the datagram has room. Otherwise allocates with
/// the datagram's own allocator, and returns `OutOfMemory` if that fails. After an error, the
/// datagram is unchanged.
pub fn append_frame(_alloc: Global, datagram: &mut Vec<u8>, frame: &[u8]) -> Result<(), DecodeError>
    requires aligned { length datagram.old.items % 4 ≡ 0 }
    ensures whole { OnOk result (HoldsFrame frame.now) }
    ensures appended { OnOk result
        (datagram.new.items ≡ datagram.old.items ++ padded_frame (frame_of frame.now)) }
    ensures refuses { IfErr result
        (λ e. IsFrameFault false frame.now e
        ⊎ (HoldsFrame frame.now × (e ≡ DecodeError.OutOfMemory))) }
    ensures unchanged { OnErr result (datagram.new.items ≡ datagram.old.items) }
    ensures room { HoldsFrame frame.now
        → vec_len datagram.old + length (padded_frame (frame_of frame.now))
        ≤ vec_capacity datagram.old → IsOk result }

    // what the datagram is then, for those who walk it or append to it
    ensures walk { OnOk result
        ((all : List (List ℕ)) → FrameWalk datagram.old.items all None
        → FrameWalk datagram.new.items (all ++ (frame_of frame.now ∷ [])) None) }
    ensures aligned { length datagram.new.items % 4 ≡ 0 }
{
    let text = first_frame(frame)?;
    let whole = nlmsg_align(text.len());
    datagram.reserve(whole)?;
    datagram.extend_from_slice(text)?;
    append_padding(datagram, whole - text.len())?;
    Ok(())
}
