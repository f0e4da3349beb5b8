//! The messages of a stream, one frame at a time.

ghost use Rattle.std.specs.Prelude.{◌≡◌, ◌≤◌, ◌<◌, ◌⊎◌, Some, IfErr, IfOk, OnOk, length};
ghost use Rattle.std.specs.Io.KnownBytes.{prepend_known};
ghost use Rattle.netlink_packet_core.specs.Attribute.{padding};
ghost use Rattle.netlink_input.specs.Reading.{GivesNext, ReadsUpTo, Skips, SkipsPart, Tries, TriesUpTo};
ghost use Rattle.netlink_input.specs.Stream.{longest, stop_text, why_text};

use crate::fault::Fault;
use crate::pcap::PcapFault;
use netlink_packet_core::{DecodeError, NETLINK_HEADER_LEN, nlmsg_align, u32_at};
use netlink_program::fill;
use std::fmt;
use std::io::Read;

/// The size in bytes of the longest message, and of the longest packet, that is read.
pub const LONGEST: usize = 1_048_576;

/// Where the messages end before the end of the input, and why.
#[derive(Debug, Drop, PartialEq, Eq)]
pub struct Stop {
    /// The offset in bytes at which the message starts.
    pub at: u64,
    /// Why it cannot be read.
    pub cause: Cause,
}

/// Why a message cannot be read.
#[derive(Debug, Drop, PartialEq, Eq)]
pub enum Cause {
    /// Its frame is damaged: `FrameShort`, `FrameCut` or `FrameLength`.
    Damaged(DecodeError),
    /// Its length field, which is this, is above 1048576.
    TooLong(u32),
    /// It is in a pcap file, which cannot be read, or not from this packet on.
    Pcap(PcapFault),
}

impl fmt::Display for Cause {
    ghost output = { λ cause. Some (why_text cause) };

    fn fmt<W: fmt::Write>(&self, f: &mut fmt::Formatter<W>) -> fmt::Result {
        match self {
            Cause::Damaged(error) => write!(f, "{error}"),
            Cause::TooLong(said) => {
                let size = *said;
                write!(f, "a message of {size} bytes is longer than 1048576")
            }
            Cause::Pcap(why) => write!(f, "{why}"),
        }
    }
}

impl fmt::Display for Stop {
    ghost output = { λ stop. Some (stop_text stop) };

    fn fmt<W: fmt::Write>(&self, f: &mut fmt::Formatter<W>) -> fmt::Result {
        let at = self.at;
        let cause = &self.cause;
        write!(f, "byte {at}: {cause}")
    }
}

/// What follows in a stream.
#[derive(Debug, Drop)]
pub enum Next {
    /// A frame.
    Frame,
    /// Nothing: the stream ends.
    End,
    /// Bytes that no message starts with that can be read.
    Stop(Cause),
}

/// Reads the next frame of a stream into a vector, and no byte after it. The vector has its first
/// bytes, fewer than 16, if they were read before.
///
/// Returns `Stop` if the stream ends within the frame, or if the length field is below 16 or above
/// 1048576. Returns `Read` if the reader fails; it has then not given a whole frame. Returns
/// `OutOfMemory` if an allocation for the frame fails.
pub fn read_frame<R: Read>(reader: &mut R, frame: &mut Vec<u8>) -> Result<Next, Fault>
    requires few { length frame.old.items < 16 }
    ensures next { IfOk result (GivesNext (prepend_known frame.old.items (R.remaining reader.old))
        (R.remaining reader.new) frame.new.items) }
    ensures fault { IfErr result (λ fault. (fault ≡ Fault.OutOfMemory) ⊎ ((fault ≡ Fault.Read)
        × Tries (prepend_known frame.old.items (R.remaining reader.old)) (R.remaining reader.new))) }
{
    read_up_to(reader, frame, NETLINK_HEADER_LEN)?;
    let size = frame.len();
    if size == 0 {
        return Ok(Next::End);
    }
    if size < NETLINK_HEADER_LEN {
        return Ok(Next::Stop(Cause::Damaged(DecodeError::FrameShort { size, inside: true })));
    }
    let length = u32_at(frame, 0);
    if (length as usize) < NETLINK_HEADER_LEN {
        return Ok(Next::Stop(Cause::Damaged(DecodeError::FrameLength {
            length,
            inside: true,
        })));
    }
    if length as usize > LONGEST {
        return Ok(Next::Stop(Cause::TooLong(length)));
    }
    read_up_to(reader, frame, length as usize)?;
    let size = frame.len();
    if size < length as usize {
        return Ok(Next::Stop(Cause::Damaged(DecodeError::FrameCut {
            length,
            size,
            inside: true,
        })));
    }
    Ok(Next::Frame)
}

/// Reads on until a vector has this many bytes, or the reader is at its end. Requires that it does not
/// have more.
///
/// Returns `Read` if the reader fails; it has then given fewer bytes. Returns `OutOfMemory` if an
/// allocation for the bytes fails.
pub fn read_up_to<R: Read>(reader: &mut R, bytes: &mut Vec<u8>, size: usize) -> Result<(), Fault>
    requires less { length bytes.old.items ≤ size }
    ensures reads { OnOk result (ReadsUpTo (R.remaining reader.old) (R.remaining reader.new)
        bytes.old.items bytes.new.items size) }
    ensures fault { IfErr result (λ fault. (fault ≡ Fault.OutOfMemory) ⊎ ((fault ≡ Fault.Read)
        × TriesUpTo (R.remaining reader.old) (R.remaining reader.new) bytes.old.items size)) }
{
    let start = bytes.len();
    bytes.resize(size, 0)?;
    let n = fill(reader, &mut bytes[start..])?;
    bytes.truncate(start + n);
    Ok(())
}

/// Reads the padding after a frame of this size, as far as the stream has it, and returns the number
/// of bytes. Returns `Read` if the reader fails.
pub fn skip_padding<R: Read>(reader: &mut R, size: usize) -> Result<usize, Fault>
    requires room { size ≤ longest }
    ensures few { IfOk result (λ n. n < 4) }
    ensures skips { IfOk result (Skips (R.remaining reader.old) (R.remaining reader.new) (padding size)) }
    ensures fault { IfErr result (λ fault. (fault ≡ Fault.Read)
        × SkipsPart (R.remaining reader.old) (R.remaining reader.new) (padding size)) }
{
    let mut gap = [0u8; 4];
    let padding = nlmsg_align(size) - size;
    let n = fill(reader, &mut gap[..padding])?;
    Ok(n)
}
