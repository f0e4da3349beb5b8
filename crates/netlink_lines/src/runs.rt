//! A run of the program over a reader and a writer.

ghost use Rattle.std.specs.Prelude.{◌≡◌, ◌<◌, ◌+◌, Some, IfSome, length};
ghost use Rattle.std.specs.Io.KnownBytes.{prepend_known};
ghost use Rattle.netlink_lines.specs.Check.{check_of};
ghost use Rattle.netlink_lines.specs.Messages.{memory_of};
ghost use Rattle.netlink_lines.specs.Run.{EndsOver, RunsAs, RunsOver, RunsWith, end_of, end_with};
ghost use Rattle.netlink_lines.specs.Stream.{messages_of};

use crate::blocks::blocks;
use crate::capture::packets;
use crate::line::Line;
use crate::next::next_lines;
use crate::options::Options;
use crate::state::State;
use netlink_input::fault::Fault;
use netlink_input::pcap::{FILE_HEADER_LEN, Layout, is_nano, layout_of};
use netlink_input::start::read_start;
use netlink_input::stream::{Next, Stop, read_frame, skip_padding};
use netlink_program::write_through;
use std::alloc::Global;
use std::io::{Read, Write};

/// How messages ended, unless the reader, the writer or an allocation failed.
#[derive(Debug, Drop)]
pub(crate) struct Outcome {
    /// Whether a message was malformed.
    pub(crate) is_malformed: bool,
    /// Where the messages end before the end of the reader.
    pub(crate) stop: Option<Stop>,
}

/// Reads one message after another, or one packet after another if the input starts as a pcap or
/// pcapng file, and writes the lines of each, and flushes the writer, before it reads another byte.
/// Keeps one frame in memory, or one packet with its lines, and the names of at most 65,536 links.
///
/// Reads to the end of the input, or up to a message or packet that cannot be read, and then
/// returns `Stopped`, after it has written the lines of the whole messages in a packet of a pcap
/// file that the end of the input cuts; so it does at the start if the input is a pcap file that is
/// not read. Returns `Malformed` at the end if a message or packet was malformed. Returns `Read` if
/// the reader fails, or does not reach its end within 2^64 - 1 messages or packets, calls for one
/// of them, or bytes (in a pcap file, within 2^64 - 2^21 bytes and one packet, and in a pcapng
/// file, 2^64 - 2^33 and one block); `Write` if the writer or its flush fails; and `OutOfMemory` if
/// an allocation fails. The lines of all messages or packets before the error are written.
pub fn run<F: Line, R: Read, W: Write>(
    alloc: Global,
    reader: &mut R,
    writer: &mut W,
) -> Result<(), Fault>
    ensures runs { IfSome (R.remaining reader.old) (λ input.
        RunsAs (check_of F.Table) input (R.remaining reader.new)
        (W.contents writer.old) (W.contents writer.new) result) }
{
    let plain = Options {
        labels: false,
        times: false,
        bytes: false,
        json: false,
    };
    run_with::<F, R, W>(alloc, plain, reader, writer)
}

/// Runs as `run` does, and prints besides the lines what the options ask for.
pub fn run_with<F: Line, R: Read, W: Write>(
    alloc: Global,
    options: Options,
    reader: &mut R,
    writer: &mut W,
) -> Result<(), Fault>
    ensures runs { IfSome (R.remaining reader.old) (λ input.
        RunsWith (check_of F.Table) options input (R.remaining reader.new)
        (W.contents writer.old) (W.contents writer.new) result) }
{
    let mut first = Vec::with_capacity(alloc, FILE_HEADER_LEN)?;
    read_start(reader, &mut first)?;
    let mut state = State::new(alloc, options);
    match layout_of(&first) {
        Layout::Messages => messages::<F, R, W>(alloc, &mut state, 0, first, reader, writer),
        Layout::Packets(order) => {
            let is_nano = is_nano(order, &first);
            packets::<F, R, W>(alloc, &mut state, order, is_nano, reader, writer)
        }
        Layout::Blocks => blocks::<F, R, W>(alloc, &mut state, first, reader, writer),
        Layout::Unread(stop) => Err(Fault::Stopped(stop)),
    }
}

/// Writes the lines of messages as `all_messages` does, and ends as `run` does.
fn messages<F: Line, R: Read, W: Write>(
    alloc: Global,
    state: &mut State,
    base: u64,
    first: Vec<u8>,
    reader: &mut R,
    writer: &mut W,
) -> Result<(), Fault>
    requires few { length first.items < 16 }
    ensures runs { IfSome (prepend_known first.items (R.remaining reader.old)) (λ bytes.
        RunsOver (messages_of (check_of F.Table)) (memory_of state.old)
        (base + length bytes) bytes (R.remaining reader.new) (W.contents writer.old) (W.contents writer.new)
        (memory_of state.new) result) }
{
    let outcome = all_messages::<F, R, W>(alloc, state, base, first, reader, writer)?;
    end_with(outcome)
}

/// Writes the lines of messages, of which the first is at offset `base` of the input, after the
/// messages that left this state, and updates the state. The vector has the bytes of the first message
/// that were read before, fewer than 16.
///
/// Reads to the end of the reader, or up to a message that cannot be read. Fails as `run` does.
pub(crate) fn all_messages<F: Line, R: Read, W: Write>(
    alloc: Global,
    state: &mut State,
    base: u64,
    first: Vec<u8>,
    reader: &mut R,
    writer: &mut W,
) -> Result<Outcome, Fault>
    requires few { length first.items < 16 }
    ensures runs { IfSome (prepend_known first.items (R.remaining reader.old)) (λ bytes.
        EndsOver (messages_of (check_of F.Table)) (memory_of state.old)
        (base + length bytes) bytes (R.remaining reader.new) (W.contents writer.old) (W.contents writer.new)
        (memory_of state.new) result) }
{
    let mut frame = first;
    let mut at = base;
    let mut is_malformed = false;
    for _ in 0..u64::MAX {
        match read_frame(reader, &mut frame)? {
            Next::Frame => {}
            Next::End => {
                let stop = None;
                return Ok(Outcome { is_malformed, stop });
            }
            Next::Stop(cause) => {
                let stop = Some(Stop { at, cause });
                return Ok(Outcome { is_malformed, stop });
            }
        }
        let message = next_lines::<F>(alloc, state, at, &frame)?;
        write_through(writer, message.text.as_bytes())?;
        is_malformed = is_malformed || message.is_malformed;
        let padding = skip_padding(reader, frame.len())?;
        match at.checked_add((frame.len() + padding) as u64) {
            Some(next) => at = next,
            None => return Err(Fault::Read),
        }
        frame.clear();
    }
    Err(Fault::Read)
}

/// Returns how a run ends whose messages ended so.
fn end_with(outcome: Outcome) -> Result<(), Fault>
    ensures is { result ≡ end_with outcome }
{
    match outcome.stop {
        None => end_of(outcome.is_malformed),
        Some(stop) => Err(Fault::Stopped(stop)),
    }
}

/// Returns how a run ends at the end of its input.
pub(crate) fn end_of(is_malformed: bool) -> Result<(), Fault>
    ensures is { result ≡ end_of is_malformed }
{
    if is_malformed {
        return Err(Fault::Malformed);
    }
    Ok(())
}
