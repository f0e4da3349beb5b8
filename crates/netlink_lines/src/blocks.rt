//! A run over the blocks of a pcapng file.

ghost use Rattle.std.specs.Prelude.{◌≡◌, ◌<◌, ◌+◌, ◌^◌, IfErr, IfOk, IfSome, length};
ghost use Rattle.std.specs.Io.KnownBytes.{prepend_known};
ghost use Rattle.netlink_lines.specs.Check.{check_of};
ghost use Rattle.netlink_input.specs.Packet.{IsExtent};
ghost use Rattle.netlink_lines.specs.Blocks.{TellsBlock, blocks_of};
ghost use Rattle.netlink_lines.specs.Messages.{memory_of};
ghost use Rattle.netlink_lines.specs.Run.{RunsOver};

use crate::line::Line;
use crate::packet::extent_lines;
use crate::runs::end_of;
use crate::state::State;
use netlink_input::block::Section;
use netlink_input::blocks::{NextBlock, read_block};
use netlink_input::fault::Fault;
use netlink_input::packet::Extent;
use netlink_input::stream::{Cause, Stop};
use netlink_program::write_through;
use std::alloc::Global;
use std::io::{Read, Write};

/// The greatest offset at which a block may start, 2^33 below 2^64: the offset after it is below
/// 2^64.
const LAST: u64 = 0xffff_fffe_0000_0000;

/// Reads one block after another of a pcapng file, and writes the lines of the packet in each, and
/// flushes the writer, before it reads another byte. Keeps one packet and its lines in memory. The
/// vector has the first bytes of the file, fewer than 8, which were read before.
///
/// Ends as `run` does, at the end of the file or at a block that cannot be read.
pub(crate) fn blocks<F: Line, R: Read, W: Write>(
    alloc: Global,
    state: &mut State,
    first: Vec<u8>,
    reader: &mut R,
    writer: &mut W,
) -> Result<(), Fault>
    requires few { length first.items < 8 }
    ensures runs { IfSome (prepend_known first.items (R.remaining reader.old)) (λ bytes.
        RunsOver (blocks_of (check_of F.Table) bytes) (memory_of state.old)
        (length bytes) bytes (R.remaining reader.new) (W.contents writer.old) (W.contents writer.new)
        (memory_of state.new) result) }
{
    let mut block = first;
    let mut lines = Vec::new(alloc);
    let mut section = Section::start();
    let mut at = 0u64;
    let mut is_malformed = false;
    for _ in 0..u64::MAX {
        if at > LAST {
            return Err(Fault::Read);
        }
        let next = match read_block(section, reader, &mut block)? {
            NextBlock::Block(next) => next,
            NextBlock::End => return end_of(is_malformed),
            NextBlock::Stop(why) => {
                let cause = Cause::Pcap(why);
                return Err(Fault::Stopped(Stop { at, cause }));
            }
        };
        state.stamp(next.time);
        let is_bad = block_lines::<F>(alloc, state, at, next.packet, &block, &mut lines)?;
        write_through(writer, &lines)?;
        is_malformed = is_malformed || is_bad;
        at += next.size as u64;
        section = next.section;
        block.clear();
    }
    Err(Fault::Read)
}

/// Writes the lines of the packet in a block, which starts at this offset of the input, into a
/// vector, whose old contents it drops, and returns whether something in the packet is malformed. A
/// block without a packet has no lines. Returns `OutOfMemory` if an allocation fails.
fn block_lines<F: Line>(
    alloc: Global,
    state: &mut State,
    at: u64,
    packet: Option<Extent>,
    block: &[u8],
    lines: &mut Vec<u8>,
) -> Result<bool, Fault>
    requires extent { IfSome packet (λ extent. IsExtent extent block.now) }
    requires room { at + 44 < 2 ^ 64 }
    ensures tells { IfOk result (λ malformed. TellsBlock (check_of F.Table) packet at
        block.now (memory_of state.old) (lines.new.items, malformed) (memory_of state.new)) }
    ensures fault { IfErr result (λ fault. fault ≡ Fault.OutOfMemory) }
{
    match packet {
        Some(extent) => extent_lines::<F>(alloc, state, at, extent, block, lines),
        None => {
            lines.clear();
            Ok(false)
        }
    }
}
