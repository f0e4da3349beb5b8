//! A run over the packets of a pcap file.

ghost use Rattle.std.specs.Prelude.{◌+◌, ◌<◌, ◌^◌, IfSome, length};
ghost use Rattle.netlink_lines.specs.Check.{check_of};
ghost use Rattle.netlink_lines.specs.Messages.{memory_of};
ghost use Rattle.netlink_lines.specs.Packet.{packets_of};
ghost use Rattle.netlink_input.specs.Packet.{torn_of};
ghost use Rattle.netlink_lines.specs.Run.{RunsOver, WritesTorn};

use crate::line::Line;
use crate::packet::{packet_lines, torn_lines, torn_of};
use crate::runs::end_of;
use crate::state::State;
use netlink_input::fault::Fault;
use netlink_input::packet::{NextPacket, read_packet};
use netlink_input::pcap::{FILE_HEADER_LEN, Order, PcapFault};
use netlink_input::stream::{Cause, Stop};
use netlink_input::time::pcap_time;
use netlink_program::write_through;
use std::alloc::Global;
use std::io::{Read, Write};

/// The greatest offset at which a packet may start, 2 MiB below 2^64: the offsets in the longest
/// packet are below 2^64.
const LAST: u64 = 0xffff_ffff_ffe0_0000;

/// Reads one packet after another of a pcap file, whose header was read, and writes the lines of each,
/// and flushes the writer, before it reads another byte. Keeps one packet and its lines in memory.
///
/// Ends as `run` does, at the end of the file or at a packet that cannot be read. Of a packet that the
/// end of the file cuts, the lines of the whole messages are written.
pub(crate) fn packets<F: Line, R: Read, W: Write>(
    alloc: Global,
    state: &mut State,
    order: Order,
    is_nano: bool,
    reader: &mut R,
    writer: &mut W,
) -> Result<(), Fault>
    ensures runs { IfSome (R.remaining reader.old) (λ bytes.
        RunsOver (packets_of (check_of F.Table) order is_nano) (memory_of state.old)
        (24 + length bytes) bytes (R.remaining reader.new) (W.contents writer.old) (W.contents writer.new)
        (memory_of state.new) result) }
{
    let mut packet = Vec::new(alloc);
    let mut lines = Vec::new(alloc);
    let mut at = FILE_HEADER_LEN as u64;
    let mut is_malformed = false;
    for _ in 0..u64::MAX {
        if at > LAST {
            return Err(Fault::Read);
        }
        match read_packet(order, reader, &mut packet)? {
            NextPacket::Packet => {}
            NextPacket::End => return end_of(is_malformed),
            NextPacket::Stop(why) => {
                state.stamp(pcap_time(order, is_nano, torn_of(&why, &packet)));
                write_stopped::<F, W>(alloc, state, at, &why, &packet, writer)?;
                let cause = Cause::Pcap(why);
                return Err(Fault::Stopped(Stop { at, cause }));
            }
        }
        state.stamp(pcap_time(order, is_nano, &packet));
        let is_bad = packet_lines::<F>(alloc, state, at, order, &packet, &mut lines)?;
        write_through(writer, &lines)?;
        is_malformed = is_malformed || is_bad;
        at += packet.len() as u64;
    }
    Err(Fault::Read)
}

/// Writes the lines of what was read of a packet at this offset of the input, at which the packets stop
/// for this cause. Returns `Write` if the writer fails, and `OutOfMemory` if an allocation does.
fn write_stopped<F: Line, W: Write>(
    alloc: Global,
    state: &mut State,
    at: u64,
    why: &PcapFault,
    packet: &[u8],
    writer: &mut W,
) -> Result<(), Fault>
    requires room { at + 32 < 2 ^ 64 }
    ensures writes { WritesTorn (check_of F.Table) at (torn_of why.now packet.now)
        (memory_of state.old) (memory_of state.new) (W.contents writer.old) (W.contents writer.new) result }
{
    let mut lines = Vec::new(alloc);
    torn_lines::<F>(alloc, state, at, torn_of(why, packet), &mut lines)?;
    write_through(writer, &lines)?;
    Ok(())
}
