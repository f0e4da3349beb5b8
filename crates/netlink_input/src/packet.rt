//! The packets of a pcap file, one at a time.

ghost use Rattle.std.specs.Prelude.{◌≡◌, ◌≤◌, ◌⊎◌, IfErr, IfOk, length};
ghost use Rattle.netlink_input.specs.Packet.{extent_of};
ghost use Rattle.netlink_input.specs.Reading.{GivesPacket, KeepsTorn, TriesPacket};

use crate::fault::Fault;
use crate::pcap::{Order, PcapFault, u32_in};
use crate::stream::{LONGEST, read_up_to};
use std::io::Read;

/// The size in bytes of the header of a packet, and of that of its datagram.
pub const HEADER_LEN: usize = 16;

/// Which bytes of a packet there are.
#[derive(Clone, Copy, Debug, PartialEq, Eq)]
pub struct Extent {
    /// The number of bytes before the captured ones.
    pub from: usize,
    /// The number of bytes that were captured.
    pub captured: u32,
    /// The number of bytes that the packet had.
    pub original: u32,
}

/// What follows in a pcap file.
#[derive(Debug)]
pub enum NextPacket {
    /// A packet.
    Packet,
    /// Nothing: the file ends.
    End,
    /// Bytes that no packet starts with that can be read.
    Stop(PcapFault),
}

/// Reads the next packet of a pcap file with its header into a vector, whose old contents it drops,
/// and no byte after it.
///
/// Returns `Stop` if the file ends within the packet, whose bytes the vector has then, or if its
/// captured length is above 1048576.
/// Returns `Read` if the reader fails; it has then not given a whole packet. Returns `OutOfMemory` if
/// an allocation for the packet fails.
pub fn read_packet<R: Read>(
    order: Order,
    reader: &mut R,
    packet: &mut Vec<u8>,
) -> Result<NextPacket, Fault>
    ensures next { IfOk result (GivesPacket order (R.remaining reader.old) (R.remaining reader.new) packet.new.items) }
    ensures torn { IfOk result (KeepsTorn (R.remaining reader.old) packet.new.items) }
    ensures fault { IfErr result (λ fault. (fault ≡ Fault.OutOfMemory) ⊎ ((fault ≡ Fault.Read)
        × TriesPacket order (R.remaining reader.old) (R.remaining reader.new))) }
{
    packet.clear();
    read_up_to(reader, packet, HEADER_LEN)?;
    let size = packet.len();
    if size == 0 {
        return Ok(NextPacket::End);
    }
    if size < HEADER_LEN {
        return Ok(NextPacket::Stop(PcapFault::PacketShort(size)));
    }
    let captured = u32_in(order, packet, 8);
    if captured as usize > LONGEST {
        return Ok(NextPacket::Stop(PcapFault::PacketLong(captured)));
    }
    read_up_to(reader, packet, HEADER_LEN + captured as usize)?;
    let size = packet.len() - HEADER_LEN;
    if size < captured as usize {
        return Ok(NextPacket::Stop(PcapFault::PacketCut(captured, size)));
    }
    Ok(NextPacket::Packet)
}

/// Returns which bytes of a packet of a pcap file there are. Requires that its header is there.
pub fn extent_of(order: Order, packet: &[u8]) -> Extent
    requires header { 16 ≤ length packet.now }
    ensures { result ≡ extent_of order packet.now }
{
    Extent {
        from: HEADER_LEN,
        captured: u32_in(order, packet, 8),
        original: u32_in(order, packet, 12),
    }
}
