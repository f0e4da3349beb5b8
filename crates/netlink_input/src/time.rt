//! The times of packets.

ghost use Rattle.std.specs.Prelude.{◌≡◌, ◌≤◌};
ghost use Rattle.netlink_input.specs.Time.{clock_time, pcap_time, tens_of, unit_of};

use crate::packet::HEADER_LEN;
use crate::pcap::{Order, u32_in};

/// A time at which a message or packet was received.
#[derive(Clone, Copy, Debug, PartialEq, Eq)]
pub struct Time {
    /// The seconds since 1970.
    pub seconds: u64,
    /// The microseconds after them.
    pub micros: u32,
}

/// Returns the time in the header of a packet of a pcap file, or `None` if the bytes are fewer. The
/// fraction of a second is in nanoseconds or in microseconds.
pub fn pcap_time(order: Order, is_nano: bool, packet: &[u8]) -> Option<Time>
    ensures { result ≡ pcap_time order is_nano packet.now }
{
    if packet.len() < HEADER_LEN {
        return None;
    }
    let fraction = u32_in(order, packet, 4);
    Some(Time {
        seconds: u32_in(order, packet, 0) as u64,
        micros: if is_nano { fraction / 1000 } else { fraction },
    })
}

/// Returns the number of units in a second by the resolution of an interface: a power of ten up to
/// 13, or of two up to 44, if its highest bit is set. Returns 0 for any other.
fn unit_of(resolution: u8) -> u64
    ensures is { result ≡ unit_of resolution }
    ensures most { result ≤ 17592186044416 }
{
    if resolution >= 128 {
        return if resolution <= 172 {
            1u64 << (resolution - 128)
        } else {
            0
        };
    }
    tens_of(resolution)
}

/// Returns a power of ten up to 13, and 0 for any other.
fn tens_of(power: u8) -> u64
    ensures is { result ≡ tens_of power }
    ensures most { result ≤ 17592186044416 }
{
    match power {
        0 => 1,
        1 => 10,
        2 => 100,
        3 => 1_000,
        4 => 10_000,
        5 => 100_000,
        6 => 1_000_000,
        7 => 10_000_000,
        8 => 100_000_000,
        9 => 1_000_000_000,
        10 => 10_000_000_000,
        11 => 100_000_000_000,
        12 => 1_000_000_000_000,
        13 => 10_000_000_000_000,
        _ => 0,
    }
}

/// Returns the time of a packet that an interface with this resolution counts as this number, or
/// `None` if the resolution is finer than 10^-13 or 2^-44 of a second.
pub fn clock_time(resolution: u8, count: u64) -> Option<Time>
    ensures { result ≡ clock_time resolution count }
{
    let unit = unit_of(resolution);
    if unit == 0 {
        return None;
    }
    Some(Time {
        seconds: count / unit,
        micros: (count % unit * 1_000_000 / unit) as u32,
    })
}
