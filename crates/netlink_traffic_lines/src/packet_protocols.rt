//! The names of the protocols of packets.

ghost use Rattle.std.specs.Prelude.{◌≡◌, IfOk, string_bytes};
ghost use Rattle.netlink_traffic_lines.specs.PacketProtocols.{high_protocol, middle_protocol, named_or_number, protocol_name, protocol_text, short_protocol};

use std::alloc::{AllocError, Global};

/// Returns the name of a protocol, an `ETH_P_*` of linux/if_ether.h; for any other number, the number in
/// brackets.
#[tactic(auto, unfolding(crate::specs::PacketProtocols::protocol_text))]
pub(crate) fn protocol_text(alloc: Global, protocol: u32) -> Result<String, AllocError>
    ensures { IfOk result (λ text. string_bytes text ≡ protocol_text protocol) }
{
    named_or_number(alloc, protocol, protocol_name(protocol))
}

/// Returns a name, or a number in brackets if the name is empty.
#[tactic(auto, unfolding(crate::specs::PacketProtocols::named_or_number))]
fn named_or_number(alloc: Global, number: u32, name: &str) -> Result<String, AllocError>
    ensures { IfOk result (λ text. string_bytes text ≡ named_or_number number name.now) }
{
    if name.is_empty() {
        return format!(in alloc; "[{number}]");
    }
    String::from_str(alloc, name)
}

/// Returns the name of a protocol; nothing for a number without one.
#[tactic(auto, unfolding(crate::specs::PacketProtocols::protocol_name))]
fn protocol_name(protocol: u32) -> &'static str
    ensures { result.now ≡ protocol_name protocol }
{
    if protocol < 0x100 {
        return short_protocol(protocol);
    }
    if protocol < 0x8000 {
        return middle_protocol(protocol);
    }
    high_protocol(protocol)
}

/// Returns the name of a protocol below 0x100; nothing for other numbers.
#[tactic(auto, unfolding(crate::specs::PacketProtocols::short_protocol))]
fn short_protocol(protocol: u32) -> &'static str
    ensures { result.now ≡ short_protocol protocol }
{
    match protocol {
        1 => "802_3",
        2 => "ax25",
        3 => "all",
        4 => "802_2",
        5 => "snap",
        6 => "ddcmp",
        7 => "wan_ppp",
        8 => "ppp_mp",
        9 => "localtalk",
        12 => "can",
        16 => "ppptalk",
        17 => "tr_802_2",
        21 => "mobitex",
        22 => "control",
        23 => "irda",
        24 => "econet",
        96 => "loop",
        _ => "",
    }
}

/// Returns the name of a protocol from 0x100 to 0x7fff; nothing for other numbers.
#[tactic(auto, unfolding(crate::specs::PacketProtocols::middle_protocol))]
fn middle_protocol(protocol: u32) -> &'static str
    ensures { result.now ≡ middle_protocol protocol }
{
    match protocol {
        0x200 => "pup",
        0x201 => "pupat",
        0x800 => "ip",
        0x805 => "x25",
        0x806 => "arp",
        0x8ff => "bpq",
        0xa00 => "ieeepup",
        0xa01 => "ieeepupat",
        0x6000 => "dec",
        0x6001 => "dna_dl",
        0x6002 => "dna_rc",
        0x6003 => "dna_rt",
        0x6004 => "lat",
        0x6005 => "diag",
        0x6006 => "cust",
        0x6007 => "sca",
        0x6558 => "teb",
        _ => "",
    }
}

/// Returns the name of a protocol from 0x8000 on; nothing for other numbers.
#[tactic(auto, unfolding(crate::specs::PacketProtocols::high_protocol))]
fn high_protocol(protocol: u32) -> &'static str
    ensures { result.now ≡ high_protocol protocol }
{
    match protocol {
        0x8035 => "rarp",
        0x809b => "atalk",
        0x80f3 => "aarp",
        0x8100 => "802.1Q",
        0x8137 => "ipx",
        0x86dd => "ipv6",
        0x8847 => "mpls_uc",
        0x8848 => "mpls_mc",
        0x884c => "atmmpoa",
        0x8863 => "ppp_disc",
        0x8864 => "ppp_ses",
        0x8884 => "atmfate",
        0x8892 => "profinet",
        0x88a2 => "aoe",
        0x88a4 => "ethercat",
        0x88a8 => "802.1ad",
        0x88ca => "tipc",
        0x88cc => "LLDP",
        _ => "",
    }
}
