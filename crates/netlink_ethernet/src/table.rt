//! The protocols that have names, by ascending number, and the search for a number's protocol.

ghost use Rattle.std.specs.Prelude.{◌≡◌, ◌≤◌, ◌<◌, ◌+◌, ◌-◌, ◌*◌, Some, slice_get};
ghost use Rattle.netlink_ethernet.specs.Table.{named, protocol_of};

use crate::comparisons::{Comparisons, ROWS};
use crate::protocol::EthernetProtocol;

const PROTOCOLS: [EthernetProtocol; ROWS] = [
    EthernetProtocol::E802_3,
    EthernetProtocol::Ax25,
    EthernetProtocol::All,
    EthernetProtocol::E802_2,
    EthernetProtocol::Snap,
    EthernetProtocol::Ddcmp,
    EthernetProtocol::WanPpp,
    EthernetProtocol::PppMp,
    EthernetProtocol::Localtalk,
    EthernetProtocol::Can,
    EthernetProtocol::Canfd,
    EthernetProtocol::Canxl,
    EthernetProtocol::Ppptalk,
    EthernetProtocol::Tr802_2,
    EthernetProtocol::Mobitex,
    EthernetProtocol::Control,
    EthernetProtocol::Irda,
    EthernetProtocol::Econet,
    EthernetProtocol::Hdlc,
    EthernetProtocol::Arcnet,
    EthernetProtocol::Dsa,
    EthernetProtocol::Trailer,
    EthernetProtocol::Loop,
    EthernetProtocol::Phonet,
    EthernetProtocol::Ieee802154,
    EthernetProtocol::Caif,
    EthernetProtocol::Xdsa,
    EthernetProtocol::Map,
    EthernetProtocol::Mctp,
    EthernetProtocol::Pup,
    EthernetProtocol::Pupat,
    EthernetProtocol::Ip,
    EthernetProtocol::X25,
    EthernetProtocol::Arp,
    EthernetProtocol::Bpq,
    EthernetProtocol::IeeePup,
    EthernetProtocol::IeeePupat,
    EthernetProtocol::Erspan2,
    EthernetProtocol::Tsn,
    EthernetProtocol::Batman,
    EthernetProtocol::Dec,
    EthernetProtocol::DnaDl,
    EthernetProtocol::DnaRc,
    EthernetProtocol::DnaRt,
    EthernetProtocol::Lat,
    EthernetProtocol::Diag,
    EthernetProtocol::Cust,
    EthernetProtocol::Sca,
    EthernetProtocol::Teb,
    EthernetProtocol::Rarp,
    EthernetProtocol::Atalk,
    EthernetProtocol::Aarp,
    EthernetProtocol::E8021Q,
    EthernetProtocol::Ipx,
    EthernetProtocol::Ipv6,
    EthernetProtocol::Pause,
    EthernetProtocol::Slow,
    EthernetProtocol::Wccp,
    EthernetProtocol::MplsUc,
    EthernetProtocol::MplsMc,
    EthernetProtocol::Atmmpoa,
    EthernetProtocol::PppDisc,
    EthernetProtocol::PppSes,
    EthernetProtocol::LinkCtl,
    EthernetProtocol::Atmfate,
    EthernetProtocol::Pae,
    EthernetProtocol::Profinet,
    EthernetProtocol::Realtek,
    EthernetProtocol::Aoe,
    EthernetProtocol::Ethercat,
    EthernetProtocol::E8021Ad,
    EthernetProtocol::E802Ex1,
    EthernetProtocol::Erspan,
    EthernetProtocol::MxlGsw,
    EthernetProtocol::Preauth,
    EthernetProtocol::Tipc,
    EthernetProtocol::Lldp,
    EthernetProtocol::Mrp,
    EthernetProtocol::Macsec,
    EthernetProtocol::E8021Ah,
    EthernetProtocol::Mvrp,
    EthernetProtocol::E1588,
    EthernetProtocol::Ncsi,
    EthernetProtocol::Prp,
    EthernetProtocol::Cfm,
    EthernetProtocol::Fcoe,
    EthernetProtocol::Tdls,
    EthernetProtocol::Fip,
    EthernetProtocol::Iboe,
    EthernetProtocol::E80221,
    EthernetProtocol::Hsr,
    EthernetProtocol::Nsh,
    EthernetProtocol::Loopback,
    EthernetProtocol::Qinq1,
    EthernetProtocol::Qinq2,
    EthernetProtocol::Qinq3,
    EthernetProtocol::Yt921x,
    EthernetProtocol::Edsa,
    EthernetProtocol::Dsa8021Q,
    EthernetProtocol::DsaA5psw,
    EthernetProtocol::Ife,
    EthernetProtocol::AfIucv,
];

/// Returns the protocol in row `index`. Requires `index < 102`.
fn protocol_at(index: usize) -> EthernetProtocol
    requires { index < 102 }
    ensures { slice_get named index ≡ Some result }
{
    // By reference, the table is part of the program; by value, every call would build it.
    *&PROTOCOLS[index]
}

/// Returns half of a number of rows, rounded down. Requires `rows > 0`.
#[inline(always)]
fn half_of(rows: usize) -> usize
    requires { 0 < rows }
    ensures half { (2 * result ≤ rows) × (rows ≤ 2 * result + 1) }
{
    rows / 2
}

/// Returns the protocol for a number in host byte order, as `EthernetProtocol::from` does: the
/// variant that represents it, or else `Other` with it.
///
/// Makes at least one and at most seven comparisons with the rows of the table, and adds them to
/// the count. Requires a count of at most `u32::MAX - 7`.
pub fn look_up(sought: u16, comparisons: &mut Comparisons) -> EthernetProtocol
    requires room { comparisons.old ≤ u32.MAX - 7 }
    ensures protocol { result ≡ protocol_of sought }
    ensures at_least_one { comparisons.old + 1 ≤ comparisons.new }
    ensures at_most_seven { comparisons.new ≤ comparisons.old + 7 }
{
    // Each comparison leaves half of the rows, whatever its result, so the compiler unrolls the loop.
    // If the number of rows is even, the later half begins with the row that was compared.
    let mut low = 0;
    let mut left = ROWS;
    while left > 0 {
        let half = half_of(left);
        let middle = low + half;
        let order = comparisons.compare(sought, middle);
        if order.is_eq() {
            return protocol_at(middle);
        }
        if order.is_gt() {
            low += left - half;
        }
        left = half;
    }
    EthernetProtocol::Other(sought)
}
