//! Reads a request to change a link, sets its MTU to 9000 in place, and writes it.
#![tactic(auto)]

ghost use Rattle.std.specs.Prelude.{◌≡◌, IsTrue, false};
ghost use Rattle.netlink_mtu.specs.Mtu.{HasNoMtu, HasNoMtuIn, IsMtuSet, IsMtuSetIn};

use netlink_packet_core::{NetlinkBuffer, nla_find, write_nla_value};
use netlink_program::{Ending, read_all};
use std::convert::Infallible;
use std::io::{self, Write};

/// The size of `struct ifinfomsg` (linux/rtnetlink.h).
const LINK_HEADER_LEN: usize = 16;
/// The kind of the attribute with the MTU (linux/if_link.h).
const IFLA_MTU: u16 = 4;

/// Overwrites the MTU of the link message in `frame`, whose type is not checked. Returns false, and
/// leaves `frame` unchanged, if there is no frame, no fixed header or no MTU of 4 bytes.
pub fn set_mtu(frame: &mut [u8], mtu: u32) -> bool
    ensures set { IsTrue result → IsMtuSet frame.old mtu frame.new }
    ensures unchanged { result ≡ false → frame.new ≡ frame.old }
    ensures reason { result ≡ false → HasNoMtu frame.old }
{
    let Ok(view) = NetlinkBuffer::new_checked(&frame[..]) else {
        return false;
    };
    if view.payload().len() < LINK_HEADER_LEN {
        return false;
    }
    let mut view = NetlinkBuffer::new(frame);
    let (_, block) = view.payload_mut().split_at_mut(LINK_HEADER_LEN);
    set_mtu_in(block, mtu)
}

/// Overwrites the value of the first attribute of kind `IFLA_MTU` in a block.
fn set_mtu_in(block: &mut [u8], mtu: u32) -> bool
    ensures set { IsTrue result → IsMtuSetIn block.old mtu block.new }
    ensures unchanged { result ≡ false → block.new ≡ block.old }
    ensures reason { result ≡ false → HasNoMtuIn block.old }
{
    match nla_find(&block[..], IFLA_MTU) {
        Some(index) => write_nla_value(block, index, &mtu.to_le_bytes()),
        None => false,
    }
}

/// Exits with status 0, or prints the error text to standard error and exits with status 1.
fn main(rt: HostRuntime) -> Ending<&'static str, Infallible> {
    let Ok(mut request) = read_all(rt.alloc(), &mut rt.reader()) else {
        return Ending::Failed("read failed");
    };
    if !set_mtu(request.as_mut_slice(), 9000) {
        return Ending::Failed("no MTU to set");
    }
    match io::writer(&rt).write_all(&request) {
        Ok(()) => Ending::Done,
        Err(_) => Ending::Failed("write failed"),
    }
}
