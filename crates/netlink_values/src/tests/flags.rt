//! Sets of flags, by the bits in the headers of Linux.

use crate::flags::{Flag, Flags};
use crate::route::{
    AddressFlags, LinkFlags, NeighbourExtendedFlags, NeighbourFlags, NextHopFlags, RouteFlags,
    RuleFlags,
};
use std::alloc::AllocError;

/// Flags of two bits and of one bit of these.
const NAMES: [Flag; 3] = [(0x3, "both"), (0x1, "one"), (0x10, "other")];

#[test]
fn bits_without_a_name_are_last(rt: HostRuntime) -> Result<(), AllocError> {
    let text = Flags {
        bits: 0x8000_0013,
        names: &NAMES,
    }
    .to_string(rt.alloc())?;
    assert_eq!(rt; text.as_str(), "both,other,0x80000000");
    let text = Flags {
        bits: 0x2,
        names: &NAMES,
    }
    .to_string(rt.alloc())?;
    assert_eq!(rt; text.as_str(), "0x2");
    let text = Flags {
        bits: 0,
        names: &NAMES,
    }
    .to_string(rt.alloc())?;
    assert_eq!(rt; text.as_str(), "");
    Ok(())
}

#[test]
fn flags_of_links_and_addresses_have_names(rt: HostRuntime) -> Result<(), AllocError> {
    let text = LinkFlags(0x11043).to_string(rt.alloc())?;
    assert_eq!(rt; text.as_str(), "UP,BROADCAST,RUNNING,MULTICAST,LOWER_UP");
    let text = LinkFlags(0x8_0001).to_string(rt.alloc())?;
    assert_eq!(rt; text.as_str(), "UP,0x80000");
    let text = AddressFlags(0x280).to_string(rt.alloc())?;
    assert_eq!(rt; text.as_str(), "permanent,noprefixroute");
    Ok(())
}

#[test]
fn flags_of_neighbours_have_names(rt: HostRuntime) -> Result<(), AllocError> {
    let text = NeighbourFlags(0x88).to_string(rt.alloc())?;
    assert_eq!(rt; text.as_str(), "proxy,router");
    let text = NeighbourExtendedFlags(0x5).to_string(rt.alloc())?;
    assert_eq!(rt; text.as_str(), "managed,0x4");
    Ok(())
}

#[test]
fn flags_of_routes_and_rules_have_names(rt: HostRuntime) -> Result<(), AllocError> {
    let text = RouteFlags(0x2000_4014).to_string(rt.alloc())?;
    assert_eq!(rt;
        text.as_str(),
        "onlink,linkdown,rt_offload,rt_offload_failed"
    );
    let text = NextHopFlags(0x84).to_string(rt.alloc())?;
    assert_eq!(rt; text.as_str(), "onlink,0x80");
    let text = RuleFlags(0x6).to_string(rt.alloc())?;
    assert_eq!(rt; text.as_str(), "not,unresolved");
    Ok(())
}
