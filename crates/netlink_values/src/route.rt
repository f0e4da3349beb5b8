//! The flags of route netlink. Each set prints the names that `ip` has for them, or else those of the
//! header of Linux in lower case without their prefix.

ghost use Rattle.std.specs.Prelude.{◌≡◌, Some};
ghost use Rattle.netlink_values.specs.Flags.{flags_text, names_in};
ghost use Rattle.netlink_values.specs.RouteFlags.{address_flags, link_flags, neighbour_extended_flags, neighbour_flags, next_hop_flags, route_flags, rule_flags};

use crate::flags::{Flag, Flags};
use std::fmt;

const LINK_FLAGS: [Flag; 19] = [
    (0x1, "UP"),
    (0x2, "BROADCAST"),
    (0x4, "DEBUG"),
    (0x8, "LOOPBACK"),
    (0x10, "POINTOPOINT"),
    (0x20, "NOTRAILERS"),
    (0x40, "RUNNING"),
    (0x80, "NOARP"),
    (0x100, "PROMISC"),
    (0x200, "ALLMULTI"),
    (0x400, "MASTER"),
    (0x800, "SLAVE"),
    (0x1000, "MULTICAST"),
    (0x2000, "PORTSEL"),
    (0x4000, "AUTOMEDIA"),
    (0x8000, "DYNAMIC"),
    (0x10000, "LOWER_UP"),
    (0x20000, "DORMANT"),
    (0x40000, "ECHO"),
];

/// Returns the names of these flags.
#[tactic(auto, unfolding(crate::specs::RouteFlags::link_flags))]
fn link_flags() -> &'static [Flag]
    ensures { names_in result.now ≡ link_flags }
{
    &LINK_FLAGS
}

/// The flags of a link (`ifi_flags`; `IFF_*` of linux/if.h), by the names of the header, which `ip`
/// prints too.
#[derive(Clone, Copy, Debug, PartialEq, Eq, Hash)]
pub struct LinkFlags(pub u32);

impl fmt::Display for LinkFlags {
    ghost output = { λ it. Some (flags_text link_flags it.0) };

    fn fmt<W: fmt::Write>(&self, f: &mut fmt::Formatter<W>) -> fmt::Result {
        let flags = Flags {
            bits: u64::from(self.0),
            names: link_flags(),
        };
        write!(f, "{flags}")
    }
}

const ADDRESS_FLAGS: [Flag; 12] = [
    (0x1, "secondary"),
    (0x2, "nodad"),
    (0x4, "optimistic"),
    (0x8, "dadfailed"),
    (0x10, "home"),
    (0x20, "deprecated"),
    (0x40, "tentative"),
    (0x80, "permanent"),
    (0x100, "mngtmpaddr"),
    (0x200, "noprefixroute"),
    (0x400, "autojoin"),
    (0x800, "stable-privacy"),
];

/// Returns the names of these flags.
#[tactic(auto, unfolding(crate::specs::RouteFlags::address_flags))]
fn address_flags() -> &'static [Flag]
    ensures { names_in result.now ≡ address_flags }
{
    &ADDRESS_FLAGS
}

/// The flags of an address (`IFA_FLAGS` and `ifa_flags`; `IFA_F_*` of linux/if_addr.h). The first
/// is `temporary` for IPv6.
#[derive(Clone, Copy, Debug, PartialEq, Eq, Hash)]
pub struct AddressFlags(pub u32);

impl fmt::Display for AddressFlags {
    ghost output = { λ it. Some (flags_text address_flags it.0) };

    fn fmt<W: fmt::Write>(&self, f: &mut fmt::Formatter<W>) -> fmt::Result {
        let flags = Flags {
            bits: u64::from(self.0),
            names: address_flags(),
        };
        write!(f, "{flags}")
    }
}

const NEIGHBOUR_FLAGS: [Flag; 8] = [
    (0x1, "use"),
    (0x2, "self"),
    (0x4, "master"),
    (0x8, "proxy"),
    (0x10, "extern_learn"),
    (0x20, "offload"),
    (0x40, "sticky"),
    (0x80, "router"),
];

/// Returns the names of these flags.
#[tactic(auto, unfolding(crate::specs::RouteFlags::neighbour_flags))]
fn neighbour_flags() -> &'static [Flag]
    ensures { names_in result.now ≡ neighbour_flags }
{
    &NEIGHBOUR_FLAGS
}

/// The flags of a neighbour (`ndm_flags`; `NTF_*` of linux/neighbour.h).
#[derive(Clone, Copy, Debug, PartialEq, Eq, Hash)]
pub struct NeighbourFlags(pub u8);

impl fmt::Display for NeighbourFlags {
    ghost output = { λ it. Some (flags_text neighbour_flags it.0) };

    fn fmt<W: fmt::Write>(&self, f: &mut fmt::Formatter<W>) -> fmt::Result {
        let flags = Flags {
            bits: u64::from(self.0),
            names: neighbour_flags(),
        };
        write!(f, "{flags}")
    }
}

const NEIGHBOUR_EXTENDED_FLAGS: [Flag; 2] = [(0x1, "managed"), (0x2, "locked")];

/// Returns the names of these flags.
#[tactic(auto, unfolding(crate::specs::RouteFlags::neighbour_extended_flags))]
fn neighbour_extended_flags() -> &'static [Flag]
    ensures { names_in result.now ≡ neighbour_extended_flags }
{
    &NEIGHBOUR_EXTENDED_FLAGS
}

/// The further flags of a neighbour (`NDA_FLAGS_EXT`; `NTF_EXT_*` of linux/neighbour.h of Linux 6.2).
#[derive(Clone, Copy, Debug, PartialEq, Eq, Hash)]
pub struct NeighbourExtendedFlags(pub u32);

impl fmt::Display for NeighbourExtendedFlags {
    ghost output = { λ it. Some (flags_text neighbour_extended_flags it.0) };

    fn fmt<W: fmt::Write>(&self, f: &mut fmt::Formatter<W>) -> fmt::Result {
        let flags = Flags {
            bits: u64::from(self.0),
            names: neighbour_extended_flags(),
        };
        write!(f, "{flags}")
    }
}

const ROUTE_FLAGS: [Flag; 16] = [
    (0x1, "dead"),
    (0x2, "pervasive"),
    (0x4, "onlink"),
    (0x8, "offload"),
    (0x10, "linkdown"),
    (0x20, "unresolved"),
    (0x40, "trap"),
    (0x100, "notify"),
    (0x200, "cloned"),
    (0x400, "equalize"),
    (0x800, "prefix"),
    (0x1000, "lookup_table"),
    (0x2000, "fib_match"),
    (0x4000, "rt_offload"),
    (0x8000, "rt_trap"),
    (0x20000000, "rt_offload_failed"),
];

/// Returns the names of these flags.
#[tactic(auto, unfolding(crate::specs::RouteFlags::route_flags))]
fn route_flags() -> &'static [Flag]
    ensures { names_in result.now ≡ route_flags }
{
    &ROUTE_FLAGS
}

/// The flags of a route (`rtm_flags`; `RTNH_F_*` and `RTM_F_*` of linux/rtnetlink.h).
#[derive(Clone, Copy, Debug, PartialEq, Eq, Hash)]
pub struct RouteFlags(pub u32);

impl fmt::Display for RouteFlags {
    ghost output = { λ it. Some (flags_text route_flags it.0) };

    fn fmt<W: fmt::Write>(&self, f: &mut fmt::Formatter<W>) -> fmt::Result {
        let flags = Flags {
            bits: u64::from(self.0),
            names: route_flags(),
        };
        write!(f, "{flags}")
    }
}

const NEXT_HOP_FLAGS: [Flag; 7] = [
    (0x1, "dead"),
    (0x2, "pervasive"),
    (0x4, "onlink"),
    (0x8, "offload"),
    (0x10, "linkdown"),
    (0x20, "unresolved"),
    (0x40, "trap"),
];

/// Returns the names of these flags.
#[tactic(auto, unfolding(crate::specs::RouteFlags::next_hop_flags))]
fn next_hop_flags() -> &'static [Flag]
    ensures { names_in result.now ≡ next_hop_flags }
{
    &NEXT_HOP_FLAGS
}

/// The flags of a next hop (`rtnh_flags`; `RTNH_F_*` of linux/rtnetlink.h).
#[derive(Clone, Copy, Debug, PartialEq, Eq, Hash)]
pub struct NextHopFlags(pub u8);

impl fmt::Display for NextHopFlags {
    ghost output = { λ it. Some (flags_text next_hop_flags it.0) };

    fn fmt<W: fmt::Write>(&self, f: &mut fmt::Formatter<W>) -> fmt::Result {
        let flags = Flags {
            bits: u64::from(self.0),
            names: next_hop_flags(),
        };
        write!(f, "{flags}")
    }
}

const RULE_FLAGS: [Flag; 6] = [
    (0x1, "permanent"),
    (0x2, "not"),
    (0x4, "unresolved"),
    (0x8, "iif_detached"),
    (0x10, "oif_detached"),
    (0x10000, "find_saddr"),
];

/// Returns the names of these flags.
#[tactic(auto, unfolding(crate::specs::RouteFlags::rule_flags))]
fn rule_flags() -> &'static [Flag]
    ensures { names_in result.now ≡ rule_flags }
{
    &RULE_FLAGS
}

/// The flags of a rule (`flags` of `struct fib_rule_hdr`; `FIB_RULE_*` of linux/fib_rules.h).
#[derive(Clone, Copy, Debug, PartialEq, Eq, Hash)]
pub struct RuleFlags(pub u32);

impl fmt::Display for RuleFlags {
    ghost output = { λ it. Some (flags_text rule_flags it.0) };

    fn fmt<W: fmt::Write>(&self, f: &mut fmt::Formatter<W>) -> fmt::Result {
        let flags = Flags {
            bits: u64::from(self.0),
            names: rule_flags(),
        };
        write!(f, "{flags}")
    }
}
