//! Addresses (linux/rtnetlink.h, linux/if_addr.h).

ghost use Rattle.std.specs.Prelude.{◌==◌, refl};
ghost use Rattle.netlink_family.specs.Shapes.{named, named_fields};
ghost use Rattle.netlink_route.specs.declared.addresses.TheConstants.{FIELDS, ROWS, RTM_GETADDR, TYPES};

use netlink_family::{Family, Field, OwnedMessage, Row, Shape, TOP, Table, is_among};

pub const RTM_NEWADDR: u16 = 20;

pub const RTM_DELADDR: u16 = 21;

pub const RTM_GETADDR: u16 = 22;

// The fields of `struct ifaddrmsg`.
pub const IFA_FAMILY: Field = ("ifa_family", 0, Shape::U8);

pub const IFA_PREFIXLEN: Field = ("ifa_prefixlen", 1, Shape::U8);

pub const IFA_LOW_FLAGS: Field = ("ifa_flags", 2, Shape::U8);

pub const IFA_SCOPE: Field = ("ifa_scope", 3, Shape::U8);

pub const IFA_INDEX: Field = ("ifa_index", 4, Shape::U32);

pub const IFA_ADDRESS: u16 = 1;

pub const IFA_LOCAL: u16 = 2;

pub const IFA_LABEL: u16 = 3;

pub const IFA_BROADCAST: u16 = 4;

pub const IFA_ANYCAST: u16 = 5;

pub const IFA_CACHEINFO: u16 = 6;

pub const IFA_MULTICAST: u16 = 7;

pub const IFA_FLAGS: u16 = 8;

pub const IFA_RT_PRIORITY: u16 = 9;

pub const IFA_TARGET_NETNSID: u16 = 10;

pub const IFA_PROTO: u16 = 11;

const TYPES: &'static [u16] = &[RTM_NEWADDR, RTM_DELADDR, RTM_GETADDR];

const FIELDS: &'static [Field] = &[
    IFA_FAMILY,
    IFA_PREFIXLEN,
    IFA_LOW_FLAGS,
    IFA_SCOPE,
    IFA_INDEX,
];

// The kernel's `ifa_ipv4_policy`, `ifa_ipv6_policy` and `inet6_fill_ifaddr`.
const ROWS: &'static [Row] = &[
    (TOP, IFA_ADDRESS, "IFA_ADDRESS", Shape::Ip),
    (TOP, IFA_LOCAL, "IFA_LOCAL", Shape::Ip),
    (TOP, IFA_LABEL, "IFA_LABEL", Shape::Str),
    (TOP, IFA_BROADCAST, "IFA_BROADCAST", Shape::Ip),
    (TOP, IFA_ANYCAST, "IFA_ANYCAST", Shape::Ip),
    (TOP, IFA_CACHEINFO, "IFA_CACHEINFO", Shape::MinLen(16)),
    (TOP, IFA_MULTICAST, "IFA_MULTICAST", Shape::Ip),
    (TOP, IFA_FLAGS, "IFA_FLAGS", Shape::U32),
    (TOP, IFA_RT_PRIORITY, "IFA_RT_PRIORITY", Shape::U32),
    (TOP, IFA_TARGET_NETNSID, "IFA_TARGET_NETNSID", Shape::I32),
    (TOP, IFA_PROTO, "IFA_PROTO", Shape::U8),
];

/// The family of addresses.
#[derive(Clone, Copy, Debug, PartialEq, Eq)]
pub struct Addresses;

impl Table for Addresses {
    ghost types = { TYPES.now };

    ghost header_len = { λ _. 8 };

    ghost short = { λ t. t == RTM_GETADDR };

    ghost rows = { λ _. named ROWS.now (λ name. name.now) };

    ghost fields = { λ _. named_fields FIELDS.now (λ name. name.now) };

    fn has(message_type: u16) -> bool {
        is_among(TYPES, message_type)
    }

    fn header_len(_message_type: u16) -> usize {
        8
    }

    fn allows_short(message_type: u16) -> bool {
        message_type == RTM_GETADDR
    }

    fn rows(_message_type: u16) -> &'static [Row] {
        ROWS
    }

    fn fields(_message_type: u16) -> &'static [Field] {
        FIELDS
    }

    #[tactic(auto, using(netlink_family::specs::PushingLaws::none_choose))]
    fn chooses_shape(_message_type: u16, _kind: u16) -> bool {
        false
    }

    ghost sorted = { λ _. refl };
}

impl Family for Addresses {
    ghost own = { refl };
}

/// A message about an address.
pub type AddressMessage = OwnedMessage<Addresses>;
