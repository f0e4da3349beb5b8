//! The prefixes that routers of IPv6 announce (linux/rtnetlink.h, RFC 4861).

ghost use Rattle.std.specs.Prelude.{◌==◌, false, refl};
ghost use Rattle.netlink_family.specs.Shapes.{named, named_fields};
ghost use Rattle.netlink_route.specs.declared.prefixes.TheConstants.{FIELDS, ROWS, TYPES};

use netlink_family::{Family, Field, OwnedMessage, Row, Shape, TOP, Table, is_among};

pub const RTM_NEWPREFIX: u16 = 52;

// The fields of `struct prefixmsg`.
pub const PREFIX_FAMILY: Field = ("prefix_family", 0, Shape::U8);

pub const PREFIX_IFINDEX: Field = ("prefix_ifindex", 4, Shape::I32);

pub const PREFIX_TYPE: Field = ("prefix_type", 8, Shape::U8);

pub const PREFIX_LEN: Field = ("prefix_len", 9, Shape::U8);

pub const PREFIX_FLAGS: Field = ("prefix_flags", 10, Shape::U8);

pub const PREFIX_ADDRESS: u16 = 1;

pub const PREFIX_CACHEINFO: u16 = 2;

const TYPES: &'static [u16] = &[RTM_NEWPREFIX];

const FIELDS: &'static [Field] = &[
    PREFIX_FAMILY,
    PREFIX_IFINDEX,
    PREFIX_TYPE,
    PREFIX_LEN,
    PREFIX_FLAGS,
];

// The kernel's `inet6_fill_prefix`; `struct prefix_cacheinfo`.
const ROWS: &'static [Row] = &[
    (TOP, PREFIX_ADDRESS, "PREFIX_ADDRESS", Shape::Ip),
    (TOP, PREFIX_CACHEINFO, "PREFIX_CACHEINFO", Shape::MinLen(8)),
];

/// The family of announced prefixes.
#[derive(Clone, Copy, Debug, PartialEq, Eq)]
pub struct Prefixes;

impl Table for Prefixes {
    ghost types = { TYPES.now };

    ghost header_len = { λ _. 12 };

    ghost short = { λ _. false };

    ghost rows = { λ _. named ROWS.now (λ name. name.now) };

    ghost fields = { λ _. named_fields FIELDS.now (λ name. name.now) };

    fn has(message_type: u16) -> bool {
        is_among(TYPES, message_type)
    }

    fn header_len(_message_type: u16) -> usize {
        12
    }

    fn allows_short(_message_type: u16) -> bool {
        false
    }

    fn rows(_message_type: u16) -> &'static [Row] {
        ROWS
    }

    fn fields(_message_type: u16) -> &'static [Field] {
        FIELDS
    }

    #[tactic(auto, using(netlink_family::specs::PushingLaws::none_choose))]
    fn chooses_shape(_message_type: u16, _kind: u16) -> bool {
        false
    }

    ghost sorted = { λ _. refl };
}

impl Family for Prefixes {
    ghost own = { refl };
}

/// A message about an announced prefix.
pub type PrefixMessage = OwnedMessage<Prefixes>;
