//! Ids of network namespaces (linux/rtnetlink.h, linux/net_namespace.h).

ghost use Rattle.std.specs.Prelude.{◌==◌, refl};
ghost use Rattle.netlink_family.specs.Shapes.{named, named_fields};
ghost use Rattle.netlink_route.specs.declared.namespaces.TheConstants.{FIELDS, ROWS, RTM_GETNSID, TYPES};

use netlink_family::{Family, Field, OwnedMessage, Row, Shape, TOP, Table, is_among};

pub const RTM_NEWNSID: u16 = 88;

pub const RTM_DELNSID: u16 = 89;

pub const RTM_GETNSID: u16 = 90;

// The fields of `struct rtgenmsg`.
pub const RTGEN_FAMILY: Field = ("rtgen_family", 0, Shape::U8);

pub const NETNSA_NSID: u16 = 1;

pub const NETNSA_PID: u16 = 2;

pub const NETNSA_FD: u16 = 3;

pub const NETNSA_TARGET_NSID: u16 = 4;

pub const NETNSA_CURRENT_NSID: u16 = 5;

const TYPES: &'static [u16] = &[RTM_NEWNSID, RTM_DELNSID, RTM_GETNSID];

const FIELDS: &'static [Field] = &[RTGEN_FAMILY];

// The kernel's `rtnl_net_policy` and `rtnl_net_fill`.
const ROWS: &'static [Row] = &[
    (TOP, NETNSA_NSID, "NETNSA_NSID", Shape::I32),
    (TOP, NETNSA_PID, "NETNSA_PID", Shape::U32),
    (TOP, NETNSA_FD, "NETNSA_FD", Shape::U32),
    (TOP, NETNSA_TARGET_NSID, "NETNSA_TARGET_NSID", Shape::I32),
    (TOP, NETNSA_CURRENT_NSID, "NETNSA_CURRENT_NSID", Shape::I32),
];

/// The family of ids of network namespaces.
#[derive(Clone, Copy, Debug, PartialEq, Eq)]
pub struct Namespaces;

impl Table for Namespaces {
    ghost types = { TYPES.now };

    ghost header_len = { λ _. 4 };

    ghost short = { λ t. t == RTM_GETNSID };

    ghost rows = { λ _. named ROWS.now (λ name. name.now) };

    ghost fields = { λ _. named_fields FIELDS.now (λ name. name.now) };

    fn has(message_type: u16) -> bool {
        is_among(TYPES, message_type)
    }

    fn header_len(_message_type: u16) -> usize {
        4
    }

    fn allows_short(message_type: u16) -> bool {
        message_type == RTM_GETNSID
    }

    fn rows(_message_type: u16) -> &'static [Row] {
        ROWS
    }

    fn fields(_message_type: u16) -> &'static [Field] {
        FIELDS
    }

    #[tactic(auto, using(netlink_family::specs::PushingLaws::none_choose))]
    fn chooses_shape(_message_type: u16, _kind: u16) -> bool {
        false
    }

    ghost sorted = { λ _. refl };
}

impl Family for Namespaces {
    ghost own = { refl };
}

/// A message about the id of a network namespace.
pub type NamespaceMessage = OwnedMessage<Namespaces>;
