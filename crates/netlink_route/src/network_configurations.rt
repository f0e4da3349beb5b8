//! The settings of links for IPv4, IPv6 and MPLS (linux/netconf.h).

ghost use Rattle.std.specs.Prelude.{◌==◌, refl};
ghost use Rattle.netlink_family.specs.Shapes.{named, named_fields};
ghost use Rattle.netlink_route.specs.declared.network_configurations.TheConstants.{FIELDS, ROWS, RTM_GETNETCONF, TYPES};

use netlink_family::{Family, Field, OwnedMessage, Row, Shape, TOP, Table, is_among};

pub const RTM_NEWNETCONF: u16 = 80;

pub const RTM_DELNETCONF: u16 = 81;

pub const RTM_GETNETCONF: u16 = 82;

// The field of `struct netconfmsg`.
pub const NCM_FAMILY: Field = ("ncm_family", 0, Shape::U8);

pub const NETCONFA_IFINDEX: u16 = 1;

pub const NETCONFA_FORWARDING: u16 = 2;

pub const NETCONFA_RP_FILTER: u16 = 3;

pub const NETCONFA_MC_FORWARDING: u16 = 4;

pub const NETCONFA_PROXY_NEIGH: u16 = 5;

pub const NETCONFA_IGNORE_ROUTES_WITH_LINKDOWN: u16 = 6;

pub const NETCONFA_INPUT: u16 = 7;

pub const NETCONFA_BC_FORWARDING: u16 = 8;

/// The index that stands for all links.
pub const NETCONFA_IFINDEX_ALL: i32 = -1;

/// The index that stands for links that are yet to be made.
pub const NETCONFA_IFINDEX_DEFAULT: i32 = -2;

const TYPES: &'static [u16] = &[RTM_NEWNETCONF, RTM_DELNETCONF, RTM_GETNETCONF];

const FIELDS: &'static [Field] = &[NCM_FAMILY];

// The kernel's `inet_netconf_fill_devconf`, `inet6_netconf_fill_devconf` and
// `mpls_netconf_fill_devconf`.
const ROWS: &'static [Row] = &[
    (TOP, NETCONFA_IFINDEX, "NETCONFA_IFINDEX", Shape::I32),
    (TOP, NETCONFA_FORWARDING, "NETCONFA_FORWARDING", Shape::I32),
    (TOP, NETCONFA_RP_FILTER, "NETCONFA_RP_FILTER", Shape::I32),
    (
        TOP,
        NETCONFA_MC_FORWARDING,
        "NETCONFA_MC_FORWARDING",
        Shape::I32,
    ),
    (
        TOP,
        NETCONFA_PROXY_NEIGH,
        "NETCONFA_PROXY_NEIGH",
        Shape::I32,
    ),
    (
        TOP,
        NETCONFA_IGNORE_ROUTES_WITH_LINKDOWN,
        "NETCONFA_IGNORE_ROUTES_WITH_LINKDOWN",
        Shape::I32,
    ),
    (TOP, NETCONFA_INPUT, "NETCONFA_INPUT", Shape::I32),
    (
        TOP,
        NETCONFA_BC_FORWARDING,
        "NETCONFA_BC_FORWARDING",
        Shape::I32,
    ),
];

/// The family of the settings of links.
#[derive(Clone, Copy, Debug, PartialEq, Eq)]
pub struct NetworkConfigurations;

impl Table for NetworkConfigurations {
    ghost types = { TYPES.now };

    ghost header_len = { λ _. 4 };

    ghost short = { λ t. t == RTM_GETNETCONF };

    ghost rows = { λ _. named ROWS.now (λ name. name.now) };

    ghost fields = { λ _. named_fields FIELDS.now (λ name. name.now) };

    fn has(message_type: u16) -> bool {
        is_among(TYPES, message_type)
    }

    fn header_len(_message_type: u16) -> usize {
        4
    }

    fn allows_short(message_type: u16) -> bool {
        message_type == RTM_GETNETCONF
    }

    fn rows(_message_type: u16) -> &'static [Row] {
        ROWS
    }

    fn fields(_message_type: u16) -> &'static [Field] {
        FIELDS
    }

    #[tactic(auto, using(netlink_family::specs::PushingLaws::none_choose))]
    fn chooses_shape(_message_type: u16, _kind: u16) -> bool {
        false
    }

    ghost sorted = { λ _. refl };
}

impl Family for NetworkConfigurations {
    ghost own = { refl };
}

/// A message about the settings of a link.
pub type NetworkConfigurationMessage = OwnedMessage<NetworkConfigurations>;
