//! The statistics of links (linux/if_link.h, linux/if_bridge.h, linux/if_bonding.h, linux/mpls.h).

ghost use Rattle.std.specs.Prelude.{◌==◌, if◌then◌else◌, refl};
ghost use Rattle.netlink_family.specs.Shapes.{named, named_fields};
ghost use Rattle.netlink_family.specs.SortedLaws.{both_sorted};
ghost use Rattle.netlink_route.specs.declared.link_statistics.TheConstants.{FIELDS, REQUEST_ROWS, ROWS, RTM_GETSTATS, RTM_NEWSTATS, TYPES};

use netlink_family::{Family, Field, OwnedMessage, Row, Shape, TOP, Table, is_among};

pub const RTM_NEWSTATS: u16 = 92;

pub const RTM_GETSTATS: u16 = 94;

pub const RTM_SETSTATS: u16 = 95;

// The fields of `struct if_stats_msg`.
pub const IFSM_FAMILY: Field = ("family", 0, Shape::U8);

pub const IFSM_IFINDEX: Field = ("ifindex", 4, Shape::U32);

pub const IFSM_FILTER_MASK: Field = ("filter_mask", 8, Shape::U32);

/// A `struct rtnl_link_stats64`.
pub const IFLA_STATS_LINK_64: u16 = 1;

pub const IFLA_STATS_LINK_XSTATS: u16 = 2;

pub const IFLA_STATS_LINK_XSTATS_SLAVE: u16 = 3;

pub const IFLA_STATS_LINK_OFFLOAD_XSTATS: u16 = 4;

pub const IFLA_STATS_AF_SPEC: u16 = 5;

/// In a request: for each kind above, a mask of what it is to have.
pub const IFLA_STATS_GET_FILTERS: u16 = 1;

/// In a request: whether statistics of routing are collected in hardware.
pub const IFLA_STATS_SET_OFFLOAD_XSTATS_L3_STATS: u16 = 2;

/// The policy of `IFLA_STATS_LINK_XSTATS` and `IFLA_STATS_LINK_XSTATS_SLAVE`.
pub const XSTATS: u16 = 1;

pub const LINK_XSTATS_TYPE_BRIDGE: u16 = 1;

pub const LINK_XSTATS_TYPE_BOND: u16 = 2;

/// The policy of `LINK_XSTATS_TYPE_BRIDGE`.
pub const BRIDGE: u16 = 2;

/// A `struct bridge_vlan_xstats`, one for each VLAN.
pub const BRIDGE_XSTATS_VLAN: u16 = 1;

/// A `struct br_mcast_stats`.
pub const BRIDGE_XSTATS_MCAST: u16 = 2;

/// A `struct bridge_stp_xstats`.
pub const BRIDGE_XSTATS_STP: u16 = 4;

/// The policy of `LINK_XSTATS_TYPE_BOND`.
pub const BOND: u16 = 3;

pub const BOND_XSTATS_3AD: u16 = 1;

/// The policy of `BOND_XSTATS_3AD`.
pub const BOND_3AD: u16 = 4;

pub const BOND_3AD_STAT_LACPDU_RX: u16 = 0;

pub const BOND_3AD_STAT_LACPDU_TX: u16 = 1;

pub const BOND_3AD_STAT_LACPDU_UNKNOWN_RX: u16 = 2;

pub const BOND_3AD_STAT_LACPDU_ILLEGAL_RX: u16 = 3;

pub const BOND_3AD_STAT_MARKER_RX: u16 = 4;

pub const BOND_3AD_STAT_MARKER_TX: u16 = 5;

pub const BOND_3AD_STAT_MARKER_RESP_RX: u16 = 6;

pub const BOND_3AD_STAT_MARKER_RESP_TX: u16 = 7;

pub const BOND_3AD_STAT_MARKER_UNKNOWN_RX: u16 = 8;

/// The policy of `IFLA_STATS_LINK_OFFLOAD_XSTATS`.
pub const OFFLOAD_XSTATS: u16 = 5;

/// A `struct rtnl_link_stats64`.
pub const IFLA_OFFLOAD_XSTATS_CPU_HIT: u16 = 1;

/// For each of these kinds that is of hardware: what is requested and used.
pub const IFLA_OFFLOAD_XSTATS_HW_S_INFO: u16 = 2;

/// A `struct rtnl_hw_stats64`.
pub const IFLA_OFFLOAD_XSTATS_L3_STATS: u16 = 3;

/// The policy of `IFLA_OFFLOAD_XSTATS_HW_S_INFO`.
pub const HW_S_INFOS: u16 = 6;

/// The policy of `IFLA_OFFLOAD_XSTATS_L3_STATS` in it.
pub const HW_S_INFO: u16 = 7;

pub const IFLA_OFFLOAD_XSTATS_HW_S_INFO_REQUEST: u16 = 1;

pub const IFLA_OFFLOAD_XSTATS_HW_S_INFO_USED: u16 = 2;

/// The policy of `IFLA_STATS_AF_SPEC`, whose kinds are address families.
pub const AF_SPEC: u16 = 8;

/// The policy of the family `AF_MPLS`.
pub const MPLS: u16 = 9;

/// A `struct mpls_link_stats`.
pub const MPLS_STATS_LINK: u16 = 1;

/// The policy of `IFLA_STATS_GET_FILTERS`.
pub const FILTERS: u16 = 10;

const TYPES: &'static [u16] = &[RTM_NEWSTATS, RTM_GETSTATS, RTM_SETSTATS];

const FIELDS: &'static [Field] = &[IFSM_FAMILY, IFSM_IFINDEX, IFSM_FILTER_MASK];

// The kernel's `rtnl_stats_get_policy`, `rtnl_stats_get_policy_filters` and `ifla_stats_set_policy`.
const REQUEST_ROWS: &'static [Row] = &[
    (
        TOP,
        IFLA_STATS_GET_FILTERS,
        "IFLA_STATS_GET_FILTERS",
        Shape::Nested(FILTERS),
    ),
    (
        TOP,
        IFLA_STATS_SET_OFFLOAD_XSTATS_L3_STATS,
        "IFLA_STATS_SET_OFFLOAD_XSTATS_L3_STATS",
        Shape::U8,
    ),
    (
        FILTERS,
        IFLA_STATS_LINK_64,
        "IFLA_STATS_LINK_64",
        Shape::U32,
    ),
    (
        FILTERS,
        IFLA_STATS_LINK_XSTATS,
        "IFLA_STATS_LINK_XSTATS",
        Shape::U32,
    ),
    (
        FILTERS,
        IFLA_STATS_LINK_XSTATS_SLAVE,
        "IFLA_STATS_LINK_XSTATS_SLAVE",
        Shape::U32,
    ),
    (
        FILTERS,
        IFLA_STATS_LINK_OFFLOAD_XSTATS,
        "IFLA_STATS_LINK_OFFLOAD_XSTATS",
        Shape::U32,
    ),
    (
        FILTERS,
        IFLA_STATS_AF_SPEC,
        "IFLA_STATS_AF_SPEC",
        Shape::U32,
    ),
];

// The kernel's `rtnl_fill_statsinfo`, `rtnl_offload_xstats_fill`, `br_fill_linkxstats`,
// `bond_fill_linkxstats`, `bond_3ad_stats_fill` and `mpls_fill_stats_af`. `struct rtnl_link_stats64`
// had 192 bytes until Linux 5.18, and has 200 since. Each row has one line, which `rt fmt` would break.
#[rattlefmt::skip]
const ROWS: &'static [Row] = &[
    (TOP, 0, "IFLA_STATS_UNSPEC", Shape::Bytes),
    (TOP, IFLA_STATS_LINK_64, "IFLA_STATS_LINK_64", Shape::MinLen(192)),
    (TOP, IFLA_STATS_LINK_XSTATS, "IFLA_STATS_LINK_XSTATS", Shape::Nested(XSTATS)),
    (TOP, IFLA_STATS_LINK_XSTATS_SLAVE, "IFLA_STATS_LINK_XSTATS_SLAVE", Shape::Nested(XSTATS)),
    (TOP, IFLA_STATS_LINK_OFFLOAD_XSTATS, "IFLA_STATS_LINK_OFFLOAD_XSTATS", Shape::Nested(OFFLOAD_XSTATS)),
    (TOP, IFLA_STATS_AF_SPEC, "IFLA_STATS_AF_SPEC", Shape::Nested(AF_SPEC)),
    (XSTATS, LINK_XSTATS_TYPE_BRIDGE, "LINK_XSTATS_TYPE_BRIDGE", Shape::Nested(BRIDGE)),
    (XSTATS, LINK_XSTATS_TYPE_BOND, "LINK_XSTATS_TYPE_BOND", Shape::Nested(BOND)),
    (BRIDGE, BRIDGE_XSTATS_VLAN, "BRIDGE_XSTATS_VLAN", Shape::MinLen(40)),
    (BRIDGE, BRIDGE_XSTATS_MCAST, "BRIDGE_XSTATS_MCAST", Shape::MinLen(240)),
    (BRIDGE, 3, "BRIDGE_XSTATS_PAD", Shape::Bytes),
    (BRIDGE, BRIDGE_XSTATS_STP, "BRIDGE_XSTATS_STP", Shape::MinLen(48)),
    (BOND, BOND_XSTATS_3AD, "BOND_XSTATS_3AD", Shape::Nested(BOND_3AD)),
    (BOND_3AD, BOND_3AD_STAT_LACPDU_RX, "BOND_3AD_STAT_LACPDU_RX", Shape::U64),
    (BOND_3AD, BOND_3AD_STAT_LACPDU_TX, "BOND_3AD_STAT_LACPDU_TX", Shape::U64),
    (BOND_3AD, BOND_3AD_STAT_LACPDU_UNKNOWN_RX, "BOND_3AD_STAT_LACPDU_UNKNOWN_RX", Shape::U64),
    (BOND_3AD, BOND_3AD_STAT_LACPDU_ILLEGAL_RX, "BOND_3AD_STAT_LACPDU_ILLEGAL_RX", Shape::U64),
    (BOND_3AD, BOND_3AD_STAT_MARKER_RX, "BOND_3AD_STAT_MARKER_RX", Shape::U64),
    (BOND_3AD, BOND_3AD_STAT_MARKER_TX, "BOND_3AD_STAT_MARKER_TX", Shape::U64),
    (BOND_3AD, BOND_3AD_STAT_MARKER_RESP_RX, "BOND_3AD_STAT_MARKER_RESP_RX", Shape::U64),
    (BOND_3AD, BOND_3AD_STAT_MARKER_RESP_TX, "BOND_3AD_STAT_MARKER_RESP_TX", Shape::U64),
    (BOND_3AD, BOND_3AD_STAT_MARKER_UNKNOWN_RX, "BOND_3AD_STAT_MARKER_UNKNOWN_RX", Shape::U64),
    (BOND_3AD, 9, "BOND_3AD_STAT_PAD", Shape::Bytes),
    (OFFLOAD_XSTATS, 0, "IFLA_OFFLOAD_XSTATS_UNSPEC", Shape::Bytes),
    (OFFLOAD_XSTATS, IFLA_OFFLOAD_XSTATS_CPU_HIT, "IFLA_OFFLOAD_XSTATS_CPU_HIT", Shape::MinLen(192)),
    (OFFLOAD_XSTATS, IFLA_OFFLOAD_XSTATS_HW_S_INFO, "IFLA_OFFLOAD_XSTATS_HW_S_INFO", Shape::Nested(HW_S_INFOS)),
    (OFFLOAD_XSTATS, IFLA_OFFLOAD_XSTATS_L3_STATS, "IFLA_OFFLOAD_XSTATS_L3_STATS", Shape::MinLen(72)),
    (HW_S_INFOS, IFLA_OFFLOAD_XSTATS_L3_STATS, "IFLA_OFFLOAD_XSTATS_L3_STATS", Shape::Nested(HW_S_INFO)),
    (HW_S_INFO, IFLA_OFFLOAD_XSTATS_HW_S_INFO_REQUEST, "IFLA_OFFLOAD_XSTATS_HW_S_INFO_REQUEST", Shape::U8),
    (HW_S_INFO, IFLA_OFFLOAD_XSTATS_HW_S_INFO_USED, "IFLA_OFFLOAD_XSTATS_HW_S_INFO_USED", Shape::U8),
    (AF_SPEC, 28, "AF_MPLS", Shape::Nested(MPLS)),
    (MPLS, 0, "MPLS_STATS_UNSPEC", Shape::Bytes),
    (MPLS, MPLS_STATS_LINK, "MPLS_STATS_LINK", Shape::MinLen(72)),
];

/// The family of statistics of links. Requests have rows of their own.
#[derive(Clone, Copy, Debug, PartialEq, Eq)]
pub struct LinkStatistics;

impl Table for LinkStatistics {
    ghost types = { TYPES.now };

    ghost header_len = { λ _. 12 };

    ghost short = { λ t. t == RTM_GETSTATS };

    ghost rows = { λ t. if t == RTM_NEWSTATS
        then named ROWS.now (λ name. name.now)
        else named REQUEST_ROWS.now (λ name. name.now) };

    ghost fields = { λ _. named_fields FIELDS.now (λ name. name.now) };

    fn has(message_type: u16) -> bool {
        is_among(TYPES, message_type)
    }

    fn header_len(_message_type: u16) -> usize {
        12
    }

    fn allows_short(message_type: u16) -> bool {
        message_type == RTM_GETSTATS
    }

    fn rows(message_type: u16) -> &'static [Row] {
        if message_type == RTM_NEWSTATS {
            return ROWS;
        }
        REQUEST_ROWS
    }

    fn fields(_message_type: u16) -> &'static [Field] {
        FIELDS
    }

    ghost sorted = { λ t. both_sorted (t == RTM_NEWSTATS) (named ROWS.now (λ name. name.now))
        (named REQUEST_ROWS.now (λ name. name.now)) refl refl };
}

impl Family for LinkStatistics {
    ghost own = { refl };
}

/// A message about the statistics of a link.
pub type LinkStatisticsMessage = OwnedMessage<LinkStatistics>;
