//! The VNIs that a VXLAN link filters by (linux/if_link.h).

ghost use Rattle.std.specs.Prelude.{◌==◌, refl};
ghost use Rattle.netlink_family.specs.Shapes.{named, named_fields};
ghost use Rattle.netlink_route.specs.declared.vni_filters.TheConstants.{FIELDS, ROWS, RTM_GETTUNNEL, TYPES};

use netlink_family::{Family, Field, OwnedMessage, Row, Shape, TOP, Table, is_among};

pub const RTM_NEWTUNNEL: u16 = 120;

pub const RTM_DELTUNNEL: u16 = 121;

pub const RTM_GETTUNNEL: u16 = 122;

// The fields of `struct tunnel_msg`.
pub const TUNNEL_FAMILY: Field = ("family", 0, Shape::U8);

pub const TUNNEL_FLAGS: Field = ("flags", 1, Shape::U8);

pub const TUNNEL_IFINDEX: Field = ("ifindex", 4, Shape::U32);

/// The flag of a request for the statistics too.
pub const TUNNEL_MSG_FLAG_STATS: u8 = 1;

pub const VXLAN_VNIFILTER_ENTRY: u16 = 1;

/// The policy of `VXLAN_VNIFILTER_ENTRY`, a VNI or a range of VNIs.
pub const ENTRY: u16 = 1;

pub const VXLAN_VNIFILTER_ENTRY_START: u16 = 1;

pub const VXLAN_VNIFILTER_ENTRY_END: u16 = 2;

pub const VXLAN_VNIFILTER_ENTRY_GROUP: u16 = 3;

pub const VXLAN_VNIFILTER_ENTRY_GROUP6: u16 = 4;

pub const VXLAN_VNIFILTER_ENTRY_STATS: u16 = 5;

/// The policy of `VXLAN_VNIFILTER_ENTRY_STATS`.
pub const STATS: u16 = 2;

pub const VNIFILTER_ENTRY_STATS_RX_BYTES: u16 = 1;

pub const VNIFILTER_ENTRY_STATS_RX_PKTS: u16 = 2;

pub const VNIFILTER_ENTRY_STATS_RX_DROPS: u16 = 3;

pub const VNIFILTER_ENTRY_STATS_RX_ERRORS: u16 = 4;

pub const VNIFILTER_ENTRY_STATS_TX_BYTES: u16 = 5;

pub const VNIFILTER_ENTRY_STATS_TX_PKTS: u16 = 6;

pub const VNIFILTER_ENTRY_STATS_TX_DROPS: u16 = 7;

pub const VNIFILTER_ENTRY_STATS_TX_ERRORS: u16 = 8;

const TYPES: &'static [u16] = &[RTM_NEWTUNNEL, RTM_DELTUNNEL, RTM_GETTUNNEL];

const FIELDS: &'static [Field] = &[TUNNEL_FAMILY, TUNNEL_FLAGS, TUNNEL_IFINDEX];

// The kernel's `vni_filter_entry_policy`, `vxlan_fill_vni_filter_entry` and
// `vxlan_fill_vni_filter_stats`. Each row has one line, which `rt fmt` would break.
#[rattlefmt::skip]
const ROWS: &'static [Row] = &[
    (TOP, VXLAN_VNIFILTER_ENTRY, "VXLAN_VNIFILTER_ENTRY", Shape::Nested(ENTRY)),
    (ENTRY, VXLAN_VNIFILTER_ENTRY_START, "VXLAN_VNIFILTER_ENTRY_START", Shape::U32),
    (ENTRY, VXLAN_VNIFILTER_ENTRY_END, "VXLAN_VNIFILTER_ENTRY_END", Shape::U32),
    (ENTRY, VXLAN_VNIFILTER_ENTRY_GROUP, "VXLAN_VNIFILTER_ENTRY_GROUP", Shape::ExactLen(4)),
    (ENTRY, VXLAN_VNIFILTER_ENTRY_GROUP6, "VXLAN_VNIFILTER_ENTRY_GROUP6", Shape::ExactLen(16)),
    (ENTRY, VXLAN_VNIFILTER_ENTRY_STATS, "VXLAN_VNIFILTER_ENTRY_STATS", Shape::Nested(STATS)),
    (STATS, VNIFILTER_ENTRY_STATS_RX_BYTES, "VNIFILTER_ENTRY_STATS_RX_BYTES", Shape::U64),
    (STATS, VNIFILTER_ENTRY_STATS_RX_PKTS, "VNIFILTER_ENTRY_STATS_RX_PKTS", Shape::U64),
    (STATS, VNIFILTER_ENTRY_STATS_RX_DROPS, "VNIFILTER_ENTRY_STATS_RX_DROPS", Shape::U64),
    (STATS, VNIFILTER_ENTRY_STATS_RX_ERRORS, "VNIFILTER_ENTRY_STATS_RX_ERRORS", Shape::U64),
    (STATS, VNIFILTER_ENTRY_STATS_TX_BYTES, "VNIFILTER_ENTRY_STATS_TX_BYTES", Shape::U64),
    (STATS, VNIFILTER_ENTRY_STATS_TX_PKTS, "VNIFILTER_ENTRY_STATS_TX_PKTS", Shape::U64),
    (STATS, VNIFILTER_ENTRY_STATS_TX_DROPS, "VNIFILTER_ENTRY_STATS_TX_DROPS", Shape::U64),
    (STATS, VNIFILTER_ENTRY_STATS_TX_ERRORS, "VNIFILTER_ENTRY_STATS_TX_ERRORS", Shape::U64),
    (STATS, 9, "VNIFILTER_ENTRY_STATS_PAD", Shape::Bytes),
];

/// The family of VNIs that VXLAN links filter by.
#[derive(Clone, Copy, Debug, PartialEq, Eq)]
pub struct VniFilters;

impl Table for VniFilters {
    ghost types = { TYPES.now };

    ghost header_len = { λ _. 8 };

    ghost short = { λ t. t == RTM_GETTUNNEL };

    ghost rows = { λ _. named ROWS.now (λ name. name.now) };

    ghost fields = { λ _. named_fields FIELDS.now (λ name. name.now) };

    fn has(message_type: u16) -> bool {
        is_among(TYPES, message_type)
    }

    fn header_len(_message_type: u16) -> usize {
        8
    }

    fn allows_short(message_type: u16) -> bool {
        message_type == RTM_GETTUNNEL
    }

    fn rows(_message_type: u16) -> &'static [Row] {
        ROWS
    }

    fn fields(_message_type: u16) -> &'static [Field] {
        FIELDS
    }

    #[tactic(auto, using(netlink_family::specs::PushingLaws::none_choose))]
    fn chooses_shape(_message_type: u16, _kind: u16) -> bool {
        false
    }

    ghost sorted = { λ _. refl };
}

impl Family for VniFilters {
    ghost own = { refl };
}

/// A message about VNIs that a VXLAN link filters by.
pub type VniFilterMessage = OwnedMessage<VniFilters>;
