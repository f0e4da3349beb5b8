//! The VLANs of bridges and their ports (linux/if_bridge.h).

ghost use Rattle.std.specs.Prelude.{◌==◌, if◌then◌else◌, refl};
ghost use Rattle.netlink_family.specs.Shapes.{named, named_fields};
ghost use Rattle.netlink_family.specs.SortedLaws.{both_sorted};
ghost use Rattle.netlink_route.specs.declared.bridge_vlans.TheConstants.{DUMP_ROWS, FIELDS, ROWS, RTM_GETVLAN, TYPES};

use crate::multicast_groups::{
    MDBA_ROUTER, MDBA_ROUTER_PATTR_INET_TIMER, MDBA_ROUTER_PATTR_INET6_TIMER,
    MDBA_ROUTER_PATTR_TIMER, MDBA_ROUTER_PATTR_TYPE, MDBA_ROUTER_PATTR_VID, MDBA_ROUTER_PORT,
};
use netlink_family::{Family, Field, OwnedMessage, Row, Shape, TOP, Table, is_among};

pub const RTM_NEWVLAN: u16 = 112;

pub const RTM_DELVLAN: u16 = 113;

pub const RTM_GETVLAN: u16 = 114;

// The fields of `struct br_vlan_msg`.
pub const BR_VLAN_FAMILY: Field = ("family", 0, Shape::U8);

pub const BR_VLAN_IFINDEX: Field = ("ifindex", 4, Shape::U32);

/// The flags of a request, in messages of the type `RTM_GETVLAN`
pub const BRIDGE_VLANDB_DUMP_FLAGS: u16 = 1;

pub const BRIDGE_VLANDB_DUMPF_STATS: u32 = 1;

pub const BRIDGE_VLANDB_DUMPF_GLOBAL: u32 = 2;

pub const BRIDGE_VLANDB_ENTRY: u16 = 1;

pub const BRIDGE_VLANDB_GLOBAL_OPTIONS: u16 = 2;

/// The policy of `BRIDGE_VLANDB_ENTRY`, a VLAN or a range of VLANs of a link.
pub const ENTRY: u16 = 1;

/// A `struct bridge_vlan_info`: flags and the id of the VLAN, in 2 bytes each.
pub const BRIDGE_VLANDB_ENTRY_INFO: u16 = 1;

pub const BRIDGE_VLANDB_ENTRY_RANGE: u16 = 2;

pub const BRIDGE_VLANDB_ENTRY_STATE: u16 = 3;

pub const BRIDGE_VLANDB_ENTRY_TUNNEL_INFO: u16 = 4;

pub const BRIDGE_VLANDB_ENTRY_STATS: u16 = 5;

pub const BRIDGE_VLANDB_ENTRY_MCAST_ROUTER: u16 = 6;

pub const BRIDGE_VLANDB_ENTRY_MCAST_N_GROUPS: u16 = 7;

pub const BRIDGE_VLANDB_ENTRY_MCAST_MAX_GROUPS: u16 = 8;

pub const BRIDGE_VLANDB_ENTRY_NEIGH_SUPPRESS: u16 = 9;

/// The policy of `BRIDGE_VLANDB_ENTRY_TUNNEL_INFO`.
pub const TINFO: u16 = 2;

pub const BRIDGE_VLANDB_TINFO_ID: u16 = 1;

pub const BRIDGE_VLANDB_TINFO_CMD: u16 = 2;

/// The policy of `BRIDGE_VLANDB_ENTRY_STATS`.
pub const STATS: u16 = 3;

pub const BRIDGE_VLANDB_STATS_RX_BYTES: u16 = 1;

pub const BRIDGE_VLANDB_STATS_RX_PACKETS: u16 = 2;

pub const BRIDGE_VLANDB_STATS_TX_BYTES: u16 = 3;

pub const BRIDGE_VLANDB_STATS_TX_PACKETS: u16 = 4;

/// The policy of `BRIDGE_VLANDB_GLOBAL_OPTIONS`, a VLAN or a range of VLANs of a bridge. Its intervals
/// are in hundredths of a second.
pub const GOPTS: u16 = 4;

pub const BRIDGE_VLANDB_GOPTS_ID: u16 = 1;

pub const BRIDGE_VLANDB_GOPTS_RANGE: u16 = 2;

pub const BRIDGE_VLANDB_GOPTS_MCAST_SNOOPING: u16 = 3;

pub const BRIDGE_VLANDB_GOPTS_MCAST_IGMP_VERSION: u16 = 4;

pub const BRIDGE_VLANDB_GOPTS_MCAST_MLD_VERSION: u16 = 5;

pub const BRIDGE_VLANDB_GOPTS_MCAST_LAST_MEMBER_CNT: u16 = 6;

pub const BRIDGE_VLANDB_GOPTS_MCAST_STARTUP_QUERY_CNT: u16 = 7;

pub const BRIDGE_VLANDB_GOPTS_MCAST_LAST_MEMBER_INTVL: u16 = 8;

pub const BRIDGE_VLANDB_GOPTS_MCAST_MEMBERSHIP_INTVL: u16 = 10;

pub const BRIDGE_VLANDB_GOPTS_MCAST_QUERIER_INTVL: u16 = 11;

pub const BRIDGE_VLANDB_GOPTS_MCAST_QUERY_INTVL: u16 = 12;

pub const BRIDGE_VLANDB_GOPTS_MCAST_QUERY_RESPONSE_INTVL: u16 = 13;

pub const BRIDGE_VLANDB_GOPTS_MCAST_STARTUP_QUERY_INTVL: u16 = 14;

pub const BRIDGE_VLANDB_GOPTS_MCAST_QUERIER: u16 = 15;

pub const BRIDGE_VLANDB_GOPTS_MCAST_ROUTER_PORTS: u16 = 16;

pub const BRIDGE_VLANDB_GOPTS_MCAST_QUERIER_STATE: u16 = 17;

pub const BRIDGE_VLANDB_GOPTS_MSTI: u16 = 18;

/// The policy of `BRIDGE_VLANDB_GOPTS_MCAST_ROUTER_PORTS`, which has an `MDBA_ROUTER`.
pub const ROUTER_PORTS: u16 = 5;

/// The policy of `MDBA_ROUTER` in it.
pub const ROUTER: u16 = 6;

/// The policy of the attributes in `MDBA_ROUTER_PORT`, which follow the index of the port.
pub const ROUTER_PATTR: u16 = 7;

/// The policy of `BRIDGE_VLANDB_GOPTS_MCAST_QUERIER_STATE`. Its times are in hundredths of a second.
pub const QUERIER: u16 = 8;

pub const BRIDGE_QUERIER_IP_ADDRESS: u16 = 1;

pub const BRIDGE_QUERIER_IP_PORT: u16 = 2;

pub const BRIDGE_QUERIER_IP_OTHER_TIMER: u16 = 3;

pub const BRIDGE_QUERIER_IPV6_ADDRESS: u16 = 5;

pub const BRIDGE_QUERIER_IPV6_PORT: u16 = 6;

pub const BRIDGE_QUERIER_IPV6_OTHER_TIMER: u16 = 7;

const TYPES: &'static [u16] = &[RTM_NEWVLAN, RTM_DELVLAN, RTM_GETVLAN];

const FIELDS: &'static [Field] = &[BR_VLAN_FAMILY, BR_VLAN_IFINDEX];

// The kernel's `br_vlan_db_dump_pol`.
const DUMP_ROWS: &'static [Row] = &[(
    TOP,
    BRIDGE_VLANDB_DUMP_FLAGS,
    "BRIDGE_VLANDB_DUMP_FLAGS",
    Shape::U32,
)];

// The kernel's `br_vlan_db_policy`, `br_vlan_fill_vids`, `br_vlan_opts_fill`, `br_vlan_stats_fill`,
// `br_vlan_global_opts_fill`, `br_rports_fill_info` and `br_multicast_dump_querier_state`. Each row has
// one line, which `rt fmt` would break.
#[rattlefmt::skip]
const ROWS: &'static [Row] = &[
    (TOP, BRIDGE_VLANDB_ENTRY, "BRIDGE_VLANDB_ENTRY", Shape::Nested(ENTRY)),
    (TOP, BRIDGE_VLANDB_GLOBAL_OPTIONS, "BRIDGE_VLANDB_GLOBAL_OPTIONS", Shape::Nested(GOPTS)),
    (ENTRY, BRIDGE_VLANDB_ENTRY_INFO, "BRIDGE_VLANDB_ENTRY_INFO", Shape::MinLen(4)),
    (ENTRY, BRIDGE_VLANDB_ENTRY_RANGE, "BRIDGE_VLANDB_ENTRY_RANGE", Shape::U16),
    (ENTRY, BRIDGE_VLANDB_ENTRY_STATE, "BRIDGE_VLANDB_ENTRY_STATE", Shape::U8),
    (ENTRY, BRIDGE_VLANDB_ENTRY_TUNNEL_INFO, "BRIDGE_VLANDB_ENTRY_TUNNEL_INFO", Shape::Nested(TINFO)),
    (ENTRY, BRIDGE_VLANDB_ENTRY_STATS, "BRIDGE_VLANDB_ENTRY_STATS", Shape::Nested(STATS)),
    (ENTRY, BRIDGE_VLANDB_ENTRY_MCAST_ROUTER, "BRIDGE_VLANDB_ENTRY_MCAST_ROUTER", Shape::U8),
    (ENTRY, BRIDGE_VLANDB_ENTRY_MCAST_N_GROUPS, "BRIDGE_VLANDB_ENTRY_MCAST_N_GROUPS", Shape::U32),
    (ENTRY, BRIDGE_VLANDB_ENTRY_MCAST_MAX_GROUPS, "BRIDGE_VLANDB_ENTRY_MCAST_MAX_GROUPS", Shape::U32),
    (ENTRY, BRIDGE_VLANDB_ENTRY_NEIGH_SUPPRESS, "BRIDGE_VLANDB_ENTRY_NEIGH_SUPPRESS", Shape::U8),
    (TINFO, BRIDGE_VLANDB_TINFO_ID, "BRIDGE_VLANDB_TINFO_ID", Shape::U32),
    (TINFO, BRIDGE_VLANDB_TINFO_CMD, "BRIDGE_VLANDB_TINFO_CMD", Shape::U32),
    (STATS, BRIDGE_VLANDB_STATS_RX_BYTES, "BRIDGE_VLANDB_STATS_RX_BYTES", Shape::U64),
    (STATS, BRIDGE_VLANDB_STATS_RX_PACKETS, "BRIDGE_VLANDB_STATS_RX_PACKETS", Shape::U64),
    (STATS, BRIDGE_VLANDB_STATS_TX_BYTES, "BRIDGE_VLANDB_STATS_TX_BYTES", Shape::U64),
    (STATS, BRIDGE_VLANDB_STATS_TX_PACKETS, "BRIDGE_VLANDB_STATS_TX_PACKETS", Shape::U64),
    (STATS, 5, "BRIDGE_VLANDB_STATS_PAD", Shape::Bytes),
    (GOPTS, BRIDGE_VLANDB_GOPTS_ID, "BRIDGE_VLANDB_GOPTS_ID", Shape::U16),
    (GOPTS, BRIDGE_VLANDB_GOPTS_RANGE, "BRIDGE_VLANDB_GOPTS_RANGE", Shape::U16),
    (GOPTS, BRIDGE_VLANDB_GOPTS_MCAST_SNOOPING, "BRIDGE_VLANDB_GOPTS_MCAST_SNOOPING", Shape::U8),
    (GOPTS, BRIDGE_VLANDB_GOPTS_MCAST_IGMP_VERSION, "BRIDGE_VLANDB_GOPTS_MCAST_IGMP_VERSION", Shape::U8),
    (GOPTS, BRIDGE_VLANDB_GOPTS_MCAST_MLD_VERSION, "BRIDGE_VLANDB_GOPTS_MCAST_MLD_VERSION", Shape::U8),
    (GOPTS, BRIDGE_VLANDB_GOPTS_MCAST_LAST_MEMBER_CNT, "BRIDGE_VLANDB_GOPTS_MCAST_LAST_MEMBER_CNT", Shape::U32),
    (GOPTS, BRIDGE_VLANDB_GOPTS_MCAST_STARTUP_QUERY_CNT, "BRIDGE_VLANDB_GOPTS_MCAST_STARTUP_QUERY_CNT", Shape::U32),
    (GOPTS, BRIDGE_VLANDB_GOPTS_MCAST_LAST_MEMBER_INTVL, "BRIDGE_VLANDB_GOPTS_MCAST_LAST_MEMBER_INTVL", Shape::U64),
    (GOPTS, 9, "BRIDGE_VLANDB_GOPTS_PAD", Shape::Bytes),
    (GOPTS, BRIDGE_VLANDB_GOPTS_MCAST_MEMBERSHIP_INTVL, "BRIDGE_VLANDB_GOPTS_MCAST_MEMBERSHIP_INTVL", Shape::U64),
    (GOPTS, BRIDGE_VLANDB_GOPTS_MCAST_QUERIER_INTVL, "BRIDGE_VLANDB_GOPTS_MCAST_QUERIER_INTVL", Shape::U64),
    (GOPTS, BRIDGE_VLANDB_GOPTS_MCAST_QUERY_INTVL, "BRIDGE_VLANDB_GOPTS_MCAST_QUERY_INTVL", Shape::U64),
    (GOPTS, BRIDGE_VLANDB_GOPTS_MCAST_QUERY_RESPONSE_INTVL, "BRIDGE_VLANDB_GOPTS_MCAST_QUERY_RESPONSE_INTVL", Shape::U64),
    (GOPTS, BRIDGE_VLANDB_GOPTS_MCAST_STARTUP_QUERY_INTVL, "BRIDGE_VLANDB_GOPTS_MCAST_STARTUP_QUERY_INTVL", Shape::U64),
    (GOPTS, BRIDGE_VLANDB_GOPTS_MCAST_QUERIER, "BRIDGE_VLANDB_GOPTS_MCAST_QUERIER", Shape::U8),
    (GOPTS, BRIDGE_VLANDB_GOPTS_MCAST_ROUTER_PORTS, "BRIDGE_VLANDB_GOPTS_MCAST_ROUTER_PORTS", Shape::Nested(ROUTER_PORTS)),
    (GOPTS, BRIDGE_VLANDB_GOPTS_MCAST_QUERIER_STATE, "BRIDGE_VLANDB_GOPTS_MCAST_QUERIER_STATE", Shape::Nested(QUERIER)),
    (GOPTS, BRIDGE_VLANDB_GOPTS_MSTI, "BRIDGE_VLANDB_GOPTS_MSTI", Shape::U16),
    (ROUTER_PORTS, MDBA_ROUTER, "MDBA_ROUTER", Shape::Nested(ROUTER)),
    (ROUTER, MDBA_ROUTER_PORT, "MDBA_ROUTER_PORT", Shape::HeaderNested { size: 4, policy: ROUTER_PATTR }),
    (ROUTER_PATTR, MDBA_ROUTER_PATTR_TIMER, "MDBA_ROUTER_PATTR_TIMER", Shape::U32),
    (ROUTER_PATTR, MDBA_ROUTER_PATTR_TYPE, "MDBA_ROUTER_PATTR_TYPE", Shape::U8),
    (ROUTER_PATTR, MDBA_ROUTER_PATTR_INET_TIMER, "MDBA_ROUTER_PATTR_INET_TIMER", Shape::U32),
    (ROUTER_PATTR, MDBA_ROUTER_PATTR_INET6_TIMER, "MDBA_ROUTER_PATTR_INET6_TIMER", Shape::U32),
    (ROUTER_PATTR, MDBA_ROUTER_PATTR_VID, "MDBA_ROUTER_PATTR_VID", Shape::U16),
    (QUERIER, BRIDGE_QUERIER_IP_ADDRESS, "BRIDGE_QUERIER_IP_ADDRESS", Shape::ExactLen(4)),
    (QUERIER, BRIDGE_QUERIER_IP_PORT, "BRIDGE_QUERIER_IP_PORT", Shape::U32),
    (QUERIER, BRIDGE_QUERIER_IP_OTHER_TIMER, "BRIDGE_QUERIER_IP_OTHER_TIMER", Shape::U64),
    (QUERIER, 4, "BRIDGE_QUERIER_PAD", Shape::Bytes),
    (QUERIER, BRIDGE_QUERIER_IPV6_ADDRESS, "BRIDGE_QUERIER_IPV6_ADDRESS", Shape::ExactLen(16)),
    (QUERIER, BRIDGE_QUERIER_IPV6_PORT, "BRIDGE_QUERIER_IPV6_PORT", Shape::U32),
    (QUERIER, BRIDGE_QUERIER_IPV6_OTHER_TIMER, "BRIDGE_QUERIER_IPV6_OTHER_TIMER", Shape::U64),
];

/// The family of VLANs of bridges. Requests of the type `RTM_GETVLAN` have rows of their own.
#[derive(Clone, Copy, Debug, PartialEq, Eq)]
pub struct BridgeVlans;

impl Table for BridgeVlans {
    ghost types = { TYPES.now };

    ghost header_len = { λ _. 8 };

    ghost short = { λ t. t == RTM_GETVLAN };

    ghost rows = { λ t. if t == RTM_GETVLAN
        then named DUMP_ROWS.now (λ name. name.now)
        else named ROWS.now (λ name. name.now) };

    ghost fields = { λ _. named_fields FIELDS.now (λ name. name.now) };

    fn has(message_type: u16) -> bool {
        is_among(TYPES, message_type)
    }

    fn header_len(_message_type: u16) -> usize {
        8
    }

    fn allows_short(message_type: u16) -> bool {
        message_type == RTM_GETVLAN
    }

    fn rows(message_type: u16) -> &'static [Row] {
        if message_type == RTM_GETVLAN {
            return DUMP_ROWS;
        }
        ROWS
    }

    fn fields(_message_type: u16) -> &'static [Field] {
        FIELDS
    }

    ghost sorted = { λ t. both_sorted (t == RTM_GETVLAN) (named DUMP_ROWS.now (λ name. name.now))
        (named ROWS.now (λ name. name.now)) refl refl };
}

impl Family for BridgeVlans {
    ghost own = { refl };
}

/// A message about VLANs of a bridge.
pub type BridgeVlanMessage = OwnedMessage<BridgeVlans>;
