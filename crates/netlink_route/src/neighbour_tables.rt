//! Neighbour tables (linux/rtnetlink.h, linux/neighbour.h).

ghost use Rattle.std.specs.Prelude.{◌==◌, refl};
ghost use Rattle.netlink_family.specs.Shapes.{named, named_fields};
ghost use Rattle.netlink_route.specs.declared.neighbour_tables.TheConstants.{FIELDS, ROWS, RTM_GETNEIGHTBL, TYPES};

use netlink_family::{Family, Field, OwnedMessage, Row, Shape, TOP, Table, is_among};

pub const RTM_NEWNEIGHTBL: u16 = 64;

pub const RTM_GETNEIGHTBL: u16 = 66;

pub const RTM_SETNEIGHTBL: u16 = 67;

// The fields of `struct ndtmsg`.
pub const NDTM_FAMILY: Field = ("ndtm_family", 0, Shape::U8);

pub const NDTA_NAME: u16 = 1;

pub const NDTA_THRESH1: u16 = 2;

pub const NDTA_THRESH2: u16 = 3;

pub const NDTA_THRESH3: u16 = 4;

pub const NDTA_CONFIG: u16 = 5;

pub const NDTA_PARMS: u16 = 6;

pub const NDTA_STATS: u16 = 7;

pub const NDTA_GC_INTERVAL: u16 = 8;

/// The policy of `NDTA_PARMS`.
pub const PARMS: u16 = 1;

pub const NDTPA_IFINDEX: u16 = 1;

pub const NDTPA_REFCNT: u16 = 2;

pub const NDTPA_REACHABLE_TIME: u16 = 3;

pub const NDTPA_BASE_REACHABLE_TIME: u16 = 4;

pub const NDTPA_RETRANS_TIME: u16 = 5;

pub const NDTPA_GC_STALETIME: u16 = 6;

pub const NDTPA_DELAY_PROBE_TIME: u16 = 7;

pub const NDTPA_QUEUE_LEN: u16 = 8;

pub const NDTPA_APP_PROBES: u16 = 9;

pub const NDTPA_UCAST_PROBES: u16 = 10;

pub const NDTPA_MCAST_PROBES: u16 = 11;

pub const NDTPA_ANYCAST_DELAY: u16 = 12;

pub const NDTPA_PROXY_DELAY: u16 = 13;

pub const NDTPA_PROXY_QLEN: u16 = 14;

pub const NDTPA_LOCKTIME: u16 = 15;

pub const NDTPA_QUEUE_LENBYTES: u16 = 16;

pub const NDTPA_MCAST_REPROBES: u16 = 17;

pub const NDTPA_INTERVAL_PROBE_TIME_MS: u16 = 19;

const TYPES: &'static [u16] = &[RTM_NEWNEIGHTBL, RTM_GETNEIGHTBL, RTM_SETNEIGHTBL];

const FIELDS: &'static [Field] = &[NDTM_FAMILY];

// The kernel's `nl_neightbl_policy`, `nl_ntbl_parm_policy`, `neightbl_fill_info` and
// `neightbl_fill_parms`. `struct ndt_stats` had 80 bytes until Linux 4.2, and has 88 since.
const ROWS: &'static [Row] = &[
    (TOP, NDTA_NAME, "NDTA_NAME", Shape::Str),
    (TOP, NDTA_THRESH1, "NDTA_THRESH1", Shape::U32),
    (TOP, NDTA_THRESH2, "NDTA_THRESH2", Shape::U32),
    (TOP, NDTA_THRESH3, "NDTA_THRESH3", Shape::U32),
    (TOP, NDTA_CONFIG, "NDTA_CONFIG", Shape::MinLen(32)),
    (TOP, NDTA_PARMS, "NDTA_PARMS", Shape::Nested(PARMS)),
    (TOP, NDTA_STATS, "NDTA_STATS", Shape::MinLen(80)),
    (TOP, NDTA_GC_INTERVAL, "NDTA_GC_INTERVAL", Shape::U64),
    (TOP, 9, "NDTA_PAD", Shape::Bytes),
    (PARMS, NDTPA_IFINDEX, "NDTPA_IFINDEX", Shape::U32),
    (PARMS, NDTPA_REFCNT, "NDTPA_REFCNT", Shape::U32),
    (
        PARMS,
        NDTPA_REACHABLE_TIME,
        "NDTPA_REACHABLE_TIME",
        Shape::U64,
    ),
    (
        PARMS,
        NDTPA_BASE_REACHABLE_TIME,
        "NDTPA_BASE_REACHABLE_TIME",
        Shape::U64,
    ),
    (PARMS, NDTPA_RETRANS_TIME, "NDTPA_RETRANS_TIME", Shape::U64),
    (PARMS, NDTPA_GC_STALETIME, "NDTPA_GC_STALETIME", Shape::U64),
    (
        PARMS,
        NDTPA_DELAY_PROBE_TIME,
        "NDTPA_DELAY_PROBE_TIME",
        Shape::U64,
    ),
    (PARMS, NDTPA_QUEUE_LEN, "NDTPA_QUEUE_LEN", Shape::U32),
    (PARMS, NDTPA_APP_PROBES, "NDTPA_APP_PROBES", Shape::U32),
    (PARMS, NDTPA_UCAST_PROBES, "NDTPA_UCAST_PROBES", Shape::U32),
    (PARMS, NDTPA_MCAST_PROBES, "NDTPA_MCAST_PROBES", Shape::U32),
    (
        PARMS,
        NDTPA_ANYCAST_DELAY,
        "NDTPA_ANYCAST_DELAY",
        Shape::U64,
    ),
    (PARMS, NDTPA_PROXY_DELAY, "NDTPA_PROXY_DELAY", Shape::U64),
    (PARMS, NDTPA_PROXY_QLEN, "NDTPA_PROXY_QLEN", Shape::U32),
    (PARMS, NDTPA_LOCKTIME, "NDTPA_LOCKTIME", Shape::U64),
    (
        PARMS,
        NDTPA_QUEUE_LENBYTES,
        "NDTPA_QUEUE_LENBYTES",
        Shape::U32,
    ),
    (
        PARMS,
        NDTPA_MCAST_REPROBES,
        "NDTPA_MCAST_REPROBES",
        Shape::U32,
    ),
    (PARMS, 18, "NDTPA_PAD", Shape::Bytes),
    (
        PARMS,
        NDTPA_INTERVAL_PROBE_TIME_MS,
        "NDTPA_INTERVAL_PROBE_TIME_MS",
        Shape::U64,
    ),
];

/// The family of neighbour tables.
#[derive(Clone, Copy, Debug, PartialEq, Eq)]
pub struct NeighbourTables;

impl Table for NeighbourTables {
    ghost types = { TYPES.now };

    ghost header_len = { λ _. 4 };

    ghost short = { λ t. t == RTM_GETNEIGHTBL };

    ghost rows = { λ _. named ROWS.now (λ name. name.now) };

    ghost fields = { λ _. named_fields FIELDS.now (λ name. name.now) };

    fn has(message_type: u16) -> bool {
        is_among(TYPES, message_type)
    }

    fn header_len(_message_type: u16) -> usize {
        4
    }

    fn allows_short(message_type: u16) -> bool {
        message_type == RTM_GETNEIGHTBL
    }

    fn rows(_message_type: u16) -> &'static [Row] {
        ROWS
    }

    fn fields(_message_type: u16) -> &'static [Field] {
        FIELDS
    }

    #[tactic(auto, using(netlink_family::specs::PushingLaws::none_choose))]
    fn chooses_shape(_message_type: u16, _kind: u16) -> bool {
        false
    }

    ghost sorted = { λ _. refl };
}

impl Family for NeighbourTables {
    ghost own = { refl };
}

/// A message about a neighbour table.
pub type NeighbourTableMessage = OwnedMessage<NeighbourTables>;
