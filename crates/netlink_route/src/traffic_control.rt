//! Traffic control: queueing disciplines, their classes, filters, and chains of filters
//! (linux/rtnetlink.h, linux/pkt_sched.h, linux/gen_stats.h).

ghost use Rattle.std.specs.Prelude.{◌==◌, ◌++◌, ◌||◌, refl};
ghost use Rattle.netlink_family.specs.Shapes.{named, named_fields};
ghost use Rattle.netlink_route.specs.declared.traffic_control.TheConstants.{FIELDS, FILTERS, QUEUES, ROWS, RTM_GETCHAIN, RTM_GETQDISC, RTM_GETTCLASS, RTM_GETTFILTER};

use netlink_family::{Family, Field, OwnedMessage, Row, Shape, TOP, Table, is_among};
use netlink_packet_core::NLA_TYPE_MASK;

pub const RTM_NEWQDISC: u16 = 36;

pub const RTM_DELQDISC: u16 = 37;

pub const RTM_GETQDISC: u16 = 38;

pub const RTM_NEWTCLASS: u16 = 40;

pub const RTM_DELTCLASS: u16 = 41;

pub const RTM_GETTCLASS: u16 = 42;

pub const RTM_NEWTFILTER: u16 = 44;

pub const RTM_DELTFILTER: u16 = 45;

pub const RTM_GETTFILTER: u16 = 46;

pub const RTM_NEWCHAIN: u16 = 100;

pub const RTM_DELCHAIN: u16 = 101;

pub const RTM_GETCHAIN: u16 = 102;

// The fields of `struct tcmsg`.
pub const TCM_FAMILY: Field = ("tcm_family", 0, Shape::U8);

/// The index of the link. -1 stands for a block of filters that links share, whose index is in the place
/// of the parent.
pub const TCM_IFINDEX: Field = ("tcm_ifindex", 4, Shape::I32);

pub const TCM_HANDLE: Field = ("tcm_handle", 8, Shape::U32);

pub const TCM_PARENT: Field = ("tcm_parent", 12, Shape::U32);

pub const TCM_INFO: Field = ("tcm_info", 16, Shape::U32);

pub const TCA_KIND: u16 = 1;

pub const TCA_OPTIONS: u16 = 2;

pub const TCA_STATS: u16 = 3;

pub const TCA_XSTATS: u16 = 4;

pub const TCA_RATE: u16 = 5;

pub const TCA_FCNT: u16 = 6;

pub const TCA_STATS2: u16 = 7;

pub const TCA_STAB: u16 = 8;

pub const TCA_DUMP_INVISIBLE: u16 = 10;

pub const TCA_CHAIN: u16 = 11;

pub const TCA_HW_OFFLOAD: u16 = 12;

pub const TCA_INGRESS_BLOCK: u16 = 13;

pub const TCA_EGRESS_BLOCK: u16 = 14;

pub const TCA_DUMP_FLAGS: u16 = 15;

pub const TCA_EXT_WARN_MSG: u16 = 16;

/// The policy of `TCA_STATS2`.
pub const STATISTICS: u16 = 1;

pub const TCA_STATS_BASIC: u16 = 1;

pub const TCA_STATS_RATE_EST: u16 = 2;

pub const TCA_STATS_QUEUE: u16 = 3;

pub const TCA_STATS_APP: u16 = 4;

pub const TCA_STATS_RATE_EST64: u16 = 5;

pub const TCA_STATS_BASIC_HW: u16 = 7;

pub const TCA_STATS_PKT64: u16 = 8;

/// The policy of `TCA_STAB`.
pub const SIZE_TABLE: u16 = 2;

pub const TCA_STAB_BASE: u16 = 1;

pub const TCA_STAB_DATA: u16 = 2;

/// The policy with a row for each queueing discipline whose options are attributes of a policy. The value
/// of `TCA_KIND` is its name.
pub const DISCIPLINES: u16 = 3;

/// The policy of the discipline `fq_codel`. Times are in microseconds.
pub const FQ_CODEL: u16 = 4;

pub const TCA_FQ_CODEL_TARGET: u16 = 1;

pub const TCA_FQ_CODEL_LIMIT: u16 = 2;

pub const TCA_FQ_CODEL_INTERVAL: u16 = 3;

pub const TCA_FQ_CODEL_ECN: u16 = 4;

pub const TCA_FQ_CODEL_FLOWS: u16 = 5;

pub const TCA_FQ_CODEL_QUANTUM: u16 = 6;

pub const TCA_FQ_CODEL_CE_THRESHOLD: u16 = 7;

pub const TCA_FQ_CODEL_DROP_BATCH_SIZE: u16 = 8;

pub const TCA_FQ_CODEL_MEMORY_LIMIT: u16 = 9;

pub const TCA_FQ_CODEL_CE_THRESHOLD_SELECTOR: u16 = 10;

pub const TCA_FQ_CODEL_CE_THRESHOLD_MASK: u16 = 11;

/// The policy of the discipline `htb` and of its classes.
pub const HTB: u16 = 5;

pub const TCA_HTB_PARMS: u16 = 1;

pub const TCA_HTB_INIT: u16 = 2;

pub const TCA_HTB_CTAB: u16 = 3;

pub const TCA_HTB_RTAB: u16 = 4;

pub const TCA_HTB_DIRECT_QLEN: u16 = 5;

pub const TCA_HTB_RATE64: u16 = 6;

pub const TCA_HTB_CEIL64: u16 = 7;

pub const TCA_HTB_OFFLOAD: u16 = 9;

// Two lists, because the compiler looks through a short list without a loop.
const QUEUES: &'static [u16] = &[
    RTM_NEWQDISC,
    RTM_DELQDISC,
    RTM_GETQDISC,
    RTM_NEWTCLASS,
    RTM_DELTCLASS,
    RTM_GETTCLASS,
];

const FILTERS: &'static [u16] = &[
    RTM_NEWTFILTER,
    RTM_DELTFILTER,
    RTM_GETTFILTER,
    RTM_NEWCHAIN,
    RTM_DELCHAIN,
    RTM_GETCHAIN,
];

const FIELDS: &'static [Field] = &[TCM_FAMILY, TCM_IFINDEX, TCM_HANDLE, TCM_PARENT, TCM_INFO];

// The kernel's `rtm_tca_policy`, `tc_fill_qdisc`, `tc_fill_tclass`, `tcf_fill_node` and
// `tc_chain_fill_node`. `struct tc_stats` ends with 4 bytes of padding where a `u64` is aligned to 8 bytes.
// Each row has one line, which `rt fmt` would break.
#[rattlefmt::skip]
const ROWS: &'static [Row] = &[
    (TOP, TCA_KIND, "TCA_KIND", Shape::Str),
    (TOP, TCA_OPTIONS, "TCA_OPTIONS", Shape::Chosen { by: TCA_KIND, policy: DISCIPLINES }),
    (TOP, TCA_STATS, "TCA_STATS", Shape::MinLen(36)),
    (TOP, TCA_XSTATS, "TCA_XSTATS", Shape::Bytes),
    (TOP, TCA_RATE, "TCA_RATE", Shape::MinLen(2)),
    (TOP, TCA_FCNT, "TCA_FCNT", Shape::Bytes),
    (TOP, TCA_STATS2, "TCA_STATS2", Shape::Nested(STATISTICS)),
    (TOP, TCA_STAB, "TCA_STAB", Shape::Nested(SIZE_TABLE)),
    (TOP, 9, "TCA_PAD", Shape::Bytes),
    (TOP, TCA_DUMP_INVISIBLE, "TCA_DUMP_INVISIBLE", Shape::Flag),
    (TOP, TCA_CHAIN, "TCA_CHAIN", Shape::U32),
    (TOP, TCA_HW_OFFLOAD, "TCA_HW_OFFLOAD", Shape::U8),
    (TOP, TCA_INGRESS_BLOCK, "TCA_INGRESS_BLOCK", Shape::U32),
    (TOP, TCA_EGRESS_BLOCK, "TCA_EGRESS_BLOCK", Shape::U32),
    (TOP, TCA_DUMP_FLAGS, "TCA_DUMP_FLAGS", Shape::ExactLen(8)),
    (TOP, TCA_EXT_WARN_MSG, "TCA_EXT_WARN_MSG", Shape::Str),
    // `gnet_stats_copy_basic` and the like of net/core/gen_stats.c. `struct gnet_stats_basic` ends with
    // padding too.
    (STATISTICS, TCA_STATS_BASIC, "TCA_STATS_BASIC", Shape::MinLen(12)),
    (STATISTICS, TCA_STATS_RATE_EST, "TCA_STATS_RATE_EST", Shape::MinLen(8)),
    (STATISTICS, TCA_STATS_QUEUE, "TCA_STATS_QUEUE", Shape::MinLen(20)),
    (STATISTICS, TCA_STATS_APP, "TCA_STATS_APP", Shape::Bytes),
    (STATISTICS, TCA_STATS_RATE_EST64, "TCA_STATS_RATE_EST64", Shape::MinLen(16)),
    (STATISTICS, 6, "TCA_STATS_PAD", Shape::Bytes),
    (STATISTICS, TCA_STATS_BASIC_HW, "TCA_STATS_BASIC_HW", Shape::MinLen(12)),
    (STATISTICS, TCA_STATS_PKT64, "TCA_STATS_PKT64", Shape::U64),
    // `stab_policy` of net/sched/sch_api.c: `struct tc_sizespec`, and a `u16` for each size
    (SIZE_TABLE, TCA_STAB_BASE, "TCA_STAB_BASE", Shape::MinLen(24)),
    (SIZE_TABLE, TCA_STAB_DATA, "TCA_STAB_DATA", Shape::Bytes),
    (DISCIPLINES, 1, "fq_codel", Shape::Nested(FQ_CODEL)),
    (DISCIPLINES, 2, "htb", Shape::Nested(HTB)),
    // `fq_codel_policy` of net/sched/sch_fq_codel.c
    (FQ_CODEL, TCA_FQ_CODEL_TARGET, "TCA_FQ_CODEL_TARGET", Shape::U32),
    (FQ_CODEL, TCA_FQ_CODEL_LIMIT, "TCA_FQ_CODEL_LIMIT", Shape::U32),
    (FQ_CODEL, TCA_FQ_CODEL_INTERVAL, "TCA_FQ_CODEL_INTERVAL", Shape::U32),
    (FQ_CODEL, TCA_FQ_CODEL_ECN, "TCA_FQ_CODEL_ECN", Shape::U32),
    (FQ_CODEL, TCA_FQ_CODEL_FLOWS, "TCA_FQ_CODEL_FLOWS", Shape::U32),
    (FQ_CODEL, TCA_FQ_CODEL_QUANTUM, "TCA_FQ_CODEL_QUANTUM", Shape::U32),
    (FQ_CODEL, TCA_FQ_CODEL_CE_THRESHOLD, "TCA_FQ_CODEL_CE_THRESHOLD", Shape::U32),
    (FQ_CODEL, TCA_FQ_CODEL_DROP_BATCH_SIZE, "TCA_FQ_CODEL_DROP_BATCH_SIZE", Shape::U32),
    (FQ_CODEL, TCA_FQ_CODEL_MEMORY_LIMIT, "TCA_FQ_CODEL_MEMORY_LIMIT", Shape::U32),
    (FQ_CODEL, TCA_FQ_CODEL_CE_THRESHOLD_SELECTOR, "TCA_FQ_CODEL_CE_THRESHOLD_SELECTOR", Shape::U8),
    (FQ_CODEL, TCA_FQ_CODEL_CE_THRESHOLD_MASK, "TCA_FQ_CODEL_CE_THRESHOLD_MASK", Shape::U8),
    // `htb_policy` of net/sched/sch_htb.c: `struct tc_htb_opt`, `struct tc_htb_glob`
    (HTB, TCA_HTB_PARMS, "TCA_HTB_PARMS", Shape::MinLen(44)),
    (HTB, TCA_HTB_INIT, "TCA_HTB_INIT", Shape::MinLen(20)),
    (HTB, TCA_HTB_CTAB, "TCA_HTB_CTAB", Shape::Bytes),
    (HTB, TCA_HTB_RTAB, "TCA_HTB_RTAB", Shape::Bytes),
    (HTB, TCA_HTB_DIRECT_QLEN, "TCA_HTB_DIRECT_QLEN", Shape::U32),
    (HTB, TCA_HTB_RATE64, "TCA_HTB_RATE64", Shape::U64),
    (HTB, TCA_HTB_CEIL64, "TCA_HTB_CEIL64", Shape::U64),
    (HTB, 8, "TCA_HTB_PAD", Shape::Bytes),
    (HTB, TCA_HTB_OFFLOAD, "TCA_HTB_OFFLOAD", Shape::Flag),
];

/// The family of traffic control.
#[derive(Clone, Copy, Debug, PartialEq, Eq)]
pub struct TrafficControl;

impl Table for TrafficControl {
    ghost types = { QUEUES.now ++ FILTERS.now };

    ghost header_len = { λ _. 20 };

    ghost short = { λ t. t == RTM_GETQDISC || t == RTM_GETTCLASS || t == RTM_GETTFILTER || t == RTM_GETCHAIN };

    ghost rows = { λ _. named ROWS.now (λ name. name.now) };

    ghost fields = { λ _. named_fields FIELDS.now (λ name. name.now) };

    #[tactic(auto, using(netlink_family::specs::MessageLaws::has_append))]
    fn has(message_type: u16) -> bool {
        is_among(QUEUES, message_type) || is_among(FILTERS, message_type)
    }

    fn header_len(_message_type: u16) -> usize {
        20
    }

    fn allows_short(message_type: u16) -> bool {
        message_type == RTM_GETQDISC
            || message_type == RTM_GETTCLASS
            || message_type == RTM_GETTFILTER
            || message_type == RTM_GETCHAIN
    }

    fn rows(_message_type: u16) -> &'static [Row] {
        ROWS
    }

    fn fields(_message_type: u16) -> &'static [Field] {
        FIELDS
    }

    fn chooses_shape(_message_type: u16, kind: u16) -> bool {
        kind & NLA_TYPE_MASK == TCA_KIND
    }

    ghost sorted = { λ _. refl };
}

impl Family for TrafficControl {
    ghost own = { refl };
}

/// A message about a queueing discipline, a class, a filter or a chain of filters.
pub type TrafficControlMessage = OwnedMessage<TrafficControl>;
