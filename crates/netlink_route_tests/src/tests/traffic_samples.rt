//! Payloads of traffic control. What Linux 6.18 sent while `tc` of iproute2 6.1 ran the named commands in a
//! network namespace of its own was read from a socket of `RTNLGRP_TC`; the rest is by hand.

/// `tc qdisc add dev lo root handle 1: stab overhead 4 linklayer ethernet htb default 0x10`
pub const DISCIPLINE: [u8; 196] = [
    0, 0, 0, 0, 1, 0, 0, 0, 0, 0, 1, 0, 255, 255, 255, 255, 1, 0, 0, 0, // struct tcmsg: 1:, TC_H_ROOT
    8, 0, 1, 0, b'h', b't', b'b', 0, // TCA_KIND
    36, 0, 2, 0, // TCA_OPTIONS
    24, 0, 2, 0, 17, 0, 3, 0, 10, 0, 0, 0, 16, 0, 0, 0, 0, 0, 0, 0, 0, 0, 0, 0, // TCA_HTB_INIT
    8, 0, 5, 0, 0xe8, 3, 0, 0, // TCA_HTB_DIRECT_QLEN
    5, 0, 12, 0, 0, 0, 0, 0, // TCA_HW_OFFLOAD
    32, 0, 8, 0, // TCA_STAB
    28, 0, 1, 0, 0, 0, 0, 0, 4, 0, 0, 0, 1, 0, 0, 0, // TCA_STAB_BASE
    0, 0, 0, 0, 0, 0, 0, 0, 0, 0, 0, 0, // mpu, mtu, tsize
    48, 0, 7, 0, // TCA_STATS2
    20, 0, 1, 0, 0, 0, 0, 0, 0, 0, 0, 0, 0, 0, 0, 0, 0, 0, 0, 0, // TCA_STATS_BASIC
    24, 0, 3, 0, 0, 0, 0, 0, 0, 0, 0, 0, 0, 0, 0, 0, 0, 0, 0, 0, 0, 0, 0, 0, // TCA_STATS_QUEUE
    44, 0, 3, 0, 0, 0, 0, 0, 0, 0, 0, 0, 0, 0, 0, 0, 0, 0, 0, 0, 0, 0, 0, 0, // TCA_STATS
    0, 0, 0, 0, 0, 0, 0, 0, 0, 0, 0, 0, 0, 0, 0, 0, 0, 0, 0, 0, // bps to backlog, padding
];

/// `tc class add dev lo parent 1:1 classid 1:10 htb rate 80gbit ceil 100gbit prio 1 quantum 20000`
pub const CLASS: [u8; 244] = [
    0, 0, 0, 0, 1, 0, 0, 0, 16, 0, 1, 0, 1, 0, 1, 0, 0, 0, 0, 0, // struct tcmsg: 1:10, 1:1
    8, 0, 1, 0, b'h', b't', b'b', 0, // TCA_KIND
    76, 0, 2, 0, // TCA_OPTIONS
    48, 0, 1, 0, 0, 1, 0, 0, 0, 0, 0, 0, 255, 255, 255, 255, // TCA_HTB_PARMS: the rate
    0, 1, 0, 0, 0, 0, 0, 0, 255, 255, 255, 255, 0, 0, 0, 0, // ceil, buffer
    0, 0, 0, 0, 0x20, 0x4e, 0, 0, 0, 0, 0, 0, 1, 0, 0, 0, // cbuffer, quantum, level, prio
    12, 0, 6, 0, 0, 0xe4, 0x0b, 0x54, 2, 0, 0, 0, // TCA_HTB_RATE64
    12, 0, 7, 0, 0, 0xdd, 0x0e, 0xe9, 2, 0, 0, 0, // TCA_HTB_CEIL64
    72, 0, 7, 0, // TCA_STATS2
    20, 0, 1, 0, 0, 0, 0, 0, 0, 0, 0, 0, 0, 0, 0, 0, 0, 0, 0, 0, // TCA_STATS_BASIC
    24, 0, 3, 0, 0, 0, 0, 0, 0, 0, 0, 0, 0, 0, 0, 0, 0, 0, 0, 0, 0, 0, 0, 0, // TCA_STATS_QUEUE
    24, 0, 4, 0, 0, 0, 0, 0, 0, 0, 0, 0, 0, 0, 0, 0, 0, 0, 0, 0, 0, 0, 0, 0, // TCA_STATS_APP
    44, 0, 3, 0, 0, 0, 0, 0, 0, 0, 0, 0, 0, 0, 0, 0, 0, 0, 0, 0, 0, 0, 0, 0, // TCA_STATS
    0, 0, 0, 0, 0, 0, 0, 0, 0, 0, 0, 0, 0, 0, 0, 0, 0, 0, 0, 0, // bps to backlog, padding
    24, 0, 4, 0, 0, 0, 0, 0, 0, 0, 0, 0, 0, 0, 0, 0, 0, 0, 0, 0, 0, 0, 0, 0, // TCA_XSTATS
];

/// `tc filter add dev lo parent 1: protocol ip prio 1 u32 match ip dst 10.0.0.1 flowid 1:10`
pub const FILTER: [u8; 100] = [
    0, 0, 0, 0, 1, 0, 0, 0, 0, 8, 0, 0x80, 0, 0, 1, 0, 8, 0, 1, 0, // struct tcmsg: 800::800
    8, 0, 1, 0, b'u', b'3', b'2', 0, // TCA_KIND
    8, 0, 11, 0, 0, 0, 0, 0, // TCA_CHAIN
    64, 0, 2, 0, // TCA_OPTIONS
    36, 0, 5, 0, 1, 0, 1, 0, 0, 0, 0, 0, 0, 0, 0, 0, 0, 0, 0, 0, // TCA_U32_SEL
    255, 255, 255, 255, 10, 0, 0, 1, 16, 0, 0, 0, 0, 0, 0, 0, // struct tc_u32_key
    8, 0, 2, 0, 0, 0, 0, 0x80, // TCA_U32_HASH
    8, 0, 1, 0, 16, 0, 1, 0, // TCA_U32_CLASSID
    8, 0, 11, 0, 8, 0, 0, 0, // TCA_U32_FLAGS
];

/// `tc chain add dev lo ingress chain 22`
pub const CHAIN: [u8; 28] = [
    0, 0, 0, 0, 1, 0, 0, 0, 0, 0, 0, 0, 0, 0, 255, 255, 0, 0, 0, 0, // struct tcmsg: ffff:
    8, 0, 11, 0, 22, 0, 0, 0, // TCA_CHAIN
];

/// `tc qdisc add dev lo ingress`, without the statistics
pub const INGRESS: [u8; 44] = [
    0, 0, 0, 0, 1, 0, 0, 0, 0, 0, 255, 255, 0xf1, 255, 255, 255, 1, 0, 0, 0, // ffff:, TC_H_INGRESS
    12, 0, 1, 0, b'i', b'n', b'g', b'r', b'e', b's', b's', 0, // TCA_KIND
    4, 0, 2, 0, // TCA_OPTIONS
    5, 0, 12, 0, 0, 0, 0, 0, // TCA_HW_OFFLOAD
];

/// Each option of `fq_codel`, before its kind, with an option after the last one that has a row; by hand
pub const CODEL: [u8; 128] = [
    0, 0, 0, 0, 0xfe, 255, 255, 255, 1, 2, 3, 4, 5, 6, 7, 8, 9, 10, 11, 12, // struct tcmsg
    96, 0, 2, 0x80, // TCA_OPTIONS
    8, 0, 1, 0, 0x87, 0x13, 0, 0, // TCA_FQ_CODEL_TARGET: 4999
    8, 0, 2, 0, 0, 0x28, 0, 0, // TCA_FQ_CODEL_LIMIT: 10240
    8, 0, 3, 0, 0x9f, 0x86, 1, 0, // TCA_FQ_CODEL_INTERVAL: 99999
    8, 0, 4, 0, 1, 0, 0, 0, // TCA_FQ_CODEL_ECN
    8, 0, 5, 0, 0, 4, 0, 0, // TCA_FQ_CODEL_FLOWS: 1024
    8, 0, 6, 0, 0xea, 5, 0, 0, // TCA_FQ_CODEL_QUANTUM: 1514
    8, 0, 7, 0, 7, 0, 0, 0, // TCA_FQ_CODEL_CE_THRESHOLD
    8, 0, 8, 0, 64, 0, 0, 0, // TCA_FQ_CODEL_DROP_BATCH_SIZE
    8, 0, 9, 0, 0, 0, 0, 2, // TCA_FQ_CODEL_MEMORY_LIMIT: 32 MiB
    5, 0, 10, 0, 3, 0, 0, 0, // TCA_FQ_CODEL_CE_THRESHOLD_SELECTOR
    5, 0, 11, 0, 12, 0, 0, 0, // TCA_FQ_CODEL_CE_THRESHOLD_MASK
    4, 0, 12, 0, // a kind without a row
    12, 0, 1, 0, b'f', b'q', b'_', b'c', b'o', b'd', b'e', b'l', // TCA_KIND
];

/// The kinds outside nests that the samples above lack, and a second chain; by hand
pub const OTHERS: [u8; 96] = [
    45, 1, 2, 3, 1, 0, 0, 0, 1, 0, 2, 0, 3, 0, 4, 0, 5, 0, 6, 0, // struct tcmsg
    6, 0, 5, 0, 0xfe, 4, 0, 0, // TCA_RATE: struct tc_estimator
    8, 0, 6, 0, 9, 0, 0, 0, // TCA_FCNT
    4, 0, 9, 0, // TCA_PAD
    4, 0, 10, 0, // TCA_DUMP_INVISIBLE
    8, 0, 11, 0, 1, 0, 0, 0x80, // TCA_CHAIN
    8, 0, 13, 0, 2, 0, 0, 0, // TCA_INGRESS_BLOCK
    8, 0, 14, 0, 3, 0, 0, 0, // TCA_EGRESS_BLOCK
    12, 0, 15, 0, 1, 0, 0, 0, 1, 0, 0, 0, // TCA_DUMP_FLAGS: TCA_DUMP_FLAGS_TERSE
    8, 0, 16, 0, b'h', b'm', b'm', 0, // TCA_EXT_WARN_MSG
    8, 0, 11, 0, 2, 0, 0, 0, // TCA_CHAIN
];

/// The rest of what nests have: options of `htb`, statistics, and a table of sizes; by hand
pub const NESTS: [u8; 168] = [
    0, 0, 0, 0, 0, 0, 0, 0, 0, 0, 0, 0, 0, 0, 0, 0, 0, 0, 0, 0, // struct tcmsg
    7, 0, 1, 0, b'h', b't', b'b', 0, // TCA_KIND
    24, 0, 2, 0, // TCA_OPTIONS
    5, 0, 3, 0, 1, 0, 0, 0, // TCA_HTB_CTAB
    4, 0, 4, 0, // TCA_HTB_RTAB
    4, 0, 8, 0, // TCA_HTB_PAD
    4, 0, 9, 0, // TCA_HTB_OFFLOAD
    72, 0, 7, 0, // TCA_STATS2
    12, 0, 2, 0, 1, 0, 0, 0, 2, 0, 0, 0, // TCA_STATS_RATE_EST
    20, 0, 5, 0, 1, 0, 0, 0, 0, 0, 0, 0, 2, 0, 0, 0, 0, 0, 0, 0, // TCA_STATS_RATE_EST64
    4, 0, 6, 0, // TCA_STATS_PAD
    20, 0, 7, 0, 1, 0, 0, 0, 0, 0, 0, 0, 2, 0, 0, 0, 0, 0, 0, 0, // TCA_STATS_BASIC_HW
    12, 0, 8, 0, 1, 0, 0, 0, 1, 0, 0, 0, // TCA_STATS_PKT64
    44, 0, 8, 0, // TCA_STAB
    28, 0, 1, 0, 2, 3, 255, 255, 4, 0, 0, 0, 2, 0, 0, 0, // TCA_STAB_BASE
    5, 0, 0, 0, 6, 0, 0, 0, 2, 0, 0, 0, // mpu, mtu, tsize
    8, 0, 2, 0, 53, 0, 106, 0, // TCA_STAB_DATA
    4, 0, 3, 0, // a kind without a row
];
