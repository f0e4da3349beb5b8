//! Traffic control, made by hand after linux/rtnetlink.h, pkt_sched.h and pkt_cls.h. `tc monitor` of
//! iproute2 6.1 printed the first 32 lines, apart from spaces; the others are by hand. A link is `if` and
//! its index.

use crate::tests::shown::{joined, shown};
use std::alloc::{AllocError, Global};
use std::test::Fail;

/// Messages as type and payload, and the line of each: queueing disciplines, their options, classes,
/// filters, chains, protocols, and how many actions there are. Then what `tc` prints otherwise or not at
/// all: times and sizes, options without words, messages without a kind, bytes that are not printable, the
/// first action of a list, and requests.
const MESSAGES: [(u8, &[u8], &str); 48] = [
    (
        36,
        &[
            0, 0, 0, 0, 5, 0, 0, 0, 0, 0, 1, 0, 255, 255, 255, 255, 2, 0, 0, 0, 13, 0, 1, 0, 102,
            113, 95, 99, 111, 100, 101, 108, 0, 0, 0, 0,
        ],
        "qdisc fq_codel 1: dev if5 root refcnt 2\n",
    ),
    (
        36,
        &[
            0, 0, 0, 0, 5, 0, 0, 0, 0, 0, 0, 0, 0, 0, 0, 0, 1, 0, 0, 0, 12, 0, 1, 0, 110, 111, 113,
            117, 101, 117, 101, 0,
        ],
        "qdisc noqueue 0: dev if5\n",
    ),
    (
        37,
        &[
            0, 0, 0, 0, 5, 0, 0, 0, 0, 0, 255, 255, 241, 255, 255, 255, 0, 0, 0, 0, 12, 0, 1, 0,
            110, 111, 113, 117, 101, 117, 101, 0,
        ],
        "deleted qdisc noqueue ffff: dev if5 parent ffff:fff1 refcnt 0\n",
    ),
    (
        36,
        &[
            0, 0, 0, 0, 5, 0, 0, 0, 1, 0, 205, 171, 2, 0, 1, 0, 255, 255, 255, 255, 6, 0, 1, 0,
            120, 0, 0, 0, 5, 0, 12, 0, 1, 0, 0, 0, 8, 0, 13, 0, 7, 0, 0, 0, 8, 0, 14, 0, 8, 0, 0,
            0,
        ],
        "qdisc x abcd: dev if5 parent 1:2 refcnt 4294967295 offloaded ingress_block 7 egress_block 8\n",
    ),
    (
        36,
        &[
            0, 0, 0, 0, 5, 0, 0, 0, 0, 0, 1, 0, 2, 0, 0, 0, 1, 0, 0, 0, 6, 0, 1, 0, 120, 0, 0, 0,
            5, 0, 12, 0, 0, 0, 0, 0, 8, 0, 13, 0, 0, 0, 0, 0, 8, 0, 14, 0, 0, 0, 0, 0,
        ],
        "qdisc x 1: dev if5 parent :2\n",
    ),
    (
        36,
        &[
            0, 0, 0, 0, 5, 0, 0, 0, 0, 0, 1, 0, 0, 0, 2, 0, 0, 0, 0, 0, 5, 0, 1, 0, 0, 0, 0, 0,
        ],
        "qdisc 1: dev if5 parent 2: refcnt 0\n",
    ),
    (
        36,
        &[
            0, 0, 0, 0, 5, 0, 0, 0, 0, 0, 255, 255, 241, 255, 255, 255, 1, 0, 0, 0, 11, 0, 1, 0,
            99, 108, 115, 97, 99, 116, 0, 0, 4, 0, 2, 128,
        ],
        "qdisc clsact ffff: dev if5 parent ffff:fff1\n",
    ),
    (
        36,
        &[
            0, 0, 0, 0, 5, 0, 0, 0, 0, 0, 1, 0, 255, 255, 255, 255, 1, 0, 0, 0, 13, 0, 1, 0, 102,
            113, 95, 99, 111, 100, 101, 108, 0, 0, 0, 0, 44, 0, 2, 128, 8, 0, 2, 0, 0, 40, 0, 0, 8,
            0, 5, 0, 0, 4, 0, 0, 8, 0, 6, 0, 234, 5, 0, 0, 8, 0, 4, 0, 1, 0, 0, 0, 8, 0, 8, 0, 64,
            0, 0, 0,
        ],
        "qdisc fq_codel 1: dev if5 root limit 10240p flows 1024 quantum 1514 ecn drop_batch 64\n",
    ),
    (
        36,
        &[
            0, 0, 0, 0, 5, 0, 0, 0, 0, 0, 1, 0, 255, 255, 255, 255, 1, 0, 0, 0, 13, 0, 1, 0, 102,
            113, 95, 99, 111, 100, 101, 108, 0, 0, 0, 0, 44, 0, 2, 128, 8, 0, 8, 0, 1, 0, 0, 0, 8,
            0, 3, 0, 100, 0, 0, 0, 8, 0, 1, 0, 231, 3, 0, 0, 8, 0, 9, 0, 232, 3, 0, 0, 8, 0, 7, 0,
            1, 0, 0, 0,
        ],
        "qdisc fq_codel 1: dev if5 root target 999us ce_threshold 1us interval 100us memory_limit 1000b drop_batch 1\n",
    ),
    (
        36,
        &[
            0, 0, 0, 0, 5, 0, 0, 0, 0, 0, 1, 0, 255, 255, 255, 255, 1, 0, 0, 0, 13, 0, 1, 0, 102,
            113, 95, 99, 111, 100, 101, 108, 0, 0, 0, 0, 20, 0, 2, 128, 8, 0, 4, 0, 0, 0, 0, 0, 8,
            0, 8, 0, 0, 0, 0, 0,
        ],
        "qdisc fq_codel 1: dev if5 root\n",
    ),
    (
        36,
        &[
            0, 0, 0, 0, 5, 0, 0, 0, 0, 0, 1, 0, 255, 255, 255, 255, 1, 0, 0, 0, 8, 0, 1, 0, 104,
            116, 98, 0, 36, 0, 2, 128, 24, 0, 2, 0, 17, 0, 3, 0, 10, 0, 0, 0, 32, 0, 0, 0, 0, 0, 0,
            0, 5, 0, 0, 0, 8, 0, 5, 0, 232, 3, 0, 0,
        ],
        "qdisc htb 1: dev if5 root r2q 10 default 0x20 direct_packets_stat 5 direct_qlen 1000\n",
    ),
    (
        36,
        &[
            0, 0, 0, 0, 5, 0, 0, 0, 0, 0, 1, 0, 255, 255, 255, 255, 1, 0, 0, 0, 8, 0, 1, 0, 104,
            116, 98, 0, 40, 0, 2, 128, 8, 0, 5, 0, 0, 0, 0, 0, 4, 0, 9, 0, 24, 0, 2, 0, 17, 0, 3,
            0, 0, 0, 0, 0, 0, 0, 0, 0, 0, 0, 0, 0, 255, 255, 255, 255,
        ],
        "qdisc htb 1: dev if5 root r2q 0 default 0 direct_packets_stat 4294967295 direct_qlen 0 offload\n",
    ),
    (
        36,
        &[
            0, 0, 0, 0, 5, 0, 0, 0, 0, 0, 1, 0, 255, 255, 255, 255, 1, 0, 0, 0, 8, 0, 1, 0, 104,
            116, 98, 0, 4, 0, 2, 128,
        ],
        "qdisc htb 1: dev if5 root\n",
    ),
    (
        40,
        &[
            0, 0, 0, 0, 5, 0, 0, 0, 1, 0, 1, 0, 255, 255, 255, 255, 0, 0, 0, 0, 8, 0, 1, 0, 104,
            116, 98, 0,
        ],
        "class htb 1:1 dev if5 root\n",
    ),
    (
        40,
        &[
            0, 0, 0, 0, 5, 0, 0, 0, 0, 0, 1, 0, 0, 0, 0, 0, 0, 0, 2, 0, 8, 0, 1, 0, 104, 116, 98, 0,
        ],
        "class htb 1: dev if5 parent none leaf 2:\n",
    ),
    (
        41,
        &[
            0, 0, 0, 0, 5, 0, 0, 0, 1, 0, 0, 0, 1, 0, 1, 0, 1, 0, 0, 0, 8, 0, 1, 0, 104, 116, 98, 0,
        ],
        "deleted class htb :1 dev if5 parent 1:1 leaf 0:\n",
    ),
    (
        40,
        &[
            0, 0, 0, 0, 5, 0, 0, 0, 192, 171, 255, 255, 1, 0, 0, 0, 0, 0, 0, 0, 8, 0, 1, 0, 104,
            116, 98, 0, 4, 0, 2, 128,
        ],
        "class htb ffff:abc0 dev if5 parent :1\n",
    ),
    (
        44,
        &[
            0, 0, 0, 0, 5, 0, 0, 0, 0, 0, 0, 0, 255, 255, 255, 255, 0, 0, 0, 0, 8, 0, 1, 0, 117,
            51, 50, 0,
        ],
        "filter dev if5 root u32\n",
    ),
    (
        44,
        &[
            0, 0, 0, 0, 5, 0, 0, 0, 0, 0, 0, 0, 0, 0, 0, 0, 8, 0, 1, 0, 8, 0, 1, 0, 117, 51, 50, 0,
            8, 0, 11, 0, 0, 0, 0, 0,
        ],
        "filter dev if5 parent none protocol ip pref 1 u32 chain 0\n",
    ),
    (
        44,
        &[
            0, 0, 0, 0, 5, 0, 0, 0, 0, 0, 0, 0, 242, 255, 255, 255, 0, 0, 1, 0, 8, 0, 1, 0, 117,
            51, 50, 0, 8, 0, 11, 0, 5, 0, 0, 0,
        ],
        "filter dev if5 ingress pref 1 u32 chain 5\n",
    ),
    (
        45,
        &[
            0, 0, 0, 0, 5, 0, 0, 0, 0, 0, 0, 0, 243, 255, 255, 255, 0, 3, 0, 0, 6, 0, 1, 0, 120, 0,
            0, 0, 8, 0, 11, 0, 5, 0, 0, 0,
        ],
        "deleted filter dev if5 egress protocol all x chain 5\n",
    ),
    (
        44,
        &[
            0, 0, 0, 0, 255, 255, 255, 255, 1, 0, 0, 0, 22, 0, 0, 0, 134, 221, 255, 255, 11, 0, 1,
            0, 102, 108, 111, 119, 101, 114, 0, 0,
        ],
        "filter block 22 protocol ipv6 pref 65535 flower\n",
    ),
    (
        100,
        &[
            0, 0, 0, 0, 5, 0, 0, 0, 0, 0, 0, 0, 255, 255, 255, 255, 8, 0, 1, 0, 8, 0, 11, 0, 3, 0,
            0, 0,
        ],
        "chain dev if5 root chain 3\n",
    ),
    (
        100,
        &[
            0, 0, 0, 0, 5, 0, 0, 0, 0, 0, 0, 0, 242, 255, 255, 255, 0, 0, 0, 0, 11, 0, 1, 0, 102,
            108, 111, 119, 101, 114, 0, 0, 8, 0, 11, 0, 3, 0, 0, 0,
        ],
        "chain dev if5 ingress flower chain 3\n",
    ),
    (
        101,
        &[
            0, 0, 0, 0, 255, 255, 255, 255, 0, 0, 0, 0, 9, 0, 0, 0, 0, 0, 0, 0, 8, 0, 11, 0, 255,
            255, 255, 255,
        ],
        "deleted chain block 9 chain 4294967295\n",
    ),
    (
        44,
        &[
            0, 0, 0, 0, 5, 0, 0, 0, 0, 0, 0, 0, 255, 255, 255, 255, 0, 1, 0, 0, 6, 0, 1, 0, 120, 0,
            0, 0,
        ],
        "filter dev if5 root protocol 802_3 x\n",
    ),
    (
        44,
        &[
            0, 0, 0, 0, 5, 0, 0, 0, 0, 0, 0, 0, 255, 255, 255, 255, 2, 1, 0, 0, 6, 0, 1, 0, 120, 0,
            0, 0,
        ],
        "filter dev if5 root protocol pupat x\n",
    ),
    (
        44,
        &[
            0, 0, 0, 0, 5, 0, 0, 0, 0, 0, 0, 0, 255, 255, 255, 255, 8, 0, 0, 0, 6, 0, 1, 0, 120, 0,
            0, 0,
        ],
        "filter dev if5 root protocol ip x\n",
    ),
    (
        44,
        &[
            0, 0, 0, 0, 5, 0, 0, 0, 0, 0, 0, 0, 255, 255, 255, 255, 129, 0, 0, 0, 6, 0, 1, 0, 120,
            0, 0, 0,
        ],
        "filter dev if5 root protocol 802.1Q x\n",
    ),
    (
        44,
        &[
            0, 0, 0, 0, 5, 0, 0, 0, 0, 0, 0, 0, 255, 255, 255, 255, 136, 204, 0, 0, 6, 0, 1, 0,
            120, 0, 0, 0,
        ],
        "filter dev if5 root protocol LLDP x\n",
    ),
    (
        44,
        &[
            0, 0, 0, 0, 5, 0, 0, 0, 0, 0, 0, 0, 255, 255, 255, 255, 255, 255, 0, 0, 6, 0, 1, 0,
            120, 0, 0, 0,
        ],
        "filter dev if5 root protocol [65535] x\n",
    ),
    (48, &[0, 0, 0, 0], "total acts 0\n"),
    (
        36,
        &[
            0, 0, 0, 0, 5, 0, 0, 0, 0, 0, 1, 0, 255, 255, 255, 255, 1, 0, 0, 0, 6, 0, 1, 0, 120, 0,
            0, 0,
        ],
        "qdisc x 1: dev if5 root\n",
    ),
    (
        44,
        &[
            0, 0, 0, 0, 5, 0, 0, 0, 0, 0, 0, 0, 255, 255, 255, 255, 0, 0, 0, 0, 6, 0, 1, 0, 120, 0,
            0, 0,
        ],
        "filter dev if5 root x\n",
    ),
    (
        36,
        &[
            0, 0, 0, 0, 5, 0, 0, 0, 0, 0, 1, 0, 255, 255, 255, 255, 1, 0, 0, 0, 13, 0, 1, 0, 102,
            113, 95, 99, 111, 100, 101, 108, 0, 0, 0, 0, 36, 0, 2, 128, 8, 0, 1, 0, 135, 19, 0, 0,
            8, 0, 7, 0, 136, 19, 0, 0, 8, 0, 3, 0, 159, 134, 1, 0, 8, 0, 9, 0, 0, 0, 0, 2,
        ],
        "qdisc fq_codel 1: dev if5 root target 4999us ce_threshold 5000us interval 99999us memory_limit 33554432b\n",
    ),
    (
        36,
        &[
            0, 0, 0, 0, 5, 0, 0, 0, 0, 0, 255, 255, 241, 255, 255, 255, 1, 0, 0, 0, 12, 0, 1, 0,
            105, 110, 103, 114, 101, 115, 115, 0, 4, 0, 2, 128,
        ],
        "qdisc ingress ffff: dev if5 parent ffff:fff1\n",
    ),
    (
        36,
        &[
            0, 0, 0, 0, 5, 0, 0, 0, 0, 0, 1, 0, 255, 255, 255, 255, 1, 0, 0, 0,
        ],
        "qdisc 1: dev if5 root\n",
    ),
    (
        44,
        &[
            0, 0, 0, 0, 5, 0, 0, 0, 0, 0, 0, 0, 255, 255, 255, 255, 0, 3, 2, 0, 8, 0, 11, 0, 1, 0,
            0, 0,
        ],
        "filter dev if5 root protocol all pref 2 chain 1\n",
    ),
    (
        36,
        &[
            0, 0, 0, 0, 5, 0, 0, 0, 0, 0, 1, 0, 255, 255, 255, 255, 1, 0, 0, 0, 9, 0, 1, 0, 97, 32,
            98, 127, 0, 0, 0, 0,
        ],
        "qdisc a\\x20b\\x7f 1: dev if5 root\n",
    ),
    (
        48,
        &[
            0, 0, 0, 0, 52, 0, 1, 0, 24, 0, 1, 0, 9, 0, 1, 0, 103, 97, 99, 116, 0, 0, 0, 0, 8, 0,
            3, 0, 7, 0, 0, 0, 24, 0, 2, 0, 11, 0, 1, 0, 109, 105, 114, 114, 101, 100, 0, 0, 8, 0,
            3, 0, 8, 0, 0, 0, 8, 0, 3, 0, 2, 0, 0, 0,
        ],
        "total acts 2 action gact index 7\n",
    ),
    (
        49,
        &[
            0, 0, 0, 0, 8, 0, 3, 0, 1, 0, 0, 0, 68, 0, 1, 128, 16, 0, 0, 0, 9, 0, 1, 0, 103, 97,
            99, 116, 0, 0, 0, 0, 24, 0, 1, 0, 9, 0, 1, 0, 103, 97, 99, 116, 0, 0, 0, 0, 8, 0, 3, 0,
            7, 0, 0, 0, 24, 0, 2, 0, 11, 0, 1, 0, 109, 105, 114, 114, 101, 100, 0, 0, 8, 0, 3, 0,
            8, 0, 0, 0,
        ],
        "deleted total acts 1 action gact\n",
    ),
    (
        37,
        &[
            0, 0, 0, 0, 5, 0, 0, 0, 0, 0, 1, 0, 255, 255, 255, 255, 1, 0, 0, 0, 8, 0, 1, 0, 104,
            116, 98, 0,
        ],
        "deleted qdisc htb 1: dev if5 root\n",
    ),
    (
        38,
        &[0, 0, 0, 0, 0, 0, 0, 0, 0, 0, 0, 0, 0, 0, 0, 0, 0, 0, 0, 0],
        "Get qdisc 0: dev * refcnt 0\n",
    ),
    (42, &[0, 0, 0, 0], "Get class dev * parent none\n"),
    (
        46,
        &[
            0, 0, 0, 0, 5, 0, 0, 0, 0, 0, 0, 0, 242, 255, 255, 255, 0, 3, 1, 0, 11, 0, 1, 0, 102,
            108, 111, 119, 101, 114, 0, 0,
        ],
        "Get filter dev if5 ingress protocol all pref 1 flower\n",
    ),
    (
        102,
        &[
            0, 0, 0, 0, 255, 255, 255, 255, 0, 0, 0, 0, 2, 0, 0, 0, 0, 0, 0, 0, 8, 0, 11, 0, 1, 0,
            0, 0,
        ],
        "Get chain block 2 chain 1\n",
    ),
    (
        50,
        &[
            0, 0, 0, 0, 20, 0, 1, 0, 16, 0, 1, 0, 9, 0, 1, 0, 103, 97, 99, 116, 0, 0, 0, 0,
        ],
        "Get total acts 0 action gact\n",
    ),
    (50, &[0], "Get total acts 0\n"),
];

/// Returns whether a message of this type has this line.
fn has_line(alloc: Global, kind: u8, payload: &[u8], line: &str) -> Result<bool, AllocError> {
    let size = u8::try_from(payload.len()).unwrap_or(0).wrapping_add(16);
    let header = [size, 0, 0, 0, kind, 0, 0, 0, 0, 0, 0, 0, 0, 0, 0, 0];
    let (output, ended) = shown(alloc, &joined(alloc, &[&header, payload])?);
    Ok(output.as_slice() == line.as_bytes() && ended.is_ok())
}

/// Messages of traffic control have lines.
#[test]
fn traffic_control_has_lines(rt: HostRuntime) -> Result<(), Fail> {
    for (kind, payload, line) in MESSAGES {
        assert!(rt; has_line(rt.alloc(), kind, payload, line)?, "{line}");
    }
    Ok(())
}
