//! The constants of the format.

use netlink_packet_core::{
    NETLINK_HEADER_LEN, NLM_F_ACK, NLM_F_ACK_TLVS, NLM_F_APPEND, NLM_F_ATOMIC, NLM_F_CAPPED,
    NLM_F_CREATE, NLM_F_DUMP, NLM_F_DUMP_FILTERED, NLM_F_DUMP_INTR, NLM_F_ECHO, NLM_F_EXCL,
    NLM_F_MATCH, NLM_F_MULTIPART, NLM_F_NONREC, NLM_F_REPLACE, NLM_F_REQUEST, NLM_F_ROOT,
    NLMSG_ALIGNTO, NLMSG_DONE, NLMSG_ERROR, NLMSG_NOOP, NLMSG_OVERRUN, nlmsg_align,
};

/// Constants, and their values.
const VALUES: [(u16, u16); 22] = [
    (NLMSG_NOOP, 1),
    (NLMSG_ERROR, 2),
    (NLMSG_DONE, 3),
    (NLMSG_OVERRUN, 4),
    (NLMSG_ALIGNTO, 4),
    (NLM_F_REQUEST, 1),
    (NLM_F_MULTIPART, 2),
    (NLM_F_ACK, 4),
    (NLM_F_ECHO, 8),
    (NLM_F_DUMP_INTR, 16),
    (NLM_F_DUMP_FILTERED, 32),
    (NLM_F_ROOT, 256),
    (NLM_F_MATCH, 512),
    (NLM_F_ATOMIC, 1024),
    (NLM_F_DUMP, 768),
    (NLM_F_REPLACE, 256),
    (NLM_F_EXCL, 512),
    (NLM_F_CREATE, 1024),
    (NLM_F_APPEND, 2048),
    (NLM_F_NONREC, 256),
    (NLM_F_CAPPED, 256),
    (NLM_F_ACK_TLVS, 512),
];

#[test]
fn each_by_its_name(rt: HostRuntime) {
    assert!(rt; NETLINK_HEADER_LEN == 16);
    for (value, expected) in VALUES {
        assert!(rt; value == expected);
    }
}

/// Sizes, and what they are rounded up to.
const SIZES: [(usize, usize); 5] = [(0, 0), (1, 4), (16, 16), (17, 20), (24, 24)];

#[test]
fn aligned_sizes(rt: HostRuntime) {
    for (size, whole) in SIZES {
        assert!(rt; nlmsg_align(size) == whole);
    }
}
