//! Next hops, settings of links and announced prefixes, made by hand after linux/nexthop.h, netconf.h
//! and rtnetlink.h. `ip` 6.1 printed the lines down to the empty one, apart from spaces; the others are
//! by hand. A link is `if` and its index.

use crate::tests::shown::{joined, shown};
use std::alloc::{AllocError, Global};
use std::test::Fail;

/// Messages as type and payload, and the line of each: each word, values with a name and without,
/// attributes in another order, and an empty bucket. Then what `ip` prints otherwise or not at all:
/// requests, a family without a name, an IPv4 prefix, a gateway of another family, the values of an
/// encapsulation, a group of a type without a name and one without members, weights above 256, long
/// times, and a bucket that is gone.
const MESSAGES: [(u8, &[u8], &str); 25] = [
    (
        80,
        &[
            2, 0, 0, 0, 8, 0, 1, 0, 255, 255, 255, 255, 8, 0, 2, 0, 1, 0, 0, 0, 8, 0, 3, 0, 0, 0,
            0, 0, 8, 0, 4, 0, 0, 0, 0, 0, 8, 0, 5, 0, 1, 0, 0, 0, 8, 0, 6, 0, 0, 0, 0, 0, 8, 0, 8,
            0, 1, 0, 0, 0,
        ],
        "inet all forwarding on rp_filter off mc_forwarding off proxy_neigh on ignore_routes_with_linkdown off\n",
    ),
    (
        80,
        &[
            2, 0, 0, 0, 8, 0, 1, 0, 254, 255, 255, 255, 8, 0, 3, 0, 1, 0, 0, 0,
        ],
        "inet default rp_filter strict\n",
    ),
    (
        80,
        &[
            10, 0, 0, 0, 8, 0, 1, 0, 5, 0, 0, 0, 8, 0, 3, 0, 3, 0, 0, 0, 8, 0, 2, 0, 255, 255, 255,
            255,
        ],
        "inet6 if5 forwarding on rp_filter 3\n",
    ),
    (
        80,
        &[28, 0, 0, 0, 8, 0, 7, 0, 0, 0, 0, 0],
        "mpls input off\n",
    ),
    (
        81,
        &[2, 0, 0, 0, 8, 0, 1, 0, 0, 0, 0, 0, 8, 0, 3, 0, 2, 0, 0, 0],
        "Deleted inet * rp_filter loose\n",
    ),
    (
        52,
        &[
            10, 0, 0, 0, 5, 0, 0, 0, 3, 64, 3, 0, 20, 0, 1, 0, 32, 1, 13, 184, 0, 0, 0, 0, 0, 0, 0,
            0, 0, 0, 0, 0, 12, 0, 2, 0, 100, 0, 0, 0, 200, 0, 0, 0,
        ],
        "prefix 2001:db8::/64 dev if5 onlink autoconf valid 200 preferred 100\n",
    ),
    (
        52,
        &[
            10, 0, 0, 0, 5, 0, 0, 0, 3, 64, 62, 0, 16, 0, 2, 0, 1, 0, 0, 0, 2, 0, 0, 0, 97, 98, 99,
            100,
        ],
        "dev if5 autoconf valid 2 preferred 1\n",
    ),
    (
        52,
        &[10, 0, 0, 0, 9, 0, 0, 0, 3, 64, 1, 0],
        "dev if9 onlink\n",
    ),
    (
        104,
        &[
            2, 253, 3, 0, 95, 0, 0, 0, 8, 0, 1, 0, 1, 0, 0, 0, 8, 0, 6, 0, 192, 0, 2, 1, 8, 0, 5,
            0, 5, 0, 0, 0,
        ],
        "id 1 via 192.0.2.1 dev if5 scope link proto boot dead onlink pervasive offload trap linkdown\n",
    ),
    (
        104,
        &[
            10, 0, 0, 0, 0, 0, 0, 0, 20, 0, 6, 0, 32, 1, 13, 184, 0, 0, 0, 0, 0, 0, 0, 0, 0, 0, 0,
            0,
        ],
        "id 0 via 2001:db8::\n",
    ),
    (
        104,
        &[
            2, 254, 186, 0, 0, 0, 0, 0, 8, 0, 1, 0, 1, 0, 0, 0, 4, 0, 11, 0, 8, 0, 5, 0, 0, 0, 0,
            0, 4, 0, 4, 0,
        ],
        "id 1 scope host blackhole proto bgp fdb\n",
    ),
    (
        105,
        &[
            2, 0, 0, 0, 0, 0, 0, 0, 8, 0, 1, 0, 1, 0, 0, 0, 6, 0, 7, 0, 6, 0, 0, 0, 4, 0, 8, 0,
        ],
        "Deleted id 1 encap bpf\n",
    ),
    (
        104,
        &[
            2, 0, 0, 0, 0, 0, 0, 0, 8, 0, 1, 0, 10, 0, 0, 0, 20, 0, 2, 0, 1, 0, 0, 0, 0, 0, 0, 0,
            2, 0, 0, 0, 2, 0, 0, 0, 6, 0, 3, 0, 0, 0, 0, 0,
        ],
        "id 10 group 1/2,3\n",
    ),
    (
        104,
        &[
            2, 0, 0, 0, 0, 0, 0, 0, 8, 0, 1, 0, 10, 0, 0, 0, 6, 0, 3, 0, 1, 0, 0, 0, 40, 0, 12,
            128, 6, 0, 1, 0, 32, 0, 0, 0, 8, 0, 2, 0, 224, 46, 0, 0, 8, 0, 3, 0, 150, 0, 0, 0, 12,
            0, 4, 0, 123, 0, 0, 0, 0, 0, 0, 0,
        ],
        "id 10 type resilient buckets 32 idle_timer 120 unbalanced_timer 1.5 unbalanced_time 1.23\n",
    ),
    (
        104,
        &[
            2, 0, 0, 0, 0, 0, 0, 0, 8, 0, 1, 0, 10, 0, 0, 0, 12, 0, 12, 0, 8, 0, 3, 0, 5, 0, 0, 0,
        ],
        "id 10 buckets 0 idle_timer 0 unbalanced_timer 0.05 unbalanced_time 0\n",
    ),
    (
        116,
        &[
            2, 0, 0, 0, 69, 0, 0, 0, 8, 0, 1, 0, 10, 0, 0, 0, 32, 0, 13, 128, 8, 0, 3, 0, 2, 0, 0,
            0, 12, 0, 2, 0, 210, 4, 0, 0, 0, 0, 0, 0, 6, 0, 1, 0, 7, 0, 0, 0,
        ],
        "id 10 index 7 idle_time 12.34 nhid 2 dead onlink trap\n",
    ),
    (116, &[2, 0, 0, 0, 0, 0, 0, 0], "\n"),
    (
        82,
        &[99, 0, 0, 0, 8, 0, 1, 0, 5, 0, 0, 0],
        "Get family 99 if5\n",
    ),
    (82, &[2], "Get inet\n"),
    (
        52,
        &[
            2, 0, 0, 0, 5, 0, 0, 0, 4, 24, 192, 0, 8, 0, 1, 0, 192, 0, 2, 1,
        ],
        "prefix 192.0.2.1/24 dev if5 onlink autoconf\n",
    ),
    (
        104,
        &[
            10, 0, 0, 0, 0, 0, 0, 0, 8, 0, 1, 0, 1, 0, 0, 0, 6, 0, 7, 0, 1, 0, 0, 0, 12, 0, 8, 0,
            8, 0, 1, 0, 0, 6, 65, 0, 8, 0, 6, 0, 192, 0, 2, 1,
        ],
        "id 1 encap mpls via 192.0.2.1\n",
    ),
    (
        104,
        &[
            2, 0, 0, 0, 0, 0, 0, 0, 8, 0, 1, 0, 10, 0, 0, 0, 20, 0, 2, 0, 1, 0, 0, 0, 0, 1, 0, 0,
            2, 0, 0, 0, 255, 255, 0, 0, 6, 0, 3, 0, 7, 0, 0, 0,
        ],
        "id 10 group 1,257/2,65536 type 7\n",
    ),
    (
        104,
        &[
            2, 0, 0, 0, 0, 0, 0, 0, 8, 0, 1, 0, 10, 0, 0, 0, 4, 0, 2, 0, 40, 0, 12, 128, 6, 0, 1,
            0, 0, 0, 0, 0, 8, 0, 2, 0, 78, 97, 188, 0, 8, 0, 3, 0, 255, 255, 255, 255, 12, 0, 4, 0,
            255, 255, 255, 255, 255, 255, 255, 255,
        ],
        "id 10 buckets 0 idle_timer 123456.78 unbalanced_timer 42949672.95 unbalanced_time 184467440737095516.15\n",
    ),
    (106, &[2, 253, 4, 0], "Get id 0 scope link proto static\n"),
    (
        117,
        &[
            2, 0, 0, 0, 0, 0, 0, 0, 8, 0, 1, 0, 10, 0, 0, 0, 12, 0, 13, 128, 6, 0, 1, 0, 7, 0, 0, 0,
        ],
        "Deleted id 10 index 7\n",
    ),
];

/// Returns whether a message of this type has this line.
fn has_line(alloc: Global, kind: u8, payload: &[u8], line: &str) -> Result<bool, AllocError> {
    let size = u8::try_from(payload.len()).unwrap_or(0).wrapping_add(16);
    let header = [size, 0, 0, 0, kind, 0, 0, 0, 0, 0, 0, 0, 0, 0, 0, 0];
    let (output, ended) = shown(alloc, &joined(alloc, &[&header, payload])?);
    Ok(output.as_slice() == line.as_bytes() && ended.is_ok())
}

/// Next hops, settings and prefixes have lines.
#[test]
fn next_hops_settings_and_prefixes_have_lines(rt: HostRuntime) -> Result<(), Fail> {
    for (kind, payload, line) in MESSAGES {
        assert!(rt; has_line(rt.alloc(), kind, payload, line)?, "{line}");
    }
    Ok(())
}
