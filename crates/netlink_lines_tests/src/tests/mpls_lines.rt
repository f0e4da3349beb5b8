//! Routes of MPLS, made by hand after linux/mpls.h and linux/rtnetlink.h. `ip` 6.1 printed the
//! lines; a backslash and a run of spaces in them is one space here.

use crate::tests::shown::assert_lines;

/// Routes of MPLS, and what `ip` 6.1 prints for each: one label or several in place of that of the
/// destination, next hops by each kind of address, whether the time to live goes on, and a length that
/// is not that of a label.
const ROUTES: [(&[u8], &str); 10] = [
    (
        &[
            64, 0, 0, 0, 24, 0, 0, 0, 0, 0, 0, 0, 0, 0, 0, 0, 28, 20, 0, 0, 254, 4, 0, 1, 0, 0, 0,
            0, 8, 0, 1, 0, 0, 6, 65, 0, 8, 0, 19, 0, 0, 12, 129, 0, 10, 0, 18, 0, 2, 0, 10, 1, 0,
            3, 0, 0, 8, 0, 4, 0, 3, 0, 0, 0,
        ],
        "100 as to 200 via inet 10.1.0.3 dev if3 proto static\n",
    ),
    (
        &[
            56, 0, 0, 0, 25, 0, 0, 0, 0, 0, 0, 0, 0, 0, 0, 0, 28, 20, 0, 0, 254, 4, 0, 1, 0, 0, 0,
            0, 8, 0, 1, 0, 0, 6, 81, 0, 10, 0, 18, 0, 2, 0, 10, 1, 0, 3, 0, 0, 8, 0, 4, 0, 3, 0, 0,
            0,
        ],
        "Deleted 101 via inet 10.1.0.3 dev if3 proto static\n",
    ),
    (
        &[
            80, 0, 0, 0, 24, 0, 0, 0, 0, 0, 0, 0, 0, 0, 0, 0, 28, 20, 0, 0, 254, 4, 0, 1, 0, 0, 0,
            0, 8, 0, 1, 0, 0, 6, 97, 0, 12, 0, 19, 0, 0, 12, 128, 0, 0, 18, 223, 0, 22, 0, 18, 0,
            10, 0, 32, 1, 13, 184, 0, 0, 0, 0, 0, 0, 0, 0, 0, 0, 0, 3, 0, 0, 8, 0, 4, 0, 3, 0, 0,
            0,
        ],
        "102 as to 200/301 via inet6 2001:db8::3 dev if3 proto static\n",
    ),
    (
        &[
            72, 0, 0, 0, 24, 0, 0, 0, 0, 0, 0, 0, 0, 0, 0, 0, 28, 20, 0, 0, 254, 4, 0, 1, 0, 0, 0,
            0, 8, 0, 1, 0, 255, 255, 241, 0, 16, 0, 19, 0, 0, 1, 0, 0, 0, 1, 16, 0, 0, 1, 33, 0,
            12, 0, 18, 0, 17, 0, 2, 0, 0, 0, 0, 5, 8, 0, 4, 0, 3, 0, 0, 0,
        ],
        "1048575 as to 16/17/18 via link 02:00:00:00:00:05 dev if3 proto static\n",
    ),
    (
        &[
            100, 0, 0, 0, 24, 0, 0, 0, 0, 0, 0, 0, 0, 0, 0, 0, 28, 20, 0, 0, 254, 4, 0, 1, 0, 0, 0,
            0, 8, 0, 1, 0, 0, 6, 113, 0, 64, 0, 9, 0, 28, 0, 0, 0, 3, 0, 0, 0, 8, 0, 19, 0, 0, 12,
            129, 0, 10, 0, 18, 0, 2, 0, 10, 1, 0, 3, 0, 0, 32, 0, 0, 0, 4, 0, 0, 0, 12, 0, 19, 0,
            0, 12, 144, 0, 0, 12, 161, 0, 10, 0, 18, 0, 2, 0, 10, 1, 0, 4, 0, 0,
        ],
        "103 proto static nexthop as to 200 via inet 10.1.0.3 dev if3 nexthop as to 201/202 via inet 10.1.0.4 dev if4\n",
    ),
    (
        &[
            52, 0, 0, 0, 24, 0, 0, 0, 0, 0, 0, 0, 0, 0, 0, 0, 28, 20, 0, 0, 254, 4, 0, 1, 0, 0, 0,
            0, 8, 0, 1, 0, 0, 6, 129, 0, 5, 0, 26, 0, 1, 0, 0, 0, 8, 0, 4, 0, 3, 0, 0, 0,
        ],
        "104 dev if3 proto static ttl-propogate enabled\n",
    ),
    (
        &[
            52, 0, 0, 0, 24, 0, 0, 0, 0, 0, 0, 0, 0, 0, 0, 0, 28, 20, 0, 0, 254, 4, 0, 1, 0, 0, 0,
            0, 8, 0, 1, 0, 0, 6, 145, 0, 5, 0, 26, 0, 0, 0, 0, 0, 8, 0, 4, 0, 3, 0, 0, 0,
        ],
        "105 dev if3 proto static ttl-propogate disabled\n",
    ),
    (
        &[
            36, 0, 0, 0, 24, 0, 0, 0, 0, 0, 0, 0, 0, 0, 0, 0, 28, 32, 0, 0, 254, 3, 0, 1, 0, 0, 0,
            0, 8, 0, 1, 0, 0, 6, 161, 0,
        ],
        "106/32\n",
    ),
    (
        &[
            28, 0, 0, 0, 24, 0, 0, 0, 0, 0, 0, 0, 0, 0, 0, 0, 28, 0, 0, 0, 254, 3, 0, 1, 0, 0, 0, 0,
        ],
        "default\n",
    ),
    (
        &[
            52, 0, 0, 0, 24, 0, 0, 0, 0, 0, 0, 0, 0, 0, 0, 0, 28, 20, 0, 16, 254, 3, 0, 6, 0, 0, 0,
            0, 8, 0, 1, 0, 0, 6, 177, 0, 8, 0, 19, 0, 0, 12, 129, 0, 8, 0, 30, 0, 5, 0, 0, 0,
        ],
        "blackhole 107 nhid 5 as to 200 tos 0x10\n",
    ),
];

/// Each route has the line that `ip` prints for it.
#[test]
fn routes_have_the_lines_of_ip(rt: HostRuntime) {
    assert_lines(&rt, rt.alloc(), &ROUTES);
}

/// A request for the route of the label 100; and labels that end before the bottom of the stack, or
/// within a label, which `ip` reads past. The lines are by hand.
const OTHERS: [(&[u8], &str); 3] = [
    (
        &[
            36, 0, 0, 0, 26, 0, 1, 0, 0, 0, 0, 0, 0, 0, 0, 0, 28, 20, 0, 0, 254, 3, 0, 1, 0, 0, 0,
            0, 8, 0, 1, 0, 0, 6, 65, 0,
        ],
        "Get 100\n",
    ),
    (
        &[
            44, 0, 0, 0, 24, 0, 0, 0, 0, 0, 0, 0, 0, 0, 0, 0, 28, 20, 0, 0, 254, 3, 0, 1, 0, 0, 0,
            0, 8, 0, 1, 0, 0, 6, 65, 0, 8, 0, 19, 0, 0, 12, 128, 0,
        ],
        "100 as to 200\n",
    ),
    (
        &[
            44, 0, 0, 0, 24, 0, 0, 0, 0, 0, 0, 0, 0, 0, 0, 0, 28, 20, 0, 0, 254, 3, 0, 1, 0, 0, 0,
            0, 8, 0, 1, 0, 0, 6, 65, 0, 7, 0, 19, 0, 0, 12, 129, 0,
        ],
        "100\n",
    ),
];

/// Requests have lines, and labels end with the bytes.
#[test]
fn other_labels_have_lines(rt: HostRuntime) {
    assert_lines(&rt, rt.alloc(), &OTHERS);
}
