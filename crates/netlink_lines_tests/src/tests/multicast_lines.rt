//! Routes of multicast routing, made by hand after linux/rtnetlink.h and what a kernel sends. `ip`
//! 6.1 printed the lines; a run of spaces in them is one space here.

use crate::tests::shown::assert_lines;

/// Routes of multicast routing, and what `ip` 6.1 prints for each.
const ROUTES: [(&[u8], &str); 9] = [
    (
        &[
            100, 0, 0, 0, 24, 0, 0, 0, 0, 0, 0, 0, 0, 0, 0, 0, 128, 32, 32, 0, 253, 17, 0, 5, 0, 0,
            0, 0, 8, 0, 15, 0, 253, 0, 0, 0, 8, 0, 2, 0, 10, 1, 0, 9, 8, 0, 1, 0, 239, 1, 1, 1, 8,
            0, 3, 0, 3, 0, 0, 0, 12, 0, 9, 0, 8, 0, 0, 1, 4, 0, 0, 0, 28, 0, 17, 0, 3, 0, 0, 0, 0,
            0, 0, 0, 44, 1, 0, 0, 0, 0, 0, 0, 1, 0, 0, 0, 0, 0, 0, 0,
        ],
        "(10.1.0.9,239.1.1.1) Iif: if3 Oifs: if4 State: resolved Table: default\n",
    ),
    (
        &[
            108, 0, 0, 0, 24, 0, 0, 0, 0, 0, 0, 0, 0, 0, 0, 0, 128, 32, 32, 0, 253, 17, 0, 5, 0, 0,
            0, 0, 8, 0, 15, 0, 253, 0, 0, 0, 8, 0, 2, 0, 10, 1, 0, 9, 8, 0, 1, 0, 239, 1, 1, 1, 8,
            0, 3, 0, 3, 0, 0, 0, 20, 0, 9, 0, 8, 0, 0, 1, 4, 0, 0, 0, 8, 0, 0, 3, 5, 0, 0, 0, 28,
            0, 17, 0, 3, 0, 0, 0, 0, 0, 0, 0, 44, 1, 0, 0, 0, 0, 0, 0, 1, 0, 0, 0, 0, 0, 0, 0,
        ],
        "(10.1.0.9,239.1.1.1) Iif: if3 Oifs: if4 if5(ttl 3) State: resolved Table: default\n",
    ),
    (
        &[
            84, 0, 0, 0, 25, 0, 0, 0, 0, 0, 0, 0, 0, 0, 0, 0, 128, 32, 32, 0, 253, 17, 0, 5, 0, 0,
            0, 0, 8, 0, 15, 0, 253, 0, 0, 0, 8, 0, 2, 0, 10, 1, 0, 9, 8, 0, 1, 0, 239, 1, 1, 1, 4,
            0, 9, 0, 28, 0, 17, 0, 3, 0, 0, 0, 0, 0, 0, 0, 44, 1, 0, 0, 0, 0, 0, 0, 1, 0, 0, 0, 0,
            0, 0, 0,
        ],
        "Deleted (10.1.0.9,239.1.1.1) Iif: unresolved State: resolved Table: default\n",
    ),
    (
        &[
            52, 0, 0, 0, 24, 0, 0, 0, 0, 0, 0, 0, 0, 0, 0, 0, 128, 32, 32, 0, 254, 17, 0, 5, 0, 0,
            0, 0, 8, 0, 2, 0, 10, 1, 0, 9, 8, 0, 1, 0, 239, 1, 1, 1, 8, 0, 3, 0, 0, 0, 0, 0,
        ],
        "(10.1.0.9,239.1.1.1) Iif: unresolved State: resolved\n",
    ),
    (
        &[
            44, 0, 0, 0, 24, 0, 0, 0, 0, 0, 0, 0, 0, 0, 0, 0, 128, 32, 32, 0, 253, 17, 0, 5, 0, 0,
            0, 0, 8, 0, 15, 0, 112, 17, 1, 0, 8, 0, 1, 0, 239, 1, 1, 1,
        ],
        "(unknown,239.1.1.1) Iif: unresolved State: resolved Table: 70000\n",
    ),
    (
        &[
            36, 0, 0, 0, 24, 0, 0, 0, 0, 0, 0, 0, 0, 0, 0, 0, 128, 32, 32, 0, 0, 17, 0, 5, 0, 0, 0,
            0, 8, 0, 2, 0, 10, 1, 0, 9,
        ],
        "(10.1.0.9,unknown) Iif: unresolved State: resolved\n",
    ),
    (
        &[
            60, 0, 0, 0, 24, 0, 0, 0, 0, 0, 0, 0, 0, 0, 0, 0, 128, 32, 32, 0, 253, 17, 0, 5, 32, 0,
            0, 0, 8, 0, 15, 0, 253, 0, 0, 0, 8, 0, 2, 0, 10, 1, 0, 9, 8, 0, 1, 0, 239, 1, 1, 1, 8,
            0, 3, 0, 3, 0, 0, 0,
        ],
        "(10.1.0.9,239.1.1.1) Iif: if3 State: unresolved Table: default\n",
    ),
    (
        &[
            44, 0, 0, 0, 24, 0, 0, 0, 0, 0, 0, 0, 0, 0, 0, 0, 128, 32, 32, 0, 253, 17, 0, 5, 40, 0,
            0, 0, 8, 0, 15, 0, 253, 0, 0, 0, 8, 0, 3, 0, 3, 0, 0, 0,
        ],
        "(unknown,unknown) Iif: if3 State: unresolved offload Table: default\n",
    ),
    (
        &[
            96, 0, 0, 0, 24, 0, 0, 0, 0, 0, 0, 0, 0, 0, 0, 0, 129, 128, 128, 0, 254, 17, 0, 5, 0,
            0, 0, 0, 8, 0, 15, 0, 254, 0, 0, 0, 20, 0, 2, 0, 32, 1, 13, 184, 0, 0, 0, 0, 0, 0, 0,
            0, 0, 0, 0, 1, 20, 0, 1, 0, 255, 14, 0, 0, 0, 0, 0, 0, 0, 0, 0, 0, 0, 0, 0, 2, 8, 0, 3,
            0, 3, 0, 0, 0, 12, 0, 9, 0, 8, 0, 0, 2, 4, 0, 0, 0,
        ],
        "(2001:db8::1,ff0e::2) Iif: if3 Oifs: if4(ttl 2) State: resolved\n",
    ),
];

/// Requests for all routes and for one, and the lines of each by hand.
const REQUESTS: [(&[u8], &str); 2] = [
    (
        &[
            28, 0, 0, 0, 26, 0, 1, 0, 0, 0, 0, 0, 0, 0, 0, 0, 128, 0, 0, 0, 0, 0, 0, 0, 0, 0, 0, 0,
        ],
        "Get (unknown,unknown) Iif: unresolved State: resolved\n",
    ),
    (
        &[
            68, 0, 0, 0, 26, 0, 1, 0, 0, 0, 0, 0, 0, 0, 0, 0, 129, 128, 128, 0, 0, 0, 0, 0, 0, 0,
            0, 0, 20, 0, 2, 0, 0, 0, 0, 0, 0, 0, 0, 0, 0, 0, 0, 0, 0, 0, 0, 1, 20, 0, 1, 0, 255,
            14, 0, 0, 0, 0, 0, 0, 0, 0, 0, 0, 0, 0, 0, 2,
        ],
        "Get (::1,ff0e::2) Iif: unresolved State: resolved\n",
    ),
];

/// Each route has the line that `ip` prints for it.
#[test]
fn routes_have_the_lines_of_ip(rt: HostRuntime) {
    assert_lines(&rt, rt.alloc(), &ROUTES);
}

/// Requests have the words of a route.
#[test]
fn requests_have_lines(rt: HostRuntime) {
    assert_lines(&rt, rt.alloc(), &REQUESTS);
}
