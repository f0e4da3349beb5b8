//! Rules as a kernel dumped them, and others that were made by hand. `ip -j` 6.1 printed the objects,
//! for those made by hand when it read them in place of the kernel's.

use super::made_rules::MADE;
use netlink_family::MessageView;
use netlink_json::Object;
use netlink_objects::rule::put_rule;
use netlink_route::Rules;
use std::alloc::Global;
use std::process::Abort;

/// Message types and payloads as a kernel dumped them, and what `ip` prints for each.
const DUMPED: [(u16, &[u8], &str); 18] = [
    (
        32,
        &[
            2, 0, 0, 0, 255, 0, 0, 1, 0, 0, 0, 0, 8, 0, 15, 0, 255, 0, 0, 0, 8, 0, 14, 0, 255, 255,
            255, 255, 5, 0, 21, 0, 2, 0, 0, 0,
        ],
        "{\"priority\":0,\"src\":\"all\",\"table\":\"local\"}",
    ),
    (
        32,
        &[
            2, 0, 0, 0, 9, 0, 0, 1, 0, 0, 0, 0, 8, 0, 15, 0, 9, 0, 0, 0, 8, 0, 14, 0, 0, 0, 0, 0,
            5, 0, 21, 0, 0, 0, 0, 0,
        ],
        "{\"priority\":0,\"src\":\"all\",\"table\":\"9\",\"suppress_prefixlen\":0}",
    ),
    (
        32,
        &[
            2, 0, 0, 0, 9, 0, 0, 1, 0, 0, 0, 0, 8, 0, 15, 0, 9, 0, 0, 0, 8, 0, 14, 0, 255, 255,
            255, 255, 5, 0, 21, 0, 0, 0, 0, 0, 8, 0, 13, 0, 4, 0, 0, 0,
        ],
        "{\"priority\":0,\"src\":\"all\",\"table\":\"9\",\"suppress_ifgroup\":\"4\"}",
    ),
    (
        32,
        &[
            2, 0, 0, 0, 9, 0, 0, 1, 0, 0, 0, 0, 8, 0, 15, 0, 9, 0, 0, 0, 8, 0, 14, 0, 255, 255,
            255, 255, 5, 0, 21, 0, 0, 0, 0, 0, 8, 0, 11, 0, 5, 0, 4, 0,
        ],
        "{\"priority\":0,\"src\":\"all\",\"table\":\"9\",\"flow_from\":\"4\",\"flow_to\":\"5\"}",
    ),
    (
        32,
        &[
            2, 0, 0, 0, 9, 0, 0, 1, 0, 0, 0, 0, 8, 0, 15, 0, 9, 0, 0, 0, 8, 0, 14, 0, 255, 255,
            255, 255, 5, 0, 21, 0, 0, 0, 0, 0, 12, 0, 12, 0, 0, 0, 0, 0, 0, 0, 0, 77,
        ],
        "{\"priority\":0,\"src\":\"all\",\"tun_id\":77,\"table\":\"9\"}",
    ),
    (
        32,
        &[
            2, 0, 0, 0, 0, 0, 0, 1, 0, 0, 0, 0, 8, 0, 15, 0, 0, 0, 0, 0, 8, 0, 14, 0, 255, 255,
            255, 255, 5, 0, 21, 0, 0, 0, 0, 0, 5, 0, 19, 0, 1, 0, 0, 0,
        ],
        "{\"priority\":0,\"src\":\"all\",\"l3mdev\":null}",
    ),
    (
        32,
        &[
            2, 0, 0, 0, 11, 0, 0, 1, 0, 0, 0, 0, 8, 0, 15, 0, 11, 0, 0, 0, 8, 0, 14, 0, 255, 255,
            255, 255, 5, 0, 21, 0, 186, 0, 0, 0,
        ],
        "{\"priority\":0,\"src\":\"all\",\"table\":\"11\",\"protocol\":\"bgp\"}",
    ),
    (
        32,
        &[
            2, 0, 32, 16, 0, 0, 0, 6, 2, 0, 0, 0, 8, 0, 15, 0, 0, 0, 0, 0, 8, 0, 14, 0, 255, 255,
            255, 255, 5, 0, 21, 0, 0, 0, 0, 0, 8, 0, 6, 0, 1, 0, 0, 0, 8, 0, 2, 0, 10, 1, 2, 3,
        ],
        "{\"priority\":1,\"not\":null,\"src\":\"10.1.2.3\",\"tos\":\"0x10\",\"action\":\"blackhole\"}",
    ),
    (
        32,
        &[
            2, 0, 0, 0, 8, 0, 0, 1, 0, 0, 0, 0, 8, 0, 15, 0, 8, 0, 0, 0, 8, 0, 14, 0, 255, 255,
            255, 255, 5, 0, 21, 0, 0, 0, 0, 0, 8, 0, 6, 0, 2, 0, 0, 0, 12, 0, 20, 0, 232, 3, 0, 0,
            208, 7, 0, 0,
        ],
        "{\"priority\":2,\"src\":\"all\",\"uid_start\":1000,\"uid_end\":2000,\"table\":\"8\"}",
    ),
    (
        32,
        &[
            2, 0, 0, 0, 7, 0, 0, 1, 0, 0, 0, 0, 8, 0, 15, 0, 7, 0, 0, 0, 8, 0, 14, 0, 255, 255,
            255, 255, 5, 0, 21, 0, 0, 0, 0, 0, 8, 0, 6, 0, 4, 0, 0, 0, 8, 0, 23, 0, 80, 0, 80, 0,
            6, 0, 28, 0, 255, 255, 0, 0, 8, 0, 24, 0, 232, 3, 208, 7, 5, 0, 22, 0, 6, 0, 0, 0,
        ],
        "{\"priority\":4,\"src\":\"all\",\"ipproto\":\"tcp\",\"sport\":80,\"dport_start\":1000,\"dport_end\":2000,\"table\":\"7\"}",
    ),
    (
        32,
        &[
            2, 0, 0, 0, 6, 0, 0, 1, 8, 0, 0, 0, 8, 0, 15, 0, 6, 0, 0, 0, 8, 0, 14, 0, 255, 255,
            255, 255, 5, 0, 21, 0, 0, 0, 0, 0, 11, 0, 3, 0, 110, 111, 115, 117, 99, 104, 0, 0, 8,
            0, 6, 0, 5, 0, 0, 0,
        ],
        "{\"priority\":5,\"src\":\"all\",\"iif\":\"nosuch\",\"iif_detached\":null,\"table\":\"6\"}",
    ),
    (
        32,
        &[
            2, 0, 0, 0, 254, 0, 0, 1, 0, 0, 0, 0, 8, 0, 15, 0, 254, 0, 0, 0, 8, 0, 14, 0, 255, 255,
            255, 255, 5, 0, 21, 0, 0, 0, 0, 0, 8, 0, 6, 0, 8, 0, 0, 0, 8, 0, 10, 0, 5, 0, 0, 0, 8,
            0, 16, 0, 255, 255, 255, 255,
        ],
        "{\"priority\":8,\"src\":\"all\",\"fwmark\":\"0x5\",\"table\":\"main\"}",
    ),
    (
        32,
        &[
            2, 0, 0, 0, 200, 0, 0, 1, 0, 0, 0, 0, 8, 0, 15, 0, 200, 0, 0, 0, 8, 0, 14, 0, 255, 255,
            255, 255, 5, 0, 21, 0, 0, 0, 0, 0, 8, 0, 6, 0, 9, 0, 0, 0, 8, 0, 10, 0, 16, 0, 0, 0, 8,
            0, 16, 0, 255, 0, 0, 0,
        ],
        "{\"priority\":9,\"src\":\"all\",\"fwmark\":\"0x10\",\"fwmask\":\"0xff\",\"table\":\"200\"}",
    ),
    (
        32,
        &[
            2, 0, 0, 0, 0, 0, 0, 2, 0, 0, 0, 0, 8, 0, 15, 0, 0, 0, 0, 0, 8, 0, 14, 0, 255, 255,
            255, 255, 5, 0, 21, 0, 0, 0, 0, 0, 8, 0, 6, 0, 20, 0, 0, 0, 8, 0, 4, 0, 254, 127, 0, 0,
        ],
        "{\"priority\":20,\"src\":\"all\",\"goto\":32766}",
    ),
    (
        32,
        &[
            2, 0, 0, 0, 0, 0, 0, 2, 4, 0, 0, 0, 8, 0, 15, 0, 0, 0, 0, 0, 8, 0, 14, 0, 255, 255,
            255, 255, 5, 0, 21, 0, 0, 0, 0, 0, 8, 0, 6, 0, 21, 0, 0, 0, 8, 0, 4, 0, 64, 156, 0, 0,
        ],
        "{\"priority\":21,\"src\":\"all\",\"goto\":40000,\"unresolved\":null}",
    ),
    (
        32,
        &[
            10, 32, 0, 0, 0, 0, 0, 9, 0, 0, 0, 0, 8, 0, 15, 0, 0, 0, 0, 0, 8, 0, 14, 0, 255, 255,
            255, 255, 5, 0, 21, 0, 0, 0, 0, 0, 8, 0, 6, 0, 252, 127, 0, 0, 20, 0, 1, 0, 32, 1, 13,
            184, 0, 0, 0, 0, 0, 0, 0, 0, 0, 0, 0, 0,
        ],
        "{\"priority\":32764,\"src\":\"all\",\"dst\":\"2001:db8::\",\"dstlen\":32,\"action\":\"throw\"}",
    ),
    (
        32,
        &[
            10, 128, 32, 0, 12, 0, 0, 1, 0, 0, 0, 0, 8, 0, 15, 0, 12, 0, 0, 0, 8, 0, 14, 0, 255,
            255, 255, 255, 5, 0, 21, 0, 0, 0, 0, 0, 8, 0, 6, 0, 253, 127, 0, 0, 20, 0, 1, 0, 32, 1,
            13, 184, 0, 1, 0, 0, 0, 0, 0, 0, 0, 0, 0, 1, 20, 0, 2, 0, 32, 1, 13, 184, 0, 0, 0, 0,
            0, 0, 0, 0, 0, 0, 0, 0,
        ],
        "{\"priority\":32765,\"src\":\"2001:db8::\",\"srclen\":32,\"dst\":\"2001:db8:1::1\",\"table\":\"12\"}",
    ),
    (
        32,
        &[
            128, 0, 0, 0, 253, 0, 0, 1, 0, 0, 0, 0, 8, 0, 15, 0, 253, 0, 0, 0, 8, 0, 14, 0, 255,
            255, 255, 255, 5, 0, 21, 0, 2, 0, 0, 0, 8, 0, 6, 0, 255, 127, 0, 0,
        ],
        "{\"priority\":32767,\"src\":\"all\",\"table\":\"default\"}",
    ),
];

/// What `ip` does not print: requests, one of them short, a realm of 0, which has another name in the
/// files of Debian, and a name that is not UTF-8.
const OTHERS: [(u16, &[u8], &str); 4] = [
    (
        34,
        &[2],
        "{\"priority\":0,\"src\":\"all\",\"action\":\"none\"}",
    ),
    (
        34,
        &[2, 0, 0, 0, 9, 0, 0, 1, 0, 0, 0, 0, 8, 0, 6, 0, 7, 0, 0, 0],
        "{\"priority\":7,\"src\":\"all\",\"table\":\"9\"}",
    ),
    (
        32,
        &[2, 0, 0, 0, 9, 0, 0, 1, 0, 0, 0, 0, 8, 0, 11, 0, 0, 0, 4, 0],
        "{\"priority\":0,\"src\":\"all\",\"table\":\"9\",\"flow_from\":\"4\",\"flow_to\":\"unknown\"}",
    ),
    (
        32,
        &[
            2, 0, 0, 0, 9, 0, 0, 1, 0, 0, 0, 0, 7, 0, 3, 0, 100, 255, 0, 0,
        ],
        "{\"priority\":0,\"src\":\"all\",\"iif\":\"d\\u00ff\",\"table\":\"9\",\"raw\":{\"iif\":\"64ff\"}}",
    ),
];

/// Returns the object of a rule; nothing if the payload has an error or an allocation fails.
fn object_text(alloc: Global, message_type: u16, payload: &[u8]) -> Option<String> {
    let rule = MessageView::<Rules>::new(message_type, payload).ok()?;
    let mut object = Object::new(alloc);
    put_rule(alloc, &mut object, &rule).ok()?;
    object.into_text(alloc).ok()
}

/// Asserts that each rule has this object.
fn assert_objects(rt: &impl Abort, alloc: Global, rows: &[(u16, &[u8], &str)]) {
    for (message_type, payload, text) in rows {
        match object_text(alloc, *message_type, payload) {
            Some(found) => assert_eq!(rt; found.as_str(), *text),
            None => panic!(rt; "no object"),
        }
    }
}

/// Each rule that a kernel dumped has the object that `ip` prints for it.
#[test]
fn dumped_rules(rt: HostRuntime) {
    assert_objects(&rt, rt.alloc(), &DUMPED);
}

/// Each rule that was made by hand has the object that `ip` prints for it.
#[test]
fn rules_made_by_hand(rt: HostRuntime) {
    assert_objects(&rt, rt.alloc(), &MADE);
}

/// Each request has the object of a rule, a realm of 0 is unknown, and `raw` has the bytes
/// of a name that is not UTF-8.
#[test]
fn other_rules(rt: HostRuntime) {
    assert_objects(&rt, rt.alloc(), &OTHERS);
}
