//! Neighbour tables and ids of network namespaces, as a kernel dumped them and made by hand. `ip -j`
//! 6.1 printed the objects, for those made by hand when it read them in place of the kernel's. A link is
//! `if` and its index, and any link is `*`.

use netlink_family::MessageView;
use netlink_json::Object;
use netlink_names::name_table::Names;
use netlink_objects::namespace::put_namespace;
use netlink_objects::neighbour_table::put_neighbour_table;
use netlink_route::{Namespaces, NeighbourTables};
use std::alloc::Global;
use std::process::Abort;

/// Message types and payloads of tables, and what `ip` prints for each.
const TABLES: [(u16, &[u8], &str); 8] = [
    (
        64,
        &[
            2, 0, 0, 0, 14, 0, 1, 0, 97, 114, 112, 95, 99, 97, 99, 104, 101, 0, 0, 0, 12, 0, 8, 0,
            48, 117, 0, 0, 0, 0, 0, 0, 8, 0, 2, 0, 128, 0, 0, 0, 8, 0, 3, 0, 0, 2, 0, 0, 8, 0, 4,
            0, 0, 4, 0, 0, 36, 0, 5, 0, 4, 0, 80, 1, 15, 0, 0, 0, 88, 33, 85, 0, 176, 74, 3, 0, 35,
            223, 9, 139, 15, 0, 0, 0, 0, 0, 0, 0, 0, 0, 0, 0, 92, 0, 7, 0, 16, 0, 0, 0, 0, 0, 0, 0,
            1, 0, 0, 0, 0, 0, 0, 0, 1, 0, 0, 0, 0, 0, 0, 0, 0, 0, 0, 0, 0, 0, 0, 0, 28, 0, 0, 0, 0,
            0, 0, 0, 1, 0, 0, 0, 0, 0, 0, 0, 0, 0, 0, 0, 0, 0, 0, 0, 0, 0, 0, 0, 0, 0, 0, 0, 112,
            1, 0, 0, 0, 0, 0, 0, 0, 0, 0, 0, 0, 0, 0, 0, 0, 0, 0, 0, 0, 0, 0, 0, 176, 0, 6, 0, 8,
            0, 2, 0, 1, 0, 0, 0, 8, 0, 16, 0, 0, 64, 3, 0, 8, 0, 8, 0, 101, 0, 0, 0, 8, 0, 14, 0,
            64, 0, 0, 0, 8, 0, 9, 0, 0, 0, 0, 0, 8, 0, 10, 0, 3, 0, 0, 0, 8, 0, 11, 0, 3, 0, 0, 0,
            8, 0, 17, 0, 0, 0, 0, 0, 12, 0, 3, 0, 184, 157, 0, 0, 0, 0, 0, 0, 12, 0, 4, 0, 48, 117,
            0, 0, 0, 0, 0, 0, 12, 0, 6, 0, 96, 234, 0, 0, 0, 0, 0, 0, 12, 0, 7, 0, 136, 19, 0, 0,
            0, 0, 0, 0, 12, 0, 5, 0, 232, 3, 0, 0, 0, 0, 0, 0, 12, 0, 12, 0, 232, 3, 0, 0, 0, 0, 0,
            0, 12, 0, 13, 0, 32, 3, 0, 0, 0, 0, 0, 0, 12, 0, 15, 0, 232, 3, 0, 0, 0, 0, 0, 0, 12,
            0, 19, 0, 136, 19, 0, 0, 0, 0, 0, 0,
        ],
        "{\"family\":\"inet\",\"name\":\"arp_cache\",\"thresh1\":128,\"thresh2\":512,\"thresh3\":1024,\"gc_interval\":30000,\"refcnt\":1,\"reachable\":40376,\"base_reachable\":30000,\"retrans\":1000,\"gc_stale\":60000,\"delay_probe\":5000,\"queue\":101,\"app_probes\":0,\"ucast_probes\":3,\"mcast_probes\":3,\"anycast_delay\":1000,\"proxy_delay\":800,\"proxy_queue\":64,\"locktime\":1000}",
    ),
    (
        64,
        &[
            10, 0, 0, 0, 16, 0, 1, 0, 110, 100, 105, 115, 99, 95, 99, 97, 99, 104, 101, 0, 12, 0,
            8, 0, 48, 117, 0, 0, 0, 0, 0, 0, 8, 0, 2, 0, 128, 0, 0, 0, 8, 0, 3, 0, 0, 2, 0, 0, 8,
            0, 4, 0, 0, 4, 0, 0, 36, 0, 5, 0, 16, 0, 88, 1, 11, 0, 0, 0, 12, 33, 85, 0, 176, 138,
            3, 0, 177, 29, 16, 144, 15, 0, 0, 0, 0, 0, 0, 0, 0, 0, 0, 0, 92, 0, 7, 0, 17, 0, 0, 0,
            0, 0, 0, 0, 6, 0, 0, 0, 0, 0, 0, 0, 1, 0, 0, 0, 0, 0, 0, 0, 1, 0, 0, 0, 0, 0, 0, 0, 2,
            0, 0, 0, 0, 0, 0, 0, 0, 0, 0, 0, 0, 0, 0, 0, 0, 0, 0, 0, 0, 0, 0, 0, 0, 0, 0, 0, 0, 0,
            0, 0, 111, 1, 0, 0, 0, 0, 0, 0, 0, 0, 0, 0, 0, 0, 0, 0, 0, 0, 0, 0, 0, 0, 0, 0, 176, 0,
            6, 0, 8, 0, 2, 0, 1, 0, 0, 0, 8, 0, 16, 0, 0, 64, 3, 0, 8, 0, 8, 0, 101, 0, 0, 0, 8, 0,
            14, 0, 64, 0, 0, 0, 8, 0, 9, 0, 0, 0, 0, 0, 8, 0, 10, 0, 3, 0, 0, 0, 8, 0, 11, 0, 3, 0,
            0, 0, 8, 0, 17, 0, 0, 0, 0, 0, 12, 0, 3, 0, 168, 140, 0, 0, 0, 0, 0, 0, 12, 0, 4, 0,
            48, 117, 0, 0, 0, 0, 0, 0, 12, 0, 6, 0, 96, 234, 0, 0, 0, 0, 0, 0, 12, 0, 7, 0, 136,
            19, 0, 0, 0, 0, 0, 0, 12, 0, 5, 0, 232, 3, 0, 0, 0, 0, 0, 0, 12, 0, 12, 0, 232, 3, 0,
            0, 0, 0, 0, 0, 12, 0, 13, 0, 32, 3, 0, 0, 0, 0, 0, 0, 12, 0, 15, 0, 0, 0, 0, 0, 0, 0,
            0, 0, 12, 0, 19, 0, 136, 19, 0, 0, 0, 0, 0, 0,
        ],
        "{\"family\":\"inet6\",\"name\":\"ndisc_cache\",\"thresh1\":128,\"thresh2\":512,\"thresh3\":1024,\"gc_interval\":30000,\"refcnt\":1,\"reachable\":36008,\"base_reachable\":30000,\"retrans\":1000,\"gc_stale\":60000,\"delay_probe\":5000,\"queue\":101,\"app_probes\":0,\"ucast_probes\":3,\"mcast_probes\":3,\"anycast_delay\":1000,\"proxy_delay\":800,\"proxy_queue\":64,\"locktime\":0}",
    ),
    (
        64,
        &[
            2, 0, 0, 0, 14, 0, 1, 0, 97, 114, 112, 95, 99, 97, 99, 104, 101, 0, 0, 0, 184, 0, 6, 0,
            8, 0, 1, 0, 8, 0, 0, 0, 8, 0, 2, 0, 2, 0, 0, 0, 8, 0, 16, 0, 0, 64, 3, 0, 8, 0, 8, 0,
            101, 0, 0, 0, 8, 0, 14, 0, 64, 0, 0, 0, 8, 0, 9, 0, 0, 0, 0, 0, 8, 0, 10, 0, 3, 0, 0,
            0, 8, 0, 11, 0, 3, 0, 0, 0, 8, 0, 17, 0, 0, 0, 0, 0, 12, 0, 3, 0, 40, 68, 0, 0, 0, 0,
            0, 0, 12, 0, 4, 0, 48, 117, 0, 0, 0, 0, 0, 0, 12, 0, 6, 0, 96, 234, 0, 0, 0, 0, 0, 0,
            12, 0, 7, 0, 136, 19, 0, 0, 0, 0, 0, 0, 12, 0, 5, 0, 232, 3, 0, 0, 0, 0, 0, 0, 12, 0,
            12, 0, 232, 3, 0, 0, 0, 0, 0, 0, 12, 0, 13, 0, 32, 3, 0, 0, 0, 0, 0, 0, 12, 0, 15, 0,
            232, 3, 0, 0, 0, 0, 0, 0, 12, 0, 19, 0, 136, 19, 0, 0, 0, 0, 0, 0,
        ],
        "{\"family\":\"inet\",\"name\":\"arp_cache\",\"dev\":\"if8\",\"refcnt\":2,\"reachable\":17448,\"base_reachable\":30000,\"retrans\":1000,\"gc_stale\":60000,\"delay_probe\":5000,\"queue\":101,\"app_probes\":0,\"ucast_probes\":3,\"mcast_probes\":3,\"anycast_delay\":1000,\"proxy_delay\":800,\"proxy_queue\":64,\"locktime\":1000}",
    ),
    (
        64,
        &[
            2, 0, 0, 0, 14, 0, 1, 0, 97, 114, 112, 95, 99, 97, 99, 104, 101, 0, 0, 0,
        ],
        "{\"family\":\"inet\",\"name\":\"arp_cache\"}",
    ),
    (
        64,
        &[
            10, 0, 0, 0, 10, 0, 1, 0, 120, 34, 121, 92, 122, 0, 0, 0, 8, 0, 2, 0, 0, 0, 0, 0, 8, 0,
            4, 0, 255, 255, 255, 255, 12, 0, 8, 0, 255, 255, 255, 255, 255, 255, 255, 255,
        ],
        "{\"family\":\"inet6\",\"name\":\"x\\\"y\\\\z\",\"thresh1\":0,\"thresh3\":4294967295,\"gc_interval\":18446744073709551615}",
    ),
    (
        64,
        &[
            2, 0, 0, 0, 14, 0, 1, 0, 97, 114, 112, 95, 99, 97, 99, 104, 101, 0, 0, 0, 4, 0, 6, 0,
        ],
        "{\"family\":\"inet\",\"name\":\"arp_cache\"}",
    ),
    (
        64,
        &[
            2, 0, 0, 0, 14, 0, 1, 0, 97, 114, 112, 95, 99, 97, 99, 104, 101, 0, 0, 0, 20, 0, 6, 0,
            8, 0, 1, 0, 0, 0, 0, 0, 8, 0, 2, 0, 3, 0, 0, 0,
        ],
        "{\"family\":\"inet\",\"name\":\"arp_cache\",\"dev\":\"*\",\"refcnt\":3}",
    ),
    (
        64,
        &[
            2, 0, 0, 0, 14, 0, 1, 0, 97, 114, 112, 95, 99, 97, 99, 104, 101, 0, 0, 0, 44, 0, 6, 0,
            8, 0, 1, 0, 7, 0, 0, 0, 12, 0, 3, 0, 0, 0, 0, 0, 0, 0, 0, 128, 12, 0, 15, 0, 0, 0, 0,
            0, 0, 0, 0, 0, 8, 0, 9, 0, 255, 255, 255, 255,
        ],
        "{\"family\":\"inet\",\"name\":\"arp_cache\",\"dev\":\"if7\",\"reachable\":9223372036854775808,\"app_probes\":4294967295,\"locktime\":0}",
    ),
];

/// What `ip` does not print: requests, the number of a family, and parameters with the flag of a nest.
const OTHER_TABLES: [(u16, &[u8], &str); 4] = [
    (66, &[2], "{\"family\":\"inet\"}"),
    (
        67,
        &[
            2, 0, 0, 0, 14, 0, 1, 0, 97, 114, 112, 95, 99, 97, 99, 104, 101, 0, 0, 0, 8, 0, 2, 0,
            9, 0, 0, 0,
        ],
        "{\"family\":\"inet\",\"name\":\"arp_cache\",\"thresh1\":9}",
    ),
    (
        64,
        &[0, 0, 0, 0, 5, 0, 1, 0, 97, 0, 0, 0],
        "{\"family\":\"family 0\",\"name\":\"a\"}",
    ),
    (
        64,
        &[
            2, 0, 0, 0, 14, 0, 1, 0, 97, 114, 112, 95, 99, 97, 99, 104, 101, 0, 0, 0, 12, 0, 6,
            128, 8, 0, 2, 0, 3, 0, 0, 0,
        ],
        "{\"family\":\"inet\",\"name\":\"arp_cache\",\"refcnt\":3}",
    ),
];

/// Message types and payloads of ids, and what `ip` prints for each.
const IDS: [(u16, &[u8], &str); 3] = [
    (88, &[0, 0, 0, 0, 8, 0, 1, 0, 5, 0, 0, 0], "{\"nsid\":5}"),
    (
        89,
        &[0, 0, 0, 0, 8, 0, 1, 0, 5, 0, 0, 0],
        "{\"deleted\":true,\"nsid\":5}",
    ),
    (
        88,
        &[0, 0, 0, 0, 8, 0, 1, 0, 0, 0, 0, 64, 8, 0, 5, 0, 0, 0, 0, 0],
        "{\"nsid\":1073741824,\"current-nsid\":0}",
    ),
];

/// What `ip` does not print: requests, ids below 0, which it leaves out, and messages without an id.
const OTHER_IDS: [(u16, &[u8], &str); 9] = [
    (
        88,
        &[0, 0, 0, 0, 8, 0, 1, 0, 249, 255, 255, 255],
        "{\"nsid\":-7}",
    ),
    (
        89,
        &[
            0, 0, 0, 0, 8, 0, 1, 0, 255, 255, 255, 255, 8, 0, 5, 0, 7, 0, 0, 0,
        ],
        "{\"deleted\":true,\"nsid\":-1,\"current-nsid\":7}",
    ),
    (
        88,
        &[
            0, 0, 0, 0, 8, 0, 1, 0, 2, 0, 0, 0, 8, 0, 5, 0, 255, 255, 255, 255,
        ],
        "{\"nsid\":2,\"current-nsid\":-1}",
    ),
    (
        88,
        &[
            0, 0, 0, 0, 8, 0, 1, 0, 0, 0, 0, 128, 8, 0, 4, 0, 255, 255, 255, 127,
        ],
        "{\"nsid\":-2147483648,\"target-nsid\":2147483647}",
    ),
    (90, &[0, 0, 0, 0, 8, 0, 2, 0, 100, 0, 0, 0], "{\"pid\":100}"),
    (
        90,
        &[0, 0, 0, 0, 8, 0, 3, 0, 4, 0, 0, 0, 8, 0, 4, 0, 1, 0, 0, 0],
        "{\"fd\":4,\"target-nsid\":1}",
    ),
    (
        89,
        &[
            0, 0, 0, 0, 8, 0, 5, 0, 5, 0, 0, 0, 8, 0, 4, 0, 4, 0, 0, 0, 8, 0, 3, 0, 3, 0, 0, 0, 8,
            0, 2, 0, 2, 0, 0, 0, 8, 0, 1, 0, 1, 0, 0, 0,
        ],
        "{\"deleted\":true,\"nsid\":1,\"pid\":2,\"fd\":3,\"target-nsid\":4,\"current-nsid\":5}",
    ),
    (90, &[0], "{}"),
    (88, &[0, 0, 0, 0], "{}"),
];

/// Returns the object of a table; nothing if the payload has an error or an allocation fails.
fn table_text(alloc: Global, message_type: u16, payload: &[u8]) -> Option<String> {
    let table = MessageView::<NeighbourTables>::new(message_type, payload).ok()?;
    let mut object = Object::new(alloc);
    put_neighbour_table(alloc, &mut object, &Names::of(&[]), &table).ok()?;
    object.into_text(alloc).ok()
}

/// Returns the object of an id; nothing if the payload has an error or an allocation fails.
fn id_text(alloc: Global, message_type: u16, payload: &[u8]) -> Option<String> {
    let namespace = MessageView::<Namespaces>::new(message_type, payload).ok()?;
    let mut object = Object::new(alloc);
    put_namespace(alloc, &mut object, &namespace).ok()?;
    object.into_text(alloc).ok()
}

/// Asserts that an object is this text.
fn assert_text(rt: &impl Abort, found: Option<String>, text: &str) {
    match found {
        Some(found) => assert_eq!(rt; found.as_str(), text),
        None => panic!(rt; "no object"),
    }
}

/// Each table has the object that `ip` prints for it.
#[test]
fn tables(rt: HostRuntime) {
    for (message_type, payload, text) in &TABLES {
        assert_text(&rt, table_text(rt.alloc(), *message_type, *payload), *text);
    }
}

/// A request has the object of a table, and parameters with the flag of a nest are read.
#[test]
fn other_tables(rt: HostRuntime) {
    for (message_type, payload, text) in &OTHER_TABLES {
        assert_text(&rt, table_text(rt.alloc(), *message_type, *payload), *text);
    }
}

/// Each id has the object that `ip` prints for it.
#[test]
fn ids(rt: HostRuntime) {
    for (message_type, payload, text) in &IDS {
        assert_text(&rt, id_text(rt.alloc(), *message_type, *payload), *text);
    }
}

/// A request has the object of an id, and an id below 0 is a number.
#[test]
fn other_ids(rt: HostRuntime) {
    for (message_type, payload, text) in &OTHER_IDS {
        assert_text(&rt, id_text(rt.alloc(), *message_type, *payload), *text);
    }
}
