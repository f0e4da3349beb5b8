//! Next hops, groups of next hops and their buckets, made by hand. `ip -j nexthop` and `ip -j nexthop
//! bucket` 6.1 printed the objects when they read the messages in place of the kernel's. A link is `if` and
//! its index.

use netlink_family::MessageView;
use netlink_json::Object;
use netlink_names::name_table::Names;
use netlink_objects::next_hop_object::put_next_hop_object;
use netlink_route::NextHopObjects;
use std::alloc::Global;
use std::process::Abort;

/// Message types and payloads of next hops, and what `ip` prints for each.
const HOPS: [(u16, &[u8], &str); 18] = [
    (
        104,
        &[
            2, 0, 0, 0, 0, 0, 0, 0, 8, 0, 1, 0, 1, 0, 0, 0, 8, 0, 6, 0, 192, 0, 2, 1, 8, 0, 5, 0,
            5, 0, 0, 0,
        ],
        "{\"id\":1,\"gateway\":\"192.0.2.1\",\"dev\":\"if5\",\"flags\":[]}",
    ),
    (
        104,
        &[
            10, 0, 4, 0, 0, 0, 0, 0, 8, 0, 1, 0, 2, 0, 0, 0, 20, 0, 6, 0, 254, 128, 0, 0, 0, 0, 0,
            0, 0, 0, 0, 0, 0, 0, 0, 1, 8, 0, 5, 0, 5, 0, 0, 0,
        ],
        "{\"id\":2,\"gateway\":\"fe80::1\",\"dev\":\"if5\",\"protocol\":\"static\",\"flags\":[]}",
    ),
    (
        104,
        &[
            2, 253, 3, 0, 0, 0, 0, 0, 8, 0, 1, 0, 3, 0, 0, 0, 8, 0, 5, 0, 5, 0, 0, 0,
        ],
        "{\"id\":3,\"dev\":\"if5\",\"scope\":\"link\",\"protocol\":\"boot\",\"flags\":[]}",
    ),
    (
        104,
        &[2, 0, 0, 0, 0, 0, 0, 0, 8, 0, 1, 0, 4, 0, 0, 0, 4, 0, 4, 0],
        "{\"id\":4,\"blackhole\":null,\"flags\":[]}",
    ),
    (
        104,
        &[
            2, 0, 0, 0, 0, 0, 0, 0, 8, 0, 1, 0, 4, 0, 0, 0, 4, 0, 4, 0, 8, 0, 5, 0, 0, 0, 0, 0,
        ],
        "{\"id\":4,\"blackhole\":null,\"flags\":[]}",
    ),
    (
        104,
        &[
            0, 0, 0, 0, 0, 0, 0, 0, 8, 0, 1, 0, 10, 0, 0, 0, 20, 0, 2, 0, 1, 0, 0, 0, 0, 0, 0, 0,
            2, 0, 0, 0, 2, 0, 0, 0, 6, 0, 3, 0, 0, 0, 0, 0,
        ],
        "{\"id\":10,\"group\":[{\"id\":1},{\"id\":2,\"weight\":3}],\"flags\":[]}",
    ),
    (
        104,
        &[
            0, 0, 0, 0, 0, 0, 0, 0, 8, 0, 1, 0, 10, 0, 0, 0, 12, 0, 2, 0, 255, 255, 255, 255, 255,
            0, 0, 0,
        ],
        "{\"id\":10,\"group\":[{\"id\":4294967295,\"weight\":256}],\"flags\":[]}",
    ),
    (
        104,
        &[
            0, 0, 0, 0, 0, 0, 0, 0, 8, 0, 1, 0, 10, 0, 0, 0, 20, 0, 2, 0, 1, 0, 0, 0, 0, 0, 0, 0,
            2, 0, 0, 0, 2, 0, 0, 0, 6, 0, 3, 0, 1, 0, 0, 0, 40, 0, 12, 128, 6, 0, 1, 0, 32, 0, 0,
            0, 8, 0, 2, 0, 224, 46, 0, 0, 8, 0, 3, 0, 150, 0, 0, 0, 12, 0, 4, 0, 123, 0, 0, 0, 0,
            0, 0, 0,
        ],
        "{\"id\":10,\"group\":[{\"id\":1},{\"id\":2,\"weight\":3}],\"type\":\"resilient\",\"resilient_args\":{\"buckets\":32,\"idle_timer\":120,\"unbalanced_timer\":1.5,\"unbalanced_time\":1.23},\"flags\":[]}",
    ),
    (
        104,
        &[
            0, 0, 0, 0, 0, 0, 0, 0, 8, 0, 1, 0, 10, 0, 0, 0, 4, 0, 12, 128,
        ],
        "{\"id\":10,\"resilient_args\":{\"buckets\":0,\"idle_timer\":0,\"unbalanced_timer\":0,\"unbalanced_time\":0},\"flags\":[]}",
    ),
    (
        104,
        &[
            0, 0, 0, 0, 0, 1, 0, 0, 8, 0, 1, 0, 10, 0, 0, 0, 24, 0, 12, 0, 6, 0, 1, 0, 255, 255, 0,
            0, 12, 0, 4, 0, 10, 0, 0, 0, 0, 0, 0, 0,
        ],
        "{\"id\":10,\"resilient_args\":{\"buckets\":65535,\"idle_timer\":0,\"unbalanced_timer\":0,\"unbalanced_time\":0.1},\"flags\":[\"notify\"]}",
    ),
    (
        104,
        &[
            2, 0, 0, 0, 95, 0, 0, 0, 8, 0, 1, 0, 1, 0, 0, 0, 8, 0, 5, 0, 9, 0, 0, 0,
        ],
        "{\"id\":1,\"dev\":\"if9\",\"flags\":[\"dead\",\"onlink\",\"pervasive\",\"offload\",\"trap\",\"linkdown\"]}",
    ),
    (
        104,
        &[2, 0, 0, 0, 255, 255, 255, 255, 8, 0, 1, 0, 1, 0, 0, 0],
        "{\"id\":1,\"flags\":[\"dead\",\"onlink\",\"pervasive\",\"offload\",\"trap\",\"notify\",\"linkdown\",\"unresolved\",\"rt_offload\",\"rt_trap\",\"rt_offload_failed\"]}",
    ),
    (
        104,
        &[
            2, 0, 0, 0, 0, 0, 0, 0, 8, 0, 1, 0, 1, 0, 0, 0, 8, 0, 6, 0, 192, 0, 2, 1, 4, 0, 11, 0,
        ],
        "{\"id\":1,\"gateway\":\"192.0.2.1\",\"flags\":[],\"fdb\":null}",
    ),
    (
        104,
        &[
            2, 100, 99, 0, 0, 0, 0, 0, 8, 0, 1, 0, 1, 0, 0, 0, 6, 0, 7, 0, 99, 0, 0, 0, 4, 0, 8, 0,
        ],
        "{\"id\":1,\"encap\":\"unknown\",\"scope\":\"100\",\"protocol\":\"99\",\"flags\":[]}",
    ),
    (
        104,
        &[
            2, 255, 200, 0, 0, 0, 0, 0, 8, 0, 1, 0, 1, 0, 0, 0, 6, 0, 7, 0, 1, 0, 0, 0,
        ],
        "{\"id\":1,\"scope\":\"nowhere\",\"protocol\":\"200\",\"flags\":[]}",
    ),
    (
        104,
        &[2, 254, 186, 0, 0, 0, 0, 0],
        "{\"id\":0,\"scope\":\"host\",\"protocol\":\"bgp\",\"flags\":[]}",
    ),
    (
        105,
        &[2, 0, 0, 0, 0, 0, 0, 0, 8, 0, 1, 0, 1, 0, 0, 0],
        "{\"deleted\":true,\"id\":1,\"flags\":[]}",
    ),
    (
        104,
        &[
            2, 0, 0, 0, 0, 0, 0, 0, 8, 0, 1, 0, 1, 0, 0, 0, 4, 0, 9, 0, 8, 0, 10, 0, 5, 0, 0, 0,
        ],
        "{\"id\":1,\"flags\":[]}",
    ),
];

/// Message types and payloads of buckets, and what `ip` prints for each.
const BUCKETS: [(u16, &[u8], &str); 4] = [
    (
        116,
        &[
            0, 0, 0, 0, 0, 0, 0, 0, 8, 0, 1, 0, 10, 0, 0, 0, 32, 0, 13, 128, 6, 0, 1, 0, 7, 0, 0,
            0, 12, 0, 2, 0, 210, 4, 0, 0, 0, 0, 0, 0, 8, 0, 3, 0, 2, 0, 0, 0,
        ],
        "{\"id\":10,\"bucket\":{\"index\":7,\"idle_time\":12.34,\"nhid\":2},\"flags\":[]}",
    ),
    (
        116,
        &[
            0, 0, 3, 0, 69, 0, 0, 0, 8, 0, 1, 0, 10, 0, 0, 0, 32, 0, 13, 0, 8, 0, 3, 0, 255, 255,
            255, 255, 12, 0, 2, 0, 7, 0, 0, 0, 0, 0, 0, 0, 6, 0, 1, 0, 255, 255, 0, 0,
        ],
        "{\"id\":10,\"bucket\":{\"index\":65535,\"idle_time\":0.07,\"nhid\":4294967295},\"flags\":[\"dead\",\"onlink\",\"trap\"]}",
    ),
    (
        116,
        &[0, 0, 0, 0, 0, 0, 0, 0, 8, 0, 1, 0, 10, 0, 0, 0, 4, 0, 13, 0],
        "{\"id\":10,\"bucket\":{},\"flags\":[]}",
    ),
    (116, &[0, 0, 0, 0, 0, 0, 0, 0], "{\"flags\":[]}"),
];

/// What `ip` does not print, or prints otherwise: a weight of two bytes, a group without members, the
/// number of a type, an encapsulation without its values, an address by its size, times of more than six
/// digits, a bucket that is gone, and requests.
const OTHER_HOPS: [(u16, &[u8], &str); 11] = [
    (
        104,
        &[
            0, 0, 0, 0, 0, 0, 0, 0, 8, 0, 1, 0, 10, 0, 0, 0, 28, 0, 2, 0, 1, 0, 0, 0, 0, 0, 0, 0,
            2, 0, 0, 0, 4, 1, 0, 0, 3, 0, 0, 0, 255, 255, 0, 0,
        ],
        "{\"id\":10,\"group\":[{\"id\":1},{\"id\":2,\"weight\":261},{\"id\":3,\"weight\":65536}],\"flags\":[]}",
    ),
    (
        104,
        &[0, 0, 0, 0, 0, 0, 0, 0, 8, 0, 1, 0, 10, 0, 0, 0, 4, 0, 2, 0],
        "{\"id\":10,\"flags\":[]}",
    ),
    (
        104,
        &[
            0, 0, 0, 0, 0, 0, 0, 0, 8, 0, 1, 0, 10, 0, 0, 0, 6, 0, 3, 0, 2, 0, 0, 0,
        ],
        "{\"id\":10,\"type\":\"2\",\"flags\":[]}",
    ),
    (
        104,
        &[
            2, 0, 0, 0, 0, 0, 0, 0, 8, 0, 1, 0, 1, 0, 0, 0, 6, 0, 7, 0, 1, 0, 0, 0, 12, 0, 8, 0, 8,
            0, 1, 0, 0, 6, 65, 0, 8, 0, 6, 0, 192, 0, 2, 1,
        ],
        "{\"id\":1,\"encap\":\"mpls\",\"gateway\":\"192.0.2.1\",\"flags\":[]}",
    ),
    (
        104,
        &[2, 0, 0, 0, 0, 0, 0, 0, 8, 0, 1, 0, 1, 0, 0, 0, 4, 0, 8, 0],
        "{\"id\":1,\"flags\":[]}",
    ),
    (
        104,
        &[
            2, 0, 0, 0, 0, 0, 0, 0, 8, 0, 1, 0, 1, 0, 0, 0, 20, 0, 6, 0, 254, 128, 0, 0, 0, 0, 0,
            0, 0, 0, 0, 0, 0, 0, 0, 1,
        ],
        "{\"id\":1,\"gateway\":\"fe80::1\",\"flags\":[]}",
    ),
    (
        104,
        &[
            0, 0, 0, 0, 0, 0, 0, 0, 8, 0, 1, 0, 10, 0, 0, 0, 32, 0, 12, 0, 8, 0, 2, 0, 21, 205, 91,
            7, 8, 0, 3, 0, 255, 255, 255, 255, 12, 0, 4, 0, 255, 255, 255, 255, 255, 255, 255, 255,
        ],
        "{\"id\":10,\"resilient_args\":{\"buckets\":0,\"idle_timer\":1234567.89,\"unbalanced_timer\":42949672.95,\"unbalanced_time\":184467440737095516.15},\"flags\":[]}",
    ),
    (
        117,
        &[
            0, 0, 0, 0, 0, 0, 0, 0, 8, 0, 1, 0, 10, 0, 0, 0, 16, 0, 13, 128, 12, 0, 2, 0, 5, 0, 0,
            0, 0, 0, 0, 0,
        ],
        "{\"deleted\":true,\"id\":10,\"bucket\":{\"idle_time\":0.05},\"flags\":[]}",
    ),
    (
        106,
        &[0, 0, 0, 0, 0, 0, 0, 0, 8, 0, 1, 0, 7, 0, 0, 0],
        "{\"id\":7,\"flags\":[]}",
    ),
    (106, &[2], "{\"id\":0,\"flags\":[]}"),
    (118, &[0, 0, 0, 0], "{\"flags\":[]}"),
];

/// Returns the object of a next hop; nothing if the payload has an error or an allocation fails.
fn hop_text(alloc: Global, message_type: u16, payload: &[u8]) -> Option<String> {
    let hop = MessageView::<NextHopObjects>::new(message_type, payload).ok()?;
    let mut object = Object::new(alloc);
    put_next_hop_object(alloc, &mut object, &Names::of(&[]), &hop).ok()?;
    object.into_text(alloc).ok()
}

/// Asserts that a message has this object.
fn assert_hop(rt: &impl Abort, found: Option<String>, text: &str) {
    match found {
        Some(found) => assert_eq!(rt; found.as_str(), text),
        None => panic!(rt; "no object"),
    }
}

/// Each next hop has the object that `ip` prints for it.
#[test]
fn next_hops(rt: HostRuntime) {
    for (message_type, payload, text) in &HOPS {
        assert_hop(&rt, hop_text(rt.alloc(), *message_type, *payload), *text);
    }
}

/// Each bucket has the object that `ip` prints for it.
#[test]
fn buckets(rt: HostRuntime) {
    for (message_type, payload, text) in &BUCKETS {
        assert_hop(&rt, hop_text(rt.alloc(), *message_type, *payload), *text);
    }
}

/// The other messages have the objects of next hops and buckets.
#[test]
fn other_next_hops(rt: HostRuntime) {
    for (message_type, payload, text) in &OTHER_HOPS {
        assert_hop(&rt, hop_text(rt.alloc(), *message_type, *payload), *text);
    }
}
