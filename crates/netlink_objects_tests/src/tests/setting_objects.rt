//! Settings of links, and announced prefixes, made by hand. `ip -j netconf` 6.1 printed the objects of the
//! settings when it read the messages in place of the kernel's. A link is `if` and its index, and any link
//! is `*`.

use netlink_family::MessageView;
use netlink_json::Object;
use netlink_names::name_table::Names;
use netlink_objects::network_configuration::put_network_configuration;
use netlink_objects::prefix::put_prefix;
use netlink_route::{NetworkConfigurations, Prefixes};
use std::alloc::Global;
use std::process::Abort;

/// Message types and payloads of settings, and what `ip` prints for each.
const SETTINGS: [(u16, &[u8], &str); 8] = [
    (
        80,
        &[
            2, 0, 0, 0, 8, 0, 1, 0, 255, 255, 255, 255, 8, 0, 2, 0, 1, 0, 0, 0, 8, 0, 3, 0, 0, 0,
            0, 0, 8, 0, 4, 0, 0, 0, 0, 0, 8, 0, 5, 0, 1, 0, 0, 0, 8, 0, 6, 0, 0, 0, 0, 0, 8, 0, 8,
            0, 1, 0, 0, 0,
        ],
        "{\"family\":\"inet\",\"interface\":\"all\",\"forwarding\":true,\"rp_filter\":\"off\",\"mc_forwarding\":false,\"proxy_neigh\":true,\"ignore_routes_with_linkdown\":false}",
    ),
    (
        80,
        &[
            2, 0, 0, 0, 8, 0, 1, 0, 254, 255, 255, 255, 8, 0, 3, 0, 1, 0, 0, 0,
        ],
        "{\"family\":\"inet\",\"interface\":\"default\",\"rp_filter\":\"strict\"}",
    ),
    (
        80,
        &[
            2, 0, 0, 0, 8, 0, 7, 0, 1, 0, 0, 0, 8, 0, 3, 0, 2, 0, 0, 0, 8, 0, 1, 0, 5, 0, 0, 0,
        ],
        "{\"family\":\"inet\",\"interface\":\"if5\",\"rp_filter\":\"loose\",\"input\":true}",
    ),
    (
        80,
        &[
            10, 0, 0, 0, 8, 0, 1, 0, 5, 0, 0, 0, 8, 0, 3, 0, 3, 0, 0, 0, 8, 0, 2, 0, 255, 255, 255,
            255, 8, 0, 6, 0, 2, 0, 0, 0,
        ],
        "{\"family\":\"inet6\",\"interface\":\"if5\",\"forwarding\":true,\"rp_filter\":3,\"ignore_routes_with_linkdown\":true}",
    ),
    (
        80,
        &[
            28, 0, 0, 0, 8, 0, 1, 0, 253, 255, 255, 255, 8, 0, 7, 0, 0, 0, 0, 0,
        ],
        "{\"family\":\"mpls\",\"interface\":\"if4294967293\",\"input\":false}",
    ),
    (
        81,
        &[2, 0, 0, 0, 8, 0, 1, 0, 5, 0, 0, 0],
        "{\"deleted\":true,\"family\":\"inet\",\"interface\":\"if5\"}",
    ),
    (
        80,
        &[
            2, 0, 0, 0, 8, 0, 1, 0, 0, 0, 0, 0, 8, 0, 3, 0, 255, 255, 255, 255,
        ],
        "{\"family\":\"inet\",\"interface\":\"*\",\"rp_filter\":4294967295}",
    ),
    (80, &[7, 0, 0, 0], "{\"family\":\"bridge\"}"),
];

/// What `ip` does not print: the number of a family, and requests.
const OTHER_SETTINGS: [(u16, &[u8], &str); 3] = [
    (
        80,
        &[99, 0, 0, 0, 8, 0, 1, 0, 5, 0, 0, 0],
        "{\"family\":\"family 99\",\"interface\":\"if5\"}",
    ),
    (
        82,
        &[2, 0, 0, 0, 8, 0, 1, 0, 255, 255, 255, 255],
        "{\"family\":\"inet\",\"interface\":\"all\"}",
    ),
    (82, &[10], "{\"family\":\"inet6\"}"),
];

/// Message types and payloads of prefixes, which have no object in `ip`, and the objects of each.
const PREFIXES: [(u16, &[u8], &str); 5] = [
    (
        52,
        &[
            10, 0, 0, 0, 5, 0, 0, 0, 3, 64, 3, 0, 20, 0, 1, 0, 32, 1, 13, 184, 0, 0, 0, 0, 0, 0, 0,
            0, 0, 0, 0, 0, 12, 0, 2, 0, 100, 0, 0, 0, 200, 0, 0, 0,
        ],
        "{\"prefix\":\"2001:db8::\",\"prefixlen\":64,\"dev\":\"if5\",\"onlink\":null,\"autoconf\":null,\"valid\":200,\"preferred\":100}",
    ),
    (
        52,
        &[
            10, 0, 0, 0, 5, 0, 0, 0, 3, 64, 0, 0, 20, 0, 1, 0, 32, 1, 13, 184, 0, 0, 0, 0, 0, 0, 0,
            0, 0, 0, 0, 0,
        ],
        "{\"prefix\":\"2001:db8::\",\"prefixlen\":64,\"dev\":\"if5\"}",
    ),
    (
        52,
        &[
            10, 0, 0, 0, 5, 0, 0, 0, 3, 128, 1, 0, 12, 0, 2, 0, 0, 0, 0, 0, 255, 255, 255, 255,
        ],
        "{\"prefixlen\":128,\"dev\":\"if5\",\"onlink\":null,\"valid\":4294967295,\"preferred\":0}",
    ),
    (
        52,
        &[
            10, 0, 0, 0, 0, 0, 0, 0, 3, 0, 126, 0, 20, 0, 1, 0, 0, 0, 0, 0, 0, 0, 0, 0, 0, 0, 0, 0,
            0, 0, 0, 0,
        ],
        "{\"prefix\":\"::\",\"prefixlen\":0,\"autoconf\":null}",
    ),
    (
        52,
        &[
            2, 0, 0, 0, 255, 255, 255, 255, 4, 24, 0, 0, 8, 0, 1, 0, 192, 0, 2, 1,
        ],
        "{\"prefix\":\"192.0.2.1\",\"prefixlen\":24,\"dev\":\"if4294967295\"}",
    ),
];

/// Returns the object of settings; nothing if the payload has an error or an allocation fails.
fn setting_text(alloc: Global, message_type: u16, payload: &[u8]) -> Option<String> {
    let settings = MessageView::<NetworkConfigurations>::new(message_type, payload).ok()?;
    let mut object = Object::new(alloc);
    put_network_configuration(alloc, &mut object, &Names::of(&[]), &settings).ok()?;
    object.into_text(alloc).ok()
}

/// Returns the object of a prefix; nothing if the payload has an error or an allocation fails.
fn prefix_text(alloc: Global, message_type: u16, payload: &[u8]) -> Option<String> {
    let prefix = MessageView::<Prefixes>::new(message_type, payload).ok()?;
    let mut object = Object::new(alloc);
    put_prefix(alloc, &mut object, &Names::of(&[]), &prefix).ok()?;
    object.into_text(alloc).ok()
}

/// Asserts that an object is this text.
fn assert_object(rt: &impl Abort, found: Option<String>, text: &str) {
    match found {
        Some(found) => assert_eq!(rt; found.as_str(), text),
        None => panic!(rt; "no object"),
    }
}

/// Settings have the object that `ip` prints for them.
#[test]
fn settings(rt: HostRuntime) {
    for (message_type, payload, text) in &SETTINGS {
        assert_object(
            &rt,
            setting_text(rt.alloc(), *message_type, *payload),
            *text,
        );
    }
}

/// The other messages have the objects of settings.
#[test]
fn other_settings(rt: HostRuntime) {
    for (message_type, payload, text) in &OTHER_SETTINGS {
        assert_object(
            &rt,
            setting_text(rt.alloc(), *message_type, *payload),
            *text,
        );
    }
}

/// Each prefix has its object.
#[test]
fn prefixes(rt: HostRuntime) {
    for (message_type, payload, text) in &PREFIXES {
        assert_object(&rt, prefix_text(rt.alloc(), *message_type, *payload), *text);
    }
}
