//! The names of numbers, after the kernel's headers and the output of `ip`.

use netlink_route::{NeighbourState, OperState, RouteProtocol, RouteType, Scope};
use std::alloc::{AllocError, Global};
use std::test::Fail;

/// A number that may have a name.
#[derive(Clone, Copy)]
enum Number {
    OperState(u8),
    Scope(u8),
    RouteType(u8),
    RouteProtocol(u8),
    NeighbourState(u16),
}

/// Numbers and their texts.
const TEXTS: [(Number, &'static str); 30] = [
    (Number::OperState(0), "UNKNOWN"),
    (Number::OperState(3), "LOWERLAYERDOWN"),
    (Number::OperState(6), "UP"),
    (Number::OperState(7), "7"),
    (Number::Scope(0), "global"),
    (Number::Scope(1), "1"),
    (Number::Scope(200), "site"),
    (Number::Scope(252), "252"),
    (Number::Scope(253), "link"),
    (Number::Scope(254), "host"),
    (Number::Scope(255), "nowhere"),
    (Number::RouteType(0), "unspec"),
    (Number::RouteType(1), "unicast"),
    (Number::RouteType(6), "blackhole"),
    (Number::RouteType(9), "throw"),
    (Number::RouteType(11), "xresolve"),
    (Number::RouteType(12), "12"),
    (Number::RouteProtocol(2), "kernel"),
    (Number::RouteProtocol(4), "static"),
    (Number::RouteProtocol(9), "ra"),
    (Number::RouteProtocol(16), "dhcp"),
    (Number::RouteProtocol(186), "bgp"),
    (Number::RouteProtocol(192), "eigrp"),
    (Number::RouteProtocol(200), "200"),
    (Number::NeighbourState(0), "NONE"),
    (Number::NeighbourState(2), "REACHABLE"),
    (Number::NeighbourState(4), "STALE"),
    (Number::NeighbourState(64), "NOARP"),
    (Number::NeighbourState(128), "PERMANENT"),
    (Number::NeighbourState(6), "6"),
];

/// Returns the text of a number.
fn text_of(alloc: Global, number: Number) -> Result<String, AllocError> {
    match number {
        Number::OperState(number) => OperState(number).to_string(alloc),
        Number::Scope(number) => Scope(number).to_string(alloc),
        Number::RouteType(number) => RouteType(number).to_string(alloc),
        Number::RouteProtocol(number) => RouteProtocol(number).to_string(alloc),
        Number::NeighbourState(number) => NeighbourState(number).to_string(alloc),
    }
}

#[test]
fn numbers_print_their_names(rt: HostRuntime) -> Result<(), Fail> {
    for (number, text) in TEXTS {
        assert_eq!(rt; text_of(rt.alloc(), number)?.as_str(), text);
    }
    Ok(())
}

/// Numbers and their names.
const NAMES: [(Number, Option<&'static str>); 10] = [
    (Number::OperState(6), Some("UP")),
    (Number::OperState(7), None),
    (Number::Scope(253), Some("link")),
    (Number::Scope(1), None),
    (Number::RouteType(1), Some("unicast")),
    (Number::RouteType(12), None),
    (Number::RouteProtocol(3), Some("boot")),
    (Number::RouteProtocol(5), None),
    (Number::NeighbourState(4), Some("STALE")),
    (Number::NeighbourState(3), None),
];

/// Returns the name of a number, if it has one.
fn name_of(number: Number) -> Option<&'static str> {
    match number {
        Number::OperState(number) => OperState(number).name(),
        Number::Scope(number) => Scope(number).name(),
        Number::RouteType(number) => RouteType(number).name(),
        Number::RouteProtocol(number) => RouteProtocol(number).name(),
        Number::NeighbourState(number) => NeighbourState(number).name(),
    }
}

#[test]
fn a_number_may_have_no_name(rt: HostRuntime) -> Result<(), Fail> {
    for (number, name) in NAMES {
        assert!(rt; name_of(number) == name);
    }
    Ok(())
}
