//! Objects of routes. `ip` 6.1 printed those that it can print, after it had read these messages; a
//! link is `if` and its index, except `lo`.

use super::made_routes::{BY_HAND, MADE};
use super::mpls_and_multicast::{MPLS, MULTICAST};
use super::routes::ROUTES;
use netlink_family::MessageView;
use netlink_json::Object;
use netlink_names::device::Known;
use netlink_names::name::Name;
use netlink_names::name_table::Names;
use netlink_objects::route::put_route;
use netlink_route::Routes;
use std::alloc::{AllocError, Global};
use std::process::Abort;

/// A message: its payload, its type, and its object.
pub(super) type Row = (&'static [u8], u16, &'static str);

/// Returns the object of a route, with the name of one link.
fn object_of(alloc: Global, route: &MessageView<'_, Routes>) -> Result<String, AllocError> {
    let mut known: Vec<Known> = Vec::new(alloc);
    known.push(Known {
        index: 1,
        name: Name::new(alloc, b"lo")?,
    })?;
    let mut object = Object::new(alloc);
    put_route(alloc, &mut object, &Names::of(&known), route)?;
    object.into_text(alloc)
}

/// Checks that each message has its object.
fn assert_objects(rt: &impl Abort, alloc: Global, rows: &[Row]) {
    for (payload, message_type, wanted) in rows {
        let Ok(route) = MessageView::<Routes>::new(*message_type, *payload) else {
            panic!(rt; "not a route");
        };
        match object_of(alloc, &route) {
            Ok(text) => assert_eq!(rt; text.as_str(), *wanted),
            Err(_) => panic!(rt; "out of memory"),
        }
    }
}

/// Each route has the object that `ip` prints for it.
#[test]
fn routes_have_the_objects_of_ip(rt: HostRuntime) {
    assert_objects(&rt, rt.alloc(), &ROUTES);
}

/// Each route of MPLS has the object that `ip` prints for it.
#[test]
fn routes_of_mpls_have_the_objects_of_ip(rt: HostRuntime) {
    assert_objects(&rt, rt.alloc(), &MPLS);
}

/// Each route of multicast routing has the object that `ip` prints for it.
#[test]
fn routes_of_multicast_have_the_objects_of_ip(rt: HostRuntime) {
    assert_objects(&rt, rt.alloc(), &MULTICAST);
}

/// Each kind of member is the one that `ip` prints.
#[test]
fn members_are_those_of_ip(rt: HostRuntime) {
    assert_objects(&rt, rt.alloc(), &MADE);
}

/// Each route that `ip` prints no JSON for has its object.
#[test]
fn other_routes_have_objects(rt: HostRuntime) {
    assert_objects(&rt, rt.alloc(), &BY_HAND);
}
