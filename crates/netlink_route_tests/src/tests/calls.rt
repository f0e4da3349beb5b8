//! Calls in functions without contracts, so that the tests are proved without those of the calls.

use netlink_family::{Attributes, BlockView, Joined, MessageView, Value};
use netlink_packet_core::{DecodeError, normalize};
use netlink_route::{Addresses, Links, Neighbours, RouteMessage, RouteTables};
use std::alloc::Global;

/// A view of a message of any family.
pub(crate) type View<'a> = MessageView<'a, Joined<RouteTables>>;

/// Returns the canonical form of a frame.
pub(crate) fn normal(alloc: Global, frame: &[u8]) -> Result<Vec<u8>, DecodeError> {
    normalize::<RouteMessage>(alloc, frame)
}

/// Returns the link that a message is about, if it is about one.
pub(crate) fn link_of<'a>(message: &View<'a>) -> Option<MessageView<'a, Links>> {
    message.tables().split().ok()
}

/// Returns the address that a message is about, if it is about one.
pub(crate) fn address_of<'a>(message: &View<'a>) -> Option<MessageView<'a, Addresses>> {
    message.tables().split().err()?.split().ok()
}

/// Returns the neighbour that a message is about, if it is about one.
pub(crate) fn neighbour_of<'a>(message: &View<'a>) -> Option<MessageView<'a, Neighbours>> {
    let other = message.tables().split().err()?;
    other.split().err()?.split().ok()
}

/// Returns whether the next attributes are these.
pub(crate) fn are_next(all: &mut Attributes<'_>, expected: &[(u16, Value<'_>)]) -> bool {
    for attribute in expected {
        if all.next() != Some(*attribute) {
            return false;
        }
    }
    true
}

/// Returns whether the remaining attributes are these.
pub(crate) fn are_last(all: &mut Attributes<'_>, expected: &[(u16, Value<'_>)]) -> bool {
    are_next(all, expected) && all.next() == None
}

/// Returns whether the attributes of a message or a nest are these.
pub(crate) fn has_attributes(view: &BlockView<'_>, expected: &[(u16, Value<'_>)]) -> bool {
    are_last(&mut view.attributes(), expected)
}

/// Returns whether the attributes of a nest in a message or in another nest are these.
pub(crate) fn has_nest(view: &BlockView<'_>, kind: u16, expected: &[(u16, Value<'_>)]) -> bool {
    match view.nest(kind) {
        Some(nest) => has_attributes(&nest, expected),
        None => false,
    }
}
