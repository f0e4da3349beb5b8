//! Calls that walk a block, a datagram or a message, on inputs that a sender chooses.

use netlink_family::{FamilyError, Joined, MessageView};
use netlink_generic::{family_groups, family_in, family_named};
use netlink_packet_core::{NetlinkBuffer, nla_find, nla_place, nlas_fault};
use netlink_replies::{ExtendedAck, Path, Replies, Request};
use netlink_route::links::{IFLA_LINKINFO, RTM_NEWLINK};
use netlink_route::{LinkMessage, NextHops, RouteTables};
use netlink_tree::{Frames, frames_fault};
use std::alloc::Global;

/// A kind that no table has.
const LAST: u16 = 0x3ffe;

/// Returns the index of the first attribute of kind `LAST`.
#[unsafe(no_mangle)]
pub extern "C" fn attributes_find(_alloc: Global, block: &[u8]) -> usize {
    nla_find(block, LAST).unwrap_or(0)
}

/// Returns where the value of the last attribute starts in a block of attributes of 8 bytes each.
#[unsafe(no_mangle)]
pub extern "C" fn attributes_place(_alloc: Global, block: &[u8]) -> usize {
    match nla_place(block, (block.len() / 8).saturating_sub(1)) {
        Some((start, _)) => start,
        None => 0,
    }
}

/// Returns 1 if an error ends the walk over a block.
#[unsafe(no_mangle)]
pub extern "C" fn attributes_fault(_alloc: Global, block: &[u8]) -> usize {
    nlas_fault(block).is_some() as usize
}

/// Walks a datagram. Returns the sum of the sizes of the frames.
#[unsafe(no_mangle)]
pub extern "C" fn frames_walk(_alloc: Global, datagram: &[u8]) -> usize {
    let mut sum = 0usize;
    for item in Frames::new(datagram) {
        match item {
            Ok(frame) => sum = sum.wrapping_add(frame.len()),
            Err(_) => return 0,
        }
    }
    sum
}

/// Returns 1 if an error ends the walk over a datagram.
#[unsafe(no_mangle)]
pub extern "C" fn frames_error(_alloc: Global, datagram: &[u8]) -> usize {
    frames_fault(datagram).is_some() as usize
}

/// Reads the answer to a request with the number 1 in a datagram. Returns how many items it has.
#[unsafe(no_mangle)]
pub extern "C" fn replies_read(_alloc: Global, datagram: &[u8]) -> usize {
    let mut replies = Replies::new(Request {
        sequence_number: 1,
        port_number: 0,
        is_dump: true,
        wants_ack: false,
    });
    let mut count = 0usize;
    for _ in replies.read(datagram) {
        count = count.wrapping_add(1);
    }
    count
}

/// Returns the size of the text in an extended acknowledgement.
#[unsafe(no_mangle)]
pub extern "C" fn ack_text(_alloc: Global, attributes: &[u8]) -> usize {
    let ack = ExtendedAck { attributes };
    ack.text().map_or(0, |text| text.len())
}

/// Returns how many attributes contain the last byte of a block.
#[unsafe(no_mangle)]
pub extern "C" fn path_count(_alloc: Global, block: &[u8]) -> usize {
    let mut count = 0usize;
    for _ in Path::new(block, block.len().saturating_sub(1)) {
        count = count.wrapping_add(1);
    }
    count
}

/// Returns the size of the payload that describes the family `last` in a datagram.
#[unsafe(no_mangle)]
pub extern "C" fn family_find(_alloc: Global, datagram: &[u8]) -> usize {
    family_named(datagram, "last").map_or(0, |found| found.payload.len())
}

/// Returns the number of multicast groups in a message of the controller.
#[unsafe(no_mangle)]
pub extern "C" fn family_count(_alloc: Global, frame: &[u8]) -> usize {
    let Ok(view) = NetlinkBuffer::new_checked(frame) else {
        return 0;
    };
    let size = view.length() as usize;
    let mut count = 0usize;
    match family_in(&frame[..size]) {
        Ok(message) => {
            for _ in family_groups(&message) {
                count = count.wrapping_add(1);
            }
        }
        Err(_) => return 0,
    }
    count
}

/// Returns the view of a message of route netlink, if it is well-formed.
fn route_view<'a>(frame: &'a [u8]) -> Option<MessageView<'a, Joined<RouteTables>>> {
    let frame = NetlinkBuffer::new_checked(frame).ok()?;
    MessageView::new(frame.message_type(), frame.payload()).ok()
}

/// Returns 1 if a message of route netlink is rejected, and else the policy of its block, which is 0.
#[unsafe(no_mangle)]
pub extern "C" fn route_error(_alloc: Global, frame: &[u8]) -> usize {
    match route_view(frame) {
        Some(view) => view.view().policy as usize,
        None => 1,
    }
}

/// Returns the number of bytes of a message of route netlink as text.
#[unsafe(no_mangle)]
pub extern "C" fn route_show(alloc: Global, frame: &[u8]) -> usize {
    match route_view(frame) {
        Some(view) => view.show(alloc).map_or(0, |text| text.len()),
        None => 0,
    }
}

/// Reads the first attribute of kind `LAST` in a message of route netlink. Returns its size.
#[unsafe(no_mangle)]
pub extern "C" fn route_first(_alloc: Global, frame: &[u8]) -> usize {
    match route_view(frame) {
        Some(view) => view.view().first(LAST).map_or(0, |value| value.len()),
        None => 0,
    }
}

/// The same by an index.
#[unsafe(no_mangle)]
pub extern "C" fn route_indexed(_alloc: Global, frame: &[u8]) -> usize {
    match route_view(frame) {
        Some(view) => view
            .view()
            .indexed()
            .first(LAST)
            .map_or(0, |value| value.len()),
        None => 0,
    }
}

/// Returns the number of next hops of a route.
#[unsafe(no_mangle)]
pub extern "C" fn route_hops(_alloc: Global, frame: &[u8]) -> usize {
    let mut count = 0usize;
    match route_view(frame) {
        Some(view) => {
            let Some(all) = NextHops::new(&view.view()) else {
                return 0;
            };
            for _ in all {
                count = count.wrapping_add(1);
            }
        }
        None => {}
    }
    count
}

/// Appends the bytes to a message of a link, as the nest `IFLA_LINKINFO`. Returns the size of its
/// payload.
#[unsafe(no_mangle)]
pub extern "C" fn link_push(alloc: Global, nest: &[u8]) -> usize {
    match pushed(alloc, nest) {
        Ok(message) => message.payload().len(),
        Err(_) => 0,
    }
}

fn pushed(alloc: Global, nest: &[u8]) -> Result<LinkMessage, FamilyError> {
    let mut message = LinkMessage::new(alloc, RTM_NEWLINK)?;
    message.try_push(alloc, IFLA_LINKINFO, nest)?;
    Ok(message)
}
