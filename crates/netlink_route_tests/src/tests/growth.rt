//! Long messages on standard input. `tests/steps/growth.py` counts the instructions that these tests take.

use netlink_family::{CheckedAttributes, Joined, MessageView, OwnedMessage};
use netlink_packet_core::NetlinkBuffer;
use netlink_route::links::{IFLA_LINKINFO, RTM_NEWLINK};
use netlink_route::{Links, RouteTables};
use std::alloc::Global;
use std::io;
use std::io::{Read, Write};
use std::test::Fail;

/// Writes how many attributes one pass over the message on standard input yields.
#[test]
fn standard_input_is_checked_in_one_pass(rt: HostRuntime) -> Result<(), Fail> {
    let alloc = rt.alloc();
    let mut bytes = Vec::new(alloc);
    rt.reader().read_to_end(&mut bytes)?;
    let count = checked_count(&bytes);
    io::writer(&rt).write_all(format!(in alloc; "{count}\n")?.as_bytes())?;
    Ok(())
}

/// Returns how many attributes a pass over a frame yields before it ends or there is an error.
fn checked_count(frame: &[u8]) -> u32 {
    let mut count = 0u32;
    let Ok(frame) = NetlinkBuffer::new_checked(frame) else {
        return count;
    };
    let all = CheckedAttributes::<Joined<RouteTables>>::new(frame.message_type(), frame.payload());
    let Ok(all) = all else {
        return count;
    };
    for item in all {
        if item.is_err() {
            return count;
        }
        count = count.wrapping_add(1);
    }
    count
}

/// Writes how many bytes a view of the message on standard input has; 0 if it is rejected.
#[test]
fn standard_input_is_viewed(rt: HostRuntime) -> Result<(), Fail> {
    let alloc = rt.alloc();
    let mut bytes = Vec::new(alloc);
    rt.reader().read_to_end(&mut bytes)?;
    let size = viewed_size(&bytes);
    io::writer(&rt).write_all(format!(in alloc; "{size}\n")?.as_bytes())?;
    Ok(())
}

/// Returns the size of the payload that a view of a frame has; 0 if the frame is rejected.
fn viewed_size(frame: &[u8]) -> usize {
    let Ok(frame) = NetlinkBuffer::new_checked(frame) else {
        return 0;
    };
    match MessageView::<Joined<RouteTables>>::new(frame.message_type(), frame.payload()) {
        Ok(view) => view.payload.len(),
        Err(_) => 0,
    }
}

/// Writes how many attributes an iteration over the message on standard input yields, outside any nest.
#[test]
fn attributes_of_standard_input_are_iterated(rt: HostRuntime) -> Result<(), Fail> {
    let alloc = rt.alloc();
    let mut bytes = Vec::new(alloc);
    rt.reader().read_to_end(&mut bytes)?;
    let count = own_count(&bytes);
    io::writer(&rt).write_all(format!(in alloc; "{count}\n")?.as_bytes())?;
    Ok(())
}

/// Returns how many attributes an iteration over a frame yields.
fn own_count(frame: &[u8]) -> u32 {
    let mut count = 0u32;
    let Ok(frame) = NetlinkBuffer::new_checked(frame) else {
        return count;
    };
    let view = MessageView::<Joined<RouteTables>>::new(frame.message_type(), frame.payload());
    let Ok(view) = view else {
        return count;
    };
    for _ in view.view().attributes() {
        count = count.wrapping_add(1);
    }
    count
}

/// Writes how many attributes an iteration over the nest `IFLA_LINKINFO` of the message on standard
/// input yields.
#[test]
fn a_nest_of_standard_input_is_iterated(rt: HostRuntime) -> Result<(), Fail> {
    let alloc = rt.alloc();
    let mut bytes = Vec::new(alloc);
    rt.reader().read_to_end(&mut bytes)?;
    let count = nested_count(&bytes);
    io::writer(&rt).write_all(format!(in alloc; "{count}\n")?.as_bytes())?;
    Ok(())
}

/// Returns how many attributes an iteration over the nest `IFLA_LINKINFO` of a frame yields.
fn nested_count(frame: &[u8]) -> u32 {
    let mut count = 0u32;
    let Ok(frame) = NetlinkBuffer::new_checked(frame) else {
        return count;
    };
    let view = MessageView::<Joined<RouteTables>>::new(frame.message_type(), frame.payload());
    let Ok(view) = view else {
        return count;
    };
    let Some(nest) = view.view().nest(IFLA_LINKINFO) else {
        return count;
    };
    for _ in nest.attributes() {
        count = count.wrapping_add(1);
    }
    count
}

/// Appends the value of the first attribute of the message on standard input to a new message, and
/// writes how many bytes that has.
#[test]
fn a_nest_of_standard_input_is_appended(rt: HostRuntime) -> Result<(), Fail> {
    let alloc = rt.alloc();
    let mut bytes = Vec::new(alloc);
    rt.reader().read_to_end(&mut bytes)?;
    let size = appended_size(alloc, &bytes);
    io::writer(&rt).write_all(format!(in alloc; "{size}\n")?.as_bytes())?;
    Ok(())
}

/// Returns the size of a message of a link to which the value of the first attribute of a frame of a
/// link was appended as `IFLA_LINKINFO`; 0 if that was rejected.
fn appended_size(alloc: Global, frame: &[u8]) -> usize {
    let Some(value) = frame.get(36..) else {
        return 0;
    };
    let Ok(mut link) = OwnedMessage::<Links>::new(alloc, RTM_NEWLINK) else {
        return 0;
    };
    match link.try_push(alloc, IFLA_LINKINFO, value) {
        Ok(()) => link.payload().len(),
        Err(_) => 0,
    }
}
