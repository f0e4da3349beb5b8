//! Families in replies.

use crate::tests::samples::{NLCTRL, PARTIAL, has_groups, message_in};
use netlink_family::FamilyError;
use netlink_generic::{ControllerMessage, family_id, family_in, family_name, family_named};
use netlink_packet_core::{NetlinkBuffer, normalize};
use std::test::Fail;

/// Returns the error of the controller's message in a frame.
fn error_in(frame: &[u8]) -> Option<FamilyError> {
    match NetlinkBuffer::new_checked(frame) {
        Ok(_) => family_in(frame).err(),
        Err(_) => None,
    }
}

/// Returns whether a frame describes this family.
fn is_family(frame: &[u8], name: &[u8], id: u16, groups: &[(Option<&[u8]>, Option<u32>)]) -> bool {
    match message_in(frame) {
        Some(family) => {
            family_name(&family) == Some(name)
                && family_id(&family) == Some(id)
                && has_groups(&family, groups)
        }
        None => false,
    }
}

#[test]
fn a_reply_is_read(rt: HostRuntime) {
    let groups: [(Option<&[u8]>, Option<u32>); 1] = [(Some(b"notify"), Some(16))];
    assert!(rt; is_family(&NLCTRL, b"nlctrl", 16, &groups));
}

#[test]
fn a_partial_reply_is_read(rt: HostRuntime) {
    let groups: [(Option<&[u8]>, Option<u32>); 3] = [
        (Some(b"a"), None),
        (None, Some(5)),
        (Some(b"end"), Some(6)),
    ];
    assert!(rt; is_family(&PARTIAL, b"t", 0x1234, &groups));
}

/// An operation without an id and names without a NUL are not changed.
#[test]
fn replies_are_written_back_unchanged(rt: HostRuntime) -> Result<(), Fail> {
    let alloc = rt.alloc();
    assert_eq!(rt;
        normalize::<ControllerMessage>(alloc, &NLCTRL)?.as_slice(),
        NLCTRL.as_slice()
    );
    assert_eq!(rt;
        normalize::<ControllerMessage>(alloc, &PARTIAL)?.as_slice(),
        PARTIAL.as_slice()
    );
    Ok(())
}

/// A message without attributes, of `CTRL_CMD_DELFAMILY`.
const BARE: [u8; 20] = [20, 0, 0, 0, 16, 0, 0, 0, 0, 0, 0, 0, 0, 0, 0, 0, 2, 2, 0, 0];

/// The end of a dump.
const DONE: [u8; 20] = [20, 0, 0, 0, 3, 0, 2, 0, 7, 0, 0, 0, 0, 0, 0, 0, 0, 0, 0, 0];

#[test]
fn other_messages_have_no_family(rt: HostRuntime) {
    match message_in(&BARE) {
        Some(family) => {
            assert!(rt; family_id(&family) == None && family_name(&family) == None);
            assert!(rt; has_groups(&family, &[]));
        }
        None => assert!(rt; false),
    }
    let unknown = FamilyError::UnknownType { message_type: 3 };
    assert!(rt; error_in(&DONE) == Some(unknown));
}

/// Returns the id of a family in a datagram.
fn id_of(datagram: &[u8], name: &str) -> Option<u16> {
    family_id(&family_named(datagram, name)?)
}

/// Returns the id of a family in the first bytes of a datagram.
fn id_in(datagram: &[u8], size: usize, name: &str) -> Option<u16> {
    if size > datagram.len() {
        return None;
    }
    id_of(&datagram[..size], name)
}

/// A datagram of frames whose sizes are multiples of 4.
fn datagram(rt: &HostRuntime, frames: &[&[u8]]) -> Result<Vec<u8>, Fail> {
    let mut bytes = Vec::new(rt.alloc());
    for frame in frames {
        bytes.extend_from_slice(frame)?;
    }
    Ok(bytes)
}

#[test]
fn a_family_is_found_by_its_name(rt: HostRuntime) -> Result<(), Fail> {
    let all = datagram(&rt, &[&NLCTRL, &PARTIAL, &DONE])?;
    assert!(rt; id_of(&all, "nlctrl") == Some(16));
    assert!(rt; id_of(&all, "t") == Some(0x1234));
    assert!(rt; id_of(&all, "nlctr") == None);
    assert!(rt; id_of(&all, "") == None);
    // one byte less is an error of the walk
    assert!(rt; id_in(&all, 247, "nlctrl") == Some(16));
    assert!(rt; id_in(&all, 247, "t") == None);
    Ok(())
}

/// The family is deleted, described by a damaged message, and then described.
#[test]
fn other_messages_about_a_family_are_ignored(rt: HostRuntime) -> Result<(), Fail> {
    let mut deleted = PARTIAL;
    deleted[16] = 2;
    deleted[32] = 0x35;
    let mut damaged = PARTIAL;
    damaged[32] = 0x36;
    damaged[44] = 11;
    let all = datagram(&rt, &[&deleted, &damaged, &PARTIAL])?;
    assert!(rt; id_of(&all, "t") == Some(0x1234));
    assert!(rt; id_in(&all, 224, "t") == None);
    Ok(())
}
