//! Messages of the controller, and helpers.

use netlink_family::{AttributeError, FamilyError, Reason};
use netlink_generic::controller::GENL_ID_CTRL;
use netlink_generic::{ControllerMessage, ControllerView, family_groups, family_in};
use netlink_packet_core::{NetlinkBuffer, NetlinkDeserializable, NetlinkHeader};
use std::alloc::Global;

/// `family-by-name-request`: the request for `nlctrl`.
pub const REQUEST: [u8; 32] = [
    32, 0, 0, 0, 16, 0, 1, 0, 1, 0, 0, 0, 0, 0, 0, 0, // length 32, type 16, NLM_F_REQUEST
    3, 1, 0, 0, // CTRL_CMD_GETFAMILY, version 1
    11, 0, 2, 0, b'n', b'l', b'c', b't', b'r', b'l', 0, 0, // CTRL_ATTR_FAMILY_NAME
];

/// `family-by-name-0`: the reply to it.
pub const NLCTRL: [u8; 136] = [
    136, 0, 0, 0, 16, 0, 0, 0, 1, 0, 0, 0, 0xdd, 0x25, 0, 0, // length 136, type 16
    1, 2, 0, 0, // CTRL_CMD_NEWFAMILY, version 2
    11, 0, 2, 0, b'n', b'l', b'c', b't', b'r', b'l', 0, 0, // CTRL_ATTR_FAMILY_NAME
    6, 0, 1, 0, 16, 0, 0, 0, // CTRL_ATTR_FAMILY_ID
    8, 0, 3, 0, 2, 0, 0, 0, // CTRL_ATTR_VERSION
    8, 0, 4, 0, 0, 0, 0, 0, // CTRL_ATTR_HDRSIZE
    8, 0, 5, 0, 0, 0, 0, 0, // CTRL_ATTR_MAXATTR
    44, 0, 6, 0, // CTRL_ATTR_OPS
    20, 0, 1, 0, 8, 0, 1, 0, 3, 0, 0, 0, 8, 0, 2, 0, 14, 0, 0, 0, // id 3, flags 14
    20, 0, 2, 0, 8, 0, 1, 0, 10, 0, 0, 0, 8, 0, 2, 0, 12, 0, 0, 0, // id 10, flags 12
    28, 0, 7, 0, // CTRL_ATTR_MCAST_GROUPS
    24, 0, 1, 0, 8, 0, 2, 0, 16, 0, 0, 0, // id 16
    11, 0, 1, 0, b'n', b'o', b't', b'i', b'f', b'y', 0, 0, // its name
];

/// The family `t`, whose name has no NUL, with an operation without an id, and three groups: one
/// without an id, one without a name, and one whose name has no NUL.
pub const PARTIAL: [u8; 112] = [
    112, 0, 0, 0, 16, 0, 2, 0, 7, 0, 0, 0, 0, 0, 0, 0, // length 112, type 16, NLM_F_MULTI
    1, 2, 0, 0, // CTRL_CMD_NEWFAMILY, version 2
    5, 0, 2, 0, b't', 0, 0, 0, // CTRL_ATTR_FAMILY_NAME
    6, 0, 1, 0, 0x34, 0x12, 0, 0, // CTRL_ATTR_FAMILY_ID
    16, 0, 6, 0, // CTRL_ATTR_OPS
    12, 0, 1, 0, 8, 0, 2, 0, 14, 0, 0, 0, // no id, flags 14
    60, 0, 7, 0, // CTRL_ATTR_MCAST_GROUPS
    12, 0, 1, 0, 6, 0, 1, 0, b'a', 0, 0, 0, // the name `a`
    12, 0, 2, 0, 8, 0, 2, 0, 5, 0, 0, 0, // id 5
    32, 0, 3, 0, 8, 0, 2, 0, 6, 0, 0, 0, // id 6
    7, 0, 1, 0, b'e', b'n', b'd', 0, // the name `end`
    12, 0, 9, 0, 1, 2, 3, 4, 5, 6, 7, 8, // a kind without a row
];

/// Returns a header with the controller's message type.
pub(crate) fn header() -> NetlinkHeader {
    NetlinkHeader {
        message_type: GENL_ID_CTRL,
        ..NetlinkHeader::default()
    }
}

/// Decodes a payload.
pub(crate) fn decoded(alloc: Global, payload: &[u8]) -> Result<ControllerMessage, FamilyError> {
    ControllerMessage::deserialize(alloc, &header(), payload)
}

/// Returns the controller's message in a frame, if the frame is complete and the message is valid.
pub(crate) fn message_in(frame: &[u8]) -> Option<ControllerView<'_>> {
    match NetlinkBuffer::new_checked(frame) {
        Ok(_) => family_in(frame).ok(),
        Err(_) => None,
    }
}

/// Returns the error of an attribute.
pub(crate) fn invalid(offset: usize, policy: u16, reason: Reason) -> Option<FamilyError> {
    Some(FamilyError::InvalidAttribute(AttributeError {
        offset,
        policy,
        reason,
    }))
}

/// Returns whether these are the groups in a message.
pub(crate) fn has_groups(
    message: &ControllerView<'_>,
    expected: &[(Option<&[u8]>, Option<u32>)],
) -> bool {
    let mut groups = family_groups(message);
    for group in expected {
        if groups.next() != Some(*group) {
            return false;
        }
    }
    groups.next() == None
}
