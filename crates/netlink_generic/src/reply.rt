//! What the controller's messages contain about families.

ghost use Rattle.std.specs.Prelude.{◌≡◌, ℕ, IfErr, IfNone, IfOk, IfSome, List, None, Option, Some};
ghost use Rattle.netlink_packet_core.specs.DecodeError.{DecodeError};
ghost use Rattle.netlink_packet_core.specs.FrameWalk.{FrameWalk};
ghost use Rattle.netlink_packet_core.specs.Header.{field, HoldsFrame, payload_of};
ghost use Rattle.netlink_generic.specs.Replies.{controller_error, family_of, first_named, id_in, name_in};

use crate::controller::{
    CTRL_ATTR_FAMILY_ID, CTRL_ATTR_FAMILY_NAME, CTRL_CMD_NEWFAMILY, ControllerView, GENL_CMD,
};
use netlink_family::{FamilyError, MessageView};
use netlink_packet_core::NetlinkBuffer;
use netlink_tree::Frames;

/// Returns a view of the controller's message in a frame. Requires that the bytes hold a complete
/// frame, which `NetlinkBuffer::new_checked` checks; `Frames` yields such frames. Returns
/// `UnknownType` if the message type is not the controller's, or else the payload's error if it has
/// one. Does not allocate.
pub fn family_in(frame: &[u8]) -> Result<ControllerView<'_>, FamilyError>
    requires whole { HoldsFrame frame.now }
    ensures message_type { IfOk result (λ v. v.message_type ≡ field 4 2 frame.now) }
    ensures payload { IfOk result (λ v. v.payload.now ≡ payload_of frame.now) }
    ensures good { IfOk result (λ _. controller_error (field 4 2 frame.now) (payload_of frame.now) ≡ None) }
    ensures error { IfErr result (λ e. controller_error (field 4 2 frame.now) (payload_of frame.now) ≡ Some e) }
{
    let frame = NetlinkBuffer::new(frame);
    MessageView::new(frame.message_type(), frame.payload())
}

/// Returns the id of the family that a message is about, which is the message type of the family's
/// messages. Returns `None` if the message has no `CTRL_ATTR_FAMILY_ID`.
pub fn family_id(message: &ControllerView<'_>) -> Option<u16>
    ensures { result ≡ id_in message.now.payload.now }
{
    message.view().u16(CTRL_ATTR_FAMILY_ID)
}

/// Returns the name of the family that a message is about, without its NUL. Returns `None` if the
/// message has no `CTRL_ATTR_FAMILY_NAME`.
pub fn family_name<'a>(message: &ControllerView<'a>) -> Option<&'a [u8]>
    ensures some { IfSome result (λ name. name_in message.now.payload.now ≡ Some name.now) }
    ensures none { IfNone result (name_in message.now.payload.now ≡ None) }
{
    message.view().str_bytes(CTRL_ATTR_FAMILY_NAME)
}

/// Returns the first message of a datagram that describes the family with this name: one of the
/// frames before an error of the walk, if there is one, whose command is `CTRL_CMD_NEWFAMILY`.
/// Returns `None` if there is no such message. Ignores all other frames, those with an error too.
///
/// The datagram is the reply to a request for the family, or one of those of a dump of all families.
/// Does not allocate.
pub fn family_named<'a>(datagram: &'a [u8], name: &str) -> Option<ControllerView<'a>>
    ensures some { IfSome result (λ v. (all : List (List ℕ)) (fault : Option DecodeError)
        → FrameWalk datagram.now all fault → first_named name.now all ≡ Some v.payload.now) }
    ensures none { IfNone result ((all : List (List ℕ)) (fault : Option DecodeError)
        → FrameWalk datagram.now all fault → first_named name.now all ≡ None) }
{
    for item in Frames::new(datagram) {
        match item {
            Ok(frame) => {
                if let Some(found) = named_family(frame, name) {
                    return Some(found);
                }
            }
            Err(_) => return None,
        }
    }
    None
}

/// Returns the message in a frame if it describes the family with this name.
fn named_family<'a>(frame: &'a [u8], name: &str) -> Option<ControllerView<'a>>
    requires whole { HoldsFrame frame.now }
    ensures some { IfSome result (λ v. family_of name.now frame.now ≡ Some v.payload.now) }
    ensures none { IfNone result (family_of name.now frame.now ≡ None) }
{
    let Ok(message) = family_in(frame) else {
        return None;
    };
    if message.header().u8(GENL_CMD) != CTRL_CMD_NEWFAMILY {
        return None;
    }
    match family_name(&message) {
        Some(found) => {
            if found == name.as_bytes() {
                Some(message)
            } else {
                None
            }
        }
        None => None,
    }
}
