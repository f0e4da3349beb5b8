//! The bytes of a message, one line per field.

ghost use Rattle.std.specs.Prelude.{◌≡◌, ◌+◌, ◌<◌, ◌++◌, ◌^◌, IfOk, OnOk, length, string_bytes};
ghost use Rattle.netlink_family.specs.Shapes.{fields_in};
ghost use Rattle.netlink_packet_core.specs.FrameWalk.{IsWholeFrame};
ghost use Rattle.netlink_lines.specs.Bytes.{fault_of, followed, frame_bytes, own_bytes, own_fields, rejected_bytes, told_bytes};
ghost use Rattle.netlink_lines.specs.Check.{check_of};

use crate::ack::{ack_attributes, meaning_of};
use crate::ack_table::Acknowledgements;
use crate::families::is_foreign;
use crate::messages::Shown;
use crate::requests::is_dump;
use netlink_family::byte_lines::{push_block_lines, push_field_lines, push_payload_lines};
use netlink_family::{Family, FamilyError, Field, MessageView, Shape};
use netlink_packet_core::{NETLINK_HEADER_LEN, NLMSG_DONE, NLMSG_ERROR, NetlinkBuffer};
use std::alloc::AllocError;

/// The offset in bytes of a payload in its frame.
const PAYLOAD: u64 = 16;

/// The fields of `struct nlmsghdr` of linux/netlink.h.
const HEADER_FIELDS: [Field; 5] = [
    ("nlmsg_len", 0, Shape::U32),
    ("nlmsg_type", 4, Shape::U16),
    ("nlmsg_flags", 6, Shape::U16),
    ("nlmsg_seq", 8, Shape::U32),
    ("nlmsg_pid", 12, Shape::U32),
];

/// The fields of `struct nlmsgerr`, which has the header of the request.
const ERROR_FIELDS: [Field; 6] = [
    ("error", 0, Shape::I32),
    ("msg.nlmsg_len", 4, Shape::U32),
    ("msg.nlmsg_type", 8, Shape::U16),
    ("msg.nlmsg_flags", 10, Shape::U16),
    ("msg.nlmsg_seq", 12, Shape::U32),
    ("msg.nlmsg_pid", 16, Shape::U32),
];

/// The code of a done message.
const DONE_FIELDS: [Field; 1] = [("error", 0, Shape::I32)];

/// Appends the lines of the bytes of a frame to its lines. Requires that the bytes are one frame.
pub(crate) fn with_bytes<F: Family>(shown: Shown, frame: &[u8]) -> Result<Shown, AllocError>
    requires whole { IsWholeFrame frame.now }
    ensures { IfOk result (λ s. (string_bytes s.text, s.is_malformed)
        ≡ followed (frame_bytes (check_of F.Table) frame.now) (string_bytes shown.text, shown.is_malformed)) }
{
    let Shown {
        mut text,
        is_malformed,
    } = shown;
    push_frame::<F>(&mut text, frame)?;
    Ok(Shown { text, is_malformed })
}

/// Appends the lines of the bytes of a frame.
fn push_frame<F: Family>(text: &mut String, frame: &[u8]) -> Result<(), AllocError>
    requires whole { IsWholeFrame frame.now }
    ensures { OnOk result (string_bytes text.new ≡ string_bytes text.old
        ++ frame_bytes (check_of F.Table) frame.now) }
{
    push_field_lines(text, &HEADER_FIELDS, None, 0, &frame[..NETLINK_HEADER_LEN])?;
    let view = NetlinkBuffer::new(frame);
    match MessageView::<F>::new(view.message_type(), view.payload()) {
        Ok(message) => push_payload_lines::<F>(
            text,
            message.message_type,
            None,
            PAYLOAD,
            message.payload,
        ),
        Err(error) => push_rejected::<F>(text, frame, &error),
    }
}

/// Appends the lines of the payload in a frame that the family rejects with this error, with a mark
/// where the error is; or those of one that it does not describe.
fn push_rejected<F: Family>(
    text: &mut String,
    frame: &[u8],
    error: &FamilyError,
) -> Result<(), AllocError>
    requires whole { IsWholeFrame frame.now }
    ensures { OnOk result (string_bytes text.new ≡ string_bytes text.old
        ++ rejected_bytes (check_of F.Table) frame.now error.now) }
{
    if let FamilyError::UnknownType { .. } = error {
        return push_told(text, frame);
    }
    let view = NetlinkBuffer::new(frame);
    let message_type = view.message_type();
    let payload = view.payload();
    if is_dump(view.flags(), message_type) | is_foreign(message_type, payload) {
        return push_told(text, frame);
    }
    push_payload_lines::<F>(text, message_type, fault_of(error), PAYLOAD, payload)
}

/// Appends the lines of the payload in a frame that the family does not describe.
fn push_told(text: &mut String, frame: &[u8]) -> Result<(), AllocError>
    requires whole { IsWholeFrame frame.now }
    ensures { OnOk result (string_bytes text.new ≡ string_bytes text.old ++ told_bytes frame.now) }
{
    let view = NetlinkBuffer::new(frame);
    let item = meaning_of(frame);
    push_own(
        text,
        view.message_type(),
        view.payload(),
        ack_attributes(&item),
    )
}

/// Appends the lines of a payload that the family does not describe, before these attributes of an
/// extended acknowledgement.
fn push_own(
    text: &mut String,
    message_type: u16,
    payload: &[u8],
    attributes: &[u8],
) -> Result<(), AllocError>
    requires room { 16 + length payload.now < 2 ^ 64 }
    ensures { OnOk result (string_bytes text.new ≡ string_bytes text.old
        ++ own_bytes message_type payload.now attributes.now) }
{
    let size = payload.len().saturating_sub(attributes.len());
    push_field_lines(
        text,
        own_fields(message_type),
        None,
        PAYLOAD,
        &payload[..size],
    )?;
    let end = PAYLOAD + payload.len() as u64;
    push_block_lines::<Acknowledgements>(text, message_type, None, end, attributes)
}

/// Returns the fields of a payload that the family does not describe.
fn own_fields(message_type: u16) -> &'static [Field]
    ensures { fields_in result.now ≡ own_fields message_type }
{
    match message_type {
        NLMSG_ERROR => &ERROR_FIELDS,
        NLMSG_DONE => &DONE_FIELDS,
        _ => &[],
    }
}

/// Returns the offset of an error in a frame.
fn fault_of(error: &FamilyError) -> Option<u64>
    ensures { result ≡ fault_of error.now }
{
    match error {
        FamilyError::HeaderShort { .. } => Some(PAYLOAD),
        FamilyError::InvalidAttribute(error) => match u32::try_from(error.offset) {
            Ok(offset) => Some(PAYLOAD + u64::from(offset)),
            Err(_) => None,
        },
        _ => None,
    }
}
