//! The object of JSON that a message is shown as.

ghost use Rattle.std.specs.Prelude.{◌≡◌, IfOk, OnOk, drop, false, string_bytes};
ghost use Rattle.netlink_json.specs.Fields.{AddsAll, AddsParts, written};
ghost use Rattle.netlink_lines.specs.Check.{check_of};
ghost use Rattle.netlink_lines.specs.Messages.{TellsObject, known_after, memory_of};
ghost use Rattle.netlink_lines.specs.Objects.{AddsShown, bad_fields, bad_parts, control_parts, error_parts, front_parts, header_fields, item_parts, line_of, lined, message_parts, named_parts, own_parts, rejected_parts, time_fields, type_parts};
ghost use Rattle.netlink_lines.specs.Members.{route_parts};
ghost use Rattle.netlink_packet_core.specs.FrameWalk.{IsWholeFrame};
ghost use Rattle.netlink_packet_core.specs.Header.{header_of, payload_of};
ghost use Rattle.netlink_replies.specs.Meaning.{shown_item};

use crate::ack::{ack_words, is_interrupted, meaning_of};
use crate::families::is_foreign;
use crate::line::Line;
use crate::members::message_name;
use crate::messages::{Shown, learn, parse_why, time_why, well_formed};
use crate::requests::{is_dump, is_request};
use crate::state::State;
use crate::system_errors::error_name;
use crate::time::{NLMSG_TSTAMP, time_in};
use netlink_family::{FamilyError, MessageView};
use netlink_input::time::Time;
use netlink_json::Object;
use netlink_names::name_table::{NameTable, Names};
use netlink_objects::form::{put_bytes, put_true, put_word};
use netlink_packet_core::{DecodeError, NetlinkBuffer};
use netlink_replies::Reply;
use std::alloc::{AllocError, Global};

/// Returns the object of the message in a frame at this offset of the input, as a line, after the
/// messages that left this state, and updates the state. Requires that the bytes are one frame.
///
/// What it depends on is as for the lines of a message. A time has no object: it is in the object of the
/// next message, unless that is a time too. Returns `AllocError` if an allocation fails.
pub(crate) fn object_shown<F: Line>(
    alloc: Global,
    state: &mut State,
    at: u64,
    frame: &[u8],
) -> Result<Shown, AllocError>
    requires whole { IsWholeFrame frame.now }
    ensures tells { IfOk result (λ s. TellsObject (check_of F.Table) at frame.now
        (memory_of state.old) (string_bytes s.text, s.is_malformed) (memory_of state.new)) }
{
    let before = state.time;
    let time = time_in(frame);
    match time {
        Some(_) => {
            state.time = time;
            Ok(well_formed(String::new(alloc)))
        }
        None => {
            learn_frame::<F>(alloc, &mut state.known, frame)?;
            state.time = state.stamp;
            let item = meaning_of(frame);
            let words = ack_words(alloc, &item)?;
            let known = state.known.names();
            frame_object::<F>(alloc, &known, before, at, frame, words.as_str(), item)
        }
    }
}

/// Updates the names of links by the message in a frame. Requires that the bytes are one frame.
fn learn_frame<F: Line>(
    alloc: Global,
    known: &mut NameTable,
    frame: &[u8],
) -> Result<(), AllocError>
    requires whole { IsWholeFrame frame.now }
    ensures names { OnOk result (known.new ≡ known_after (check_of F.Table) frame.now known.old) }
{
    match MessageView::<F>::new(type_of(frame), payload_of(frame)) {
        Ok(message) => learn::<F>(alloc, known, flags_of(frame), &message),
        Err(_) => Ok(()),
    }
}

/// Returns the object of a frame by what it means and by what the kernel says in it, after this time.
fn frame_object<F: Line>(
    alloc: Global,
    known: &Names<'_>,
    time: Option<Time>,
    at: u64,
    frame: &[u8],
    words: &str,
    item: Option<Result<Reply<&[u8]>, DecodeError>>,
) -> Result<Shown, AllocError>
    requires whole { IsWholeFrame frame.now }
    ensures { IfOk result (λ s. (string_bytes s.text, s.is_malformed)
        ≡ line_of (front_parts time frame.now)
        (item_parts (check_of F.Table) known.now at frame.now words.now (shown_item item.entry))) }
{
    let mut object = Object::new(alloc);
    put_time(&mut object, time)?;
    put_true(&mut object, "interrupted", is_interrupted(flags_of(frame)))?;
    let is_malformed = put_item::<F>(alloc, &mut object, known, at, frame, words, item)?;
    object_line(alloc, object, is_malformed)
}

/// Returns an object as a line.
pub(crate) fn object_line(
    alloc: Global,
    object: Object,
    is_malformed: bool,
) -> Result<Shown, AllocError>
    ensures { IfOk result (λ s. (string_bytes s.text, s.is_malformed) ≡ lined (written object) is_malformed) }
{
    let mut text = object.into_text(alloc)?;
    text.push_str("\n")?;
    Ok(Shown { text, is_malformed })
}

/// Appends a time, if there is one.
fn put_time(object: &mut Object, time: Option<Time>) -> Result<(), AllocError>
    ensures { OnOk result (AddsAll object.old object.new (time_fields time)) }
{
    match time {
        None => Ok(()),
        Some(time) => {
            object.put_number("sec", time.seconds)?;
            object.put_number("usec", time.micros as u64)
        }
    }
}

/// Appends the flags, the sequence number and the port number of a message. Requires that the bytes are
/// one frame.
fn put_header(object: &mut Object, frame: &[u8]) -> Result<(), AllocError>
    requires whole { IsWholeFrame frame.now }
    ensures { OnOk result (AddsAll object.old object.new (header_fields frame.now)) }
{
    object.put_number("nlmsg_flags", flags_of(frame) as u64)?;
    object.put_number("nlmsg_seq", sequence_of(frame) as u64)?;
    object.put_number("nlmsg_pid", port_of(frame) as u64)
}

/// Returns the type of the message in a frame. Requires that the bytes are one frame.
fn type_of(frame: &[u8]) -> u16
    requires whole { IsWholeFrame frame.now }
    ensures { result ≡ (header_of frame.now).message_type }
{
    NetlinkBuffer::new(frame).message_type()
}

/// Returns the flags in the same way.
fn flags_of(frame: &[u8]) -> u16
    requires whole { IsWholeFrame frame.now }
    ensures { result ≡ (header_of frame.now).flags }
{
    NetlinkBuffer::new(frame).flags()
}

/// Returns the sequence number in the same way.
fn sequence_of(frame: &[u8]) -> u32
    requires whole { IsWholeFrame frame.now }
    ensures { result ≡ (header_of frame.now).sequence_number }
{
    NetlinkBuffer::new(frame).sequence_number()
}

/// Returns the port number in the same way.
fn port_of(frame: &[u8]) -> u32
    requires whole { IsWholeFrame frame.now }
    ensures { result ≡ (header_of frame.now).port_number }
{
    NetlinkBuffer::new(frame).port_number()
}

/// Returns the payload in the same way.
fn payload_of(frame: &[u8]) -> &[u8]
    requires whole { IsWholeFrame frame.now }
    ensures { result.now ≡ payload_of frame.now }
{
    NetlinkBuffer::new(frame).payload()
}

/// Appends the members of a frame by what it means, and by what the kernel says in it. Returns whether
/// the message is malformed.
fn put_item<F: Line>(
    alloc: Global,
    object: &mut Object,
    known: &Names<'_>,
    at: u64,
    frame: &[u8],
    words: &str,
    item: Option<Result<Reply<&[u8]>, DecodeError>>,
) -> Result<bool, AllocError>
    requires whole { IsWholeFrame frame.now }
    ensures { IfOk result (λ bad. AddsShown object.old object.new bad
        (item_parts (check_of F.Table) known.now at frame.now words.now (shown_item item.entry))) }
{
    match item {
        None => put_named(alloc, object, frame, "NLMSG_NOOP"),
        Some(Err(error)) => { put_bad(alloc, object, at, frame, error.to_string(alloc)?.as_str()) }
        Some(Ok(Reply::Done { code, .. })) => {
            put_control(alloc, object, frame, "NLMSG_DONE", code, words)
        }
        Some(Ok(Reply::Acknowledged { .. })) => {
            put_control(alloc, object, frame, "NLMSG_ERROR", 0, words)
        }
        Some(Ok(Reply::Rejected { code, .. })) => {
            put_control(alloc, object, frame, "NLMSG_ERROR", code, words)
        }
        Some(Ok(Reply::Overrun)) => put_named(alloc, object, frame, "NLMSG_OVERRUN"),
        Some(Ok(Reply::Message(_))) => put_own::<F>(alloc, object, known, at, frame),
        Some(Ok(Reply::Other(_))) => put_own::<F>(alloc, object, known, at, frame),
    }
}

/// Appends the members of a control message by its name. Returns false: it is not malformed.
fn put_named(
    alloc: Global,
    object: &mut Object,
    frame: &[u8],
    name: &str,
) -> Result<bool, AllocError>
    requires whole { IsWholeFrame frame.now }
    ensures { IfOk result (λ bad. AddsShown object.old object.new bad (named_parts frame.now name.now, false)) }
{
    object.put_text(alloc, "message", name.as_bytes())?;
    put_header(object, frame)?;
    Ok(false)
}

/// Appends the members of an error or done message: its code, the name of the error, and what the kernel
/// says. Returns false: it is not malformed.
fn put_control(
    alloc: Global,
    object: &mut Object,
    frame: &[u8],
    name: &str,
    code: i32,
    words: &str,
) -> Result<bool, AllocError>
    requires whole { IsWholeFrame frame.now }
    ensures { IfOk result (λ bad. AddsShown object.old object.new bad
        (control_parts frame.now name.now code words.now, false)) }
{
    object.put_text(alloc, "message", name.as_bytes())?;
    put_header(object, frame)?;
    object.put_signed("code", code as i64)?;
    put_word(alloc, object, "strerror", error_name(code.unsigned_abs()))?;
    // A colon or a semicolon and a space come before what the kernel says.
    put_bytes(alloc, object, "text", after_two(words))?;
    Ok(false)
}

/// Returns a text without its first two bytes.
#[tactic(auto, using(std::proofs::lemmas::List::drop_all))]
fn after_two(words: &str) -> &[u8]
    ensures { result.now ≡ drop 2 words.now }
{
    let bytes = words.as_bytes();
    if bytes.len() < 2 {
        return &[];
    }
    &bytes[2..]
}

/// Appends the members of a message that is not a control message. Returns whether it is malformed.
fn put_own<F: Line>(
    alloc: Global,
    object: &mut Object,
    known: &Names<'_>,
    at: u64,
    frame: &[u8],
) -> Result<bool, AllocError>
    requires whole { IsWholeFrame frame.now }
    ensures { IfOk result (λ bad. AddsShown object.old object.new bad
        (own_parts (check_of F.Table) known.now at frame.now)) }
{
    let message_type = type_of(frame);
    if message_type == NLMSG_TSTAMP {
        let why = time_why(alloc, payload_of(frame))?;
        return put_bad(alloc, object, at, frame, why.as_str());
    }
    match MessageView::<F>::new(message_type, payload_of(frame)) {
        Ok(message) => put_message::<F>(alloc, object, known, frame, &message),
        Err(error) => put_rejected(alloc, object, at, frame, &error),
    }
}

/// Appends the members of a message without errors: its name, its header, whether it is a request, and
/// those of its family; or those of its type if that has no name. Returns false: it is not malformed.
fn put_message<F: Line>(
    alloc: Global,
    object: &mut Object,
    known: &Names<'_>,
    frame: &[u8],
    message: &MessageView<'_, F>,
) -> Result<bool, AllocError>
    requires whole { IsWholeFrame frame.now }
    ensures { IfOk result (λ bad. AddsShown object.old object.new bad
        (message_parts frame.now (route_parts known.now (message.now.message_type, message.now.payload.now)), false)) }
{
    let name = message_name(type_of(frame));
    if name.is_empty() {
        put_type(object, frame)?;
        return Ok(false);
    }
    object.put_text(alloc, "message", name.as_bytes())?;
    put_header(object, frame)?;
    let is_asked = is_request(flags_of(frame), type_of(frame));
    put_true(object, "request", is_asked)?;
    F::put_members(alloc, object, known, message)?;
    Ok(false)
}

/// Appends the members of a message whose payload has this error: the offset and the error, or those of
/// its type if it asks for a dump, or no table has its type or its address family. Returns whether the
/// message is malformed.
fn put_rejected(
    alloc: Global,
    object: &mut Object,
    at: u64,
    frame: &[u8],
    error: &FamilyError,
) -> Result<bool, AllocError>
    requires whole { IsWholeFrame frame.now }
    ensures { IfOk result (λ bad. AddsShown object.old object.new bad
        (rejected_parts at frame.now error.now)) }
{
    let message_type = type_of(frame);
    let is_asked = is_dump(flags_of(frame), message_type);
    if is_asked | is_foreign(message_type, payload_of(frame)) {
        put_type(object, frame)?;
        return Ok(false);
    }
    put_error(alloc, object, at, frame, error)
}

/// Appends the offset and the error of a payload, or the members of its type if no table has it.
fn put_error(
    alloc: Global,
    object: &mut Object,
    at: u64,
    frame: &[u8],
    error: &FamilyError,
) -> Result<bool, AllocError>
    requires whole { IsWholeFrame frame.now }
    ensures { IfOk result (λ bad. AddsShown object.old object.new bad (error_parts at frame.now error.now)) }
{
    match error {
        FamilyError::UnknownType { .. } => {
            put_type(object, frame)?;
            Ok(false)
        }
        _ => {
            let why = parse_why(alloc, type_of(frame), error)?;
            put_bad(alloc, object, at, frame, why.as_str())
        }
    }
}

/// Appends the type, the size and the header of a message without members of its own.
fn put_type(object: &mut Object, frame: &[u8]) -> Result<(), AllocError>
    requires whole { IsWholeFrame frame.now }
    ensures { OnOk result (AddsParts object.old object.new (type_parts frame.now)) }
{
    object.put_number("type", type_of(frame) as u64)?;
    object.put_number("bytes", frame.len() as u64)?;
    put_header(object, frame)
}

/// Appends the offset of a malformed message, its error and its header. Returns true: it is malformed.
fn put_bad(
    alloc: Global,
    object: &mut Object,
    at: u64,
    frame: &[u8],
    why: &str,
) -> Result<bool, AllocError>
    requires whole { IsWholeFrame frame.now }
    ensures { IfOk result (λ bad. AddsShown object.old object.new bad (bad_parts at frame.now why.now)) }
{
    put_why(alloc, object, at, why)?;
    put_header(object, frame)?;
    Ok(true)
}

/// Appends the offset of something malformed, and its error.
pub(crate) fn put_why(
    alloc: Global,
    object: &mut Object,
    at: u64,
    why: &str,
) -> Result<(), AllocError>
    ensures { OnOk result (AddsAll object.old object.new (bad_fields at why.now)) }
{
    object.put_number("byte", at)?;
    object.put_text(alloc, "error", why.as_bytes())
}
