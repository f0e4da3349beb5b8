//! What a message is shown as.

ghost use Rattle.std.specs.Prelude.{◌≡◌, false, IfOk, OnOk, if◌then◌else◌, string_bytes};
ghost use Rattle.netlink_lines.specs.Check.{check_of};
ghost use Rattle.netlink_packet_core.specs.FrameWalk.{IsWholeFrame};
ghost use Rattle.netlink_packet_core.specs.Header.{header_of, payload_of};
ghost use Rattle.netlink_replies.specs.Meaning.{shown_item};
ghost use Rattle.netlink_lines.specs.Ack.{marked_if};
ghost use Rattle.netlink_lines.specs.Lines.{known_by, route_line};
ghost use Rattle.netlink_family.specs.ErrorTexts.{error_text};
ghost use Rattle.netlink_packet_core.specs.Refusal.{refusal_text};
ghost use Rattle.netlink_lines.specs.Time.{time_why};
ghost use Rattle.netlink_lines.specs.Messages.{HasLines, TellsMessage, bad, error_lines, family_lines, good, is_named, item_lines, known_after, line_or_type, memory_of, own_lines, rejected_lines, timed, type_line, wrong_time};

use crate::ack::{ack_words, is_interrupted, meaning_of};
use crate::families::is_foreign;
use crate::line::{Line, done_line, error_line};
use crate::options::{Options, labelled};
use crate::requests::{asked_line, is_dump, is_request};
use crate::state::State;
use crate::time::{NLMSG_TSTAMP, time_in, time_text};
use netlink_family::{FamilyError, MessageView};
use netlink_input::time::Time;
use netlink_names::name_table::{NameTable, Names};
use netlink_packet_core::{DecodeError, NetlinkBuffer};
use netlink_replies::Reply;
use netlink_route::links::{RTM_DELLINK, RTM_NEWLINK};
use std::alloc::{AllocError, Global};

/// The lines of a message.
#[derive(Drop)]
pub(crate) struct Shown {
    /// The lines, each with its line feed.
    pub(crate) text: String,
    /// Whether the message is malformed, so that the line is its error.
    pub(crate) is_malformed: bool,
}

/// The lowest type of a message that is neither a control message nor a time (`NLMSG_MIN_TYPE` of
/// linux/netlink.h).
const MIN_TYPE: u16 = 16;

/// Returns the lines of a message as `next::next_lines` does, without those of its bytes. Inline, since most
/// messages have no others.
#[inline(always)]
pub(crate) fn message_lines<F: Line>(
    alloc: Global,
    state: &mut State,
    at: u64,
    frame: &[u8],
) -> Result<Shown, AllocError>
    requires whole { IsWholeFrame frame.now }
    ensures tells { IfOk result (λ s. TellsMessage (check_of F.Table) at frame.now
        (memory_of state.old) (string_bytes s.text, s.is_malformed) (memory_of state.new)) }
{
    let before = state.time;
    let options = state.options;
    let stamp = state.stamp;
    // Most messages are of the family, so this is checked first.
    if NetlinkBuffer::new(frame).message_type() >= MIN_TYPE {
        let shown = family_shown::<F>(alloc, options, &mut state.known, at, frame)?;
        state.time = stamp;
        let shown = marked(alloc, NetlinkBuffer::new(frame).flags(), shown)?;
        return timed(alloc, before, shown);
    }
    let time = time_in(frame);
    match time {
        Some(_) => {
            state.time = time;
            Ok(well_formed(String::new(alloc)))
        }
        None => {
            state.time = state.stamp;
            let shown = lines_of::<F>(alloc, options, &state.known.names(), at, frame)?;
            timed(alloc, before, shown)
        }
    }
}

/// Updates the names of links by the message of the family in a frame, and returns its lines. Checks
/// the payload once for both. Requires that the bytes are one frame.
fn family_shown<F: Line>(
    alloc: Global,
    options: Options,
    known: &mut NameTable,
    at: u64,
    frame: &[u8],
) -> Result<Shown, AllocError>
    requires whole { IsWholeFrame frame.now }
    ensures names { OnOk result (known.new ≡ known_after (check_of F.Table)
        frame.now known.old) }
    ensures lines { IfOk result (λ s. (string_bytes s.text, s.is_malformed) ≡ family_lines options known.new at frame.now
        ((check_of F.Table).error (header_of frame.now).message_type (payload_of frame.now))) }
{
    let view = NetlinkBuffer::new(frame);
    let flags = view.flags();
    let message_type = view.message_type();
    match MessageView::<F>::new(message_type, view.payload()) {
        Ok(message) => {
            learn::<F>(alloc, known, flags, &message)?;
            message_shown::<F>(alloc, options, &known.names(), flags, frame.len(), &message)
        }
        Err(error) => rejected(alloc, at, frame, &error),
    }
}

/// Updates the names of links by a message with these flags. A request changes none.
pub(crate) fn learn<F: Line>(
    alloc: Global,
    known: &mut NameTable,
    flags: u16,
    message: &MessageView<'_, F>,
) -> Result<(), AllocError>
    ensures { OnOk result (known.new
        ≡ (if is_named flags message.now.message_type
        then known_by (message.now.message_type, message.now.payload.now) known.old else known.old)) }
{
    if !is_named(flags, message.message_type) {
        return Ok(());
    }
    F::learn_by(alloc, known, message)
}

/// Returns whether messages with these flags and of this type tell the names of links.
fn is_named(flags: u16, message_type: u16) -> bool
    ensures { result ≡ is_named flags message_type }
{
    let is_of_link = (message_type == RTM_NEWLINK) | (message_type == RTM_DELLINK);
    is_of_link & !is_request(flags, message_type)
}

/// Returns lines with a time before them, if there is one. Inline, since most lines have none.
#[inline(always)]
fn timed(alloc: Global, time: Option<Time>, shown: Shown) -> Result<Shown, AllocError>
    ensures { IfOk result (λ s. (string_bytes s.text, s.is_malformed)
        ≡ timed time (string_bytes shown.text, shown.is_malformed)) }
{
    match time {
        None => Ok(shown),
        Some(time) => {
            let Shown { text, is_malformed } = shown;
            let before = time_text(alloc, time)?;
            let text = format!(in alloc; "{before}{text}")?;
            Ok(Shown { text, is_malformed })
        }
    }
}

/// Returns the lines of the message in a frame at this offset of the input, by the known names of
/// links. Requires that the bytes are one frame. `next_lines` calls it for types below 16 only, since
/// `family_shown` makes the lines of the others.
///
/// The line of a message of a known type is that of the family or, if the family has none, its type
/// and size, as for an unknown type. Control messages are `done`, with its code if that is not 0;
/// `error` and its code, a negative errno, or `ack` if it is 0; `noop`; `overrun`. What the kernel says
/// follows the code: its text, and the attribute that it complains of. The line of a malformed message is its error. A line `interrupted` comes first
/// if the flags have `NLM_F_DUMP_INTR`. Returns `AllocError` if an allocation fails.
fn lines_of<F: Line>(
    alloc: Global,
    options: Options,
    known: &Names<'_>,
    at: u64,
    frame: &[u8],
) -> Result<Shown, AllocError>
    requires whole { IsWholeFrame frame.now }
    ensures lines { IfOk result (λ s. HasLines (check_of F.Table) options known.now at
        frame.now (string_bytes s.text, s.is_malformed)) }
{
    let item = meaning_of(frame);
    let words = ack_words(alloc, &item)?;
    let shown = item_shown::<F>(alloc, options, known, at, frame, words.as_str(), item)?;
    marked(alloc, NetlinkBuffer::new(frame).flags(), shown)
}

/// Returns lines, and `interrupted` before them if these are the flags of a message of an
/// interrupted dump. Inline, since few are.
#[inline(always)]
fn marked(alloc: Global, flags: u16, shown: Shown) -> Result<Shown, AllocError>
    ensures { IfOk result (λ s. (string_bytes s.text, s.is_malformed)
        ≡ marked_if flags (string_bytes shown.text, shown.is_malformed)) }
{
    if !is_interrupted(flags) {
        return Ok(shown);
    }
    let Shown { text, is_malformed } = shown;
    let text = format!(in alloc; "interrupted\n{text}")?;
    Ok(Shown { text, is_malformed })
}

/// Returns the lines of a frame by what it means, and by what the kernel says in it.
fn item_shown<F: Line>(
    alloc: Global,
    options: Options,
    known: &Names<'_>,
    at: u64,
    frame: &[u8],
    words: &str,
    item: Option<Result<Reply<&[u8]>, DecodeError>>,
) -> Result<Shown, AllocError>
    requires whole { IsWholeFrame frame.now }
    ensures { IfOk result (λ s. (string_bytes s.text, s.is_malformed)
        ≡ item_lines (check_of F.Table) options known.now at frame.now
        words.now (shown_item item.entry)) }
{
    let line = match item {
        None => String::from_str(alloc, "noop\n")?,
        Some(Err(error)) => return malformed(alloc, at, error.to_string(alloc)?.as_str()),
        Some(Ok(Reply::Done { code, .. })) => done_line(alloc, code, words)?,
        Some(Ok(Reply::Acknowledged { .. })) => error_line(alloc, 0, words)?,
        Some(Ok(Reply::Rejected { code, .. })) => error_line(alloc, code, words)?,
        Some(Ok(Reply::Overrun)) => String::from_str(alloc, "overrun\n")?,
        Some(Ok(Reply::Message(_))) => return own_shown::<F>(alloc, options, known, at, frame),
        Some(Ok(Reply::Other(_))) => return own_shown::<F>(alloc, options, known, at, frame),
    };
    Ok(well_formed(line))
}

/// Returns the lines of a message that is not a control message. Its type is below 16, as `lines_of`
/// calls it.
fn own_shown<F: Line>(
    alloc: Global,
    options: Options,
    known: &Names<'_>,
    at: u64,
    frame: &[u8],
) -> Result<Shown, AllocError>
    requires whole { IsWholeFrame frame.now }
    ensures { IfOk result (λ s. (string_bytes s.text, s.is_malformed)
        ≡ own_lines (check_of F.Table) options known.now at frame.now) }
{
    let view = NetlinkBuffer::new(frame);
    let message_type = view.message_type();
    if message_type == NLMSG_TSTAMP {
        return wrong_time(alloc, at, view.payload());
    }
    match MessageView::<F>::new(message_type, view.payload()) {
        Ok(message) => message_shown::<F>(
            alloc,
            options,
            known,
            view.flags(),
            frame.len(),
            &message,
        ),
        Err(error) => rejected(alloc, at, frame, &error),
    }
}

/// Returns the line of a message without errors, whose frame has these flags and this size.
fn message_shown<F: Line>(
    alloc: Global,
    options: Options,
    known: &Names<'_>,
    flags: u16,
    size: usize,
    message: &MessageView<'_, F>,
) -> Result<Shown, AllocError>
    ensures { IfOk result (λ s. (string_bytes s.text, s.is_malformed)
        ≡ good (line_or_type options flags message.now.message_type size message.now.payload.now
        (route_line known.now (message.now.message_type, message.now.payload.now)))) }
{
    match F::line_by(alloc, known, message)? {
        Some(line) => {
            let line = asked_line(alloc, flags, message.message_type, line)?;
            if options.labels {
                let line = labelled(alloc, message.message_type, message.payload, line.as_str())?;
                return Ok(well_formed(line));
            }
            Ok(well_formed(line))
        }
        None => Ok(well_formed(type_line(alloc, message.message_type, size)?)),
    }
}

/// Returns the line of a message whose family rejects its payload with this error: the error, or the
/// line of its type if it asks for a dump, of which the kernel reads the family alone, or if no table
/// describes its address family. Requires that the bytes are one frame.
fn rejected(alloc: Global, at: u64, frame: &[u8], error: &FamilyError) -> Result<Shown, AllocError>
    requires whole { IsWholeFrame frame.now }
    ensures { IfOk result (λ s. (string_bytes s.text, s.is_malformed)
        ≡ rejected_lines at frame.now error.now) }
{
    let view = NetlinkBuffer::new(frame);
    let message_type = view.message_type();
    let is_asked = is_dump(view.flags(), message_type);
    if is_asked | is_foreign(message_type, view.payload()) {
        return Ok(well_formed(type_line(alloc, message_type, frame.len())?));
    }
    error_shown(alloc, at, message_type, frame.len(), error)
}

/// Returns the line of a message whose payload has this error: the error, or the line of its type if
/// no table has it.
fn error_shown(
    alloc: Global,
    at: u64,
    message_type: u16,
    size: usize,
    error: &FamilyError,
) -> Result<Shown, AllocError>
    ensures { IfOk result (λ s. (string_bytes s.text, s.is_malformed)
        ≡ error_lines at message_type size error.now) }
{
    match error {
        FamilyError::UnknownType { .. } => {
            Ok(well_formed(type_line(alloc, message_type, size)?))
        }
        _ => {
            let why = parse_why(alloc, message_type, error)?;
            malformed(alloc, at, why.as_str())
        }
    }
}

/// Returns why a message with this type is malformed, by the error of its payload.
pub(crate) fn parse_why(
    alloc: Global,
    message_type: u16,
    error: &FamilyError,
) -> Result<String, AllocError>
    ensures { IfOk result (λ why. string_bytes why ≡ refusal_text message_type (error_text error.now)) }
{
    format!(in alloc; "Failed to parse message with type {message_type}: {error}")
}

/// Returns the line of a message with the type of a time, whose payload is none.
fn wrong_time(alloc: Global, at: u64, payload: &[u8]) -> Result<Shown, AllocError>
    ensures { IfOk result (λ s. (string_bytes s.text, s.is_malformed) ≡ wrong_time at payload.now) }
{
    let why = time_why(alloc, payload)?;
    malformed(alloc, at, why.as_str())
}

/// Returns why a message with the type of a time is malformed.
pub(crate) fn time_why(alloc: Global, payload: &[u8]) -> Result<String, AllocError>
    ensures { IfOk result (λ why. string_bytes why ≡ refusal_text 15 (time_why payload.now)) }
{
    let message_type = NLMSG_TSTAMP;
    let size = payload.len();
    format!(in alloc;
        "Failed to parse message with type {message_type}: the payload has {size} bytes instead of 8"
    )
}

/// Returns the line of a message without a line of its own, by its type and its size in bytes.
fn type_line(alloc: Global, message_type: u16, size: usize) -> Result<String, AllocError>
    ensures { IfOk result (λ line. string_bytes line ≡ type_line message_type size) }
{
    format!(in alloc; "type {message_type}, {size} bytes\n")
}

/// Returns the line of a malformed message at this offset, with its error.
pub(crate) fn malformed(alloc: Global, at: u64, why: &str) -> Result<Shown, AllocError>
    ensures { IfOk result (λ s. (string_bytes s.text, s.is_malformed) ≡ bad at why.now) }
{
    let text = format!(in alloc; "byte {at}: {why}\n")?;
    Ok(Shown {
        text,
        is_malformed: true,
    })
}

/// Returns the line of a message that is not malformed.
pub(crate) fn well_formed(text: String) -> Shown
    ensures { (string_bytes result.text, result.is_malformed) ≡ good (string_bytes text) }
{
    Shown {
        text,
        is_malformed: false,
    }
}
