//! What the kernel says in an error or done message, and the mark of an interrupted dump.

ghost use Rattle.std.specs.Prelude.{◌≡◌, IfOk, string_bytes};
ghost use Rattle.std.specs.Option.{option_copied};
ghost use Rattle.netlink_packet_core.specs.FrameWalk.{IsWholeFrame};
ghost use Rattle.netlink_replies.specs.Meaning.{meaning, shown_item};
ghost use Rattle.netlink_lines.specs.Ack.{IsSaid, IsWords, ack_attributes, ack_request, is_interrupted, text_words};

use crate::concern::{missing_words, place_words};
use netlink_packet_core::{DecodeError, NLM_F_DUMP_INTR, NetlinkBuffer};
use netlink_replies::{ExtendedAck, Replies, Reply, Request};
use netlink_words::text::sentence_text;
use std::alloc::{AllocError, Global};

/// Returns what a frame means by itself. Requires that the bytes are one frame.
pub(crate) fn meaning_of(frame: &[u8]) -> Option<Result<Reply<&[u8]>, DecodeError>>
    requires whole { IsWholeFrame frame.now }
    ensures item { shown_item result ≡ meaning frame.now }
{
    let request = Request {
        sequence_number: NetlinkBuffer::new(frame).sequence_number(),
        port_number: 0,
        is_dump: false,
        wants_ack: false,
    };
    Replies::new(request).take(frame)
}

/// Returns what the kernel says in a message that means this, if it is an error or done message: its
/// text after a colon, where in the request the attribute is that it complains of, and which attribute
/// the request lacks.
pub(crate) fn ack_words(
    alloc: Global,
    item: &Option<Result<Reply<&[u8]>, DecodeError>>,
) -> Result<String, AllocError>
    ensures words { IfOk result (λ words. IsWords (shown_item item.now) (string_bytes words)) }
{
    said(alloc, ack_attributes(item), ack_request(item))
}

/// Returns what the attributes of an extended acknowledgement say of a request.
fn said(alloc: Global, attributes: &[u8], request: &[u8]) -> Result<String, AllocError>
    ensures { IfOk result (λ words. IsSaid attributes.now request.now (string_bytes words)) }
{
    let ack = ExtendedAck { attributes };
    let text = text_words(alloc, ack.message())?;
    let place = place_words(alloc, &ack, request)?;
    let missing = missing_words(alloc, ack.missing_type(), ack.missing_nest())?;
    format!(in alloc; "{text}{place}{missing}")
}

/// Returns the attributes of an extended acknowledgement; nothing if the frame is another message.
pub(crate) fn ack_attributes<'a>(item: &Option<Result<Reply<&'a [u8]>, DecodeError>>) -> &'a [u8]
    ensures { result.now ≡ ack_attributes (shown_item item.now) }
{
    match item {
        Some(Ok(Reply::Done { attributes, .. })) => *attributes,
        Some(Ok(Reply::Acknowledged { attributes })) => *attributes,
        Some(Ok(Reply::Rejected { attributes, .. })) => *attributes,
        _ => &[],
    }
}

/// Returns the request, or its header, that an error refuses; nothing if the frame is another message.
fn ack_request<'a>(item: &Option<Result<Reply<&'a [u8]>, DecodeError>>) -> &'a [u8]
    ensures { result.now ≡ ack_request (shown_item item.now) }
{
    match item {
        Some(Ok(Reply::Rejected { request, .. })) => *request,
        _ => &[],
    }
}

/// Returns a text after a colon, if there is one.
fn text_words(alloc: Global, text: Option<&[u8]>) -> Result<String, AllocError>
    ensures { IfOk result (λ words. string_bytes words ≡ text_words (option_copied text.entry)) }
{
    match text {
        Some(text) => {
            let sentence = sentence_text(alloc, text)?;
            format!(in alloc; ": {sentence}")
        }
        None => Ok(String::new(alloc)),
    }
}

/// Returns whether the flags are those of a message of an interrupted dump.
pub(crate) fn is_interrupted(flags: u16) -> bool
    ensures { result ≡ is_interrupted flags }
{
    flags & NLM_F_DUMP_INTR != 0
}
