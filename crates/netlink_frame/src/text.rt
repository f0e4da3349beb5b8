//! What the program prints for a message.

ghost use Rattle.std.specs.Prelude.{◌≡◌, ◌++◌, IfOk, IfErr, OnOk, codes, string_bytes};
ghost use Rattle.std.specs.Fmt.{signed_decimal};
ghost use Rattle.netlink_packet_core.specs.Header.{header_lines};
ghost use Rattle.netlink_packet_core.specs.Text.{hex_text, number_line};
ghost use Rattle.netlink_frame.specs.Lines.{message_lines, payload_words};

use crate::ping_pong::PingPongMessage;
use netlink_packet_core::{DecodeError, NetlinkHeader, NetlinkMessage, NetlinkPayload, push_hex};
use std::alloc::{AllocError, Global};

/// Returns the six lines of a message: one for each field of its header, in decimal, and one for
/// its payload. Bytes are two lower-case hexadecimal digits each, or `-` if there are none. Returns
/// `OutOfMemory`, and no other error, if an allocation fails.
pub fn show_text(
    alloc: Global,
    message: &NetlinkMessage<PingPongMessage>,
) -> Result<String, DecodeError>
    ensures lines { IfOk result (λ text. string_bytes text ≡ message_lines message.now) }
    ensures memory { IfErr result (λ e. e ≡ DecodeError.OutOfMemory) }
{
    let mut text = header_text(alloc, &message.header)?;
    text.push_str("payload ")?;
    push_payload(alloc, &mut text, &message.payload)?;
    text.push_str("\n")?;
    Ok(text)
}

/// Returns the five lines of a header, or `AllocError` if an allocation fails.
fn header_text(alloc: Global, header: &NetlinkHeader) -> Result<String, AllocError>
    ensures { IfOk result (λ text. string_bytes text ≡ header_lines header.now) }
{
    let mut text = number_text(alloc, "length ", header.length)?;
    text.push_str(number_text(alloc, "type ", u32::from(header.message_type))?.as_str())?;
    text.push_str(number_text(alloc, "flags ", u32::from(header.flags))?.as_str())?;
    text.push_str(number_text(alloc, "sequence ", header.sequence_number)?.as_str())?;
    text.push_str(number_text(alloc, "port ", header.port_number)?.as_str())?;
    Ok(text)
}

/// Returns a line with a name and a number in decimal, or `AllocError` if an allocation fails.
fn number_text(alloc: Global, name: &str, number: u32) -> Result<String, AllocError>
    ensures { IfOk result (λ text. string_bytes text ≡ number_line name.now number) }
{
    format!(in alloc; "{name}{number}\n")
}

/// Appends the name of a payload, and the code and the bytes that it has. Returns `AllocError` if
/// an allocation fails.
fn push_payload(
    alloc: Global,
    text: &mut String,
    payload: &NetlinkPayload<PingPongMessage>,
) -> Result<(), AllocError>
    ensures { OnOk result
        (string_bytes text.new ≡ string_bytes text.old ++ payload_words payload.now) }
{
    match payload {
        NetlinkPayload::Noop => text.push_str("noop"),
        NetlinkPayload::Done(body) => push_coded(
            alloc,
            text,
            "done ",
            body.code,
            &body.extended_ack,
        ),
        NetlinkPayload::Error(body) => push_coded(
            alloc,
            text,
            "error ",
            body.raw_code(),
            &body.header,
        ),
        NetlinkPayload::Overrun(bytes) => push_named(text, "overrun ", bytes),
        NetlinkPayload::InnerMessage(PingPongMessage::Ping(bytes)) => {
            push_named(text, "ping ", bytes)
        }
        NetlinkPayload::InnerMessage(PingPongMessage::Pong(bytes)) => {
            push_named(text, "pong ", bytes)
        }
    }
}

/// Appends a name, a code in decimal, a space, and the bytes as they are printed. Returns
/// `AllocError` if an allocation fails.
fn push_coded(
    alloc: Global,
    text: &mut String,
    name: &str,
    code: i32,
    bytes: &[u8],
) -> Result<(), AllocError>
    ensures { OnOk result
        (string_bytes text.new
        ≡ string_bytes text.old
        ++ (name.now ++ (signed_decimal code ++ (codes " " ++ hex_text bytes.now)))) }
{
    text.push_str(code_text(alloc, name, code)?.as_str())?;
    push_hex(text, bytes)?;
    Ok(())
}

/// Returns a name, a code in decimal and a space, or `AllocError` if an allocation fails.
fn code_text(alloc: Global, name: &str, code: i32) -> Result<String, AllocError>
    ensures { IfOk result
        (λ text. string_bytes text ≡ name.now ++ (signed_decimal code ++ codes " ")) }
{
    format!(in alloc; "{name}{code} ")
}

/// Appends a name, and the bytes as they are printed. Returns `AllocError` if an allocation fails.
fn push_named(text: &mut String, name: &str, bytes: &[u8]) -> Result<(), AllocError>
    ensures { OnOk result
        (string_bytes text.new ≡ string_bytes text.old ++ (name.now ++ hex_text bytes.now)) }
{
    text.push_str(name)?;
    push_hex(text, bytes)?;
    Ok(())
}
