//! Words that these lines share.

ghost use Rattle.std.specs.Prelude.{◌≡◌, ◌≤◌, ◌+◌, IfOk, OnOk, length, string_bytes};
ghost use Rattle.std.specs.Option.{option_copied};
ghost use Rattle.netlink_bridge_lines.specs.Words.{byte_in, byte_of, front, number_in, number_of, range_text, value_in, verb};
ghost use Rattle.netlink_packet_core.specs.Fields.{number_at};
ghost use Rattle.netlink_words.specs.Parts.{AddsPart, AddsParts, number_part};

use netlink_names::device::device_name;
use netlink_names::name_table::Names;
use netlink_packet_core::{parse_u64, u32_at};
use netlink_shapes::find::first_value;
use netlink_words::parts::{or_empty, push_number, push_part};
use std::alloc::{AllocError, Global};

/// Returns the verb of a message type.
#[tactic(auto, unfolding(crate::specs::Words::verb))]
pub(crate) fn verb_text(message_type: u16) -> &'static str
    ensures { result.now ≡ verb message_type }
{
    match message_type % 4 {
        1 => "Deleted",
        2 => "Get",
        3 => "Set",
        _ => "",
    }
}

/// Appends the verb of a message type, and the name of a link.
#[tactic(auto, unfolding(crate::specs::Words::front))]
pub(crate) fn push_front(
    alloc: Global,
    text: &mut String,
    known: &Names<'_>,
    message_type: u16,
    index: u32,
) -> Result<(), AllocError>
    ensures { OnOk result (AddsParts text.old text.new (front known.now message_type index)) }
{
    push_part(text, verb_text(message_type))?;
    push_part(text, device_name(alloc, known, index)?.as_str())
}

/// Returns the first and the last of several numbers, with a hyphen between them, or the one that is
/// both.
pub(crate) fn range_text(alloc: Global, first: u32, last: u32) -> Result<String, AllocError>
    ensures { IfOk result (λ text. string_bytes text ≡ range_text first last) }
{
    if first == last {
        return format!(in alloc; "{first}");
    }
    format!(in alloc; "{first}-{last}")
}

/// Appends a key and a number of 1 byte, if there is one.
#[tactic(auto, unfolding(netlink_words::specs::Parts::number_part, netlink_words::specs::Parts::with_part))]
pub(crate) fn push_byte(text: &mut String, key: &str, byte: Option<u8>) -> Result<(), AllocError>
    ensures { OnOk result (AddsPart text.old text.new (number_part key.now byte)) }
{
    match byte {
        None => Ok(()),
        Some(byte) => push_number(text, key, Some(byte as u32)),
    }
}

/// Appends a key and a number of 8 bytes, if there is one.
#[tactic(auto, unfolding(netlink_words::specs::Parts::number_part, netlink_words::specs::Parts::with_part))]
pub(crate) fn push_long(
    alloc: Global,
    text: &mut String,
    key: &str,
    number: Option<u64>,
) -> Result<(), AllocError>
    ensures { OnOk result (AddsPart text.old text.new (number_part key.now number)) }
{
    match number {
        None => Ok(()),
        Some(number) => push_part(text, format!(in alloc; "{key} {number}")?.as_str()),
    }
}

/// Returns the number in 8 bytes at an offset.
pub(crate) fn long_at(bytes: &[u8], at: usize) -> u64
    requires inside { at + 8 ≤ length bytes.now }
    ensures { result ≡ number_at at 8 bytes.now }
{
    parse_u64(&bytes[at..at + 8]).unwrap()
}

/// Returns the value of the first attribute of a kind, up to an error; empty if there is none.
pub(crate) fn value_in(block: &[u8], kind: u16) -> &[u8]
    ensures { result.now ≡ value_in block.now kind }
{
    or_empty(first_value(block, kind))
}

/// Returns the first byte of the first attribute of a kind, up to an error; none if it has none.
pub(crate) fn byte_in(block: &[u8], kind: u16) -> Option<u8>
    ensures { result ≡ byte_in block.now kind }
{
    byte_of(first_value(block, kind))
}

/// Returns the first byte of a value; none if it is empty.
#[tactic(auto, unfolding(crate::specs::Words::byte_of))]
fn byte_of(value: Option<&[u8]>) -> Option<u8>
    ensures { result ≡ byte_of (option_copied value.entry) }
{
    match value {
        None => None,
        Some(value) => {
            if value.len() < 1 {
                return None;
            }
            Some(value[0])
        }
    }
}

/// Returns the number in the first 4 bytes of the first attribute of a kind, up to an error; none if it
/// has fewer.
pub(crate) fn number_in(block: &[u8], kind: u16) -> Option<u32>
    ensures { result ≡ number_in block.now kind }
{
    number_of(first_value(block, kind))
}

/// Returns the number in the first 4 bytes of a value; none if it has fewer.
#[tactic(auto, unfolding(crate::specs::Words::number_of))]
fn number_of(value: Option<&[u8]>) -> Option<u32>
    ensures { result ≡ number_of (option_copied value.entry) }
{
    match value {
        None => None,
        Some(value) => {
            if value.len() < 4 {
                return None;
            }
            Some(u32_at(value, 0))
        }
    }
}
