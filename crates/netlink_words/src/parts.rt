//! Parts of a line, with one space between them.

ghost use Rattle.std.specs.Prelude.{◌≡◌, ◌++◌, [], IfOk, OnOk, codes, string_bytes};
ghost use Rattle.std.specs.Option.{option_copied};
ghost use Rattle.netlink_words.specs.Parts.{AddsPart, hex_part, host_length, keyed, number_part, or_empty, or_zero, prefix_end, prefix_of, prefix_text, realm_text, realms_part, string_part, tos_part, when, words_part};
ghost use Rattle.netlink_words.specs.Text.{bytes_text, ip_words, name_text, sentence_text, separated};

use crate::digits::push_decimal;
use crate::text::{
    ip_words, push_colons, push_dotted, push_groups, push_name, push_sentence, push_separated,
};
use netlink_packet_core::hex_pair;
use std::alloc::{AllocError, Global};

/// Appends a part, after a space if the text is not empty. An empty part changes nothing.
#[tactic(auto, unfolding(crate::specs::Parts::with_part))]
pub fn push_part(text: &mut String, part: &str) -> Result<(), AllocError>
    ensures { OnOk result (AddsPart text.old text.new part.now) }
{
    if part.is_empty() {
        return Ok(());
    }
    push_separated(text, " ", part)
}

/// Appends a space, if the text is not empty.
pub fn push_space(text: &mut String) -> Result<(), AllocError>
    ensures { OnOk result
        (string_bytes text.new ≡ separated (codes " ") (string_bytes text.old) []) }
{
    if text.is_empty() {
        return Ok(());
    }
    text.push(' ')
}

/// Appends a part if the condition holds.
#[tactic(auto, unfolding(crate::specs::Parts::when, crate::specs::Parts::with_part))]
pub fn push_when(text: &mut String, holds: bool, part: &str) -> Result<(), AllocError>
    ensures { OnOk result (AddsPart text.old text.new (when holds part.now)) }
{
    if !holds {
        return Ok(());
    }
    push_part(text, part)
}

/// Appends a key and a space, after a space if the text is not empty. The caller appends the value.
pub fn push_key(text: &mut String, key: &str) -> Result<(), AllocError>
    ensures { OnOk result
        (string_bytes text.new ≡ separated (codes " ") (string_bytes text.old) key.now ++ codes " ") }
{
    push_separated(text, " ", key)?;
    text.push(' ')
}

/// Appends a key and a word, unless the word is empty.
#[tactic(auto, using(crate::specs::Pieces::keyed_more), unfolding(crate::specs::Parts::keyed, crate::specs::Parts::with_part))]
pub fn push_keyed(text: &mut String, key: &str, word: &str) -> Result<(), AllocError>
    ensures { OnOk result (AddsPart text.old text.new (keyed key.now word.now)) }
{
    if word.is_empty() {
        return Ok(());
    }
    push_key(text, key)?;
    text.push_str(word)
}

/// Appends a key and a number, if there is one.
#[tactic(auto, using(crate::specs::Pieces::key_more), unfolding(crate::specs::Parts::number_part, crate::specs::Parts::with_part))]
pub fn push_number(text: &mut String, key: &str, number: Option<u32>) -> Result<(), AllocError>
    ensures { OnOk result (AddsPart text.old text.new (number_part key.now number)) }
{
    match number {
        Some(number) => {
            push_key(text, key)?;
            push_decimal(text, number)
        }
        None => Ok(()),
    }
}

/// Appends a key and a name, unless the name is empty.
#[tactic(auto, using(crate::specs::Pieces::name_more), unfolding(crate::specs::Parts::keyed, crate::specs::Parts::with_part, crate::specs::Text::printable_text))]
pub fn push_named(text: &mut String, key: &str, name: &[u8]) -> Result<(), AllocError>
    ensures { OnOk result (AddsPart text.old text.new (keyed key.now (name_text name.now))) }
{
    if name.is_empty() {
        return Ok(());
    }
    push_key(text, key)?;
    push_name(text, name)
}

/// Appends a key and a name, if there is one that is not empty.
#[tactic(auto, unfolding(crate::specs::Parts::string_part, crate::specs::Parts::with_part))]
pub fn push_string(text: &mut String, key: &str, name: Option<&[u8]>) -> Result<(), AllocError>
    ensures { OnOk result (AddsPart text.old text.new (string_part key.now (option_copied name.entry))) }
{
    match name {
        Some(name) => push_named(text, key, name),
        None => Ok(()),
    }
}

/// Appends a key and a sentence, unless the sentence is empty.
#[tactic(auto, using(crate::specs::Pieces::sentence_more), unfolding(crate::specs::Parts::keyed, crate::specs::Parts::with_part, crate::specs::Text::printable_text))]
fn push_said(text: &mut String, key: &str, words: &[u8]) -> Result<(), AllocError>
    ensures { OnOk result (AddsPart text.old text.new (keyed key.now (sentence_text words.now))) }
{
    if words.is_empty() {
        return Ok(());
    }
    push_key(text, key)?;
    push_sentence(text, words)
}

/// Appends a key and a sentence, if there is one that is not empty.
#[tactic(auto, unfolding(crate::specs::Parts::words_part, crate::specs::Parts::with_part))]
pub fn push_words(text: &mut String, key: &str, words: Option<&[u8]>) -> Result<(), AllocError>
    ensures { OnOk result (AddsPart text.old text.new (words_part key.now (option_copied words.entry))) }
{
    match words {
        Some(words) => push_said(text, key, words),
        None => Ok(()),
    }
}

/// Appends a key and an IP address, unless the address has neither 4 nor 16 bytes.
#[tactic(auto, using(crate::specs::Pieces::four_more, crate::specs::Pieces::sixteen_more))]
pub fn push_address(
    alloc: Global,
    text: &mut String,
    key: &str,
    ip: &[u8],
) -> Result<(), AllocError>
    ensures { OnOk result (AddsPart text.old text.new (keyed key.now (ip_words ip.now))) }
{
    if ip.is_empty() {
        return Ok(());
    }
    if ip.len() == 4 {
        push_key(text, key)?;
        return push_dotted(text, ip);
    }
    if ip.len() == 16 {
        push_key(text, key)?;
        return push_groups(text, ip);
    }
    push_keyed(text, key, ip_words(alloc, ip)?.as_str())
}

/// Returns a number in hexadecimal with `0x` before it, or `0`.
#[tactic(auto, unfolding(crate::specs::Parts::hex_part))]
pub fn hex_text(alloc: Global, number: u32) -> Result<String, AllocError>
    ensures { IfOk result (λ text. string_bytes text ≡ hex_part number) }
{
    if number == 0 {
        return String::from_str(alloc, "0");
    }
    format!(in alloc; "0x{number:x}")
}

/// Returns an address and, unless its prefix is as long as the address, the length of the prefix in
/// bits. Without an address it is `0` and the length, and empty if that is 0.
#[tactic(auto, unfolding(crate::specs::Parts::prefix_text))]
pub fn prefix_text(alloc: Global, bytes: &[u8], length: u8, whole: u8) -> Result<String, AllocError>
    ensures { IfOk result (λ text. string_bytes text ≡ prefix_text bytes.now length whole) }
{
    prefix_of(alloc, ip_words(alloc, bytes)?, length, whole)
}

/// Returns the text of an address and the length of its prefix in the same way.
#[tactic(auto, unfolding(crate::specs::Parts::prefix_of))]
fn prefix_of(alloc: Global, ip: String, length: u8, whole: u8) -> Result<String, AllocError>
    ensures { IfOk result (λ text. string_bytes text ≡ prefix_of (string_bytes ip) length whole) }
{
    if ip.is_empty() {
        if length == 0 {
            return Ok(ip);
        }
        return format!(in alloc; "0/{length}");
    }
    if length == whole {
        return Ok(ip);
    }
    format!(in alloc; "{ip}/{length}")
}

/// Appends an IP address, unless it has neither 4 nor 16 bytes.
#[tactic(auto, using(crate::specs::Pieces::four_part, crate::specs::Pieces::sixteen_part))]
pub fn push_ip(alloc: Global, text: &mut String, address: &[u8]) -> Result<(), AllocError>
    ensures { OnOk result (AddsPart text.old text.new (ip_words address.now)) }
{
    if address.len() == 4 {
        push_space(text)?;
        return push_dotted(text, address);
    }
    if address.len() == 16 {
        push_space(text)?;
        return push_groups(text, address);
    }
    push_part(text, ip_words(alloc, address)?.as_str())
}

/// Appends a key and bytes in hexadecimal, unless there are none.
#[tactic(auto, using(crate::specs::Pieces::bytes_more))]
pub fn push_hardware(text: &mut String, key: &str, bytes: &[u8]) -> Result<(), AllocError>
    ensures { OnOk result (AddsPart text.old text.new (keyed key.now (bytes_text bytes.now))) }
{
    if bytes.is_empty() {
        return Ok(());
    }
    push_key(text, key)?;
    push_colons(text, bytes)
}

/// Appends the length of a prefix in bits after an address, unless the prefix is as long as the address.
pub fn push_length(text: &mut String, length: u8, whole: u8) -> Result<(), AllocError>
    ensures { OnOk result (string_bytes text.new ≡ string_bytes text.old ++ prefix_end length whole) }
{
    if length == whole {
        return Ok(());
    }
    text.push('/')?;
    push_decimal(text, length as u32)
}

/// Returns the number of bits of an address of this family; 0 for other families than IPv4 and IPv6.
#[tactic(auto, unfolding(crate::specs::Parts::host_length))]
pub fn host_length(family: u8) -> u8
    ensures { result ≡ host_length family }
{
    match family {
        2 => 32,
        10 => 128,
        _ => 0,
    }
}

/// Appends a type of service other than 0.
#[tactic(auto, unfolding(crate::specs::Parts::tos_part, crate::specs::Parts::with_part))]
pub fn push_tos(alloc: Global, text: &mut String, tos: u8) -> Result<(), AllocError>
    ensures { OnOk result (AddsPart text.old text.new (tos_part tos)) }
{
    if tos == 0 {
        return Ok(());
    }
    let pair = hex_pair(tos);
    push_part(text, format!(in alloc; "tos 0x{pair}")?.as_str())
}

/// Returns a realm; `unknown` for 0.
#[tactic(auto, unfolding(crate::specs::Parts::realm_text))]
fn realm_text(alloc: Global, realm: u32) -> Result<String, AllocError>
    ensures { IfOk result (λ text. string_bytes text ≡ realm_text realm) }
{
    if realm == 0 {
        return String::from_str(alloc, "unknown");
    }
    format!(in alloc; "{realm}")
}

/// Appends the two realms of a flow, after a key, or only the lower one after another key if the
/// upper one is 0.
#[tactic(auto, unfolding(crate::specs::Parts::flow_part, crate::specs::Parts::with_part))]
pub fn push_realms(
    alloc: Global,
    text: &mut String,
    one: &str,
    two: &str,
    flow: Option<u32>,
) -> Result<(), AllocError>
    ensures { OnOk result (AddsPart text.old text.new (realms_part one.now two.now flow)) }
{
    match flow {
        None => Ok(()),
        Some(flow) => {
            let to = realm_text(alloc, flow % 65536)?;
            if flow < 65536 {
                return push_part(text, format!(in alloc; "{one} {to}")?.as_str());
            }
            let from = realm_text(alloc, flow / 65536)?;
            push_part(text, format!(in alloc; "{two} {from}/{to}")?.as_str())
        }
    }
}

/// Returns a number, or 0 if there is none.
pub fn or_zero(number: Option<u32>) -> u32
    ensures { result ≡ or_zero number }
{
    match number {
        Some(number) => number,
        None => 0,
    }
}

/// Returns the bytes, or none.
pub fn or_empty<'a>(found: Option<&'a [u8]>) -> &'a [u8]
    ensures { result.now ≡ or_empty (option_copied found.entry) }
{
    match found {
        Some(bytes) => bytes,
        None => &[],
    }
}
