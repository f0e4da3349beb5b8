//! Bytes as text.

ghost use Rattle.std.specs.Prelude.{◌≡◌, ◌++◌, IfOk, OnOk, length, string_bytes};
ghost use Rattle.std.specs.Net.Text.{ipv4_text};
ghost use Rattle.netlink_words.specs.Text.{bytes_text, ip_words, is_compatible, name_text, pairs, plain_words, printable_text, sentence_text, separated, with_printable};

use crate::digits::push_decimal;
use netlink_packet_core::{IpAddr, hex_pair, parse_ip};
use std::alloc::{AllocError, Global};
use std::net::{Ipv4Addr, Ipv6Addr};

/// Appends a word, after a separator if the text is not empty.
pub fn push_separated(text: &mut String, separator: &str, word: &str) -> Result<(), AllocError>
    ensures { OnOk result
        (string_bytes text.new ≡ separated separator.now (string_bytes text.old) word.now) }
{
    if !text.is_empty() {
        text.push_str(separator)?;
    }
    text.push_str(word)
}

/// Appends bytes as two hexadecimal digits each, in lower case, separated by colons.
pub fn push_colons(text: &mut String, bytes: &[u8]) -> Result<(), AllocError>
    ensures { OnOk result (string_bytes text.new ≡ string_bytes text.old ++ bytes_text bytes.now) }
{
    match bytes {
        [] => Ok(()),
        [first, rest @ ..] => {
            text.push_str(hex_pair(*first))?;
            push_pairs(text, rest)
        }
    }
}

/// Appends a colon and two hexadecimal digits for each byte.
fn push_pairs(text: &mut String, bytes: &[u8]) -> Result<(), AllocError>
    ensures { OnOk result (string_bytes text.new ≡ string_bytes text.old ++ pairs bytes.now) }
{
    for byte in bytes {
        text.push(':')?;
        text.push_str(hex_pair(*byte))?;
    }
    Ok(())
}

/// Returns a name, in which every byte that is not printable ASCII, a space or a backslash is `\x`
/// and its two hexadecimal digits. Returns `AllocError` if an allocation fails.
pub fn name_text(alloc: Global, name: &[u8]) -> Result<String, AllocError>
    ensures { IfOk result (λ text. string_bytes text ≡ name_text name.now) }
{
    printable_text(alloc, 33, name)
}

/// Returns a sentence, in which every byte that is not printable ASCII, or a backslash, is `\x` and
/// its two hexadecimal digits. Spaces are kept. Returns `AllocError` if an allocation fails.
pub fn sentence_text(alloc: Global, sentence: &[u8]) -> Result<String, AllocError>
    ensures { IfOk result (λ text. string_bytes text ≡ sentence_text sentence.now) }
{
    printable_text(alloc, 32, sentence)
}

/// Returns bytes as they are if they are printable ASCII, from `least` on, and no backslash, and
/// each other byte as `\x` and its two hexadecimal digits. The text starts with room for all bytes if
/// there are 8 or more, and else without room: a `String` grows from none to 8 bytes at once, so less
/// room could cost an allocation.
#[tactic(auto, unfolding(crate::specs::Text::printable_text))]
fn printable_text(alloc: Global, least: u8, bytes: &[u8]) -> Result<String, AllocError>
    ensures { IfOk result (λ text. string_bytes text ≡ printable_text least bytes.now) }
{
    let room = if bytes.len() < 8 { 0 } else { bytes.len() };
    let mut text = String::with_capacity(alloc, room)?;
    push_bytes(&mut text, least, bytes)?;
    Ok(text)
}

/// Appends a name as `name_text` returns it.
pub fn push_name(text: &mut String, name: &[u8]) -> Result<(), AllocError>
    ensures { OnOk result (string_bytes text.new ≡ string_bytes text.old ++ name_text name.now) }
{
    push_bytes(text, 33, name)
}

/// Appends a sentence as `sentence_text` returns it.
pub(crate) fn push_sentence(text: &mut String, sentence: &[u8]) -> Result<(), AllocError>
    ensures { OnOk result
        (string_bytes text.new ≡ string_bytes text.old ++ sentence_text sentence.now) }
{
    push_bytes(text, 32, sentence)
}

/// Appends bytes as `printable_text` returns them.
#[tactic(auto, unfolding(crate::specs::Text::printable_text))]
fn push_bytes(text: &mut String, least: u8, bytes: &[u8]) -> Result<(), AllocError>
    ensures { OnOk result
        (string_bytes text.new ≡ string_bytes text.old ++ printable_text least bytes.now) }
{
    for byte in bytes {
        push_printable(text, least, *byte)?;
    }
    Ok(())
}

/// Appends a byte, or `\x` and its two hexadecimal digits.
fn push_printable(text: &mut String, least: u8, byte: u8) -> Result<(), AllocError>
    ensures { OnOk result (string_bytes text.new ≡ with_printable least (string_bytes text.old) byte) }
{
    if byte < least || byte >= 127 || byte == 92 {
        text.push_str("\\x")?;
        return text.push_str(hex_pair(byte));
    }
    text.push(byte as char)
}

/// Returns an IP address as text, as the C function `inet_ntop` writes it; empty if there are
/// neither 4 nor 16 bytes. For IPv6 that is the form of RFC 5952, with an IPv4 address at the end of an
/// IPv4-mapped and an IPv4-compatible address. Returns `AllocError` if an allocation fails.
pub fn ip_words(alloc: Global, bytes: &[u8]) -> Result<String, AllocError>
    ensures { IfOk result (λ text. string_bytes text ≡ ip_words bytes.now) }
{
    if is_compatible(bytes) {
        let last = Ipv4Addr::new(bytes[12], bytes[13], bytes[14], bytes[15]);
        return format!(in alloc; "::{last}");
    }
    plain_words(alloc, bytes)
}

/// Appends an IPv4 address of these four bytes.
pub fn push_dotted(text: &mut String, ip: &[u8]) -> Result<(), AllocError>
    requires { length ip.now ≡ 4 }
    ensures { OnOk result (string_bytes text.new ≡ string_bytes text.old ++ ipv4_text ip.now) }
{
    push_decimal(text, ip[0] as u32)?;
    text.push('.')?;
    push_decimal(text, ip[1] as u32)?;
    text.push('.')?;
    push_decimal(text, ip[2] as u32)?;
    text.push('.')?;
    push_decimal(text, ip[3] as u32)
}

/// Appends an IPv6 address of these 16 bytes, as `ip_words` returns it.
pub fn push_groups(text: &mut String, ip: &[u8]) -> Result<(), AllocError>
    requires { length ip.now ≡ 16 }
    ensures { OnOk result (string_bytes text.new ≡ string_bytes text.old ++ ip_words ip.now) }
{
    if is_compatible(ip) {
        text.push_str("::")?;
        return push_dotted(text, &ip[12..]);
    }
    match parse_ip(ip) {
        Ok(IpAddr::V6(octets)) => write!(text, "{}", Ipv6Addr::from_octets(octets)),
        _ => Ok(()),
    }
}

/// Returns any other IP address as text.
fn plain_words(alloc: Global, bytes: &[u8]) -> Result<String, AllocError>
    ensures { IfOk result (λ text. string_bytes text ≡ plain_words bytes.now) }
{
    match parse_ip(bytes) {
        Ok(IpAddr::V4(octets)) => Ipv4Addr::from_octets(octets).to_string(alloc),
        Ok(IpAddr::V6(octets)) => Ipv6Addr::from_octets(octets).to_string(alloc),
        Err(_) => Ok(String::new(alloc)),
    }
}

/// Returns whether bytes are an IPv6 address that ends in an IPv4 address after 12 zeros, which
/// does not begin with two more.
fn is_compatible(bytes: &[u8]) -> bool
    ensures { result ≡ is_compatible bytes.now }
{
    if bytes.len() != 16 {
        return false;
    }
    if bytes[..12] != [0; 12] {
        return false;
    }
    bytes[12..14] != [0; 2]
}
