//! Strings of JSON. No other code writes a quotation mark.

ghost use Rattle.std.specs.Prelude.{◌≡◌, ◌<◌, ◌++◌, IfNone, IfSome, OnOk, false, string_bytes, true};
ghost use Rattle.std.specs.Char.{encode_utf8};
ghost use Rattle.std.specs.List.{fold};
ghost use Rattle.std.specs.Str.{is_utf8};
ghost use Rattle.netlink_json.specs.Strings.{ascii_escape, escaped, numbered, string_text, with_escaped};

use netlink_packet_core::hex_pair;
use std::alloc::AllocError;
use std::str::from_utf8;

/// Appends the string of these bytes. A quotation mark and a backslash follow a backslash, and a
/// control character is `\u00` and two digits. If the bytes are not UTF-8, so is each byte of 0x80 or
/// more. Returns `AllocError` if an allocation fails.
#[tactic(auto, unfolding(crate::specs::Strings::string_text))]
pub(crate) fn push_string(text: &mut String, bytes: &[u8]) -> Result<(), AllocError>
    ensures string { OnOk result (string_bytes text.new ≡ string_bytes text.old ++ string_text bytes.now) }
{
    text.push('"')?;
    push_escaped(text, bytes)?;
    text.push('"')
}

/// Appends what is between the quotation marks of a string.
#[tactic(auto, using(crate::proofs::Escaping::escaped_all))]
fn push_escaped(text: &mut String, bytes: &[u8]) -> Result<(), AllocError>
    ensures { OnOk result (string_bytes text.new
        ≡ string_bytes text.old ++ escaped (is_utf8 bytes.now) bytes.now) }
{
    match as_text(bytes) {
        Some(words) => push_chars(text, words),
        None => push_bytes(text, bytes),
    }
}

/// Returns bytes as a string if they are UTF-8.
#[tactic(auto, using(crate::proofs::Escaping::is_text, crate::proofs::Escaping::is_no_text))]
fn as_text(bytes: &[u8]) -> Option<&str>
    ensures some { IfSome result (λ text. (text.now ≡ bytes.now) × (is_utf8 bytes.now ≡ true)) }
    ensures none { IfNone result (is_utf8 bytes.now ≡ false) }
{
    match from_utf8(bytes) {
        Ok(text) => Some(text),
        Err(_) => None,
    }
}

/// Returns whether bytes are UTF-8.
pub(crate) fn is_text(bytes: &[u8]) -> bool
    ensures { result ≡ is_utf8 bytes.now }
{
    as_text(bytes).is_some()
}

/// Appends the characters of a string that is UTF-8.
fn push_chars(text: &mut String, words: &str) -> Result<(), AllocError>
    ensures { OnOk result (string_bytes text.new ≡ fold (with_escaped true) (string_bytes text.old) words.now) }
{
    for c in words.chars() {
        push_char(text, c)?;
    }
    Ok(())
}

/// Appends a character.
#[tactic(auto, using(crate::proofs::Escaping::char_kept, crate::proofs::Escaping::char_escaped))]
fn push_char(text: &mut String, c: char) -> Result<(), AllocError>
    ensures { OnOk result
        (string_bytes text.new ≡ fold (with_escaped true) (string_bytes text.old) (encode_utf8 c)) }
{
    if c < '\u{80}' {
        return push_ascii(text, c as u8);
    }
    text.push(c)
}

/// Appends the bytes of a string that is not UTF-8.
fn push_bytes(text: &mut String, bytes: &[u8]) -> Result<(), AllocError>
    ensures { OnOk result (string_bytes text.new ≡ fold (with_escaped false) (string_bytes text.old) bytes.now) }
{
    for byte in bytes {
        push_byte(text, *byte)?;
    }
    Ok(())
}

/// Appends a byte of a string that is not UTF-8.
fn push_byte(text: &mut String, byte: u8) -> Result<(), AllocError>
    ensures { OnOk result (string_bytes text.new ≡ with_escaped false (string_bytes text.old) byte) }
{
    if byte < 128 {
        return push_ascii(text, byte);
    }
    push_numbered(text, byte)
}

/// Appends a byte below 0x80.
fn push_ascii(text: &mut String, byte: u8) -> Result<(), AllocError>
    requires { byte < 128 }
    ensures { OnOk result (string_bytes text.new ≡ string_bytes text.old ++ ascii_escape byte) }
{
    if byte == b'"' || byte == b'\\' {
        text.push('\\')?;
        return text.push(byte as char);
    }
    if byte < 32 || byte == 127 {
        return push_numbered(text, byte);
    }
    text.push(byte as char)
}

/// Appends `\u00` and the two hexadecimal digits of a byte.
fn push_numbered(text: &mut String, byte: u8) -> Result<(), AllocError>
    ensures { OnOk result (string_bytes text.new ≡ string_bytes text.old ++ numbered byte) }
{
    text.push_str("\\u00")?;
    text.push_str(hex_pair(byte))
}
