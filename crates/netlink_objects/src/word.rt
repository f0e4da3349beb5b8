//! The words of values.

ghost use Rattle.std.specs.Prelude.{◌≡◌, ◌==◌, ◌++◌, [], IfOk, codes, false, if◌then◌else◌, string_bytes};
ghost use Rattle.std.specs.Fmt.{digits};
ghost use Rattle.netlink_link_lines.specs.LinkParts.{event_text, group_text, mode_text};
ghost use Rattle.netlink_objects.specs.Forms.{byte_word, form_word, long_word};
ghost use Rattle.netlink_packet_core.specs.Text.{hex_pair};
ghost use Rattle.netlink_words.specs.NumberNames.{protocol_text, table_text};
ghost use Rattle.netlink_words.specs.Text.{bytes_text};

use crate::form::Form;
use crate::number::{byte_of, long_of, short_of};
use netlink_link_lines::hardware::hardware_text;
use netlink_link_lines::link_parts::{event_text, push_group_name, push_mode_name};
use netlink_packet_core::hex_pair;
use netlink_words::number_names::{family_text, push_protocol, push_table, scope_text, state_text};
use netlink_words::text::{ip_words, push_colons};
use std::alloc::{AllocError, Global};

/// Returns the word of a value; nothing if it has another size.
pub(crate) fn form_word(alloc: Global, form: Form, value: &[u8]) -> Result<String, AllocError>
    ensures { IfOk result (λ text. string_bytes text ≡ form_word form value.now) }
{
    match form {
        Form::Ip => ip_words(alloc, value),
        Form::Hardware => colons(alloc, value),
        Form::LinkType => match short_of(value) {
            Some(number) => hardware_text(alloc, number),
            None => Ok(String::new(alloc)),
        },
        Form::Group | Form::Event | Form::Table | Form::Hex(_) => match long_of(value) {
            Some(number) => long_word(alloc, form, number),
            None => Ok(String::new(alloc)),
        },
        _ => match byte_of(value) {
            Some(number) => byte_word(alloc, form, number),
            None => Ok(String::new(alloc)),
        },
    }
}

/// Returns bytes in hexadecimal, with colons between them.
fn colons(alloc: Global, value: &[u8]) -> Result<String, AllocError>
    ensures { IfOk result (λ text. string_bytes text ≡ bytes_text value.now) }
{
    let mut text = String::new(alloc);
    push_colons(&mut text, value)?;
    Ok(text)
}

/// Returns the name of a number of one byte.
fn byte_word(alloc: Global, form: Form, number: u8) -> Result<String, AllocError>
    ensures { IfOk result (λ text. string_bytes text ≡ byte_word form number) }
{
    match form {
        Form::State => state_text(alloc, number),
        Form::Family => family_text(alloc, number),
        Form::AnyScope => scope_text(alloc, number),
        Form::Scope(but) => {
            if number == but {
                return Ok(String::new(alloc));
            }
            scope_text(alloc, number)
        }
        Form::Mode => mode_word(alloc, number),
        Form::Protocol(one, two) => {
            if number == one || number == two {
                return Ok(String::new(alloc));
            }
            protocol_word(alloc, number)
        }
        Form::Tos => tos_word(alloc, number),
        _ => Ok(String::new(alloc)),
    }
}

/// Returns the name of a number of four bytes.
fn long_word(alloc: Global, form: Form, number: u32) -> Result<String, AllocError>
    ensures { IfOk result (λ text. string_bytes text ≡ long_word form number) }
{
    match form {
        Form::Group => group_word(alloc, number),
        Form::Table => table_word(alloc, number),
        Form::Event => event_word(alloc, number),
        Form::Hex(bits) => hex_word(alloc, number & bits),
        _ => Ok(String::new(alloc)),
    }
}

/// Returns the name of a mode.
fn mode_word(alloc: Global, mode: u8) -> Result<String, AllocError>
    ensures { IfOk result (λ text. string_bytes text ≡ mode_text mode) }
{
    let mut text = String::new(alloc);
    push_mode_name(&mut text, mode)?;
    Ok(text)
}

/// Returns the name of who installed something.
fn protocol_word(alloc: Global, protocol: u8) -> Result<String, AllocError>
    ensures { IfOk result (λ text. string_bytes text ≡ protocol_text protocol) }
{
    let mut text = String::new(alloc);
    push_protocol(&mut text, protocol)?;
    Ok(text)
}

/// Returns a type of service; nothing for 0.
pub(crate) fn tos_word(alloc: Global, tos: u8) -> Result<String, AllocError>
    ensures { IfOk result (λ text. string_bytes text ≡ (if tos == 0 then [] else codes "0x" ++ hex_pair tos)) }
{
    if tos == 0 {
        return Ok(String::new(alloc));
    }
    let pair = hex_pair(tos);
    format!(in alloc; "0x{pair}")
}

/// Returns the name of a group of links.
fn group_word(alloc: Global, group: u32) -> Result<String, AllocError>
    ensures { IfOk result (λ text. string_bytes text ≡ group_text group) }
{
    let mut text = String::new(alloc);
    push_group_name(&mut text, group)?;
    Ok(text)
}

/// Returns the name of a routing table; nothing for 0.
pub(crate) fn table_word(alloc: Global, table: u32) -> Result<String, AllocError>
    ensures { IfOk result (λ text. string_bytes text ≡ (if table == 0 then [] else table_text table)) }
{
    let mut text = String::new(alloc);
    if table == 0 {
        return Ok(text);
    }
    push_table(&mut text, table)?;
    Ok(text)
}

/// Returns the name of an event; nothing for 0.
fn event_word(alloc: Global, event: u32) -> Result<String, AllocError>
    ensures { IfOk result (λ text. string_bytes text ≡ (if event == 0 then [] else event_text event)) }
{
    if event == 0 {
        return Ok(String::new(alloc));
    }
    event_text(alloc, event)
}

/// Returns a number in hexadecimal; nothing for 0.
fn hex_word(alloc: Global, number: u32) -> Result<String, AllocError>
    ensures { IfOk result (λ text. string_bytes text ≡ (if number == 0 then [] else digits 16 false number)) }
{
    if number == 0 {
        return Ok(String::new(alloc));
    }
    format!(in alloc; "{number:x}")
}
