//! The names of links.

ghost use Rattle.std.specs.Prelude.{◌≡◌, ◌++◌, IfOk, OnOk, codes, decimal, string_bytes};
ghost use Rattle.std.specs.Option.{option_copied};
ghost use Rattle.netlink_names.specs.Device.{device_part, device_text, name_of, name_or_index};
ghost use Rattle.netlink_words.specs.Parts.{AddsPart, keyed};

use crate::name::Name;
use crate::name_table::{Names, name_of};
use netlink_words::digits::push_decimal;
use netlink_words::parts::{push_key, push_named};
use netlink_words::text::{name_text, push_name};
use std::alloc::{AllocError, Global};

/// A link whose name is known, for example from a message before.
#[derive(Drop)]
pub struct Known {
    /// The index of the link.
    pub index: u32,
    /// Its name.
    pub name: Name,
}

/// Returns the name of a link, `if` and its index if the name is not known, or `*` for the index 0. Returns `AllocError` if an allocation fails.
pub fn device_text(alloc: Global, known: &[Known], index: u32) -> Result<String, AllocError>
    ensures { IfOk result (λ text. string_bytes text ≡ device_text known.now index) }
{
    device_name(alloc, &Names::of(known), index)
}

/// Returns the name of a link as `device_text` does.
pub fn device_name(alloc: Global, known: &Names<'_>, index: u32) -> Result<String, AllocError>
    ensures { IfOk result (λ text. string_bytes text ≡ device_text known.now index) }
{
    match name_or_any(known, index) {
        Some(name) => name_text(alloc, name),
        None => format!(in alloc; "if{index}"),
    }
}

/// Appends the name of a link as `device_text` returns it.
pub fn push_device_name(text: &mut String, known: &Names<'_>, index: u32) -> Result<(), AllocError>
    ensures { OnOk result
        (string_bytes text.new ≡ string_bytes text.old ++ device_text known.now index) }
{
    match name_or_any(known, index) {
        Some(name) => push_name(text, name),
        None => push_index(text, index),
    }
}

/// Returns the name of a link if it is known, and `*` for the index 0.
#[inline(always)]
#[tactic(auto, unfolding(crate::specs::Device::device_text, netlink_words::specs::Text::printable_text))]
fn name_or_any<'a>(known: &'a Names<'a>, index: u32) -> Option<&'a [u8]>
    ensures { name_or_index index (option_copied result) ≡ device_text known.now index }
{
    if index == 0 {
        return Some(b"*");
    }
    name_of(known, index)
}

/// Appends `if` and the index of a link.
fn push_index(text: &mut String, index: u32) -> Result<(), AllocError>
    ensures { OnOk result
        (string_bytes text.new ≡ string_bytes text.old ++ (codes "if" ++ decimal index)) }
{
    text.push_str("if")?;
    push_decimal(text, index)
}

/// Appends a key and the name of a link, if there is one.
#[tactic(auto, unfolding(netlink_words::specs::Parts::keyed, netlink_words::specs::Parts::with_part))]
pub fn push_device(
    text: &mut String,
    known: &Names<'_>,
    key: &str,
    index: Option<u32>,
) -> Result<(), AllocError>
    ensures { OnOk result (AddsPart text.old text.new (device_part known.now key.now index)) }
{
    match index {
        None => Ok(()),
        Some(index) => match name_or_any(known, index) {
            Some(name) => push_named(text, key, name),
            None => push_keyed_index(text, key, index),
        },
    }
}

/// Appends a key, `if` and the index of a link.
#[tactic(auto, using(netlink_words::specs::Pieces::index_more))]
fn push_keyed_index(text: &mut String, key: &str, index: u32) -> Result<(), AllocError>
    ensures { OnOk result (AddsPart text.old text.new (keyed key.now (codes "if" ++ decimal index))) }
{
    push_key(text, key)?;
    push_index(text, index)
}

/// Returns the name of the first known link with this index.
#[tactic(auto, unfolding(crate::specs::Device::name_of))]
pub(crate) fn first_name<'a>(known: &'a [Known], index: u32) -> Option<&'a [u8]>
    ensures { option_copied result ≡ name_of known.now index }
{
    for link in known {
        if link.index == index {
            return Some(link.name.bytes());
        }
    }
    None
}
