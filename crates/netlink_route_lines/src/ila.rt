//! Encapsulation by ILA, Identifier Locator Addressing (linux/ila.h).

ghost use Rattle.std.specs.Prelude.{◌≡◌, IfOk, OnOk, string_bytes};
ghost use Rattle.netlink_words.specs.Parts.{AddsPart, AddsParts};
ghost use Rattle.netlink_route_lines.specs.Ila.{IsIla, checksum_name, checksum_part, hook_name, hook_part, identifier_name, identifier_part, ila_parts, locator_part, locator_text};

use netlink_family::BlockView;
use netlink_route::encapsulations::{
    ILA_ATTR_CSUM_MODE, ILA_ATTR_HOOK_TYPE, ILA_ATTR_IDENT_TYPE, ILA_ATTR_LOCATOR,
};
use netlink_words::parts::{push_keyed, push_part};
use std::alloc::{AllocError, Global};

/// Appends the locator, how the checksum stays right, the type of the identifier, and the place of
/// the hook.
#[tactic(auto, unfolding(crate::specs::Ila::ila_parts))]
pub(crate) fn push_ila(
    alloc: Global,
    text: &mut String,
    nest: &BlockView<'_>,
) -> Result<(), AllocError>
    requires { IsIla nest.now }
    ensures { OnOk result (AddsParts text.old text.new (ila_parts nest.now.block.now)) }
{
    push_locator(alloc, text, nest.be64(ILA_ATTR_LOCATOR))?;
    push_checksum(text, nest.u8(ILA_ATTR_CSUM_MODE))?;
    push_identifier(text, nest.u8(ILA_ATTR_IDENT_TYPE))?;
    push_hook(text, nest.u8(ILA_ATTR_HOOK_TYPE))
}

/// Appends the locator, if there is one.
#[tactic(auto, unfolding(crate::specs::Ila::locator_part, netlink_words::specs::Parts::with_part))]
fn push_locator(alloc: Global, text: &mut String, locator: Option<u64>) -> Result<(), AllocError>
    ensures { OnOk result (AddsPart text.old text.new (locator_part locator)) }
{
    match locator {
        None => Ok(()),
        Some(locator) => push_part(text, locator_text(alloc, locator)?.as_str()),
    }
}

/// Returns a locator as four hexadecimal numbers with colons between them.
#[tactic(auto, unfolding(crate::specs::Ila::locator_text))]
fn locator_text(alloc: Global, locator: u64) -> Result<String, AllocError>
    ensures { IfOk result (λ text. string_bytes text ≡ locator_text locator) }
{
    let first = locator / 0x1_0000_0000_0000;
    let second = locator / 0x1_0000_0000 % 0x1_0000;
    let third = locator / 0x1_0000 % 0x1_0000;
    let last = locator % 0x1_0000;
    format!(in alloc; "{first:x}:{second:x}:{third:x}:{last:x}")
}

/// Appends how the checksum stays right, if it is there.
#[tactic(auto, unfolding(crate::specs::Ila::checksum_part, netlink_words::specs::Parts::with_part))]
fn push_checksum(text: &mut String, mode: Option<u8>) -> Result<(), AllocError>
    ensures { OnOk result (AddsPart text.old text.new (checksum_part mode)) }
{
    match mode {
        None => Ok(()),
        Some(mode) => push_keyed(text, "csum-mode", checksum_name(mode)),
    }
}

/// Returns the name of a way to keep the checksum; `unknown` for those without a name.
#[tactic(auto, unfolding(crate::specs::Ila::checksum_name))]
pub fn checksum_name(mode: u8) -> &'static str
    ensures { result.now ≡ checksum_name mode }
{
    match mode {
        0 => "adj-transport",
        1 => "neutral-map",
        2 => "no-action",
        3 => "neutral-map-auto",
        _ => "unknown",
    }
}

/// Appends the type of the identifier, if it is there.
#[tactic(auto, unfolding(crate::specs::Ila::identifier_part, netlink_words::specs::Parts::with_part))]
fn push_identifier(text: &mut String, kind: Option<u8>) -> Result<(), AllocError>
    ensures { OnOk result (AddsPart text.old text.new (identifier_part kind)) }
{
    match kind {
        None => Ok(()),
        Some(kind) => push_keyed(text, "ident-type", identifier_name(kind)),
    }
}

/// Returns the name of a type of identifiers; `unknown` for those without a name.
#[tactic(auto, unfolding(crate::specs::Ila::identifier_name))]
pub fn identifier_name(kind: u8) -> &'static str
    ensures { result.now ≡ identifier_name kind }
{
    match kind {
        0 => "iid",
        1 => "luid",
        2 => "virt-v4",
        3 => "virt-uni-v6",
        4 => "virt-multi-v6",
        5 => "nonlocal-addr",
        32 => "use-format",
        _ => "unknown",
    }
}

/// Appends the place of the hook, if it is there.
#[tactic(auto, unfolding(crate::specs::Ila::hook_part, netlink_words::specs::Parts::with_part))]
fn push_hook(text: &mut String, place: Option<u8>) -> Result<(), AllocError>
    ensures { OnOk result (AddsPart text.old text.new (hook_part place)) }
{
    match place {
        None => Ok(()),
        Some(place) => push_keyed(text, "hook-type", hook_name(place)),
    }
}

/// Returns the name of the place of a hook; `unknown` for those without a name.
#[tactic(auto, unfolding(crate::specs::Ila::hook_name))]
pub fn hook_name(place: u8) -> &'static str
    ensures { result.now ≡ hook_name place }
{
    match place {
        0 => "output",
        1 => "input",
        _ => "unknown",
    }
}
