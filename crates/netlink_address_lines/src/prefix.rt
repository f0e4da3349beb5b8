//! The line of an announced prefix.

ghost use Rattle.std.specs.Prelude.{◌≡◌, IfOk, OnOk, string_bytes};
ghost use Rattle.std.specs.Option.{option_copied};
ghost use Rattle.netlink_address_lines.specs.Prefix.{flag_parts, lifetime_parts, prefix_address, prefix_index, prefix_line, prefix_part, with_length};
ghost use Rattle.netlink_words.specs.Parts.{AddsPart, AddsParts};

use netlink_family::MessageView;
use netlink_names::device::{Known, push_device};
use netlink_names::name_table::Names;
use netlink_packet_core::u32_at;
use netlink_route::Prefixes;
use netlink_route::prefixes::{
    PREFIX_ADDRESS, PREFIX_CACHEINFO, PREFIX_FLAGS, PREFIX_IFINDEX, PREFIX_LEN,
};
use netlink_words::parts::{or_empty, push_number, push_part, push_when};
use netlink_words::text::ip_words;
use std::alloc::{AllocError, Global};

// The flags that have names, two bits for each: an older kernel sends `IF_PREFIX_*` of net/if_inet6.h,
// and a newer one the flags that the router announced (RFC 4861, 4.6.2).
const ONLINK: u8 = 0x81;

const AUTOCONF: u8 = 0x42;

/// More bytes than most lines have, so that a line does not grow step by step.
const USUAL: usize = 128;

/// Returns the line of a message about an announced prefix, as `ip monitor prefix` prints it, with one
/// space between its parts: the prefix, the link, the flags, and how long it is valid and preferred in
/// seconds. A known link is named, and any other is `if` and its index. Returns `AllocError` if an
/// allocation fails.
pub fn prefix_text(
    alloc: Global,
    known: &[Known],
    prefix: &MessageView<'_, Prefixes>,
) -> Result<String, AllocError>
    ensures line { IfOk result (λ text. string_bytes text ≡ prefix_line known.now prefix.now.payload.now) }
{
    prefix_line(alloc, &Names::of(known), prefix)
}

/// Returns the line of a message about an announced prefix, as `prefix_text` does.
#[tactic(auto, unfolding(crate::specs::Prefix::prefix_line))]
pub fn prefix_line(
    alloc: Global,
    known: &Names<'_>,
    prefix: &MessageView<'_, Prefixes>,
) -> Result<String, AllocError>
    ensures { IfOk result (λ text. string_bytes text ≡ prefix_line known.now prefix.now.payload.now) }
{
    let mut text = String::with_capacity(alloc, USUAL)?;
    push_prefix(
        alloc,
        &mut text,
        address_of(prefix),
        prefix.header().u8(PREFIX_LEN),
    )?;
    push_device(&mut text, known, "dev", Some(index_of(prefix)))?;
    push_flags(&mut text, prefix.header().u8(PREFIX_FLAGS))?;
    push_lifetimes(&mut text, prefix.view().bytes(PREFIX_CACHEINFO))?;
    text.push_str("\n")?;
    Ok(text)
}

/// Returns the address of a prefix; empty if there is none.
fn address_of<'a>(prefix: &MessageView<'a, Prefixes>) -> &'a [u8]
    ensures { result.now ≡ prefix_address prefix.now.payload.now }
{
    or_empty(prefix.view().ip(PREFIX_ADDRESS))
}

/// Returns the index of the link in the header.
fn index_of(prefix: &MessageView<'_, Prefixes>) -> u32
    ensures { result ≡ prefix_index prefix.now.payload.now }
{
    prefix.header().i32(PREFIX_IFINDEX).cast_unsigned()
}

/// Appends an address and the length of the prefix, after `prefix`; nothing without an address.
#[tactic(auto, unfolding(crate::specs::Prefix::prefix_part, netlink_words::specs::Parts::with_part))]
fn push_prefix(
    alloc: Global,
    text: &mut String,
    address: &[u8],
    length: u8,
) -> Result<(), AllocError>
    ensures { OnOk result (AddsPart text.old text.new (prefix_part address.now length)) }
{
    let words = with_length(alloc, ip_words(alloc, address)?, length)?;
    push_part(text, words.as_str())
}

/// Returns an address and the length of the prefix, after `prefix`; nothing without an address.
#[tactic(auto, unfolding(crate::specs::Prefix::with_length))]
fn with_length(alloc: Global, address: String, length: u8) -> Result<String, AllocError>
    ensures { IfOk result (λ text. string_bytes text ≡ with_length (string_bytes address) length) }
{
    if address.is_empty() {
        return Ok(address);
    }
    format!(in alloc; "prefix {address}/{length}")
}

/// Appends the names of the flags that are set.
#[tactic(auto, unfolding(crate::specs::Prefix::flag_parts))]
fn push_flags(text: &mut String, flags: u8) -> Result<(), AllocError>
    ensures { OnOk result (AddsParts text.old text.new (flag_parts flags)) }
{
    push_when(text, flags & ONLINK != 0, "onlink")?;
    push_when(text, flags & AUTOCONF != 0, "autoconf")
}

/// Appends how long a prefix is valid and preferred, given its `PREFIX_CACHEINFO`.
#[tactic(auto, unfolding(crate::specs::Prefix::lifetime_parts))]
fn push_lifetimes(text: &mut String, info: Option<&[u8]>) -> Result<(), AllocError>
    ensures { OnOk result (AddsParts text.old text.new (lifetime_parts (option_copied info.entry))) }
{
    match info {
        None => Ok(()),
        Some(info) => {
            if info.len() < 8 {
                return Ok(());
            }
            push_number(text, "valid", Some(u32_at(info, 4)))?;
            push_number(text, "preferred", Some(u32_at(info, 0)))
        }
    }
}
