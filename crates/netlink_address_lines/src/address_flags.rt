//! The flags and the lifetimes of an address.

ghost use Rattle.std.specs.Prelude.{◌≡◌, ◌++◌, OnOk, codes, string_bytes};
ghost use Rattle.std.specs.Option.{option_copied};
ghost use Rattle.netlink_address_lines.specs.AddressFlags.{address_flag, flags_text, is_shown, lifetime_parts, named_flags, preferred_text, rest_part, seconds_text, with_flag};
ghost use Rattle.netlink_words.specs.Parts.{AddsPart, AddsParts, keyed};

use netlink_packet_core::{i32_at, u32_at};
use netlink_words::digits::push_decimal;
use netlink_words::parts::{push_key, push_keyed, push_when};
use std::alloc::{AllocError, Global};

const IFA_F_DEPRECATED: u32 = 0x20;

const IFA_F_PERMANENT: u32 = 0x80;

/// The bits that have no name in linux/if_addr.h.
const UNNAMED: u32 = 0xffff_f000;

/// The flags of linux/if_addr.h (`IFA_F_*`), in the order in which `ip` names them.
const ORDER: [u32; 12] = [
    0x1, 0x2, 0x4, 0x8, 0x10, 0x20, 0x40, 0x80, 0x100, 0x200, 0x400, 0x800,
];

/// Appends the names of the flags that are set, and `dynamic` if an address is not permanent. The
/// bits without a name come last, as one hexadecimal number.
#[tactic(auto, unfolding(crate::specs::AddressFlags::flags_text))]
pub(crate) fn push_flags(
    alloc: Global,
    text: &mut String,
    family: u8,
    flags: u32,
) -> Result<(), AllocError>
    ensures { OnOk result
        (string_bytes text.new ≡ flags_text family flags (string_bytes text.old)) }
{
    push_flag_names(text, family, flags)?;
    push_rest(alloc, text, flags & UNNAMED)
}

/// Appends the names of the flags, in their order.
#[tactic(auto, unfolding(crate::specs::AddressFlags::named_flags))]
fn push_flag_names(text: &mut String, family: u8, flags: u32) -> Result<(), AllocError>
    ensures { OnOk result
        (string_bytes text.new ≡ named_flags family flags (string_bytes text.old)) }
{
    for bit in ORDER {
        push_flag(text, family, flags, bit)?;
    }
    Ok(())
}

/// Appends the name of a flag if it is shown.
fn push_flag(text: &mut String, family: u8, flags: u32, bit: u32) -> Result<(), AllocError>
    ensures { OnOk result
        (string_bytes text.new ≡ with_flag family flags (string_bytes text.old) bit) }
{
    push_when(text, is_shown(flags, bit), address_flag(family, bit))
}

/// Returns whether a flag is shown: whether it is set, or for that of permanent addresses, whether
/// it is not.
fn is_shown(flags: u32, bit: u32) -> bool
    ensures { result ≡ is_shown flags bit }
{
    if bit == IFA_F_PERMANENT {
        return flags & bit == 0;
    }
    flags & bit != 0
}

/// Returns the name of a flag; nothing for other numbers. Of an IPv6 address, the first one means
/// that it is temporary.
#[tactic(auto, unfolding(crate::specs::AddressFlags::address_flag))]
fn address_flag(family: u8, bit: u32) -> &'static str
    ensures { result.now ≡ address_flag family bit }
{
    match bit {
        0x1 => {
            if family == 10 {
                "temporary"
            } else {
                "secondary"
            }
        }
        0x2 => "nodad",
        0x4 => "optimistic",
        0x8 => "dadfailed",
        0x10 => "home",
        0x20 => "deprecated",
        0x40 => "tentative",
        0x80 => "dynamic",
        0x100 => "mngtmpaddr",
        0x200 => "noprefixroute",
        0x400 => "autojoin",
        0x800 => "stable-privacy",
        _ => "",
    }
}

/// Appends the bits without a name, if any is set.
#[tactic(auto, unfolding(crate::specs::AddressFlags::rest_part, netlink_words::specs::Parts::with_part))]
fn push_rest(alloc: Global, text: &mut String, rest: u32) -> Result<(), AllocError>
    ensures { OnOk result (AddsPart text.old text.new (rest_part rest)) }
{
    if rest == 0 {
        return Ok(());
    }
    push_keyed(text, "flags", format!(in alloc; "{rest:x}")?.as_str())
}

/// Appends how long an address is valid and preferred, given its flags and its `IFA_CACHEINFO`.
#[tactic(auto, unfolding(crate::specs::AddressFlags::lifetime_parts))]
pub(crate) fn push_lifetimes(
    alloc: Global,
    text: &mut String,
    flags: u32,
    info: Option<&[u8]>,
) -> Result<(), AllocError>
    ensures { OnOk result (AddsParts text.old text.new (lifetime_parts flags (option_copied info.entry))) }
{
    match info {
        None => Ok(()),
        Some(info) => {
            if info.len() < 16 {
                return Ok(());
            }
            push_seconds(text, "valid_lft", u32_at(info, 4))?;
            push_preferred(alloc, text, flags, u32_at(info, 0), i32_at(info, 0))
        }
    }
}

/// Appends a key and a time in seconds.
#[tactic(auto, using(crate::proofs::Pieces::seconds_more))]
fn push_seconds(text: &mut String, key: &str, seconds: u32) -> Result<(), AllocError>
    ensures { OnOk result (AddsPart text.old text.new (keyed key.now (seconds_text seconds))) }
{
    push_key(text, key)?;
    push_time(text, seconds)
}

/// Appends a time in seconds; `forever` for 2^32 - 1.
fn push_time(text: &mut String, seconds: u32) -> Result<(), AllocError>
    ensures { OnOk result (string_bytes text.new ≡ string_bytes text.old ++ seconds_text seconds) }
{
    if seconds == u32::MAX {
        return text.push_str("forever");
    }
    push_decimal(text, seconds)?;
    text.push_str("sec")
}

/// Appends how long an address is preferred, given as an unsigned number and as a signed one, which
/// is that of a deprecated address.
fn push_preferred(
    alloc: Global,
    text: &mut String,
    flags: u32,
    seconds: u32,
    signed: i32,
) -> Result<(), AllocError>
    ensures { OnOk result
        (AddsPart text.old text.new (keyed (codes "preferred_lft") (preferred_text flags seconds signed))) }
{
    if seconds == u32::MAX || flags & IFA_F_DEPRECATED == 0 {
        return push_seconds(text, "preferred_lft", seconds);
    }
    push_keyed(
        text,
        "preferred_lft",
        format!(in alloc; "{signed}sec")?.as_str(),
    )
}
