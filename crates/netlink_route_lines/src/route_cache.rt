//! What the kernel keeps of a route that was looked up, and the lifetime of a route.

ghost use Rattle.std.specs.Prelude.{◌≡◌, IfOk, OnOk, string_bytes};
ghost use Rattle.std.specs.Option.{option_copied};
ghost use Rattle.netlink_words.specs.Parts.{AddsPart, AddsParts};
ghost use Rattle.netlink_route_lines.specs.Route.{mark_part};
ghost use Rattle.netlink_route_lines.specs.RouteCache.{cache_flag_name, cache_flags, cache_of, cache_part, error_part, expires_part, lifetime_parts, named_cache_flags, with_cache_flag, with_rest};

use netlink_packet_core::{i32_at, u32_at};
use netlink_words::parts::push_part;
use netlink_words::text::push_separated;
use std::alloc::{AllocError, Global};

/// The flag of a route that the kernel looked up for a request.
pub const RTM_F_CLONED: u32 = 0x200;

/// The bits of the flags that have no name in linux/in_route.h.
pub const UNNAMED: u32 = 0x0210_0000;

/// The flags of linux/in_route.h, in the order in which `ip` names them.
pub const ORDER: [u32; 14] = [
    0x8000_0000,
    0x4000_0000,
    0x2000_0000,
    0x1000_0000,
    0x0800_0000,
    0x0080_0000,
    0x0040_0000,
    0x0002_0000,
    0x0400_0000,
    0x0004_0000,
    0x0100_0000,
    0x0020_0000,
    0x0001_0000,
    0x0008_0000,
];

/// Appends `cache` for an IPv4 route that was looked up, and the names of its flags in angle
/// brackets if any is set.
#[tactic(auto, unfolding(netlink_words::specs::Parts::with_part))]
pub(crate) fn push_cache(
    alloc: Global,
    text: &mut String,
    family: u8,
    flags: u32,
) -> Result<(), AllocError>
    ensures { OnOk result (AddsPart text.old text.new (cache_part family flags)) }
{
    if family != 2 || flags & RTM_F_CLONED == 0 {
        return Ok(());
    }
    push_part(text, cache_text(alloc, flags)?.as_str())
}

/// Returns `cache`, and the names of the flags in angle brackets if any is set.
fn cache_text(alloc: Global, flags: u32) -> Result<String, AllocError>
    ensures { IfOk result (λ text. string_bytes text ≡ cache_of (cache_flags flags)) }
{
    let names = cache_flags(alloc, flags)?;
    if names.is_empty() {
        return String::from_str(alloc, "cache");
    }
    format!(in alloc; "cache <{names}>")
}

/// Returns the names of the flags that are set, with commas between them. The bits without a name
/// come last, as one hexadecimal number.
#[tactic(auto, unfolding(crate::specs::RouteCache::cache_flags))]
fn cache_flags(alloc: Global, flags: u32) -> Result<String, AllocError>
    ensures { IfOk result (λ text. string_bytes text ≡ cache_flags flags) }
{
    let mut names = named_flags(alloc, flags)?;
    push_unnamed_flags(alloc, &mut names, flags & UNNAMED)?;
    Ok(names)
}

/// Returns the names of the flags that are set, with commas between them.
#[tactic(auto, unfolding(crate::specs::RouteCache::named_cache_flags))]
fn named_flags(alloc: Global, flags: u32) -> Result<String, AllocError>
    ensures { IfOk result (λ text. string_bytes text ≡ named_cache_flags flags) }
{
    let mut names = String::new(alloc);
    for bit in ORDER {
        push_cache_flag(&mut names, flags, bit)?;
    }
    Ok(names)
}

/// Appends the name of a flag if it is set.
fn push_cache_flag(names: &mut String, flags: u32, bit: u32) -> Result<(), AllocError>
    ensures { OnOk result
        (string_bytes names.new ≡ with_cache_flag flags (string_bytes names.old) bit) }
{
    if flags & bit == 0 {
        return Ok(());
    }
    push_separated(names, ",", cache_flag_name(bit))
}

/// Appends the bits without a name.
fn push_unnamed_flags(alloc: Global, names: &mut String, rest: u32) -> Result<(), AllocError>
    ensures { OnOk result (string_bytes names.new ≡ with_rest rest (string_bytes names.old)) }
{
    if rest == 0 {
        return Ok(());
    }
    push_separated(names, ",", format!(in alloc; "{rest:x}")?.as_str())
}

/// Returns the name of a flag; nothing for other numbers.
#[tactic(auto, unfolding(crate::specs::RouteCache::cache_flag_name))]
pub fn cache_flag_name(bit: u32) -> &'static str
    ensures { result.now ≡ cache_flag_name bit }
{
    match bit {
        0x8000_0000 => "local",
        0x4000_0000 => "reject",
        0x2000_0000 => "mc",
        0x1000_0000 => "brd",
        0x0800_0000 => "dst-nat",
        0x0080_0000 => "src-nat",
        0x0040_0000 => "masq",
        0x0002_0000 => "dst-direct",
        0x0400_0000 => "src-direct",
        0x0004_0000 => "redirected",
        0x0100_0000 => "redirect",
        0x0020_0000 => "fastroute",
        0x0001_0000 => "notify",
        0x0008_0000 => "proxy",
        _ => "",
    }
}

/// Appends the lifetime in seconds and the error of a route, given its `RTA_CACHEINFO`, if they are
/// not 0.
pub(crate) fn push_lifetime(
    alloc: Global,
    text: &mut String,
    info: Option<&[u8]>,
) -> Result<(), AllocError>
    ensures { OnOk result (AddsParts text.old text.new (lifetime_parts (option_copied info.entry))) }
{
    match info {
        None => Ok(()),
        Some(info) => {
            if info.len() < 16 {
                return Ok(());
            }
            push_part(text, expires_text(alloc, i32_at(info, 8))?.as_str())?;
            push_part(text, error_text(alloc, u32_at(info, 12))?.as_str())
        }
    }
}

/// Returns a lifetime other than 0, given in hundredths of a second.
fn expires_text(alloc: Global, expires: i32) -> Result<String, AllocError>
    ensures { IfOk result (λ text. string_bytes text ≡ expires_part expires) }
{
    if expires == 0 {
        return Ok(String::new(alloc));
    }
    let seconds = expires / 100;
    format!(in alloc; "expires {seconds}sec")
}

/// Returns an error other than 0.
fn error_text(alloc: Global, error: u32) -> Result<String, AllocError>
    ensures { IfOk result (λ text. string_bytes text ≡ error_part error) }
{
    if error == 0 {
        return Ok(String::new(alloc));
    }
    format!(in alloc; "error {error}")
}

/// Appends a mark other than 0, in hexadecimal if it is 16 or greater.
#[tactic(auto, unfolding(netlink_words::specs::Parts::with_part))]
pub(crate) fn push_mark(
    alloc: Global,
    text: &mut String,
    mark: Option<u32>,
) -> Result<(), AllocError>
    ensures { OnOk result (AddsPart text.old text.new (mark_part mark)) }
{
    match mark {
        None => Ok(()),
        Some(mark) => {
            if mark == 0 {
                return Ok(());
            }
            if mark < 16 {
                return push_part(text, format!(in alloc; "mark {mark}")?.as_str());
            }
            push_part(text, format!(in alloc; "mark 0x{mark:x}")?.as_str())
        }
    }
}
