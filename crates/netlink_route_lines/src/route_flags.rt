//! The flags of routes and next hops, and the preference of a router.

ghost use Rattle.std.specs.Prelude.{◌≡◌, IfOk, OnOk, string_bytes};
ghost use Rattle.netlink_words.specs.Parts.{AddsPart};
ghost use Rattle.netlink_route_lines.specs.RouteFlags.{hop_flag_name, hop_flags_text, preference_part, preference_text, with_hop_flag};

use netlink_words::parts::push_part;
use std::alloc::{AllocError, Global};

/// The flags of a route and a next hop that have names (`RTNH_F_*` and `RTM_F_*` of
/// linux/rtnetlink.h), in the order in which `ip` names them.
pub const ORDER: [u32; 11] = [
    0x1,
    0x4,
    0x2,
    0x8,
    0x40,
    0x100,
    0x10,
    0x20,
    0x4000,
    0x8000,
    0x2000_0000,
];

/// Appends the name of a router's preference, an `ICMPV6_ROUTER_PREF_*` of linux/icmpv6.h, after
/// `pref`; for any other number, only the number.
fn push_preference(alloc: Global, text: &mut String, preference: u8) -> Result<(), AllocError>
    ensures { OnOk result (AddsPart text.old text.new (preference_text preference)) }
{
    let name = match preference {
        0 => "pref medium",
        1 => "pref high",
        3 => "pref low",
        _ => return push_part(text, format!(in alloc; "{preference}")?.as_str()),
    };
    push_part(text, name)
}

/// Appends the preference of a router, if there is one.
#[tactic(auto, unfolding(netlink_words::specs::Parts::with_part))]
pub(crate) fn push_preference_part(
    alloc: Global,
    text: &mut String,
    preference: Option<u8>,
) -> Result<(), AllocError>
    ensures { OnOk result (AddsPart text.old text.new (preference_part preference)) }
{
    match preference {
        Some(preference) => push_preference(alloc, text, preference),
        None => Ok(()),
    }
}

/// Returns the names of the flags that are set, with spaces between them.
#[tactic(auto, unfolding(crate::specs::RouteFlags::hop_flags_text))]
fn hop_flags_text(alloc: Global, flags: u32) -> Result<String, AllocError>
    ensures { IfOk result (λ text. string_bytes text ≡ hop_flags_text flags) }
{
    let mut text = String::new(alloc);
    for bit in ORDER {
        push_hop_flag(&mut text, flags, bit)?;
    }
    Ok(text)
}

/// Appends the names of the flags that are set, as a part of a line. Returns `AllocError` if an
/// allocation fails.
#[tactic(auto, unfolding(crate::specs::RouteFlags::hop_flags_text, netlink_words::specs::Parts::with_part))]
pub fn push_hop_flags(alloc: Global, text: &mut String, flags: u32) -> Result<(), AllocError>
    ensures flags { OnOk result (AddsPart text.old text.new (hop_flags_text flags)) }
{
    if flags == 0 {
        return Ok(());
    }
    push_part(text, hop_flags_text(alloc, flags)?.as_str())
}

/// Appends the name of a flag if it is set.
fn push_hop_flag(text: &mut String, flags: u32, bit: u32) -> Result<(), AllocError>
    ensures { OnOk result (string_bytes text.new ≡ with_hop_flag flags (string_bytes text.old) bit) }
{
    if flags & bit == 0 {
        return Ok(());
    }
    push_part(text, hop_flag_name(bit))
}

/// Returns the name of a flag; nothing for other numbers.
#[tactic(auto, unfolding(crate::specs::RouteFlags::hop_flag_name))]
pub fn hop_flag_name(bit: u32) -> &'static str
    ensures { result.now ≡ hop_flag_name bit }
{
    match bit {
        0x1 => "dead",
        0x4 => "onlink",
        0x2 => "pervasive",
        0x8 => "offload",
        0x40 => "trap",
        0x100 => "notify",
        0x10 => "linkdown",
        0x20 => "unresolved",
        0x4000 => "rt_offload",
        0x8000 => "rt_trap",
        0x2000_0000 => "rt_offload_failed",
        _ => "",
    }
}
