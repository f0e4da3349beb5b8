//! The flags of a link by their names.

ghost use Rattle.std.specs.Prelude.{◌≡◌, ◌≤◌, ◌++◌, IfOk, OnOk, codes, drop, length, string_bytes, take};
ghost use Rattle.netlink_link_lines.specs.Flags.{first_flag, flag_name, flags_text, named_flags, with_flag, with_unnamed};
ghost use Rattle.netlink_words.specs.Text.{separated};

use std::alloc::{AllocError, Global};

const IFF_UP: u32 = 0x1;

const IFF_RUNNING: u32 = 0x40;

/// The bits that have no name in linux/if.h.
pub const UNNAMED: u32 = 0xfff8_0000;

/// The flags of linux/if.h but for `IFF_RUNNING`, in the order in which `ip` names them.
const ORDER: [u32; 18] = [
    0x8, 0x2, 0x10, 0x1000, 0x80, 0x200, 0x100, 0x400, 0x800, 0x4, 0x8000, 0x4000, 0x2000, 0x20,
    0x1, 0x10000, 0x20000, 0x40000,
];

/// The names of the flags that are set, with commas between them. `NO-CARRIER` stands first where
/// the link is up and not running, and the bits without a name last, as one hexadecimal number. Returns `AllocError` if an allocation fails.
pub fn flags_text(alloc: Global, flags: u32) -> Result<String, AllocError>
    ensures { IfOk result (λ text. string_bytes text ≡ flags_text flags) }
{
    let mut text = String::new(alloc);
    push_flags(alloc, &mut text, flags)?;
    Ok(text)
}

/// Appends the names of the flags that are set, as `flags_text` returns them.
#[tactic(auto, using(crate::proofs::Listed::cut_front, crate::proofs::Listed::cut_rest, crate::proofs::Listed::still_room), unfolding(crate::specs::Flags::flags_text))]
pub(crate) fn push_flags(alloc: Global, text: &mut String, flags: u32) -> Result<(), AllocError>
    ensures { OnOk result (string_bytes text.new ≡ string_bytes text.old ++ flags_text flags) }
{
    let start = text.len();
    text.push_str(first_flag(flags))?;
    push_flag_names(text, start, flags)?;
    push_unnamed_bits(alloc, text, start, flags & UNNAMED)
}

/// `NO-CARRIER` where a link is up and not running.
pub fn first_flag(flags: u32) -> &'static str
    ensures { result.now ≡ first_flag flags }
{
    if flags & IFF_UP != 0 && flags & IFF_RUNNING == 0 {
        "NO-CARRIER"
    } else {
        ""
    }
}

/// Adds the names of the flags that are set to a list that starts at an offset of the text.
#[tactic(auto, using(crate::proofs::Listed::still_room), unfolding(crate::specs::Flags::named_flags))]
fn push_flag_names(text: &mut String, start: usize, flags: u32) -> Result<(), AllocError>
    requires room { start ≤ length (string_bytes text.old) }
    ensures { OnOk result (string_bytes text.new
        ≡ take start (string_bytes text.old) ++ named_flags flags (drop start (string_bytes text.old))) }
{
    for bit in ORDER {
        push_flag(text, start, flags, bit)?;
    }
    Ok(())
}

/// Adds the name of a flag where it is set.
#[tactic(auto, using(crate::proofs::Listed::none_more))]
fn push_flag(text: &mut String, start: usize, flags: u32, bit: u32) -> Result<(), AllocError>
    requires room { start ≤ length (string_bytes text.old) }
    ensures { OnOk result (string_bytes text.new
        ≡ take start (string_bytes text.old) ++ with_flag flags (drop start (string_bytes text.old)) bit) }
{
    if flags & bit == 0 {
        return Ok(());
    }
    push_listed(text, start, flag_name(bit))
}

/// Adds a word to the list that starts at an offset, after a comma unless the list is empty.
#[tactic(auto, using(crate::proofs::Listed::first_more, crate::proofs::Listed::next_more))]
fn push_listed(text: &mut String, start: usize, word: &str) -> Result<(), AllocError>
    requires room { start ≤ length (string_bytes text.old) }
    ensures { OnOk result (string_bytes text.new ≡ take start (string_bytes text.old)
        ++ separated (codes ",") (drop start (string_bytes text.old)) word.now) }
{
    if text.len() > start {
        text.push(',')?;
    }
    text.push_str(word)
}

/// The name of a flag (`IFF_*` of linux/if.h); nothing for other numbers.
#[tactic(auto, unfolding(crate::specs::Flags::flag_name))]
fn flag_name(bit: u32) -> &'static str
    ensures { result.now ≡ flag_name bit }
{
    match bit {
        0x8 => "LOOPBACK",
        0x2 => "BROADCAST",
        0x10 => "POINTOPOINT",
        0x1000 => "MULTICAST",
        0x80 => "NOARP",
        0x200 => "ALLMULTI",
        0x100 => "PROMISC",
        0x400 => "MASTER",
        0x800 => "SLAVE",
        0x4 => "DEBUG",
        0x8000 => "DYNAMIC",
        0x4000 => "AUTOMEDIA",
        0x2000 => "PORTSEL",
        0x20 => "NOTRAILERS",
        0x1 => "UP",
        0x10000 => "LOWER_UP",
        0x20000 => "DORMANT",
        0x40000 => "ECHO",
        _ => "",
    }
}

/// Adds the bits without a name.
#[tactic(auto, using(crate::proofs::Listed::none_more))]
fn push_unnamed_bits(
    alloc: Global,
    text: &mut String,
    start: usize,
    rest: u32,
) -> Result<(), AllocError>
    requires room { start ≤ length (string_bytes text.old) }
    ensures { OnOk result (string_bytes text.new
        ≡ take start (string_bytes text.old) ++ with_unnamed rest (drop start (string_bytes text.old))) }
{
    if rest == 0 {
        return Ok(());
    }
    push_listed(text, start, format!(in alloc; "{rest:x}")?.as_str())
}
