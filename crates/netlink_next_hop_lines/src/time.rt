//! Times in hundredths of a second, and numbers of 2 bytes.

ghost use Rattle.std.specs.Prelude.{◌≡◌, IfOk, OnOk, string_bytes};
ghost use Rattle.netlink_next_hop_lines.specs.Time.{time_part, time_text};
ghost use Rattle.netlink_words.specs.Parts.{AddsPart, keyed, number_part, or_zero};

use netlink_words::parts::{push_keyed, push_number};
use std::alloc::{AllocError, Global};

/// Appends a key and a time in seconds, if there is one, given in hundredths.
#[tactic(auto, unfolding(crate::specs::Time::time_part, netlink_words::specs::Parts::with_part))]
pub(crate) fn push_time(
    alloc: Global,
    text: &mut String,
    key: &str,
    hundredths: Option<u64>,
) -> Result<(), AllocError>
    ensures { OnOk result (AddsPart text.old text.new (time_part key.now hundredths)) }
{
    match hundredths {
        None => Ok(()),
        Some(hundredths) => push_seconds(alloc, text, key, hundredths),
    }
}

/// Appends a key and a time in seconds, given in hundredths.
pub(crate) fn push_seconds(
    alloc: Global,
    text: &mut String,
    key: &str,
    hundredths: u64,
) -> Result<(), AllocError>
    ensures { OnOk result (AddsPart text.old text.new (keyed key.now (time_text hundredths))) }
{
    push_keyed(text, key, time_text(alloc, hundredths)?.as_str())
}

/// Returns a time in seconds, given in hundredths, without zeros at the end.
fn time_text(alloc: Global, hundredths: u64) -> Result<String, AllocError>
    ensures { IfOk result (λ text. string_bytes text ≡ time_text hundredths) }
{
    let seconds = hundredths / 100;
    let tenths = hundredths % 100 / 10;
    let last = hundredths % 10;
    if last != 0 {
        return format!(in alloc; "{seconds}.{tenths}{last}");
    }
    if tenths != 0 {
        return format!(in alloc; "{seconds}.{tenths}");
    }
    format!(in alloc; "{seconds}")
}

/// Appends a key and a number of 2 bytes, if there is one.
#[tactic(auto, unfolding(netlink_words::specs::Parts::number_part, netlink_words::specs::Parts::with_part))]
pub(crate) fn push_short(
    text: &mut String,
    key: &str,
    number: Option<u16>,
) -> Result<(), AllocError>
    ensures { OnOk result (AddsPart text.old text.new (number_part key.now number)) }
{
    match number {
        None => Ok(()),
        Some(number) => push_number(text, key, Some(number as u32)),
    }
}

/// Returns a number of 2 bytes, or 0 if there is none.
pub(crate) fn short_or_zero(number: Option<u16>) -> u32
    ensures { result ≡ or_zero number }
{
    match number {
        None => 0,
        Some(number) => number as u32,
    }
}

/// Returns a number of 8 bytes, or 0 if there is none.
pub(crate) fn long_or_zero(number: Option<u64>) -> u64
    ensures { result ≡ or_zero number }
{
    match number {
        None => 0,
        Some(number) => number,
    }
}
