//! Values in a block of attributes.

ghost use Rattle.std.specs.Prelude.{◌≡◌, OnOk};
ghost use Rattle.std.specs.Option.{option_copied};
ghost use Rattle.netlink_traffic_lines.specs.Values.{counted, is_set, number_in, number_of, unit_part};
ghost use Rattle.netlink_words.specs.Parts.{AddsPart};

use netlink_packet_core::u32_at;
use netlink_shapes::find::first_value;
use netlink_words::parts::{push_number, push_part};
use std::alloc::{AllocError, Global};

/// Returns the number in the first four bytes of the first attribute of a kind; none if it is shorter.
pub(crate) fn number_in(block: &[u8], kind: u16) -> Option<u32>
    ensures { result ≡ number_in block.now kind }
{
    number_of(first_value(block, kind))
}

/// Returns the number in the first four bytes of a value; none if it is shorter.
#[tactic(auto, unfolding(crate::specs::Values::number_of))]
fn number_of(value: Option<&[u8]>) -> Option<u32>
    ensures { result ≡ number_of (option_copied value.entry) }
{
    match value {
        None => None,
        Some(value) => {
            if value.len() < 4 {
                return None;
            }
            Some(u32_at(value, 0))
        }
    }
}

/// Returns whether there is a number other than 0.
#[tactic(auto, unfolding(crate::specs::Values::is_set))]
pub(crate) fn is_set(number: Option<u32>) -> bool
    ensures { result ≡ is_set number }
{
    match number {
        None => false,
        Some(number) => number != 0,
    }
}

/// Appends a key and a number, unless the number is 0.
#[tactic(auto, unfolding(crate::specs::Values::counted, netlink_words::specs::Parts::with_part))]
pub(crate) fn push_counted(text: &mut String, key: &str, number: u32) -> Result<(), AllocError>
    ensures { OnOk result (AddsPart text.old text.new (counted key.now number)) }
{
    if number == 0 {
        return Ok(());
    }
    push_number(text, key, Some(number))
}

/// Appends a key and a number with its unit, if there is one.
#[tactic(auto, unfolding(crate::specs::Values::unit_part, netlink_words::specs::Parts::with_part))]
pub(crate) fn push_unit(
    alloc: Global,
    text: &mut String,
    key: &str,
    unit: &str,
    number: Option<u32>,
) -> Result<(), AllocError>
    ensures { OnOk result (AddsPart text.old text.new (unit_part key.now unit.now number)) }
{
    match number {
        None => Ok(()),
        Some(number) => push_part(text, format!(in alloc; "{key} {number}{unit}")?.as_str()),
    }
}
