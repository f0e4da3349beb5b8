//! Numbers with a fraction.

ghost use Rattle.std.specs.Prelude.{◌≡◌, ◌++◌, OnOk, string_bytes};
ghost use Rattle.netlink_json.specs.Json.{fraction_text, hundredths_text, last_text, number_text};

use std::alloc::AllocError;

/// Appends a number of hundredths, without zeros at its end. Returns `AllocError` if an allocation
/// fails.
pub(crate) fn push_hundredths(text: &mut String, number: u64) -> Result<(), AllocError>
    ensures { OnOk result (string_bytes text.new ≡ string_bytes text.old ++ hundredths_text number) }
{
    push_number(text, number / 100)?;
    push_fraction(text, number % 100)
}

/// Appends a number.
fn push_number(text: &mut String, number: u64) -> Result<(), AllocError>
    ensures { OnOk result (string_bytes text.new ≡ string_bytes text.old ++ number_text number) }
{
    write!(text, "{number}")
}

/// Appends a point and fewer than 100 hundredths; nothing for 0.
fn push_fraction(text: &mut String, number: u64) -> Result<(), AllocError>
    ensures { OnOk result (string_bytes text.new ≡ string_bytes text.old ++ fraction_text number) }
{
    if number == 0 {
        return Ok(());
    }
    let tenths = number / 10;
    write!(text, ".{tenths}")?;
    push_last(text, number % 10)
}

/// Appends the last digit, unless it is 0.
fn push_last(text: &mut String, digit: u64) -> Result<(), AllocError>
    ensures { OnOk result (string_bytes text.new ≡ string_bytes text.old ++ last_text digit) }
{
    if digit == 0 {
        return Ok(());
    }
    write!(text, "{digit}")
}
