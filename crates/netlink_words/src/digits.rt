//! Numbers in decimal, written to the end of a text.

ghost use Rattle.std.specs.Prelude.{◌≡◌, ◌<◌, ◌/◌, ◌%◌, ◌+◌, ◌++◌, ◌∷◌, [], OnOk, decimal, string_bytes};
ghost use Rattle.std.specs.Fmt.{signed_decimal};

use std::alloc::AllocError;

/// Appends a number in decimal. It is split into groups of three digits, and each digit is appended
/// by itself: lines have many numbers, and the formatter takes several times as long.
#[tactic(auto, using(crate::proofs::Threes::after_six))]
pub fn push_decimal(text: &mut String, number: u32) -> Result<(), AllocError>
    ensures { OnOk result (string_bytes text.new ≡ string_bytes text.old ++ decimal number) }
{
    if number < 1_000_000 {
        return push_thousands(text, number);
    }
    push_thousands(text, number / 1_000_000)?;
    push_three(text, number / 1000 % 1000)?;
    push_three(text, number % 1000)
}

/// Appends a signed number in decimal.
pub fn push_signed(text: &mut String, number: i32) -> Result<(), AllocError>
    ensures { OnOk result (string_bytes text.new ≡ string_bytes text.old ++ signed_decimal number) }
{
    if number < 0 {
        text.push('-')?;
    }
    push_decimal(text, number.unsigned_abs())
}

/// Appends a number below a million.
#[tactic(auto, using(crate::proofs::Threes::after_three))]
fn push_thousands(text: &mut String, number: u32) -> Result<(), AllocError>
    requires { number < 1000000 }
    ensures { OnOk result (string_bytes text.new ≡ string_bytes text.old ++ decimal number) }
{
    if number < 1000 {
        return push_short(text, number);
    }
    push_short(text, number / 1000)?;
    push_three(text, number % 1000)
}

/// Appends a number below 1000.
#[tactic(auto, using(crate::proofs::Threes::after_hundred, crate::proofs::Threes::after_two, crate::proofs::Threes::after_one))]
fn push_short(text: &mut String, number: u32) -> Result<(), AllocError>
    requires { number < 1000 }
    ensures { OnOk result (string_bytes text.new ≡ string_bytes text.old ++ decimal number) }
{
    if number >= 100 {
        return push_three(text, number);
    }
    if number >= 10 {
        push_digit(text, number / 10)?;
        return push_digit(text, number % 10);
    }
    push_digit(text, number)
}

/// Appends the three digits of a number below 1000, with zeros before it.
fn push_three(text: &mut String, number: u32) -> Result<(), AllocError>
    requires { number < 1000 }
    ensures { OnOk result (string_bytes text.new ≡ string_bytes text.old
        ++ ((48 + number / 100) ∷ (48 + number / 10 % 10) ∷ (48 + number % 10) ∷ [])) }
{
    push_digit(text, number / 100)?;
    push_digit(text, number / 10 % 10)?;
    push_digit(text, number % 10)
}

/// Appends a digit.
fn push_digit(text: &mut String, digit: u32) -> Result<(), AllocError>
    requires { digit < 10 }
    ensures { OnOk result (string_bytes text.new ≡ string_bytes text.old ++ ((48 + digit) ∷ [])) }
{
    text.push((48 + digit as u8) as char)
}
