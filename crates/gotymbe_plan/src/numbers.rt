//! Numbers as people read them.

ghost use Rattle.std.specs.Prelude.{◌≡◌, ◌+◌, ◌++◌, ◌<◌, ◌∷◌, [], ℕ, List, OnOk, string_bytes};
ghost use Rattle.gotymbe_plan.specs.Numbers.{IsGrouped, three_digits};

use std::alloc::AllocError;

/// Appends a number in decimal digits, with a comma before each three digits that end it, as `40,987`. `AllocError`
/// where a growth was refused.
pub fn push_grouped(out: &mut String, number: u64) -> Result<(), AllocError>
    ensures { OnOk result ((text : List ℕ) × IsGrouped number text
        × (string_bytes out.new ≡ string_bytes out.old ++ text)) }
{
    if number < 1000 {
        return write!(out, "{number}");
    }
    push_grouped(out, number / 1000)?;
    out.push(',')?;
    push_three_digits(out, number % 1000)
}

// Appends three digits.
fn push_three_digits(out: &mut String, number: u64) -> Result<(), AllocError>
    requires { number < 1000 }
    ensures { OnOk result (string_bytes out.new ≡ string_bytes out.old ++ three_digits number) }
{
    push_digit(out, number / 100)?;
    push_digit(out, number / 10 % 10)?;
    push_digit(out, number % 10)
}

fn push_digit(out: &mut String, digit: u64) -> Result<(), AllocError>
    requires { digit < 10 }
    ensures { OnOk result
        (string_bytes out.new ≡ string_bytes out.old ++ (48 + digit) ∷ []) }
{
    out.push((b'0' + digit as u8) as char)
}
