//! Numbers of the data. Each function answers `AllocError` where a growth was refused.

ghost use Rattle.std.specs.Prelude.{◌≡◌, unsigned_abs};
ghost use Rattle.json.specs.Json.{string};
ghost use Rattle.trace_json.specs.Put.{PutsOne};
ghost use Rattle.trace_page.specs.PageValues.{is_exact, index_json, natural_json, integer_json};
ghost use Rattle.trace_page.specs.PageValues.{negative_json, time_json, special_name, IsFloat};
ghost use Rattle.trace_json.specs.parts.Put.{Puts};

use json::Writer;
use std::alloc::{AllocError, Global};
use std::num::f64_from_bits_with_nan;

/// The greatest whole number up to which a double has each.
const EXACT: u64 = 9_007_199_254_740_991;

/// The bits of the infinite floats.
const INFINITY: u64 = 0x7ff0_0000_0000_0000;

const MINUS_INFINITY: u64 = 0xfff0_0000_0000_0000;

// Whether a double has each whole number up to this one.
fn is_exact(number: u64) -> bool
    ensures { result ≡ is_exact number }
{
    number <= EXACT
}

/// Writes an index.
pub(crate) fn put_index(out: &mut Writer, index: usize) -> Result<(), AllocError>
    ensures tokens { Puts (index_json index) out.old out.new result }
    ensures before { out.new.before ≡ out.old.before }
{
    out.u64(index as u64)
}

/// Writes a whole number from 0 on: a number where a double is exact, else a string.
pub(crate) fn put_natural(out: &mut Writer, number: u64) -> Result<(), AllocError>
    ensures tokens { Puts (natural_json number) out.old out.new result }
    ensures before { out.new.before ≡ out.old.before }
{
    if is_exact(number) {
        out.u64(number)
    } else {
        out.quoted_u64(number)
    }
}

/// Writes a whole number of either sign, as `put_natural` does.
pub(crate) fn put_integer(out: &mut Writer, number: i64) -> Result<(), AllocError>
    ensures tokens { Puts (integer_json number) out.old out.new result }
    ensures before { out.new.before ≡ out.old.before }
{
    if is_exact(number.unsigned_abs()) {
        out.i64(number)
    } else {
        out.quoted_i64(number)
    }
}

/// Writes a time less another one.
pub(crate) fn put_time(
    alloc: Global,
    out: &mut Writer,
    start: u64,
    time: u64,
) -> Result<(), AllocError>
    ensures tokens { Puts (time_json start time) out.old out.new result }
    ensures before { out.new.before ≡ out.old.before }
{
    if start <= time {
        put_natural(out, time - start)
    } else {
        put_negative(alloc, out, start - time)
    }
}

// Writes a number with a minus, as `put_natural` does.
fn put_negative(alloc: Global, out: &mut Writer, number: u64) -> Result<(), AllocError>
    ensures tokens { Puts (negative_json number) out.old out.new result }
    ensures before { out.new.before ≡ out.old.before }
{
    let text = format!(in alloc; "-{number}")?;
    if is_exact(number) {
        out.number(text.as_str())
    } else {
        out.string(text.as_str())
    }
}

/// Writes a float, by its bits: a numeral where it is finite, else its name.
pub(crate) fn put_float(out: &mut Writer, bits: u64) -> Result<(), AllocError>
    ensures tokens { PutsOne (IsFloat bits) out.old out.new result }
    ensures before { out.new.before ≡ out.old.before }
{
    let float = f64_from_bits_with_nan(bits);
    if float.is_finite() {
        out.float(float)
    } else {
        put_special(out, bits)
    }
}

// Writes the name of a float that is infinite or no number.
fn put_special(out: &mut Writer, bits: u64) -> Result<(), AllocError>
    ensures tokens { Puts (string (special_name bits)) out.old out.new result }
    ensures before { out.new.before ≡ out.old.before }
{
    out.string(special_name(bits))
}

// The name of a float that is infinite or no number.
fn special_name(bits: u64) -> &'static str
    ensures { result.now ≡ special_name bits }
{
    if bits == INFINITY {
        return "Infinity";
    }
    if bits == MINUS_INFINITY {
        return "-Infinity";
    }
    "NaN"
}
