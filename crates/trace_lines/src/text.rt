//! Names, texts and addresses as they stand in a line. Functions that append answer `AllocError` where a growth was
//! refused.

ghost use Rattle.std.specs.Prelude.{◌≡◌, IfSome, codes};
ghost use Rattle.std.specs.List.{flat_map, join_by, list_all};
ghost use Rattle.std.specs.Fmt.{decimal};
ghost use Rattle.trace_values.specs.AddressTexts.{address_text};
ghost use Rattle.trace_lines.specs.Appending.{AppendsText};
ghost use Rattle.trace_lines.specs.Lines.{escaped_byte, quoted_byte, quoted, address_list, sixteen_digits};
ghost use Rattle.trace_lines.specs.Lines.{is_plain};
ghost use Rattle.trace_lines.specs.parts.Lines.{comma_before};

use std::alloc::AllocError;
use std::str;

// So many bytes at most are looked at before they are appended.
const RUN: usize = 64;

// Of fewer bytes each is appended by itself.
const FEW: usize = 16;

/// Appends bytes in quotes (docs/FORMAT.md, "Dumps"). `AllocError` where a growth was refused.
#[tactic(auto, unfolding(crate::specs::Lines::quoted))]
pub fn push_quoted(out: &mut String, bytes: &[u8]) -> Result<(), AllocError>
    ensures { AppendsText (quoted bytes.now) out.old out.new result }
{
    out.push('"')?;
    push_unquoted(out, bytes)?;
    out.push('"')
}

/// Appends addresses in brackets (docs/FORMAT.md, "Dumps"). `AllocError` where a growth was refused.
pub fn push_addresses(out: &mut String, addresses: &[u64]) -> Result<(), AllocError>
    ensures { AppendsText (address_list addresses.now) out.old out.new result }
{
    out.push_str("[")?;
    push_each_address(out, addresses)?;
    out.push(']')
}

/// Appends the sixteen hexadecimal digits of a number. `AllocError` where a growth was refused.
#[tactic(auto, using(crate::proofs::HexDigits::padded_16))]
pub fn push_sixteen_digits(out: &mut String, number: u64) -> Result<(), AllocError>
    ensures { AppendsText (sixteen_digits number) out.old out.new result }
{
    write!(out, "{number:016x}")
}

/// Appends a comma before the element of an index, but before the first nothing. `AllocError` where a growth was
/// refused.
pub(crate) fn push_comma_before(out: &mut String, index: usize) -> Result<(), AllocError>
    ensures { AppendsText (comma_before index) out.old out.new result }
{
    if index == 0 { Ok(()) } else { out.push(',') }
}

/// Appends the decimal digits of a number. `AllocError` where a growth was refused.
pub(crate) fn push_decimal(out: &mut String, number: u64) -> Result<(), AllocError>
    ensures { AppendsText (decimal number) out.old out.new result }
{
    let mut digits = itoa::Buffer::new();
    out.push_str(digits.format(number))
}

// Appends addresses, with commas between them.
fn push_each_address(out: &mut String, addresses: &[u64]) -> Result<(), AllocError>
    ensures { AppendsText (join_by address_text (codes ",") addresses.now) out.old out.new result }
{
    'addresses: for (index, address) in addresses.iter().enumerate() {
        push_comma_before(out, index)?;
        push_address(out, *address)?;
    }
    Ok(())
}

fn push_address(out: &mut String, address: u64) -> Result<(), AllocError>
    ensures { AppendsText (address_text address) out.old out.new result }
{
    write!(out, "0x{address:x}")
}

/// Appends bytes as they stand between quotes: few one by one, and many run by run. `AllocError` where a growth was
/// refused.
pub(crate) fn push_unquoted(out: &mut String, bytes: &[u8]) -> Result<(), AllocError>
    ensures { AppendsText (flat_map quoted_byte bytes.now) out.old out.new result }
{
    if bytes.len() < FEW {
        push_each_byte(out, bytes)
    } else {
        push_runs(out, bytes)
    }
}

// Appends bytes as they stand between quotes, run by run.
fn push_runs(out: &mut String, bytes: &[u8]) -> Result<(), AllocError>
    ensures { AppendsText (flat_map quoted_byte bytes.now) out.old out.new result }
{
    let mut rest = bytes;
    'runs: while rest.len() > RUN {
        let (run, others) = rest.split_at(RUN);
        push_run(out, run)?;
        rest = others;
    }
    push_run(out, rest)
}

// Appends a run as it stands between quotes: at once, if all its bytes stand for themselves.
#[tactic(auto, using(crate::proofs::AppendedParts::put_whole))]
fn push_run(out: &mut String, run: &[u8]) -> Result<(), AllocError>
    ensures { AppendsText (flat_map quoted_byte run.now) out.old out.new result }
{
    match plain_text(run) {
        Some(text) => out.push_str(text),
        None => push_each_byte(out, run),
    }
}

// The run as a text, if all its bytes stand for themselves.
#[tactic(auto, using(crate::proofs::PlainRuns::plain_quoted))]
fn plain_text(run: &[u8]) -> Option<&str>
    ensures { IfSome result (λ text. text.now ≡ flat_map quoted_byte run.now) }
{
    if !are_plain(run) {
        return None;
    }
    match str::from_utf8(run) {
        Ok(text) => Some(text),
        Err(_) => None,
    }
}

// Whether all bytes stand for themselves.
fn are_plain(bytes: &[u8]) -> bool
    ensures { result ≡ list_all is_plain bytes.now }
{
    let mut plain = true;
    for byte in bytes {
        let same = is_plain(*byte);
        plain = plain & same;
    }
    plain
}

// Whether a byte stands for itself.
#[inline(always)]
fn is_plain(byte: u8) -> bool
    ensures { result ≡ is_plain byte }
{
    byte >= b' ' && byte <= b'~' && byte != b'"' && byte != b'\\'
}

// Appends each byte as it stands between quotes.
fn push_each_byte(out: &mut String, bytes: &[u8]) -> Result<(), AllocError>
    ensures { AppendsText (flat_map quoted_byte bytes.now) out.old out.new result }
{
    for byte in bytes {
        push_quoted_byte(out, *byte)?;
    }
    Ok(())
}

// Appends a byte as it stands between quotes.
#[tactic(auto, unfolding(crate::specs::Lines::quoted_byte))]
fn push_quoted_byte(out: &mut String, byte: u8) -> Result<(), AllocError>
    ensures { AppendsText (quoted_byte byte) out.old out.new result }
{
    match byte {
        b'"' | b'\\' => push_escaped_byte(out, byte),
        b' '..=b'~' => out.push(byte as char),
        _ => push_escaped_byte(out, byte),
    }
}

#[tactic(auto, unfolding(crate::specs::Lines::escaped_byte), using(crate::proofs::HexDigits::hex_byte))]
fn push_escaped_byte(out: &mut String, byte: u8) -> Result<(), AllocError>
    ensures { AppendsText (escaped_byte byte) out.old out.new result }
{
    write!(out, "\\x{byte:02X}")
}
