//! Parts of values as JSON. Each function answers `AllocError` where a growth was refused.

ghost use Rattle.std.specs.Prelude.{◌≡◌, IfOk, string_bytes};
ghost use Rattle.std.specs.FinMap as finmap;
ghost use Rattle.std.specs.List.{flat_map};
ghost use Rattle.json.specs.Json.{string};
ghost use Rattle.json.specs.Tree.{json_tokens};
ghost use Rattle.trace_values.specs.RawViews.{stack_view};
ghost use Rattle.trace_json.specs.EventJson.{bytes_json, text_json, address_json, stack_json, id_json};
ghost use Rattle.trace_json.specs.EventJson.{pooled_text_json, pooled_stack_json, special_text, IsFloatJson};
ghost use Rattle.trace_json.specs.parts.Put.{PutsTokens, Puts};
ghost use Rattle.trace_json.specs.Put.{PutsOne};

use json::Writer;
use std::alloc::{AllocError, Global};
use std::num::f64_from_bits_with_nan;
use trace_values::tri;
use trace_values::types::parts::utf8_of;
use trace_values::types::{InternedStackFrames, InternedString, StackFramesRef};
use trace_wire::pools::{StackPool, StringPool};

/// The bits of the infinite floats.
const INFINITY: u64 = 0x7ff0_0000_0000_0000;

const MINUS_INFINITY: u64 = 0xfff0_0000_0000_0000;

/// Writes a float, by its bits: a numeral where it is finite, else its text.
pub(crate) fn put_float(alloc: Global, out: &mut Writer, bits: u64) -> Result<(), AllocError>
    ensures tokens { PutsOne (IsFloatJson bits) out.old out.new result }
    ensures before { out.new.before ≡ out.old.before }
{
    let float = f64_from_bits_with_nan(bits);
    if float.is_finite() {
        out.float(float)
    } else {
        put_special(alloc, out, bits)
    }
}

/// Writes the text of a float that is infinite or no number, by its bits.
fn put_special(alloc: Global, out: &mut Writer, bits: u64) -> Result<(), AllocError>
    ensures tokens { Puts (string (special_text bits)) out.old out.new result }
    ensures before { out.new.before ≡ out.old.before }
{
    let text = special_text(alloc, bits)?;
    out.string(text.as_str())
}

/// The text of a float that is infinite or no number, by its bits. `AllocError` where a growth was refused.
pub fn special_text(alloc: Global, bits: u64) -> Result<String, AllocError>
    ensures { IfOk result (λ text. string_bytes text ≡ special_text bits) }
{
    if bits == INFINITY {
        return format!(in alloc; "Infinity");
    }
    if bits == MINUS_INFINITY {
        return format!(in alloc; "-Infinity");
    }
    format!(in alloc; "NaN:0x{bits:x}")
}

/// Writes bytes: an object of their hexadecimal digits.
pub(crate) fn put_bytes(alloc: Global, out: &mut Writer, bytes: &[u8]) -> Result<(), AllocError>
    ensures tokens { Puts (bytes_json bytes.now) out.old out.new result }
    ensures before { out.new.before ≡ out.old.before }
{
    let digits = tri!(hex::encode(alloc, bytes));
    tri!(out.begin_object());
    tri!(out.key("hex"));
    tri!(out.string(digits.as_str()));
    out.end_object()
}

/// Writes what is meant to be text: a string, or as bytes are where it is not UTF-8.
pub(crate) fn put_text(alloc: Global, out: &mut Writer, bytes: &[u8]) -> Result<(), AllocError>
    ensures tokens { Puts (text_json bytes.now) out.old out.new result }
    ensures before { out.new.before ≡ out.old.before }
{
    match utf8_of(bytes) {
        Ok(text) => out.string(text),
        Err(_) => put_bytes(alloc, out, bytes),
    }
}

/// Writes an id under which a pool holds nothing: an object of it.
fn put_id(out: &mut Writer, name: &str, id: u32) -> Result<(), AllocError>
    ensures tokens { Puts (id_json name.now id) out.old out.new result }
    ensures before { out.new.before ≡ out.old.before }
{
    tri!(out.begin_object());
    tri!(out.key(name));
    tri!(out.u64(u64::from(id)));
    out.end_object()
}

/// Writes the text of an id, or the id.
pub(crate) fn put_pooled_text(
    out: &mut Writer,
    strings: &StringPool,
    id: InternedString,
) -> Result<(), AllocError>
    ensures tokens { Puts (pooled_text_json id.0 (finmap.get strings.now id.0)) out.old out.new
        result }
    ensures before { out.new.before ≡ out.old.before }
{
    match strings.get(id) {
        Some(text) => out.string(text),
        None => put_id(out, "unresolved_text", id.raw_id()),
    }
}

/// Writes the stack of an id, or the id.
pub(crate) fn put_pooled_stack(
    alloc: Global,
    out: &mut Writer,
    stacks: &StackPool,
    id: InternedStackFrames,
) -> Result<(), AllocError>
    ensures tokens { Puts (pooled_stack_json id.0 (finmap.get stacks.now id.0)) out.old out.new
        result }
    ensures before { out.new.before ≡ out.old.before }
{
    match stacks.get(id) {
        Some(addresses) => put_stack(alloc, out, addresses),
        None => put_id(out, "unresolved_stack", id.raw_id()),
    }
}

/// Writes a stack whose addresses stay in the input.
pub(crate) fn put_stack_ref(
    alloc: Global,
    out: &mut Writer,
    frames: &StackFramesRef<'_>,
) -> Result<(), AllocError>
    ensures tokens { Puts (stack_json (stack_view frames.now)) out.old out.new result }
    ensures before { out.new.before ≡ out.old.before }
{
    let addresses: Vec<u64> = frames.iter().collect(alloc)?;
    put_stack(alloc, out, addresses.as_slice())
}

/// Writes a stack: a list of the texts of its addresses.
pub(crate) fn put_stack(
    alloc: Global,
    out: &mut Writer,
    addresses: &[u64],
) -> Result<(), AllocError>
    ensures tokens { Puts (stack_json addresses.now) out.old out.new result }
    ensures before { out.new.before ≡ out.old.before }
{
    out.begin_array()?;
    put_addresses(alloc, out, addresses)?;
    out.end_array()
}

// Writes the texts of addresses, one after another.
fn put_addresses(alloc: Global, out: &mut Writer, addresses: &[u64]) -> Result<(), AllocError>
    ensures tokens { PutsTokens (flat_map (λ a. json_tokens (address_json a)) addresses.now) out.old
        out.new result }
    ensures before { out.new.before ≡ out.old.before }
{
    for address in addresses {
        put_address(alloc, out, *address)?;
    }
    Ok(())
}

fn put_address(alloc: Global, out: &mut Writer, address: u64) -> Result<(), AllocError>
    ensures tokens { Puts (address_json address) out.old out.new result }
    ensures before { out.new.before ≡ out.old.before }
{
    let text = format!(in alloc; "0x{address:x}")?;
    out.string(text.as_str())
}
