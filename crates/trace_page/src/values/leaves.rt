//! Parts of values that hold no others. Each function answers `AllocError` where a growth was refused.

ghost use Rattle.std.specs.Prelude.{◌≡◌, OnOk};
ghost use Rattle.std.specs.FinMap as finmap;
ghost use Rattle.hex.specs.Hex.{encode_lower};
ghost use Rattle.json.specs.Tree.{json_tokens};
ghost use Rattle.trace_json.specs.Put.{PutsOne};
ghost use Rattle.trace_json.specs.parts.Put.{Puts, PutsAll};
ghost use Rattle.trace_values.specs.ValueViews.{text_pairs_view};
ghost use Rattle.trace_page.specs.PageValues.{IsIndexOf, IsPooled, AreTexts, ArePairTexts};
ghost use Rattle.trace_page.specs.PageValues.{unknown_json, text_or_digits};
ghost use Rattle.trace_page.specs.Holding.{tables_of};
ghost use Rattle.trace_page.specs.parts.Writing.{Grows};

use crate::names::{Names, index_of_stack, index_of_text};
use crate::numbers::put_index;
use json::Writer;
use std::alloc::{AllocError, Global};
use trace_values::tri;
use trace_values::types::parts::utf8_of;
use trace_values::types::{InternedStackFrames, InternedString};
use trace_wire::pools::{StackPool, StringPool};

/// Writes the index of a text.
pub(crate) fn put_text(
    alloc: Global,
    out: &mut Writer,
    names: &mut Names,
    text: &str,
) -> Result<(), AllocError>
    ensures tokens { PutsOne (IsIndexOf (tables_of names.new).strings text.now) out.old
        out.new result }
    ensures grown { OnOk result (Grows (tables_of names.old) (tables_of names.new)) }
    ensures before { out.new.before ≡ out.old.before }
{
    let index = index_of_text(alloc, &mut names.strings, text)?;
    put_index(out, index)
}

/// Writes the index of a stack.
pub(crate) fn put_stack(
    alloc: Global,
    out: &mut Writer,
    names: &mut Names,
    stack: &[u64],
) -> Result<(), AllocError>
    ensures tokens { PutsOne (IsIndexOf (tables_of names.new).stacks stack.now) out.old
        out.new result }
    ensures grown { OnOk result (Grows (tables_of names.old) (tables_of names.new)) }
    ensures before { out.new.before ≡ out.old.before }
{
    let index = index_of_stack(alloc, &mut names.stacks, stack)?;
    put_index(out, index)
}

/// Writes the index of the hexadecimal digits of bytes.
pub(crate) fn put_bytes(
    alloc: Global,
    out: &mut Writer,
    names: &mut Names,
    bytes: &[u8],
) -> Result<(), AllocError>
    ensures tokens { PutsOne (IsIndexOf (tables_of names.new).strings (encode_lower bytes.now))
        out.old out.new result }
    ensures grown { OnOk result (Grows (tables_of names.old) (tables_of names.new)) }
    ensures before { out.new.before ≡ out.old.before }
{
    let digits = hex::encode(alloc, bytes)?;
    put_text(alloc, out, names, digits.as_str())
}

/// Writes the index of the text of an id, or the id.
pub(crate) fn put_pooled_text(
    alloc: Global,
    out: &mut Writer,
    names: &mut Names,
    strings: &StringPool,
    id: InternedString,
) -> Result<(), AllocError>
    ensures tokens { PutsOne (IsPooled (tables_of names.new).strings id.0
        (finmap.get strings.now id.0)) out.old
        out.new result }
    ensures grown { OnOk result (Grows (tables_of names.old) (tables_of names.new)) }
    ensures before { out.new.before ≡ out.old.before }
{
    match strings.get(id) {
        Some(text) => put_text(alloc, out, names, text),
        None => put_unknown(out, id.raw_id()),
    }
}

/// Writes the index of the stack of an id, or the id.
pub(crate) fn put_pooled_stack(
    alloc: Global,
    out: &mut Writer,
    names: &mut Names,
    stacks: &StackPool,
    id: InternedStackFrames,
) -> Result<(), AllocError>
    ensures tokens { PutsOne (IsPooled (tables_of names.new).stacks id.0
        (finmap.get stacks.now id.0)) out.old
        out.new result }
    ensures grown { OnOk result (Grows (tables_of names.old) (tables_of names.new)) }
    ensures before { out.new.before ≡ out.old.before }
{
    match stacks.get(id) {
        Some(stack) => put_stack(alloc, out, names, stack),
        None => put_unknown(out, id.raw_id()),
    }
}

// Writes an id under which a pool holds nothing: an object of it.
fn put_unknown(out: &mut Writer, id: u32) -> Result<(), AllocError>
    ensures tokens { Puts (unknown_json id) out.old out.new result }
    ensures before { out.new.before ≡ out.old.before }
{
    tri!(out.begin_object());
    tri!(out.key("unknown"));
    tri!(out.u64(u64::from(id)));
    out.end_object()
}

// Writes the index of what is meant to be text: of its hexadecimal digits where it is not UTF-8.
fn put_text_bytes(
    alloc: Global,
    out: &mut Writer,
    names: &mut Names,
    bytes: &[u8],
) -> Result<(), AllocError>
    ensures tokens { PutsOne (IsIndexOf (tables_of names.new).strings (text_or_digits bytes.now))
        out.old out.new result }
    ensures grown { OnOk result (Grows (tables_of names.old) (tables_of names.new)) }
    ensures before { out.new.before ≡ out.old.before }
{
    match utf8_of(bytes) {
        Ok(text) => put_text(alloc, out, names, text),
        Err(_) => put_bytes(alloc, out, names, bytes),
    }
}

/// Writes a map of texts: a list of the indexes of its keys and values, text or not.
pub(crate) fn put_texts(
    alloc: Global,
    out: &mut Writer,
    names: &mut Names,
    pairs: &[(Vec<u8>, Vec<u8>)],
) -> Result<(), AllocError>
    ensures tokens { PutsOne (AreTexts (tables_of names.new).strings
        (text_pairs_view pairs.now)) out.old out.new result }
    ensures grown { OnOk result (Grows (tables_of names.old) (tables_of names.new)) }
    ensures before { out.new.before ≡ out.old.before }
{
    out.begin_array()?;
    put_text_pairs(alloc, out, names, pairs)?;
    out.end_array()
}

// Writes such pairs, one after another.
fn put_text_pairs(
    alloc: Global,
    out: &mut Writer,
    names: &mut Names,
    pairs: &[(Vec<u8>, Vec<u8>)],
) -> Result<(), AllocError>
    ensures tokens { PutsAll json_tokens
        (ArePairTexts (tables_of names.new).strings (text_pairs_view pairs.now)) out.old out.new
        result }
    ensures grown { OnOk result (Grows (tables_of names.old) (tables_of names.new)) }
    ensures before { out.new.before ≡ out.old.before }
{
    'pairs: for pair in pairs {
        put_text_bytes(alloc, out, names, &pair.0)?;
        put_text_bytes(alloc, out, names, &pair.1)?;
    }
    Ok(())
}
