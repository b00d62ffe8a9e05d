//! The columns of the events, and the lists that values name. Each function answers `AllocError` where a growth was
//! refused.

ghost use Rattle.std.specs.Prelude.{◌≡◌, map as list_map, string_bytes, OnOk};
ghost use Rattle.std.specs.List.{AllZip, flat_map};
ghost use Rattle.json.specs.Json.{string};
ghost use Rattle.json.specs.Tree.{json_tokens};
ghost use Rattle.trace_values.specs.AddressTexts.{address_text};
ghost use Rattle.trace_json.specs.EventJson.{list_json};
ghost use Rattle.trace_json.specs.Put.{PutsOne};
ghost use Rattle.trace_json.specs.parts.Put.{Puts, PutsTokens, PutsAll};
ghost use Rattle.trace_page.specs.PageValues.{index_json, time_json, IsIndexOf};
ghost use Rattle.trace_page.specs.Pages.{start_of, IsStack};
ghost use Rattle.trace_page.specs.Holding.{texts_in};
ghost use Rattle.trace_page.specs.parts.Writing.{IsLonger, IsListOf};

use crate::names::index_of_text;
use crate::numbers::{put_index, put_time};
use indexmap::IndexSet;
use json::Writer;
use std::alloc::{AllocError, Global};

/// Writes a list of indexes.
pub(crate) fn put_indexes(out: &mut Writer, indexes: &[usize]) -> Result<(), AllocError>
    ensures tokens { Puts (list_json (list_map index_json indexes.now)) out.old out.new result }
    ensures before { out.new.before ≡ out.old.before }
{
    out.begin_array()?;
    put_each_index(out, indexes)?;
    out.end_array()
}

fn put_each_index(out: &mut Writer, indexes: &[usize]) -> Result<(), AllocError>
    ensures tokens { PutsTokens (flat_map (λ i. json_tokens (index_json i)) indexes.now) out.old
        out.new result }
    ensures before { out.new.before ≡ out.old.before }
{
    for index in indexes {
        put_index(out, *index)?;
    }
    Ok(())
}

/// Writes a list of times less this start.
pub(crate) fn put_times(
    alloc: Global,
    out: &mut Writer,
    start: u64,
    times: &[u64],
) -> Result<(), AllocError>
    ensures tokens { Puts (list_json (list_map (time_json start) times.now)) out.old out.new
        result }
    ensures before { out.new.before ≡ out.old.before }
{
    out.begin_array()?;
    put_each_time(alloc, out, start, times)?;
    out.end_array()
}

fn put_each_time(
    alloc: Global,
    out: &mut Writer,
    start: u64,
    times: &[u64],
) -> Result<(), AllocError>
    ensures tokens { PutsTokens (flat_map (λ t. json_tokens (time_json start t)) times.now) out.old
        out.new result }
    ensures before { out.new.before ≡ out.old.before }
{
    for time in times {
        put_time(alloc, out, start, *time)?;
    }
    Ok(())
}

/// The first of times, 0 where there is none.
pub(crate) fn start_of(times: &[u64]) -> u64
    ensures { result ≡ start_of times.now }
{
    match times.first() {
        Some(time) => *time,
        None => 0,
    }
}

/// Writes a list of texts.
pub(crate) fn put_strings(out: &mut Writer, strings: &[String]) -> Result<(), AllocError>
    ensures tokens { Puts (list_json (list_map (λ s. string (string_bytes s)) strings.now)) out.old
        out.new result }
    ensures before { out.new.before ≡ out.old.before }
{
    out.begin_array()?;
    put_each_string(out, strings)?;
    out.end_array()
}

fn put_each_string(out: &mut Writer, strings: &[String]) -> Result<(), AllocError>
    ensures tokens { PutsTokens (flat_map (λ s. json_tokens (string (string_bytes s))) strings.now)
        out.old out.new result }
    ensures before { out.new.before ≡ out.old.before }
{
    for text in strings {
        out.string(text.as_str())?;
    }
    Ok(())
}

/// Writes stacks: each a list of the indexes of the texts of its addresses, which are named by that.
pub(crate) fn put_stacks(
    alloc: Global,
    out: &mut Writer,
    strings: &mut IndexSet<String>,
    stacks: &[Vec<u64>],
) -> Result<(), AllocError>
    ensures tokens { PutsOne (IsListOf
        (AllZip (IsStack (texts_in strings.new)) (list_map (λ v. v.items) stacks.now))) out.old
        out.new result }
    ensures grown { OnOk result (IsLonger (texts_in strings.old) (texts_in strings.new)) }
    ensures before { out.new.before ≡ out.old.before }
{
    out.begin_array()?;
    put_each_stack(alloc, out, strings, stacks)?;
    out.end_array()
}

fn put_each_stack(
    alloc: Global,
    out: &mut Writer,
    strings: &mut IndexSet<String>,
    stacks: &[Vec<u64>],
) -> Result<(), AllocError>
    ensures tokens { PutsAll json_tokens
        (AllZip (IsStack (texts_in strings.new)) (list_map (λ v. v.items) stacks.now)) out.old
        out.new result }
    ensures grown { OnOk result (IsLonger (texts_in strings.old) (texts_in strings.new)) }
    ensures before { out.new.before ≡ out.old.before }
{
    'stacks: for stack in stacks {
        put_frames(alloc, out, strings, stack)?;
    }
    Ok(())
}

// Writes a list of the indexes of the texts of addresses.
fn put_frames(
    alloc: Global,
    out: &mut Writer,
    strings: &mut IndexSet<String>,
    stack: &[u64],
) -> Result<(), AllocError>
    ensures tokens { PutsOne (IsStack (texts_in strings.new) stack.now) out.old out.new result }
    ensures grown { OnOk result (IsLonger (texts_in strings.old) (texts_in strings.new)) }
    ensures before { out.new.before ≡ out.old.before }
{
    out.begin_array()?;
    put_each_frame(alloc, out, strings, stack)?;
    out.end_array()
}

fn put_each_frame(
    alloc: Global,
    out: &mut Writer,
    strings: &mut IndexSet<String>,
    stack: &[u64],
) -> Result<(), AllocError>
    ensures tokens { PutsAll json_tokens
        (AllZip (IsIndexOf (texts_in strings.new)) (list_map address_text stack.now)) out.old
        out.new result }
    ensures grown { OnOk result (IsLonger (texts_in strings.old) (texts_in strings.new)) }
    ensures before { out.new.before ≡ out.old.before }
{
    'addresses: for address in stack {
        put_frame(alloc, out, strings, *address)?;
    }
    Ok(())
}

// Writes the index of the text of an address.
fn put_frame(
    alloc: Global,
    out: &mut Writer,
    strings: &mut IndexSet<String>,
    address: u64,
) -> Result<(), AllocError>
    ensures tokens { PutsOne (IsIndexOf (texts_in strings.new) (address_text address)) out.old
        out.new result }
    ensures grown { OnOk result (IsLonger (texts_in strings.old) (texts_in strings.new)) }
    ensures before { out.new.before ≡ out.old.before }
{
    let text = format!(in alloc; "0x{address:x}")?;
    let index = index_of_text(alloc, strings, text.as_str())?;
    put_index(out, index)
}
