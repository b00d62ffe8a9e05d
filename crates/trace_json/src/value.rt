//! Values as JSON, whoever holds them (docs/FORMAT.md, "Lines of JSON"). Each function answers `AllocError` where a
//! growth was refused.

ghost use Rattle.std.specs.Prelude.{◌≡◌, IfOk, map as list_map};
ghost use Rattle.json.specs.Tree.{json_tokens};
ghost use Rattle.trace_events.specs.Holding.{HoldsNone};
ghost use Rattle.trace_values.specs.Reading.{values_to_items, values_to_pairs};
ghost use Rattle.trace_values.specs.Values.{list, map};
ghost use Rattle.dial9_trace_format.specs.parts.Resolving.{as_pools};
ghost use Rattle.trace_json.specs.EventJson.{IsValueJson, AreItemsJson, ArePairsJson};
ghost use Rattle.trace_json.specs.Lines.{IsTextOf};
ghost use Rattle.trace_json.specs.Put.{PutsOne};
ghost use Rattle.trace_json.specs.parts.Growing.{PutsAllBy, PutsOneBy};

use crate::growing::{GrowingJson, Mark};
use json::Writer;
use std::alloc::{AllocError, Global};
use trace_events::value::{Held, TraceValue};
use trace_values::tri;
use trace_wire::pools::{StackPool, StringPool};

mod borrowed;
mod owned;

/// A value that stands in a line of JSON.
pub trait JsonValue: TraceValue {
    /// Writes a value that holds no others, with what the pools hold in place of ids. For one that does it may write
    /// anything.
    fn put_flat(
        &self,
        alloc: Global,
        out: &mut Writer,
        strings: &StringPool,
        stacks: &StackPool,
    ) -> Result<(), AllocError>
        ensures tokens { HoldsNone (Self.value self.now) → PutsOne (IsValueJson record {
          strings = strings.now;
          stacks = stacks.now;
        } (Self.value self.now)) out.old out.new result }
        ensures before { out.new.before ≡ out.old.before };

    /// About how many bytes its text takes, where it holds no others. (Any answer is right: by it a line is sent as it
    /// grows, before it takes too much memory.)
    fn weight(&self, strings: &StringPool, stacks: &StackPool) -> usize;
}

/// The text of a value, with what the pools hold in place of ids, with no space. `AllocError` where a growth was
/// refused.
pub fn value_text<V: JsonValue>(
    alloc: Global,
    strings: &StringPool,
    stacks: &StackPool,
    value: &V,
) -> Result<Vec<u8>, AllocError>
    ensures { IfOk result (λ text. IsTextOf
        (IsValueJson record { strings = strings.now; stacks = stacks.now } (V.value value.now))
        text.items) }
{
    let mut writer = Writer::new(Vec::new(alloc));
    put_value(alloc, &mut writer, strings, stacks, value)?;
    Ok(writer.into_inner())
}

/// Writes a value, with what the pools hold in place of ids.
#[cycle(value)]
pub(crate) fn put_value<V: JsonValue, L: GrowingJson>(
    alloc: Global,
    out: &mut L,
    strings: &StringPool,
    stacks: &StackPool,
    value: &V,
) -> Result<(), L::Fault>
    ensures { PutsOneBy L.grows L.fails
        (IsValueJson (as_pools strings.now stacks.now) (V.value value.now)) out.old out.new result }
{
    match value.held() {
        Held::Items(items) => put_list(alloc, out, strings, stacks, items),
        Held::Pairs(pairs) => put_map(alloc, out, strings, stacks, pairs),
        Held::Nothing => out.put_flat(alloc, strings, stacks, value),
    }
}

// Writes a list of items.
#[cycle(value)]
fn put_list<V: JsonValue, L: GrowingJson>(
    alloc: Global,
    out: &mut L,
    strings: &StringPool,
    stacks: &StackPool,
    items: &[V],
) -> Result<(), L::Fault>
    ensures { PutsOneBy L.grows L.fails (IsValueJson (as_pools strings.now stacks.now)
        (list (values_to_items (list_map V.value items.now)))) out.old out.new result }
{
    out.put_mark(Mark::BeginArray)?;
    put_items(alloc, out, strings, stacks, items)?;
    out.put_mark(Mark::EndArray)
}

// Writes a list of pairs.
#[cycle(value)]
fn put_map<V: JsonValue, L: GrowingJson>(
    alloc: Global,
    out: &mut L,
    strings: &StringPool,
    stacks: &StackPool,
    pairs: &[(V, V)],
) -> Result<(), L::Fault>
    ensures { PutsOneBy L.grows L.fails (IsValueJson (as_pools strings.now stacks.now)
        (map (values_to_pairs (list_map (λ p. (V.value p.0, V.value p.1)) pairs.now)))) out.old
        out.new result }
{
    out.put_mark(Mark::BeginArray)?;
    put_pairs(alloc, out, strings, stacks, pairs)?;
    out.put_mark(Mark::EndArray)
}

// Writes items, one after another.
#[cycle(value)]
fn put_items<V: JsonValue, L: GrowingJson>(
    alloc: Global,
    out: &mut L,
    strings: &StringPool,
    stacks: &StackPool,
    items: &[V],
) -> Result<(), L::Fault>
    ensures { PutsAllBy L.grows L.fails json_tokens (AreItemsJson (as_pools strings.now stacks.now)
        (values_to_items (list_map V.value items.now))) out.old out.new result }
{
    'items: for item in items {
        put_value(alloc, out, strings, stacks, item)?;
    }
    Ok(())
}

// Writes pairs, one after another: each a list of both.
#[cycle(value)]
fn put_pairs<V: JsonValue, L: GrowingJson>(
    alloc: Global,
    out: &mut L,
    strings: &StringPool,
    stacks: &StackPool,
    pairs: &[(V, V)],
) -> Result<(), L::Fault>
    ensures { PutsAllBy L.grows L.fails json_tokens (ArePairsJson (as_pools strings.now stacks.now)
        (values_to_pairs (list_map (λ p. (V.value p.0, V.value p.1)) pairs.now))) out.old out.new
        result }
{
    'pairs: for pair in pairs {
        tri!(out.put_mark(Mark::BeginArray));
        tri!(put_value(alloc, out, strings, stacks, &pair.0));
        tri!(put_value(alloc, out, strings, stacks, &pair.1));
        tri!(out.put_mark(Mark::EndArray));
    }
    Ok(())
}
