//! The values of events. Each function answers `AllocError` where a growth was refused.

ghost use Rattle.std.specs.Prelude.{◌≡◌, map as list_map, OnOk};
ghost use Rattle.json.specs.Tree.{json_tokens};
ghost use Rattle.trace_values.specs.Reading.{values_to_items, values_to_pairs};
ghost use Rattle.trace_values.specs.Values.{list, map};
ghost use Rattle.trace_events.specs.Holding.{HoldsNone};
ghost use Rattle.dial9_trace_format.specs.parts.Resolving.{as_pools};
ghost use Rattle.trace_json.specs.Put.{PutsOne};
ghost use Rattle.trace_json.specs.parts.Put.{PutsAll};
ghost use Rattle.trace_page.specs.PageValues.{kind_tag, IsPageValue, ArePageItems, ArePagePairs};
ghost use Rattle.trace_page.specs.PageValues.{ArePageValues};
ghost use Rattle.trace_page.specs.Holding.{tables_of};
ghost use Rattle.trace_page.specs.parts.Writing.{Grows};

use crate::names::Names;
use json::Writer;
use std::alloc::{AllocError, Global};
use trace_events::value::{Held, TraceValue};
use trace_values::tri;
use trace_wire::pools::{StackPool, StringPool};

mod leaves;
mod owned;

/// A value that stands in the data of a page.
pub trait PageValue: TraceValue {
    /// The tag of the field type that has values of its kind alone, with what a pool holds in place of an id.
    fn kind_tag(&self) -> u64
        ensures { result ≡ kind_tag (Self.value self.now) };

    /// Writes a value that holds no others, with what the pools hold in place of ids. For one that does it may write
    /// anything.
    fn put_flat(
        &self,
        alloc: Global,
        out: &mut Writer,
        names: &mut Names,
        strings: &StringPool,
        stacks: &StackPool,
    ) -> Result<(), AllocError>
        ensures tokens { HoldsNone (Self.value self.now) → PutsOne (IsPageValue
            (tables_of names.new) (as_pools strings.now stacks.now) (Self.value self.now)) out.old
            out.new result }
        ensures grown { OnOk result (Grows (tables_of names.old) (tables_of names.new)) }
        ensures before { out.new.before ≡ out.old.before };
}

/// Writes the values of an event, one after another.
pub(crate) fn put_values<V: PageValue>(
    alloc: Global,
    out: &mut Writer,
    names: &mut Names,
    strings: &StringPool,
    stacks: &StackPool,
    values: &[V],
) -> Result<(), AllocError>
    ensures tokens { PutsAll json_tokens (ArePageValues (tables_of names.new)
        (as_pools strings.now stacks.now) (list_map V.value values.now)) out.old out.new result }
    ensures grown { OnOk result (Grows (tables_of names.old) (tables_of names.new)) }
    ensures before { out.new.before ≡ out.old.before }
{
    'values: for value in values {
        put_value(alloc, out, names, strings, stacks, value)?;
    }
    Ok(())
}

// Writes a value.
#[cycle(value)]
fn put_value<V: PageValue>(
    alloc: Global,
    out: &mut Writer,
    names: &mut Names,
    strings: &StringPool,
    stacks: &StackPool,
    value: &V,
) -> Result<(), AllocError>
    ensures tokens { PutsOne (IsPageValue (tables_of names.new)
        (as_pools strings.now stacks.now) (V.value value.now)) out.old out.new result }
    ensures grown { OnOk result (Grows (tables_of names.old) (tables_of names.new)) }
    ensures before { out.new.before ≡ out.old.before }
{
    match value.held() {
        Held::Items(items) => put_list(alloc, out, names, strings, stacks, items),
        Held::Pairs(pairs) => put_map(alloc, out, names, strings, stacks, pairs),
        Held::Nothing => value.put_flat(alloc, out, names, strings, stacks),
    }
}

// Writes a list: of each item the tag of its kind, and its value.
#[cycle(value)]
fn put_list<V: PageValue>(
    alloc: Global,
    out: &mut Writer,
    names: &mut Names,
    strings: &StringPool,
    stacks: &StackPool,
    items: &[V],
) -> Result<(), AllocError>
    ensures tokens { PutsOne (IsPageValue (tables_of names.new)
        (as_pools strings.now stacks.now) (list (values_to_items (list_map V.value items.now))))
        out.old out.new result }
    ensures grown { OnOk result (Grows (tables_of names.old) (tables_of names.new)) }
    ensures before { out.new.before ≡ out.old.before }
{
    out.begin_array()?;
    put_items(alloc, out, names, strings, stacks, items)?;
    out.end_array()
}

// Writes a map: of each pair its key and its value, as items of lists are written.
#[cycle(value)]
fn put_map<V: PageValue>(
    alloc: Global,
    out: &mut Writer,
    names: &mut Names,
    strings: &StringPool,
    stacks: &StackPool,
    pairs: &[(V, V)],
) -> Result<(), AllocError>
    ensures tokens { PutsOne (IsPageValue (tables_of names.new)
        (as_pools strings.now stacks.now)
        (map (values_to_pairs (list_map (λ p. (V.value p.0, V.value p.1)) pairs.now)))) out.old
        out.new result }
    ensures grown { OnOk result (Grows (tables_of names.old) (tables_of names.new)) }
    ensures before { out.new.before ≡ out.old.before }
{
    out.begin_array()?;
    put_pairs(alloc, out, names, strings, stacks, pairs)?;
    out.end_array()
}

// Writes items, one after another.
#[cycle(value)]
fn put_items<V: PageValue>(
    alloc: Global,
    out: &mut Writer,
    names: &mut Names,
    strings: &StringPool,
    stacks: &StackPool,
    items: &[V],
) -> Result<(), AllocError>
    ensures tokens { PutsAll json_tokens (ArePageItems (tables_of names.new)
        (as_pools strings.now stacks.now) (values_to_items (list_map V.value items.now))) out.old
        out.new result }
    ensures grown { OnOk result (Grows (tables_of names.old) (tables_of names.new)) }
    ensures before { out.new.before ≡ out.old.before }
{
    'items: for item in items {
        out.u64(item.kind_tag())?;
        put_value(alloc, out, names, strings, stacks, item)?;
    }
    Ok(())
}

// Writes pairs, one after another.
#[cycle(value)]
fn put_pairs<V: PageValue>(
    alloc: Global,
    out: &mut Writer,
    names: &mut Names,
    strings: &StringPool,
    stacks: &StackPool,
    pairs: &[(V, V)],
) -> Result<(), AllocError>
    ensures tokens { PutsAll json_tokens (ArePagePairs (tables_of names.new)
        (as_pools strings.now stacks.now)
        (values_to_pairs (list_map (λ p. (V.value p.0, V.value p.1)) pairs.now))) out.old out.new
        result }
    ensures grown { OnOk result (Grows (tables_of names.old) (tables_of names.new)) }
    ensures before { out.new.before ≡ out.old.before }
{
    'pairs: for pair in pairs {
        tri!(out.u64(pair.0.kind_tag()));
        tri!(put_value(alloc, out, names, strings, stacks, &pair.0));
        tri!(out.u64(pair.1.kind_tag()));
        tri!(put_value(alloc, out, names, strings, stacks, &pair.1));
    }
    Ok(())
}
