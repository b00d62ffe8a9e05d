//! Values as they stand in a line, whoever holds them (docs/FORMAT.md, "Dumps"). Each function answers `AllocError`
//! where a growth was refused.

ghost use Rattle.std.specs.Prelude.{◌++◌, ℕ, codes, map as list_map};
ghost use Rattle.std.specs.List.{join_by};
ghost use Rattle.trace_values.specs.Raw.{texts_front};
ghost use Rattle.trace_values.specs.parts.types.Flat.{flat_form};
ghost use Rattle.trace_values.specs.Reading.{values_to_items, values_to_pairs};
ghost use Rattle.trace_values.specs.Values.{Value, texts, list, map};
ghost use Rattle.trace_values.specs.Refs.{ref_view};
ghost use Rattle.trace_values.specs.ValueViews.{view, text_pairs_view};
ghost use Rattle.trace_values.specs.declared.types.field_value.FieldValue.{size-FieldValue};
ghost use Rattle.trace_lines.specs.Appending.{AppendsText};
ghost use Rattle.dial9_trace_format.specs.parts.Resolving.{as_pools};
ghost use Rattle.dial9_trace_format.specs.Resolving.{in_full, unknown_ids, unknown_item_ids, unknown_pair_ids};
ghost use Rattle.trace_lines.specs.parts.Holding.{HoldsInside};
ghost use Rattle.trace_lines.specs.parts.InFull.{shown_in, IsKnown};
ghost use Rattle.trace_lines.specs.Lines.{value_text};

use crate::growing::{CommaBefore, GrowingLine, LinePart};
use crate::plain::{
    push_bytes, push_float, push_integer, push_number, push_pooled_stack, push_pooled_text,
    push_stack, push_text, push_truth,
};
use crate::pooled::{push_known_stack, push_known_text, stack_known, text_known};
use crate::text_maps::{push_texts, text_pairs};
use dial9_trace_format::resolve::DeserError;
use std::alloc::AllocError;
use trace_values::tri;
use trace_values::types::{FieldValue, FieldValueRef};
use trace_wire::pools::{StackPool, StringPool};

/// How values are shown.
#[derive(Clone, Copy, Drop)]
pub(crate) enum Shown<'p> {
    /// As they are.
    Plain,
    /// With texts and stacks in place of the ids of these pools; an id that they do not know as it is.
    InFull(&'p StringPool, &'p StackPool),
}

/// The values that a value holds.
pub(crate) enum Held<'a, V> {
    /// The items of a list.
    Items(&'a [V]),
    /// The keys and values of a map.
    Pairs(&'a [(V, V)]),
    /// None.
    Nothing,
}

/// A value that stands in a line.
pub(crate) trait LineValue: Sized {
    /// What it is.
    ghost value: { Self → Value };

    /// How deep it is: deeper than the values that it holds.
    ghost depth: { Self → ℕ };

    /// The values that it holds.
    fn held(&self) -> Held<'_, Self>
        ensures { HoldsInside value depth self.now result };

    /// Appends a value that holds no others, and `None` for one that does.
    fn push_flat(&self, out: &mut String) -> Result<(), AllocError>
        ensures { AppendsText (value_text (flat_form (value self.now))) out.old out.new result };

    /// The same with a text or a stack in place of an id that the pools know; of a map of texts the pairs up to the
    /// first that is no pair of texts.
    fn push_flat_in_full(
        &self,
        out: &mut String,
        strings: &StringPool,
        stacks: &StackPool,
    ) -> Result<(), AllocError>
        ensures { AppendsText (value_text (in_full (as_pools strings.now stacks.now)
            (flat_form (value self.now)))) out.old out.new result };

    /// Whether the pools know the id that a value is, if it is one. Of a value that holds others nothing is asked.
    fn flat_known(&self, strings: &StringPool, stacks: &StackPool) -> Result<(), DeserError>
        ensures { IsKnown (unknown_ids (as_pools strings.now stacks.now)
            (flat_form (value self.now))) result };
}

/// A value of an event's field that stands in a line.
pub(crate) trait FieldLine: Sized {
    /// What it is.
    ghost value: { Self → Value };

    /// Whether the pools know all ids in it, or the first that they do not know.
    fn field_known(&self, strings: &StringPool, stacks: &StackPool) -> Result<(), DeserError>
        ensures { IsKnown (unknown_ids (as_pools strings.now stacks.now) (value self.now))
            result };

    /// Appends it, as it is or in full.
    fn put_field<L: GrowingLine>(&self, out: &mut L, form: &Shown<'_>) -> Result<(), L::Fault>
        ensures { L.grows out.old (value_text (shown_in form.now (value self.now))) result
            out.new };
}

impl FieldLine for FieldValue {
    ghost value = { view };

    #[inline(always)]
    fn field_known(&self, strings: &StringPool, stacks: &StackPool) -> Result<(), DeserError> {
        value_known(strings, stacks, self)
    }

    #[inline(always)]
    fn put_field<L: GrowingLine>(&self, out: &mut L, form: &Shown<'_>) -> Result<(), L::Fault> {
        push_line_value(out, self, form)
    }
}

impl<'a> FieldLine for FieldValueRef<'a> {
    ghost value = { ref_view };

    #[inline(always)]
    fn field_known(&self, strings: &StringPool, stacks: &StackPool) -> Result<(), DeserError> {
        value_known(strings, stacks, self)
    }

    #[inline(always)]
    fn put_field<L: GrowingLine>(&self, out: &mut L, form: &Shown<'_>) -> Result<(), L::Fault> {
        push_line_value(out, self, form)
    }
}

impl LineValue for FieldValue {
    ghost value = { view };

    ghost depth = { size-FieldValue };

    fn held(&self) -> Held<'_, FieldValue> {
        match self {
            FieldValue::List(items) => Held::Items(items),
            FieldValue::Map(pairs) => Held::Pairs(pairs),
            _ => Held::Nothing,
        }
    }

    #[inline(always)]
    fn push_flat(&self, out: &mut String) -> Result<(), AllocError> {
        match self {
            FieldValue::I64(number) => push_integer(out, *number),
            FieldValue::F64(bits) => push_float(out, *bits),
            FieldValue::Bool(flag) => push_truth(out, *flag),
            FieldValue::String(text) => push_text(out, text.as_bytes()),
            FieldValue::Bytes(bytes) => push_bytes(out, bytes),
            FieldValue::PooledString(id) => push_pooled_text(out, *id),
            FieldValue::StackFrames(frames) => push_stack(out, frames.as_slice()),
            FieldValue::PooledStackFrames(id) => push_pooled_stack(out, *id),
            FieldValue::Varint(number) => push_number(out, *number),
            FieldValue::StringMap(pairs) => push_texts(out, pairs),
            _ => out.push_str("None"),
        }
    }

    fn push_flat_in_full(
        &self,
        out: &mut String,
        strings: &StringPool,
        stacks: &StackPool,
    ) -> Result<(), AllocError> {
        match self {
            FieldValue::PooledString(id) => push_known_text(out, strings, *id),
            FieldValue::PooledStackFrames(id) => push_known_stack(out, stacks, *id),
            FieldValue::StringMap(pairs) => push_text_front(out, pairs),
            _ => self.push_flat(out),
        }
    }

    fn flat_known(&self, strings: &StringPool, stacks: &StackPool) -> Result<(), DeserError> {
        match self {
            FieldValue::PooledString(id) => text_known(strings, *id),
            FieldValue::PooledStackFrames(id) => stack_known(stacks, *id),
            _ => Ok(()),
        }
    }
}

// Appends the pairs up to the first that is no pair of texts.
fn push_text_front(out: &mut String, pairs: &[(Vec<u8>, Vec<u8>)]) -> Result<(), AllocError>
    ensures { AppendsText (value_text (texts (texts_front (text_pairs_view pairs.now)))) out.old
        out.new result }
{
    let pairs = text_pairs(*out.allocator(), pairs)?;
    push_texts(out, &pairs)
}

/// Appends a value: the name of its kind, and what it holds (docs/FORMAT.md, "Dumps"). `AllocError` where a growth
/// was refused.
pub fn push_value(out: &mut String, value: &FieldValue) -> Result<(), AllocError>
    ensures { AppendsText (value_text (view value.now)) out.old out.new result }
{
    push_line_value(out, value, &Shown::Plain)
}

/// A value that holds no others.
#[derive(Clone, Copy)]
struct FlatValue<'v, 'p, V> {
    value: &'v V,
    form: &'v Shown<'p>,
}

impl<'v, 'p, V: LineValue> LinePart for FlatValue<'v, 'p, V> {
    ghost text = { λ p. value_text (shown_in p.form.now (flat_form (V.value p.value.now))) };

    #[inline(always)]
    fn push_to(self, out: &mut String) -> Result<(), AllocError> {
        match self.form {
            Shown::Plain => self.value.push_flat(out),
            Shown::InFull(strings, stacks) => self.value.push_flat_in_full(out, strings, stacks),
        }
    }
}

/// The same of any value and any line, as the value is or in full.
#[cycle(value)]
pub(crate) fn push_line_value<V: LineValue, L: GrowingLine>(
    out: &mut L,
    value: &V,
    form: &Shown<'_>,
) -> Result<(), L::Fault>
    ensures { L.grows out.old (value_text (shown_in form.now (V.value value.now))) result out.new }
{
    match value.held() {
        Held::Items(items) => push_list(out, items, form),
        Held::Pairs(pairs) => push_map(out, pairs, form),
        Held::Nothing => out.put_on(FlatValue { value, form }),
    }
}

#[cycle(value)]
pub(crate) fn push_list<V: LineValue, L: GrowingLine>(
    out: &mut L,
    items: &[V],
    form: &Shown<'_>,
) -> Result<(), L::Fault>
    ensures { L.grows out.old (value_text (shown_in form.now
        (list (values_to_items (list_map V.value items.now))))) result out.new }
{
    out.put("List:[")?;
    push_items(out, items, form)?;
    out.put("]")
}

#[cycle(value)]
fn push_map<V: LineValue, L: GrowingLine>(
    out: &mut L,
    pairs: &[(V, V)],
    form: &Shown<'_>,
) -> Result<(), L::Fault>
    ensures { L.grows out.old (value_text (shown_in form.now
        (map (values_to_pairs (list_map (λ p. (V.value p.0, V.value p.1)) pairs.now))))) result
        out.new }
{
    out.put("Map:{")?;
    push_pairs(out, pairs, form)?;
    out.put("}")
}

#[cycle(value)]
fn push_items<V: LineValue, L: GrowingLine>(
    out: &mut L,
    items: &[V],
    form: &Shown<'_>,
) -> Result<(), L::Fault>
    ensures { L.grows out.old
        (join_by (λ v. value_text (shown_in form.now (V.value v))) (codes ",") items.now) result
        out.new }
{
    'items: for (index, item) in items.iter().enumerate() {
        out.put(CommaBefore(index))?;
        push_line_value(out, item, form)?;
    }
    Ok(())
}

#[cycle(value)]
fn push_pairs<V: LineValue, L: GrowingLine>(
    out: &mut L,
    pairs: &[(V, V)],
    form: &Shown<'_>,
) -> Result<(), L::Fault>
    ensures { L.grows out.old
        (join_by (λ p. value_text (shown_in form.now (V.value p.0)) ++ codes "="
        ++ value_text (shown_in form.now (V.value p.1))) (codes ",") pairs.now) result out.new }
{
    'pairs: for (index, pair) in pairs.iter().enumerate() {
        tri!(out.put(CommaBefore(index)));
        tri!(push_line_value(out, &pair.0, form));
        tri!(out.put("="));
        tri!(push_line_value(out, &pair.1, form));
    }
    Ok(())
}

/// Whether the pools know all ids in a value, or the first that they do not know. (One that holds no others is looked
/// at in line.)
#[inline(always)]
pub(crate) fn value_known<V: LineValue>(
    strings: &StringPool,
    stacks: &StackPool,
    value: &V,
) -> Result<(), DeserError>
    ensures { IsKnown (unknown_ids (as_pools strings.now stacks.now) (V.value value.now)) result }
{
    match value.held() {
        Held::Nothing => value.flat_known(strings, stacks),
        Held::Items(_) | Held::Pairs(_) => ids_known(strings, stacks, value),
    }
}

#[cycle(knowing)]
fn ids_known<V: LineValue>(
    strings: &StringPool,
    stacks: &StackPool,
    value: &V,
) -> Result<(), DeserError>
    ensures { IsKnown (unknown_ids (as_pools strings.now stacks.now) (V.value value.now)) result }
{
    match value.held() {
        Held::Items(items) => item_ids_known(strings, stacks, items),
        Held::Pairs(pairs) => pair_ids_known(strings, stacks, pairs),
        Held::Nothing => value.flat_known(strings, stacks),
    }
}

#[cycle(knowing)]
pub(crate) fn item_ids_known<V: LineValue>(
    strings: &StringPool,
    stacks: &StackPool,
    items: &[V],
) -> Result<(), DeserError>
    ensures { IsKnown (unknown_item_ids (as_pools strings.now stacks.now)
        (values_to_items (list_map V.value items.now))) result }
{
    for item in items {
        ids_known(strings, stacks, item)?;
    }
    Ok(())
}

#[cycle(knowing)]
fn pair_ids_known<V: LineValue>(
    strings: &StringPool,
    stacks: &StackPool,
    pairs: &[(V, V)],
) -> Result<(), DeserError>
    ensures { IsKnown (unknown_pair_ids (as_pools strings.now stacks.now)
        (values_to_pairs (list_map (λ p. (V.value p.0, V.value p.1)) pairs.now))) result }
{
    for pair in pairs {
        ids_known(strings, stacks, &pair.0)?;
        ids_known(strings, stacks, &pair.1)?;
    }
    Ok(())
}
