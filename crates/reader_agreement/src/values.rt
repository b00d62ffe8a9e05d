//! Owned values beside those that stay in the bytes.

ghost use Rattle.std.specs.Prelude.{◌≡◌, ◌↔◌, ◌∷◌, ℕ, List, IsTrue};
ghost use Rattle.std.specs.Cmp.Lexicographic.{pointwise};
ghost use Rattle.trace_values.specs.Equal.{same_value, same_items, same_pairs};
ghost use Rattle.trace_values.specs.parts.types.Flat.{same_parts};
ghost use Rattle.trace_values.specs.RawViews.{addresses_left, stack_view, string_map_view};
ghost use Rattle.trace_values.specs.Reading.{Finds, text_pair_at, values_to_items, values_to_pairs};
ghost use Rattle.trace_values.specs.Refs.{ref_view, ref_views, ref_pair_views};
ghost use Rattle.trace_values.specs.ValueViews.{view, views, pair_views, text_pairs_view};

use trace_values::types::parts::counted_at;
use trace_values::types::{
    FieldValue, FieldValueRef, StackFrameIter, StackFramesRef, Stop, StringMapRef, items_of,
    pairs_of,
};

/// Whether the values are those that the borrowed ones stand for, in order.
pub fn are_values(values: &[FieldValue], others: &[FieldValueRef<'_>]) -> bool
    ensures { result ≡ pointwise same_value (views values.now) (ref_views others.now) }
{
    if values.len() != others.len() {
        return false;
    }
    for i in 0..values.len() {
        if !is_value(&values[i], &others[i]) {
            return false;
        }
    }
    true
}

/// Whether the value is the one that the borrowed one stands for: of each map of texts all pairs, text or not.
#[cycle(is_value)]
pub fn is_value(value: &FieldValue, other: &FieldValueRef<'_>) -> bool
    ensures { result ≡ same_value (view value.now) (ref_view other.now) }
{
    match (value, other) {
        (FieldValue::I64(x), FieldValueRef::I64(y)) => *x == *y,
        (FieldValue::F64(x), FieldValueRef::F64(y)) => *x == *y,
        (FieldValue::Bool(x), FieldValueRef::Bool(y)) => *x == *y,
        (FieldValue::Varint(x), FieldValueRef::Varint(y)) => *x == *y,
        (FieldValue::PooledString(x), FieldValueRef::PooledString(y)) => x.raw_id() == y.raw_id(),
        (FieldValue::PooledStackFrames(x), FieldValueRef::PooledStackFrames(y)) => {
            x.raw_id() == y.raw_id()
        }
        (FieldValue::List(x), FieldValueRef::List(y)) => are_items(x.as_slice(), items_of(y)),
        (FieldValue::Map(x), FieldValueRef::Map(y)) => are_pairs(x.as_slice(), pairs_of(y)),
        _ => is_part(value, other),
    }
}

/// Whether a text, bytes, a stack, a map of texts or an absent value is the one that the borrowed one stands for.
/// `false` where it is none of these.
fn is_part(value: &FieldValue, other: &FieldValueRef<'_>) -> bool
    ensures { result ≡ same_parts (view value.now) (ref_view other.now) }
{
    match (value, other) {
        (FieldValue::String(x), FieldValueRef::String(y)) => x.as_str() == *y,
        (FieldValue::Bytes(x), FieldValueRef::Bytes(y)) => x.as_slice() == *y,
        (FieldValue::StackFrames(x), FieldValueRef::StackFrames(y)) => is_stack(x.as_slice(), y),
        (FieldValue::StringMap(x), FieldValueRef::StringMap(y)) => are_texts(x.as_slice(), y),
        (FieldValue::None, FieldValueRef::None) => true,
        _ => false,
    }
}

/// Whether the items are those that the borrowed ones stand for, in order.
#[cycle(is_value)]
fn are_items(items: &[FieldValue], others: &[FieldValueRef<'_>]) -> bool
    ensures { result ≡ same_items (values_to_items (views items.now))
        (values_to_items (ref_views others.now)) }
{
    if items.len() != others.len() {
        return false;
    }
    for i in 0..items.len() {
        if !is_value(&items[i], &others[i]) {
            return false;
        }
    }
    true
}

/// Whether the keys and values are those that the borrowed ones stand for, in order.
#[cycle(is_value)]
fn are_pairs(
    pairs: &[(FieldValue, FieldValue)],
    others: &[(FieldValueRef<'_>, FieldValueRef<'_>)],
) -> bool
    ensures { result ≡ same_pairs (values_to_pairs (pair_views pairs.now))
        (values_to_pairs (ref_pair_views others.now)) }
{
    if pairs.len() != others.len() {
        return false;
    }
    for i in 0..pairs.len() {
        let x = &pairs[i];
        let y = &others[i];
        if !(is_value(&x.0, &y.0) && is_value(&x.1, &y.1)) {
            return false;
        }
    }
    true
}

/// Whether the addresses are those of the stack, in order.
pub fn is_stack(addresses: &[u64], stack: &StackFramesRef<'_>) -> bool
    ensures { IsTrue result ↔ (addresses.now ≡ stack_view stack.now) }
{
    let mut others = stack.iter();
    for address in addresses {
        if !is_next_address(&mut others, *address) {
            return false;
        }
    }
    others.next().is_none()
}

/// Whether the next of these addresses is this one.
fn is_next_address(others: &mut StackFrameIter<'_>, address: u64) -> bool
    ensures next { IsTrue result
        → addresses_left others.old ≡ address ∷ addresses_left others.new }
    ensures other { (rest : List ℕ) → addresses_left others.old ≡ address ∷ rest → IsTrue result }
{
    match others.next() {
        Some(other) => other == address,
        None => false,
    }
}

/// Whether the pairs are all those of the map, text or not, by its raw data.
fn are_texts(pairs: &[(Vec<u8>, Vec<u8>)], map: &StringMapRef<'_>) -> bool
    ensures { IsTrue result ↔ (text_pairs_view pairs.now ≡ string_map_view map.now) }
{
    if map.count() as usize != pairs.len() {
        return false;
    }
    let mut rest = map.raw_data();
    for pair in pairs {
        let (found, after) = text_pair_at(rest).unwrap();
        if !is_pair(pair, found) {
            return false;
        }
        rest = after;
    }
    true
}

/// Whether both parts have these bytes.
fn is_pair(pair: &(Vec<u8>, Vec<u8>), found: (&[u8], &[u8])) -> bool
    ensures { IsTrue result ↔ ((pair.now.0.items ≡ found.entry.0.now)
        × (pair.now.1.items ≡ found.entry.1.now)) }
{
    pair.0.as_slice() == found.0 && pair.1.as_slice() == found.1
}

/// The pair at the front, text or not, and the rest.
#[tactic(auto, unfolding(trace_values::specs::Reading::text_pair_at))]
fn text_pair_at(bytes: &[u8]) -> Result<((&[u8], &[u8]), &[u8]), Stop>
    ensures { Finds (λ x. ((x.0.0.now, x.0.1.now), x.1.now)) result (text_pair_at bytes.now) }
{
    let (key, rest) = counted_at(bytes)?;
    let (value, rest) = counted_at(rest)?;
    Ok(((key, value), rest))
}
