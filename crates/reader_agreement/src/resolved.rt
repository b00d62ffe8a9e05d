//! What an event resolves to, beside what its pools hold under the ids of its values, looked up by hand.

ghost use Rattle.std.specs.Prelude.{◌≡◌, ◌≢◌, ◌↔◌, [], ◌∷◌, ℕ, List, false, IsTrue, Some, Ok, Err, codes};
ghost use Rattle.std.specs.Prelude.{alloc_error, slice_get, string_bytes, IsOkAnd};
ghost use Rattle.std.specs.FinMap as finmap;
ghost use Rattle.trace_values.specs.Equal.{same_value};
ghost use Rattle.trace_values.specs.Raw.{texts_front};
ghost use Rattle.trace_values.specs.RawViews.{string_map_view, texts_left};
ghost use Rattle.trace_values.specs.Reading.{values_to_items, values_to_pairs};
ghost use Rattle.trace_values.specs.Refs.{ref_view, ref_views, ref_pair_views};
ghost use Rattle.trace_values.specs.TraceFields.{string_pairs};
ghost use Rattle.trace_values.specs.Values.{list, map, number, stack, text};
ghost use Rattle.trace_wire.specs.Runs.{Pools};
ghost use Rattle.dial9_trace_format.specs.ResolvedViews.{entry_views, resolved_view};
ghost use Rattle.dial9_trace_format.specs.ResolvedViews.{same_entry_value, same_entry_values};
ghost use Rattle.dial9_trace_format.specs.Resolving.{entries_of_event, fields_in_full, unresolved_of};
ghost use Rattle.dial9_trace_format.specs.Resolving.{in_full, items_in_full, pairs_in_full};
ghost use Rattle.dial9_trace_format.specs.Resolving.{head_of_event, stack_or_id, text_or_id};
ghost use Rattle.dial9_trace_format.specs.Resolving.{unknown_ids, unknown_item_ids, unknown_pair_ids};
ghost use Rattle.dial9_trace_format.specs.Resolving.{FirstUnresolved, Resolved};
ghost use Rattle.dial9_trace_format.specs.Resolving.{unknown};
ghost use Rattle.dial9_trace_format.specs.ShownEvents.{shown_event};
ghost use Rattle.dial9_trace_format.specs.declared.resolve.error.DeserError.TheVariants as errors;
ghost use Rattle.dial9_trace_format.specs.parts.Resolving.{as_pools};
ghost use Rattle.reader_agreement.specs.ResolvedAgain.{IsSameAnswer};
ghost use Rattle.reader_agreement.specs.parts.Lookups.{is_flat};

use crate::values::is_stack;
use dial9_trace_format::DeserError;
use dial9_trace_format::decoder::{RawEvent, StackPool, StringPool};
use dial9_trace_format::resolve::{ResolvedEvent, ResolvedValue};
use std::alloc::AllocError;
use trace_values::types::{
    FieldValueRef, InternedStackFrames, InternedString, StringMapIter, StringMapRef, items_of,
    pairs_of,
};

/// Whether this is what the event resolves to: its entries, with what its pools hold in place of ids; or the first
/// reason why it has none. Want of memory may be told of any event.
pub fn is_resolved(event: &RawEvent<'_, '_>, answer: &Result<ResolvedEvent, DeserError>) -> bool
    ensures { IsTrue result ↔ Resolved (shown_event event.now) answer.now }
{
    match answer {
        Ok(resolved) => first_unresolved(event).is_none() && has_entries(event, resolved.entries()),
        Err(error) => is_refusal(event, error),
    }
}

/// Whether the error is the first reason why the event has no entries, or tells want of memory.
fn is_refusal(event: &RawEvent<'_, '_>, error: &DeserError) -> bool
    ensures { IsTrue result ↔ FirstUnresolved (unresolved_of (shown_event event.now)) error.now }
{
    match error {
        DeserError::OutOfMemory => true,
        _ => is_first(event, error),
    }
}

/// Whether the error is the first reason.
fn is_first(event: &RawEvent<'_, '_>, error: &DeserError) -> bool
    ensures { IsTrue result
        ↔ (slice_get (unresolved_of (shown_event event.now)) 0 ≡ Some error.now) }
{
    match first_unresolved(event) {
        Some(first) => first == *error,
        None => false,
    }
}

/// The first reason why the event has no entries.
fn first_unresolved(event: &RawEvent<'_, '_>) -> Option<DeserError>
    ensures { result ≡ slice_get (unresolved_of (shown_event event.now)) 0 }
{
    let mut names = event.schema.fields();
    for field in event.fields {
        let Some((_, others)) = names.split_first() else {
            return Some(DeserError::SchemaShort);
        };
        let unknown = unknown_id(event.string_pool, event.stack_pool, field);
        if unknown.is_some() {
            return unknown;
        }
        names = others;
    }
    None
}

/// The first id in the value that the pools do not hold.
#[cycle(unknown_id)]
fn unknown_id(
    texts: &StringPool,
    stacks: &StackPool,
    value: &FieldValueRef<'_>,
) -> Option<DeserError>
    ensures { result
        ≡ slice_get (unknown_ids (as_pools texts.now stacks.now) (ref_view value.now)) 0 }
{
    match value {
        FieldValueRef::PooledString(id) => unknown_text(texts, *id),
        FieldValueRef::PooledStackFrames(id) => unknown_stack(stacks, *id),
        FieldValueRef::List(items) => unknown_item_id(texts, stacks, items_of(items)),
        FieldValueRef::Map(pairs) => unknown_pair_id(texts, stacks, pairs_of(pairs)),
        _ => None,
    }
}

#[cycle(unknown_id)]
fn unknown_item_id(
    texts: &StringPool,
    stacks: &StackPool,
    items: &[FieldValueRef<'_>],
) -> Option<DeserError>
    ensures { result ≡ slice_get (unknown_item_ids (as_pools texts.now stacks.now)
        (values_to_items (ref_views items.now))) 0 }
{
    for item in items {
        let unknown = unknown_id(texts, stacks, item);
        if unknown.is_some() {
            return unknown;
        }
    }
    None
}

#[cycle(unknown_id)]
fn unknown_pair_id(
    texts: &StringPool,
    stacks: &StackPool,
    pairs: &[(FieldValueRef<'_>, FieldValueRef<'_>)],
) -> Option<DeserError>
    ensures { result ≡ slice_get (unknown_pair_ids (as_pools texts.now stacks.now)
        (values_to_pairs (ref_pair_views pairs.now))) 0 }
{
    for pair in pairs {
        let key = unknown_id(texts, stacks, &pair.0);
        if key.is_some() {
            return key;
        }
        let value = unknown_id(texts, stacks, &pair.1);
        if value.is_some() {
            return value;
        }
    }
    None
}

/// The refusal that tells the id of a text, if the pool does not hold it.
fn unknown_text(texts: &StringPool, id: InternedString) -> Option<DeserError>
    ensures { result
        ≡ slice_get (unknown (errors.UnknownString id) (finmap.get texts.now id.0)) 0 }
{
    match texts.get(id) {
        Some(_) => None,
        None => Some(DeserError::UnknownString(id)),
    }
}

/// The same of a stack.
fn unknown_stack(stacks: &StackPool, id: InternedStackFrames) -> Option<DeserError>
    ensures { result
        ≡ slice_get (unknown (errors.UnknownStack id) (finmap.get stacks.now id.0)) 0 }
{
    match stacks.get(id) {
        Some(_) => None,
        None => Some(DeserError::UnknownStack(id)),
    }
}

/// Whether these are the event's name and time, and then its fields, each under its name.
fn has_entries(event: &RawEvent<'_, '_>, entries: &[(String, ResolvedValue)]) -> bool
    ensures { result ≡ same_entry_values (entry_views entries.now)
        (entries_of_event (shown_event event.now)) }
{
    match entries {
        [name, time, fields @ ..] => is_head(event, name, time) && has_fields(event, fields),
        _ => false,
    }
}

/// Whether these are the event's name and time.
fn is_head(
    event: &RawEvent<'_, '_>,
    name: &(String, ResolvedValue),
    time: &(String, ResolvedValue),
) -> bool
    ensures { result ≡ same_entry_values (entry_views (name.now ∷ time.now ∷ []))
        (head_of_event (shown_event event.now)) }
{
    is_text_under("event", event.name, name) && is_time(event.timestamp_ns, time)
}

/// Whether the entry is this text under this name.
fn is_text_under(name: &str, wanted: &str, entry: &(String, ResolvedValue)) -> bool
    ensures { result ≡ same_entry_value (string_bytes entry.now.0, resolved_view entry.now.1)
        (name.now, text wanted.now) }
{
    entry.0.as_str() == name && is_text(wanted, &entry.1)
}

/// Whether the entry is this time.
fn is_time(time: u64, entry: &(String, ResolvedValue)) -> bool
    ensures { result ≡ same_entry_value (string_bytes entry.now.0, resolved_view entry.now.1)
        (codes "timestamp_ns", number time) }
{
    entry.0.as_str() == "timestamp_ns" && is_number(time, &entry.1)
}

fn is_number(wanted: u64, found: &ResolvedValue) -> bool
    ensures { result ≡ same_value (resolved_view found.now) (number wanted) }
{
    match found {
        ResolvedValue::Varint(found) => *found == wanted,
        _ => false,
    }
}

/// Whether these are the event's fields, each under its name.
fn has_fields(event: &RawEvent<'_, '_>, entries: &[(String, ResolvedValue)]) -> bool
    ensures { result ≡ same_entry_values (entry_views entries.now)
        (fields_in_full (shown_event event.now)) }
{
    let mut names = event.schema.fields();
    let mut rest = entries;
    for field in event.fields {
        let Some((name, others)) = names.split_first() else {
            return rest.is_empty();
        };
        let Some((entry, after)) = rest.split_first() else {
            return false;
        };
        if !is_field(event, name.name(), field, entry) {
            return false;
        }
        names = others;
        rest = after;
    }
    rest.is_empty()
}

/// Whether the entry is the field's value, in full, under this name.
fn is_field(
    event: &RawEvent<'_, '_>,
    name: &str,
    field: &FieldValueRef<'_>,
    entry: &(String, ResolvedValue),
) -> bool
    ensures { result ≡ same_entry_value (string_bytes entry.now.0, resolved_view entry.now.1) (
      name.now,
      in_full (as_pools event.now.string_pool.now event.now.stack_pool.now)
          (ref_view field.now),
    ) }
{
    entry.0.as_str() == name && is_in_full(event.string_pool, event.stack_pool, field, &entry.1)
}

/// Whether this is the value with what the pools hold in place of ids.
#[cycle(is_in_full)]
fn is_in_full(
    texts: &StringPool,
    stacks: &StackPool,
    value: &FieldValueRef<'_>,
    found: &ResolvedValue,
) -> bool
    ensures { result ≡ same_value (resolved_view found.now)
        (in_full (as_pools texts.now stacks.now) (ref_view value.now)) }
{
    match value {
        FieldValueRef::PooledString(id) => holds_text(texts, *id, found),
        FieldValueRef::PooledStackFrames(id) => holds_stack(stacks, *id, found),
        FieldValueRef::List(items) => are_in_full(texts, stacks, items_of(items), found),
        FieldValueRef::Map(pairs) => are_pairs_in_full(texts, stacks, pairs_of(pairs), found),
        _ => is_flat(value, found),
    }
}

/// Whether this is the list of the items, each in full.
#[cycle(is_in_full)]
fn are_in_full(
    texts: &StringPool,
    stacks: &StackPool,
    items: &[FieldValueRef<'_>],
    found: &ResolvedValue,
) -> bool
    ensures { result ≡ same_value (resolved_view found.now)
        (list (items_in_full (as_pools texts.now stacks.now)
        (values_to_items (ref_views items.now)))) }
{
    let ResolvedValue::List(list) = found else {
        return false;
    };
    let others = list.as_slice();
    if items.len() != others.len() {
        return false;
    }
    for i in 0..items.len() {
        if !is_in_full(texts, stacks, &items[i], &others[i]) {
            return false;
        }
    }
    true
}

/// Whether this is the map of the pairs, each key and each value in full.
#[cycle(is_in_full)]
fn are_pairs_in_full(
    texts: &StringPool,
    stacks: &StackPool,
    pairs: &[(FieldValueRef<'_>, FieldValueRef<'_>)],
    found: &ResolvedValue,
) -> bool
    ensures { result ≡ same_value (resolved_view found.now)
        (map (pairs_in_full (as_pools texts.now stacks.now)
        (values_to_pairs (ref_pair_views pairs.now)))) }
{
    let ResolvedValue::Map(map) = found else {
        return false;
    };
    let others = map.as_slice();
    if pairs.len() != others.len() {
        return false;
    }
    for i in 0..pairs.len() {
        let x = &pairs[i];
        let y = &others[i];
        let keys = is_in_full(texts, stacks, &x.0, &y.0);
        if !(keys && is_in_full(texts, stacks, &x.1, &y.1)) {
            return false;
        }
    }
    true
}

/// Whether this is the text that the pool holds under the id.
fn holds_text(texts: &StringPool, id: InternedString, found: &ResolvedValue) -> bool
    ensures { result ≡ same_value (resolved_view found.now)
        (text_or_id id.0 (finmap.get texts.now id.0)) }
{
    match texts.get(id) {
        Some(text) => is_text(text, found),
        None => false,
    }
}

/// Whether this is the stack that the pool holds under the id.
fn holds_stack(stacks: &StackPool, id: InternedStackFrames, found: &ResolvedValue) -> bool
    ensures { result ≡ same_value (resolved_view found.now)
        (stack_or_id id.0 (finmap.get stacks.now id.0)) }
{
    match stacks.get(id) {
        Some(addresses) => is_addresses(addresses, found),
        None => false,
    }
}

fn is_text(wanted: &str, found: &ResolvedValue) -> bool
    ensures { result ≡ same_value (resolved_view found.now) (text wanted.now) }
{
    match found {
        ResolvedValue::String(found) => found.as_str() == wanted,
        _ => false,
    }
}

fn is_addresses(addresses: &[u64], found: &ResolvedValue) -> bool
    ensures { result ≡ same_value (resolved_view found.now) (stack addresses.now) }
{
    match found {
        ResolvedValue::StackFrames(found) => found.as_slice() == addresses,
        _ => false,
    }
}

/// Whether this is a value that is no id and holds no others, of a map of texts what its iterator gives.
fn is_flat(value: &FieldValueRef<'_>, found: &ResolvedValue) -> bool
    ensures { (pools : Pools) → IsTrue (is_flat (ref_view value.now))
        → result ≡ same_value (resolved_view found.now) (in_full pools (ref_view value.now)) }
{
    match (value, found) {
        (FieldValueRef::I64(x), ResolvedValue::I64(y)) => *y == *x,
        (FieldValueRef::F64(x), ResolvedValue::F64(y)) => *y == *x,
        (FieldValueRef::Bool(x), ResolvedValue::Bool(y)) => *y == *x,
        (FieldValueRef::Varint(x), ResolvedValue::Varint(y)) => *y == *x,
        (FieldValueRef::String(x), ResolvedValue::String(y)) => y.as_str() == *x,
        (FieldValueRef::Bytes(x), ResolvedValue::Bytes(y)) => y.as_slice() == *x,
        (FieldValueRef::StackFrames(x), ResolvedValue::StackFrames(y)) => is_stack(y.as_slice(), x),
        (FieldValueRef::StringMap(x), ResolvedValue::StringMap(y)) => are_shown(y.as_slice(), x),
        (FieldValueRef::None, ResolvedValue::None) => true,
        _ => false,
    }
}

/// Whether the pairs are those that the iterator over the map gives.
fn are_shown(pairs: &[(String, String)], map: &StringMapRef<'_>) -> bool
    ensures { IsTrue result ↔ (string_pairs pairs.now ≡ texts_front (string_map_view map.now)) }
{
    let mut others = map.iter();
    for pair in pairs {
        if !is_next_pair(&mut others, pair) {
            return false;
        }
    }
    others.next().is_none()
}

/// Whether the next of these pairs is this one.
fn is_next_pair(others: &mut StringMapIter<'_>, pair: &(String, String)) -> bool
    ensures next { IsTrue result → texts_left others.old
        ≡ (string_bytes pair.now.0, string_bytes pair.now.1) ∷ texts_left others.new }
    ensures other { (rest : List (List ℕ × List ℕ)) → texts_left others.old
        ≡ (string_bytes pair.now.0, string_bytes pair.now.1) ∷ rest → IsTrue result }
{
    match others.next() {
        Some((key, value)) => key == pair.0.as_str() && value == pair.1.as_str(),
        None => false,
    }
}

/// Whether an answer is the one that is wanted, which is no want of memory: when it was given, nothing was refused.
/// `AllocError` where the answer tells want of memory.
pub fn is_answer(
    answer: &Result<Option<ResolvedEvent>, DeserError>,
    wanted: &Result<Option<ResolvedEvent>, DeserError>,
) -> Result<bool, AllocError>
    ensures unknown { wanted.now ≡ Err errors.OutOfMemory → result ≡ Ok false }
    ensures memory { wanted.now ≢ Err errors.OutOfMemory → answer.now ≡ Err errors.OutOfMemory
        → result ≡ Err alloc_error }
    ensures same { wanted.now ≢ Err errors.OutOfMemory → answer.now ≢ Err errors.OutOfMemory
        → IsOkAnd result (λ same. IsTrue same ↔ IsSameAnswer answer.now wanted.now) }
{
    match (answer, wanted) {
        (_, Err(DeserError::OutOfMemory)) => Ok(false),
        (Err(DeserError::OutOfMemory), _) => Err(AllocError),
        _ => Ok(is_same_answer(answer, wanted)),
    }
}

/// Whether both are events of the same entries, no events, or the same error.
fn is_same_answer(
    answer: &Result<Option<ResolvedEvent>, DeserError>,
    wanted: &Result<Option<ResolvedEvent>, DeserError>,
) -> bool
    ensures { IsTrue result ↔ IsSameAnswer answer.now wanted.now }
{
    match (answer, wanted) {
        (Ok(Some(answer)), Ok(Some(wanted))) => *answer == *wanted,
        (Ok(None), Ok(None)) => true,
        (Err(answer), Err(wanted)) => *answer == *wanted,
        _ => false,
    }
}
