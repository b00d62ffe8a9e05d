//! Counters, and what their steps add up to.

ghost use Rattle.std.specs.Prelude.{◌≡◌, ◌<◌, ◌-◌, ◌^◌, pos, min, length, IfOk, OnOk, IfSome, option_map, slice_get};
ghost use Rattle.std.specs.Fmt.{signed_decimal};
ghost use Rattle.trace_values.specs.ValueViews.{view};
ghost use Rattle.trace_events.specs.OwnedEvents.{owned_event};
ghost use Rattle.trace_chrome.specs.Counters.{is_number, shown, whole_of, step_up, reading_by, kind_at, reading_of};
ghost use Rattle.trace_chrome.specs.Counters.{is_sum_of, place_of, number_of, with_counter, total_after, total_of};
ghost use Rattle.trace_chrome.specs.Counters.{stepped, sums_after, name_in, counter_of_field, sums_by, IsShownBy};
ghost use Rattle.trace_chrome.specs.Counters.{sums_of};
ghost use Rattle.trace_chrome.specs.parts.Counts.{sums_at, CountsAt, CountsAll};
ghost use Rattle.trace_chrome.specs.parts.Shapes.{counter_view, reading_view};

use crate::entries::{Counter, Spot, push_count};
use std::alloc::{AllocError, Global};
use std::marker::Model;
use std::num::f64_from_bits_with_nan;
use trace_events::event::OwnedEvent;
use trace_json::value::value_text;
use trace_roles::roles::OF_SCHEMA;
use trace_roles::units::{CounterKind, counter_of};
use trace_values::types::FieldValue;
use trace_wire::schema::{FieldDef, SchemaEntry};

/// What a value of a field counts as.
#[derive(Clone, Copy)]
pub(crate) enum Reading<'e> {
    /// It is shown as it is.
    Shows(&'e FieldValue),
    /// It is a step that is added.
    Adds(i64),
    /// It shows nothing.
    Nothing,
}

/// The sum of a counter.
#[derive(Drop)]
pub(crate) struct Sum {
    track: usize,
    schema: String,
    field: String,
    total: i64,
}

impl Model for Sum {
    ghost use Rattle.std.specs.Prelude.{string_bytes};
    ghost use Rattle.trace_chrome.specs.Counters.{Sum};
    ghost use Rattle.trace_chrome.specs.parts.Codes.{coded_sum};

    ghost Value = { Sum };

    ghost coded = { coded_sum };

    ghost view = { λ s. record {
      counter = record {
        track = s.track;
        schema = string_bytes s.schema;
        field = string_bytes s.field;
      };
      total = s.total;
    } };
}

impl Sum {
    // That of a counter, of 0. `AllocError` where a growth was refused.
    fn new(alloc: Global, counter: Counter<'_>) -> Result<Sum, AllocError>
        ensures { IfOk result (λ s.
            s ≡ record { counter = counter_view counter.entry; total = pos 0 }) }
    {
        Ok(Sum {
            track: counter.track,
            schema: String::from_str(alloc, counter.schema)?,
            field: String::from_str(alloc, counter.field)?,
            total: 0,
        })
    }

    // Whether it is that of a counter.
    fn is_of(&self, counter: Counter<'_>) -> bool
        ensures { result ≡ is_sum_of (counter_view counter.entry) self.now }
    {
        self.track == counter.track
            && (self.schema.as_str() == counter.schema && self.field.as_str() == counter.field)
    }

    // Adds a step, and answers the total.
    fn add(&mut self, step: i64) -> i64
        ensures total { result ≡ total_after self.old.total step }
        ensures sum { self.new ≡ stepped step self.old }
    {
        self.total = self.total.saturating_add(step);
        self.total
    }
}

/// Appends the entries of the counters of an event, and adds its steps. `AllocError` where a growth was refused.
pub(crate) fn push_counters(
    alloc: Global,
    out: &mut Vec<u8>,
    sums: &mut Vec<Sum>,
    event: &OwnedEvent<'_>,
    spot: Spot,
) -> Result<(), AllocError>
    ensures sums { OnOk result (sums.new.items
        ≡ sums_of (owned_event event.now) spot.track sums.old.items) }
    ensures text { OnOk result (CountsAll (owned_event event.now) spot.track spot.at spot.from
        sums.old.items out.old.items out.new.items) }
{
    'values: for index in 0..event.values.len() {
        push_counter(alloc, out, sums, event, spot, index)?;
    }
    Ok(())
}

// Appends the entry of the counter that the field at an index is, and adds its step.
fn push_counter(
    alloc: Global,
    out: &mut Vec<u8>,
    sums: &mut Vec<Sum>,
    event: &OwnedEvent<'_>,
    spot: Spot,
    index: usize,
) -> Result<(), AllocError>
    ensures sums { OnOk result (sums.new.items
        ≡ sums_at (owned_event event.now) spot.track index sums.old.items) }
    ensures text { OnOk result (CountsAt (owned_event event.now) spot.track spot.at spot.from index
        sums.old.items out.old.items out.new.items) }
{
    let counter = counter_at(event.schema, spot.track, index);
    match shown_at(alloc, sums, event, counter, index)? {
        Some(shown) => push_count(alloc, out, spot, counter, &shown),
        None => Ok(()),
    }
}

// What the counter of the field at an index shows, once its step is added.
fn shown_at(
    alloc: Global,
    sums: &mut Vec<Sum>,
    event: &OwnedEvent<'_>,
    counter: Counter<'_>,
    index: usize,
) -> Result<Option<Vec<u8>>, AllocError>
    ensures shown { IfOk result (λ o. IsShownBy (owned_event event.now).pools
        (reading_of (owned_event event.now) index) (counter_view counter.entry) sums.old.items
        (option_map (λ v. v.items) o)) }
    ensures sums { OnOk result (sums.new.items
        ≡ sums_by (reading_of (owned_event event.now) index) (counter_view counter.entry)
        sums.old.items) }
{
    match reading_of(event, index) {
        Reading::Shows(value) => {
            let text = value_text(alloc, event.string_pool, event.stack_pool, value)?;
            Ok(Some(text))
        }
        Reading::Adds(step) => {
            let total = total_of(alloc, sums, counter, step)?;
            Ok(Some(number_text(alloc, total)?))
        }
        Reading::Nothing => Ok(None),
    }
}

// The text of a number.
fn number_text(alloc: Global, number: i64) -> Result<Vec<u8>, AllocError>
    ensures { IfOk result (λ text. text.items ≡ signed_decimal number) }
{
    let text = format!(in alloc; "{number}")?;
    Ok(text.into_bytes())
}

// The total of a counter after a step, which is added.
fn total_of(
    alloc: Global,
    sums: &mut Vec<Sum>,
    counter: Counter<'_>,
    step: i64,
) -> Result<i64, AllocError>
    ensures total { IfOk result (λ n.
        n ≡ total_of (counter_view counter.entry) step sums.old.items) }
    ensures sums { OnOk result (sums.new.items
        ≡ sums_after (counter_view counter.entry) step sums.old.items) }
{
    let place = place_for(alloc, sums, counter)?;
    Ok(sums[place].add(step))
}

// Where the sum of a counter stands, which is put in last, of 0, where it is new.
fn place_for(alloc: Global, sums: &mut Vec<Sum>, counter: Counter<'_>) -> Result<usize, AllocError>
    ensures place { IfOk result (λ i.
        i ≡ number_of (counter_view counter.entry) sums.old.items) }
    ensures within { IfOk result (λ i. i < length sums.new.items) }
    ensures sums { OnOk result (sums.new.items
        ≡ with_counter (counter_view counter.entry) sums.old.items) }
{
    match place_of(sums.as_slice(), counter) {
        Some(place) => Ok(place),
        None => {
            let place = sums.len();
            sums.push(Sum::new(alloc, counter)?)?;
            Ok(place)
        }
    }
}

// Where the sum of a counter stands.
fn place_of(sums: &[Sum], counter: Counter<'_>) -> Option<usize>
    ensures place { result ≡ place_of (counter_view counter.entry) sums.now }
    ensures within { IfSome result (λ i. i < length sums.now) }
{
    sums.iter().position(|sum| sum.is_of(counter))
}

// The counter of the field at an index on a track.
fn counter_at(entry: &SchemaEntry, track: usize, index: usize) -> Counter<'_>
    ensures { counter_view result ≡ counter_of_field entry.now track index }
{
    Counter {
        track,
        schema: entry.name(),
        field: name_at(entry.fields(), index),
    }
}

// The name of the field at an index, where there is one.
fn name_at(fields: &[FieldDef], index: usize) -> &str
    ensures { result.now ≡ name_in (slice_get fields.now index) }
{
    match fields.get(index) {
        Some(field) => field.name(),
        None => "",
    }
}

// What the value at an index counts as.
fn reading_of<'e>(event: &OwnedEvent<'e>, index: usize) -> Reading<'e>
    ensures { reading_view result ≡ reading_of (owned_event event.now) index }
{
    let Some(kind) = kind_at(event.schema, index) else {
        return Reading::Nothing;
    };
    match event.values.get(index) {
        Some(value) => reading_by(kind, value),
        None => Reading::Nothing,
    }
}

// What kind of counter the field at an index is.
fn kind_at(entry: &SchemaEntry, index: usize) -> Option<CounterKind>
    ensures { result ≡ kind_at entry.now index }
{
    if index < usize::from(OF_SCHEMA) {
        counter_of(entry, index as u16)
    } else {
        None
    }
}

// What a value counts as in a counter of a kind.
fn reading_by(kind: CounterKind, value: &FieldValue) -> Reading<'_>
    ensures { reading_view result ≡ reading_by kind (view value.now) }
{
    match kind {
        CounterKind::Gauge => shown(value),
        CounterKind::Counter => match whole_of(value) {
            Some(step) => Reading::Adds(step_up(step)),
            None => Reading::Nothing,
        },
        CounterKind::UpDownCounter => match whole_of(value) {
            Some(step) => Reading::Adds(step),
            None => Reading::Nothing,
        },
    }
}

// What a value counts as in a gauge.
fn shown(value: &FieldValue) -> Reading<'_>
    ensures { reading_view result ≡ shown (view value.now) }
{
    if is_number(value) {
        Reading::Shows(value)
    } else {
        Reading::Nothing
    }
}

// Whether a value is a number that JSON has.
fn is_number(value: &FieldValue) -> bool
    ensures { result ≡ is_number (view value.now) }
{
    match value {
        FieldValue::Varint(_) | FieldValue::I64(_) => true,
        FieldValue::F64(bits) => f64_from_bits_with_nan(*bits).is_finite(),
        _ => false,
    }
}

// The whole number that a value is, and the greatest of 64 bits with a sign where it is greater.
fn whole_of(value: &FieldValue) -> Option<i64>
    ensures { result ≡ whole_of (view value.now) }
{
    match value {
        FieldValue::Varint(number) => Some(signed(*number)),
        FieldValue::I64(number) => Some(*number),
        _ => None,
    }
}

// A number with a sign, and the greatest where it is greater.
fn signed(number: u64) -> i64
    ensures { result ≡ pos (min number (2 ^ 63 - 1)) }
{
    match i64::try_from(number) {
        Ok(signed) => signed,
        Err(_) => i64::MAX,
    }
}

// A number, where it is not below 0, and else 0.
fn step_up(step: i64) -> i64
    ensures { result ≡ step_up step }
{
    step.max(0)
}
