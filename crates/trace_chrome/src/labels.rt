//! What an event is called, where it lies, and what it is.

ghost use Rattle.std.specs.Prelude.{◌≡◌, ◌+◌, ◌*◌, IfOk, option_map, option_copied, string_bytes, find};
ghost use Rattle.std.specs.Prelude.{codes, from_bits};
ghost use Rattle.std.specs.Float.Ieee.{binary64};
ghost use Rattle.std.specs.Option.{unwrap_or};
ghost use Rattle.trace_roles.specs.Roles.{is_note};
ghost use Rattle.trace_roles.specs.Units.{nanoseconds_in};
ghost use Rattle.trace_values.specs.ValueViews.{view};
ghost use Rattle.trace_events.specs.OwnedEvents.{owned_event};
ghost use Rattle.trace_chrome.specs.Labels.{text_of, value_at, home, label, track_name, event_name};
ghost use Rattle.trace_chrome.specs.Labels.{is_unknown, is_unknown_at, is_lost, natural_in, unit_of, unit_by};
ghost use Rattle.trace_chrome.specs.Labels.{capped, float_length, length_in, length_by, what_of, end_by};
ghost use Rattle.trace_chrome.specs.parts.Shapes.{what_view};

use std::alloc::{AllocError, Global};
use std::num::{f64_from_bits_with_nan, nearest_u64_to_f64, saturating_f64_to_u64};
use trace_events::event::OwnedEvent;
use trace_roles::roles::{OF_SCHEMA, note_of, roles_of};
use trace_roles::units::nanoseconds_in;
use trace_values::types::FieldValue;
use trace_wire::pools::StringPool;
use trace_wire::schema::{FieldAnnotation, SchemaEntry};

/// What an event is.
#[derive(Clone, Copy)]
pub(crate) enum What<'e> {
    /// It begins a slice of a group.
    Begins(&'e str),
    /// It ends the slice of a group that began last.
    Ends(&'e str),
    /// It is a slice of so many nanoseconds.
    Takes(u64),
    /// It happens at its time.
    Happens,
}

/// What an event is, by its roles; one whose track or name nobody knows happens.
pub(crate) fn what_of<'e>(event: &OwnedEvent<'e>) -> What<'e>
    ensures { what_view result ≡ what_of (owned_event event.now) }
{
    if is_lost(event) {
        return What::Happens;
    }
    let roles = roles_of(event.schema);
    if let Some(group) = roles.begin {
        return What::Begins(group);
    }
    if let Some(group) = roles.end {
        return What::Ends(group);
    }
    match roles.duration {
        Some(index) => What::Takes(length_by(event, index)),
        None => What::Happens,
    }
}

// Whether nobody knows on which track an event lies, or what it is called.
fn is_lost(event: &OwnedEvent<'_>) -> bool
    ensures { result ≡ is_lost (owned_event event.now) }
{
    let roles = roles_of(event.schema);
    is_unknown_at(event, roles.track) || is_unknown_at(event, roles.name)
}

// Whether the field at an index has an id under which the pool holds nothing.
fn is_unknown_at(event: &OwnedEvent<'_>, index: Option<usize>) -> bool
    ensures { result ≡ is_unknown_at (owned_event event.now) index }
{
    match value_at(event, index) {
        Some(value) => is_unknown(event.string_pool, value),
        None => false,
    }
}

// Whether a value is an id under which the pool holds nothing.
fn is_unknown(strings: &StringPool, value: &FieldValue) -> bool
    ensures { result ≡ is_unknown strings.now (view value.now) }
{
    match value {
        FieldValue::PooledString(id) => strings.get(*id).is_none(),
        _ => false,
    }
}

// How long an event took by a field, in nanoseconds.
fn length_by(event: &OwnedEvent<'_>, index: usize) -> u64
    ensures { result ≡ length_by (owned_event event.now) index }
{
    let unit = unit_at(event.schema, index);
    match value_at(event, Some(index)) {
        Some(value) => length_in(unit, value),
        None => 0,
    }
}

// So many of a unit that a value is, in nanoseconds, and 0 of what is no number from 0 on.
fn length_in(unit: u64, value: &FieldValue) -> u64
    ensures { result ≡ length_in unit (view value.now) }
{
    match value {
        FieldValue::Varint(number) => capped(*number, unit),
        FieldValue::I64(number) => capped(natural(*number), unit),
        FieldValue::F64(bits) => float_length(unit, *bits),
        _ => 0,
    }
}

// So many of a unit that a float is, by its bits, in whole nanoseconds; 0 where it is below 0, infinite or no number.
fn float_length(unit: u64, bits: u64) -> u64
    ensures { result ≡ float_length unit (from_bits binary64 bits) }
{
    let float = f64_from_bits_with_nan(bits);
    if float.is_finite() {
        let product = float * nearest_u64_to_f64(unit);
        saturating_f64_to_u64(product.round())
    } else {
        0
    }
}

// How many nanoseconds one of a field's unit is.
fn unit_at(entry: &SchemaEntry, index: usize) -> u64
    ensures { result ≡ unit_by (unit_of entry.now index) }
{
    match unit_note(entry.annotations(), index) {
        Some(note) => unit_named(note.value()),
        None => 1,
    }
}

// How many nanoseconds one of a unit is, and 1 where it is no unit of time.
fn unit_named(unit: &str) -> u64
    ensures { result ≡ unwrap_or (nanoseconds_in unit.now) 1 }
{
    match nanoseconds_in(unit) {
        Some(count) => count,
        None => 1,
    }
}

// The first annotation of a field with a unit.
fn unit_note(notes: &[FieldAnnotation], index: usize) -> Option<&FieldAnnotation>
    ensures { option_copied result ≡ find (is_note index (codes "unit")) notes.now }
{
    notes.iter().find(|note| is_unit_of(note, index))
}

// Whether an annotation is of a field and has a unit.
fn is_unit_of(note: &FieldAnnotation, index: usize) -> bool
    ensures { result ≡ is_note index (codes "unit") note.now }
{
    usize::from(note.field_index()) == index && note.key() == "unit"
}

// A product of 64 bits.
fn capped(number: u64, unit: u64) -> u64
    ensures { result ≡ capped (number * unit) }
{
    match number.checked_mul(unit) {
        Some(product) => product,
        None => u64::MAX,
    }
}

/// When an event ends that begins at a time, by what it is: a slice after its length, at the greatest time at most.
pub(crate) fn end_by(at: u64, what: What<'_>) -> u64
    ensures { result ≡ end_by at (what_view what.entry) }
{
    match what {
        What::Takes(length) => later_by(at, length),
        What::Begins(_) | What::Ends(_) | What::Happens => at,
    }
}

// So many nanoseconds after a time, at the greatest time at most.
fn later_by(at: u64, length: u64) -> u64
    ensures { result ≡ capped (at + length) }
{
    match at.checked_add(length) {
        Some(end) => end,
        None => u64::MAX,
    }
}

/// The name of the track of an event. `AllocError` where a growth was refused.
pub(crate) fn track_name(alloc: Global, event: &OwnedEvent<'_>) -> Result<String, AllocError>
    ensures { IfOk result (λ text. string_bytes text ≡ track_name (owned_event event.now)) }
{
    label(alloc, event, roles_of(event.schema).track)
}

/// The name of an event. `AllocError` where a growth was refused.
pub(crate) fn event_name(alloc: Global, event: &OwnedEvent<'_>) -> Result<String, AllocError>
    ensures { IfOk result (λ text. string_bytes text ≡ event_name (owned_event event.now)) }
{
    label(alloc, event, roles_of(event.schema).name)
}

// The text of a field, and where it has none that of the schema.
fn label(alloc: Global, event: &OwnedEvent<'_>, index: Option<usize>) -> Result<String, AllocError>
    ensures { IfOk result (λ text. string_bytes text ≡ label (owned_event event.now) index) }
{
    let Some(value) = value_at(event, index) else {
        return String::from_str(alloc, home(event.schema));
    };
    match text_of(alloc, event.string_pool, value)? {
        Some(text) => Ok(text),
        None => String::from_str(alloc, home(event.schema)),
    }
}

// The group whose slices events of a schema begin or end, else its name.
fn home(entry: &SchemaEntry) -> &str
    ensures { result.now ≡ home entry.now }
{
    if let Some(group) = note_of(entry, OF_SCHEMA, "begin") {
        return group;
    }
    match note_of(entry, OF_SCHEMA, "end") {
        Some(group) => group,
        None => entry.name(),
    }
}

// The value of a field, if there is such a field.
fn value_at<'e>(event: &OwnedEvent<'e>, index: Option<usize>) -> Option<&'e FieldValue>
    ensures { option_map (λ v. view v.now) result ≡ value_at (owned_event event.now) index }
{
    match index {
        Some(index) => event.values.get(index),
        None => None,
    }
}

// The text that a value is: a whole number's digits, or a text, also by its id.
fn text_of(
    alloc: Global,
    strings: &StringPool,
    value: &FieldValue,
) -> Result<Option<String>, AllocError>
    ensures { IfOk result (λ o. option_map (λ t. string_bytes t) o
        ≡ text_of strings.now (view value.now)) }
{
    match value {
        FieldValue::Varint(number) => Ok(Some(format!(in alloc; "{number}")?)),
        FieldValue::I64(number) => Ok(Some(format!(in alloc; "{number}")?)),
        FieldValue::String(text) => Ok(Some(String::from_str(alloc, text.as_str())?)),
        FieldValue::PooledString(id) => copied(alloc, strings.get(*id)),
        _ => Ok(None),
    }
}

// A text, copied.
fn copied(alloc: Global, text: Option<&str>) -> Result<Option<String>, AllocError>
    ensures { IfOk result (λ o. option_map (λ t. string_bytes t) o
        ≡ option_map (λ t. t.now) text.entry) }
{
    match text {
        Some(text) => Ok(Some(String::from_str(alloc, text)?)),
        None => Ok(None),
    }
}

// A number, where it is not below 0, and else 0.
fn natural(number: i64) -> u64
    ensures { result ≡ natural_in number }
{
    match u64::try_from(number) {
        Ok(natural) => natural,
        Err(_) => 0,
    }
}
