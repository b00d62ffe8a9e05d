//! What is kept of the events of a schema.

ghost use Rattle.std.specs.Prelude.{◌≡◌, ◌<◌, ◌≤◌, ◌++◌, ◌∷◌, [], List, IfOk, OnOk, OnErr, length};
ghost use Rattle.dial9_trace_format.specs.ShownEvents.{shown_event};
ghost use Rattle.trace_stats.specs.Summaries.{most_counted};
ghost use Rattle.trace_stats.specs.Events.{Counted, counted_event, AreFieldsOf, IsSchemaOf};
ghost use Rattle.trace_events.specs.Schemas.{bare, is_same_schema};
ghost use Rattle.trace_stats.specs.parts.Events.{AddsAt, AddsValues, IsFullAt, AreFull};

use crate::field::FieldStats;
use crate::full::Full;
use crate::measure::measure_of;
use crate::same::is_same;
use crate::summary::Summary;
use dial9_trace_format::decoder::RawEvent;
use std::alloc::{AllocError, Global};
use trace_wire::schema::SchemaEntry;

mod owned;

/// What the events of a schema add up to: their times, the bytes that they take, and the values of each field.
#[derive(Debug, Drop)]
pub struct SchemaStats {
    schema: SchemaEntry,
    times: Summary,
    bytes: Summary,
    fields: Vec<FieldStats>,
}

impl SchemaStats {
    /// Of no event of a schema. `AllocError` where a growth was refused.
    pub fn new(alloc: Global, schema: &SchemaEntry) -> Result<SchemaStats, AllocError>
        ensures schema { IfOk result (λ s. s.schema ≡ bare schema.now) }
        ensures stats { IfOk result (IsSchemaOf []) }
    {
        let fields = of_no_values(alloc, schema.fields().len())?;
        let schema = SchemaEntry::new(alloc, schema.name(), schema.fields())?;
        Ok(SchemaStats {
            schema,
            times: Summary::new(),
            bytes: Summary::new(),
            fields,
        })
    }

    /// Counts an event of so many bytes too. `Full` only where 2^64 - 1 events were counted: then a part of this one
    /// is.
    pub fn add(&mut self, event: &RawEvent<'_, '_>, bytes: u64) -> Result<(), Full>
        ensures schema { self.new.schema ≡ self.old.schema }
        ensures added { OnOk result
            ((es : List Counted) → IsSchemaOf es self.old
            → IsSchemaOf (es ++ counted_event (shown_event event.now) bytes ∷ []) self.new) }
        ensures full { OnErr result
            ((es : List Counted) → IsSchemaOf es self.old → most_counted ≤ length es) }
    {
        self.times.add(event.timestamp_ns)?;
        self.bytes.add(bytes)?;
        add_values(&mut self.fields, event)
    }

    /// Whether a schema has the same name and the same fields as this one.
    #[inline]
    pub(crate) fn is_of(&self, schema: &SchemaEntry) -> bool
        ensures { result ≡ is_same_schema self.now.schema schema.now }
    {
        is_same(&self.schema, schema)
    }

    /// The schema, without its annotations.
    pub fn schema(&self) -> &SchemaEntry
        ensures { result.now ≡ self.now.schema }
    {
        &self.schema
    }

    /// The times of the events, in nanoseconds.
    pub fn times(&self) -> &Summary
        ensures { result.now ≡ self.now.times }
    {
        &self.times
    }

    /// The bytes that the events take.
    pub fn bytes(&self) -> &Summary
        ensures { result.now ≡ self.now.bytes }
    {
        &self.bytes
    }

    /// What is kept of each field, in the order of the schema.
    pub fn fields(&self) -> &[FieldStats]
        ensures { result.now ≡ self.now.fields.items }
    {
        self.fields.as_slice()
    }
}

// So many fields of no values.
fn of_no_values(alloc: Global, count: usize) -> Result<Vec<FieldStats>, AllocError>
    ensures { IfOk result (λ fields. AreFieldsOf count [] fields.items) }
{
    let mut fields = Vec::new(alloc);
    'fields: for _ in 0..count {
        fields.reserve(1)?;
        fields.push_reserved(FieldStats::new());
    }
    Ok(fields)
}

// Counts each value of an event too.
fn add_values(fields: &mut Vec<FieldStats>, event: &RawEvent<'_, '_>) -> Result<(), Full>
    ensures added { OnOk result
        (AddsValues (shown_event event.now) fields.old.items fields.new.items) }
    ensures full { OnErr result (AreFull fields.old.items) }
{
    'fields: for index in 0..fields.len() {
        add_value(fields, event, index)?;
    }
    Ok(())
}

// Counts the value of an index too, where the event has one.
fn add_value(
    fields: &mut Vec<FieldStats>,
    event: &RawEvent<'_, '_>,
    index: usize,
) -> Result<(), Full>
    requires { index < length fields.old.items }
    ensures count { length fields.new.items ≡ length fields.old.items }
    ensures added { OnOk result
        (AddsAt index (shown_event event.now) fields.old.items fields.new.items) }
    ensures full { OnErr result (IsFullAt index fields.old.items) }
{
    match event.fields.get(index) {
        Some(value) => fields[index].add(measure_of(event.string_pool, event.stack_pool, value)),
        None => Ok(()),
    }
}
