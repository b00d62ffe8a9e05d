//! Counting events whose values own their memory.

ghost use Rattle.std.specs.Prelude.{◌≡◌, ◌<◌, ◌≤◌, ◌++◌, ◌∷◌, [], List, OnOk, OnErr, length};
ghost use Rattle.trace_stats.specs.Summaries.{most_counted};
ghost use Rattle.trace_stats.specs.Events.{Counted, counted_event, IsSchemaOf};
ghost use Rattle.trace_events.specs.OwnedEvents.{owned_event};
ghost use Rattle.trace_stats.specs.parts.Events.{AddsAt, AddsValues, IsFullAt, AreFull};

use crate::field::FieldStats;
use crate::full::Full;
use crate::measure::measure_of_owned;
use crate::schema::SchemaStats;
use trace_events::event::OwnedEvent;

impl SchemaStats {
    /// Counts an event whose values own their memory, as `add` does.
    pub fn add_owned(&mut self, event: &OwnedEvent<'_>, bytes: u64) -> Result<(), Full>
        ensures schema { self.new.schema ≡ self.old.schema }
        ensures added { OnOk result
            ((es : List Counted) → IsSchemaOf es self.old
            → IsSchemaOf (es ++ counted_event (owned_event event.now) bytes ∷ []) self.new) }
        ensures full { OnErr result
            ((es : List Counted) → IsSchemaOf es self.old → most_counted ≤ length es) }
    {
        self.times.add(event.timestamp_ns)?;
        self.bytes.add(bytes)?;
        add_owned_values(&mut self.fields, event)
    }
}

// Counts each value of an event too.
fn add_owned_values(fields: &mut Vec<FieldStats>, event: &OwnedEvent<'_>) -> Result<(), Full>
    ensures added { OnOk result
        (AddsValues (owned_event event.now) fields.old.items fields.new.items) }
    ensures full { OnErr result (AreFull fields.old.items) }
{
    'fields: for index in 0..fields.len() {
        add_owned_value(fields, event, index)?;
    }
    Ok(())
}

// Counts the value of an index of such an event, where it has one.
fn add_owned_value(
    fields: &mut Vec<FieldStats>,
    event: &OwnedEvent<'_>,
    index: usize,
) -> Result<(), Full>
    requires { index < length fields.old.items }
    ensures count { length fields.new.items ≡ length fields.old.items }
    ensures added { OnOk result
        (AddsAt index (owned_event event.now) fields.old.items fields.new.items) }
    ensures full { OnErr result (IsFullAt index fields.old.items) }
{
    match event.values.get(index) {
        Some(value) => {
            fields[index].add(measure_of_owned(event.string_pool, event.stack_pool, value))
        }
        None => Ok(()),
    }
}
