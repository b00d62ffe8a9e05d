//! Events of schemas and of types that are known.

use crate::refused::asks::Ask;
use crate::refused::samples::nested;
use dial9_trace_format::TraceEvent;
use dial9_trace_format::encoder::{Call, Encoder, Schema};
use dial9_trace_format::leb128::{EncodeError, TraceWrite};
use dial9_trace_format::schema::FieldDef;
use dial9_trace_format::types::{FieldType, FieldValue};
use std::alloc::{AllocError, Global};
use trace_samples::events::{Dynamic, FastSlot};

/// An event of a schema, or of a type, that is known.
#[derive(Drop)]
pub enum Known {
    /// `write_known_event`.
    Event(Schema, u64, Vec<FieldValue>),
    /// `write_known`.
    FastSlot(FastSlot),
    Dynamic(Dynamic),
}

/// Writes the event; where its schema or its type is not known it writes nothing, and settles.
pub fn make_known<W: TraceWrite + Drop>(
    encoder: &mut Encoder<W>,
    known: &Known,
) -> Result<(), EncodeError> {
    match known {
        Known::Event(schema, time, values) => write_known_event(encoder, schema, *time, values),
        Known::FastSlot(event) => write_known(encoder, event),
        Known::Dynamic(event) => write_known(encoder, event),
    }
}

fn write_known_event<W: TraceWrite + Drop>(
    encoder: &mut Encoder<W>,
    schema: &Schema,
    time: u64,
    values: &[FieldValue],
) -> Result<(), EncodeError> {
    if values.len() != schema.fields().len() {
        return encoder.flush();
    }
    match encoder.known_schema(schema) {
        Some(id) => encoder.write_known_event(id, schema, time, values),
        None => encoder.flush(),
    }
}

fn write_known<W: TraceWrite + Drop, T: TraceEvent>(
    encoder: &mut Encoder<W>,
    event: &T,
) -> Result<(), EncodeError> {
    match encoder.known_id::<T>() {
        Some(id) => encoder.write_known(id, event),
        None => encoder.flush(),
    }
}

/// By which calls an event is written once more.
#[derive(Clone, Copy)]
pub enum Again {
    /// Those that look whether it is known.
    Looking,
    /// Those of known schemas and types.
    Known,
}

/// When events are written once more: soon after the first, and so late that a reset is needed.
const TIMES: [u64; 2] = [1_000_001, 20_000_000];

/// Events of a schema and of types, each written once, and then once more in each of these times.
pub fn events_again(alloc: Global, again: Again) -> Result<Vec<Ask>, AllocError> {
    let mut asks = Vec::new(alloc);
    match push_again(alloc, again, &mut asks) {
        Ok(()) => Ok(asks),
        Err(error) => Err(error),
    }
}

fn push_again(alloc: Global, again: Again, asks: &mut Vec<Ask>) -> Result<(), AllocError> {
    let schema = Schema::new(alloc, "L", vec![in alloc; list_field(alloc)?]?)?;
    asks.push(event_of(alloc, &schema, 1_000_000)?)?;
    asks.push(Ask::FastSlot(FastSlot { time: 1_000_000 }))?;
    asks.push(Ask::Dynamic(dynamic(alloc, 1_000_000)?))?;
    for time in TIMES {
        push_at(alloc, again, &schema, time, asks)?;
    }
    Ok(())
}

fn list_field(alloc: Global) -> Result<FieldDef, AllocError> {
    FieldDef::new(alloc, "items", FieldType::DynamicList)
}

fn event_of(alloc: Global, schema: &Schema, time: u64) -> Result<Ask, AllocError> {
    let values = vec![in alloc; nested(alloc)?]?;
    Ok(Ask::Call(Call::WriteEvent(schema.clone()?, time, values)))
}

fn dynamic(alloc: Global, time: u64) -> Result<Dynamic, AllocError> {
    Ok(Dynamic {
        time,
        items: nested(alloc)?,
        table: FieldValue::Map(Vec::new(alloc)),
    })
}

/// The events of one time. That of the schema stands last, since few schemas and types are known at a time.
fn push_at(
    alloc: Global,
    again: Again,
    schema: &Schema,
    time: u64,
    asks: &mut Vec<Ask>,
) -> Result<(), AllocError> {
    match again {
        Again::Looking => {
            asks.push(Ask::FastSlot(FastSlot { time }))?;
            asks.push(Ask::Dynamic(dynamic(alloc, time)?))?;
            asks.push(event_of(alloc, schema, time)?)?;
        }
        Again::Known => {
            asks.push(Ask::Known(Known::FastSlot(FastSlot { time })))?;
            asks.push(Ask::Known(Known::Dynamic(dynamic(alloc, time)?)))?;
            let values = vec![in alloc; nested(alloc)?]?;
            asks.push(Ask::Known(Known::Event(schema.clone()?, time, values)))?;
        }
    }
    Ok(())
}
