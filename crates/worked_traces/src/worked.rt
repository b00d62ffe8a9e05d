//! The worked traces, by name.

use crate::bytes;
use crate::steps::Step;
use dial9_trace_format::InternedString;
use dial9_trace_format::codec::PoolEntry;
use dial9_trace_format::encoder::{Call, Schema};
use dial9_trace_format::schema::{FieldAnnotation, FieldDef, SchemaEntry};
use dial9_trace_format::types::{FieldType, FieldValue, StackFrames};
use std::alloc::{AllocError, Global};
use trace_samples::events::{FastSlot, Poll};

/// A worked trace.
#[derive(Clone, Copy, PartialEq, Eq, Debug)]
pub enum Worked {
    /// One event.
    OneEvent,
    /// Four events, three of which need a reset.
    FourTimes,
    /// Two events with an optional field.
    Optional,
    /// Two traces of one event, one after the other.
    TwoTraces,
    /// A schema with an annotation.
    Annotated,
    /// An event of a type with a slot, and one of a schema by name.
    BySlot,
    /// Texts.
    Texts,
    /// A stack of no addresses.
    EmptyStack,
    /// Two events of a type by name.
    Polls,
    /// An event with a text of the pool.
    PooledPoll,
    /// An event with values that hold others or bytes.
    EachKind,
}

/// All of them.
pub const ALL: [Worked; 11] = [
    Worked::OneEvent,
    Worked::FourTimes,
    Worked::Optional,
    Worked::TwoTraces,
    Worked::Annotated,
    Worked::BySlot,
    Worked::Texts,
    Worked::EmptyStack,
    Worked::Polls,
    Worked::PooledPoll,
    Worked::EachKind,
];

/// By what name to speak of the trace.
pub fn name_of(worked: Worked) -> &'static str {
    match worked {
        Worked::OneEvent => "one-event",
        Worked::FourTimes => "four-times",
        Worked::Optional => "optional",
        Worked::TwoTraces => "two-traces",
        Worked::Annotated => "annotated",
        Worked::BySlot => "by-slot",
        Worked::Texts => "texts",
        Worked::EmptyStack => "empty-stack",
        Worked::Polls => "polls",
        Worked::PooledPoll => "pooled-poll",
        Worked::EachKind => "each-kind",
    }
}

/// Its bytes.
pub fn bytes_of(worked: Worked) -> &'static [u8] {
    match worked {
        Worked::OneEvent => &bytes::ONE_EVENT,
        Worked::FourTimes => &bytes::FOUR_TIMES,
        Worked::Optional => &bytes::OPTIONAL,
        Worked::TwoTraces => &bytes::TWO_TRACES,
        Worked::Annotated => &bytes::ANNOTATED,
        Worked::BySlot => &bytes::BY_SLOT,
        Worked::Texts => &bytes::TEXTS,
        Worked::EmptyStack => &bytes::EMPTY_STACK,
        Worked::Polls => &bytes::POLLS,
        Worked::PooledPoll => &bytes::POOLED_POLL,
        Worked::EachKind => &bytes::EACH_KIND,
    }
}

/// How many bytes there are after each encoder was made and after each of its steps, by encoders.
pub fn ends_of(worked: Worked) -> &'static [&'static [usize]] {
    match worked {
        Worked::OneEvent => &[&[5, 19, 26]],
        Worked::FourTimes => &[&[5, 19, 26, 42, 58, 74]],
        Worked::Optional => &[&[5, 18, 25, 33]],
        Worked::TwoTraces => &[&[5, 19, 26], &[31, 45, 52]],
        Worked::Annotated => &[&[5, 38, 38]],
        Worked::BySlot => &[&[5, 27, 58]],
        Worked::Texts => &[&[5, 23, 23, 41, 55, 55]],
        Worked::EmptyStack => &[&[5, 18, 18]],
        Worked::Polls => &[&[5, 56, 68]],
        Worked::PooledPoll => &[&[5, 20, 71]],
        Worked::EachKind => &[&[5, 38, 105]],
    }
}

/// The steps of each encoder that writes it, one encoder after the other. `AllocError` where a growth was refused.
pub fn parts_of(alloc: Global, worked: Worked) -> Result<Vec<Vec<Step>>, AllocError> {
    let mut parts = vec![in alloc; steps_of(alloc, worked)?]?;
    if worked == Worked::TwoTraces {
        parts.push(steps_of(alloc, worked)?)?;
    }
    Ok(parts)
}

/// The steps of its first encoder.
fn steps_of(alloc: Global, worked: Worked) -> Result<Vec<Step>, AllocError> {
    match worked {
        Worked::OneEvent | Worked::TwoTraces => one_event(alloc),
        Worked::FourTimes => four_times(alloc),
        Worked::Optional => optional(alloc),
        Worked::Annotated => annotated(alloc),
        Worked::BySlot => by_slot(alloc),
        Worked::Texts => texts(alloc),
        Worked::EmptyStack => {
            let none = Step::Call(Call::InternStack(Vec::new(alloc)));
            let again = Step::Call(Call::InternStack(Vec::new(alloc)));
            Ok(vec![in alloc; none, again]?)
        }
        Worked::Polls => Ok(vec![in alloc; poll(Some(7)), poll(None)]?),
        Worked::PooledPoll => {
            let text = Call::InternString(String::from_str(alloc, "io")?);
            Ok(vec![in alloc; Step::Call(text), poll(Some(7))]?)
        }
        Worked::EachKind => each_kind(alloc),
    }
}

/// A schema of this name with one field.
fn one_field(
    alloc: Global,
    name: &str,
    field: &str,
    field_type: FieldType,
) -> Result<Schema, AllocError> {
    let field = FieldDef::new(alloc, field, field_type)?;
    Schema::new(alloc, name, vec![in alloc; field]?)
}

/// The registration of a schema.
fn registration(schema: &Schema) -> Result<Step, AllocError> {
    Ok(Step::Call(Call::Register(schema.clone()?)))
}

/// An event of a schema with one value.
fn event(alloc: Global, schema: &Schema, time: u64, value: FieldValue) -> Result<Step, AllocError> {
    let values = vec![in alloc; value]?;
    Ok(Step::Call(Call::WriteEvent(schema.clone()?, time, values)))
}

fn one_event(alloc: Global) -> Result<Vec<Step>, AllocError> {
    let schema = one_field(alloc, "Ev", "v", FieldType::Varint)?;
    let event = event(alloc, &schema, 1_000, FieldValue::Varint(42))?;
    Ok(vec![in alloc; registration(&schema)?, event]?)
}

fn four_times(alloc: Global) -> Result<Vec<Step>, AllocError> {
    let schema = one_field(alloc, "TS", "v", FieldType::Varint)?;
    let mut steps = vec![in alloc; registration(&schema)?]?;
    for (time, number) in [
        (100_000, 1),
        (50_000, 2),
        (200_000_000, 3),
        (100_000_000, 4u64),
    ] {
        steps.push(event(alloc, &schema, time, FieldValue::Varint(number))?)?;
    }
    Ok(steps)
}

fn optional(alloc: Global) -> Result<Vec<Step>, AllocError> {
    let schema = one_field(alloc, "S", "o", FieldType::OptionalU8)?;
    let none = event(alloc, &schema, 0, FieldValue::None)?;
    let seven = event(alloc, &schema, 0, FieldValue::Varint(7))?;
    Ok(vec![in alloc; registration(&schema)?, none, seven]?)
}

fn annotated(alloc: Global) -> Result<Vec<Step>, AllocError> {
    let field = FieldDef::new(alloc, "v", FieldType::Varint)?;
    let unit = FieldAnnotation::new(alloc, 0, "unit", "ns")?;
    let entry = SchemaEntry::with_annotations(alloc, "Ev", &[field], &[unit])?;
    let schema = Schema::from_entry(alloc, entry)?;
    Ok(vec![in alloc; registration(&schema)?, registration(&schema)?]?)
}

fn by_slot(alloc: Global) -> Result<Vec<Step>, AllocError> {
    let schema = one_field(alloc, "Dyn", "v", FieldType::Varint)?;
    let event = event(alloc, &schema, 2_000, FieldValue::Varint(1))?;
    Ok(vec![in alloc; Step::Slot(FastSlot { time: 1_000_000 }), event]?)
}

/// A text to intern.
fn text(alloc: Global, text: &str) -> Result<Step, AllocError> {
    Ok(Step::Call(Call::InternString(String::from_str(alloc, text)?)))
}

fn texts(alloc: Global) -> Result<Vec<Step>, AllocError> {
    let entry = PoolEntry {
        pool_id: 0,
        bytes: vec![in alloc; 0x62]?,
    };
    let pool = Step::Call(Call::StringPool(vec![in alloc; entry]?));
    let mut steps = vec![in alloc; text(alloc, "hello")?, text(alloc, "hello")?]?;
    steps.push(text(alloc, "world")?)?;
    steps.push(pool)?;
    steps.push(text(alloc, "hello")?)?;
    Ok(steps)
}

/// A poll of the worker 3 at 1,000 with the text of the id 0.
fn poll(cpu: Option<u32>) -> Step {
    Step::Poll(Poll {
        time: 1_000,
        worker: 3,
        cpu,
        label: InternedString::from_raw(0),
    })
}

fn each_kind(alloc: Global) -> Result<Vec<Step>, AllocError> {
    let mut fields = Vec::new(alloc);
    for (name, field_type) in [
        ("a", FieldType::String),
        ("b", FieldType::StringMap),
        ("c", FieldType::DynamicList),
        ("d", FieldType::DynamicMap),
        ("e", FieldType::StackFrames),
        ("f", FieldType::Bytes),
    ] {
        fields.push(FieldDef::new(alloc, name, field_type)?)?;
    }
    let schema = Schema::new(alloc, "K", fields)?;
    let registration = registration(&schema)?;
    let event = Step::Call(Call::WriteEvent(schema, 1_000, values(alloc)?));
    Ok(vec![in alloc; registration, event]?)
}

/// A value of each kind that holds others or bytes.
fn values(alloc: Global) -> Result<Vec<FieldValue>, AllocError> {
    let pair = (vec![in alloc; 0x6B]?, vec![in alloc; 0x76]?);
    let items = vec![in alloc; FieldValue::Varint(300), FieldValue::string(alloc, "a")?]?;
    let key = (FieldValue::Bool(true), FieldValue::List(Vec::new(alloc)));
    let mut values = vec![in alloc; FieldValue::string(alloc, "hi")?]?;
    values.push(FieldValue::StringMap(vec![in alloc; pair]?))?;
    values.push(FieldValue::List(items))?;
    values.push(FieldValue::Map(vec![in alloc; key]?))?;
    values.push(FieldValue::StackFrames(StackFrames::from_slice(alloc, &[16])?))?;
    values.push(FieldValue::Bytes(vec![in alloc; 0xFF]?))?;
    Ok(values)
}
