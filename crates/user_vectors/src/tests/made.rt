//! Values of each size, and what an encoder writes of them.

use dial9_trace_format::encoder::{Encoder, Schema};
use dial9_trace_format::schema::FieldDef;
use dial9_trace_format::types::{FieldType, FieldValue, StackFrames};
use std::alloc::Global;
use std::process::Abort;

/// A text of so many bytes.
fn letters(rt: &impl Abort, alloc: Global, size: usize) -> String {
    "x".repeat(alloc, size).expect(rt, "memory")
}

/// So many addresses.
fn addresses(rt: &impl Abort, alloc: Global, size: usize) -> Vec<u64> {
    vec![in alloc; 7; size].expect(rt, "memory")
}

fn text(rt: &impl Abort, alloc: Global, size: usize) -> FieldValue {
    let letters = letters(rt, alloc, size);
    FieldValue::string(alloc, letters.as_str()).expect(rt, "memory")
}

fn text_id(rt: &impl Abort, alloc: Global, encoder: &mut Encoder, size: usize) -> FieldValue {
    let letters = letters(rt, alloc, size);
    let id = encoder.intern_string(letters.as_str());
    FieldValue::PooledString(id.expect(rt, "an id"))
}

fn bytes(rt: &impl Abort, alloc: Global, size: usize) -> FieldValue {
    FieldValue::Bytes(vec![in alloc; 7; size].expect(rt, "memory"))
}

fn stack(rt: &impl Abort, alloc: Global, size: usize) -> FieldValue {
    let addresses = addresses(rt, alloc, size);
    FieldValue::StackFrames(StackFrames::from_slice(alloc, &addresses).expect(rt, "memory"))
}

fn stack_id(rt: &impl Abort, alloc: Global, encoder: &mut Encoder, size: usize) -> FieldValue {
    let addresses = addresses(rt, alloc, size);
    let id = encoder.intern_stack_frames(&addresses);
    FieldValue::PooledStackFrames(id.expect(rt, "an id"))
}

/// A pair of texts of a map.
pub type Pair = (&'static [u8], &'static [u8]);

/// A copy of the pair.
fn copied(rt: &impl Abort, alloc: Global, pair: Pair) -> (Vec<u8>, Vec<u8>) {
    let key = Vec::from_slice(alloc, pair.0).expect(rt, "memory");
    let value = Vec::from_slice(alloc, pair.1).expect(rt, "memory");
    (key, value)
}

/// A map of so many times this pair of texts.
fn texts(rt: &impl Abort, alloc: Global, count: usize, pair: Pair) -> FieldValue {
    let mut pairs = Vec::new(alloc);
    for _ in 0..count {
        let pair = copied(rt, alloc, pair);
        pairs.push(pair).expect(rt, "memory");
    }
    FieldValue::StringMap(pairs)
}

/// A list of so many truths.
pub fn truths(rt: &impl Abort, alloc: Global, count: usize) -> FieldValue {
    let mut items = Vec::new(alloc);
    for _ in 0..count {
        items.push(FieldValue::Bool(true)).expect(rt, "memory");
    }
    FieldValue::List(items)
}

/// A map of so many truths to numbers.
fn map(rt: &impl Abort, alloc: Global, count: usize) -> FieldValue {
    let mut pairs = Vec::new(alloc);
    for _ in 0..count {
        let pair = (FieldValue::Bool(true), FieldValue::Varint(7));
        pairs.push(pair).expect(rt, "memory");
    }
    FieldValue::Map(pairs)
}

/// A value of so many parts, interned where it is an id. A map of texts has this pair.
fn value(
    rt: &impl Abort,
    alloc: Global,
    encoder: &mut Encoder,
    field_type: FieldType,
    size: usize,
    pair: Pair,
) -> FieldValue {
    match field_type {
        FieldType::String => text(rt, alloc, size),
        FieldType::PooledString => text_id(rt, alloc, encoder, size),
        FieldType::Bytes => bytes(rt, alloc, size),
        FieldType::StackFrames => stack(rt, alloc, size),
        FieldType::PooledStackFrames => stack_id(rt, alloc, encoder, size),
        FieldType::StringMap => texts(rt, alloc, size, pair),
        FieldType::DynamicList => truths(rt, alloc, size),
        _ => map(rt, alloc, size),
    }
}

/// So many fields of this name and this type.
pub fn fields(
    rt: &impl Abort,
    alloc: Global,
    name: &str,
    field_type: FieldType,
    count: usize,
) -> Vec<FieldDef> {
    let mut fields = Vec::new(alloc);
    for _ in 0..count {
        let field = FieldDef::new(alloc, name, field_type).expect(rt, "memory");
        fields.push(field).expect(rt, "memory");
    }
    fields
}

/// A schema of this name, of so many fields `f` of this type.
fn schema(
    rt: &impl Abort,
    alloc: Global,
    name: &str,
    field_type: FieldType,
    count: usize,
) -> Schema {
    let fields = fields(rt, alloc, "f", field_type, count);
    Schema::new(alloc, name, fields).expect(rt, "memory")
}

/// Writes so many events at 1,000 of these values.
fn put_events(
    rt: &impl Abort,
    encoder: &mut Encoder,
    schema: &Schema,
    values: &[FieldValue],
    count: usize,
) {
    for _ in 0..count {
        encoder
            .write_event(schema, 1_000, values)
            .expect(rt, "no refusal");
    }
}

/// An event of one value of so many parts.
pub fn sized(
    rt: &impl Abort,
    alloc: Global,
    field_type: FieldType,
    size: usize,
    pair: Pair,
) -> Vec<u8> {
    let mut encoder = Encoder::new(alloc).expect(rt, "no refusal");
    let values = [value(rt, alloc, &mut encoder, field_type, size, pair)];
    let schema = schema(rt, alloc, "K", field_type, 1);
    put_events(rt, &mut encoder, &schema, &values, 1);
    encoder.finish()
}

/// So many numbers.
fn threes(rt: &impl Abort, alloc: Global, count: usize) -> Vec<FieldValue> {
    let mut values = Vec::new(alloc);
    for _ in 0..count {
        values.push(FieldValue::Varint(300)).expect(rt, "memory");
    }
    values
}

/// Writes a schema of this name, and so many events of so many numbers.
pub fn put_numbers(
    rt: &impl Abort,
    alloc: Global,
    encoder: &mut Encoder,
    name: &str,
    events: usize,
    count: usize,
) {
    let values = threes(rt, alloc, count);
    let schema = schema(rt, alloc, name, FieldType::Varint, count);
    put_events(rt, encoder, &schema, &values, events);
}
