//! Calls of each kind.

use dial9_trace_format::codec::{PoolEntry, StackPoolEntry};
use dial9_trace_format::encoder::{Call, Schema};
use dial9_trace_format::schema::{FieldAnnotation, FieldDef, SchemaEntry};
use dial9_trace_format::types::{FieldType, FieldValue, StackFrames};
use std::alloc::{AllocError, Global};

/// The bytes of a list (docs/FORMAT.md, "Field types"): a map of a truth value to a list of a number and a text, bytes,
/// a map of texts, and a stack.
const NESTED: &[u8] = b"\x04\0\0\0\
    \x0F\x01\0\0\0\x03\x01\x0E\x02\0\0\0\x09\xAC\x02\x04\x05\0\0\0inner\
    \x05\x02\0\0\0\xFF\0\
    \x0A\x01\0\0\0\x03\0\0\0key\x05\0\0\0value\
    \x08\x03\0\0\0\x01\0\0\0\0\0\0\0\x02\0\0\0\0\0\0\0\x03\0\0\0\0\0\0\0";

/// A list that holds a value of each kind that holds others.
pub fn nested(alloc: Global) -> Result<FieldValue, AllocError> {
    match FieldValue::decode(alloc, FieldType::DynamicList, NESTED)? {
        Some((value, _rest)) => Ok(value),
        None => Err(AllocError),
    }
}

/// A list of calls.
#[derive(Clone, Copy)]
pub enum Sample {
    Schemas,
    Slots,
    Pools,
    Many,
}

/// All of them.
pub const SAMPLES: &[Sample] = &[Sample::Schemas, Sample::Slots, Sample::Pools, Sample::Many];

/// The calls of a list.
pub fn calls_of(alloc: Global, sample: Sample) -> Result<Vec<Call>, AllocError> {
    match sample {
        Sample::Schemas => with_schemas(alloc, WITH_SCHEMAS),
        Sample::Slots => with_schemas(alloc, WITH_SLOTS),
        Sample::Pools => with_pools(alloc),
        Sample::Many => many(alloc),
    }
}

/// A call with a schema.
#[derive(Clone, Copy)]
enum Given {
    Register(Of),
    Write(Of, u64, Values),
    RegisterAt(u16, Of),
    WriteAt(u16, Of, u64, Values),
}

/// Which schema it is.
#[derive(Clone, Copy)]
enum Of {
    /// One that several calls share.
    Plain,
    /// One of the same name.
    Other,
    /// One with annotations.
    Noted,
    /// One with fields of many types.
    Wide,
}

/// Which values it has.
#[derive(Clone, Copy)]
enum Values {
    Nothing,
    Flag,
    Number(u64),
    Wide,
}

/// Accepted calls, and each kind of refusal that a list of calls meets.
const WITH_SCHEMAS: &[Given] = &[
    Given::Register(Of::Plain),
    Given::Register(Of::Plain),
    Given::Write(Of::Plain, 1_000, Values::Number(42)),
    Given::Write(Of::Plain, 1_001, Values::Nothing),
    Given::Write(Of::Plain, 1_001, Values::Flag),
    Given::Register(Of::Other),
    Given::Write(Of::Plain, 20_000_000_000, Values::Number(1)),
    Given::Write(Of::Noted, 5, Values::Number(1)),
    Given::Write(Of::Wide, 6, Values::Wide),
    Given::Write(Of::Plain, 7, Values::Number(u64::MAX)),
];

/// The same of schemas under slots: those of a wire id, those that go by their name, and events of both.
const WITH_SLOTS: &[Given] = &[
    Given::RegisterAt(7, Of::Plain),
    Given::RegisterAt(7, Of::Plain),
    Given::RegisterAt(7, Of::Other),
    Given::WriteAt(7, Of::Plain, 1_000, Values::Number(42)),
    Given::WriteAt(7, Of::Plain, 1_001, Values::Nothing),
    Given::WriteAt(7, Of::Plain, 1_001, Values::Flag),
    Given::WriteAt(255, Of::Noted, 1_002, Values::Number(1)),
    Given::RegisterAt(0, Of::Plain),
    Given::RegisterAt(256, Of::Other),
    Given::WriteAt(300, Of::Wide, 1_003, Values::Wide),
    Given::WriteAt(0, Of::Wide, 20_000_000, Values::Wide),
    Given::WriteAt(7, Of::Plain, 20_000_000_000, Values::Number(u64::MAX)),
];

fn with_schemas(alloc: Global, given: &[Given]) -> Result<Vec<Call>, AllocError> {
    let plain = schema_of(alloc, "Ev", &[FieldType::Varint])?;
    let mut calls = Vec::new(alloc);
    match push_given(alloc, &plain, given, &mut calls) {
        Ok(()) => Ok(calls),
        Err(error) => Err(error),
    }
}

fn push_given(
    alloc: Global,
    plain: &Schema,
    given: &[Given],
    calls: &mut Vec<Call>,
) -> Result<(), AllocError> {
    for one in given {
        calls.push(call_of(alloc, plain, *one)?)?;
    }
    Ok(())
}

fn call_of(alloc: Global, plain: &Schema, given: Given) -> Result<Call, AllocError> {
    match given {
        Given::Register(of) => Ok(Call::Register(schema(alloc, plain, of)?)),
        Given::Write(of, time, values) => {
            let schema = schema(alloc, plain, of)?;
            Ok(Call::WriteEvent(schema, time, values_of(alloc, values)?))
        }
        Given::RegisterAt(slot, of) => Ok(Call::RegisterAt(slot, schema(alloc, plain, of)?)),
        Given::WriteAt(slot, of, time, values) => {
            let schema = schema(alloc, plain, of)?;
            let values = values_of(alloc, values)?;
            Ok(Call::WriteEventAt(slot, schema, time, values))
        }
    }
}

fn schema(alloc: Global, plain: &Schema, of: Of) -> Result<Schema, AllocError> {
    match of {
        Of::Plain => plain.clone(),
        Of::Other => schema_of(alloc, "Ev", &[FieldType::Bool]),
        Of::Noted => noted(alloc),
        Of::Wide => schema_of(alloc, "Many", WIDE),
    }
}

fn values_of(alloc: Global, values: Values) -> Result<Vec<FieldValue>, AllocError> {
    match values {
        Values::Nothing => Ok(Vec::new(alloc)),
        Values::Flag => Ok(vec![in alloc; FieldValue::Bool(true)]?),
        Values::Number(number) => Ok(vec![in alloc; FieldValue::Varint(number)]?),
        Values::Wide => wide_values(alloc),
    }
}

/// A schema of this name with fields of these types.
fn schema_of(alloc: Global, name: &str, types: &[FieldType]) -> Result<Schema, AllocError> {
    let mut fields = Vec::new(alloc);
    for field_type in types {
        fields.push(FieldDef::new(alloc, "field", *field_type)?)?;
    }
    Schema::new(alloc, name, fields)
}

/// A schema with annotations.
fn noted(alloc: Global) -> Result<Schema, AllocError> {
    let field = FieldDef::new(alloc, "v", FieldType::Varint)?;
    let unit = FieldAnnotation::new(alloc, 0, "unit", "nanoseconds")?;
    let other = FieldAnnotation::new(alloc, 7, "k", "")?;
    let entry = SchemaEntry::with_annotations(alloc, "Noted", &[field], &[unit, other])?;
    Schema::from_entry(alloc, entry)
}

/// Many types.
const WIDE: &[FieldType] = &[
    FieldType::DynamicList,
    FieldType::OptionalString,
    FieldType::StringMap,
    FieldType::U16,
    FieldType::StackFrames,
    FieldType::OptionalDynamicMap,
];

/// Values of these types.
fn wide_values(alloc: Global) -> Result<Vec<FieldValue>, AllocError> {
    let mut values = Vec::new(alloc);
    for field_type in WIDE {
        values.push(value_of(alloc, *field_type)?)?;
    }
    Ok(values)
}

/// A value of one of these types.
fn value_of(alloc: Global, field_type: FieldType) -> Result<FieldValue, AllocError> {
    match field_type {
        FieldType::DynamicList => nested(alloc),
        FieldType::OptionalString => FieldValue::string(alloc, "an optional text"),
        FieldType::StringMap => Ok(FieldValue::StringMap(Vec::new(alloc))),
        FieldType::U16 => Ok(FieldValue::Varint(65_535)),
        FieldType::StackFrames => match StackFrames::from_slice(alloc, &[1]) {
            Ok(frames) => Ok(FieldValue::StackFrames(frames)),
            Err(error) => Err(error),
        },
        _ => Ok(FieldValue::None),
    }
}

/// Texts that are interned.
const TEXTS: &[&str] = &[
    "hello",
    "hello",
    "a longer text that is none of the others",
    "",
];

/// Stacks that are interned.
const STACKS: &[&[u64]] = &[&[1, 2, 3], &[1, 2, 3], &[], &[7; 20]];

/// Calls with pools.
pub fn with_pools(alloc: Global) -> Result<Vec<Call>, AllocError> {
    let mut calls = Vec::new(alloc);
    match push_pools(alloc, &mut calls) {
        Ok(()) => Ok(calls),
        Err(error) => Err(error),
    }
}

fn push_pools(alloc: Global, calls: &mut Vec<Call>) -> Result<(), AllocError> {
    for text in TEXTS {
        push_text(alloc, text, calls)?;
    }
    for addresses in STACKS {
        push_stack(alloc, addresses, calls)?;
    }
    calls.push(text_pool(alloc)?)?;
    calls.push(stack_pool(alloc)?)?;
    Ok(())
}

/// The call that interns a text.
pub fn push_text(alloc: Global, text: &str, calls: &mut Vec<Call>) -> Result<(), AllocError> {
    calls.push(Call::InternString(String::from_str(alloc, text)?))?;
    Ok(())
}

/// The call that interns a stack.
pub fn push_stack(
    alloc: Global,
    addresses: &[u64],
    calls: &mut Vec<Call>,
) -> Result<(), AllocError> {
    calls.push(Call::InternStack(Vec::from_slice(alloc, addresses)?))?;
    Ok(())
}

/// A pool of a text that is not UTF-8, and of an empty one under the same id.
fn text_pool(alloc: Global) -> Result<Call, AllocError> {
    let first = text_entry(alloc, b"no \xff text")?;
    let second = text_entry(alloc, b"")?;
    Ok(Call::StringPool(Vec::from_array(alloc, [first, second])?))
}

fn text_entry(alloc: Global, bytes: &[u8]) -> Result<PoolEntry, AllocError> {
    Ok(PoolEntry {
        pool_id: 9,
        bytes: Vec::from_slice(alloc, bytes)?,
    })
}

/// A pool of one stack.
fn stack_pool(alloc: Global) -> Result<Call, AllocError> {
    let stack = StackPoolEntry {
        pool_id: 4_000_000_000,
        frames: Vec::from_slice(alloc, &[5, 6])?,
    };
    Ok(Call::StackPool(vec![in alloc; stack]?))
}

/// Many calls that are new each time, so that each table grows more than once.
fn many(alloc: Global) -> Result<Vec<Call>, AllocError> {
    let mut calls = Vec::new(alloc);
    match push_many(alloc, &mut calls) {
        Ok(()) => Ok(calls),
        Err(error) => Err(error),
    }
}

fn push_many(alloc: Global, calls: &mut Vec<Call>) -> Result<(), AllocError> {
    for number in 0..16u64 {
        let name = format!(in alloc; "S{number}")?;
        push_schema(alloc, &name, calls)?;
        push_text(alloc, &name, calls)?;
        push_stack(alloc, &[number], calls)?;
    }
    Ok(())
}

fn push_schema(alloc: Global, name: &str, calls: &mut Vec<Call>) -> Result<(), AllocError> {
    calls.push(Call::Register(schema_of(alloc, name, &[FieldType::Bool])?))?;
    Ok(())
}
