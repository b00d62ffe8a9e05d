//! Schemas that are made at run time, and their events, under slots: under each from 1 to 255, known and unknown, after
//! resets, and of names and fields of each size. The bytes that are wanted are spelled here after docs/FORMAT.md.
//! `tools/ample_users` has values of each size.

use crate::tests::ample::schemas::fields;
use crate::tests::ample::{COUNTS, text};
use crate::tests::calls::{fresh, into_encoder, read_out, run};
use crate::tests::checks::reads_all;
use crate::tests::traces::{HEADER, one_field};
use dial9_trace_format::encoder::{Call, Encoder, Reply, Schema};
use dial9_trace_format::leb128::EncodeError;
use dial9_trace_format::schema::{FieldAnnotation, FieldDef, SchemaEntry, WireTypeId};
use dial9_trace_format::types::{FieldType, FieldValue};
use std::alloc::Global;
use std::process::Abort;

/// `Encoder::register_at`.
fn register(encoder: &mut Encoder, slot: u16, schema: &Schema) -> Result<u16, EncodeError> {
    let id = encoder.register_at(slot, schema)?;
    Ok(id.0)
}

/// `Encoder::write_event_at`.
fn put(
    encoder: &mut Encoder,
    slot: u16,
    schema: &Schema,
    time: u64,
    values: &[FieldValue],
) -> Result<(), EncodeError> {
    encoder.write_event_at(slot, schema, time, values)
}

/// An event of the number 7.
fn put_seven(
    encoder: &mut Encoder,
    slot: u16,
    schema: &Schema,
    time: u64,
) -> Result<(), EncodeError> {
    put(encoder, slot, schema, time, &[FieldValue::Varint(7)])
}

/// `Encoder::reset_to`, of a new vector: what was written before.
fn reset(rt: &impl Abort, alloc: Global, encoder: &mut Encoder) -> Vec<u8> {
    encoder.reset_to(Vec::new(alloc)).expect(rt, "no refusal")
}

/// The schema `S` with the field `v` of one byte.
fn schema(rt: &impl Abort, alloc: Global) -> Schema {
    one_field(rt, alloc, "S", "v", FieldType::U8)
}

/// The frame of that schema under a wire id.
fn schema_frame(id: u16) -> [u8; 13] {
    let [low, high] = id.to_le_bytes();
    [
        0x01, low, high, 0x01, 0x00, b'S', 0x01, 0x01, 0x00, 0x01, 0x00, b'v', 0x0B,
    ]
}

/// The frame of an event of the number 7, so many nanoseconds after the one before.
fn event_frame(id: u16, delta: u8) -> [u8; 7] {
    let [low, high] = id.to_le_bytes();
    [0x02, low, high, delta, 0x00, 0x00, 0x07]
}

/// A header, and then these bytes.
fn trace_of(rt: &impl Abort, alloc: Global, frames: &[&[u8]]) -> Vec<u8> {
    let mut bytes = Vec::from_slice(alloc, &HEADER).expect(rt, "memory");
    for frame in frames {
        bytes.extend_from_slice(frame).expect(rt, "memory");
    }
    bytes
}

/// Registers the schema under the slot, or writes an event of it first, and then does both.
fn slot_used(rt: &impl Abort, alloc: Global, slot: u16, registers: bool) -> Vec<u8> {
    let mut encoder = fresh(rt, alloc);
    let schema = schema(rt, alloc);
    if registers {
        register(&mut encoder, slot, &schema).expect(rt, "no refusal");
    }
    put_seven(&mut encoder, slot, &schema, 5).expect(rt, "no refusal");
    register(&mut encoder, slot, &schema).expect(rt, "no refusal");
    put_seven(&mut encoder, slot, &schema, 14).expect(rt, "no refusal");
    encoder.finish()
}

#[test]
fn a_slot_is_the_wire_id(rt: HostRuntime) {
    for slot in 1..=255u16 {
        let schema = schema_frame(slot);
        let frames: [&[u8]; 3] = [&schema, &event_frame(slot, 5), &event_frame(slot, 9)];
        let wanted = trace_of(&rt, rt.alloc(), &frames);
        assert!(rt; slot_used(&rt, rt.alloc(), slot, true).as_slice() == wanted.as_slice());
        assert!(rt; slot_used(&rt, rt.alloc(), slot, false).as_slice() == wanted.as_slice());
    }
}

/// An event of the schema under each slot, at the time.
fn put_each(rt: &impl Abort, encoder: &mut Encoder, schema: &Schema, time: u64) {
    for slot in 1..=255u16 {
        put_seven(encoder, slot, schema, time).expect(rt, "no refusal");
    }
}

/// Two traces of one encoder, the second after a reset: each has an event under each slot, and then again.
fn all_slots(rt: &impl Abort, alloc: Global) -> (Vec<u8>, Vec<u8>) {
    let mut encoder = fresh(rt, alloc);
    let schema = schema(rt, alloc);
    put_each(rt, &mut encoder, &schema, 0);
    put_each(rt, &mut encoder, &schema, 3);
    let first = reset(rt, alloc, &mut encoder);
    put_each(rt, &mut encoder, &schema, 0);
    put_each(rt, &mut encoder, &schema, 3);
    (first, encoder.finish())
}

/// What each of them has.
fn all_slots_wanted(rt: &impl Abort, alloc: Global) -> Vec<u8> {
    let mut bytes = Vec::from_slice(alloc, &HEADER).expect(rt, "memory");
    for slot in 1..=255u16 {
        bytes
            .extend_from_slice(&schema_frame(slot))
            .expect(rt, "memory");
        bytes
            .extend_from_slice(&event_frame(slot, 0))
            .expect(rt, "memory");
    }
    for slot in 1..=255u16 {
        bytes
            .extend_from_slice(&event_frame(slot, if slot == 1 { 3 } else { 0 }))
            .expect(rt, "memory");
    }
    bytes
}

#[test]
fn all_slots_after_a_reset(rt: HostRuntime) {
    let (first, second) = all_slots(&rt, rt.alloc());
    let wanted = all_slots_wanted(&rt, rt.alloc());
    assert!(rt; first.as_slice() == wanted.as_slice());
    assert!(rt; second.as_slice() == wanted.as_slice());
    assert!(rt; reads_all(&rt, rt.alloc(), &first, 765, first.len()));
}

/// Under each other slot the schema goes by its name, and an event of it is written.
fn put_by_name(rt: &impl Abort, encoder: &mut Encoder, schema: &Schema) -> bool {
    for slot in [256, 0, 300, 65_535] {
        if register(encoder, slot, schema).expect(rt, "no refusal") != 256 {
            return false;
        }
        put_seven(encoder, slot, schema, 0).expect(rt, "no refusal");
    }
    true
}

#[test]
fn other_slots_go_by_the_name(rt: HostRuntime) {
    let mut encoder = fresh(&rt, rt.alloc());
    let schema = schema(&rt, rt.alloc());
    assert!(rt;
        put_by_name(&rt, &mut encoder, &schema)
            && register(&mut encoder, 255, &schema).expect(&rt, "no refusal") == 255
    );
    let event = event_frame(256, 0);
    let (by_name, by_slot) = (schema_frame(256), schema_frame(255));
    let frames: [&[u8]; 6] = [&by_name, &event, &event, &event, &event, &by_slot];
    let wanted = trace_of(&rt, rt.alloc(), &frames);
    assert!(rt; encoder.finish().as_slice() == wanted.as_slice());
}

/// The schema is refused so, and so is an event of it.
fn is_refused(encoder: &mut Encoder, slot: u16, schema: &Schema, error: EncodeError) -> bool {
    register(encoder, slot, schema) == Err(error)
        && put_seven(encoder, slot, schema, 0) == Err(error)
}

/// Another schema of the name is refused, under its slot and by its name, and one whose name is too long.
fn refuses_schemas(rt: &impl Abort, alloc: Global, encoder: &mut Encoder, slot: u16) -> bool {
    let other = one_field(rt, alloc, "S", "w", FieldType::U8);
    let long = one_field(
        rt,
        alloc,
        text(rt, alloc, 65_536).as_str(),
        "v",
        FieldType::U8,
    );
    is_refused(encoder, slot, &other, EncodeError::SlotTaken)
        && is_refused(encoder, 0, &other, EncodeError::Conflict)
        && is_refused(encoder, slot ^ 1, &long, EncodeError::TooLong)
}

/// No value is refused, and one that is no byte.
fn refuses_values(encoder: &mut Encoder, schema: &Schema, slot: u16) -> bool {
    let misfit = Err(EncodeError::Misfit { field: 0 });
    put(encoder, slot, schema, 0, &[]) == Err(EncodeError::ValueCount)
        && put(encoder, slot, schema, 0, &[FieldValue::Varint(256)]) == misfit
}

/// An encoder that knows the schema under the slot and by its name.
fn knowing(rt: &impl Abort, alloc: Global, schema: &Schema, slot: u16) -> Encoder {
    let mut encoder = fresh(rt, alloc);
    register(&mut encoder, slot, schema).expect(rt, "no refusal");
    register(&mut encoder, 0, schema).expect(rt, "no refusal");
    encoder
}

/// What is refused writes nothing.
fn check_refusals(rt: &impl Abort, alloc: Global, slot: u16) {
    let schema = schema(rt, alloc);
    let mut encoder = knowing(rt, alloc, &schema, slot);
    assert!(rt; refuses_schemas(rt, alloc, &mut encoder, slot));
    assert!(rt; refuses_values(&mut encoder, &schema, slot));
    let wanted = trace_of(rt, alloc, &[&schema_frame(slot), &schema_frame(256)]);
    assert!(rt; encoder.finish().as_slice() == wanted.as_slice());
}

#[test]
fn refusals_of_slots(rt: HostRuntime) {
    for slot in [2u16, 254, 255] {
        check_refusals(&rt, rt.alloc(), slot);
    }
}

/// A schema `A` without fields under slot 9, whose events have no time.
const UNTIMED: [u8; 14] = [
    0x54, 0x52, 0x43, 0x00, 0x01, 0x01, 0x09, 0x00, 0x01, 0x00, b'A', 0x00, 0x00, 0x00,
];

/// An encoder that goes on after it.
fn after_untimed(rt: &impl Abort, alloc: Global) -> Encoder {
    let decoder = read_out(rt, alloc, &UNTIMED);
    into_encoder(rt, alloc, decoder)
}

/// The schema without fields is refused under its slot, as its events have no time.
fn is_untimed(encoder: &mut Encoder, untimed: &Schema) -> bool {
    register(encoder, 9, untimed) == Err(EncodeError::SlotUntimed)
        && put(encoder, 9, untimed, 0, &[]) == Err(EncodeError::SlotUntimed)
}

#[test]
fn a_slot_without_times(rt: HostRuntime) {
    let mut encoder = after_untimed(&rt, rt.alloc());
    let untimed = Schema::new(rt.alloc(), "A", Vec::new(rt.alloc())).expect(&rt, "memory");
    assert!(rt; is_untimed(&mut encoder, &untimed));
    let schema = schema(&rt, rt.alloc());
    assert!(rt; is_refused(&mut encoder, 9, &schema, EncodeError::SlotTaken));
    assert!(rt; register(&mut encoder, 8, &schema).expect(&rt, "no refusal") == 8);
    assert!(rt; encoder.finish().as_slice() == schema_frame(8).as_slice());
}

/// `S` with an annotation of its field: `unit` is `ns`.
fn annotated(rt: &impl Abort, alloc: Global) -> Schema {
    let field = FieldDef::new(alloc, "v", FieldType::U8).expect(rt, "memory");
    let unit = FieldAnnotation::new(alloc, 0, "unit", "ns").expect(rt, "memory");
    Schema::from_entry(
        alloc,
        SchemaEntry::with_annotations(alloc, "S", &[field], &[unit]).expect(rt, "memory"),
    )
    .expect(rt, "memory")
}

/// What an encoder writes for an event of it under the slot.
fn annotated_event(rt: &impl Abort, alloc: Global, slot: u16) -> Vec<u8> {
    let mut encoder = fresh(rt, alloc);
    let schema = annotated(rt, alloc);
    put_seven(&mut encoder, slot, &schema, 0).expect(rt, "no refusal");
    encoder.finish()
}

/// The frame of that annotation, after its wire id.
const UNIT: [u8; 16] = [
    0x01, 0x00, 0x00, 0x00, 0x04, 0x00, b'u', b'n', b'i', b't', 0x02, 0x00, 0x00, 0x00, b'n', b's',
];

/// Under the slot the frame of annotations begins with its tag and the wire id.
fn is_annotated(rt: &impl Abort, alloc: Global, slot: u16, id: &[u8]) -> bool {
    let bytes = annotated_event(rt, alloc, slot);
    let frames: [&[u8]; 4] = [&schema_frame(slot), id, &UNIT, &event_frame(slot, 0)];
    let wanted = trace_of(rt, alloc, &frames);
    bytes.as_slice() == wanted.as_slice()
}

#[test]
fn annotations_under_a_slot(rt: HostRuntime) {
    assert!(rt; is_annotated(&rt, rt.alloc(), 1, &[0x06, 0x01]));
    assert!(rt; is_annotated(&rt, rt.alloc(), 127, &[0x06, 0x7F]));
    assert!(rt; is_annotated(&rt, rt.alloc(), 128, &[0x06, 0x80, 0x01]));
    assert!(rt; is_annotated(&rt, rt.alloc(), 255, &[0x06, 0xFF, 0x01]));
}

/// What an encoder writes for the schema, twice, and an event of it, at 0, under the slot.
fn event_of(
    rt: &impl Abort,
    alloc: Global,
    slot: u16,
    schema: &Schema,
    values: &[FieldValue],
) -> Vec<u8> {
    let mut encoder = fresh(rt, alloc);
    register(&mut encoder, slot, schema).expect(rt, "no refusal");
    register(&mut encoder, slot, schema).expect(rt, "no refusal");
    put(&mut encoder, slot, schema, 0, values).expect(rt, "no refusal");
    encoder.finish()
}

/// They make so many bytes, which are read.
fn are_written(
    rt: &impl Abort,
    alloc: Global,
    slot: u16,
    schema: &Schema,
    values: &[FieldValue],
    length: u64,
) -> bool {
    let bytes = event_of(rt, alloc, slot, schema, values);
    bytes.len() as u64 == length && reads_all(rt, alloc, &bytes, 2, bytes.len())
}

/// A schema with a name of this size.
fn is_named(rt: &impl Abort, alloc: Global, size: usize) -> bool {
    let schema = Schema::new(alloc, text(rt, alloc, size).as_str(), Vec::new(alloc)).expect(
        rt, "memory",
    );
    are_written(
        rt,
        alloc,
        255,
        &schema,
        &[],
        (size as u64).saturating_add(19),
    )
}

#[test]
fn names_under_a_slot(rt: HostRuntime) {
    for size in COUNTS {
        assert!(rt; is_named(&rt, rt.alloc(), size));
    }
    assert!(rt; is_named(&rt, rt.alloc(), 65_535));
}

/// So many absent values.
fn absent(rt: &impl Abort, alloc: Global, count: usize) -> Vec<FieldValue> {
    let mut values = Vec::new(alloc);
    for _ in 0..count {
        values.push(FieldValue::None).expect(rt, "memory");
    }
    values
}

/// A schema of so many fields, which are absent.
fn has_fields(rt: &impl Abort, alloc: Global, count: usize) -> bool {
    let schema = Schema::new(alloc, "", fields(rt, alloc, count, FieldType::OptionalU8)).expect(
        rt, "memory",
    );
    let length = (count as u64).saturating_mul(4).saturating_add(19);
    are_written(rt, alloc, 1, &schema, &absent(rt, alloc, count), length)
}

#[test]
fn fields_under_a_slot(rt: HostRuntime) {
    for count in COUNTS {
        assert!(rt; has_fields(&rt, rt.alloc(), count));
    }
    assert!(rt; has_fields(&rt, rt.alloc(), 65_535));
}

/// `S` with so many annotations without a key and a value.
fn annotated_often(rt: &impl Abort, alloc: Global, count: usize) -> Schema {
    let field = FieldDef::new(alloc, "v", FieldType::U8).expect(rt, "memory");
    let mut notes = Vec::new(alloc);
    for _ in 0..count {
        let note = FieldAnnotation::new(alloc, 0, "", "").expect(rt, "memory");
        notes.push(note).expect(rt, "memory");
    }
    Schema::from_entry(
        alloc,
        SchemaEntry::with_annotations(alloc, "S", &[field], &notes).expect(rt, "memory"),
    )
    .expect(rt, "memory")
}

/// The annotations are a frame more: its tag, its wire id, a count, and eight bytes for each.
fn has_annotations(rt: &impl Abort, alloc: Global, count: usize) -> bool {
    let schema = annotated_often(rt, alloc, count);
    let bytes = event_of(rt, alloc, 255, &schema, &[FieldValue::Varint(7)]);
    let length = (count as u64).saturating_mul(8).saturating_add(30);
    bytes.len() as u64 == length && reads_all(rt, alloc, &bytes, 3, bytes.len())
}

#[test]
fn annotations_of_each_count_under_a_slot(rt: HostRuntime) {
    for count in COUNTS {
        assert!(rt; count == 0 || has_annotations(&rt, rt.alloc(), count));
    }
    assert!(rt; has_annotations(&rt, rt.alloc(), 65_535));
}

/// Both calls under a slot, as data.
fn calls(rt: &impl Abort, alloc: Global, slot: u16) -> Vec<Call> {
    let schema = schema(rt, alloc);
    let again = schema.clone().expect(rt, "memory");
    let values = vec![in alloc; FieldValue::Varint(7)].expect(rt, "memory");
    let mut calls = Vec::new(alloc);
    calls
        .push(Call::RegisterAt(slot, schema))
        .expect(rt, "memory");
    calls
        .push(Call::WriteEventAt(slot, again, 5, values))
        .expect(rt, "memory");
    calls
}

/// They are answered.
fn are_answered(rt: &impl Abort, alloc: Global, encoder: &mut Encoder, slot: u16) -> bool {
    let replies = run(rt, alloc, encoder, &calls(rt, alloc, slot));
    replies.as_slice() == [Reply::WireId(WireTypeId(slot)), Reply::Done].as_slice()
}

#[test]
fn calls_as_data_under_a_slot(rt: HostRuntime) {
    for slot in 1..=255u16 {
        let mut encoder = fresh(&rt, rt.alloc());
        assert!(rt; are_answered(&rt, rt.alloc(), &mut encoder, slot));
        let wanted = trace_of(
            &rt,
            rt.alloc(),
            &[&schema_frame(slot), &event_frame(slot, 5)],
        );
        assert!(rt; encoder.finish().as_slice() == wanted.as_slice());
    }
}
