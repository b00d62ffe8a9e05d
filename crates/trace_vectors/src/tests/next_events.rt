//! Events one by one, whose values are put into a list that is kept.

use crate::tests::calls::decoder_of;
use crate::tests::sinks::is_error;
use crate::tests::traces::{CONFLICT, ONE_EVENT};
use dial9_trace_format::codec::WireTypeId;
use dial9_trace_format::decoder::{DecodeError, DecodeErrorKind, Decoder, EventHead};
use dial9_trace_format::schema::FieldDef;
use dial9_trace_format::types::{EventEncoder, FieldValue, FieldValueRef};
use std::alloc::Global;
use std::process::Abort;

/// Header; the schema `Ev` of wire id 256, whose fields `a` to `q` are of the fifteen plain types in the order of their
/// tags, and two of OptionalU8; the text `seven` under 7; an event of it at 1,000; an annotation of it; a stack under
/// 1; a reset to 5,000; the schema `Two` of wire id 257 with the fields `a: Varint` and `b: Bool`; an event of it a
/// nanosecond later with 7 and true.
///
/// A header; the schema `Ev` of wire id 256 with the field `v: Varint`; an event of it at 2 with 300.
const TRACE: [u8; 313] = [
    0x54, 0x52, 0x43, 0x00, 0x01, 0x01, 0x00, 0x01, 0x02, 0x00, 0x45, 0x76, 0x01, 0x11, 0x00, 0x01,
    0x00, 0x61, 0x01, 0x01, 0x00, 0x62, 0x02, 0x01, 0x00, 0x63, 0x03, 0x01, 0x00, 0x64, 0x04, 0x01,
    0x00, 0x65, 0x05, 0x01, 0x00, 0x66, 0x06, 0x01, 0x00, 0x67, 0x07, 0x01, 0x00, 0x68, 0x08, 0x01,
    0x00, 0x69, 0x09, 0x01, 0x00, 0x6A, 0x0A, 0x01, 0x00, 0x6B, 0x0B, 0x01, 0x00, 0x6C, 0x0C, 0x01,
    0x00, 0x6D, 0x0D, 0x01, 0x00, 0x6E, 0x0E, 0x01, 0x00, 0x6F, 0x0F, 0x01, 0x00, 0x70, 0x8B, 0x01,
    0x00, 0x71, 0x8B, 0x03, 0x01, 0x00, 0x00, 0x00, 0x07, 0x00, 0x00, 0x00, 0x05, 0x00, 0x00, 0x00,
    0x73, 0x65, 0x76, 0x65, 0x6E, 0x02, 0x00, 0x01, 0xE8, 0x03, 0x00, 0xFE, 0xFF, 0xFF, 0xFF, 0xFF,
    0xFF, 0xFF, 0xFF, 0x00, 0x00, 0x00, 0x00, 0x00, 0x00, 0xF8, 0x3F, 0x01, 0x02, 0x00, 0x00, 0x00,
    0x68, 0x69, 0x02, 0x00, 0x00, 0x00, 0xFF, 0x00, 0x03, 0x00, 0x00, 0x00, 0x04, 0x00, 0x00, 0x00,
    0x02, 0x00, 0x00, 0x00, 0x10, 0x00, 0x00, 0x00, 0x00, 0x00, 0x00, 0x00, 0x20, 0x00, 0x00, 0x00,
    0x00, 0x00, 0x00, 0x00, 0xAC, 0x02, 0x01, 0x00, 0x00, 0x00, 0x01, 0x00, 0x00, 0x00, 0x6B, 0x01,
    0x00, 0x00, 0x00, 0x76, 0x05, 0x2C, 0x01, 0x70, 0x11, 0x01, 0x00, 0x02, 0x00, 0x00, 0x00, 0x09,
    0x01, 0x03, 0x01, 0x01, 0x00, 0x00, 0x00, 0x04, 0x01, 0x00, 0x00, 0x00, 0x78, 0x09, 0x02, 0x01,
    0x05, 0x00, 0x06, 0x80, 0x02, 0x01, 0x00, 0x00, 0x00, 0x04, 0x00, 0x75, 0x6E, 0x69, 0x74, 0x02,
    0x00, 0x00, 0x00, 0x6E, 0x73, 0x04, 0x01, 0x00, 0x00, 0x00, 0x01, 0x00, 0x00, 0x00, 0x01, 0x00,
    0x00, 0x00, 0x10, 0x00, 0x00, 0x00, 0x00, 0x00, 0x00, 0x00, 0x05, 0x88, 0x13, 0x00, 0x00, 0x00,
    0x00, 0x00, 0x00, 0x01, 0x01, 0x01, 0x03, 0x00, 0x54, 0x77, 0x6F, 0x01, 0x02, 0x00, 0x01, 0x00,
    0x61, 0x09, 0x01, 0x00, 0x62, 0x03, 0x02, 0x01, 0x01, 0x01, 0x00, 0x00, 0x07, 0x01, 0x54, 0x52,
    0x43, 0x00, 0x01, 0x01, 0x00, 0x01, 0x02, 0x00, 0x45, 0x76, 0x01, 0x01, 0x00, 0x01, 0x00, 0x76,
    0x09, 0x02, 0x00, 0x01, 0x02, 0x00, 0x00, 0xAC, 0x02,
];

/// Goes to the next event, whose values are put into the list.
fn next_owned(
    decoder: &mut Decoder<'_>,
    values: &mut Vec<FieldValue>,
) -> Result<Option<EventHead>, DecodeError> {
    decoder.next_event_into(values)
}

/// The same of values that stay in the input.
fn next_shown<'a>(
    decoder: &mut Decoder<'a>,
    values: &mut Vec<FieldValueRef<'a>>,
) -> Result<Option<EventHead>, DecodeError> {
    decoder.next_event_ref_into(values)
}

/// The event's wire id and time are these.
fn is_head(head: Option<EventHead>, id: u16, time: u64) -> bool {
    match head {
        Some(head) => head.type_id == WireTypeId(id) && head.timestamp_ns == time,
        None => false,
    }
}

/// What the decoder has taken along before the event that it gave, since the last header: whether the second schema,
/// how many texts, stacks, and annotations of the first schema.
type Known = (bool, usize, usize, usize);

/// An event's wire id, its time, how many headers stand before it, where its values begin and end, and what is known.
type Row = (u16, u64, u64, (usize, usize), Known);

/// Before the first event stand the frames before it, and none after it; the third stands in a trace of its own.
const EVENTS: [Row; 3] = [
    (256, 1_000, 1, (107, 210), (false, 1, 0, 0)),
    (257, 5_001, 1, (284, 286), (true, 1, 1, 1)),
    (256, 2, 2, (311, 313), (false, 0, 0, 0)),
];

/// The decoder knows so much.
fn knows(decoder: &Decoder<'_>, known: Known) -> bool {
    let (second, texts, stacks, notes) = known;
    let registry = decoder.registry();
    let Some(first) = registry.get(WireTypeId(256)) else {
        return false;
    };
    first.annotations().len() == notes
        && registry.get(WireTypeId(257)).is_some() == second
        && decoder.string_pool().len() == texts
        && decoder.stack_pool().len() == stacks
}

/// The values, written as the fields of this schema.
fn written(rt: &impl Abort, alloc: Global, fields: &[FieldDef], values: &[FieldValue]) -> Vec<u8> {
    let mut out = Vec::new(alloc);
    let mut encoder = EventEncoder::new(&mut out);
    for (value, field) in values.iter().zip(fields) {
        encoder
            .write_field_value(value, field.field_type())
            .expect(rt, "no refusal");
    }
    out
}

/// The values are those of the fields of the schema, whose bytes stand here.
fn are_values(
    rt: &impl Abort,
    alloc: Global,
    decoder: &Decoder<'_>,
    id: u16,
    values: &[FieldValue],
    place: (usize, usize),
) -> bool {
    let Some(schema) = decoder.registry().get(WireTypeId(id)) else {
        return false;
    };
    let bytes = written(rt, alloc, schema.fields(), values);
    values.len() == schema.fields().len() && TRACE.get(place.0..place.1) == Some(bytes.as_slice())
}

/// The event comes, with its values in place of all others.
fn gives(
    rt: &impl Abort,
    alloc: Global,
    decoder: &mut Decoder<'_>,
    values: &mut Vec<FieldValue>,
    row: Row,
) -> bool {
    let (id, time, headers, place, known) = row;
    let is_next = is_head(
        next_owned(decoder, values).expect(rt, "no refusal"),
        id,
        time,
    );
    let is_placed = Decoder::position(decoder) == place.1 && decoder.headers() == headers;
    is_next
        && is_placed
        && knows(decoder, known)
        && are_values(rt, alloc, decoder, id, values, place)
}

/// Then none, and the list is empty.
fn gives_none(rt: &impl Abort, decoder: &mut Decoder<'_>, values: &mut Vec<FieldValue>) -> bool {
    next_owned(decoder, values)
        .expect(rt, "no refusal")
        .is_none()
        && values.is_empty()
        && Decoder::position(decoder) == 313
}

/// The list keeps the room that it has after the first event, which has the most values.
#[test]
fn values_of_each_kind_into_one_list(rt: HostRuntime) {
    let mut decoder = decoder_of(&rt, rt.alloc(), &TRACE);
    let mut values = Vec::new(rt.alloc());
    let mut room = 0;
    for row in EVENTS {
        assert!(rt; gives(&rt, rt.alloc(), &mut decoder, &mut values, row));
        room = if room == 0 { values.capacity() } else { room };
    }
    assert!(rt; gives_none(&rt, &mut decoder, &mut values) && values.capacity() == room);
}

/// The answer is the conflict of wire id 256, which ends at 40.
fn is_conflict(answer: Result<Option<EventHead>, DecodeError>) -> bool {
    match answer {
        Ok(_) => false,
        Err(error) => is_error(&error, &DecodeErrorKind::Conflict(WireTypeId(256)), 40),
    }
}

/// The call tells the conflict, and the list is empty then.
fn tells_conflict(decoder: &mut Decoder<'_>, values: &mut Vec<FieldValue>) -> bool {
    is_conflict(next_owned(decoder, values)) && values.is_empty()
}

/// So does the call of values in the input.
fn shows_conflict<'a>(decoder: &mut Decoder<'a>, values: &mut Vec<FieldValueRef<'a>>) -> bool {
    is_conflict(next_shown(decoder, values)) && values.is_empty()
}

/// The event before the conflict comes.
fn gives_one_event(
    rt: &impl Abort,
    decoder: &mut Decoder<'_>,
    values: &mut Vec<FieldValue>,
) -> bool {
    let is_first = is_head(
        next_owned(decoder, values).expect(rt, "no refusal"),
        256,
        1_000,
    );
    is_first && values.as_slice() == [FieldValue::Varint(42)].as_slice()
}

/// A schema that conflicts is told each time, and the list is empty then, whatever stood in it.
#[test]
fn no_values_at_a_conflict(rt: HostRuntime) {
    let mut decoder = decoder_of(&rt, rt.alloc(), &CONFLICT);
    let mut values = Vec::new(rt.alloc());
    assert!(rt; gives_one_event(&rt, &mut decoder, &mut values));
    assert!(rt; tells_conflict(&mut decoder, &mut values));
    values.push(FieldValue::None).expect(&rt, "memory");
    let mut shown = vec![in rt.alloc(); FieldValueRef::None].expect(&rt, "memory");
    assert!(rt;
        tells_conflict(&mut decoder, &mut values) && shows_conflict(&mut decoder, &mut shown)
    );
}

/// A trace that is cut goes to the frame that is not whole: no event comes of it, and the list is empty.
fn ends_empty(rt: &impl Abort, alloc: Global, bytes: &[u8], place: usize) -> bool {
    let mut decoder = decoder_of(rt, alloc, bytes);
    let mut values = vec![in alloc; FieldValue::Bool(true)].expect(rt, "memory");
    let mut shown = vec![in alloc; FieldValueRef::Bool(true)].expect(rt, "memory");
    let none = next_owned(&mut decoder, &mut values)
        .expect(rt, "no refusal")
        .is_none()
        && values.is_empty();
    let again = next_shown(&mut decoder, &mut shown)
        .expect(rt, "no refusal")
        .is_none()
        && shown.is_empty();
    none && again && decoder.position() == place
}

#[test]
fn no_values_where_no_event_stands(rt: HostRuntime) {
    for cut in 5..26usize {
        let place = if cut < 19 { 5 } else { 19 };
        assert!(rt; ends_empty(&rt, rt.alloc(), &ONE_EVENT[..cut], place));
    }
}

/// Header, the schema `K` with the field `f: String`, and an event of it at 0 with the byte FF.
const NO_TEXT: [u8; 29] = [
    0x54, 0x52, 0x43, 0x00, 0x01, 0x01, 0x00, 0x01, 0x01, 0x00, 0x4B, 0x01, 0x01, 0x00, 0x01, 0x00,
    0x66, 0x04, 0x02, 0x00, 0x01, 0x00, 0x00, 0x00, 0x01, 0x00, 0x00, 0x00, 0xFF,
];

/// The reader of values in the input gives no event, and that of owned values one, whose text has U+FFFD.
fn is_owned_alone(rt: &impl Abort, alloc: Global, decoder: &mut Decoder<'_>) -> bool {
    let mut shown = vec![in alloc; FieldValueRef::Bool(true)].expect(rt, "memory");
    let none = next_shown(decoder, &mut shown)
        .expect(rt, "no refusal")
        .is_none()
        && shown.is_empty();
    let mut values = Vec::new(alloc);
    let is_event = is_head(
        next_owned(decoder, &mut values).expect(rt, "no refusal"),
        256,
        0,
    );
    let text = FieldValue::string(alloc, "\u{FFFD}").expect(rt, "memory");
    none && is_event && values.as_slice() == [text].as_slice()
}

/// A string that is not UTF-8 is a value of its own, and none in the input.
#[test]
fn an_event_of_no_text(rt: HostRuntime) {
    let mut decoder = decoder_of(&rt, rt.alloc(), &NO_TEXT);
    assert!(rt; is_owned_alone(&rt, rt.alloc(), &mut decoder));
}
