//! An encoder that goes on after readers in turn.

use crate::tests::calls::{decoder_of, into_encoder, put_one};
use crate::tests::checks::check_bytes;
use crate::tests::mixed::{Given, Reader, Row, read};
use crate::tests::traces::{THREE_EVENTS, one_field};
use dial9_trace_format::encoder::Encoder;
use dial9_trace_format::types::{FieldType, FieldValue};
use std::alloc::Global;
use std::process::Abort;

/// A frame is read with owned values, one with borrowed values, one by an iterator, and one is shown to a sink, which
/// refuses it.
const IN_TURN: [Row; 4] = [
    (Reader::Owned, Given::Item, 18),
    (Reader::Borrowed, Given::Item, 25),
    (Reader::Events, Given::Item, 33),
    (Reader::Refusing, Given::Item, 40),
];

/// An encoder that goes on after those frames.
fn encoder_after(rt: &impl Abort, alloc: Global) -> Encoder {
    let mut decoder = decoder_of(rt, alloc, &THREE_EVENTS);
    assert!(rt; read(&mut decoder, &IN_TURN));
    into_encoder(rt, alloc, decoder)
}

/// Writes an event of `S` without a value, whose schema the encoder then knows.
fn put_absent(rt: &impl Abort, alloc: Global, encoder: &mut Encoder) {
    let schema = one_field(rt, alloc, "S", "o", FieldType::OptionalU8);
    put_one(rt, encoder, &schema, 0, FieldValue::None);
    assert!(rt; encoder.known_schema(&schema) == Some(256));
}

#[test]
fn goes_on_after_readers_in_turn(rt: HostRuntime) {
    let mut encoder = encoder_after(&rt, rt.alloc());
    put_absent(&rt, rt.alloc(), &mut encoder);
    let sent = [0x02, 0x00, 0x01, 0x00, 0x00, 0x00, 0x00];
    check_bytes(&rt, &encoder.finish(), &sent);
}
