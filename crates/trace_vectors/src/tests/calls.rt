//! Calls of encoders and decoders that promise nothing, so that proofs of tests that make many of them stay small.

use dial9_trace_format::TraceEvent;
use dial9_trace_format::decoder::{DecodedFrame, Decoder};
use dial9_trace_format::encoder::{Call, Encoder, Reply, Schema, run_calls};
use dial9_trace_format::leb128::EncodeError;
use dial9_trace_format::types::FieldValue;
use std::alloc::Global;
use std::process::Abort;

/// `Encoder::new`.
pub fn fresh(rt: &impl Abort, alloc: Global) -> Encoder {
    Encoder::new(alloc).expect(rt, "no refusal")
}

/// `Encoder::write`.
pub fn put<T: TraceEvent>(encoder: &mut Encoder, event: &T) -> Result<(), EncodeError> {
    encoder.write(event)
}

/// `Encoder::write_event`, of an event of one value.
pub fn put_one(
    rt: &impl Abort,
    encoder: &mut Encoder,
    schema: &Schema,
    time: u64,
    value: FieldValue,
) {
    encoder
        .write_event(schema, time, &[value])
        .expect(rt, "no refusal")
}

/// `run_calls`.
pub fn run(rt: &impl Abort, alloc: Global, encoder: &mut Encoder, calls: &[Call]) -> Vec<Reply> {
    run_calls(alloc, encoder, calls).expect(rt, "no refusal")
}

/// `Decoder::new`, of bytes that begin with a header.
pub fn decoder_of<'a>(rt: &impl Abort, alloc: Global, bytes: &'a [u8]) -> Decoder<'a> {
    Decoder::new(alloc, bytes).expect(rt, "a header")
}

/// `Decoder::next_frame`.
pub fn next(rt: &impl Abort, decoder: &mut Decoder<'_>) -> Option<DecodedFrame> {
    decoder.next_frame().expect(rt, "frames")
}

/// `Decoder::decode_all`.
pub fn all(rt: &impl Abort, decoder: &mut Decoder<'_>) -> Vec<DecodedFrame> {
    decoder.decode_all().expect(rt, "frames")
}

/// `Decoder::decode_all` of a new decoder.
pub fn all_of(rt: &impl Abort, alloc: Global, bytes: &[u8]) -> Vec<DecodedFrame> {
    let mut decoder = decoder_of(rt, alloc, bytes);
    all(rt, &mut decoder)
}

/// A decoder that gave all frames.
pub fn read_out<'a>(rt: &impl Abort, alloc: Global, bytes: &'a [u8]) -> Decoder<'a> {
    let mut decoder = decoder_of(rt, alloc, bytes);
    let _frames = all(rt, &mut decoder);
    decoder
}

/// `Decoder::into_encoder`, over a new vector.
pub fn into_encoder(rt: &impl Abort, alloc: Global, decoder: Decoder<'_>) -> Encoder {
    decoder
        .into_encoder(Vec::new(alloc))
        .expect(rt, "no refusal")
}

/// `FieldValue::encode`, into a new vector.
pub fn encoded(rt: &impl Abort, alloc: Global, value: &FieldValue) -> Vec<u8> {
    let mut out = Vec::new(alloc);
    value.encode(alloc, &mut out).expect(rt, "no refusal");
    out
}
