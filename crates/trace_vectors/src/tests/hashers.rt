//! An encoder that hashes by a state of the caller's, and goes on after a trace. `crates/hostile` has other calls.

use crate::tests::calls::{decoder_of, put_one, read_out};
use crate::tests::checks::check_bytes;
use crate::tests::traces::{ONE_EVENT, ev};
use dial9_trace_format::codec::WireTypeId;
use dial9_trace_format::encoder::{Encoder, Schema};
use dial9_trace_format::types::{FieldValue, InternedStackFrames, InternedString};
use std::alloc::Global;
use std::hash::RandomState;
use std::process::Abort;

/// An event of `Ev` at 1,000 with 42.
fn put_event(rt: &impl Abort, alloc: Global, encoder: &mut Encoder) {
    let schema = ev(rt, alloc);
    put_one(rt, encoder, &schema, 1_000, FieldValue::Varint(42))
}

#[test]
fn goes_on_as_before(rt: HostRuntime) {
    let state = RandomState::new(&rt).expect(&rt, "no refusal");
    let mut decoder = decoder_of(&rt, rt.alloc(), &ONE_EVENT);
    let frames = decoder.decode_all().expect(&rt, "frames");
    assert!(rt; frames.len() == 2);
    let mut encoder = decoder
        .into_encoder_with_hasher(Vec::new(rt.alloc()), state)
        .expect(&rt, "no refusal");
    put_event(&rt, rt.alloc(), &mut encoder);
    check_bytes(
        &rt,
        &encoder.finish(),
        &[0x02, 0x00, 0x01, 0x00, 0x00, 0x00, 0x2A],
    );
}

/// How many texts, stacks and schemas there are.
const MANY: u16 = 5_000;

/// The text of this number has it for an id.
fn is_interned(encoder: &mut Encoder, text: &str, number: u16) -> bool {
    encoder.intern_string(text) == Ok(InternedString::from_raw(u32::from(number)))
}

/// The stack of this number alone has it for an id.
fn is_stack_interned(encoder: &mut Encoder, number: u16) -> bool {
    let id = InternedStackFrames::from_raw(u32::from(number));
    encoder.intern_stack_frames(&[u64::from(number)]) == Ok(id)
}

/// The schema of this name has the wire id of this number, counted from 256.
fn is_registered(
    rt: &impl Abort,
    alloc: Global,
    encoder: &mut Encoder,
    name: &str,
    number: u16,
) -> bool {
    let schema = Schema::new(alloc, name, Vec::new(alloc)).expect(rt, "memory");
    encoder.register_existing(&schema) == Ok(WireTypeId(number.saturating_add(256)))
}

/// Each text, stack and schema has the id of its number.
fn have_ids(rt: &impl Abort, alloc: Global, encoder: &mut Encoder) -> bool {
    for number in 0..MANY {
        let text = format!(in alloc; "{number}").expect(rt, "memory");
        if !is_interned(encoder, text.as_str(), number)
            || !is_stack_interned(encoder, number)
            || !is_registered(rt, alloc, encoder, text.as_str(), number)
        {
            return false;
        }
    }
    true
}

/// An encoder that goes on after the trace knows all of them, and writes nothing.
fn goes_on_with_all(rt: &impl Abort, alloc: Global, trace: &[u8], state: RandomState) -> bool {
    let mut encoder = read_out(rt, alloc, trace)
        .into_encoder_with_hasher(Vec::new(alloc), state)
        .expect(rt, "no refusal");
    have_ids(rt, alloc, &mut encoder) && encoder.finish().is_empty()
}

#[test]
fn many_of_each_kind(rt: HostRuntime) {
    let state = RandomState::new(&rt).expect(&rt, "no refusal");
    let mut encoder = Encoder::new_with_hasher(rt.alloc(), state).expect(&rt, "no refusal");
    assert!(rt; have_ids(&rt, rt.alloc(), &mut encoder));
    assert!(rt; goes_on_with_all(&rt, rt.alloc(), &encoder.finish(), state));
}
