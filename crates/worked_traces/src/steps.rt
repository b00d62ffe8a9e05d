//! The calls by which encoders write a worked trace.

use dial9_trace_format::TraceEvent;
use dial9_trace_format::encoder::{Call, Encoder, Schema};
use dial9_trace_format::leb128::{EncodeError, TraceWrite};
use dial9_trace_format::types::FieldValue;
use std::alloc::{AllocError, Global};
use trace_samples::events::{FastSlot, Poll};

/// A call of an encoder.
#[derive(Drop)]
pub enum Step {
    /// A call that a list of calls may have.
    Call(Call),
    /// `write` of an event of a type with a slot.
    Slot(FastSlot),
    /// `write` of an event of a type by name.
    Poll(Poll),
}

/// Makes the call. Errors are those of the encoder.
pub fn make<W: TraceWrite + Drop>(
    encoder: &mut Encoder<W>,
    step: &Step,
) -> Result<(), EncodeError> {
    match step {
        Step::Call(call) => make_call(encoder, call),
        Step::Slot(event) => encoder.write(event),
        Step::Poll(event) => encoder.write(event),
    }
}

fn make_call<W: TraceWrite + Drop>(
    encoder: &mut Encoder<W>,
    call: &Call,
) -> Result<(), EncodeError> {
    match call {
        Call::Register(schema) => {
            encoder.register_existing(schema)?;
            Ok(())
        }
        Call::WriteEvent(schema, time, values) => encoder.write_event(schema, *time, values),
        Call::RegisterAt(slot, schema) => {
            encoder.register_at(*slot, schema)?;
            Ok(())
        }
        Call::WriteEventAt(slot, schema, time, values) => {
            encoder.write_event_at(*slot, schema, *time, values)
        }
        Call::InternString(text) => {
            encoder.intern_string(text)?;
            Ok(())
        }
        Call::StringPool(entries) => encoder.write_string_pool(entries),
        Call::InternStack(addresses) => {
            encoder.intern_stack_frames(addresses)?;
            Ok(())
        }
        Call::StackPool(entries) => encoder.write_stack_pool(entries),
    }
}

/// What encoders write by these steps, one encoder after the other. Errors are those of the encoders.
pub fn write_parts(alloc: Global, parts: &[Vec<Step>]) -> Result<Vec<u8>, EncodeError> {
    let mut bytes = Vec::new(alloc);
    for steps in parts {
        let mut encoder = Encoder::new_to(alloc, bytes)?;
        for step in steps {
            make(&mut encoder, step)?;
        }
        bytes = encoder.finish();
    }
    Ok(bytes)
}

/// The calls of a list that write what these steps write: events of types by their schemas and their values.
pub fn calls_of(alloc: Global, steps: Vec<Step>) -> Result<Vec<Call>, AllocError> {
    let mut calls = Vec::new(alloc);
    for step in steps {
        calls.push(call_of(alloc, step)?)?;
    }
    Ok(calls)
}

fn call_of(alloc: Global, step: Step) -> Result<Call, AllocError> {
    match step {
        Step::Call(call) => Ok(call),
        Step::Slot(event) => slot_call(alloc, event.time),
        Step::Poll(event) => poll_call(alloc, &event),
    }
}

fn slot_call(alloc: Global, time: u64) -> Result<Call, AllocError> {
    let schema = Schema::from_entry(alloc, FastSlot::schema_entry(alloc)?)?;
    Ok(Call::WriteEventAt(FastSlot::type_slot(), schema, time, Vec::new(alloc)))
}

fn poll_call(alloc: Global, poll: &Poll) -> Result<Call, AllocError> {
    let schema = Schema::from_entry(alloc, Poll::schema_entry(alloc)?)?;
    let core = match poll.cpu {
        Some(core) => FieldValue::Varint(core as u64),
        None => FieldValue::None,
    };
    let worker = FieldValue::Varint(poll.worker);
    let values = [worker, core, FieldValue::PooledString(poll.label)];
    Ok(Call::WriteEvent(schema, poll.time, Vec::from_array(alloc, values)?))
}
