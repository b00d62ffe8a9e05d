//! Calls of an encoder, and what they answer.

use crate::refused::known::{Known, make_known};
use dial9_trace_format::encoder::{Call, Encoder, Reply};
use dial9_trace_format::leb128::{EncodeError, TraceWrite};
use std::alloc::{AllocError, Global};
use trace_samples::events::{
    Annotated, ByName, Dynamic, FastSlot, LastSlot, Numbers, Options, Poll, Stacks, Texts, Wide,
};
use worked_traces::Step;

/// A call of an encoder.
#[derive(Drop)]
pub enum Ask {
    /// A call that a list of calls may have.
    Call(Call),
    /// `write` of an event of a type.
    Annotated(Annotated),
    ByName(ByName),
    Dynamic(Dynamic),
    FastSlot(FastSlot),
    LastSlot(LastSlot),
    Numbers(Numbers),
    Options(Options),
    Poll(Poll),
    Stacks(Stacks),
    Texts(Texts),
    Wide(Wide),
    /// An event of what is known.
    Known(Known),
    /// `flush`.
    Flush,
}

/// The calls of these steps.
pub fn asks_of(alloc: Global, steps: Vec<Step>) -> Result<Vec<Ask>, AllocError> {
    let mut asks = Vec::new(alloc);
    for step in steps {
        asks.push(ask_of(step))?;
    }
    Ok(asks)
}

/// The call of a step.
fn ask_of(step: Step) -> Ask {
    match step {
        Step::Call(call) => Ask::Call(call),
        Step::Slot(event) => Ask::FastSlot(event),
        Step::Poll(event) => Ask::Poll(event),
    }
}

/// Makes the call.
pub fn make<W: TraceWrite + Drop>(encoder: &mut Encoder<W>, ask: &Ask) -> Reply {
    match ask {
        Ask::Call(call) => make_call(encoder, call),
        Ask::Annotated(event) => done(encoder.write(event)),
        Ask::ByName(event) => done(encoder.write(event)),
        Ask::Dynamic(event) => done(encoder.write(event)),
        Ask::FastSlot(event) => done(encoder.write(event)),
        Ask::LastSlot(event) => done(encoder.write(event)),
        Ask::Numbers(event) => done(encoder.write(event)),
        Ask::Options(event) => done(encoder.write(event)),
        Ask::Poll(event) => done(encoder.write(event)),
        Ask::Stacks(event) => done(encoder.write(event)),
        Ask::Texts(event) => done(encoder.write(event)),
        Ask::Wide(event) => done(encoder.write(event)),
        Ask::Known(known) => done(make_known(encoder, known)),
        Ask::Flush => done(encoder.flush()),
    }
}

/// Makes a call that a list of calls may have.
pub fn make_call<W: TraceWrite + Drop>(encoder: &mut Encoder<W>, call: &Call) -> Reply {
    match call {
        Call::Register(schema) => match encoder.register_existing(schema) {
            Ok(id) => Reply::WireId(id),
            Err(error) => Reply::Refused(error),
        },
        Call::WriteEvent(schema, time, values) => done(encoder.write_event(schema, *time, values)),
        Call::RegisterAt(slot, schema) => match encoder.register_at(*slot, schema) {
            Ok(id) => Reply::WireId(id),
            Err(error) => Reply::Refused(error),
        },
        Call::WriteEventAt(slot, schema, time, values) => {
            done(encoder.write_event_at(*slot, schema, *time, values))
        }
        Call::InternString(text) => match encoder.intern_string(text) {
            Ok(id) => Reply::Text(id),
            Err(error) => Reply::Refused(error),
        },
        Call::StringPool(entries) => done(encoder.write_string_pool(entries)),
        Call::InternStack(addresses) => match encoder.intern_stack_frames(addresses) {
            Ok(id) => Reply::Stack(id),
            Err(error) => Reply::Refused(error),
        },
        Call::StackPool(entries) => done(encoder.write_stack_pool(entries)),
    }
}

fn done(answer: Result<(), EncodeError>) -> Reply {
    match answer {
        Ok(()) => Reply::Done,
        Err(error) => Reply::Refused(error),
    }
}
