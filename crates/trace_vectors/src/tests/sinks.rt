//! What readers do that show each event to a sink.

use crate::tests::calls::decoder_of;
use crate::tests::mixed::{Given, told};
use crate::tests::traces::THREE_EVENTS;
use dial9_trace_format::decoder::{
    DecodeError, DecodeErrorKind, Decoder, EventSink, EventVisitor, RawEvent, TryForEachError,
};
use dial9_trace_format::types::FieldValueRef;
use std::alloc::Global;
use std::process::Abort;

/// Counts events, and adds their times.
#[derive(Drop)]
pub struct Seen {
    pub events: u64,
    pub times: u64,
}

impl<'a> EventVisitor<'a> for Seen {
    ghost step = { λ _ _ _. Unit {0} };

    fn event(&mut self, event: &RawEvent<'a, '_>) {
        self.events = self.events.saturating_add(1);
        self.times = self.times.saturating_add(event.timestamp_ns);
    }
}

/// The error is this one, at this place.
pub fn is_error(error: &DecodeError, kind: &DecodeErrorKind, place: usize) -> bool {
    error.kind == *kind && error.pos == place
}

/// What a visitor is shown, or told.
pub fn shows(decoder: &mut Decoder<'_>) -> Given {
    let mut visitor = Seen {
        events: 0,
        times: 0,
    };
    match decoder.for_each_event(&mut visitor) {
        Err(error) if visitor.events == 0 => told(error),
        Ok(()) if visitor.events == 0 => Given::Nothing,
        _ => Given::Item,
    }
}

/// Adds the numbers of events, and refuses the event after so many.
#[derive(Drop)]
pub struct Adding {
    pub left: u8,
    pub total: u64,
}

/// The event was not wanted.
#[derive(Debug, Drop)]
pub struct Unwanted;

impl<'a> EventSink<'a, Unwanted> for Adding {
    ghost step = { λ _ _ _ _. Unit {0} };

    fn event(&mut self, event: &RawEvent<'a, '_>) -> Result<(), Unwanted> {
        if self.left == 0 {
            return Err(Unwanted);
        }
        self.left -= 1;
        match event.fields.first() {
            Some(FieldValueRef::Varint(number)) => {
                self.total = self.total.saturating_add(*number);
            }
            _ => {}
        }
        Ok(())
    }
}

/// The sink refuses an event, which ends here.
fn is_refused(decoder: &mut Decoder<'_>, sink: &mut Adding, place: usize) -> bool {
    let refused: Result<(), TryForEachError<Unwanted>> = decoder.try_for_each_event(sink);
    let is_unwanted = matches!(refused, Err(TryForEachError::User(Unwanted)));
    is_unwanted && Decoder::position(decoder) == place
}

/// What a sink is given that refuses the next event.
pub fn refuses(decoder: &mut Decoder<'_>) -> Given {
    let mut sink = Adding { left: 0, total: 0 };
    let answer: Result<(), TryForEachError<Unwanted>> = decoder.try_for_each_event(&mut sink);
    match answer {
        Err(TryForEachError::User(Unwanted)) => Given::Item,
        Err(TryForEachError::Decode(error)) => told(error),
        Ok(()) => Given::Nothing,
    }
}

/// A sink takes the events that are left, whose numbers are so much together.
fn takes_rest(decoder: &mut Decoder<'_>, total: u64) -> bool {
    let mut rest = Adding { left: 3, total: 0 };
    let taken: Result<(), TryForEachError<Unwanted>> = decoder.try_for_each_event(&mut rest);
    taken.is_ok() && rest.total == total
}

/// How many events a sink takes before it refuses one, where that one ends, and the numbers of those after it.
const REFUSALS: [(u8, usize, u64); 3] = [(0, 25, 7), (1, 33, 0), (2, 40, 0)];

/// A sink takes so many events of three and refuses one, which ends here, and another takes those after it.
fn are_taken(rt: &impl Abort, alloc: Global, left: u8, place: usize, others: u64) -> bool {
    let mut sink = Adding { left, total: 0 };
    let mut decoder = decoder_of(rt, alloc, &THREE_EVENTS);
    let is_refused = is_refused(&mut decoder, &mut sink, place);
    is_refused && takes_rest(&mut decoder, others) && decoder.position() == 40
}

#[test]
fn refusals(rt: HostRuntime) {
    for (left, place, others) in REFUSALS {
        assert!(rt; are_taken(&rt, rt.alloc(), left, place, others));
    }
}
