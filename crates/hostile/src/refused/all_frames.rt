//! Lists of all frames of a trace. They ask for room for more frames than one, and go on with room for one where that
//! is refused.

use crate::calls::{all_borrowed, all_owned, decoder_of, next_owned};
use crate::refused::heap::{refuse, was_refused};
use crate::refused::plan::new_encoder;
use crate::refused::runs::{Reference, reference_of};
use crate::refused::sweep::{LACKING, Trial, sweep};
use crate::refused::verdict::{Answer, Counts, Seen, Verdict};
use dial9_trace_format::decoder::{DecodeError, Decoder};
use dial9_trace_format::encoder::Encoder;
use dial9_trace_format::leb128::EncodeError;
use reader_agreement::readings::{are_same_frames, are_same_refs};
use std::alloc::{AllocError, Global};
use trace_samples::events::FastSlot;

/// So many events that room for those to come is asked for by the bytes that are left.
const EVENTS: u64 = 300;

/// A schema, and events without fields, which take no memory of their own.
fn events(alloc: Global) -> Result<Vec<u8>, AllocError> {
    let mut encoder = new_encoder(alloc)?;
    match write_events(&mut encoder) {
        Ok(()) => Ok(encoder.finish()),
        Err(_) => Err(AllocError),
    }
}

fn write_events(encoder: &mut Encoder) -> Result<(), EncodeError> {
    for time in 0..EVENTS {
        encoder.write(&FastSlot { time })?;
    }
    Ok(())
}

/// By which call the events are given.
#[derive(Clone, Copy)]
enum List {
    /// `decode_all`.
    Owned,
    /// `decode_all_ref`.
    Borrowed,
}

/// All events of a trace, after its schema. So no growth is left but those of the list, and each that is refused has to
/// make no difference.
#[derive(Drop)]
struct AllEvents<'r, 'b> {
    reference: &'r Reference<'b>,
    list: List,
}

impl Trial for AllEvents<'_, '_> {
    fn seen(&self, alloc: Global, number: u32) -> Seen {
        match after_schema(alloc, self.reference.bytes) {
            Ok(mut decoder) => self.seen_by(alloc, number, &mut decoder),
            Err(_) => LACKING,
        }
    }
}

/// A decoder that has read the schema of the trace.
fn after_schema(alloc: Global, bytes: &[u8]) -> Result<Decoder<'_>, AllocError> {
    let mut decoder = decoder_of(alloc, bytes)?;
    match next_owned(&mut decoder) {
        Ok(Some(_)) => Ok(decoder),
        _ => Err(AllocError),
    }
}

impl<'b> AllEvents<'_, 'b> {
    fn seen_by(&self, alloc: Global, number: u32, decoder: &mut Decoder<'b>) -> Seen {
        refuse(alloc, number);
        let given = self.gives(decoder);
        let refused = was_refused(alloc);
        Seen {
            refused,
            answer: answer_of(given),
            right: true,
        }
    }

    /// Whether the frames are those that come after the schema.
    fn gives(&self, decoder: &mut Decoder<'b>) -> Result<bool, DecodeError> {
        match self.list {
            List::Owned => self.gives_owned(decoder),
            List::Borrowed => self.gives_borrowed(decoder),
        }
    }

    fn gives_owned(&self, decoder: &mut Decoder<'b>) -> Result<bool, DecodeError> {
        let frames = all_owned(decoder)?;
        match self.reference.owned.frames.split_first() {
            Some((_, wanted)) => Ok(are_same_frames(&frames, wanted)),
            None => Ok(false),
        }
    }

    fn gives_borrowed(&self, decoder: &mut Decoder<'b>) -> Result<bool, DecodeError> {
        let frames = all_borrowed(decoder)?;
        match self.reference.borrowed.frames.split_first() {
            Some((_, wanted)) => Ok(are_same_refs(&frames, wanted)),
            None => Ok(false),
        }
    }
}

fn answer_of(given: Result<bool, DecodeError>) -> Answer {
    match given {
        Ok(true) => Answer::Same,
        Ok(false) => Answer::Other,
        Err(_) => Answer::Memory,
    }
}

/// Gives all events of a trace by each of both calls.
pub fn sweep_all_frames(alloc: Global, counts: &mut Counts) -> Result<(), AllocError> {
    let bytes = events(alloc)?;
    match reference_of(alloc, &bytes)? {
        Some(reference) => sweep_lists(alloc, &reference, counts),
        None => counts.add(Verdict::Wrong),
    }
    Ok(())
}

fn sweep_lists(alloc: Global, reference: &Reference<'_>, counts: &mut Counts) {
    for list in [List::Owned, List::Borrowed] {
        sweep(alloc, &AllEvents { reference, list }, counts);
    }
}
