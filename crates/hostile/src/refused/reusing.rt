//! Events of numbers in the memory of one that went back. None takes any, where no reset stands before it.

use crate::refused::asks::Ask;
use crate::refused::events::wide_event;
use crate::refused::feeding::{next_fed, push};
use crate::refused::heap::{refuse, was_refused};
use crate::refused::plan::plan_of;
use crate::refused::runs::{Reference, reference_of};
use crate::refused::sweep::{LACKING, Trial, sweep};
use crate::refused::verdict::{Answer, Counts, Seen, Verdict};
use dial9_trace_format::decoder::{DecodedFrame, FeedDecoder};
use reader_agreement::steps::is_wanted;
use std::alloc::{AllocError, Global};
use worked_traces::{Worked, bytes_of};

/// A trace of a schema, and of events of it whose values are numbers or absent. It is fed whole, and each frame goes
/// back before the next is taken. Of the events after the first no growth is left.
#[derive(Drop)]
struct Reusing<'r, 'b>(&'r Reference<'b>);

/// How many frames come before that: the schema, and the first event.
const BEFORE: usize = 2;

impl Trial for Reusing<'_, '_> {
    fn seen(&self, alloc: Global, number: u32) -> Seen {
        let mut decoder = FeedDecoder::new(alloc);
        match push(&mut decoder, self.0.bytes) {
            Ok(()) => self.seen_by(alloc, number, &mut decoder),
            Err(_) => LACKING,
        }
    }
}

impl Reusing<'_, '_> {
    fn seen_by(&self, alloc: Global, number: u32, decoder: &mut FeedDecoder) -> Seen {
        let frames = self.0.owned.frames.as_slice();
        let before = takes_back(decoder, frames.get(..BEFORE));
        refuse(alloc, number);
        let after = takes_back(decoder, frames.get(BEFORE..));
        let refused = was_refused(alloc);
        Seen {
            refused,
            answer: Answer::Same,
            right: before & after,
        }
    }
}

/// Whether the decoder gives these frames. It takes back each.
fn takes_back(decoder: &mut FeedDecoder, frames: Option<&[DecodedFrame]>) -> bool {
    let Some(frames) = frames else {
        return false;
    };
    let mut right = true;
    for wanted in frames {
        right &= takes_one_back(decoder, wanted);
    }
    right
}

fn takes_one_back(decoder: &mut FeedDecoder, wanted: &DecodedFrame) -> bool {
    match next_fed(decoder) {
        Ok(Some(frame)) => {
            let same = is_wanted(Some(wanted), &frame);
            decoder.reuse(frame);
            same
        }
        _ => false,
    }
}

/// Three events of twenty numbers.
fn wide_events(alloc: Global) -> Result<Vec<Ask>, AllocError> {
    let mut asks = Vec::new(alloc);
    for time in 1_000_000..1_000_003 {
        asks.push(Ask::Wide(wide_event(time)))?;
    }
    Ok(asks)
}

/// Tries the worked trace of two events of a value that may be absent, and those of twenty numbers.
pub fn sweep_reusing(alloc: Global, counts: &mut Counts) -> Result<(), AllocError> {
    sweep_events(alloc, bytes_of(Worked::Optional), counts)?;
    let wide = plan_of(alloc, wide_events(alloc)?)?;
    sweep_events(alloc, &wide.bytes, counts)
}

fn sweep_events(alloc: Global, bytes: &[u8], counts: &mut Counts) -> Result<(), AllocError> {
    match reference_of(alloc, bytes)? {
        Some(reference) => sweep(alloc, &Reusing(&reference), counts),
        None => counts.add(Verdict::Wrong),
    }
    Ok(())
}
