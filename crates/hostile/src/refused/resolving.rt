//! Resolved events, each growth of which is refused.

use crate::calls::{decoder_of, show};
use crate::refused::sweep::{Making, sweep_made};
use crate::refused::verdict::{Counts, Verdict};
use dial9_trace_format::DeserError;
use dial9_trace_format::decoder::{DecodedFrame, EventSink, FeedDecoder, RawEvent};
use dial9_trace_format::resolve::ResolvedEvent;
use reader_agreement::resolved::is_answer;
use std::alloc::{AllocError, Global};

fn resolve(alloc: Global, event: &RawEvent<'_, '_>) -> Result<Option<ResolvedEvent>, DeserError> {
    match event.resolve(alloc) {
        Ok(resolved) => Ok(Some(resolved)),
        Err(error) => Err(error),
    }
}

/// An event that a sink is shown, and what it resolves to.
#[derive(Drop)]
struct Shown<'e, 'b> {
    event: &'e RawEvent<'b, 'e>,
    wanted: Result<Option<ResolvedEvent>, DeserError>,
}

impl Making for Shown<'_, '_> {
    fn is_made(&self, alloc: Global) -> Result<bool, AllocError> {
        is_answer(&resolve(alloc, self.event), &self.wanted)
    }
}

/// Resolves each event that it is shown with each growth refused.
#[derive(Drop)]
struct Resolving {
    alloc: Global,
    counts: Counts,
}

impl<'b> EventSink<'b, ()> for Resolving {
    ghost step = { λ _ _ _ _. Unit {0} };

    fn event(&mut self, event: &RawEvent<'b, '_>) -> Result<(), ()> {
        let wanted = resolve(self.alloc, event);
        sweep_made(self.alloc, &Shown { event, wanted }, &mut self.counts);
        Ok(())
    }
}

/// Resolves each event of a trace, as a sink is shown it.
pub fn sweep_shown(alloc: Global, bytes: &[u8], counts: &mut Counts) -> Result<(), AllocError> {
    let mut sink = Resolving {
        alloc,
        counts: *counts,
    };
    let mut decoder = decoder_of(alloc, bytes)?;
    let _ = show(&mut decoder, &mut sink);
    *counts = sink.counts;
    Ok(())
}

/// A frame that a fed decoder gave last, and what it resolves to.
#[derive(Drop)]
struct Fed<'d> {
    decoder: &'d FeedDecoder,
    frame: &'d DecodedFrame,
    wanted: Result<Option<ResolvedEvent>, DeserError>,
}

impl Making for Fed<'_> {
    fn is_made(&self, alloc: Global) -> Result<bool, AllocError> {
        is_answer(&self.decoder.resolve(self.frame, alloc), &self.wanted)
    }
}

/// Resolves each event of a trace, as a fed decoder gives it.
pub fn sweep_fed(alloc: Global, bytes: &[u8], counts: &mut Counts) {
    let mut decoder = FeedDecoder::new(alloc);
    if decoder.push(bytes).is_err() {
        counts.add(Verdict::Wrong);
    }
    for _ in 0..bytes.len() {
        if !sweep_next(alloc, &mut decoder, counts) {
            break;
        }
    }
}

/// Resolves the next frame, and answers whether there is one.
fn sweep_next(alloc: Global, decoder: &mut FeedDecoder, counts: &mut Counts) -> bool {
    match decoder.next_frame() {
        Ok(Some(frame)) => {
            sweep_frame(alloc, decoder, &frame, counts);
            true
        }
        _ => false,
    }
}

fn sweep_frame(alloc: Global, decoder: &FeedDecoder, frame: &DecodedFrame, counts: &mut Counts) {
    let wanted = decoder.resolve(frame, alloc);
    let trial = Fed {
        decoder,
        frame,
        wanted,
    };
    sweep_made(alloc, &trial, counts);
}
