//! Why a decoder gives no more frames of what it was fed, each growth of which is refused.

use crate::calls::{decoder_of, feed, place_of, show};
use crate::refused::plan::HEADER;
use crate::refused::sweep::{Making, sweep_made};
use crate::refused::verdict::{Counts, Verdict};
use dial9_trace_format::decoder::{
    DecodeError, Decoder, EventSink, FeedDecoder, RawEvent, TryForEachError,
};
use reader_agreement::ends::is_same_end;
use std::alloc::{AllocError, Global};

/// `FeedDecoder::cause`, and what a sink's reader of the same bytes tells where they end.
#[derive(Drop)]
struct Caused<'d> {
    decoder: &'d FeedDecoder,
    told: Option<DecodeError>,
}

impl Making for Caused<'_> {
    fn is_made(&self, _alloc: Global) -> Result<bool, AllocError> {
        Ok(is_same_end(&self.decoder.cause()?, &self.told))
    }
}

/// Takes each event.
#[derive(Drop)]
struct Taking;

impl<'b> EventSink<'b, ()> for Taking {
    ghost step = { λ _ _ _ _. Unit {0} };

    fn event(&mut self, _event: &RawEvent<'b, '_>) -> Result<(), ()> {
        Ok(())
    }
}

/// A trace that is cut at every place has fewer bytes than this.
pub const LONG: usize = 400;

/// Asks for the cause at every cut of a trace, and at the last one alone where it is long.
pub fn sweep_causes(alloc: Global, bytes: &[u8], counts: &mut Counts) -> Result<(), AllocError> {
    let first = if bytes.len() < LONG {
        HEADER
    } else {
        bytes.len() - 1
    };
    for place in first..bytes.len() {
        sweep_cause(alloc, &bytes[..place], counts)?;
    }
    Ok(())
}

fn sweep_cause(alloc: Global, front: &[u8], counts: &mut Counts) -> Result<(), AllocError> {
    let mut reader = decoder_of(alloc, front)?;
    let told = told_by(&mut reader);
    let mut decoder = FeedDecoder::new(alloc);
    if feed(&mut decoder, front).is_err() {
        counts.add(Verdict::Wrong);
    }
    sweep_beside(alloc, &decoder, place_of(&reader), told, counts);
    Ok(())
}

/// Asks a decoder for the cause, unless it has failed, or stands after a text that the other one does not read.
fn sweep_beside(
    alloc: Global,
    decoder: &FeedDecoder,
    place: usize,
    told: Option<DecodeError>,
    counts: &mut Counts,
) {
    if decoder.fault().is_none() && decoder.position() == place {
        sweep_made(alloc, &Caused { decoder, told }, counts);
    }
}

/// What the decoder tells in the end.
fn told_by(decoder: &mut Decoder<'_>) -> Option<DecodeError> {
    match show(decoder, &mut Taking) {
        Err(TryForEachError::Decode(error)) => Some(error),
        _ => None,
    }
}
