//! Frames that a decoder gives which is fed in pieces, and events that it resolves.

use dial9_trace_format::decoder::{DecodedFrame, FeedDecoder};
use std::alloc::Global;
use std::process::Abort;

/// Fed in pieces of this length, a decoder gives these frames, to the end.
pub fn is_fed(
    rt: &impl Abort,
    alloc: Global,
    bytes: &[u8],
    length: usize,
    frames: &[DecodedFrame],
) -> bool {
    let mut decoder = FeedDecoder::new(alloc);
    let mut found = Vec::new(alloc);
    for piece in bytes.chunks(length.max(1)) {
        found
            .extend(decoder.feed(piece).expect(rt, "frames"))
            .expect(rt, "no refusal");
    }
    *found == *frames && decoder.position() == bytes.len()
}

/// The frame resolves where it is an event.
fn is_resolved(
    rt: &impl Abort,
    alloc: Global,
    decoder: &FeedDecoder,
    frame: &DecodedFrame,
) -> bool {
    let resolved = decoder.resolve(frame, alloc).expect(rt, "frames").is_some();
    resolved == matches!(frame, DecodedFrame::Event { .. })
}

/// What becomes of a frame that was pulled.
#[derive(Clone, Copy)]
pub enum Pulled {
    /// It is dropped.
    Dropped,
    /// The decoder takes it back.
    Reused,
}

/// Pushed in pieces of this length and pulled one by one, a decoder gives these frames, to the end, and resolves the
/// events.
pub fn is_pulled(
    rt: &impl Abort,
    alloc: Global,
    bytes: &[u8],
    length: usize,
    frames: &[DecodedFrame],
    then: Pulled,
) -> bool {
    let mut decoder = FeedDecoder::new(alloc);
    let mut wanted = frames.iter();
    for piece in bytes.chunks(length.max(1)) {
        decoder.push(piece).expect(rt, "bytes that are taken");
        for _ in 0..=bytes.len() {
            let Ok(Some(frame)) = decoder.next_frame() else {
                break;
            };
            if wanted.next() != Some(&frame) || !is_resolved(rt, alloc, &decoder, &frame) {
                return false;
            }
            if let Pulled::Reused = then {
                decoder.reuse(frame);
            }
        }
    }
    wanted.next().is_none() && decoder.position() == bytes.len()
}
