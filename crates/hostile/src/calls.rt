//! Calls of decoders that promise little, so that proofs of what makes many of them stay small.

ghost use Rattle.std.specs.Prelude.{◌≡◌, None};
ghost use Rattle.trace_values.specs.Values.{owned_reader};
ghost use Rattle.dial9_trace_format.specs.DecodedFrames.{all_as, item_of};
ghost use Rattle.dial9_trace_format.specs.Decoding.{AllItems};
ghost use Rattle.dial9_trace_format.specs.Iterating.{GivesNext};

use dial9_trace_format::decoder::{
    DecodeError, DecodedFrame, DecodedFrameRef, Decoder, EventHead, EventSink, EventVisitor,
    FeedDecoder, TryForEachError,
};
use dial9_trace_format::types::{FieldValue, FieldValueRef};
use std::alloc::{AllocError, Global};

/// `Decoder::new`, of bytes that begin with a header.
pub fn decoder_of(alloc: Global, bytes: &[u8]) -> Result<Decoder<'_>, AllocError> {
    Decoder::new(alloc, bytes).ok_or(AllocError)
}

/// `Decoder::position`.
pub fn place_of(decoder: &Decoder<'_>) -> usize
    ensures { result ≡ decoder.now.position }
{
    decoder.position()
}

/// `Decoder::next_frame`.
pub fn next_owned(decoder: &mut Decoder<'_>) -> Result<Option<DecodedFrame>, DecodeError> {
    decoder.next_frame()
}

/// `Decoder::next_frame_ref`.
pub fn next_borrowed<'a>(
    decoder: &mut Decoder<'a>,
) -> Result<Option<DecodedFrameRef<'a>>, DecodeError> {
    decoder.next_frame_ref()
}

/// `Decoder::next_event_into`.
pub fn next_into(
    decoder: &mut Decoder<'_>,
    values: &mut Vec<FieldValue>,
) -> Result<Option<EventHead>, DecodeError> {
    decoder.next_event_into(values)
}

/// `Decoder::next_event_ref_into`.
pub fn next_ref_into<'a>(
    decoder: &mut Decoder<'a>,
    values: &mut Vec<FieldValueRef<'a>>,
) -> Result<Option<EventHead>, DecodeError> {
    decoder.next_event_ref_into(values)
}

/// `Decoder::decode_all`.
pub fn all_owned(decoder: &mut Decoder<'_>) -> Result<Vec<DecodedFrame>, DecodeError>
    ensures { decoder.old.failure ≡ None →
        AllItems owned_reader decoder.old decoder.new (all_as item_of result) }
{
    decoder.decode_all()
}

/// `Decoder::decode_all_ref`.
pub fn all_borrowed<'a>(
    decoder: &mut Decoder<'a>,
) -> Result<Vec<DecodedFrameRef<'a>>, DecodeError> {
    decoder.decode_all_ref()
}

/// `Decoder::next`.
pub fn step<'a>(decoder: &mut Decoder<'a>) -> Option<Result<DecodedFrameRef<'a>, DecodeError>>
    ensures { GivesNext decoder.old result decoder.new }
{
    decoder.next()
}

/// `Decoder::events` and their `next`.
pub fn step_events<'a>(
    decoder: &mut Decoder<'a>,
) -> Option<Result<DecodedFrameRef<'a>, DecodeError>> {
    decoder.events().next()
}

/// `Decoder::try_for_each_event`.
pub fn show<'a, E, S: EventSink<'a, E>>(
    decoder: &mut Decoder<'a>,
    sink: &mut S,
) -> Result<(), TryForEachError<E>> {
    decoder.try_for_each_event(sink)
}

/// `Decoder::for_each_event`.
pub fn visit<'a, V: EventVisitor<'a>>(
    decoder: &mut Decoder<'a>,
    visitor: &mut V,
) -> Result<(), DecodeError> {
    decoder.for_each_event(visitor)
}

/// `FeedDecoder::feed`.
pub fn feed(decoder: &mut FeedDecoder, piece: &[u8]) -> Result<Vec<DecodedFrame>, DecodeError> {
    decoder.feed(piece)
}
