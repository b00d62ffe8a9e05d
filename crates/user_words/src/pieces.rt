//! A trace that comes in two pieces, and frames that are pulled.

ghost use Rattle.std.specs.Prelude.{[], Ok, IfOk, IfErr, IfNone, option_map};
ghost use Rattle.dial9_trace_format.specs.Words.{Feeds, item_of};
ghost use Rattle.user_words.specs.Halves.{GivesAsWhole, RefusesHalves, PushesAndPulls, RefusesNext};

use dial9_trace_format::decoder::{DecodeError, DecodedFrame, FeedDecoder};
use dial9_trace_format::laws;
use std::alloc::Global;

/// The frames of a trace that is fed in two pieces: those that are whole with the first, and then the others.
/// Together they are what `Decoder::decode_all` gives of the trace in one. Refuses what `FeedDecoder::feed` does:
/// `NoHeader` where the first five bytes are no header, `Conflict` where the first piece ended at one, and
/// `OutOfMemory`; `InputTooLong` where both pieces together are past `usize::MAX` bytes.
pub fn in_halves(
    alloc: Global,
    first: &[u8],
    second: &[u8],
) -> Result<(Vec<DecodedFrame>, Vec<DecodedFrame>), DecodeError>
    ensures frames { IfOk result (GivesAsWhole first.now second.now) }
    ensures refused { IfErr result (RefusesHalves first.now second.now) }
{
    laws::any_pieces();
    let mut decoder = FeedDecoder::new(alloc);
    let front = decoder.feed(first)?;
    let others = decoder.feed(second)?;
    Ok((front, others))
}

/// Keeps a piece, and gives the next frame. Where none is whole, the piece might as well have been fed. Refuses what
/// `FeedDecoder::push` and `FeedDecoder::next_frame` do.
pub fn next_with(
    decoder: &mut FeedDecoder,
    piece: &[u8],
) -> Result<Option<DecodedFrame>, DecodeError>
    ensures next { IfOk result (λ frame. PushesAndPulls decoder.old.state piece.now
        decoder.new.state (Ok (option_map item_of frame))) }
    ensures fed { IfOk result (λ frame. IfNone frame
        (Feeds decoder.old.state piece.now decoder.new.state (Ok []))) }
    ensures refused { IfErr result
        (RefusesNext decoder.old.state piece.now decoder.new.state) }
{
    laws::pulling_feeds();
    decoder.push(piece)?;
    decoder.next_frame()
}
