//! Recorded traces that are fed in pieces.

ghost use Rattle.std.specs.Prelude.{◌≡◌, ◌<◌, ◌↔◌, IfOk, IfSome, IfNone, IsTrue, OnOk, length};
ghost use Rattle.std.specs.List.{AllByRecursion};
ghost use Rattle.std.specs.FinMap as map;
ghost use Rattle.std.specs.Option.{option_and_then};
ghost use Rattle.trace_recordings.specs.Pieces.{AnswersNext, AreGivenAlike, AreGivenApart, FeedsOne, GivesInPieces};
ghost use Rattle.trace_recordings.specs.Pieces.{GivesWhole, IsGivenSame, conflict_by, conflict_in, piece_sizes};
ghost use Rattle.trace_recordings.specs.Tallies.{counted_up};

use dial9_trace_format::decoder::{
    DecodeError, DecodeErrorKind, DecodedFrame, Decoder, FeedDecoder,
};
use dial9_trace_format::schema::SchemaRegistry;
use std::alloc::{AllocError, Global};

// How many bytes a piece has.
const SIZES: [usize; 5] = [1, 2, 3, 5, 4096];

// What decoders gave of a trace, and where they stood then.
#[derive(Drop)]
struct Given {
    frames: Vec<DecodedFrame>,
    position: usize,
    // how many wire ids have a schema
    schemas: u64,
    // the wire id of the schema by which the decoder failed
    conflict: Option<u16>,
}

/// The least size of pieces of 1, 2, 3, 5 and 4,096 bytes by which a decoder gives other frames of a trace than of the
/// whole, or ends otherwise. `AllocError` where a growth was refused, the decoders' included.
pub fn first_apart(alloc: Global, trace: &[u8]) -> Result<Option<usize>, AllocError>
    ensures alike { IfOk result
        (λ found. IfNone found (AllByRecursion (AreGivenAlike trace.now) piece_sizes)) }
    ensures apart { IfOk result (λ found. IfSome found (AreGivenApart trace.now)) }
{
    let whole = given_whole(alloc, trace)?;
    for size in SIZES {
        let pieces = given_in_pieces(alloc, trace, size)?;
        if !is_same(&whole, &pieces) {
            return Ok(Some(size));
        }
    }
    Ok(None)
}

// Whether the frames are equal, and the ends.
fn is_same(whole: &Given, pieces: &Given) -> bool
    ensures { IsTrue result ↔ IsGivenSame whole.now pieces.now }
{
    whole.position == pieces.position
        && whole.schemas == pieces.schemas
        && whole.conflict == pieces.conflict
        && whole.frames == pieces.frames
}

// What a decoder of the whole trace gives, and nothing where there is none.
fn given_whole(alloc: Global, trace: &[u8]) -> Result<Given, AllocError>
    ensures { IfOk result (GivesWhole trace.now) }
{
    let Some(mut decoder) = Decoder::new(alloc, trace) else {
        return Ok(Given {
            frames: Vec::new(alloc),
            position: 0,
            schemas: 0,
            conflict: None,
        });
    };
    let Ok(frames) = decoder.decode_all() else {
        return Err(AllocError);
    };
    Ok(Given {
        frames,
        position: decoder.position(),
        schemas: schema_count(decoder.registry()),
        conflict: next_conflict(&mut decoder),
    })
}

// The wire id of the schema by which a decoder has failed, as its next call tells it.
fn next_conflict(decoder: &mut Decoder<'_>) -> Option<u16>
    ensures { AnswersNext decoder.old result }
{
    let answer = decoder.next_frame();
    conflict_in(&answer)
}

// The wire id of the schema by which a decoder has failed that answered so.
fn conflict_in(answer: &Result<Option<DecodedFrame>, DecodeError>) -> Option<u16>
    ensures { result ≡ conflict_in answer.now }
{
    match answer {
        Ok(_) => None,
        Err(error) => conflict_by(error.kind),
    }
}

// The wire id of a schema that conflicts.
fn conflict_by(kind: DecodeErrorKind) -> Option<u16>
    ensures { result ≡ conflict_by kind }
{
    match kind {
        DecodeErrorKind::Conflict(id) => Some(id.0),
        _ => None,
    }
}

// The wire id of the schema by which a decoder has failed.
fn conflict_of(fault: Option<&DecodeError>) -> Option<u16>
    ensures { result ≡ option_and_then (λ e. conflict_by e.now.kind) fault.entry }
{
    match fault {
        Some(error) => conflict_by(error.kind),
        None => None,
    }
}

// How many wire ids have a schema.
#[tactic(auto, using(crate::proofs::FedInPieces::counts_on))]
fn schema_count(registry: &SchemaRegistry) -> u64
    ensures { result ≡ counted_up 0 (length (map.entries registry.now.wire_types)) }
{
    let mut count = 0u64;
    for _ in registry.entries() {
        count = count.saturating_add(1);
    }
    count
}

// What a decoder gives in all that is fed the trace in pieces of this size.
fn given_in_pieces(alloc: Global, trace: &[u8], size: usize) -> Result<Given, AllocError>
    requires { 0 < size }
    ensures { IfOk result (GivesInPieces trace.now size) }
{
    let mut decoder = FeedDecoder::new(alloc);
    let mut frames = Vec::new(alloc);
    for piece in trace.chunks(size) {
        feed_one(&mut decoder, piece, &mut frames)?;
    }
    Ok(Given {
        frames,
        position: decoder.position(),
        schemas: schema_count(decoder.registry()),
        conflict: conflict_of(decoder.fault()),
    })
}

// Feeds a piece, and appends the frames that are given. Of a piece that is refused none are.
fn feed_one(
    decoder: &mut FeedDecoder,
    piece: &[u8],
    frames: &mut Vec<DecodedFrame>,
) -> Result<(), AllocError>
    ensures { OnOk result
        (FeedsOne decoder.old.state piece.now decoder.new.state frames.old.items frames.new.items) }
{
    match decoder.feed(piece) {
        Ok(mut given) => frames.append(&mut given),
        Err(error) => match error.kind {
            DecodeErrorKind::OutOfMemory => Err(AllocError),
            _ => Ok(()),
        },
    }
}
