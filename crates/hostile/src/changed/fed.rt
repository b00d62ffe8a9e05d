//! A trace that is fed in two pieces.

use crate::calls::feed;
use crate::changed::reading::{NOTHING, unless_memory};
use dial9_trace_format::decoder::{DecodeError, DecodedFrame, FeedDecoder};
use reader_agreement::ends::Ended;
use reader_agreement::readings::{Fed, Unread};
use std::alloc::{AllocError, Global};

/// What a decoder gives that is fed the bytes in two pieces, cut at this place.
pub fn fed_of(alloc: Global, bytes: &[u8], place: usize) -> Result<Fed, AllocError> {
    let mut fed = Fed {
        frames: Vec::new(alloc),
        first: None,
        between: None,
        second: None,
        ended: NOTHING,
    };
    match feed_into(
        &mut fed,
        &mut FeedDecoder::new(alloc),
        pieces_of(bytes, place),
    ) {
        Ok(()) => Ok(fed),
        Err(error) => Err(error),
    }
}

/// The bytes in two pieces, cut at this place, or at the end where they have no such place.
fn pieces_of(bytes: &[u8], place: usize) -> [&[u8]; 2] {
    let place = place.min(bytes.len());
    [&bytes[..place], &bytes[place..]]
}

fn feed_into(
    fed: &mut Fed,
    decoder: &mut FeedDecoder,
    pieces: [&[u8]; 2],
) -> Result<(), AllocError> {
    let [first, second] = pieces;
    fed.first = put(feed(decoder, first), &mut fed.frames)?;
    fed.between = fault_of(decoder);
    fed.second = put(feed(decoder, second), &mut fed.frames)?;
    fed.ended = Ended {
        error: fault_of(decoder),
        place: decoder.position(),
    };
    Ok(())
}

fn fault_of(decoder: &FeedDecoder) -> Option<DecodeError> {
    decoder.fault().copied()
}

/// Puts the frames that a piece gave after the others, and answers the error that it was answered with.
fn put(
    answer: Result<Vec<DecodedFrame>, DecodeError>,
    frames: &mut Vec<DecodedFrame>,
) -> Result<Option<DecodeError>, AllocError> {
    match answer {
        Ok(given) => {
            put_all(given, frames)?;
            Ok(None)
        }
        Err(error) => Ok(Some(unless_memory(error)?)),
    }
}

fn put_all(given: Vec<DecodedFrame>, frames: &mut Vec<DecodedFrame>) -> Result<(), AllocError> {
    for frame in given {
        frames.push(frame)?;
    }
    Ok(())
}

/// What a decoder does that is fed bytes without a header in two pieces, cut at this place.
pub fn unread_of(alloc: Global, bytes: &[u8], place: usize) -> Result<Unread, AllocError> {
    unread_by(&mut FeedDecoder::new(alloc), pieces_of(bytes, place))
}

fn unread_by(decoder: &mut FeedDecoder, pieces: [&[u8]; 2]) -> Result<Unread, AllocError> {
    let [first, second] = pieces;
    Ok(Unread {
        first: answer_of(feed(decoder, first))?,
        second: answer_of(feed(decoder, second))?,
        position: decoder.position(),
        version: decoder.version(),
    })
}

/// How many frames a piece gave, or by which error it was answered.
fn answer_of(
    answer: Result<Vec<DecodedFrame>, DecodeError>,
) -> Result<Result<usize, DecodeError>, AllocError> {
    match answer {
        Ok(frames) => Ok(Ok(frames.len())),
        Err(error) => Ok(Err(unless_memory(error)?)),
    }
}
