//! What the readers of frames give of a trace, to their end.

use crate::calls::{next_borrowed, next_owned, place_of};
use dial9_trace_format::decoder::{DecodeError, DecodeErrorKind, DecodedFrameRef, Decoder};
use reader_agreement::any_event::is_any_event_ref;
use reader_agreement::ends::Ended;
use reader_agreement::frames::{Borrowed, Owned};
use std::alloc::{AllocError, Global};

/// How many of the frames are events.
pub fn events_of(frames: &[DecodedFrameRef<'_>]) -> usize {
    let mut count: usize = 0;
    for frame in frames {
        if is_any_event_ref(frame) {
            count = count.saturating_add(1);
        }
    }
    count
}

/// Nothing was read.
pub const NOTHING: Ended = Ended {
    error: None,
    place: 0,
};

/// What `next_frame` gives, until it gives nothing. `AllocError` where a growth was refused.
pub fn read_owned(alloc: Global, mut decoder: Decoder<'_>) -> Result<Owned, AllocError> {
    let mut owned = Owned {
        frames: Vec::new(alloc),
        places: Vec::new(alloc),
        ended: NOTHING,
    };
    match read_into(&mut owned, &mut decoder) {
        Ok(()) => Ok(owned),
        Err(error) => Err(error),
    }
}

fn read_into(owned: &mut Owned, decoder: &mut Decoder<'_>) -> Result<(), AllocError> {
    for _ in 0..(*decoder).data_len() {
        match next_owned(decoder) {
            Ok(Some(frame)) => owned.frames.push(frame)?,
            Ok(None) => break,
            Err(error) => {
                owned.ended.error = Some(unless_memory(error)?);
                break;
            }
        }
        owned.places.push(place_of(decoder))?;
    }
    owned.ended.place = place_of(decoder);
    Ok(())
}

/// What `next_frame_ref` gives, until it gives nothing. `AllocError` where a growth was refused.
pub fn read_borrowed<'a>(
    alloc: Global,
    mut decoder: Decoder<'a>,
) -> Result<Borrowed<'a>, AllocError> {
    let mut borrowed = Borrowed {
        frames: Vec::new(alloc),
        places: Vec::new(alloc),
        ended: NOTHING,
    };
    match read_refs_into(&mut borrowed, &mut decoder) {
        Ok(()) => Ok(borrowed),
        Err(error) => Err(error),
    }
}

fn read_refs_into<'a>(
    borrowed: &mut Borrowed<'a>,
    decoder: &mut Decoder<'a>,
) -> Result<(), AllocError> {
    for _ in 0..(*decoder).data_len() {
        match next_borrowed(decoder) {
            Ok(Some(frame)) => borrowed.frames.push(frame)?,
            Ok(None) => break,
            Err(error) => {
                borrowed.ended.error = Some(unless_memory(error)?);
                break;
            }
        }
        borrowed.places.push(place_of(decoder))?;
    }
    borrowed.ended.place = place_of(decoder);
    Ok(())
}

/// The error, unless a growth was refused.
pub fn unless_memory(error: DecodeError) -> Result<DecodeError, AllocError> {
    if error.kind == DecodeErrorKind::OutOfMemory {
        return Err(AllocError);
    }
    Ok(error)
}
