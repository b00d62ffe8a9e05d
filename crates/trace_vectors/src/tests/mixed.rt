//! Kinds of readers in turn on one decoder, and iterators after their end.

use crate::tests::calls::decoder_of;
use crate::tests::sinks::{refuses, shows};
use crate::tests::traces::{CONFLICT, THREE_EVENTS};
use dial9_trace_format::codec::WireTypeId;
use dial9_trace_format::decoder::{DecodeError, DecodeErrorKind, Decoder};
use std::alloc::Global;
use std::process::Abort;

/// A reader of a decoder.
#[derive(Clone, Copy)]
pub enum Reader {
    /// `Decoder::next_frame`.
    Owned,
    /// `Decoder::next_frame_ref`.
    Borrowed,
    /// The iterator of frames.
    Frames,
    /// The iterator of events.
    Events,
    /// A sink that refuses each event, which is then the item.
    Refusing,
    /// A visitor, who is shown all that is left.
    Shown,
}

/// What a reader gives.
#[derive(Clone, Copy, PartialEq, Eq)]
pub enum Given {
    Item,
    Nothing,
    /// An error of this kind, here.
    Told(DecodeErrorKind, usize),
}

/// The error is given.
pub fn told(error: DecodeError) -> Given {
    Given::Told(error.kind, error.pos)
}

/// What a call gives that may give a frame.
fn item<T: Drop>(answer: Result<Option<T>, DecodeError>) -> Given {
    match answer {
        Ok(Some(_)) => Given::Item,
        Ok(None) => Given::Nothing,
        Err(error) => told(error),
    }
}

/// What an iterator gives.
fn step<T: Drop>(answer: Option<Result<T, DecodeError>>) -> Given {
    match answer {
        Some(Ok(_)) => Given::Item,
        Some(Err(error)) => told(error),
        None => Given::Nothing,
    }
}

/// What the reader gives next.
pub fn give(decoder: &mut Decoder<'_>, reader: Reader) -> Given {
    match reader {
        Reader::Owned => item(decoder.next_frame()),
        Reader::Borrowed => item(decoder.next_frame_ref()),
        Reader::Frames => step(decoder.next()),
        Reader::Events => step(decoder.events().next()),
        Reader::Refusing => refuses(decoder),
        Reader::Shown => shows(decoder),
    }
}

/// A reader, what it gives, and where the decoder is then.
pub type Row = (Reader, Given, usize);

/// The readers give that, one after the other.
pub fn read(decoder: &mut Decoder<'_>, rows: &[Row]) -> bool {
    for (reader, given, place) in rows {
        if give(decoder, *reader) != *given || Decoder::position(decoder) != *place {
            return false;
        }
    }
    true
}

/// A new decoder of the bytes is read so.
fn is_read(rt: &impl Abort, alloc: Global, bytes: &[u8], rows: &[Row]) -> bool {
    let mut decoder = decoder_of(rt, alloc, bytes);
    read(&mut decoder, rows)
}

/// The schema, and the events, one of which a sink refuses.
const IN_TURN: [Row; 7] = [
    (Reader::Owned, Given::Item, 18),
    (Reader::Refusing, Given::Item, 25),
    (Reader::Borrowed, Given::Item, 33),
    (Reader::Events, Given::Item, 40),
    (Reader::Frames, Given::Nothing, 40),
    (Reader::Events, Given::Nothing, 40),
    (Reader::Owned, Given::Nothing, 40),
];

/// The one event, and a byte that begins no frame.
const NO_FRAME: [u8; 27] = [
    0x54, 0x52, 0x43, 0x00, 0x01, 0x01, 0x00, 0x01, 0x02, 0x00, 0x45, 0x76, 0x01, 0x01, 0x00, 0x01,
    0x00, 0x76, 0x09, 0x02, 0x00, 0x01, 0xE8, 0x03, 0x00, 0x2A, 0xFF,
];

const NO_FRAME_HERE: Given = Given::Told(DecodeErrorKind::NoFrame(0xFF), 26);

/// No frame stands after the event. Iterators end there, again and again, and a visitor is told the fault each time.
const BEFORE_NO_FRAME: [Row; 7] = [
    (Reader::Events, Given::Item, 26),
    (Reader::Frames, Given::Nothing, 26),
    (Reader::Events, Given::Nothing, 26),
    (Reader::Shown, NO_FRAME_HERE, 26),
    (Reader::Frames, Given::Nothing, 26),
    (Reader::Events, Given::Nothing, 26),
    (Reader::Shown, NO_FRAME_HERE, 26),
];

const CONFLICT_HERE: Given = Given::Told(DecodeErrorKind::Conflict(WireTypeId(256)), 40);

/// A schema that conflicts stands after the event. An iterator of events tells it once, and a visitor is told it each
/// time.
const BEFORE_CONFLICT: [Row; 8] = [
    (Reader::Events, Given::Item, 26),
    (Reader::Events, CONFLICT_HERE, 40),
    (Reader::Frames, Given::Nothing, 40),
    (Reader::Events, Given::Nothing, 40),
    (Reader::Shown, CONFLICT_HERE, 40),
    (Reader::Frames, Given::Nothing, 40),
    (Reader::Events, Given::Nothing, 40),
    (Reader::Shown, CONFLICT_HERE, 40),
];

/// An iterator of frames tells it once, and a reader each time.
const TOLD_ONCE: [Row; 6] = [
    (Reader::Borrowed, Given::Item, 19),
    (Reader::Owned, Given::Item, 26),
    (Reader::Frames, CONFLICT_HERE, 40),
    (Reader::Frames, Given::Nothing, 40),
    (Reader::Events, Given::Nothing, 40),
    (Reader::Borrowed, CONFLICT_HERE, 40),
];

#[test]
fn readers_in_turn(rt: HostRuntime) {
    assert!(rt; is_read(&rt, rt.alloc(), &THREE_EVENTS, &IN_TURN));
    assert!(rt; is_read(&rt, rt.alloc(), &NO_FRAME, &BEFORE_NO_FRAME));
    assert!(rt; is_read(&rt, rt.alloc(), &CONFLICT, &BEFORE_CONFLICT));
    assert!(rt; is_read(&rt, rt.alloc(), &CONFLICT, &TOLD_ONCE));
}

/// After a conflict no borrowed frames are given at once.
#[test]
fn none_at_once_after_a_conflict(rt: HostRuntime) {
    let mut decoder = decoder_of(&rt, rt.alloc(), &CONFLICT);
    assert!(rt; read(&mut decoder, &BEFORE_CONFLICT));
    assert!(rt; decoder.decode_all_ref().expect(&rt, "frames").is_empty());
}
