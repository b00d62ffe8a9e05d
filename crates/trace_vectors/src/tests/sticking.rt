//! Traces that are fed in pieces, and of which no frame comes any more.

mod limits;

use crate::tests::traces::{HEADER, ONE_EVENT};
use dial9_trace_format::codec::WireTypeId;
use dial9_trace_format::decoder::{DecodeErrorKind, FeedDecoder};
use std::alloc::Global;
use std::process::Abort;

/// The schema `Ev`, of wire id 256, with one field `v` of type Varint.
pub const NUMBERS: [u8; 14] = [1, 0, 1, 2, 0, 0x45, 0x76, 1, 1, 0, 1, 0, 0x76, 9];

/// The same with one field of type List.
const LISTS: [u8; 14] = [1, 0, 1, 2, 0, 0x45, 0x76, 1, 1, 0, 1, 0, 0x76, 14];

/// The tag, the wire id 256 and the delta 0 of an event.
pub const AN_EVENT: [u8; 6] = [2, 0, 1, 0, 0, 0];

/// Ten bytes after which a number goes on.
const ENDLESS: [u8; 10] = [0xFF; 10];

/// Annotations whose wire id is such a number.
const ENDLESS_NOTES: [u8; 11] = [
    0x06, 0xFF, 0xFF, 0xFF, 0xFF, 0xFF, 0xFF, 0xFF, 0xFF, 0xFF, 0xFF,
];

/// Frames that stand whole, and then bytes of which no frame comes; why not, and where the last of these bytes shows
/// that, from the first of the latter on.
type Row = (&'static [u8], &'static [u8], DecodeErrorKind, usize);

const ROWS: [Row; 12] = [
    // a tag that is none
    (&[], &[0xFF], DecodeErrorKind::NoFrame(0xFF), 0),
    // the first byte of a header, and other bytes than its next ones
    (
        &[],
        &[0x54, 0x52, 0x43, 1, 1],
        DecodeErrorKind::NoFrame(0x54),
        1,
    ),
    // a wire id without a schema
    (
        &[],
        &[2, 9, 0],
        DecodeErrorKind::UnknownTypeId(WireTypeId(9)),
        1,
    ),
    // the schema's name
    (&[], &[1, 0, 1, 1, 0, 0xFF], DecodeErrorKind::NoFrame(1), 3),
    // the name of its field
    (
        &[],
        &[1, 0, 1, 1, 0, 0x45, 1, 1, 0, 1, 0, 0xFF],
        DecodeErrorKind::NoFrame(1),
        9,
    ),
    // the type of its field
    (
        &[],
        &[1, 0, 1, 1, 0, 0x45, 1, 1, 0, 1, 0, 0x76, 0x7F],
        DecodeErrorKind::NoFrame(1),
        12,
    ),
    // the key of an annotation, and its value
    (
        &[],
        &[6, 1, 1, 0, 0, 0, 1, 0, 0xFF],
        DecodeErrorKind::NoFrame(6),
        6,
    ),
    (
        &[],
        &[6, 1, 1, 0, 0, 0, 1, 0, 0x61, 1, 0, 0, 0, 0xFF],
        DecodeErrorKind::NoFrame(6),
        9,
    ),
    // the wire id 65,536 of annotations
    (&[], &[6, 0x80, 0x80, 4], DecodeErrorKind::NoFrame(6), 1),
    // 1,000,001 items
    (
        &LISTS,
        &[2, 0, 1, 0, 0, 0, 0x41, 0x42, 0x0F, 0],
        DecodeErrorKind::TruncatedValue,
        6,
    ),
    // an item of no type
    (
        &LISTS,
        &[2, 0, 1, 0, 0, 0, 1, 0, 0, 0, 0x7F],
        DecodeErrorKind::TruncatedValue,
        10,
    ),
    // an event past the greatest time: the last frame that stands whole sets the base time to it
    (
        &[
            1, 0, 1, 2, 0, 0x45, 0x76, 1, 1, 0, 1, 0, 0x76, 9, 5, 0xFF, 0xFF, 0xFF, 0xFF, 0xFF,
            0xFF, 0xFF, 0xFF,
        ],
        &[2, 0, 1, 1, 0, 0],
        DecodeErrorKind::TimestampOverflow,
        3,
    ),
];

/// Takes these bytes, and all frames that are whole.
fn push(rt: &impl Abort, decoder: &mut FeedDecoder, bytes: &[u8]) {
    decoder.push(bytes).expect(rt, "bytes that are taken");
    for _ in 0..10 {
        if decoder.next_frame().expect(rt, "frames").is_none() {
            return;
        }
    }
    panic!(rt; "frames without an end")
}

/// A decoder that took these bytes, of which frames may come.
fn waiting(rt: &impl Abort, alloc: Global, parts: &[&[u8]]) -> FeedDecoder {
    let mut decoder = FeedDecoder::new(alloc);
    for part in parts {
        push(rt, &mut decoder, part);
    }
    if decoder.stuck().is_some() {
        panic!(rt; "no frame may come");
    }
    decoder
}

/// The decoder works, and tells that no frame comes, for this reason and here.
fn sticks(decoder: &FeedDecoder, kind: DecodeErrorKind, place: usize) -> bool {
    let Some(error) = decoder.stuck() else {
        return false;
    };
    error.kind == kind && error.pos == place && decoder.fault().is_none()
}

/// After these bytes and all but one of those, frames may come; with the last one they do not, nor after more bytes.
fn shows_at_last(
    rt: &impl Abort,
    alloc: Global,
    whole: &[u8],
    cut: &[u8],
    kind: DecodeErrorKind,
    place: usize,
) -> bool {
    let (last, front) = cut.split_last().expect(rt, "bytes");
    let mut decoder = waiting(rt, alloc, &[&HEADER, whole, front]);
    for piece in [&[*last][..], &[0; 100]] {
        push(rt, &mut decoder, piece);
        if !sticks(&decoder, kind, place) {
            return false;
        }
    }
    true
}

/// The same, fed byte by byte.
fn shows_byte_by_byte(
    rt: &impl Abort,
    alloc: Global,
    whole: &[u8],
    cut: &[u8],
    kind: DecodeErrorKind,
    place: usize,
) -> bool {
    let mut decoder = FeedDecoder::new(alloc);
    decoder.feed(&HEADER).expect(rt, "frames");
    decoder.feed(whole).expect(rt, "frames");
    for piece in cut.chunks(1) {
        if decoder.stuck().is_some() {
            return false;
        }
        decoder.feed(piece).expect(rt, "frames");
    }
    sticks(&decoder, kind, place) && decoder.position() == HEADER.len().saturating_add(whole.len())
}

/// Both, where the place is told from the first of the latter bytes on.
pub fn shows(
    rt: &impl Abort,
    alloc: Global,
    whole: &[u8],
    cut: &[u8],
    kind: DecodeErrorKind,
    place: usize,
) -> bool {
    let there = HEADER
        .len()
        .saturating_add(whole.len())
        .saturating_add(place);
    shows_at_last(rt, alloc, whole, cut, kind, there)
        && shows_byte_by_byte(rt, alloc, whole, cut, kind, there)
}

#[test]
fn each_cause(rt: HostRuntime) {
    for (whole, cut, kind, place) in ROWS {
        assert!(rt; shows(&rt, rt.alloc(), whole, cut, kind, place));
    }
}

/// An event of these bytes after its delta.
fn event_of(rt: &impl Abort, alloc: Global, field: &[u8]) -> Vec<u8> {
    let mut bytes = Vec::new(alloc);
    bytes.extend_from_slice(&AN_EVENT).expect(rt, "memory");
    bytes.extend_from_slice(field).expect(rt, "memory");
    bytes
}

#[test]
fn numbers_without_an_end(rt: HostRuntime) {
    let event = event_of(&rt, rt.alloc(), &ENDLESS);
    let kind = DecodeErrorKind::TruncatedValue;
    assert!(rt; shows(&rt, rt.alloc(), &NUMBERS, event.as_slice(), kind, 6));
    let kind = DecodeErrorKind::NoFrame(6);
    assert!(rt; shows(&rt, rt.alloc(), &[], &ENDLESS_NOTES, kind, 1));
}

/// The field of an event: so many lists of one item, one in the other, up to the count of the last.
fn deep(rt: &impl Abort, alloc: Global, lists: usize) -> Vec<u8> {
    let mut bytes = Vec::new(alloc);
    for _ in 1..lists {
        bytes
            .extend_from_slice(&[1, 0, 0, 0, 14])
            .expect(rt, "memory");
    }
    bytes.extend_from_slice(&[1, 0, 0, 0]).expect(rt, "memory");
    bytes
}

#[test]
fn lists_too_deep(rt: HostRuntime) {
    let event = event_of(&rt, rt.alloc(), &deep(&rt, rt.alloc(), 33));
    let kind = DecodeErrorKind::TruncatedValue;
    assert!(rt; shows(&rt, rt.alloc(), &LISTS, event.as_slice(), kind, 166));
}

/// Frames that can come still are waited for, wherever they are cut.
#[test]
fn whole_traces_do_not_stick(rt: HostRuntime) {
    for cut in 0..ONE_EVENT.len() {
        waiting(&rt, rt.alloc(), &[&ONE_EVENT[..cut]]);
    }
}
