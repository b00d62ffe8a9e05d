//! A trace that is fed in pieces.

use crate::tests::ample::fed::{Pulled, is_fed, is_pulled};
use crate::tests::ample::schemas::fields;
use crate::tests::ample::{COUNTS, text};
use crate::tests::calls::{all_of, decoder_of, fresh, next};
use crate::tests::traces::{CONFLICT, HEADER, ONE_EVENT, THREE_EVENTS, one_field};
use dial9_trace_format::codec::WireTypeId;
use dial9_trace_format::decoder::{DecodeErrorKind, DecodedFrame, Decoder, FeedDecoder};
use dial9_trace_format::encoder::Schema;
use dial9_trace_format::types::{FieldType, FieldValue};
use std::alloc::Global;
use std::process::Abort;

/// So many frames were given, and the decoder is at this place.
fn gives(
    rt: &impl Abort,
    feed: &mut FeedDecoder,
    piece: &[u8],
    count: usize,
    place: usize,
) -> bool {
    feed.feed(piece).expect(rt, "frames").len() == count && feed.position() == place
}

/// The decoder has failed by this kind, here.
fn has_failed(feed: &FeedDecoder, kind: DecodeErrorKind, place: usize) -> bool {
    match feed.fault() {
        Some(fault) => fault.kind == kind && fault.pos == place,
        None => false,
    }
}

/// The piece is refused by this kind.
fn is_refused(feed: &mut FeedDecoder, piece: &[u8], kind: DecodeErrorKind) -> bool {
    match feed.feed(piece) {
        Ok(_) => false,
        Err(fault) => fault.kind == kind,
    }
}

/// The pieces of one event, each with how many frames it gives and where the decoder is then.
const PIECES: [(&[u8], usize, usize); 6] = [
    (&[0x54, 0x52, 0x43, 0x00], 0, 0),
    (&[0x01], 0, 5),
    (
        &[
            0x01, 0x00, 0x01, 0x02, 0x00, 0x45, 0x76, 0x01, 0x01, 0x00, 0x01, 0x00, 0x76,
        ],
        0,
        5,
    ),
    (&[0x09], 1, 19),
    (&[], 0, 19),
    (&[0x02, 0x00, 0x01, 0xE8, 0x03, 0x00, 0x2A], 1, 26),
];

#[test]
fn one_event_in_pieces(rt: HostRuntime) {
    let mut feed = FeedDecoder::new(rt.alloc());
    for (piece, count, place) in PIECES {
        assert!(rt; gives(&rt, &mut feed, piece, count, place));
        assert!(rt; feed.version() == if place == 0 { None } else { Some(1) });
    }
    assert!(rt; feed.fed_len() == 26);
}

/// How many frames are given of bytes one by one.
fn count_one_by_one(rt: &impl Abort, feed: &mut FeedDecoder, bytes: &[u8]) -> usize {
    let mut count: usize = 0;
    for piece in bytes.chunks(1) {
        count = count.saturating_add(feed.feed(piece).expect(rt, "frames").len());
    }
    count
}

#[test]
fn conflict_one_by_one(rt: HostRuntime) {
    let mut feed = FeedDecoder::new(rt.alloc());
    assert!(rt; count_one_by_one(&rt, &mut feed, &CONFLICT) == 2);
    assert!(rt; has_failed(&feed, DecodeErrorKind::Conflict(WireTypeId(256)), 40));
    assert!(rt;
        is_refused(&mut feed, &[], DecodeErrorKind::Conflict(WireTypeId(256)))
            && feed.fed_len() == 40
    );
}

#[test]
fn no_header(rt: HostRuntime) {
    let mut feed = FeedDecoder::new(rt.alloc());
    assert!(rt; is_refused(&mut feed, &[0, 0, 0, 0, 1], DecodeErrorKind::NoHeader));
    assert!(rt; has_failed(&feed, DecodeErrorKind::NoHeader, 0) && feed.fed_len() == 0);
}

/// Traces of one piece and more, one of which ends at a conflict.
const TRACES: [&[u8]; 4] = [&ONE_EVENT, &THREE_EVENTS, &CONFLICT, &TWO_SCHEMAS];

/// Fed or pulled in pieces of a length, the trace gives the frames that it gives at once, to its end.
fn gives_as_many(rt: &impl Abort, alloc: Global, bytes: &[u8], length: usize) -> bool {
    let frames = all_of(rt, alloc, bytes);
    is_fed(rt, alloc, bytes, length, &frames)
        && is_pulled(rt, alloc, bytes, length, &frames, Pulled::Dropped)
        && is_pulled(rt, alloc, bytes, length, &frames, Pulled::Reused)
}

#[test]
fn in_any_pieces(rt: HostRuntime) {
    for bytes in TRACES {
        for length in 1..8 {
            assert!(rt; gives_as_many(&rt, rt.alloc(), bytes, length));
        }
    }
}

/// A trace of two events of the schema with these values.
fn two_events(rt: &impl Abort, alloc: Global, schema: &Schema, values: &[FieldValue]) -> Vec<u8> {
    let mut encoder = fresh(rt, alloc);
    for _ in 0..2 {
        encoder
            .write_event(schema, 0, values)
            .expect(rt, "no refusal");
    }
    encoder.finish()
}

/// A trace of two events of a text of this size.
fn two_texts(rt: &impl Abort, alloc: Global, size: usize) -> Vec<u8> {
    let schema = one_field(rt, alloc, "S", "s", FieldType::String);
    let value = FieldValue::String(text(rt, alloc, size));
    two_events(rt, alloc, &schema, &[value])
}

#[test]
fn in_large_pieces(rt: HostRuntime) {
    let bytes = two_texts(&rt, rt.alloc(), 300_000);
    for length in [70_000, 100_000, 299_999, 500_000usize] {
        assert!(rt; gives_as_many(&rt, rt.alloc(), bytes.as_slice(), length));
    }
}

/// So many values that are absent.
fn absent(rt: &impl Abort, alloc: Global, count: usize) -> Vec<FieldValue> {
    let mut values = Vec::new(alloc);
    for _ in 0..count {
        values.push(FieldValue::None).expect(rt, "memory");
    }
    values
}

/// A trace of two events of so many fields without values.
fn two_wide(rt: &impl Abort, alloc: Global, count: usize) -> Vec<u8> {
    let fields = fields(rt, alloc, count, FieldType::OptionalU8);
    let schema = Schema::new(alloc, "S", fields).expect(rt, "memory");
    let values = absent(rt, alloc, count);
    two_events(rt, alloc, &schema, values.as_slice())
}

#[test]
fn wide_events(rt: HostRuntime) {
    for count in COUNTS {
        let bytes = two_wide(&rt, rt.alloc(), count);
        for length in [10_000, 100_000usize] {
            assert!(rt; gives_as_many(&rt, rt.alloc(), bytes.as_slice(), length));
        }
    }
}

/// The trace of one event so many times, and then these bytes.
fn repeated(rt: &impl Abort, alloc: Global, count: usize, rest: &[u8]) -> Vec<u8> {
    let mut bytes = Vec::new(alloc);
    for _ in 0..count {
        bytes.extend_from_slice(&ONE_EVENT).expect(rt, "memory");
    }
    bytes.extend_from_slice(rest).expect(rt, "memory");
    bytes
}

/// Cut here into two pieces, the bytes give so many frames.
fn gives_cut(rt: &impl Abort, alloc: Global, bytes: &[u8], cut: usize, count: usize) -> bool {
    let Some((front, rest)) = bytes.split_at_checked(cut) else {
        return false;
    };
    let mut feed = FeedDecoder::new(alloc);
    let first = feed.feed(front).expect(rt, "frames").len();
    let second = feed.feed(rest).expect(rt, "frames").len();
    first.saturating_add(second) == count && feed.position() == bytes.len()
}

#[test]
fn two_traces_cut_anywhere(rt: HostRuntime) {
    let bytes = repeated(&rt, rt.alloc(), 2, &[]);
    for cut in 0..bytes.len() {
        assert!(rt; gives_cut(&rt, rt.alloc(), bytes.as_slice(), cut, 4));
    }
}

/// The trace of one event three times, and a header.
fn three_and_a_header(rt: &impl Abort, alloc: Global) -> Vec<u8> {
    repeated(rt, alloc, 3, &HEADER)
}

/// How many headers are whole in so many first bytes of these: each trace has 26.
fn headers_in(read: usize) -> u64 {
    let mut count: u64 = 0;
    for end in [5, 31, 57, 83] {
        if read >= end {
            count = count.saturating_add(1);
        }
    }
    count
}

/// The next frame, if any, stands after so many headers.
fn stands_after(rt: &impl Abort, decoder: &mut Decoder<'_>, frame: bool, headers: u64) -> bool {
    next(rt, decoder).is_some() == frame && decoder.headers() == headers
}

/// Each frame with how many headers stand before it.
const FRAMES: [(bool, u64); 8] = [
    (true, 1),
    (true, 1),
    (true, 2),
    (true, 2),
    (true, 3),
    (true, 3),
    (false, 4),
    (false, 4),
];

#[test]
fn headers_are_counted(rt: HostRuntime) {
    let bytes = three_and_a_header(&rt, rt.alloc());
    let mut decoder = decoder_of(&rt, rt.alloc(), bytes.as_slice());
    assert!(rt; decoder.headers() == 1);
    for (frame, headers) in FRAMES {
        assert!(rt; stands_after(&rt, &mut decoder, frame, headers));
    }
}

/// Fed in pieces of a length, the decoder tells after each the headers that are whole in what it was fed.
fn counts_headers(rt: &impl Abort, alloc: Global, bytes: &[u8], length: usize) -> bool {
    let mut feed = FeedDecoder::new(alloc);
    if feed.headers() != 0 {
        return false;
    }
    for piece in bytes.chunks(length.max(1)) {
        let _frames = feed.feed(piece).expect(rt, "frames");
        if feed.headers() != headers_in(feed.fed_len()) {
            return false;
        }
    }
    true
}

/// Pushed in pieces of a length and pulled frame by frame, the decoder tells the headers before its place.
fn pulls_headers(rt: &impl Abort, alloc: Global, bytes: &[u8], length: usize) -> bool {
    let mut feed = FeedDecoder::new(alloc);
    for piece in bytes.chunks(length.max(1)) {
        feed.push(piece).expect(rt, "bytes that are taken");
        for _ in 0..bytes.len() {
            let frame = feed.next_frame().expect(rt, "frames");
            if feed.headers() != headers_in(feed.position()) {
                return false;
            }
            if frame.is_none() {
                break;
            }
        }
    }
    feed.headers() == 4
}

#[test]
fn headers_are_counted_in_pieces(rt: HostRuntime) {
    let bytes = three_and_a_header(&rt, rt.alloc());
    for length in [1, 2, 3, 5, 26, 30, 31, 52, 83] {
        assert!(rt; counts_headers(&rt, rt.alloc(), bytes.as_slice(), length));
        assert!(rt; pulls_headers(&rt, rt.alloc(), bytes.as_slice(), length));
    }
}

/// The trace of one event, and one whose schema of the same wire id has the field `w` of type Bool, with an event of
/// it.
const TWO_SCHEMAS: [u8; 52] = [
    0x54, 0x52, 0x43, 0x00, 0x01, 0x01, 0x00, 0x01, 0x02, 0x00, 0x45, 0x76, 0x01, 0x01, 0x00, 0x01,
    0x00, 0x76, 0x09, 0x02, 0x00, 0x01, 0xE8, 0x03, 0x00, 0x2A, 0x54, 0x52, 0x43, 0x00, 0x01, 0x01,
    0x00, 0x01, 0x02, 0x00, 0x45, 0x76, 0x01, 0x01, 0x00, 0x01, 0x00, 0x77, 0x03, 0x02, 0x00, 0x01,
    0x05, 0x00, 0x00, 0x01,
];

/// The first field of the schema of wire id 256 has this name.
fn has_field(feed: &FeedDecoder, name: &str) -> bool {
    let Some(entry) = feed.registry().get(WireTypeId(256)) else {
        return false;
    };
    match entry.fields().first() {
        Some(field) => field.name() == name,
        None => false,
    }
}

/// The next frame, which ends here, is an event or not, beside a schema with a field of this name.
fn pulls_with(
    rt: &impl Abort,
    feed: &mut FeedDecoder,
    event: bool,
    field: &str,
    place: usize,
) -> bool {
    match feed.next_frame().expect(rt, "frames") {
        Some(frame) => matches!(frame, DecodedFrame::Event { .. }) == event
            && has_field(feed, field)
            && feed.position() == place,
        None => false,
    }
}

/// Whether each frame is an event, the field that stands beside it, and where it ends.
const BESIDE: [(bool, &str, usize); 4] = [
    (false, "v", 19),
    (true, "v", 26),
    (false, "w", 45),
    (true, "w", 52),
];

/// Nothing was read yet of so many bytes.
fn is_fresh(feed: &FeedDecoder, count: usize) -> bool {
    feed.version() == None && feed.position() == 0 && feed.fed_len() == count
}

#[test]
fn frames_stand_beside_their_schemas(rt: HostRuntime) {
    let mut feed = FeedDecoder::new(rt.alloc());
    feed.push(&TWO_SCHEMAS).expect(&rt, "bytes that are taken");
    assert!(rt; is_fresh(&feed, 52));
    for (event, field, place) in BESIDE {
        assert!(rt; pulls_with(&rt, &mut feed, event, field, place));
    }
    assert!(rt; feed.next_frame().expect(&rt, "frames").is_none() && feed.version() == Some(1));
}

#[test]
fn a_pulled_fault_is_told_again(rt: HostRuntime) {
    let mut feed = FeedDecoder::new(rt.alloc());
    feed.push(&[0, 0, 0, 0]).expect(&rt, "bytes that are taken");
    assert!(rt; feed.next_frame().expect(&rt, "frames").is_none());
    feed.push(&[1]).expect(&rt, "bytes that are taken");
    for _ in 0..2 {
        assert!(rt; feed.next_frame().is_err());
        assert!(rt; has_failed(&feed, DecodeErrorKind::NoHeader, 0) && feed.fed_len() == 5);
    }
    assert!(rt; feed.push(&[]).is_err());
}
