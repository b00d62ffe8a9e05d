//! Counts past their limit and values that lie too deep, of which no frame comes.

use crate::tests::sticking::{NUMBERS, event_of, shows};
use crate::tests::traces::HEADER;
use dial9_trace_format::decoder::{DecodeErrorKind, FeedDecoder};
use std::alloc::Global;
use std::process::Abort;

/// The tag of a field's type, the bytes of the field, and where in the event its last byte shows that no frame comes.
type Row = (u8, &'static [u8], usize);

/// Counts of 1,000,001 and of 4,294,967,295, in a field, in one of the optional type, in a list, as a key and a value.
const COUNTS: [Row; 21] = [
    // maps of texts
    (0x0A, &[0x41, 0x42, 0x0F, 0], 6),
    (0x0A, &[0xFF, 0xFF, 0xFF, 0xFF], 6),
    (0x8A, &[1, 0x41, 0x42, 0x0F, 0], 7),
    (0x0E, &[1, 0, 0, 0, 0x0A, 0x41, 0x42, 0x0F, 0], 11),
    (0x0E, &[1, 0, 0, 0, 0x8A, 0x41, 0x42, 0x0F, 0], 11),
    (0x0F, &[1, 0, 0, 0, 0x0A, 0x41, 0x42, 0x0F, 0], 11),
    (0x0F, &[1, 0, 0, 0, 0x0B, 5, 0x0A, 0x41, 0x42, 0x0F, 0], 13),
    // lists
    (0x0E, &[0x41, 0x42, 0x0F, 0], 6),
    (0x0E, &[0xFF, 0xFF, 0xFF, 0xFF], 6),
    (0x8E, &[1, 0x41, 0x42, 0x0F, 0], 7),
    (0x0E, &[1, 0, 0, 0, 0x0E, 0x41, 0x42, 0x0F, 0], 11),
    (0x0E, &[1, 0, 0, 0, 0x8E, 0x41, 0x42, 0x0F, 0], 11),
    (0x0F, &[1, 0, 0, 0, 0x0E, 0x41, 0x42, 0x0F, 0], 11),
    (0x0F, &[1, 0, 0, 0, 0x0B, 5, 0x0E, 0x41, 0x42, 0x0F, 0], 13),
    // maps
    (0x0F, &[0x41, 0x42, 0x0F, 0], 6),
    (0x0F, &[0xFF, 0xFF, 0xFF, 0xFF], 6),
    (0x8F, &[1, 0x41, 0x42, 0x0F, 0], 7),
    (0x0E, &[1, 0, 0, 0, 0x0F, 0x41, 0x42, 0x0F, 0], 11),
    (0x0E, &[1, 0, 0, 0, 0x8F, 0x41, 0x42, 0x0F, 0], 11),
    (0x0F, &[1, 0, 0, 0, 0x0F, 0x41, 0x42, 0x0F, 0], 11),
    (0x0F, &[1, 0, 0, 0, 0x0B, 5, 0x0F, 0x41, 0x42, 0x0F, 0], 13),
];

/// Counts of 1,000,000, and great ones that have no limit: in each event bytes are missing still.
const WAITED_FOR: [(u8, &[u8]); 8] = [
    (0x0A, &[0x40, 0x42, 0x0F, 0]),
    (0x0E, &[0x40, 0x42, 0x0F, 0]),
    (0x0F, &[0x40, 0x42, 0x0F, 0]),
    // a text, bytes, and addresses
    (0x04, &[0xFF, 0xFF, 0xFF, 0xFF]),
    (0x05, &[0xFF, 0xFF, 0xFF, 0xFF]),
    (0x08, &[0xFF, 0xFF, 0xFF, 0xFF]),
    // the length of a key, and of a value, of a map of texts
    (0x0A, &[1, 0, 0, 0, 0xFF, 0xFF, 0xFF, 0xFF]),
    (0x0A, &[1, 0, 0, 0, 0, 0, 0, 0, 0xFF, 0xFF, 0xFF, 0xFF]),
];

/// A list of one item, or a map of one pair: its tag, and what it has before the tag of a value in it and after that
/// value.
type Holder = (u8, &'static [u8], &'static [u8]);

/// The value is an item, a key, or the value after a key.
const HOLDERS: [Holder; 3] = [
    (0x0E, &[1, 0, 0, 0], &[]),
    (0x0F, &[1, 0, 0, 0], &[0x03, 1]),
    (0x0F, &[1, 0, 0, 0, 0x0B, 5], &[]),
];

/// Tags of types that hold items: a list, a map, and the optional ones.
const HELD: [u8; 4] = [0x0E, 0x0F, 0x8E, 0x8F];

/// Counts of 1, of 16,777,216 and of 4,294,967,295.
const SOME: [[u8; 4]; 3] = [[1, 0, 0, 0], [0, 0, 0, 1], [0xFF; 4]];

/// The schema `Ev`, of wire id 256, with one field `v` of the type with this tag.
fn schema_of(tag: u8) -> [u8; 14] {
    let mut schema = NUMBERS;
    schema[13] = tag;
    schema
}

/// With the last byte no frame comes of the event, by its field, which shows here.
fn shows_field(rt: &impl Abort, alloc: Global, tag: u8, event: &[u8], place: usize) -> bool {
    let schema = schema_of(tag);
    let kind = DecodeErrorKind::TruncatedValue;
    shows(rt, alloc, &schema, event, kind, place)
}

#[test]
fn counts_past_their_limit(rt: HostRuntime) {
    for (tag, field, place) in COUNTS {
        let event = event_of(&rt, rt.alloc(), field);
        assert!(rt; shows_field(&rt, rt.alloc(), tag, event.as_slice(), place));
    }
}

/// Fed byte by byte, a frame may come of the event all along; so much was read then.
fn may_come(rt: &impl Abort, alloc: Global, tag: u8, event: &[u8], place: usize) -> bool {
    let mut decoder = FeedDecoder::new(alloc);
    decoder.feed(&HEADER).expect(rt, "frames");
    decoder.feed(&schema_of(tag)).expect(rt, "frames");
    for piece in event.chunks(1) {
        decoder.feed(piece).expect(rt, "frames");
        if decoder.stuck().is_some() {
            return false;
        }
    }
    decoder.position() == place
}

#[test]
fn counts_that_may_come(rt: HostRuntime) {
    for (tag, field) in WAITED_FOR {
        let event = event_of(&rt, rt.alloc(), field);
        assert!(rt; may_come(&rt, rt.alloc(), tag, event.as_slice(), 19));
    }
}

/// The front of an event up to the tag of a value that stands in so many of these, one in the other.
fn nested(rt: &impl Abort, alloc: Global, holder: Holder, depth: usize) -> Vec<u8> {
    let (tag, before, _) = holder;
    let mut bytes = event_of(rt, alloc, before);
    for _ in 1..depth {
        bytes.push(tag).expect(rt, "memory");
        bytes.extend_from_slice(before).expect(rt, "memory");
    }
    bytes
}

/// A list or a map of this type at depth 32 holds nothing, as its count shows.
fn is_too_deep(rt: &impl Abort, alloc: Global, holder: Holder, held: u8, count: [u8; 4]) -> bool {
    let (tag, _, _) = holder;
    let mut event = nested(rt, alloc, holder, 32);
    event.push(held).expect(rt, "memory");
    let place = event.len();
    event.extend_from_slice(&count).expect(rt, "memory");
    shows_field(rt, alloc, tag, event.as_slice(), place)
}

#[test]
fn items_at_depth_33(rt: HostRuntime) {
    for holder in HOLDERS {
        for held in HELD {
            for count in SOME {
                assert!(rt; is_too_deep(&rt, rt.alloc(), holder, held, count));
            }
        }
    }
}

/// An empty list, map or map of texts at depth 32 stands, and the event is read.
fn is_deep(rt: &impl Abort, alloc: Global, holder: Holder, held: u8) -> bool {
    let (tag, _, after) = holder;
    let mut event = nested(rt, alloc, holder, 32);
    event.push(held).expect(rt, "memory");
    event.extend_from_slice(&[0; 4]).expect(rt, "memory");
    for _ in 0..32 {
        event.extend_from_slice(after).expect(rt, "memory");
    }
    let place = event.len().saturating_add(19);
    may_come(rt, alloc, tag, event.as_slice(), place)
}

#[test]
fn values_at_depth_32(rt: HostRuntime) {
    for holder in HOLDERS {
        for held in [0x0A, 0x0E, 0x0F] {
            assert!(rt; is_deep(&rt, rt.alloc(), holder, held));
        }
    }
}
