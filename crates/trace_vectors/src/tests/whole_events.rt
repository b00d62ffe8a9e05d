//! Events that stand whole in what a decoder keeps, read from their bytes and passed.

use crate::tests::traces::{ONE_EVENT, THREE_EVENTS};
use dial9_trace_format::codec::WireTypeId;
use dial9_trace_format::decoder::{DecodedFrame, FeedDecoder};
use std::alloc::Global;
use std::process::Abort;

/// The event that stands whole at the front has the wire id 256, this time, and values of these bytes.
fn stands_whole(decoder: &mut FeedDecoder, time: u64, values: &[u8]) -> bool {
    let Some(event) = decoder.whole_event() else {
        return false;
    };
    event.type_id == WireTypeId(256)
        && event.timestamp_ns == time
        && *decoder.event_values(event) == *values
}

/// The event that stands whole at the front is passed, and ends here.
fn passes(decoder: &mut FeedDecoder, place: usize) -> bool {
    let Some(event) = decoder.whole_event() else {
        return false;
    };
    decoder.pass_event(event);
    decoder.position() == place
}

/// The next frame is the schema, which ends here.
fn pulls_schema(rt: &impl Abort, decoder: &mut FeedDecoder, place: usize) -> bool {
    let frame = decoder.next_frame().expect(rt, "frames");
    matches!(frame, Some(DecodedFrame::Schema(_))) && decoder.position() == place
}

/// No event stands whole once the piece is there.
fn adds_no_event(rt: &impl Abort, decoder: &mut FeedDecoder, piece: &[u8]) -> bool {
    decoder.push(piece).expect(rt, "bytes that are taken");
    decoder.whole_event().is_none()
}

/// The trace of one event up to its schema, in pieces, and the first bytes of its event.
const BEFORE: [&[u8]; 4] = [
    &[0x54, 0x52, 0x43, 0x00],
    &[0x01],
    &[
        0x01, 0x00, 0x01, 0x02, 0x00, 0x45, 0x76, 0x01, 0x01, 0x00, 0x01, 0x00, 0x76,
    ],
    &[0x09, 0x02, 0x00, 0x01, 0xE8, 0x03, 0x00],
];

#[test]
fn an_event_stands_whole(rt: HostRuntime) {
    let mut decoder = FeedDecoder::new(rt.alloc());
    for piece in BEFORE {
        assert!(rt; adds_no_event(&rt, &mut decoder, piece));
    }
    assert!(rt; pulls_schema(&rt, &mut decoder, 19));
    assert!(rt; adds_no_event(&rt, &mut decoder, &[]));
    decoder.push(&[0x2A]).expect(&rt, "bytes that are taken");
    for _ in 0..2 {
        assert!(rt; stands_whole(&mut decoder, 1_000, &[0x2A]) && decoder.position() == 19);
    }
    assert!(rt; passes(&mut decoder, 26));
    assert!(rt;
        decoder.whole_event().is_none() && decoder.next_frame().expect(&rt, "frames").is_none()
    );
}

#[test]
fn none_stands_before_the_header_was_read(rt: HostRuntime) {
    let mut decoder = FeedDecoder::new(rt.alloc());
    assert!(rt; adds_no_event(&rt, &mut decoder, &ONE_EVENT));
    assert!(rt; pulls_schema(&rt, &mut decoder, 19));
    assert!(rt; stands_whole(&mut decoder, 1_000, &[0x2A]));
}

/// The events of `THREE_EVENTS`: the bytes of the values of each, and where it ends.
const EVENTS: [(&[u8], usize); 3] = [(&[0], 25), (&[1, 7], 33), (&[0], 40)];

/// The event that stands whole at the front is the one of this index, and is passed.
fn passes_nth(decoder: &mut FeedDecoder, nth: usize) -> bool {
    match EVENTS.get(nth) {
        Some((values, place)) => stands_whole(decoder, 0, values) && passes(decoder, *place),
        None => false,
    }
}

/// Passes what is whole: the schema, and events from this index on. How many events were passed in all, unless
/// another one stands there.
fn pass_whole(rt: &impl Abort, decoder: &mut FeedDecoder, first: usize) -> Option<usize> {
    let mut count = first;
    for _ in 0..5 {
        if decoder.whole_event().is_some() {
            if !passes_nth(decoder, count) {
                return None;
            }
            count = count.saturating_add(1);
        } else if !pulls_schema(rt, decoder, 18) {
            break;
        }
    }
    Some(count)
}

/// In pieces of this length all events are passed.
fn are_passed(rt: &impl Abort, alloc: Global, length: usize) -> bool {
    let mut decoder = FeedDecoder::new(alloc);
    let mut count: usize = 0;
    for piece in THREE_EVENTS.chunks(length.max(1)) {
        decoder.push(piece).expect(rt, "bytes that are taken");
        let Some(passed) = pass_whole(rt, &mut decoder, count) else {
            return false;
        };
        count = passed;
    }
    count == 3 && decoder.position() == 40
}

#[test]
fn events_are_passed(rt: HostRuntime) {
    for length in 1..41 {
        assert!(rt; are_passed(&rt, rt.alloc(), length));
    }
}

#[test]
fn an_event_is_read_between_two_passed_ones(rt: HostRuntime) {
    let mut decoder = FeedDecoder::new(rt.alloc());
    decoder
        .push(&THREE_EVENTS)
        .expect(&rt, "bytes that are taken");
    assert!(rt; pulls_schema(&rt, &mut decoder, 18) && passes_nth(&mut decoder, 0));
    assert!(rt; decoder.next_frame().expect(&rt, "frames").is_some() && decoder.position() == 33);
    assert!(rt;
        passes_nth(&mut decoder, 2) && decoder.next_frame().expect(&rt, "frames").is_none()
    );
}
