//! Two traces in one piece, whose events are resolved as they are pulled.

use dial9_trace_format::decoder::{DecodedFrame, FeedDecoder};
use dial9_trace_format::resolve::{DeserError, ResolvedEvent, ResolvedValue};
use dial9_trace_format::types::InternedStackFrames;
use std::alloc::Global;
use std::process::Abort;
use trace_lines::resolved::push_resolved_frame;

/// Header; the schema `Ev` of wire id 256 with the fields `s: PooledString` and `k: PooledStackFrames`; the text `one`
/// and the stack of the address 4,096, each under the id 0; an event at 1,000 with both.
///
/// Header; the schema `Wo` of wire id 256 with the fields `t: PooledString` and `n: Varint`; the text `two` under the
/// id 0; events at 2,000 with it and 5, and with the id 7 and 6.
const JOINED: [u8; 135] = [
    0x54, 0x52, 0x43, 0x00, 0x01, 0x01, 0x00, 0x01, 0x02, 0x00, 0x45, 0x76, 0x01, 0x02, 0x00, 0x01,
    0x00, 0x73, 0x07, 0x01, 0x00, 0x6B, 0x06, 0x03, 0x01, 0x00, 0x00, 0x00, 0x00, 0x00, 0x00, 0x00,
    0x03, 0x00, 0x00, 0x00, 0x6F, 0x6E, 0x65, 0x04, 0x01, 0x00, 0x00, 0x00, 0x00, 0x00, 0x00, 0x00,
    0x01, 0x00, 0x00, 0x00, 0x00, 0x10, 0x00, 0x00, 0x00, 0x00, 0x00, 0x00, 0x02, 0x00, 0x01, 0xE8,
    0x03, 0x00, 0x00, 0x00, 0x00, 0x00, 0x00, 0x00, 0x00, 0x00, 0x54, 0x52, 0x43, 0x00, 0x01, 0x01,
    0x00, 0x01, 0x02, 0x00, 0x57, 0x6F, 0x01, 0x02, 0x00, 0x01, 0x00, 0x74, 0x07, 0x01, 0x00, 0x6E,
    0x09, 0x03, 0x01, 0x00, 0x00, 0x00, 0x00, 0x00, 0x00, 0x00, 0x03, 0x00, 0x00, 0x00, 0x74, 0x77,
    0x6F, 0x02, 0x00, 0x01, 0xD0, 0x07, 0x00, 0x00, 0x00, 0x00, 0x00, 0x05, 0x02, 0x00, 0x01, 0x00,
    0x00, 0x00, 0x07, 0x00, 0x00, 0x00, 0x06,
];

/// The lines of the events, each resolved before the next frame is pulled (docs/FORMAT.md, "Dumps").
const LINES: &str =
    "event \"Ev\" timestamp_ns=1000 \"s\"=String:\"one\" \"k\"=StackFrames:[0x1000]\n\
                     event \"Wo\" timestamp_ns=2000 \"t\"=String:\"two\" \"n\"=Varint:5\n\
                     event \"Wo\" unresolved pool#7\n";

/// Appends the lines of the events that are whole, each resolved before the next frame is pulled.
fn push_events(rt: &impl Abort, alloc: Global, lines: &mut String, decoder: &mut FeedDecoder) {
    for _ in 0..10 {
        let Some(frame) = decoder.next_frame().expect(rt, "frames") else {
            break;
        };
        push_resolved_frame(alloc, lines, decoder, &frame).expect(rt, "no refusal");
    }
}

/// In pieces of this length the events are told by their own schemas, texts and stacks.
fn are_told(rt: &impl Abort, alloc: Global, length: usize) -> bool {
    let mut decoder = FeedDecoder::new(alloc);
    let mut lines = String::new(alloc);
    for piece in JOINED.chunks(length.max(1)) {
        decoder.push(piece).expect(rt, "bytes that are taken");
        push_events(rt, alloc, &mut lines, &mut decoder);
    }
    lines.as_str() == LINES && decoder.headers() == 2
}

#[test]
fn events_of_joined_traces(rt: HostRuntime) {
    for length in [135, 1, 2, 3, 5, 7, 73, 74, 75usize] {
        assert!(rt; are_told(&rt, rt.alloc(), length));
    }
}

/// The next frame, which is one.
fn pulled(rt: &impl Abort, decoder: &mut FeedDecoder) -> DecodedFrame {
    decoder
        .next_frame()
        .expect(rt, "frames")
        .expect(rt, "a frame")
}

/// The event's first field has this name, and holds this text.
fn begins_with(event: &ResolvedEvent, name: &str, text: &str) -> bool {
    match event.entries() {
        [_, _, (first, ResolvedValue::String(held)), ..] => {
            first.as_str() == name && held.as_str() == text
        }
        _ => false,
    }
}

/// The frame resolves to an event that begins so.
fn resolves_to(
    rt: &impl Abort,
    alloc: Global,
    decoder: &FeedDecoder,
    frame: &DecodedFrame,
    name: &str,
    text: &str,
) -> bool {
    match decoder.resolve(frame, alloc).expect(rt, "frames") {
        Some(event) => begins_with(&event, name, text),
        None => false,
    }
}

/// The next frames, so many, are no events.
fn pulls_others(rt: &impl Abort, alloc: Global, decoder: &mut FeedDecoder, count: usize) -> bool {
    for _ in 0..count {
        let frame = pulled(rt, decoder);
        if decoder
            .resolve(&frame, alloc)
            .expect(rt, "frames")
            .is_some()
        {
            return false;
        }
    }
    true
}

/// After so many other frames comes an event, which resolves to one that begins so.
fn pulls_event(
    rt: &impl Abort,
    alloc: Global,
    decoder: &mut FeedDecoder,
    others: usize,
    name: &str,
    text: &str,
) -> DecodedFrame {
    let is_after = pulls_others(rt, alloc, decoder, others);
    let event = pulled(rt, decoder);
    if is_after && resolves_to(rt, alloc, decoder, &event, name, text) {
        return event;
    }
    panic!(rt; "another event")
}

/// An event is resolved by what the decoder knows now: the first one, after the second header, by no stack.
fn tells_by_now(rt: &impl Abort, alloc: Global) -> bool {
    let mut decoder = FeedDecoder::new(alloc);
    decoder.push(&JOINED).expect(rt, "bytes that are taken");
    let first = pulls_event(rt, alloc, &mut decoder, 3, "s", "one");
    pulls_event(rt, alloc, &mut decoder, 2, "t", "two");
    let none = DeserError::UnknownStack(InternedStackFrames::from_raw(0));
    decoder.resolve(&first, alloc).err() == Some(none)
}

#[test]
fn events_are_resolved_by_what_is_known(rt: HostRuntime) {
    assert!(rt; tells_by_now(&rt, rt.alloc()));
}
