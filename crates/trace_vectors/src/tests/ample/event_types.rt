//! Many events of one type. `tools/ample` has such a trace replayed.

use crate::tests::calls::decoder_of;
use crate::tests::mixed::{Given, Reader, give};
use dial9_trace_format::decoder::FeedDecoder;
use std::alloc::Global;
use std::process::Abort;

/// A header, and the schema `E` without fields under wire id 5, whose events have times.
const BEFORE_EVENTS: [u8; 14] = [
    0x54, 0x52, 0x43, 0x00, 0x01, 0x01, 0x05, 0x00, 0x01, 0x00, b'E', 0x01, 0x00, 0x00,
];

/// A trace of so many events of it, at 0.
fn events(rt: &impl Abort, alloc: Global, count: usize) -> Vec<u8> {
    let mut bytes = Vec::from_slice(alloc, &BEFORE_EVENTS).expect(rt, "memory");
    for _ in 0..count {
        bytes
            .extend_from_slice(&[2, 5, 0, 0, 0, 0])
            .expect(rt, "memory");
    }
    bytes
}

/// How many borrowed frames are read at once.
fn borrowed(rt: &impl Abort, alloc: Global, bytes: &[u8]) -> usize {
    let mut decoder = decoder_of(rt, alloc, bytes);
    decoder.decode_all_ref().expect(rt, "frames").len()
}

/// The iterator of events gives so many, and then none.
fn gives_so_many(rt: &impl Abort, alloc: Global, bytes: &[u8], count: usize) -> bool {
    let mut decoder = decoder_of(rt, alloc, bytes);
    for _ in 0..count {
        if give(&mut decoder, Reader::Events) != Given::Item {
            return false;
        }
    }
    give(&mut decoder, Reader::Events) == Given::Nothing
}

/// How many frames are pulled of the bytes.
fn pulled(rt: &impl Abort, alloc: Global, bytes: &[u8]) -> usize {
    let mut decoder = FeedDecoder::new(alloc);
    decoder.push(bytes).expect(rt, "bytes that are taken");
    let mut count: usize = 0;
    for _ in 0..bytes.len() {
        if decoder.next_frame().expect(rt, "frames").is_none() {
            break;
        }
        count = count.saturating_add(1);
    }
    count
}

#[test]
fn a_hundred_thousand_frames(rt: HostRuntime) {
    let bytes = events(&rt, rt.alloc(), 99_999);
    assert!(rt; borrowed(&rt, rt.alloc(), &bytes) == 100_000);
    assert!(rt; gives_so_many(&rt, rt.alloc(), &bytes, 99_999));
    assert!(rt; pulled(&rt, rt.alloc(), &bytes) == 100_000);
}
