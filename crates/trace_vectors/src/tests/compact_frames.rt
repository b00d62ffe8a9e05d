//! Frames of which a string pool takes little memory.

use crate::tests::traces::ONE_EVENT;
use dial9_trace_format::decoder::{CompactEntry, CompactFrame, DecodedFrame, FeedDecoder};
use std::process::Abort;

/// A header, and the texts of three ids: no byte, one that is no text, and 24.
const TEXTS: [u8; 59] = [
    0x54, 0x52, 0x43, 0x00, 0x01, 0x03, 0x03, 0x00, 0x00, 0x00, 0x07, 0x00, 0x00, 0x00, 0x00, 0x00,
    0x00, 0x00, 0x08, 0x00, 0x00, 0x00, 0x01, 0x00, 0x00, 0x00, 0xFF, 0xFF, 0xFF, 0xFF, 0xFF, 0x18,
    0x00, 0x00, 0x00, 0x61, 0x62, 0x63, 0x64, 0x65, 0x66, 0x67, 0x68, 0x69, 0x6A, 0x6B, 0x6C, 0x6D,
    0x6E, 0x6F, 0x70, 0x71, 0x72, 0x73, 0x74, 0x75, 0x76, 0x77, 0x78,
];

/// The entry has this id and these bytes.
fn is_entry(entry: &CompactEntry, id: u32, bytes: &[u8]) -> bool {
    entry.pool_id() == id && *entry.bytes() == *bytes
}

/// The entries are those of `TEXTS`.
fn are_texts(entries: &[CompactEntry]) -> bool {
    match entries {
        [none, one, many] => {
            is_entry(none, 7, b"")
                && is_entry(one, 8, &[0xFF])
                && is_entry(many, u32::MAX, b"abcdefghijklmnopqrstuvwx")
        }
        _ => false,
    }
}

/// The next frame is the string pool of `TEXTS`.
fn gives_texts(rt: &impl Abort, decoder: &mut FeedDecoder) -> bool {
    match decoder.next_compact().expect(rt, "no refusal") {
        Some(CompactFrame::StringPool(entries)) => are_texts(&entries),
        _ => false,
    }
}

#[test]
fn texts_come_once_they_are_whole(rt: HostRuntime) {
    let mut decoder = FeedDecoder::new(rt.alloc());
    for byte in TEXTS {
        assert!(rt; decoder.next_compact().expect(&rt, "no refusal").is_none());
        decoder.push(&[byte]).expect(&rt, "bytes that are taken");
    }
    assert!(rt; gives_texts(&rt, &mut decoder));
    assert!(rt;
        decoder.position() == TEXTS.len()
            && decoder.next_compact().expect(&rt, "no refusal").is_none()
    );
}

#[test]
fn other_frames_come_as_they_are(rt: HostRuntime) {
    let mut decoder = FeedDecoder::new(rt.alloc());
    decoder.push(&ONE_EVENT).expect(&rt, "bytes that are taken");
    let frame = decoder.next_compact().expect(&rt, "no refusal");
    assert!(rt; matches!(frame, Some(CompactFrame::Other(DecodedFrame::Schema(_)))));
}
