//! A trace with each kind of frame: copies of its frames.

use crate::tests::calls::all_of;
use dial9_trace_format::decoder::DecodedFrame;
use std::alloc::Global;
use std::process::Abort;

/// Header, schema `Ev`, its annotation, an event of it at 1,000 with 42, the text `hello`, the empty stack, and pools
/// of nothing.
pub const EACH_KIND: [u8; 86] = [
    0x54, 0x52, 0x43, 0x00, 0x01, 0x01, 0x00, 0x01, 0x02, 0x00, 0x45, 0x76, 0x01, 0x01, 0x00, 0x01,
    0x00, 0x76, 0x09, 0x06, 0x80, 0x02, 0x01, 0x00, 0x00, 0x00, 0x04, 0x00, 0x75, 0x6E, 0x69, 0x74,
    0x02, 0x00, 0x00, 0x00, 0x6E, 0x73, 0x02, 0x00, 0x01, 0xE8, 0x03, 0x00, 0x2A, 0x03, 0x01, 0x00,
    0x00, 0x00, 0x00, 0x00, 0x00, 0x00, 0x05, 0x00, 0x00, 0x00, 0x68, 0x65, 0x6C, 0x6C, 0x6F, 0x04,
    0x01, 0x00, 0x00, 0x00, 0x00, 0x00, 0x00, 0x00, 0x00, 0x00, 0x00, 0x00, 0x03, 0x00, 0x00, 0x00,
    0x00, 0x04, 0x00, 0x00, 0x00, 0x00,
];

/// The frame equals the one of this index, and no other.
fn is_equal_alone(frame: &DecodedFrame, index: usize, frames: &[DecodedFrame]) -> bool {
    for (i, other) in frames.iter().enumerate() {
        if (*frame == *other) != (i == index) {
            return false;
        }
    }
    true
}

/// The copy of the frame of this index equals it, and no other.
fn is_copied(rt: &impl Abort, alloc: Global, index: usize, frames: &[DecodedFrame]) -> bool {
    match frames.get(index) {
        Some(frame) => is_equal_alone(&frame.clone(alloc).expect(rt, "memory"), index, frames),
        None => false,
    }
}

#[test]
fn each_kind_copied(rt: HostRuntime) {
    let frames = all_of(&rt, rt.alloc(), &EACH_KIND[..76]);
    assert!(rt; frames.len() == 5);
    for index in 0..5usize {
        assert!(rt; is_copied(&rt, rt.alloc(), index, &frames));
    }
}
