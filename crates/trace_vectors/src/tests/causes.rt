//! Why no frame stands where one is cut. `tools/tool_runs --ample` has events of values of each size.

use crate::tests::sinks::is_error;
use crate::tests::traces::ONE_EVENT;
use dial9_trace_format::decoder::{DecodeErrorKind, FeedDecoder};
use std::alloc::Global;
use std::process::Abort;

/// A decoder that was fed these bytes tells that no frame stands at the front of what is left, for this reason and
/// here, and that one may come.
fn tells(
    rt: &impl Abort,
    alloc: Global,
    bytes: &[u8],
    kind: DecodeErrorKind,
    place: usize,
) -> bool {
    let mut decoder = FeedDecoder::new(alloc);
    decoder.feed(bytes).expect(rt, "frames");
    let is_told = match decoder.cause().expect(rt, "frames") {
        Some(error) => is_error(&error, &kind, place),
        None => false,
    };
    is_told && decoder.stuck().is_none()
}

/// It tells none.
fn tells_none(rt: &impl Abort, alloc: Global, bytes: &[u8]) -> bool {
    let mut decoder = FeedDecoder::new(alloc);
    decoder.feed(bytes).expect(rt, "frames");
    decoder.cause().expect(rt, "frames").is_none()
}

/// Bytes after a header, the schema `Ev` with the field `v: Varint` and an event of it at 1,000, in 26 bytes; why no
/// frame stands there, and where.
type Row = (&'static [u8], DecodeErrorKind, usize);

const ROWS: [Row; 15] = [
    // the wire id is cut
    (&[2], DecodeErrorKind::TruncatedEvent, 26),
    (&[2, 0], DecodeErrorKind::TruncatedEvent, 26),
    // the delta
    (&[2, 0, 1], DecodeErrorKind::TruncatedDelta, 29),
    (&[2, 0, 1, 0, 0], DecodeErrorKind::TruncatedDelta, 29),
    // the number
    (&[2, 0, 1, 0, 0, 0], DecodeErrorKind::TruncatedValue, 32),
    (
        &[2, 0, 1, 0, 0, 0, 0x80],
        DecodeErrorKind::TruncatedValue,
        32,
    ),
    // a reset
    (&[5], DecodeErrorKind::TruncatedReset, 26),
    (
        &[5, 0, 0, 0, 0, 0, 0, 0],
        DecodeErrorKind::TruncatedReset,
        26,
    ),
    // a header, a schema, pools of one entry, and annotations
    (&[0x54, 0x52], DecodeErrorKind::NoFrame(0x54), 26),
    (&[1, 1, 1, 1], DecodeErrorKind::NoFrame(1), 26),
    (&[3, 1, 0, 0, 0], DecodeErrorKind::NoFrame(3), 26),
    (
        &[3, 1, 0, 0, 0, 0, 0, 0, 0, 1, 0, 0, 0],
        DecodeErrorKind::NoFrame(3),
        26,
    ),
    (&[4, 1, 0, 0, 0], DecodeErrorKind::NoFrame(4), 26),
    (
        &[4, 1, 0, 0, 0, 0, 0, 0, 0, 1, 0, 0, 0],
        DecodeErrorKind::NoFrame(4),
        26,
    ),
    (&[6, 0x80, 2, 1, 0], DecodeErrorKind::NoFrame(6), 26),
];

/// The cause of that event, whole, and then these bytes.
fn tells_row(
    rt: &impl Abort,
    alloc: Global,
    cut: &[u8],
    kind: DecodeErrorKind,
    place: usize,
) -> bool {
    let mut bytes = Vec::from_slice(alloc, &ONE_EVENT).expect(rt, "memory");
    bytes.extend_from_slice(cut).expect(rt, "memory");
    tells(rt, alloc, bytes.as_slice(), kind, place)
}

#[test]
fn cut_frames(rt: HostRuntime) {
    for (cut, kind, place) in ROWS {
        assert!(rt; tells_row(&rt, rt.alloc(), cut, kind, place));
    }
    assert!(rt; tells_none(&rt, rt.alloc(), &ONE_EVENT));
    assert!(rt; tells_none(&rt, rt.alloc(), &[]));
}
