//! What the events of whole runs add up to, by `add_all`, worked out by hand after docs/FORMAT.md.

use crate::tests::statistics::{
    NONE, Row, TWO, TWO_EVENTS, TWO_HEADERS, are_two_schemas, is_field, is_row,
};
use dial9_trace_format::decoder::{Decoder, TryForEachError};
use std::alloc::Global;
use std::process::Abort;
use trace_stats::trace::TraceStats;

/// An event at 1,000, a reset to 2,000 and an event 7 after it. Then a schema of another field under their wire id.
const CONFLICT: [u8; 54] = [
    0x54, 0x52, 0x43, 0x00, 0x01, // header
    0x01, 0x00, 0x01, 0x01, 0x00, 0x45, 0x01, 0x01, 0x00, 0x01, 0x00, 0x76, 0x09, // schema `E`
    0x02, 0x00, 0x01, 0xE8, 0x03, 0x00, 0x2A, // 42 at 1,000
    0x05, 0xD0, 0x07, 0x00, 0x00, 0x00, 0x00, 0x00, 0x00, // reset to 2,000
    0x02, 0x00, 0x01, 0x07, 0x00, 0x00, 0x05, // 5 at 2,007
    0x01, 0x00, 0x01, 0x01, 0x00, 0x45, 0x01, 0x01, 0x00, 0x01, 0x00, 0x77, 0x09, // field `w`
];

/// The times of the events of `CONFLICT`, their bytes with those of the reset, and their numbers.
const BEFORE: [Row<'static>; 3] = [
    Row {
        count: 2,
        least: Some(1_000),
        greatest: Some(2_007),
        sum: 3_007,
        by_digits: &[(10, 1), (11, 1)],
    },
    Row {
        count: 2,
        least: Some(7),
        greatest: Some(16),
        sum: 23,
        by_digits: &[(3, 1), (5, 1)],
    },
    Row {
        count: 2,
        least: Some(5),
        greatest: Some(42),
        sum: 47,
        by_digits: &[(3, 1), (6, 1)],
    },
];

/// The bytes of `TWO_EVENTS`.
const TWO_SIZES: Row<'static> = Row {
    count: 2,
    least: Some(14),
    greatest: Some(20),
    sum: 34,
    by_digits: &[(4, 1), (5, 1)],
};

/// What the events of a trace add up to, which is whole.
pub fn counted(rt: &impl Abort, alloc: Global, trace: &[u8]) -> TraceStats {
    let mut decoder = Decoder::new(alloc, trace).expect(rt, "a header");
    let mut stats = TraceStats::new(alloc);
    assert!(rt; stats.add_all(&mut decoder).is_ok());
    assert!(rt; Decoder::position(&decoder) == trace.len());
    stats
}

#[test]
fn two_headers(rt: HostRuntime) {
    assert!(rt; are_two_schemas(&counted(&rt, rt.alloc(), &TWO_HEADERS)));
}

/// Whether the events are those of `TWO_EVENTS`.
fn are_two_events(stats: &TraceStats) -> bool {
    match stats.schemas() {
        [schema] => is_row(schema.times(), &TWO[0])
            && is_row(schema.bytes(), &TWO_SIZES)
            && is_field(schema, 0, &TWO[2], &NONE, &NONE)
            && is_field(schema, 1, &NONE, &NONE, &TWO[3]),
        _ => false,
    }
}

#[test]
fn two_events(rt: HostRuntime) {
    assert!(rt; are_two_events(&counted(&rt, rt.alloc(), &TWO_EVENTS)));
}

/// Whether the events are those of `CONFLICT`.
fn are_before(stats: &TraceStats) -> bool {
    match stats.schemas() {
        [schema] => is_row(schema.times(), &BEFORE[0])
            && is_row(schema.bytes(), &BEFORE[1])
            && is_field(schema, 0, &BEFORE[2], &NONE, &NONE),
        _ => false,
    }
}

/// The events before a conflict are counted, and nothing after it.
#[test]
fn up_to_a_conflict(rt: HostRuntime) {
    let mut decoder = Decoder::new(rt.alloc(), &CONFLICT).expect(&rt, "a header");
    let mut stats = TraceStats::new(rt.alloc());
    for _ in 0..2 {
        assert!(rt; matches!(stats.add_all(&mut decoder), Err(TryForEachError::Decode(_))));
        assert!(rt; are_before(&stats));
    }
}
