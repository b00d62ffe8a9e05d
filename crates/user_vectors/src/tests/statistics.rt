//! Traces written by hand after docs/FORMAT.md, and what their events add up to, worked out by hand, by a sink.
//! `gotymbe` counts the same by frames (`runs/stats_rows`).

mod ample;
mod runs;

use crate::tests::made::fields;
use dial9_trace_format::decoder::{Decoder, EventSink, RawEvent};
use std::alloc::Global;
use std::process::Abort;
use trace_stats::schema::SchemaStats;
use trace_stats::summary::Summary;
use trace_stats::trace::TraceStats;
use trace_values::types::FieldType;
use trace_wire::schema::SchemaEntry;

/// Five events of the I64 field `v`: -3, 5, 0, 4 and the least number.
const INTEGERS: [u8; 88] = [
    0x54, 0x52, 0x43, 0x00, 0x01, // header
    0x01, 0x00, 0x01, 0x01, 0x00, 0x45, 0x01, 0x01, 0x00, 0x01, 0x00, 0x76, 0x01, // schema `E`
    0x02, 0x00, 0x01, 0x00, 0x00, 0x00, 0xFD, 0xFF, 0xFF, 0xFF, 0xFF, 0xFF, 0xFF, 0xFF, // -3
    0x02, 0x00, 0x01, 0x00, 0x00, 0x00, 0x05, 0x00, 0x00, 0x00, 0x00, 0x00, 0x00, 0x00, // 5
    0x02, 0x00, 0x01, 0x00, 0x00, 0x00, 0x00, 0x00, 0x00, 0x00, 0x00, 0x00, 0x00, 0x00, // 0
    0x02, 0x00, 0x01, 0x00, 0x00, 0x00, 0x04, 0x00, 0x00, 0x00, 0x00, 0x00, 0x00, 0x00, // 4
    0x02, 0x00, 0x01, 0x00, 0x00, 0x00, 0x00, 0x00, 0x00, 0x00, 0x00, 0x00, 0x00, 0x80, // -2^63
];

/// Four events of the PooledString field `v`: the ids 7, 8, 9 and 7. The pool has `worker` and `é` under 7 and 8.
const POOLED_TEXTS: [u8; 87] = [
    0x54, 0x52, 0x43, 0x00, 0x01, // header
    0x01, 0x00, 0x01, 0x01, 0x00, 0x45, 0x01, 0x01, 0x00, 0x01, 0x00, 0x76, 0x07, // schema `E`
    0x03, 0x02, 0x00, 0x00, 0x00, // two texts
    0x07, 0x00, 0x00, 0x00, 0x06, 0x00, 0x00, 0x00, 0x77, 0x6F, 0x72, 0x6B, 0x65, 0x72, // `worker`
    0x08, 0x00, 0x00, 0x00, 0x02, 0x00, 0x00, 0x00, 0xC3, 0xA9, // `é`
    0x02, 0x00, 0x01, 0x00, 0x00, 0x00, 0x07, 0x00, 0x00, 0x00, // 7
    0x02, 0x00, 0x01, 0x00, 0x00, 0x00, 0x08, 0x00, 0x00, 0x00, // 8
    0x02, 0x00, 0x01, 0x00, 0x00, 0x00, 0x09, 0x00, 0x00, 0x00, // 9
    0x02, 0x00, 0x01, 0x00, 0x00, 0x00, 0x07, 0x00, 0x00, 0x00, // 7
];

/// Two events of a Varint field and a String field: 300 and `hi` at 1,000, the greatest number and no byte at 3,000.
const TWO_EVENTS: [u8; 56] = [
    0x54, 0x52, 0x43, 0x00, 0x01, // header
    0x01, 0x00, 0x01, 0x01, 0x00, 0x45, 0x01, 0x02, 0x00, // schema `E`
    0x01, 0x00, 0x76, 0x09, 0x01, 0x00, 0x74, 0x04, // `v` and `t`
    0x02, 0x00, 0x01, 0xE8, 0x03, 0x00, 0xAC, 0x02, 0x02, 0x00, 0x00, 0x00, 0x68, 0x69, // the first
    0x02, 0x00, 0x01, 0xD0, 0x07, 0x00, // the second
    0xFF, 0xFF, 0xFF, 0xFF, 0xFF, 0xFF, 0xFF, 0xFF, 0xFF, 0x01, 0x00, 0x00, 0x00, 0x00,
];

/// An event of a schema `E` under the id 256; and after a second header one of that schema under the id 300, and one
/// of the schema `F`, which has the same field, under the id 256.
const TWO_HEADERS: [u8; 70] = [
    0x54, 0x52, 0x43, 0x00, 0x01, // header
    0x01, 0x00, 0x01, 0x01, 0x00, 0x45, 0x01, 0x01, 0x00, 0x01, 0x00, 0x76, 0x09, // `E` under 256
    0x02, 0x00, 0x01, 0xE8, 0x03, 0x00, 0x2A, // 42 at 1,000
    0x54, 0x52, 0x43, 0x00, 0x01, // header
    0x01, 0x2C, 0x01, 0x01, 0x00, 0x45, 0x01, 0x01, 0x00, 0x01, 0x00, 0x76, 0x09, // `E` under 300
    0x01, 0x00, 0x01, 0x01, 0x00, 0x46, 0x01, 0x01, 0x00, 0x01, 0x00, 0x76, 0x09, // `F` under 256
    0x02, 0x2C, 0x01, 0xD0, 0x07, 0x00, 0x07, // 7 at 2,000
    0x02, 0x00, 0x01, 0x00, 0x00, 0x00, 0x05, // 5 at 2,000
];

/// How many bytes each event is said to take.
const BYTES: u64 = 14;

/// What events of one schema add up to.
#[derive(Drop)]
struct Counting {
    alloc: Global,
    stats: Option<SchemaStats>,
}

impl<'a> EventSink<'a, ()> for Counting {
    ghost step = { λ _ _ _ _. Unit {0} };

    fn event(&mut self, event: &RawEvent<'a, '_>) -> Result<(), ()> {
        let mut stats = match self.stats.take() {
            Some(stats) => stats,
            None => new_stats(self.alloc, event.schema)?,
        };
        let Ok(()) = stats.add(event, BYTES) else {
            return Err(());
        };
        self.stats = Some(stats);
        Ok(())
    }
}

fn new_stats(alloc: Global, schema: &SchemaEntry) -> Result<SchemaStats, ()> {
    match SchemaStats::new(alloc, schema) {
        Ok(stats) => Ok(stats),
        Err(_) => Err(()),
    }
}

/// What the events of a trace add up to, which is whole and has one schema.
fn stats_of(alloc: Global, trace: &[u8]) -> Option<SchemaStats> {
    let mut counting = Counting { alloc, stats: None };
    let mut decoder = Decoder::new(alloc, trace)?;
    match decoder.try_for_each_event(&mut counting) {
        Ok(()) => counting.stats.take(),
        Err(_) => None,
    }
}

/// A summary as it has to be.
#[derive(Drop)]
struct Row<'a> {
    count: u64,
    least: Option<u64>,
    greatest: Option<u64>,
    sum: u128,
    /// Numbers of binary digits, and how many numbers have so many.
    by_digits: &'a [(usize, u64)],
}

/// The row of no number.
const NONE: Row<'static> = Row {
    count: 0,
    least: None,
    greatest: None,
    sum: 0,
    by_digits: &[(0, 0), (64, 0)],
};

/// Whether a summary is as it has to be.
fn is_row(summary: &Summary, row: &Row<'_>) -> bool {
    for (digits, count) in row.by_digits {
        if summary.by_digits().get(*digits) != Some(count) {
            return false;
        }
    }
    summary.count() == row.count
        && summary.least() == row.least
        && summary.greatest() == row.greatest
        && summary.sum() == row.sum
}

/// Whether the field of an index has these numbers from 0 on, these below 0, and these lengths.
fn is_field(
    stats: &SchemaStats,
    index: usize,
    naturals: &Row<'_>,
    negatives: &Row<'_>,
    lengths: &Row<'_>,
) -> bool {
    let Some(field) = stats.fields().get(index) else {
        return false;
    };
    is_row(field.naturals(), naturals)
        && is_row(field.negatives(), negatives)
        && is_row(field.lengths(), lengths)
}

/// Whether the first field of a trace's schema has these.
fn is_first_field(
    alloc: Global,
    trace: &[u8],
    naturals: &Row<'_>,
    negatives: &Row<'_>,
    lengths: &Row<'_>,
) -> bool {
    match stats_of(alloc, trace) {
        Some(stats) => is_field(&stats, 0, naturals, negatives, lengths),
        None => false,
    }
}

/// The numbers of `INTEGERS` from 0 on.
const NATURALS: Row<'static> = Row {
    count: 3,
    least: Some(0),
    greatest: Some(5),
    sum: 9,
    by_digits: &[(0, 1), (1, 0), (2, 0), (3, 2), (64, 0)],
};

/// Those below 0, without their signs.
const NEGATIVES: Row<'static> = Row {
    count: 2,
    least: Some(3),
    greatest: Some(9_223_372_036_854_775_808),
    sum: 9_223_372_036_854_775_811,
    by_digits: &[(0, 0), (2, 1), (3, 0), (63, 0), (64, 1)],
};

#[test]
fn integers_of_both_signs(rt: HostRuntime) {
    assert!(rt; is_first_field(rt.alloc(), &INTEGERS, &NATURALS, &NEGATIVES, &NONE));
}

/// The lengths of the texts of `POOLED_TEXTS`.
const POOLED: Row<'static> = Row {
    count: 3,
    least: Some(2),
    greatest: Some(6),
    sum: 14,
    by_digits: &[(1, 0), (2, 1), (3, 2), (4, 0)],
};

#[test]
fn texts_by_pool_id(rt: HostRuntime) {
    assert!(rt; is_first_field(rt.alloc(), &POOLED_TEXTS, &NONE, &NONE, &POOLED));
}

/// The times of `TWO_EVENTS`, their bytes, their numbers, and the lengths of their texts.
const TWO: [Row<'static>; 4] = [
    Row {
        count: 2,
        least: Some(1_000),
        greatest: Some(3_000),
        sum: 4_000,
        by_digits: &[(9, 0), (10, 1), (11, 0), (12, 1)],
    },
    Row {
        count: 2,
        least: Some(BYTES),
        greatest: Some(BYTES),
        sum: 28,
        by_digits: &[(3, 0), (4, 2), (5, 0)],
    },
    Row {
        count: 2,
        least: Some(300),
        greatest: Some(18_446_744_073_709_551_615),
        sum: 18_446_744_073_709_551_915,
        by_digits: &[(8, 0), (9, 1), (10, 0), (63, 0), (64, 1)],
    },
    Row {
        count: 2,
        least: Some(0),
        greatest: Some(2),
        sum: 2,
        by_digits: &[(0, 1), (1, 0), (2, 1), (3, 0)],
    },
];

#[test]
fn two_events(rt: HostRuntime) {
    let stats = stats_of(rt.alloc(), &TWO_EVENTS).expect(&rt, "what is counted");
    assert!(rt; stats.fields().len() == 2);
    assert!(rt; is_row(stats.times(), &TWO[0]) && is_row(stats.bytes(), &TWO[1]));
    assert!(rt; is_field(&stats, 0, &TWO[2], &NONE, &NONE));
    assert!(rt; is_field(&stats, 1, &NONE, &NONE, &TWO[3]));
}

/// Of a schema `E` of so many Varint fields nothing is counted yet.
fn is_wide(rt: &impl Abort, alloc: Global, count: usize) -> bool {
    let fields = fields(rt, alloc, "v", FieldType::Varint, count);
    let schema = SchemaEntry::new(alloc, "E", fields.as_slice()).expect(rt, "memory");
    let stats = SchemaStats::new(alloc, &schema).expect(rt, "memory");
    stats.schema().name() == "E"
        && stats.schema().fields().len() == count
        && stats.fields().len() == count
        && is_row(stats.times(), &NONE)
}

/// With ample memory nothing is refused.
#[test]
fn wide_schemas(rt: HostRuntime) {
    for count in [0, 1, 256, 4_097] {
        assert!(rt; is_wide(&rt, rt.alloc(), count));
    }
}

/// What events of all schemas add up to.
#[derive(Drop)]
struct CountingAll {
    stats: TraceStats,
}

impl<'a> EventSink<'a, ()> for CountingAll {
    ghost step = { λ _ _ _ _. Unit {0} };

    fn event(&mut self, event: &RawEvent<'a, '_>) -> Result<(), ()> {
        match self.stats.add(event, BYTES) {
            Ok(()) => Ok(()),
            Err(_) => Err(()),
        }
    }
}

/// The times of the schema `E` of `TWO_HEADERS`, its numbers, and those of `F`.
const HEADERS: [Row<'static>; 3] = [
    Row {
        count: 2,
        least: Some(1_000),
        greatest: Some(2_000),
        sum: 3_000,
        by_digits: &[(10, 1), (11, 1)],
    },
    Row {
        count: 2,
        least: Some(7),
        greatest: Some(42),
        sum: 49,
        by_digits: &[(3, 1), (6, 1)],
    },
    Row {
        count: 1,
        least: Some(5),
        greatest: Some(5),
        sum: 5,
        by_digits: &[(3, 1)],
    },
];

/// Whether there are two schemas of one field: `E` with 42 and 7, and `F` with 5.
fn are_two_schemas(stats: &TraceStats) -> bool {
    match stats.schemas() {
        [first, second] => first.schema().name() == "E"
            && second.schema().name() == "F"
            && is_row(first.times(), &HEADERS[0])
            && is_field(first, 0, &HEADERS[1], &NONE, &NONE)
            && is_field(second, 0, &HEADERS[2], &NONE, &NONE),
        _ => false,
    }
}

/// What the events of a trace add up to.
fn shown(rt: &impl Abort, alloc: Global, trace: &[u8]) -> TraceStats {
    let mut decoder = Decoder::new(alloc, trace).expect(rt, "a header");
    let mut counting = CountingAll {
        stats: TraceStats::new(alloc),
    };
    assert!(rt; decoder.try_for_each_event(&mut counting).is_ok());
    counting.stats
}

#[test]
fn schemas_across_headers(rt: HostRuntime) {
    assert!(rt; are_two_schemas(&shown(&rt, rt.alloc(), &TWO_HEADERS)));
}
