//! Dumps to a writer that fails: the status, and what the writer tells of it.

use crate::tests::told::{KINDS, breaking, check_told, kind_of, once, stepping, tells, unsettling};
use crate::tests::traces::{HEADER, ONE_EVENT};
use dial9_trace_format::leb128::TraceWrite;
use std::alloc::Global;
use std::io::ErrorKind;
use std::process::Abort;
use trace_lines::dump::{FAILED, NO_HEADER, STOPPED, WHOLE, dump};
use trace_samples::{Manner, Told};
use trace_values::leb128::Faults;

/// The lines of one event.
pub const LINES: &str =
    "trace version 1\nschema \"Ev\" \"v\":Varint\nevent 256 1000 Varint:42\nend whole\n";

/// The lines of one event, resolved.
const RESOLVED: &str =
    "trace version 1\nevent \"Ev\" timestamp_ns=1000 \"v\"=Varint:42\nend whole\n";

/// The lines of one event, as it is or resolved.
fn lines_of(resolve: bool) -> &'static str {
    if resolve { RESOLVED } else { LINES }
}

/// The dump of one event stops where the writer fails, is not tried again, and does not settle.
fn is_stopped(alloc: Global, manner: Manner, resolve: bool) -> bool {
    let mut told = Told::new(manner);
    let status = dump(alloc, &ONE_EVENT, &mut told, resolve);
    let lines = lines_of(resolve).as_bytes();
    let lines = lines.get(..manner.place).unwrap_or(&[]);
    let faults = Faults::OneFault(kind_of(manner));
    status == FAILED && tells(&told, lines, faults, lines.is_empty())
}

/// The dump over writers that fail at each place of its lines, each way, always and once, in steps of this size.
fn check_each_place(rt: &impl Abort, alloc: Global, step: usize, resolve: bool) {
    for place in 0..lines_of(resolve).len() {
        for refusal in KINDS {
            assert!(rt; is_stopped(alloc, breaking(step, place, refusal), resolve));
            assert!(rt; is_stopped(alloc, once(breaking(step, place, refusal)), resolve));
        }
    }
}

#[test]
fn dump_stops_where_the_writer_fails(rt: HostRuntime) {
    for resolve in [false, true] {
        check_each_place(&rt, rt.alloc(), 1, resolve);
        check_each_place(&rt, rt.alloc(), 7, resolve);
        check_each_place(&rt, rt.alloc(), 1_024, resolve);
    }
}

/// The one event without its last byte.
const CUT_EVENT: [u8; 25] = [
    0x54, 0x52, 0x43, 0x00, 0x01, 0x01, 0x00, 0x01, 0x02, 0x00, 0x45, 0x76, 0x01, 0x01, 0x00, 0x01,
    0x00, 0x76, 0x09, 0x02, 0x00, 0x01, 0xE8, 0x03, 0x00,
];

/// The one event, and a header without its last byte.
const CUT_HEADER: [u8; 30] = [
    0x54, 0x52, 0x43, 0x00, 0x01, 0x01, 0x00, 0x01, 0x02, 0x00, 0x45, 0x76, 0x01, 0x01, 0x00, 0x01,
    0x00, 0x76, 0x09, 0x02, 0x00, 0x01, 0xE8, 0x03, 0x00, 0x2A, 0x54, 0x52, 0x43, 0x00,
];

/// Traces, and the status and the lines of their dumps.
pub const DUMPS: [(&[u8], u8, &str); 6] = [
    (&ONE_EVENT, WHOLE, LINES),
    (&[], NO_HEADER, "no header\n"),
    (&[0x54, 0x52, 0x43, 0x00], NO_HEADER, "no header\n"),
    (
        &CUT_EVENT,
        STOPPED,
        "trace version 1\nschema \"Ev\" \"v\":Varint\nend stopped at 19\n",
    ),
    (
        &CUT_HEADER,
        STOPPED,
        "trace version 1\nschema \"Ev\" \"v\":Varint\nevent 256 1000 Varint:42\nend stopped at 26\n",
    ),
    (&HEADER, WHOLE, "trace version 1\nend whole\n"),
];

/// The dump over a writer that takes so many bytes at a time: it is settled.
fn is_settled(alloc: Global, row: (&[u8], u8, &str), step: usize) -> bool {
    let (bytes, status, lines) = row;
    let mut told = Told::new(stepping(step));
    let found = dump(alloc, bytes, &mut told, false);
    found == status && tells(&told, lines.as_bytes(), Faults::NoFault, true)
}

/// The dump over a writer that fails to settle.
fn is_unsettled(alloc: Global, row: (&[u8], u8, &str), kind: ErrorKind) -> bool {
    let (bytes, _, lines) = row;
    let mut told = Told::new(unsettling(kind));
    let found = dump(alloc, bytes, &mut told, false);
    found == FAILED && tells(&told, lines.as_bytes(), Faults::OneFault(kind), false)
}

#[test]
fn dump_settles_what_it_wrote(rt: HostRuntime) {
    for row in DUMPS {
        for step in [1, 5, 1_024usize] {
            assert!(rt; is_settled(rt.alloc(), row, step));
        }
        for kind in [ErrorKind::StorageFull, ErrorKind::Interrupted] {
            assert!(rt; is_unsettled(rt.alloc(), row, kind));
        }
    }
}

#[test]
fn a_later_byte_unsettles(rt: HostRuntime) {
    let mut told = Told::new(stepping(1));
    assert!(rt; told.settle().is_ok());
    assert!(rt; told.is_settled());
    assert!(rt; matches!(told.send(b"ab"), Ok(1)));
    assert!(rt; !told.is_settled());
    assert!(rt; told.settle().is_ok());
    check_told(&rt, &told, b"a", Faults::NoFault, true);
}
