//! Dumps of inputs that are read in pieces.

use crate::tests::dump_faults::{DUMPS, LINES};
use crate::tests::told::{stepping, tells};
use crate::tests::traces::{CONFLICT, ONE_EVENT};
use std::alloc::Global;
use std::io;
use std::io::{ErrorKind, Read};
use trace_lines::dump::{CONFLICT as AT_CONFLICT, FAILED, NO_HEADER, STOPPED, WHOLE};
use trace_lines::pieces::dump_pieces;
use trace_samples::Told;
use trace_values::leb128::Faults;

/// Gives so many bytes at most a read, and answers this error at each read after so many.
#[derive(Drop)]
struct Steps<'a> {
    bytes: &'a [u8],
    step: usize,
    reads: usize,
    fault: ErrorKind,
}

impl Read for Steps<'_> {
    fn read(&mut self, buf: &mut [u8]) -> io::Result<usize> {
        if self.reads == 0 {
            return Err(io::Error::from(self.fault));
        }
        self.reads = self.reads.saturating_sub(1);
        let count = self.step.min(buf.len());
        self.bytes.read(&mut buf[..count])
    }
}

/// The dump of an input that is read so has this status, and these lines. Where it is whole, it is settled.
fn writes(alloc: Global, mut input: Steps<'_>, status: u8, lines: &str) -> bool {
    let mut told = Told::new(stepping(1_024));
    let found = dump_pieces(alloc, &mut input, &mut told);
    let settled = status != FAILED || lines.is_empty();
    found == status && tells(&told, lines.as_bytes(), Faults::NoFault, settled)
}

/// These bytes, read in steps of a length, and so many reads at most.
fn read_in(bytes: &[u8], step: usize, reads: usize) -> Steps<'_> {
    Steps {
        bytes,
        step,
        reads,
        fault: ErrorKind::BrokenPipe,
    }
}

#[test]
fn a_dump_in_any_pieces(rt: HostRuntime) {
    for (bytes, status, lines) in DUMPS {
        for step in [1, 5, 4_096usize] {
            assert!(rt; writes(rt.alloc(), read_in(bytes, step, 1_000), status, lines));
        }
    }
}

/// So many lines of the dump of one event are written where its input fails after so many bytes.
fn is_front(alloc: Global, reads: usize, bytes: usize) -> bool {
    let lines = LINES.get(..bytes).unwrap_or("");
    writes(alloc, read_in(&ONE_EVENT, 1, reads), FAILED, lines)
}

/// The lines of what was read are written before more is read.
#[test]
fn what_was_read_is_written_first(rt: HostRuntime) {
    for (reads, bytes) in [
        (0, 0),
        (4, 0),
        (5, 16),
        (18, 16),
        (19, 39),
        (25, 39),
        (26, 64),
    ] {
        assert!(rt; is_front(rt.alloc(), reads, bytes));
    }
}

/// After a conflict and after no header no more is read.
#[test]
fn nothing_is_read_after_the_last_line(rt: HostRuntime) {
    let lines =
        "trace version 1\nschema \"Ev\" \"v\":Varint\nevent 256 1000 Varint:42\nend conflict at 40 id 256\n";
    assert!(rt; writes(rt.alloc(), read_in(&CONFLICT, 40, 1), AT_CONFLICT, lines));
    assert!(rt;
        writes(
            rt.alloc(),
            read_in(&[0, 0, 0, 0, 1], 5, 1),
            NO_HEADER,
            "no header\n"
        )
    );
}

/// The one event, and a byte that begins no frame, and zeros.
const STUCK: [u8; 40] = [
    0x54, 0x52, 0x43, 0x00, 0x01, 0x01, 0x00, 0x01, 0x02, 0x00, 0x45, 0x76, 0x01, 0x01, 0x00, 0x01,
    0x00, 0x76, 0x09, 0x02, 0x00, 0x01, 0xE8, 0x03, 0x00, 0x2A, 0xFF, 0x00, 0x00, 0x00, 0x00, 0x00,
    0x00, 0x00, 0x00, 0x00, 0x00, 0x00, 0x00, 0x00,
];

/// The conflict, and the header and the schema of the one event once more.
const PAST_CONFLICT: [u8; 59] = [
    0x54, 0x52, 0x43, 0x00, 0x01, 0x01, 0x00, 0x01, 0x02, 0x00, 0x45, 0x76, 0x01, 0x01, 0x00, 0x01,
    0x00, 0x76, 0x09, 0x02, 0x00, 0x01, 0xE8, 0x03, 0x00, 0x2A, 0x01, 0x00, 0x01, 0x02, 0x00, 0x45,
    0x76, 0x01, 0x01, 0x00, 0x01, 0x00, 0x77, 0x03, 0x54, 0x52, 0x43, 0x00, 0x01, 0x01, 0x00, 0x01,
    0x02, 0x00, 0x45, 0x76, 0x01, 0x01, 0x00, 0x01, 0x00, 0x76, 0x09,
];

/// An input that is read in such steps, how the dump ends, and after how many reads. Where all of it is read, one more
/// tells that it has ended.
const READS: [(&[u8], usize, u8, usize); 11] = [
    (&STUCK, 1, STOPPED, 27),
    (&STUCK, 13, STOPPED, 3),
    (&STUCK, 4_096, STOPPED, 1),
    (&PAST_CONFLICT, 1, AT_CONFLICT, 40),
    (&PAST_CONFLICT, 7, AT_CONFLICT, 6),
    (&PAST_CONFLICT, 4_096, AT_CONFLICT, 1),
    (&[0; 40], 1, NO_HEADER, 5),
    (&[0; 40], 4, NO_HEADER, 2),
    (&[0; 40], 4_096, NO_HEADER, 1),
    (&ONE_EVENT, 1, WHOLE, 27),
    (&ONE_EVENT, 4_096, WHOLE, 2),
];

/// The dump of an input that is read in such steps has this status, after so many reads.
fn reads(alloc: Global, bytes: &[u8], step: usize, status: u8, reads: usize) -> bool {
    let mut input = read_in(bytes, step, 1_000);
    let mut told = Told::new(stepping(1_024));
    let found = dump_pieces(alloc, &mut input, &mut told);
    found == status && input.reads.saturating_add(reads) == 1_000
}

#[test]
fn reads_are_counted(rt: HostRuntime) {
    for (bytes, step, status, count) in READS {
        assert!(rt; reads(rt.alloc(), bytes, step, status, count));
    }
}
