//! Dumps of inputs whose reads fail once, and how much is asked for at once.

use crate::tests::dump_faults::LINES;
use crate::tests::told::{stepping, tells};
use crate::tests::traces::ONE_EVENT;
use std::alloc::Global;
use std::io;
use std::io::{ErrorKind, Read};
use trace_lines::dump::{FAILED, WHOLE};
use trace_lines::pieces::dump_pieces;
use trace_samples::Told;
use trace_values::leb128::Faults;

/// Gives a byte a read. The read after so many bytes answers an error, once.
#[derive(Drop)]
struct FailsOnce<'a> {
    bytes: &'a [u8],
    before: usize,
    fault: Option<ErrorKind>,
    // reads after the one that failed
    later: usize,
}

impl Read for FailsOnce<'_> {
    fn read(&mut self, buf: &mut [u8]) -> io::Result<usize> {
        if self.before == 0 {
            match self.fault.take() {
                Some(fault) => return Err(io::Error::from(fault)),
                None => self.later = self.later.saturating_add(1),
            }
        }
        self.before = self.before.saturating_sub(1);
        let count = buf.len().min(1);
        self.bytes.read(&mut buf[..count])
    }
}

/// The one event, the read after so many of whose bytes fails.
fn failing_once(before: usize, fault: ErrorKind) -> FailsOnce<'static> {
    FailsOnce {
        bytes: &ONE_EVENT,
        before,
        fault: Some(fault),
        later: 0,
    }
}

/// So much of the lines of one event is told of so many of its bytes: the first line by the header, that of the schema
/// and that of the event by their last bytes (docs/FORMAT.md, "Dumps", "An example").
pub fn lines_by(bytes: usize) -> &'static str {
    let length = match bytes {
        0..=4 => 0,
        5..=18 => 16,
        19..=25 => 39,
        _ => 64,
    };
    LINES.get(..length).unwrap_or("")
}

/// A read that failed is not tried again: the dump ends by it, after the lines of the bytes before it.
fn ends_by(alloc: Global, before: usize, fault: ErrorKind) -> bool {
    let mut input = failing_once(before, fault);
    let mut told = Told::new(stepping(1_024));
    let status = dump_pieces(alloc, &mut input, &mut told);
    let lines = lines_by(before);
    let is_told = tells(&told, lines.as_bytes(), Faults::NoFault, lines.is_empty());
    status == FAILED && is_told && input.later == 0
}

#[test]
fn a_read_that_failed_is_not_tried_again(rt: HostRuntime) {
    for fault in [
        ErrorKind::BrokenPipe,
        ErrorKind::TimedOut,
        ErrorKind::WouldBlock,
        ErrorKind::UnexpectedEof,
        ErrorKind::Other,
    ] {
        for before in 0..=ONE_EVENT.len() {
            assert!(rt; ends_by(rt.alloc(), before, fault));
        }
    }
}

/// A read that was interrupted is made again: the dump is whole.
fn goes_on(alloc: Global, before: usize) -> bool {
    let mut input = failing_once(before, ErrorKind::Interrupted);
    let mut told = Told::new(stepping(1_024));
    let status = dump_pieces(alloc, &mut input, &mut told);
    status == WHOLE && tells(&told, LINES.as_bytes(), Faults::NoFault, true)
}

#[test]
fn an_interrupted_read_is_made_again(rt: HostRuntime) {
    for before in 0..=ONE_EVENT.len() {
        assert!(rt; goes_on(rt.alloc(), before));
    }
}

/// Gives as much as is asked for, and notes how much that was at most.
#[derive(Drop)]
struct NotesMost<'a> {
    bytes: &'a [u8],
    most: usize,
}

impl Read for NotesMost<'_> {
    fn read(&mut self, buf: &mut [u8]) -> io::Result<usize> {
        self.most = self.most.max(buf.len());
        self.bytes.read(buf)
    }
}

/// At most 4,096 bytes are asked for at once, and no fewer.
#[test]
fn pieces_have_4_096_bytes_at_most(rt: HostRuntime) {
    let mut input = NotesMost {
        bytes: &ONE_EVENT,
        most: 0,
    };
    let mut told = Told::new(stepping(1_024));
    assert!(rt; dump_pieces(rt.alloc(), &mut input, &mut told) == WHOLE);
    assert!(rt; input.most == 4_096);
}
