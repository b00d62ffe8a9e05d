//! `Plain`: what it asks of the writer in it. `crates/failing_writers` has encoders over it.

use crate::tests::traces::ONE_EVENT;
use dial9_trace_format::leb128::{EncodeError, Plain, TraceWrite};
use std::alloc::Global;
use std::io;
use std::io::{ErrorKind, Write};
use std::process::Abort;
use trace_lines::dump::{FAILED, WHOLE, dump};
use trace_values::leb128::{send_all, send_bytes};

/// Takes so many bytes a call, keeps count of its calls, and fails writes and flushes by these kinds.
#[derive(Drop)]
struct Counting {
    bytes: Vec<u8>,
    step: usize,
    writes: u64,
    flushes: u64,
    write_fault: Option<ErrorKind>,
    flush_fault: Option<ErrorKind>,
}

impl Counting {
    fn new(
        alloc: Global,
        step: usize,
        write_fault: Option<ErrorKind>,
        flush_fault: Option<ErrorKind>,
    ) -> Counting {
        Counting {
            bytes: Vec::new(alloc),
            step,
            writes: 0,
            flushes: 0,
            write_fault,
            flush_fault,
        }
    }
}

impl Write for Counting {
    fn write(&mut self, piece: &[u8]) -> io::Result<usize> {
        self.writes = self.writes.saturating_add(1);
        match self.write_fault {
            Some(kind) => Err(io::Error::from(kind)),
            _ => {
                let count = piece.len().min(self.step);
                self.bytes.extend_from_slice(&piece[..count])?;
                Ok(count)
            }
        }
    }

    fn flush(&mut self) -> io::Result<()> {
        self.flushes = self.flushes.saturating_add(1);
        match self.flush_fault {
            Some(kind) => Err(io::Error::from(kind)),
            _ => Ok(()),
        }
    }
}

/// The kind of an error.
fn kind_of<T: Drop>(answer: io::Result<T>) -> Option<ErrorKind> {
    match answer {
        Ok(_) => None,
        Err(fault) => Some(fault.kind()),
    }
}

/// No call is tried again, not after an interrupt either.
#[test]
fn a_plain_writer_answers_the_error_of_its_writer(rt: HostRuntime) {
    let kinds = [
        ErrorKind::BrokenPipe,
        ErrorKind::Interrupted,
        ErrorKind::StorageFull,
        ErrorKind::PermissionDenied,
        ErrorKind::OutOfMemory,
    ];
    for write in kinds {
        for flush in kinds {
            let mut plain = Plain(Counting::new(rt.alloc(), 1_000, Some(write), Some(flush)));
            assert!(rt; kind_of(plain.send(b"a")) == Some(write));
            assert!(rt; kind_of(plain.settle()) == Some(flush));
            check_counts(&rt, &plain.0, &[], 1, 1);
        }
    }
}

#[test]
fn the_error_of_a_plain_writer_is_the_fault(rt: HostRuntime) {
    let (write, flush) = (ErrorKind::PermissionDenied, ErrorKind::StorageFull);
    let mut plain = Plain(Counting::new(rt.alloc(), 1_000, Some(write), Some(flush)));
    assert!(rt; send_bytes(&mut plain, b"a") == Err(EncodeError::Writer(write)));
    assert!(rt; dump(rt.alloc(), &ONE_EVENT, &mut plain, false) == FAILED);
}

/// The writer took these bytes, in so many writes, and was flushed so often.
fn check_counts(rt: &impl Abort, counting: &Counting, bytes: &[u8], writes: u64, flushes: u64) {
    assert!(rt; counting.bytes.as_slice() == bytes);
    assert!(rt; (counting.writes, counting.flushes) == (writes, flushes));
}

/// One call of `send` makes one write, and `send_all` as many as its writer takes.
#[test]
fn a_long_piece_goes_out_in_the_steps_of_its_writer(rt: HostRuntime) {
    let bytes: Vec<u8> = vec![in rt.alloc(); 7; 200_000].expect(&rt, "memory");
    let mut plain = Plain(Counting::new(rt.alloc(), 1_000_000, None, None));
    assert!(rt; matches!(plain.send(&bytes), Ok(200_000)));
    check_counts(&rt, &plain.0, &bytes, 1, 0);
    let mut plain = Plain(Counting::new(rt.alloc(), 65_537, None, None));
    assert!(rt; send_all(&mut plain, &bytes).is_ok());
    check_counts(&rt, &plain.0, &bytes, 4, 0);
}

#[test]
fn settling_flushes_once(rt: HostRuntime) {
    let mut plain = Plain(Counting::new(rt.alloc(), 3, None, None));
    plain.settle().expect(&rt, "a writer that works");
    check_counts(&rt, &plain.0, &[], 0, 1);
    assert!(rt; send_all(&mut plain, b"abcd").is_ok());
    check_counts(&rt, &plain.0, b"abcd", 2, 1);
    plain.settle().expect(&rt, "a writer that works");
    check_counts(&rt, &plain.0, b"abcd", 2, 2);
}

#[test]
fn a_dump_flushes_once(rt: HostRuntime) {
    let mut plain = Plain(Counting::new(rt.alloc(), 1_000, None, None));
    assert!(rt; dump(rt.alloc(), &ONE_EVENT, &mut plain, false) == WHOLE);
    assert!(rt; plain.0.flushes == 1);
    let mut failing = Plain(Counting::new(rt.alloc(), 1_000, None, Some(ErrorKind::StorageFull)));
    assert!(rt; dump(rt.alloc(), &ONE_EVENT, &mut failing, false) == FAILED);
    assert!(rt; failing.0.flushes == 1);
}
