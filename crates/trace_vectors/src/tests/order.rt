//! What a dump of an input in pieces sends before it reads more.

use crate::tests::dump_faults::LINES;
use crate::tests::faulty_inputs::lines_by;
use crate::tests::traces::ONE_EVENT;
use std::alloc::Global;
use std::cell::Cell;
use std::io;
use std::io::{Read, Write};
use trace_lines::dump::WHOLE;
use trace_lines::pieces::dump_pieces;
use trace_values::leb128::Plain;

/// Takes all, and tells others how many bytes it took.
#[derive(Drop)]
struct Counts<'s> {
    sent: &'s Cell<usize>,
}

impl Write for Counts<'_> {
    fn write(&mut self, buf: &[u8]) -> io::Result<usize> {
        self.sent.set(self.sent.get().saturating_add(buf.len()));
        Ok(buf.len())
    }

    fn flush(&mut self) -> io::Result<()> {
        Ok(())
    }
}

/// Gives the one event in steps, and notes whether before each read as much was sent as the bytes before it have lines.
#[derive(Drop)]
struct Watches<'s> {
    step: usize,
    given: usize,
    sent: &'s Cell<usize>,
    are_sent: bool,
}

impl Read for Watches<'_> {
    fn read(&mut self, buf: &mut [u8]) -> io::Result<usize> {
        self.are_sent = self.are_sent && self.sent.get() == lines_by(self.given).len();
        let mut left = ONE_EVENT.get(self.given..).unwrap_or(&[]);
        let step = self.step.min(buf.len());
        self.given = self.given.saturating_add(step.min(left.len()));
        left.read(&mut buf[..step])
    }
}

/// The lines of each step are sent before the next is read.
fn are_sent_first(alloc: Global, step: usize) -> bool {
    let sent = Cell::new(0);
    let mut input = Watches {
        step,
        given: 0,
        sent: &sent,
        are_sent: true,
    };
    let status = dump_pieces(alloc, &mut input, &mut Plain(Counts { sent: &sent }));
    status == WHOLE && input.are_sent && sent.get() == LINES.len()
}

#[test]
fn lines_are_sent_before_more_is_read(rt: HostRuntime) {
    for step in 1..=27 {
        assert!(rt; are_sent_first(rt.alloc(), step));
    }
}
