//! Dumps of a trace, each growth of which is refused.

ghost use Rattle.std.specs.Prelude.{◌≡◌};
ghost use Rattle.std.specs.List.{list_all};
ghost use Rattle.hostile.specs.Answers.{dumped_as, is_out};

use crate::refused::causes::LONG;
use crate::refused::heap::{refuse, was_refused};
use crate::refused::plan::HEADER;
use crate::refused::sweep::{MOST, Trial};
use crate::refused::verdict::{Answer, Seen};
use dial9_trace_format::leb128::{Plain, TraceWrite};
use std::alloc::{AllocError, Global};
use std::io;
use std::io::Write;
use trace_lines::dump::{DumpForm, FAILED, Reader, dump_as};
use trace_lines::pieces::dump_pieces;

/// How a trace is dumped.
#[derive(Clone, Copy)]
pub enum Dump {
    /// `dump_as`.
    Whole(DumpForm),
    /// `dump_pieces`.
    Pieces,
}

/// Each of them.
pub const DUMPS: &[Dump] = &[
    Dump::Whole(DumpForm::Frames(Reader::Owned)),
    Dump::Whole(DumpForm::Frames(Reader::Borrowed)),
    Dump::Whole(DumpForm::Events),
    Dump::Pieces,
];

/// A writer that compares what it is given with what is to come, and takes no memory.
#[derive(Drop)]
struct Comparing<'w> {
    /// What is to come.
    rest: &'w [u8],
    /// Whether all that came was that.
    right: bool,
}

impl Write for Comparing<'_> {
    fn write(&mut self, piece: &[u8]) -> io::Result<usize> {
        match self.rest.strip_prefix(piece) {
            Some(rest) => self.rest = rest,
            None => self.right = false,
        }
        Ok(piece.len())
    }

    fn flush(&mut self) -> io::Result<()> {
        Ok(())
    }
}

/// A dump of bytes, whose lines and status are known.
#[derive(Drop)]
pub struct Dumping<'b> {
    bytes: &'b [u8],
    dump: Dump,
    lines: Vec<u8>,
    status: u8,
    fronts: Vec<Front>,
}

/// A front of a trace that ends where a frame ends.
#[derive(Clone, Copy)]
struct Front {
    /// How many bytes the lines have that a dump of it has before its last line, and the dump of the trace too.
    lines: usize,
    /// More growths than a dump of it makes. So a dump of the trace has made these lines before its growth of this
    /// number.
    growth: u32,
}

/// The dump of the bytes where no growth is refused.
pub fn dump_of(alloc: Global, bytes: &[u8], dump: Dump) -> Result<Dumping<'_>, AllocError> {
    let mut lines = Vec::new(alloc);
    let status = dumped(alloc, bytes, dump, &mut lines);
    if status == FAILED {
        return Err(AllocError);
    }
    let fronts = fronts_of(alloc, bytes, dump, &lines)?;
    Ok(Dumping {
        bytes,
        dump,
        lines,
        status,
        fronts,
    })
}

/// The last line of a front that ends where a frame ends.
const END: &[u8] = b"end whole\n";

/// The fronts of the bytes, whose dump has these lines; none where they are long.
fn fronts_of(
    alloc: Global,
    bytes: &[u8],
    dump: Dump,
    lines: &[u8],
) -> Result<Vec<Front>, AllocError> {
    let mut fronts = Vec::new(alloc);
    if bytes.len() < LONG {
        push_fronts(alloc, bytes, dump, lines, &mut fronts)?;
    }
    Ok(fronts)
}

fn push_fronts(
    alloc: Global,
    bytes: &[u8],
    dump: Dump,
    lines: &[u8],
    fronts: &mut Vec<Front>,
) -> Result<(), AllocError> {
    let mut growth = 1;
    for place in HEADER..bytes.len() {
        let front = &bytes[..place];
        if let Some(lines) = lines_before_end(alloc, front, dump, lines)? {
            growth = next_growth(alloc, front, dump, growth);
            fronts.push(Front { lines, growth })?;
        }
    }
    Ok(())
}

/// How many bytes of these lines a dump of the bytes has before its last line, if that tells that a frame ends there,
/// and the first line is not the only one: `dump_pieces` makes that with the line of the first frame.
fn lines_before_end(
    alloc: Global,
    bytes: &[u8],
    dump: Dump,
    lines: &[u8],
) -> Result<Option<usize>, AllocError> {
    let mut out = Vec::new(alloc);
    if dumped(alloc, bytes, dump, &mut out) == FAILED {
        return Err(AllocError);
    }
    match out.strip_suffix(END) {
        Some(front) if has_frame(front) && lines.starts_with(front) => Ok(Some(front.len())),
        _ => Ok(None),
    }
}

/// Whether there is a line after the first one.
fn has_frame(lines: &[u8]) -> bool {
    match lines.split_last() {
        Some((_, lines)) => lines.contains(&b'\n'),
        None => false,
    }
}

/// The first number from this one on that no growth of a dump of the bytes has.
fn next_growth(alloc: Global, bytes: &[u8], dump: Dump, first: u32) -> u32 {
    for number in first..MOST {
        refuse(alloc, number);
        let _ = dumped(alloc, bytes, dump, &mut Plain(io::sink()));
        if !was_refused(alloc) {
            return number;
        }
    }
    MOST
}

/// Dumps the bytes, and answers the status.
fn dumped<W: TraceWrite>(alloc: Global, bytes: &[u8], dump: Dump, out: &mut W) -> u8 {
    match dump {
        Dump::Whole(form) => dump_as(alloc, bytes, out, form),
        Dump::Pieces => {
            let mut reader = bytes;
            dump_pieces(alloc, &mut reader, out)
        }
    }
}

impl Trial for Dumping<'_> {
    fn seen(&self, alloc: Global, number: u32) -> Seen {
        let mut out = Plain(Comparing {
            rest: &self.lines,
            right: true,
        });
        refuse(alloc, number);
        let status = dumped(alloc, self.bytes, self.dump, &mut out);
        let refused = was_refused(alloc);
        let Plain(Comparing { rest, right }) = out;
        let sent = self.lines.len().saturating_sub(rest.len());
        Seen {
            refused,
            answer: self.answer_of(status, rest),
            right: right & are_out(&self.fronts, number, sent),
        }
    }
}

impl Dumping<'_> {
    /// What a status is, where these lines did not come.
    fn answer_of(&self, status: u8, rest: &[u8]) -> Answer
        ensures { result ≡ dumped_as self.now.status status rest.now }
    {
        if status == FAILED {
            Answer::Memory
        } else if status == self.status && rest.is_empty() {
            Answer::Same
        } else {
            Answer::Other
        }
    }
}

/// Whether the lines are among the first bytes, so many, of all fronts that were dumped before the growth of this
/// number.
fn are_out(fronts: &[Front], number: u32, sent: usize) -> bool
    ensures { result ≡ list_all (is_out number sent) fronts.now }
{
    fronts
        .iter()
        .all(|front| number < front.growth || front.lines <= sent)
}
