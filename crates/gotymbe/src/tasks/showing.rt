//! Showing what traces hold: checking, dumping, counting, and lines of JSON.

use crate::clocks::zero_of;
use crate::events::{EventLines, Lines};
use crate::input::open;
use crate::output::{Noted, STANDARD};
use crate::pieces::{Picked, Tally, ending_by, ending_of, placed, read_named};
use crate::tasks::{Call, settle, tell, write_text};
use dial9_trace_format::decoder::FeedDecoder;
use gotymbe_plan::ending::{Ending, dump_ending, push_whole};
use gotymbe_plan::statistics::push_stats;
use std::alloc::{AllocError, Global};
use std::fs::File;
use std::io;
use std::io::ErrorKind;
use std::rt::{Clock, Files};
use trace_lines::dump::WHOLE;
use trace_lines::pieces::dump_fed;
use trace_stats::trace::TraceStats;
use trace_values::leb128::{Plain, TraceWrite, send_all};

/// Tells of each file whether it is whole.
pub(crate) fn check(
    rt: &(impl AllocGlobal + Files<File = File> + Input + Print + Eprint + Clock),
    call: &Call<'_>,
) -> Result<u8, AllocError> {
    let mut out = Noted {
        inner: Plain(io::writer(rt)),
        error: None,
    };
    let mut status = WHOLE;
    for name in call.asked.files.as_slice() {
        let ending = ending_of(rt, call, name);
        status = status.max(tell(rt, name, ending)?);
        if ending == Ending::Whole {
            if let Err(kind) = send_whole(rt.alloc(), &mut out, name)? {
                return tell(rt, STANDARD, Ending::Unwritten(kind));
            }
        }
    }
    settle(rt, STANDARD, &mut out, status)
}

// Sends the line of a file that is whole; or answers the kind of error by which it was not sent.
fn send_whole<W: TraceWrite + Drop>(
    alloc: Global,
    out: &mut Noted<W>,
    name: &str,
) -> Result<Result<(), ErrorKind>, AllocError> {
    let mut line = String::new(alloc);
    push_whole(&mut line, name)?;
    match send_all(out, line.as_bytes()) {
        Ok(()) => Ok(Ok(())),
        Err(fault) => Ok(Err(fault.kind)),
    }
}

/// Writes what the events of all files add up to.
pub(crate) fn stats_of_all<W: TraceWrite + Drop>(
    rt: &(impl AllocGlobal + Files<File = File> + Input + Eprint + Clock),
    call: &Call<'_>,
    written: &str,
    out: &mut Noted<W>,
) -> Result<u8, AllocError> {
    let mut tally = Tally {
        stats: TraceStats::new(rt.alloc()),
        picked: Picked::of(call, None),
    };
    let status = count_all(rt, call, &mut tally)?;
    let mut lines = String::new(rt.alloc());
    push_stats(&mut lines, &tally.stats)?;
    write_text(rt, written, out, &lines, status)
}

// Counts the events of all files, and answers the status.
fn count_all<'n>(
    rt: &(impl AllocGlobal + Files<File = File> + Input + Eprint + Clock),
    call: &'n Call<'_>,
    tally: &mut Tally<'n>,
) -> Result<u8, AllocError> {
    let mut status = WHOLE;
    for name in call.asked.files.as_slice() {
        tally.picked = Picked::of(call, zero_of(rt, call, name)?);
        let ending = read_named(rt, call, name, tally);
        status = status.max(tell(rt, name, ending)?);
    }
    Ok(status)
}

/// Writes the lines of a file as it is read: of its frames, or of its events.
pub(crate) fn show_one<W: TraceWrite + Drop>(
    rt: &(impl AllocGlobal + Files<File = File> + Input + Eprint + Clock),
    call: &Call<'_>,
    name: &str,
    out: &mut Noted<W>,
) -> Ending {
    let Some(form) = call.asked.form() else {
        return dump_frames(rt, call, name, out);
    };
    let Ok(zero) = zero_of(rt, call, name) else {
        return Ending::OutOfMemory;
    };
    let mut lines = EventLines {
        picked: Picked::of(call, zero),
        lines: Lines::new(rt.alloc(), form),
        out,
    };
    read_named(rt, call, name, &mut lines)
}

// Writes the dump of a file's frames, as it is read.
fn dump_frames<W: TraceWrite + Drop>(
    rt: &(impl AllocGlobal + Files<File = File> + Input + Eprint + Clock),
    call: &Call<'_>,
    name: &str,
    out: &mut Noted<W>,
) -> Ending {
    let mut input = match open(rt, call, name) {
        Ok(input) => input,
        Err(error) => return Ending::of_unread(error.kind()),
    };
    let mut decoder = FeedDecoder::new(rt.alloc());
    let status = dump_fed(rt.alloc(), &mut decoder, &mut input, out);
    input.finish();
    let ending = dump_ending(status, input.error, out.error);
    dumped(rt, call, name, &decoder, ending)
}

/// How the reading of a file ended that was dumped, by the decoder that was fed it.
pub(crate) fn dumped(
    rt: &(impl AllocGlobal + Files<File = File> + Input + Eprint + Clock),
    call: &Call<'_>,
    name: &str,
    decoder: &FeedDecoder,
    ending: Ending,
) -> Ending {
    match ending {
        Ending::Dumped(_) => placed(rt, call, name, ending_by(decoder)),
        _ => ending,
    }
}
