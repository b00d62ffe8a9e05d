//! Writing traces: what reads whole of them, several joined, and cuts.

ghost use Rattle.std.specs.Prelude.{◌≡◌, IfOk};
ghost use Rattle.gotymbe.specs.Failures.{cut_ending};
ghost use Rattle.gotymbe.specs.Reading.{TellsGaps};

use crate::clocks::zero_in;
use crate::input::{front_ending, read_all};
use crate::output::Noted;
use crate::tasks::{Call, read_each, settle, tell};
use gotymbe_plan::ending::Ending;
use gotymbe_plan::gaps::{greatest_status, last_of};
use std::alloc::{AllocError, Global};
use std::fs::File;
use std::rt::{Clock, Files};
use trace_cuts::cut::{CutError, send_cut};
use trace_cuts::range::TimeRange;
use trace_fronts::joining::join;
use trace_fronts::pieces::{Gap, salvage_pieces};
use trace_fronts::salvaging::salvage;
use trace_fronts::whole::{Front, Readers};
use trace_lines::dump::WHOLE;
use trace_values::leb128::TraceWrite;

/// Saves what reads whole of a file, and tells each gap but the last. Answers that, and the greatest status of those
/// before.
pub(crate) fn salvage_one<W: TraceWrite + Drop>(
    rt: &(impl AllocGlobal + Files<File = File> + Input + Eprint + Clock),
    call: &Call<'_>,
    name: &str,
    out: &mut Noted<W>,
) -> Result<(Ending, u8), AllocError> {
    let bytes = match read_all(rt, call, name) {
        Ok(bytes) => bytes,
        Err(ending) => return Ok((ending, WHOLE)),
    };
    if bytes.is_empty() || !call.asked.resync {
        return Ok((salvage_front(rt.alloc(), &bytes, out), WHOLE));
    }
    match salvage_pieces(rt.alloc(), &bytes, Readers::Owned, out) {
        Ok(gaps) => tell_gaps(rt, name, &gaps),
        Err(error) => Ok((Ending::from(error), WHOLE)),
    }
}

// Saves the whole front of bytes, and answers how that ends.
fn salvage_front<W: TraceWrite + Drop>(alloc: Global, bytes: &[u8], out: &mut Noted<W>) -> Ending {
    match salvage(alloc, bytes, Readers::Owned, out) {
        Ok(front) => Ending::of_stop(front.stop),
        Err(error) => Ending::from(error),
    }
}

// Tells each gap but the last, and answers that one with the greatest status of those before.
fn tell_gaps(
    rt: &(impl AllocGlobal + Eprint),
    name: &str,
    gaps: &[Gap],
) -> Result<(Ending, u8), AllocError>
    ensures { IfOk result (λ told. TellsGaps gaps.now told.0 told.1) }
{
    let (before, last) = last_of(gaps);
    for gap in before {
        tell(rt, name, Ending::Stopped(gap.stop))?;
    }
    Ok((last, greatest_status(before)))
}

/// Cuts a range of times out of a file.
pub(crate) fn cut_one<W: TraceWrite + Drop>(
    rt: &(impl AllocGlobal + Files<File = File> + Input + Eprint + Clock),
    call: &Call<'_>,
    name: &str,
    out: &mut Noted<W>,
) -> Ending {
    let bytes = match read_all(rt, call, name) {
        Ok(bytes) => bytes,
        Err(ending) => return ending,
    };
    let Ok(zero) = zero_in(rt.alloc(), call, &bytes) else {
        return Ending::OutOfMemory;
    };
    let Some(filter) = call.wanted().filter(zero) else {
        return Ending::NoClock;
    };
    let (from, to) = filter.bounds();
    match send_cut(rt.alloc(), &bytes, TimeRange { from, to }, out) {
        Ok(_) => front_ending(rt.alloc(), &bytes, Readers::Owned),
        Err(error) => uncut(error),
    }
}

// The ending where a cut was not sent.
fn uncut(error: CutError) -> Ending
    ensures { result ≡ cut_ending error }
{
    match error {
        CutError::OutOfMemory => Ending::OutOfMemory,
        CutError::Writer(kind) => Ending::Unwritten(kind),
    }
}

/// Joins the whole fronts of files.
pub(crate) fn join_all<W: TraceWrite + Drop>(
    rt: &(impl AllocGlobal + Files<File = File> + Input + Eprint + Clock),
    call: &Call<'_>,
    written: &str,
    out: &mut Noted<W>,
) -> Result<u8, AllocError> {
    match read_each(rt, call)? {
        Ok(traces) => join_traces(rt, call, &traces, written, out),
        Err(status) => Ok(status),
    }
}

// Joins the whole fronts of traces, and answers the status.
fn join_traces<W: TraceWrite + Drop>(
    rt: &(impl AllocGlobal + Eprint),
    call: &Call<'_>,
    traces: &[Vec<u8>],
    written: &str,
    out: &mut Noted<W>,
) -> Result<u8, AllocError> {
    let mut inputs: Vec<&[u8]> = Vec::new(rt.alloc());
    for trace in traces {
        inputs.push(trace.as_slice())?;
    }
    let fronts = match join(rt.alloc(), inputs.as_slice(), Readers::Owned, out) {
        Ok(fronts) => fronts,
        Err(error) => return tell(rt, written, Ending::from(error)),
    };
    match out.settle() {
        Ok(()) => tell_fronts(rt, call, &fronts),
        Err(error) => tell(rt, written, Ending::Unwritten(error.kind())),
    }
}

// Tells of each file where its whole front ends, and answers the status.
fn tell_fronts(
    rt: &(impl AllocGlobal + Eprint),
    call: &Call<'_>,
    fronts: &[Front],
) -> Result<u8, AllocError> {
    let mut status = WHOLE;
    for (name, front) in call.asked.files.iter().zip(fronts) {
        status = status.max(tell(rt, name, Ending::of_stop(front.stop))?);
    }
    Ok(status)
}
