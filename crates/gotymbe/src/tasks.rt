//! What is done, task by task.

ghost use Rattle.std.specs.Prelude.{◌≡◌, ◌↔◌, IfOk, OnOk, OnErr, IsTrue};
ghost use Rattle.gotymbe_plan.specs.Endings.{HasStatus};
ghost use Rattle.gotymbe_plan.specs.declared.ending.Ending.TheVariants.{OutOfMemory};
ghost use Rattle.gotymbe_plan.specs.Moments.{IsAnyDate};

use crate::input::read_all;
use crate::merge::merge_all;
use crate::output::{Noted, STANDARD, Written, begin};
use gotymbe_plan::ending::{Ending, is_kept, push_message, status_of};
use gotymbe_plan::filter::Wanted;
use gotymbe_plan::moments::{Moment, is_any_date};
use gotymbe_words::asked::{Asked, Task};
use std::alloc::AllocError;
use std::fs::File;
use std::io;
use std::rt::{Clock, Files};
use trace_lines::dump::WHOLE;
use trace_values::leb128::{Plain, TraceWrite, send_all};

mod charting;
mod folding;
mod following;
mod paging;
mod saving;
mod showing;
mod tabling;

/// What is asked for, and whether standard error is a terminal.
#[derive(Clone, Copy)]
pub(crate) struct Call<'a> {
    pub(crate) asked: &'a Asked<'a>,
    pub(crate) from: Option<Moment>,
    pub(crate) to: Option<Moment>,
    pub(crate) terminal: bool,
}

impl Call<'_> {
    /// Which events are asked for.
    pub(crate) fn wanted(&self) -> Wanted<'_>
        ensures from { result.from ≡ self.now.from }
        ensures to { result.to ≡ self.now.to }
        ensures names { result.names.now ≡ self.now.asked.now.events.items }
    {
        Wanted {
            from: self.from,
            to: self.to,
            names: &self.asked.events,
        }
    }

    /// Whether a date is asked for.
    pub(crate) fn has_dates(&self) -> bool
        ensures { IsTrue result ↔ IsAnyDate self.now.from self.now.to }
    {
        is_any_date(self.from, self.to)
    }
}

/// Does what is asked for, and answers the status: the greatest of those of the files.
pub(crate) fn carry_out(
    rt: &(impl AllocGlobal + Files<File = File> + Input + Print + Eprint + Clock),
    call: &Call<'_>,
) -> Result<u8, AllocError> {
    let done = match call.asked.task {
        Task::Check => showing::check(rt, call),
        Task::Csv => tabling::write_tables(rt, call),
        Task::Follow => following::follow(rt, call),
        _ => write(rt, call),
    };
    or_told(rt, call.asked.output.unwrap_or(STANDARD), done)
}

// The status of what was done; where memory was refused, that is told of what is written.
fn or_told(
    rt: &(impl AllocGlobal + Eprint),
    written: &str,
    done: Result<u8, AllocError>,
) -> Result<u8, AllocError>
    ensures done { OnOk done (result ≡ done) }
    ensures refused { OnErr done (IfOk result (HasStatus OutOfMemory)) }
{
    match done {
        Ok(status) => Ok(status),
        Err(_) => tell(rt, written, Ending::OutOfMemory),
    }
}

/// Tells how the reading of a file ended, and answers the status.
pub(crate) fn tell(
    rt: &(impl AllocGlobal + Eprint),
    name: &str,
    ending: Ending,
) -> Result<u8, AllocError>
    ensures { IfOk result (HasStatus ending) }
{
    let mut line = String::new(rt.alloc());
    push_message(&mut line, name, ending)?;
    let _ = eprint!(rt; "{line}");
    Ok(status_of(ending))
}

/// Writes what is asked for to standard output, or into a file.
pub(crate) fn write(
    rt: &(impl AllocGlobal + Files<File = File> + Input + Print + Eprint + Clock),
    call: &Call<'_>,
) -> Result<u8, AllocError> {
    match call.asked.output {
        None => write_to(rt, call, STANDARD, Plain(io::writer(rt))),
        Some(name) => match begin(rt, name, call.asked.force) {
            Ok(written) => write_file(rt, call, name, written),
            Err(ending) => tell(rt, name, ending),
        },
    }
}

// Writes what is asked for into a file that was begun, and puts it under its name where that did not fail.
fn write_file(
    rt: &(impl AllocGlobal + Files<File = File> + Input + Print + Eprint + Clock),
    call: &Call<'_>,
    name: &str,
    written: Written,
) -> Result<u8, AllocError> {
    match write_to(rt, call, name, Plain(&written.file)) {
        Ok(status) if is_kept(status) => match written.finish(rt) {
            Ok(()) => Ok(status),
            Err(error) => tell(rt, name, Ending::Unwritten(error.kind())),
        },
        failed => {
            written.give_up(rt);
            failed
        }
    }
}

// Writes what is asked for: of all files together, or of each in turn.
fn write_to<W: TraceWrite + Drop>(
    rt: &(impl AllocGlobal + Files<File = File> + Input + Eprint + Clock),
    call: &Call<'_>,
    written: &str,
    out: W,
) -> Result<u8, AllocError> {
    let mut out = Noted {
        inner: out,
        error: None,
    };
    match call.asked.task {
        Task::Join => saving::join_all(rt, call, written, &mut out),
        Task::Stats => showing::stats_of_all(rt, call, written, &mut out),
        Task::Fold => folding::fold_all(rt, call, written, &mut out),
        Task::Page => paging::write_page(rt, call, written, &mut out),
        _ if call.asked.merge => merge_all(rt, call, written, &mut out),
        _ => write_each(rt, call, written, &mut out),
    }
}

fn write_each<W: TraceWrite + Drop>(
    rt: &(impl AllocGlobal + Files<File = File> + Input + Eprint + Clock),
    call: &Call<'_>,
    written: &str,
    out: &mut Noted<W>,
) -> Result<u8, AllocError> {
    let mut status = WHOLE;
    for name in call.asked.files.as_slice() {
        let (ending, before) = write_one(rt, call, name, out)?;
        if let Ending::Unwritten(_) = ending {
            return tell(rt, written, ending);
        }
        status = status.max(before).max(tell(rt, name, ending)?);
    }
    settle(rt, written, out, status)
}

// Writes what is asked for of a file, and answers how its reading ended and the status of what was told before.
fn write_one<W: TraceWrite + Drop>(
    rt: &(impl AllocGlobal + Files<File = File> + Input + Eprint + Clock),
    call: &Call<'_>,
    name: &str,
    out: &mut Noted<W>,
) -> Result<(Ending, u8), AllocError> {
    let ending = match call.asked.task {
        Task::Salvage => return saving::salvage_one(rt, call, name, out),
        Task::Cut => saving::cut_one(rt, call, name, out),
        Task::Chrome => charting::chart_one(rt, call, name, out),
        _ => showing::show_one(rt, call, name, out),
    };
    Ok((ending, WHOLE))
}

/// Settles what is written, and answers the status, this one where that did not fail.
pub(crate) fn settle<W: TraceWrite + Drop>(
    rt: &(impl AllocGlobal + Eprint),
    written: &str,
    out: &mut Noted<W>,
    status: u8,
) -> Result<u8, AllocError> {
    match out.settle() {
        Ok(()) => Ok(status),
        Err(error) => tell(rt, written, Ending::Unwritten(error.kind())),
    }
}

/// Writes a text, settles what is written, and answers the status, this one where that did not fail.
pub(crate) fn write_text<W: TraceWrite + Drop>(
    rt: &(impl AllocGlobal + Eprint),
    written: &str,
    out: &mut Noted<W>,
    text: &str,
    status: u8,
) -> Result<u8, AllocError> {
    match send_all(out, text.as_bytes()) {
        Ok(()) => settle(rt, written, out, status),
        Err(fault) => tell(rt, written, Ending::Unwritten(fault.kind)),
    }
}

/// The bytes of all files that can be read, in order; or the status where one can't be.
pub(crate) fn read_each(
    rt: &(impl AllocGlobal + Files<File = File> + Input + Eprint + Clock),
    call: &Call<'_>,
) -> Result<Result<Vec<Vec<u8>>, u8>, AllocError> {
    let mut traces: Vec<Vec<u8>> = Vec::new(rt.alloc());
    for name in call.asked.files.as_slice() {
        match read_all(rt, call, name) {
            Ok(bytes) => traces.push(bytes)?,
            Err(ending) => return Ok(Err(tell(rt, name, ending)?)),
        }
    }
    Ok(Ok(traces))
}
