//! Following a file as it grows.

use crate::follow::{End, Following};
use crate::output::{Noted, STANDARD, reads_twice};
use crate::tasks::showing::dumped;
use crate::tasks::{Call, tell, write};
use dial9_trace_format::decoder::FeedDecoder;
use gotymbe_plan::ending::{Ending, dump_ending, told_of};
use gotymbe_plan::following::{Change, push_anew};
use std::alloc::AllocError;
use std::fs::File;
use std::io;
use std::rt::{Clock, Files};
use trace_lines::dump::FAILED;
use trace_lines::pieces::dump_fed;
use trace_values::leb128::Plain;

/// Writes the lines of a file as it grows, anew where it shrank or another one came under its name. What is no file of
/// bytes, as a pipe, is dumped to its end, also where it came in the place of a file.
pub(crate) fn follow(
    rt: &(impl AllocGlobal + Files<File = File> + Input + Print + Eprint + Clock),
    call: &Call<'_>,
) -> Result<u8, AllocError> {
    let Some(name) = call.asked.files.first() else {
        return Ok(FAILED);
    };
    'traces: for _ in 0..u64::MAX {
        if !reads_twice(rt, name) {
            return write(rt, call);
        }
        match dump_growing(rt, call, name) {
            Ok(change) => tell_anew(rt, name, change)?,
            Err(ending) => return tell(rt, told_of(ending, name, STANDARD), ending),
        }
    }
    Ok(FAILED)
}

// Writes the lines of a file as it grows, and answers why it is to be read anew; or how its reading ended.
fn dump_growing(
    rt: &(impl AllocGlobal + Files<File = File> + Input + Print + Eprint + Clock),
    call: &Call<'_>,
    name: &str,
) -> Result<Change, Ending> {
    let mut input = match Following::open(rt, name, call.asked.idle) {
        Ok(input) => input,
        Err(error) => return Err(Ending::of_unread(error.kind())),
    };
    let mut out = Noted {
        inner: Plain(io::writer(rt)),
        error: None,
    };
    let mut decoder = FeedDecoder::new(rt.alloc());
    let status = dump_fed(rt.alloc(), &mut decoder, &mut input, &mut out);
    match input.end {
        End::Anew(change) if status != FAILED => Ok(change),
        _ => {
            let ending = dump_ending(status, input.error, out.error);
            Err(dumped(rt, call, name, &decoder, ending))
        }
    }
}

// Tells why a file is read anew.
fn tell_anew(
    rt: &(impl AllocGlobal + Eprint),
    name: &str,
    change: Change,
) -> Result<(), AllocError> {
    let mut line = String::new(rt.alloc());
    push_anew(&mut line, name, change)?;
    let _ = eprint!(rt; "{line}");
    Ok(())
}
