//! Adding up the stacks of events.

ghost use Rattle.std.specs.Prelude.{◌≡◌};
ghost use Rattle.gotymbe.specs.Failures.{fold_ending};

use crate::clocks::zero_of;
use crate::output::Noted;
use crate::pieces::{FrameSink, Picked, read_named};
use crate::tasks::{Call, tell, write_text};
use dial9_trace_format::decoder::{DecodedFrame, FeedDecoder};
use gotymbe_plan::ending::Ending;
use std::alloc::AllocError;
use std::fs::File;
use std::rt::{Clock, Files};
use trace_folded::tally::{FoldError, FoldedStacks};
use trace_lines::dump::WHOLE;
use trace_values::leb128::TraceWrite;

/// Adds up the stacks of the events that are asked for.
#[derive(Drop)]
struct Folding<'c> {
    stacks: FoldedStacks,
    field: Option<&'c str>,
    picked: Picked<'c>,
}

impl FrameSink for Folding<'_> {
    fn frame<'f>(
        &mut self,
        frame: &'f DecodedFrame,
        decoder: &'f FeedDecoder,
        _: u64,
    ) -> Result<(), Ending> {
        let Some(event) = self.picked.pick(frame, decoder)? else {
            return Ok(());
        };
        match self.stacks.add_event(&event, self.field) {
            Ok(()) => self.picked.go_on(),
            Err(error) => Err(uncounted(error)),
        }
    }
}

// The ending where a stack was not counted.
fn uncounted(error: FoldError) -> Ending
    ensures { result ≡ fold_ending error }
{
    match error {
        FoldError::OutOfMemory => Ending::OutOfMemory,
        FoldError::Full => Ending::TooMuch,
    }
}

/// Writes what the stacks of the events of all files add up to.
pub(crate) fn fold_all<W: TraceWrite + Drop>(
    rt: &(impl AllocGlobal + Files<File = File> + Input + Eprint + Clock),
    call: &Call<'_>,
    written: &str,
    out: &mut Noted<W>,
) -> Result<u8, AllocError> {
    let mut folding = Folding {
        stacks: FoldedStacks::new(rt.alloc()),
        field: call.asked.field,
        picked: Picked::of(call, None),
    };
    let status = add_all(rt, call, &mut folding)?;
    let lines = folding.stacks.lines()?;
    write_text(rt, written, out, &lines, status)
}

// Adds up the stacks of the events of all files, and answers the status.
fn add_all<'c>(
    rt: &(impl AllocGlobal + Files<File = File> + Input + Eprint + Clock),
    call: &'c Call<'_>,
    folding: &mut Folding<'c>,
) -> Result<u8, AllocError> {
    let mut status = WHOLE;
    for name in call.asked.files.as_slice() {
        folding.picked = Picked::of(call, zero_of(rt, call, name)?);
        let ending = read_named(rt, call, name, folding);
        status = status.max(tell(rt, name, ending)?);
    }
    Ok(status)
}
