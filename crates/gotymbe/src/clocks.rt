//! The clocks of traces, which dates go by (docs/ROLES.md, "Clocks").

ghost use Rattle.std.specs.Prelude.{◌≡◌, ◌↔◌, None, Ok, IfOk, IsErr, codes, option_map};
ghost use Rattle.dial9_trace_format.specs.DecodedFrames.{item_of};
ghost use Rattle.gotymbe_plan.specs.Moments.{IsAnyDate};
ghost use Rattle.gotymbe_plan.specs.declared.ending.Ending.TheVariants.{OutOfMemory};
ghost use Rattle.gotymbe.specs.Clocks.{IsZeroBy, IsZeroSaid};

use crate::output::reads_twice;
use crate::pieces::{FrameSink, feed, read_named};
use crate::tasks::Call;
use dial9_trace_format::decoder::{DecodedFrame, FeedDecoder};
use gotymbe_plan::ending::Ending;
use std::alloc::{AllocError, Global};
use std::fs::File;
use std::rt::{Clock, Files};
use trace_roles::clock::clock_of;
use trace_wire::schema::SchemaEntry;

/// The nanoseconds since the beginning of 1970 at the zero of the clock that a frame says, if it says one.
pub(crate) fn zero_said(frame: &DecodedFrame, decoder: &FeedDecoder) -> Option<i64>
    ensures { IsZeroSaid decoder.now.state.grammar.wire_types (item_of frame.now) result }
{
    match frame {
        DecodedFrame::SchemaAnnotations { type_id, .. } => zero_by(
            decoder.registry().get(*type_id),
        ),
        _ => None,
    }
}

// The zero of the clock that a schema says, where it is known and says one.
fn zero_by(entry: Option<&SchemaEntry>) -> Option<i64>
    ensures { IsZeroBy (option_map (λ e. e.now) entry.entry) result }
{
    match clock_of(entry?) {
        Some(clock) => Some(clock.zero),
        None => None,
    }
}

// Looks for the first clock.
#[derive(Drop)]
struct FirstClock {
    zero: Option<i64>,
}

impl FrameSink for FirstClock {
    fn frame<'f>(
        &mut self,
        frame: &'f DecodedFrame,
        decoder: &'f FeedDecoder,
        _: u64,
    ) -> Result<(), Ending> {
        self.zero = zero_said(frame, decoder);
        match self.zero {
            Some(_) => Err(Ending::Whole),
            None => Ok(()),
        }
    }
}

/// The zero of the first clock that a file says, where a date is asked for: it is read up to there. `None` where none
/// is, where the file says no clock, and of what can't be read twice, as standard input and pipes. `AllocError` where a
/// growth was refused.
pub(crate) fn zero_of(
    rt: &(impl AllocGlobal + Files<File = File> + Input + Eprint + Clock),
    call: &Call<'_>,
    name: &str,
) -> Result<Option<i64>, AllocError>
    ensures undated { ¬ IsAnyDate call.now.from call.now.to → result ≡ Ok None }
    ensures standard { name.now ≡ codes "-" → result ≡ Ok None }
{
    if !call.has_dates() || !reads_twice(rt, name) {
        return Ok(None);
    }
    let mut first = FirstClock { zero: None };
    let ending = read_named(rt, call, name, &mut first);
    zero_unless(ending, first.zero)
}

/// The zero of the first clock that a trace says, where a date is asked for. `AllocError` where a growth was refused.
pub(crate) fn zero_in(
    alloc: Global,
    call: &Call<'_>,
    trace: &[u8],
) -> Result<Option<i64>, AllocError>
    ensures { ¬ IsAnyDate call.now.from call.now.to → result ≡ Ok None }
{
    if !call.has_dates() {
        return Ok(None);
    }
    let mut first = FirstClock { zero: None };
    let mut decoder = FeedDecoder::new(alloc);
    let mut input = trace;
    let ending = feed(&mut input, &mut decoder, &mut first, u64::MAX);
    zero_unless(ending, first.zero)
}

// This zero, unless memory was refused where it was looked for.
fn zero_unless(ending: Ending, zero: Option<i64>) -> Result<Option<i64>, AllocError>
    ensures refused { IsErr result ↔ (ending ≡ OutOfMemory) }
    ensures zero { IfOk result (λ said. said ≡ zero) }
{
    match ending {
        Ending::OutOfMemory => Err(AllocError),
        _ => Ok(zero),
    }
}
