//! How many events bytes hold.

ghost use Rattle.std.specs.Prelude.{◌≡◌, None, IfOk, IfSome, OnOk};
ghost use Rattle.dial9_trace_format.specs.Words.{RunsSink, RunsAfter};
ghost use Rattle.trace_door.specs.Counting.{CountsEvents};
ghost use Rattle.trace_door.specs.parts.Counting.{counts_one, CountsAll};

use dial9_trace_format::decoder::{Decoder, EventSink, RawEvent, TryForEachError};
use dial9_trace_format::laws;
use std::alloc::{AllocError, Global};

/// How many events were shown.
#[derive(Drop)]
pub(crate) struct Counter {
    count: u64,
}

/// No more events can be counted.
#[derive(Debug, Drop)]
pub(crate) struct Full;

impl<'a> EventSink<'a, Full> for Counter {
    ghost step = { counts_one };

    fn event(&mut self, _event: &RawEvent<'a, '_>) -> Result<(), Full> {
        match self.count.checked_add(1) {
            Some(count) => {
                self.count = count;
                Ok(())
            }
            None => Err(Full),
        }
    }
}

/// How many events these bytes hold, which readers take to their end, or which have no header. `AllocError` where a
/// growth was refused, and where they are not so.
pub(crate) fn events_in(alloc: Global, bytes: &[u8]) -> Result<u64, AllocError>
    ensures { IfOk result (CountsEvents bytes.now) }
{
    let Some(mut decoder) = Decoder::new(alloc, bytes) else {
        return Ok(0);
    };
    let mut counter = Counter { count: 0 };
    match count_all(&mut decoder, &mut counter) {
        Ok(()) => Ok(counter.count),
        Err(_) => Err(AllocError),
    }
}

/// Counts the events that are left.
fn count_all(decoder: &mut Decoder<'_>, counter: &mut Counter) -> Result<(), TryForEachError<Full>>
    ensures { OnOk result (CountsAll decoder.old decoder.new counter.old counter.new) }
{
    laws::sinks::<Full, Counter>();
    decoder.try_for_each_event(counter)
}
