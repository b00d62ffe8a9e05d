//! A sink that counts events.

ghost use Rattle.std.specs.Prelude.{◌≡◌, None, OnOk, IfSome};
ghost use Rattle.dial9_trace_format.specs.Words.{RunsSink, RunsAfter};
ghost use Rattle.user_words.specs.Tallies.{tallies, TalliesAll};

use dial9_trace_format::decoder::{Decoder, EventSink, RawEvent, TryForEachError};
use dial9_trace_format::laws;

/// How many events were shown.
#[derive(Drop)]
pub struct Tally {
    count: u64,
}

/// No more events can be counted.
#[derive(Debug, Drop)]
pub struct Full;

impl Tally {
    /// A tally that has counted nothing.
    pub fn new() -> Tally
        ensures { result.count ≡ 0 }
    {
        Tally { count: 0 }
    }

    /// How many events were counted.
    pub fn count(&self) -> u64
        ensures { result ≡ self.now.count }
    {
        self.count
    }
}

/// Counts the event. `Full` where `u64::MAX` were counted; the count stays as it is then.
impl<'a> EventSink<'a, Full> for Tally {
    ghost step = { tallies };

    fn event(&mut self, _event: &RawEvent<'a, '_>) -> Result<(), Full> {
        match self.count.checked_add(1) {
            Some(count) => {
                self.count = count;
                Ok(())
            }
            None => Err(Full),
        }
    }
}

/// Counts the events that are left. Where none is refused and the input is read to its end, all are counted. Refuses
/// what `Decoder::try_for_each_event` does: `User(Full)` at an event past `u64::MAX` of them; `Decode` where bytes
/// are left that begin with no frame, and where the decoder has failed or fails here, by `DecodeErrorKind::Conflict`
/// or `DecodeErrorKind::OutOfMemory`.
pub fn tally_all(decoder: &mut Decoder<'_>, tally: &mut Tally) -> Result<(), TryForEachError<Full>>
    ensures all { OnOk result (TalliesAll decoder.old decoder.new tally.old tally.new) }
    ensures runs { decoder.old.failure ≡ None
        → RunsSink tallies decoder.old decoder.new tally.old tally.new result }
    ensures again { IfSome decoder.old.failure
        (λ f. RunsAfter f decoder.old decoder.new tally.old tally.new result) }
{
    laws::sinks::<Full, Tally>();
    decoder.try_for_each_event(tally)
}
