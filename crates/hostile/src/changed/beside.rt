//! A sink beside a reader of borrowed values.

ghost use Rattle.std.specs.Prelude.{◌≡◌, ◌≢◌, ◌↔◌, ◌<◌, IsTrue, IfOk};
ghost use Rattle.dial9_trace_format.specs.ShownEvents.{shown_event};
ghost use Rattle.hostile.specs.Showings.{error_told, IsKnownTo, TakesRight};
ghost use Rattle.hostile.specs.declared.changed.beside.Answer.TheVariants as answers;

use crate::calls::{decoder_of, next_borrowed, place_of, show};
use crate::changed::reading::unless_memory;
use dial9_trace_format::DeserError;
use dial9_trace_format::decoder::{
    DecodeError, DecodedFrameRef, Decoder, EventSink, RawEvent, TryForEachError,
};
use reader_agreement::beside::is_read_by;
use reader_agreement::readings::Showing;
use std::alloc::{AllocError, Global};

/// Compares each event that it is shown with the next one that a reader beside it gives.
#[derive(Drop)]
struct Beside<'a> {
    alloc: Global,
    reader: Decoder<'a>,
    /// Whether it refuses each event.
    refuses: bool,
    /// How many events it was shown.
    events: usize,
    /// Whether all of them were those of the reader.
    right: bool,
}

/// Why an event was refused.
#[derive(Clone, Copy)]
enum Refusal {
    /// The sink refuses all.
    Asked,
    /// A growth was refused.
    Memory,
}

impl<'a> EventSink<'a, Refusal> for Beside<'a> {
    ghost step = { TakesRight };

    fn event(&mut self, event: &RawEvent<'a, '_>) -> Result<(), Refusal> {
        self.events = self.events.saturating_add(1);
        match is_next(self.alloc, &mut self.reader, event) {
            Ok(right) => self.right = self.right && right,
            Err(_) => return Err(Refusal::Memory),
        }
        if self.refuses {
            Err(Refusal::Asked)
        } else {
            Ok(())
        }
    }
}

/// Whether the event is the next one that the reader gives, and resolves as look-ups by hand show it.
fn is_next<'a>(
    alloc: Global,
    reader: &mut Decoder<'a>,
    event: &RawEvent<'a, '_>,
) -> Result<bool, AllocError>
    ensures { IfOk result (λ right. IsTrue right
        → IsKnownTo reader.new (shown_event event.now)) }
{
    let answer = event.resolve(alloc);
    if matches!(answer, Err(DeserError::OutOfMemory)) {
        return Err(AllocError);
    }
    let frame = next_event(reader);
    Ok(is_read_by(reader, frame.as_ref(), event, &answer))
}

/// The next frame that is an event.
fn next_event<'a>(reader: &mut Decoder<'a>) -> Option<DecodedFrameRef<'a>> {
    for _ in 0..(*reader).data_len() {
        match next_borrowed(reader) {
            Ok(
                Some(
                    DecodedFrameRef::Event {
                        type_id,
                        timestamp_ns,
                        values,
                    },
                ),
            ) => {
                return Some(DecodedFrameRef::Event {
                    type_id,
                    timestamp_ns,
                    values,
                });
            }
            Ok(Some(_)) => {}
            _ => return None,
        }
    }
    None
}

/// What a sink or its reader answered.
#[derive(Clone, Copy)]
pub enum Answer {
    /// No byte is left.
    Nothing,
    /// The sink refused an event.
    Refused,
    /// No frame stands there, or the decoder has failed.
    Error(DecodeError),
}

/// What is answered. `AllocError` where a growth was refused.
fn answer_of(answer: Result<(), TryForEachError<Refusal>>) -> Result<Answer, AllocError> {
    match answer {
        Ok(()) => Ok(Answer::Nothing),
        Err(TryForEachError::Decode(error)) => Ok(Answer::Error(unless_memory(error)?)),
        Err(TryForEachError::User(Refusal::Asked)) => Ok(Answer::Refused),
        Err(TryForEachError::User(Refusal::Memory)) => Err(AllocError),
    }
}

/// What is shown of the bytes, which have so many events, to a sink that takes all, or refuses each.
pub fn showing_of(
    alloc: Global,
    bytes: &[u8],
    events: usize,
    refuses: bool,
) -> Result<Showing, AllocError> {
    let mut sink = sink_of(alloc, bytes, refuses)?;
    let mut decoder = decoder_of(alloc, bytes)?;
    showing_by(&mut decoder, &mut sink, events)
}

fn showing_by<'a>(
    decoder: &mut Decoder<'a>,
    sink: &mut Beside<'a>,
    events: usize,
) -> Result<Showing, AllocError>
    ensures { IfOk result (λ s. (s.events ≡ sink.new.events)
        × (s.place ≡ decoder.new.position) × (IsTrue s.right → IsTrue sink.new.right)) }
{
    let refused = !sink.refuses || are_refused(decoder, sink, events)?;
    let answer = answer_of(show(decoder, sink))?;
    Ok(shown_by(sink, refused, answer, place_of(decoder)))
}

/// What was shown to the sink, which refused what it should, where its reader ended so and at this place.
fn shown_by(sink: &Beside<'_>, refused: bool, answer: Answer, place: usize) -> Showing
    ensures events { result.events ≡ sink.now.events }
    ensures right { IsTrue result.right
        ↔ (IsTrue refused × IsTrue sink.now.right × (answer ≢ answers.Refused)) }
    ensures told { result.told ≡ error_told answer }
    ensures place { result.place ≡ place }
{
    Showing {
        events: sink.events,
        right: refused && sink.right && !matches!(answer, Answer::Refused),
        told: error_in(answer),
        place,
    }
}

/// Whether the sink refuses so many events, one in a call, each time where its reader stands.
fn are_refused<'a>(
    decoder: &mut Decoder<'a>,
    sink: &mut Beside<'a>,
    events: usize,
) -> Result<bool, AllocError>
    ensures { IfOk result (λ all. IsTrue all → 0 < events
        → decoder.new.position ≡ sink.new.reader.position) }
{
    'events: for _ in 0..events {
        let answer = answer_of(show(decoder, sink))?;
        if !is_refused(answer, place_of(decoder), sink) {
            return Ok(false);
        }
    }
    Ok(true)
}

/// Whether the sink refused an event, and its reader stands at this place.
fn is_refused(answer: Answer, place: usize, sink: &Beside<'_>) -> bool
    ensures { IsTrue result
        ↔ ((answer ≡ answers.Refused) × (place ≡ sink.now.reader.position)) }
{
    matches!(answer, Answer::Refused) && place == place_of(&sink.reader)
}

fn error_in(answer: Answer) -> Option<DecodeError>
    ensures { result ≡ error_told answer }
{
    match answer {
        Answer::Error(error) => Some(error),
        _ => None,
    }
}

/// A sink beside a new reader of these bytes.
fn sink_of(alloc: Global, bytes: &[u8], refuses: bool) -> Result<Beside<'_>, AllocError> {
    Ok(Beside {
        alloc,
        reader: decoder_of(alloc, bytes)?,
        refuses,
        events: 0,
        right: true,
    })
}
