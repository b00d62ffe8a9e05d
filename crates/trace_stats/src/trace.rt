//! What is kept of the events of a trace, by schema.

ghost use Rattle.std.specs.Prelude.{◌≡◌, ◌<◌, ◌++◌, ◌∷◌, [], true, false, List, length, IfOk, OnOk, OnErr, IfErr};
ghost use Rattle.std.specs.Prelude.{IfNone, IfSome, None, map};
ghost use Rattle.dial9_trace_format.specs.DecodedFrames.{item_of};
ghost use Rattle.dial9_trace_format.specs.ShownEvents.{shown_event};
ghost use Rattle.dial9_trace_format.specs.Sinks.{RunsAfter};
ghost use Rattle.trace_stats.specs.Events.{Counted, counted_event};
ghost use Rattle.trace_events.specs.OwnedEvents.{owned_event, events_in};
ghost use Rattle.trace_stats.specs.Refusals.{RefusesEvent, IsNewSchema};
ghost use Rattle.trace_stats.specs.Runs.{CountsAll};
ghost use Rattle.trace_stats.specs.parts.Runs.{CountsNext, CountsThese, FailsAgain};
ghost use Rattle.trace_stats.specs.Traces.{AreStatsOf};
ghost use Rattle.trace_stats.specs.parts.Places.{IsPlaceOf, IsNoPlaceOf, HasNoPlace, FindsPlace, answer_of};
ghost use Rattle.trace_stats.specs.declared.trace.StatsError.TheVariants.{OutOfMemory};

use crate::full::Full;
use crate::schema::SchemaStats;
use dial9_trace_format::decoder::{DecodedFrame, Decoder, RawEvent, TryForEachError};
use std::alloc::{AllocError, Global};
use thiserror::Error;
use trace_events::event::OwnedEvent;
use trace_wire::schema::{SchemaEntry, WireTypeId};

// How many places of schemas are looked at first, by wire id.
const GUESSES: usize = 256;

/// Why an event is not counted.
#[derive(Clone, Copy, Debug, PartialEq, Eq, Error)]
pub enum StatsError {
    /// A growth was refused.
    #[error("out of memory")]
    OutOfMemory,
    /// 2^64 - 1 events were counted.
    #[error("too many to count")]
    Full,
}

impl From<AllocError> for StatsError {
    ghost use Rattle.trace_stats.specs.declared.trace.StatsError.TheVariants.{OutOfMemory};

    ghost from_gives = { λ _ e. e ≡ OutOfMemory };

    fn from(_: AllocError) -> StatsError {
        StatsError::OutOfMemory
    }
}

/// What the events of a trace add up to, by schema. Schemas of one name with the same fields are one, whatever their
/// wire ids and their annotations.
#[derive(Debug, Drop)]
pub struct TraceStats {
    alloc: Global,
    schemas: Vec<SchemaStats>,
    // where the schema of an event with such a wire id stood last
    guesses: [usize; 256],
}

impl TraceStats {
    /// Of no event. Takes no memory but its own.
    pub fn new(alloc: Global) -> TraceStats
        ensures { AreStatsOf [] result }
    {
        TraceStats {
            alloc,
            schemas: Vec::new(alloc),
            guesses: [0; GUESSES],
        }
    }

    /// Counts an event of so many bytes too. `OutOfMemory` where a growth for a new schema was refused, and never of an
    /// event whose schema has events: then nothing changes. `Full` only where 2^64 - 1 events were counted: then a part
    /// of this one is.
    pub fn add(&mut self, event: &RawEvent<'_, '_>, bytes: u64) -> Result<(), StatsError>
        ensures added { OnOk result
            ((es : List Counted) → AreStatsOf es self.old
            → AreStatsOf (es ++ counted_event (shown_event event.now) bytes ∷ []) self.new) }
        ensures refused { IfErr result (RefusesEvent self.old self.new) }
        ensures memory { IfErr result (λ e. e ≡ OutOfMemory →
            IsNewSchema (shown_event event.now).entry self.old) }
    {
        let place = self.place_for(event.type_id, event.schema)?;
        answer_of(self.schemas[place].add(event, bytes))
    }

    /// Counts an event whose values own their memory, as `add` does.
    pub fn add_owned(&mut self, event: &OwnedEvent<'_>, bytes: u64) -> Result<(), StatsError>
        ensures added { OnOk result
            ((es : List Counted) → AreStatsOf es self.old
            → AreStatsOf (es ++ counted_event (owned_event event.now) bytes ∷ []) self.new) }
        ensures refused { IfErr result (RefusesEvent self.old self.new) }
        ensures memory { IfErr result (λ e. e ≡ OutOfMemory →
            IsNewSchema (owned_event event.now).entry self.old) }
    {
        let place = self.place_for(event.type_id, event.schema)?;
        answer_of(self.schemas[place].add_owned(event, bytes))
    }

    /// Counts the events that a decoder has left too, in order, as `add_owned` does: each takes the bytes of its frame,
    /// and of the headers and resets right before that. `Ok` where no frame stands, as at the end of the input.
    /// `Decode` where the decoder fails, by `DecodeErrorKind::Conflict` or `DecodeErrorKind::OutOfMemory`, or has
    /// failed: the events before are counted. `User` of an event that is refused, as by `add_owned`: it was read, and
    /// those before it are counted, so that another call goes on after it.
    pub fn add_all(&mut self, decoder: &mut Decoder<'_>) -> Result<(), TryForEachError<StatsError>>
        ensures all { decoder.old.failure ≡ None →
            CountsAll decoder.old decoder.new self.old self.new result }
        ensures again { IfSome decoder.old.failure
            (λ f. RunsAfter f decoder.old decoder.new self.old self.new result) }
    {
        'frames: loop {
            match self.add_next(decoder) {
                Ok(true) => {}
                Ok(false) => return Ok(()),
                Err(error) => return Err(error),
            }
        }
    }

    /// What is kept of each schema that has events, in the order of their first events.
    pub fn schemas(&self) -> &[SchemaStats]
        ensures { result.now ≡ self.now.schemas.items }
    {
        self.schemas.as_slice()
    }

    // Counts the next frame too, where it is an event. Answers whether a frame stood there.
    fn add_next(&mut self, decoder: &mut Decoder<'_>) -> Result<bool, TryForEachError<StatsError>>
        ensures next { decoder.old.failure ≡ None →
            CountsNext decoder.old decoder.new self.old self.new result }
        ensures again { IfSome decoder.old.failure
            (λ f. FailsAgain f decoder.old decoder.new self.old self.new result) }
    {
        let before = Decoder::position(decoder);
        match decoder.next_frame() {
            Ok(Some(frame)) => {
                let bytes = Decoder::position(decoder).saturating_sub(before) as u64;
                match self.add_frame(&frame, decoder, bytes) {
                    Ok(()) => Ok(true),
                    Err(error) => Err(TryForEachError::User(error)),
                }
            }
            Ok(None) => Ok(false),
            Err(error) => Err(TryForEachError::Decode(error)),
        }
    }

    // Counts a frame of so many bytes too, where it is an event, with the schemas and the pools of a decoder.
    fn add_frame(
        &mut self,
        frame: &DecodedFrame,
        decoder: &Decoder<'_>,
        bytes: u64,
    ) -> Result<(), StatsError>
        ensures { CountsThese
            (map (λ e. counted_event e bytes) (events_in decoder.now.grammar.wire_types
            decoder.now.pools.strings decoder.now.pools.stacks (item_of frame.now)))
            self.old self.new result }
    {
        let (strings, stacks) = (decoder.string_pool(), decoder.stack_pool());
        match OwnedEvent::of_frame(frame, decoder.registry(), strings, stacks) {
            Some(event) => self.add_owned(&event, bytes),
            None => Ok(()),
        }
    }

    // Where a schema stands: at the end, of no events, where it is new.
    fn place_for(&mut self, id: WireTypeId, schema: &SchemaEntry) -> Result<usize, AllocError>
        ensures placed { IfOk result
            (FindsPlace schema.now self.old.schemas.items self.new.schemas.items) }
        ensures same { OnErr result (self.new.schemas.items ≡ self.old.schemas.items) }
        ensures unknown { OnErr result (HasNoPlace schema.now self.old.schemas.items) }
    {
        let guess = id.0 as usize % GUESSES;
        match place_of(self.schemas.as_slice(), self.guesses[guess], schema) {
            Some(place) => {
                self.guesses[guess] = place;
                Ok(place)
            }
            None => {
                let place = self.put_last(schema)?;
                self.guesses[guess] = place;
                Ok(place)
            }
        }
    }

    // Puts a schema in last, of no events, and answers its place.
    fn put_last(&mut self, schema: &SchemaEntry) -> Result<usize, AllocError>
        requires { HasNoPlace schema.now self.old.schemas.items }
        ensures placed { IfOk result
            (FindsPlace schema.now self.old.schemas.items self.new.schemas.items) }
        ensures same { OnErr result (self.new.schemas.items ≡ self.old.schemas.items) }
    {
        let place = self.schemas.len();
        self.schemas.reserve(1)?;
        let stats = SchemaStats::new(self.alloc, schema)?;
        self.schemas.push_reserved(stats);
        Ok(place)
    }
}

// Where a schema stands, if it does: at the guessed place, or elsewhere.
fn place_of(schemas: &[SchemaStats], guess: usize, schema: &SchemaEntry) -> Option<usize>
    ensures found { IfSome result (IsPlaceOf schema.now schemas.now) }
    ensures none { IfNone result (HasNoPlace schema.now schemas.now) }
{
    if guess < schemas.len() {
        if is_at(schemas, guess, schema) {
            return Some(guess);
        }
    }
    first_place(schemas, schema)
}

// The first place where a schema stands, if it does.
fn first_place(schemas: &[SchemaStats], schema: &SchemaEntry) -> Option<usize>
    ensures found { IfSome result (IsPlaceOf schema.now schemas.now) }
    ensures none { IfNone result (HasNoPlace schema.now schemas.now) }
{
    'places: for place in 0..schemas.len() {
        if is_at(schemas, place, schema) {
            return Some(place);
        }
    }
    None
}

// Whether a schema stands at a place.
fn is_at(schemas: &[SchemaStats], place: usize, schema: &SchemaEntry) -> bool
    requires { place < length schemas.now }
    ensures there { result ≡ true → IsPlaceOf schema.now schemas.now place }
    ensures other { result ≡ false → IsNoPlaceOf schema.now schemas.now place }
{
    schemas[place].is_of(schema)
}

// The answer of the statistics of a schema, as that of a trace's.
fn answer_of(counted: Result<(), Full>) -> Result<(), StatsError>
    ensures { result ≡ answer_of counted }
{
    match counted {
        Ok(()) => Ok(()),
        Err(Full) => Err(StatsError::Full),
    }
}
