//! What each reader gives of a trace, up to its end.

ghost use Rattle.std.specs.Prelude.{◌≡◌, ◌↔◌};
ghost use Rattle.hostile.specs.Answers.{EndsByWant};
ghost use Rattle.hostile.specs.declared.refused.verdict.Answer.TheVariants as answers;

use crate::calls::{
    all_borrowed, all_owned, decoder_of, next_borrowed, next_into, next_owned, next_ref_into, show,
    step, step_events, visit,
};
use crate::changed::reading::{read_borrowed, read_owned};
use crate::refused::verdict::Answer;
use dial9_trace_format::decoder::{
    DecodeError, DecodedFrame, DecodedFrameRef, Decoder, EventSink, EventVisitor, RawEvent,
    TryForEachError,
};
use dial9_trace_format::types::{FieldValue, FieldValueRef};
use reader_agreement::any_event::is_any_event;
use reader_agreement::events::{is_event, is_event_ref, is_shown};
use reader_agreement::frames::{Borrowed, Owned};
use reader_agreement::readings::{are_same_frames, are_same_refs};
use reader_agreement::runs::Run;
use reader_agreement::steps::{take_borrowed, take_item, take_owned};
use std::alloc::{AllocError, Global};

/// A reader of a whole trace.
#[derive(Clone, Copy)]
pub enum Reader {
    /// `next_frame`.
    Owned,
    /// `next_frame_ref`.
    Borrowed,
    /// The iterator over frames.
    Frames,
    /// The iterator over events.
    Events,
    /// `decode_all`.
    AllOwned,
    /// `decode_all_ref`.
    AllBorrowed,
    /// `try_for_each_event`.
    Sink,
    /// `for_each_event`.
    Visitor,
    /// `next_event_into`.
    Into,
    /// `next_event_ref_into`.
    RefInto,
}

/// All of them.
pub const READERS: &[Reader] = &[
    Reader::Owned,
    Reader::Borrowed,
    Reader::Frames,
    Reader::Events,
    Reader::AllOwned,
    Reader::AllBorrowed,
    Reader::Sink,
    Reader::Visitor,
    Reader::Into,
    Reader::RefInto,
];

/// What a trace gives where no growth is refused.
#[derive(Drop)]
pub struct Reference<'b> {
    pub bytes: &'b [u8],
    pub owned: Owned,
    pub borrowed: Borrowed<'b>,
    /// At which indexes of the frames the events are.
    pub events: Vec<usize>,
}

/// What the bytes give, if a header stands at their front.
pub fn reference_of(alloc: Global, bytes: &[u8]) -> Result<Option<Reference<'_>>, AllocError> {
    match Decoder::new(alloc, bytes) {
        Some(decoder) => match reference_by(alloc, bytes, decoder) {
            Ok(reference) => Ok(Some(reference)),
            Err(error) => Err(error),
        },
        None => Ok(None),
    }
}

fn reference_by<'b>(
    alloc: Global,
    bytes: &'b [u8],
    decoder: Decoder<'b>,
) -> Result<Reference<'b>, AllocError> {
    let borrowed = read_borrowed(alloc, decoder_of(alloc, bytes)?)?;
    let owned = read_owned(alloc, decoder)?;
    let events = indexes_of_events(alloc, &owned.frames)?;
    Ok(Reference {
        bytes,
        owned,
        borrowed,
        events,
    })
}

fn indexes_of_events(alloc: Global, frames: &[DecodedFrame]) -> Result<Vec<usize>, AllocError> {
    let mut indexes = Vec::new(alloc);
    for (index, frame) in frames.iter().enumerate() {
        if is_any_event(frame) {
            indexes.push(index)?;
        }
    }
    Ok(indexes)
}

/// The answer of a run, beside that of one that met no refusal.
pub fn answer_of(run: &Run, whole: &Run) -> Answer
    ensures memory { (result ≡ answers.Memory) ↔ EndsByWant run.now.error }
    ensures same { (result ≡ answers.Same) ↔ ((EndsByWant run.now.error → ⊥)
        × (run.now.given ≡ whole.now.given) × (run.now.error ≡ whole.now.error)) }
{
    if run.want_of_memory().is_some() {
        Answer::Memory
    } else if run.is_as(whole) {
        Answer::Same
    } else {
        Answer::Other
    }
}

/// Compares each event that it is shown with that of the reference, and takes no memory.
#[derive(Drop)]
pub struct Comparing<'r, 'b> {
    pub reference: &'r Reference<'b>,
    pub run: Run,
}

impl<'r, 'b> Comparing<'r, 'b> {
    fn take(&mut self, event: &RawEvent<'b, '_>) {
        let same = is_shown(self.reference.borrowed_event(self.run.given), event);
        self.run.give(same);
    }
}

impl<'r, 'b> EventSink<'b, ()> for Comparing<'r, 'b> {
    ghost step = { λ _ _ _ _. Unit {0} };

    fn event(&mut self, event: &RawEvent<'b, '_>) -> Result<(), ()> {
        self.take(event);
        Ok(())
    }
}

impl<'r, 'b> EventVisitor<'b> for Comparing<'r, 'b> {
    ghost step = { λ _ _ _. Unit {0} };

    fn event(&mut self, event: &RawEvent<'b, '_>) {
        self.take(event);
    }
}

impl<'b> Reference<'b> {
    /// Has the reader read the trace to its end.
    pub fn run(&self, reader: Reader, decoder: &mut Decoder<'b>) -> Run {
        match reader {
            Reader::AllOwned => self.run_all_owned(decoder),
            Reader::AllBorrowed => self.run_all_borrowed(decoder),
            Reader::Sink => self.run_sink(decoder),
            Reader::Visitor => self.run_visitor(decoder),
            Reader::Into => self.run_into(decoder),
            Reader::RefInto => self.run_ref_into(decoder),
            _ => self.run_steps(reader, decoder),
        }
    }

    /// The event of this index.
    fn event(&self, index: usize) -> Option<&DecodedFrame> {
        self.owned.frames.get(*self.events.get(index)?)
    }

    /// The same whose values stay in the bytes.
    fn borrowed_event(&self, index: usize) -> Option<&DecodedFrameRef<'b>> {
        self.borrowed.frames.get(*self.events.get(index)?)
    }

    fn run_all_owned(&self, decoder: &mut Decoder<'b>) -> Run {
        match all_owned(decoder) {
            Ok(frames) => given(frames.len(), are_same_frames(&frames, &self.owned.frames)),
            Err(error) => Run::new().ended(Some(error)),
        }
    }

    fn run_all_borrowed(&self, decoder: &mut Decoder<'b>) -> Run {
        match all_borrowed(decoder) {
            Ok(frames) => given(frames.len(), are_same_refs(&frames, &self.borrowed.frames)),
            Err(error) => Run::new().ended(Some(error)),
        }
    }

    fn run_sink(&self, decoder: &mut Decoder<'b>) -> Run {
        let mut sink = self.comparing();
        let error = error_of(show(decoder, &mut sink));
        sink.run.ended(error)
    }

    fn run_visitor(&self, decoder: &mut Decoder<'b>) -> Run {
        let mut visitor = self.comparing();
        let error = visit(decoder, &mut visitor).err();
        visitor.run.ended(error)
    }

    /// What compares events with these.
    pub fn comparing(&self) -> Comparing<'_, 'b> {
        Comparing {
            reference: self,
            run: Run::new(),
        }
    }

    /// Events whose values are put into one list, which is empty where none is given.
    fn run_into(&self, decoder: &mut Decoder<'b>) -> Run {
        let mut run = Run::new();
        let mut values = Vec::new(*self.events.allocator());
        for _ in 0..=self.bytes.len() {
            if !self.step_into(decoder, &mut values, &mut run) {
                break;
            }
        }
        run.same &= values.is_empty();
        run
    }

    /// The same of values that stay in the bytes.
    fn run_ref_into(&self, decoder: &mut Decoder<'b>) -> Run {
        let mut run = Run::new();
        let mut values = Vec::new(*self.events.allocator());
        for _ in 0..=self.bytes.len() {
            if !self.step_ref_into(decoder, &mut values, &mut run) {
                break;
            }
        }
        run.same &= values.is_empty();
        run
    }

    /// Whether there is an event, which is that of the reference.
    fn step_into(
        &self,
        decoder: &mut Decoder<'b>,
        values: &mut Vec<FieldValue>,
        run: &mut Run,
    ) -> bool {
        match next_into(decoder, values) {
            Ok(Some(head)) => {
                let same = is_event(self.event(run.given), head, values);
                run.give(same);
                true
            }
            Ok(None) => false,
            Err(error) => {
                run.fail(error);
                false
            }
        }
    }

    /// The same of values that stay in the bytes.
    fn step_ref_into(
        &self,
        decoder: &mut Decoder<'b>,
        values: &mut Vec<FieldValueRef<'b>>,
        run: &mut Run,
    ) -> bool {
        match next_ref_into(decoder, values) {
            Ok(Some(head)) => {
                let same = is_event_ref(self.borrowed_event(run.given), head, values);
                run.give(same);
                true
            }
            Ok(None) => false,
            Err(error) => {
                run.fail(error);
                false
            }
        }
    }

    /// Frames and events that are given one by one.
    fn run_steps(&self, reader: Reader, decoder: &mut Decoder<'b>) -> Run {
        let mut run = Run::new();
        for _ in 0..=self.bytes.len() {
            if !self.step(reader, decoder, &mut run) {
                break;
            }
        }
        run
    }

    /// Whether there may be more.
    fn step(&self, reader: Reader, decoder: &mut Decoder<'b>, run: &mut Run) -> bool {
        match reader {
            Reader::Owned => {
                let frame = self.owned.frames.get(run.given);
                take_owned(run, frame, next_owned(decoder))
            }
            Reader::Borrowed => {
                let frame = self.borrowed.frames.get(run.given);
                take_borrowed(run, frame, next_borrowed(decoder))
            }
            Reader::Frames => {
                let frame = self.borrowed.frames.get(run.given);
                take_item(run, frame, step(decoder))
            }
            _ => {
                let event = self.borrowed_event(run.given);
                take_item(run, event, step_events(decoder))
            }
        }
    }
}

/// The error that a sink's reader told, if it did.
fn error_of(answer: Result<(), TryForEachError<()>>) -> Option<DecodeError> {
    match answer {
        Err(TryForEachError::Decode(error)) => Some(error),
        _ => None,
    }
}

fn given(count: usize, same: bool) -> Run {
    Run {
        given: count,
        same,
        error: None,
    }
}
