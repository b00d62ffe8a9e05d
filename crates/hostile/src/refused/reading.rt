//! Readers of a trace, each growth of which is refused.

ghost use Rattle.std.specs.Prelude.{◌≡◌};
ghost use Rattle.hostile.specs.Answers.{gave_by};

use crate::calls::{
    all_borrowed, all_owned, decoder_of, next_borrowed, next_into, next_owned, next_ref_into,
    place_of, show, step, step_events, visit,
};
use crate::refused::before::{Stood, Tables, what_stood};
use crate::refused::heap::{refuse, was_refused};
use crate::refused::runs::{Reader, Reference, answer_of};
use crate::refused::sweep::{LACKING, Trial};
use crate::refused::verdict::Seen;
use dial9_trace_format::decoder::{DecodeError, Decoder};
use dial9_trace_format::leb128::EncodeError;
use dial9_trace_format::types::{FieldValue, FieldValueRef};
use reader_agreement::causes::is_told_to_sink;
use reader_agreement::ends::is_told;
use reader_agreement::runs::Run;
use std::alloc::Global;

/// A trace that a reader reads.
#[derive(Drop)]
pub struct Reading<'r, 'b> {
    pub reference: &'r Reference<'b>,
    pub reader: Reader,
    /// What it gives where no growth is refused.
    pub whole: Run,
}

impl Trial for Reading<'_, '_> {
    fn seen(&self, alloc: Global, number: u32) -> Seen {
        match decoder_of(alloc, self.reference.bytes) {
            Ok(decoder) => self.seen_by(alloc, number, decoder),
            Err(_) => LACKING,
        }
    }
}

impl<'b> Reading<'_, 'b> {
    fn seen_by(&self, alloc: Global, number: u32, mut decoder: Decoder<'b>) -> Seen {
        refuse(alloc, number);
        let run = self.reference.run(self.reader, &mut decoder);
        let refused = was_refused(alloc);
        let right = self.is_right(alloc, &run, &mut decoder);
        let no_encoder = run.want_of_memory().is_none() || makes_no_encoder(alloc, decoder);
        Seen {
            refused,
            answer: answer_of(&run, &self.whole),
            right: right & no_encoder,
        }
    }

    /// Whether what was given was right, and the decoder has failed where memory was wanting.
    fn is_right(&self, alloc: Global, run: &Run, decoder: &mut Decoder<'b>) -> bool {
        match run.want_of_memory() {
            Some(error) => self.has_failed(alloc, decoder, run.given, error) & run.same,
            None => run.same,
        }
    }

    /// Whether the decoder stands where the error says, has the tables that it had there, and answers that error from
    /// then on.
    fn has_failed(
        &self,
        alloc: Global,
        decoder: &mut Decoder<'b>,
        given: usize,
        error: DecodeError,
    ) -> bool {
        let stood = what_stood(alloc, self.reference, error.pos, tables_of(decoder));
        let counted = gave(self.reader, given, stood);
        let failed = stays_failed(decoder, &error) & self.shows_nothing(decoder, &error);
        let no_events = gives_no_event(alloc, decoder, &error);
        let no_refs = gives_no_event_ref(alloc, decoder, &error);
        let stays = place_of(decoder) == error.pos;
        counted & failed & no_events & no_refs & stays & has_ended(self.reader, decoder)
    }

    /// Whether a sink and a visitor are shown nothing, and this error is answered.
    fn shows_nothing(&self, decoder: &mut Decoder<'b>, error: &DecodeError) -> bool {
        let mut sink = self.reference.comparing();
        let shown = is_told_to_sink(show(decoder, &mut sink), error);
        let visited = is_told(visit(decoder, &mut sink), error);
        shown & visited & (sink.run.given == 0)
    }
}

fn tables_of<'t>(decoder: &'t Decoder<'_>) -> Tables<'t> {
    Tables {
        schemas: decoder.registry(),
        texts: decoder.string_pool(),
        stacks: decoder.stack_pool(),
    }
}

/// Whether the reader gave as many as stood before the place where it failed.
fn gave(reader: Reader, given: usize, stood: Option<Stood>) -> bool
    ensures { result ≡ gave_by reader given stood }
{
    let Some(stood) = stood else {
        return false;
    };
    match reader {
        Reader::AllOwned | Reader::AllBorrowed => true,
        Reader::Owned | Reader::Borrowed | Reader::Frames => stood.frames == given,
        _ => stood.events == given,
    }
}

/// Whether an iterator that gave its error gives no more.
fn has_ended(reader: Reader, decoder: &mut Decoder<'_>) -> bool {
    match reader {
        Reader::Frames | Reader::Events => gives_no_more(decoder),
        _ => true,
    }
}

fn gives_no_more(decoder: &mut Decoder<'_>) -> bool {
    step(decoder).is_none() & step_events(decoder).is_none()
}

fn makes_no_encoder(alloc: Global, decoder: Decoder<'_>) -> bool {
    match decoder.into_encoder(Vec::new(alloc)) {
        Err(error) => error == EncodeError::Failed,
        Ok(_) => false,
    }
}

/// Whether each call answers this error, and the position stays.
fn stays_failed(decoder: &mut Decoder<'_>, error: &DecodeError) -> bool {
    let one = is_told(next_owned(decoder), error) & is_told(next_borrowed(decoder), error);
    let all = is_told(all_owned(decoder), error) & is_told(all_borrowed(decoder), error);
    one & all & (place_of(decoder) == error.pos)
}

/// Whether a call that puts an event into a list answers this error, and empties the list.
fn gives_no_event(alloc: Global, decoder: &mut Decoder<'_>, error: &DecodeError) -> bool {
    match vec![in alloc; FieldValue::None] {
        Ok(mut values) => is_told(next_into(decoder, &mut values), error) & values.is_empty(),
        Err(_) => false,
    }
}

/// The same of values that stay in the bytes.
fn gives_no_event_ref(alloc: Global, decoder: &mut Decoder<'_>, error: &DecodeError) -> bool {
    match vec![in alloc; FieldValueRef::None] {
        Ok(mut values) => is_told(next_ref_into(decoder, &mut values), error) & values.is_empty(),
        Err(_) => false,
    }
}
