//! A decoder that is fed a trace in two pieces, each growth of which is refused.

ghost use Rattle.std.specs.Prelude.{◌≡◌};
ghost use Rattle.hostile.specs.Answers.{fed_gave};

use crate::calls::feed;
use crate::refused::before::{Stood, Tables, what_stood};
use crate::refused::compact::{next_compact, pass_event, take_compact};
use crate::refused::heap::{refuse, was_refused};
use crate::refused::runs::{Reference, answer_of};
use crate::refused::sweep::Trial;
use crate::refused::verdict::Seen;
use dial9_trace_format::decoder::{DecodeError, DecodedFrame, FeedDecoder};
use reader_agreement::ends::{is_same_end, is_told};
use reader_agreement::runs::Run;
use reader_agreement::steps::{is_wanted, take_owned};
use std::alloc::Global;

/// By which calls it is fed.
#[derive(Clone, Copy)]
pub enum Form {
    /// `feed`.
    Feed,
    /// `push`, and `next_frame` until it gives nothing.
    Push,
    /// The same by `next_compact`.
    Compact,
    /// The same, where an event that stands whole is passed, and its values are left in the bytes.
    Passing,
}

/// All of them.
pub const FORMS: &[Form] = &[Form::Feed, Form::Push, Form::Compact, Form::Passing];

/// A trace that is fed in two pieces, cut at this place.
#[derive(Drop)]
pub struct Feeding<'r, 'b> {
    pub reference: &'r Reference<'b>,
    pub form: Form,
    pub place: usize,
}

impl Feeding<'_, '_> {
    /// Feeds the pieces.
    pub fn run(&self, decoder: &mut FeedDecoder) -> Run {
        let bytes = self.reference.bytes;
        let place = self.place.min(bytes.len());
        let mut run = Run::new();
        self.take(decoder, &bytes[..place], &mut run);
        if run.error.is_none() {
            self.take(decoder, &bytes[place..], &mut run);
        }
        run
    }

    fn take(&self, decoder: &mut FeedDecoder, piece: &[u8], run: &mut Run) {
        match self.form {
            Form::Feed => self.feed(decoder, piece, run),
            _ => self.push(decoder, piece, run),
        }
    }

    fn feed(&self, decoder: &mut FeedDecoder, piece: &[u8], run: &mut Run) {
        match feed(decoder, piece) {
            Ok(frames) => self.give_all(&frames, run),
            Err(error) => run.fail(error),
        }
    }

    fn give_all(&self, frames: &[DecodedFrame], run: &mut Run) {
        for frame in frames {
            let wanted = self.reference.owned.frames.get(run.given);
            run.give(is_wanted(wanted, frame));
        }
    }

    fn push(&self, decoder: &mut FeedDecoder, piece: &[u8], run: &mut Run) {
        if let Err(error) = push(decoder, piece) {
            run.fail(error);
            return;
        }
        for _ in 0..=self.reference.bytes.len() {
            if !self.pull(decoder, run) {
                return;
            }
        }
    }

    /// Takes the next frame. Whether there was one.
    fn pull(&self, decoder: &mut FeedDecoder, run: &mut Run) -> bool {
        let frame = self.reference.owned.frames.get(run.given);
        match self.form {
            Form::Feed | Form::Push => take_owned(run, frame, next_fed(decoder)),
            Form::Compact => take_compact(run, frame, next_compact(decoder)),
            Form::Passing => {
                pass_event(decoder, self.reference.bytes, frame, run)
                    || take_compact(run, frame, next_compact(decoder))
            }
        }
    }
}

/// `FeedDecoder::push`.
pub fn push(decoder: &mut FeedDecoder, piece: &[u8]) -> Result<(), DecodeError> {
    decoder.push(piece)
}

/// `FeedDecoder::next_frame`.
pub fn next_fed(decoder: &mut FeedDecoder) -> Result<Option<DecodedFrame>, DecodeError> {
    decoder.next_frame()
}

impl Trial for Feeding<'_, '_> {
    fn seen(&self, alloc: Global, number: u32) -> Seen {
        let whole = self.whole(alloc);
        let mut decoder = FeedDecoder::new(alloc);
        refuse(alloc, number);
        let run = self.run(&mut decoder);
        let refused = was_refused(alloc);
        Seen {
            refused,
            answer: answer_of(&run, &whole),
            right: self.is_right(alloc, &run, &mut decoder),
        }
    }
}

impl Feeding<'_, '_> {
    /// What is given where no growth is refused.
    fn whole(&self, alloc: Global) -> Run {
        self.run(&mut FeedDecoder::new(alloc))
    }

    /// Whether what was given was right; and where memory was wanting, the decoder stands where the error says, has the
    /// tables that it had there, and answers that error from then on.
    fn is_right(&self, alloc: Global, run: &Run, decoder: &mut FeedDecoder) -> bool {
        let Some(error) = run.want_of_memory() else {
            return run.same;
        };
        let stood = what_stood(alloc, self.reference, error.pos, tables_of(decoder));
        let counted = self.gave(run.given, stood);
        run.same & counted & stays_failed(decoder, &error)
    }

    /// Whether as many frames were given as stood before the place where it failed, or fewer where pieces are fed.
    fn gave(&self, given: usize, stood: Option<Stood>) -> bool
        ensures { result ≡ fed_gave self.now.form given stood }
    {
        match (self.form, stood) {
            (Form::Feed, Some(stood)) => given <= stood.frames,
            (_, Some(stood)) => given == stood.frames,
            (_, None) => false,
        }
    }
}

fn tables_of(decoder: &FeedDecoder) -> Tables<'_> {
    Tables {
        schemas: decoder.registry(),
        texts: decoder.string_pool(),
        stacks: decoder.stack_pool(),
    }
}

/// Whether each call answers this error, and the position stays.
fn stays_failed(decoder: &mut FeedDecoder, error: &DecodeError) -> bool {
    let mut told = is_same_end(&decoder.fault().copied(), &Some(*error));
    told &= is_told(feed(decoder, &[7]), error);
    told &= is_told(push(decoder, &[]), error);
    told &= is_told(next_fed(decoder), error);
    told &= is_told(next_compact(decoder), error) & decoder.whole_event().is_none();
    told & (decoder.position() == error.pos)
}
