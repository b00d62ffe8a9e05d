//! Calls of an encoder, each growth of which is refused: over an array and over a list that grows.

ghost use Rattle.std.specs.Prelude.{◌≡◌, ◌↔◌, ◌≤◌, IsTrue, length, take};
ghost use Rattle.std.specs.declared.io.ErrorKind.TheVariants as kinds;
ghost use Rattle.trace_values.specs.declared.leb128.error.EncodeError.TheVariants as errors;
ghost use Rattle.dial9_trace_format.specs.Words.{Refused};

use crate::refused::asks::make;
use crate::refused::heap::{refuse, was_refused};
use crate::refused::plan::{HEADER, Plan, Planned, all_fail, fails, new_encoder, plays, replies};
use crate::refused::sweep::{LACKING, Trial};
use crate::refused::verdict::{Answer, Seen};
use dial9_trace_format::encoder::{Encoder, Reply};
use dial9_trace_format::leb128::EncodeError;
use std::alloc::{AllocError, Global};
use std::hash::RandomState;
use std::io::ErrorKind;
use trace_samples::{Manner, Told};

/// What a writer that is a list tells where it does not grow.
const FULL: EncodeError = EncodeError::Writer(ErrorKind::OutOfMemory);

/// One call of a plan: those before it, the call, and those after it; and how the encoder hashes.
#[derive(Clone, Copy)]
pub struct Turn<'p> {
    hashing: Hashing,
    plan: &'p Plan,
    before: &'p [Planned],
    call: &'p Planned,
    after: &'p [Planned],
}

/// By which hashes an encoder finds what it knows.
#[derive(Clone, Copy)]
pub enum Hashing {
    /// Those of the fixed seed.
    Fixed,
    /// Those of a state of the caller's.
    Seeded(RandomState),
}

/// The call of this index, if the plan has it.
pub fn turn_of(plan: &Plan, index: usize, hashing: Hashing) -> Option<Turn<'_>> {
    let before = plan.calls.get(..index)?;
    let (call, after) = plan.calls.get(index..)?.split_first()?;
    Some(Turn {
        hashing,
        plan,
        before,
        call,
        after,
    })
}

/// What a reply is beside the one that is wanted.
fn answer_of(reply: &Reply, wanted: &Reply) -> Answer {
    if *reply == *wanted {
        return Answer::Same;
    }
    match reply {
        Reply::Refused(EncodeError::OutOfMemory) => Answer::Memory,
        _ => Answer::Other,
    }
}

/// Whether a call was told that the list did not grow.
fn is_full(reply: &Reply) -> bool
    ensures { IsTrue result ↔ (reply.now ≡ Refused (errors.Writer kinds.OutOfMemory)) }
{
    *reply == Reply::Refused(FULL)
}

/// An encoder over an array, which takes no memory. `AllocError` where a growth was refused.
pub fn over_array(alloc: Global) -> Result<Encoder<Told>, AllocError> {
    match Encoder::new_to(alloc, Told::new(Manner::SOUND)) {
        Ok(encoder) => Ok(encoder),
        Err(_) => Err(AllocError),
    }
}

/// The same that hashes so.
pub fn over_array_by(alloc: Global, hashing: Hashing) -> Result<Encoder<Told>, AllocError> {
    let Hashing::Seeded(state) = hashing else {
        return over_array(alloc);
    };
    match Encoder::new_to_with_hasher(alloc, Told::new(Manner::SOUND), state) {
        Ok(encoder) => Ok(encoder),
        Err(_) => Err(AllocError),
    }
}

/// An encoder over a list, which hashes so. `AllocError` where a growth was refused.
fn new_encoder_by(alloc: Global, hashing: Hashing) -> Result<Encoder, AllocError> {
    let Hashing::Seeded(state) = hashing else {
        return new_encoder(alloc);
    };
    match Encoder::new_with_hasher(alloc, state) {
        Ok(encoder) => Ok(encoder),
        Err(_) => Err(AllocError),
    }
}

/// Whether the encoder has written so many bytes of these.
pub fn is_at(encoder: &Encoder<Told>, bytes: &[u8], count: usize) -> bool
    ensures { IsTrue result ↔ ((encoder.now.state.count ≡ count) × (count ≤ length bytes.now)
        × (encoder.now.writer.bytes ≡ take count bytes.now)) }
{
    let counted = encoder.bytes_written() == count as u64;
    counted & (bytes.get(..count) == Some(encoder.as_inner().bytes()))
}

/// The call is made over an array. After a refusal all is as before, and the call made again gives what it would have
/// given, as do the calls after it.
#[derive(Drop)]
pub struct InArray<'p>(pub Turn<'p>);

impl Trial for InArray<'_> {
    fn seen(&self, alloc: Global, number: u32) -> Seen {
        match over_array_by(alloc, self.0.hashing) {
            Ok(mut encoder) => self.0.seen_in_array(alloc, number, &mut encoder),
            Err(_) => LACKING,
        }
    }
}

/// The call is made over a list that grows. Where the call finds no memory all is as before; where the list does not
/// grow, a front of the call's bytes went out, and the encoder has failed until it is given another list.
#[derive(Drop)]
pub struct InList<'p>(pub Turn<'p>);

impl Trial for InList<'_> {
    fn seen(&self, alloc: Global, number: u32) -> Seen {
        match new_encoder_by(alloc, self.0.hashing) {
            Ok(mut encoder) => self.0.seen_in_list(alloc, number, &mut encoder),
            Err(_) => LACKING,
        }
    }
}

/// Whether the encoder has written a front of these bytes, and how many lies between these bounds.
fn is_written(encoder: &Encoder, bytes: &[u8], least: usize, most: usize) -> bool {
    let written = encoder.as_inner().as_slice();
    let counted = encoder.bytes_written() == written.len() as u64;
    let bounded = (least <= written.len()) & (written.len() <= most);
    bytes.starts_with(written) & bounded & counted
}

impl Turn<'_> {
    /// Whether the plan has no more bytes than this.
    pub fn fits(&self, room: usize) -> bool {
        self.plan.bytes.len() <= room
    }

    fn seen_in_array(&self, alloc: Global, number: u32, encoder: &mut Encoder<Told>) -> Seen {
        let before = plays(encoder, self.before);
        refuse(alloc, number);
        let reply = make(encoder, &self.call.ask);
        let refused = was_refused(alloc);
        let answer = answer_of(&reply, &self.call.reply);
        let made = answer != Answer::Memory || self.is_made_again(encoder);
        Seen {
            refused,
            answer,
            right: before & made & self.is_ended(encoder),
        }
    }

    fn seen_in_list(&self, alloc: Global, number: u32, encoder: &mut Encoder) -> Seen {
        let before = plays(encoder, self.before);
        refuse(alloc, number);
        let reply = make(encoder, &self.call.ask);
        let refused = was_refused(alloc);
        let (answer, after) = self.what_follows(alloc, encoder, &reply);
        let whole = encoder.as_inner().as_slice() == self.plan.bytes.as_slice();
        Seen {
            refused,
            answer,
            right: before & after & whole,
        }
    }

    /// What a reply over a list is, and whether what follows is as it should be.
    fn what_follows(&self, alloc: Global, encoder: &mut Encoder, reply: &Reply) -> (Answer, bool) {
        if is_full(reply) {
            return (Answer::Memory, self.fails_and_begins_again(alloc, encoder));
        }
        let answer = answer_of(reply, &self.call.reply);
        (answer, self.goes_on(encoder, answer))
    }

    /// Whether nothing was sent, and the call made again gives what it would have given.
    fn is_made_again(&self, encoder: &mut Encoder<Told>) -> bool {
        let kept = is_at(encoder, &self.plan.bytes, self.call.start);
        kept & replies(encoder, self.call)
    }

    /// Whether the call's bytes are out, and those of the calls after it once they are made, which are answered so.
    fn is_ended(&self, encoder: &mut Encoder<Told>) -> bool {
        let bytes = &self.plan.bytes;
        let called = is_at(encoder, bytes, self.call.end);
        let played = plays(encoder, self.after);
        called & played & is_at(encoder, bytes, bytes.len())
    }

    /// Whether all is as before where the call found no memory, and it and the calls after it are answered as they
    /// should be.
    fn goes_on(&self, encoder: &mut Encoder, answer: Answer) -> bool {
        let made = answer != Answer::Memory || self.is_written_again(encoder);
        plays(encoder, self.after) & made
    }

    /// Whether nothing was written, and the call made again gives what it would have given.
    fn is_written_again(&self, encoder: &mut Encoder) -> bool {
        let start = self.call.start;
        let kept = is_written(encoder, &self.plan.bytes, start, start);
        kept & replies(encoder, self.call)
    }

    /// Whether a front of the call's bytes is out, the call and all after it are told that the encoder has failed, and
    /// all calls are answered as they should be once it writes to another list.
    fn fails_and_begins_again(&self, alloc: Global, encoder: &mut Encoder) -> bool {
        let front = is_written(encoder, &self.plan.bytes, self.call.start, self.call.end);
        let failed = self.stays_failed(encoder);
        let kept = is_written(encoder, &self.plan.bytes, self.call.start, self.call.end);
        let reset = encoder.reset_to(Vec::new(alloc)).is_ok();
        let begun = encoder.as_inner().len() == HEADER;
        front & failed & kept & reset & begun & plays(encoder, &self.plan.calls)
    }

    /// Whether the call, all after it and all before it are told that the encoder has failed.
    fn stays_failed(&self, encoder: &mut Encoder) -> bool {
        let again = fails(encoder, self.call);
        let after = all_fail(encoder, self.after);
        again & after & all_fail(encoder, self.before)
    }
}
