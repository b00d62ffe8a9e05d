//! Lists of calls, each growth of which is refused.

ghost use Rattle.std.specs.Prelude.{◌≡◌, ◌↔◌, IsTrue};
ghost use Rattle.trace_values.specs.declared.leb128.error.EncodeError.TheVariants as errors;
ghost use Rattle.dial9_trace_format.specs.Words.{Refused};

use crate::refused::asks::make_call;
use crate::refused::encoding::{is_at, over_array};
use crate::refused::heap::{refuse, was_refused};
use crate::refused::plan::HEADER;
use crate::refused::sweep::{LACKING, Trial};
use crate::refused::verdict::{Answer, Seen};
use dial9_trace_format::encoder::{Call, Encoder, Reply, run_calls};
use dial9_trace_format::leb128::EncodeError;
use std::alloc::{AllocError, Global};
use trace_samples::Told;

/// A list of calls, and what it answers and writes where no growth is refused.
#[derive(Drop)]
pub struct Listed {
    pub calls: Vec<Call>,
    replies: Vec<Reply>,
    bytes: Vec<u8>,
}

/// What the list answers and writes.
pub fn list_of(alloc: Global, calls: Vec<Call>) -> Result<Listed, AllocError> {
    let (replies, bytes) = run_in_array(alloc, &calls)?;
    Ok(Listed {
        calls,
        replies,
        bytes,
    })
}

fn run_in_array(alloc: Global, calls: &[Call]) -> Result<(Vec<Reply>, Vec<u8>), AllocError> {
    let mut encoder = over_array(alloc)?;
    run_all(alloc, &mut encoder, calls)
}

/// What the calls answer, and what is written then.
pub fn run_all(
    alloc: Global,
    encoder: &mut Encoder<Told>,
    calls: &[Call],
) -> Result<(Vec<Reply>, Vec<u8>), AllocError> {
    let replies = run_calls(alloc, encoder, calls)?;
    let written = Vec::from_slice(alloc, encoder.as_inner().bytes())?;
    Ok((replies, written))
}

/// The list is run over an array. Where there is no room for its replies nothing was run. A growth that is refused
/// later is the reply of its call, and all others are answered as without that call.
impl Trial for Listed {
    fn seen(&self, alloc: Global, number: u32) -> Seen {
        match over_array(alloc) {
            Ok(mut encoder) => self.seen_by(alloc, number, &mut encoder),
            Err(_) => LACKING,
        }
    }
}

impl Listed {
    fn seen_by(&self, alloc: Global, number: u32, encoder: &mut Encoder<Told>) -> Seen {
        refuse(alloc, number);
        let told = run_calls(alloc, encoder, &self.calls);
        let refused = was_refused(alloc);
        let (answer, right) = match told {
            Ok(replies) => self.what_ran(alloc, &replies, encoder),
            Err(_) => (Answer::Memory, self.runs_now(alloc, encoder)),
        };
        Seen {
            refused,
            answer,
            right,
        }
    }

    /// Whether nothing was run, and all is now.
    fn runs_now(&self, alloc: Global, encoder: &mut Encoder<Told>) -> bool {
        let kept = is_at(encoder, &self.bytes, HEADER);
        kept & self.runs(alloc, encoder) & self.is_whole(encoder)
    }

    fn runs(&self, alloc: Global, encoder: &mut Encoder<Told>) -> bool {
        match run_calls(alloc, encoder, &self.calls) {
            Ok(replies) => replies == self.replies,
            Err(_) => false,
        }
    }

    /// What the replies are; and whether all is written where they are those of the list, and else all but one call.
    fn what_ran(
        &self,
        alloc: Global,
        replies: &[Reply],
        encoder: &Encoder<Told>,
    ) -> (Answer, bool) {
        if replies == self.replies.as_slice() {
            (Answer::Same, self.is_whole(encoder))
        } else {
            (Answer::Memory, self.leaves_one_out(alloc, replies, encoder))
        }
    }

    /// Whether the encoder has written all.
    fn is_whole(&self, encoder: &Encoder<Told>) -> bool {
        is_at(encoder, &self.bytes, self.bytes.len())
    }

    /// Whether one reply is a refusal for want of memory, and all others, and the bytes, are those of the other calls.
    fn leaves_one_out(&self, alloc: Global, replies: &[Reply], encoder: &Encoder<Told>) -> bool {
        let Some(left_out) = replies.iter().position(is_lack) else {
            return false;
        };
        match over_array(alloc) {
            Ok(mut other) => {
                let answered = self.answers_others(&mut other, replies, left_out);
                answered & has_written(encoder, &other)
            }
            Err(_) => false,
        }
    }

    /// Makes all calls but one, and answers whether each has its reply among these, which are as many as the calls.
    fn answers_others(
        &self,
        encoder: &mut Encoder<Told>,
        replies: &[Reply],
        left_out: usize,
    ) -> bool {
        let mut right = replies.len() == self.calls.len();
        for (index, (call, reply)) in self.calls.iter().zip(replies).enumerate() {
            right &= index == left_out || make_call(encoder, call) == *reply;
        }
        right
    }
}

/// Whether both have written the same.
fn has_written(encoder: &Encoder<Told>, other: &Encoder<Told>) -> bool {
    let written = other.as_inner().bytes();
    is_at(encoder, written, written.len())
}

/// Whether a call was refused for want of memory.
fn is_lack(reply: &Reply) -> bool
    ensures { IsTrue result ↔ (reply.now ≡ Refused errors.OutOfMemory) }
{
    match reply {
        Reply::Refused(error) => *error == EncodeError::OutOfMemory,
        _ => false,
    }
}
