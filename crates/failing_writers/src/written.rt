//! A worked trace, written over a writer that fails.

use crate::breaking::{Breaking, Fault, Manner};
use crate::wanted::{answer_of, failing_call, kind_of, written_after};
use dial9_trace_format::encoder::{Call, Encoder, Reply, run_calls};
use dial9_trace_format::leb128::{EncodeError, Plain};
use std::alloc::{AllocError, Global};
use std::io::ErrorKind;
use worked_traces::{Step, Worked, bytes_of, calls_of, ends_of, make, parts_of};

/// By what calls a trace is written.
#[derive(Clone, Copy, PartialEq, Eq, Debug)]
pub enum Way {
    /// One after another.
    Single,
    /// By lists of calls.
    Listed,
}

/// Whether all is as it should be where the trace is written over a writer of this manner: which call fails, by which
/// answer, how many bytes are counted and which are out, and what comes afterwards.
pub fn is_right(
    alloc: Global,
    worked: Worked,
    manner: Manner,
    way: Way,
) -> Result<bool, AllocError> {
    let (bytes, ends) = (bytes_of(worked), ends_of(worked));
    let mut writer = Breaking::new(alloc, manner);
    let mut before = 0;
    let mut index: usize = 0;
    for steps in parts_of(alloc, worked)? {
        let Some(ends) = ends.get(index) else {
            return Ok(false);
        };
        let Some(end) = ends.last() else {
            return Ok(false);
        };
        let part = Part {
            bytes,
            ends,
            before,
            manner,
        };
        let mut next = Breaking::new(alloc, SOUND);
        let (first, second) = (Plain(&mut writer), Plain(&mut next));
        let right = match way {
            Way::Single => part.is_right_by_calls(alloc, first, second, &steps)?,
            Way::Listed => {
                part.is_right_by_list(alloc, first, second, &calls_of(alloc, steps)?)?
            }
        };
        if !right {
            return Ok(false);
        }
        if failing_call(ends, manner.place).is_some() {
            break;
        }
        before = *end;
        index = index.saturating_add(1);
    }
    let sent = bytes.get(..manner.place).unwrap_or(bytes);
    Ok(writer.bytes.as_slice() == sent)
}

/// What one encoder writes of a trace.
#[derive(Clone, Copy)]
struct Part<'e> {
    /// The bytes of the whole trace.
    bytes: &'static [u8],
    /// How many bytes there are once it was made, and after each call.
    ends: &'e [usize],
    /// How many there were before.
    before: usize,
    manner: Manner,
}

impl Part<'_> {
    fn failing(self) -> Option<usize> {
        failing_call(self.ends, self.manner.place)
    }

    fn kind(self) -> ErrorKind {
        kind_of(self.manner.fault)
    }

    /// How many bytes are counted after the call of this index.
    fn written(self, call: usize) -> u64 {
        let end = self.ends.get(call).copied().unwrap_or(0);
        written_after(end, self.manner.place, self.before)
    }

    /// No encoder is made, where the header meets the fault.
    fn is_refused(self, error: EncodeError) -> bool {
        self.failing() == Some(0) && error == EncodeError::Writer(self.kind())
    }

    /// How many bytes are counted after the call of this index by a writer that does not fail.
    fn written_whole(self, call: usize) -> u64 {
        let end = self.ends.get(call).copied().unwrap_or(0);
        end.saturating_sub(self.before) as u64
    }

    /// Whether these are all bytes that the encoder writes.
    fn is_whole(self, bytes: &[u8]) -> bool {
        let end = self.ends.last().copied().unwrap_or(0);
        self.bytes.get(self.before..end) == Some(bytes)
    }

    fn is_right_by_calls<'w>(
        self,
        alloc: Global,
        writer: Plain<&'w mut Breaking>,
        next: Plain<&'w mut Breaking>,
        steps: &[Step],
    ) -> Result<bool, AllocError> {
        let mut encoder = match Encoder::new_to(alloc, writer) {
            Ok(encoder) => encoder,
            Err(EncodeError::OutOfMemory) => return Err(AllocError),
            Err(error) => return Ok(self.is_refused(error)),
        };
        let answered = self.is_answered(&mut encoder, steps);
        if self.failing().is_none() {
            return Ok(answered);
        }
        let failed = self.is_failed(&mut encoder, steps);
        let reset = encoder.reset_to(next).is_ok();
        Ok(answered && failed && reset && self.begins_again(&mut encoder, steps))
    }

    /// Each call is answered as it should be, and so many bytes are counted.
    fn is_answered(self, encoder: &mut Encoder<Plain<&mut Breaking>>, steps: &[Step]) -> bool {
        for i in 0..steps.len() {
            let call = i + 1;
            let answer = make(encoder, &steps[i]);
            let wanted = answer_of(self.failing(), call, self.kind());
            if answer != wanted || encoder.bytes_written() != self.written(call) {
                return false;
            }
        }
        true
    }

    /// Each call is told that the encoder has failed, and nothing is counted.
    fn is_failed(self, encoder: &mut Encoder<Plain<&mut Breaking>>, steps: &[Step]) -> bool {
        let written = encoder.bytes_written();
        for step in steps {
            if make(encoder, step) != Err(EncodeError::Failed) {
                return false;
            }
        }
        encoder.flush() == Err(EncodeError::Failed) && encoder.bytes_written() == written
    }

    /// Over a writer that does not fail each call is accepted and counted, and all bytes are there.
    fn begins_again(self, encoder: &mut Encoder<Plain<&mut Breaking>>, steps: &[Step]) -> bool {
        for i in 0..steps.len() {
            let accepted = make(encoder, &steps[i]).is_ok();
            if !accepted || encoder.bytes_written() != self.written_whole(i + 1) {
                return false;
            }
        }
        self.is_whole(&encoder.as_inner().0.bytes)
    }

    fn is_right_by_list<'w>(
        self,
        alloc: Global,
        writer: Plain<&'w mut Breaking>,
        next: Plain<&'w mut Breaking>,
        calls: &[Call],
    ) -> Result<bool, AllocError> {
        let mut encoder = match Encoder::new_to(alloc, writer) {
            Ok(encoder) => encoder,
            Err(EncodeError::OutOfMemory) => return Err(AllocError),
            Err(error) => return Ok(self.is_refused(error)),
        };
        let replies = run_calls(alloc, &mut encoder, calls)?;
        let counted = encoder.bytes_written() == self.written(calls.len());
        let answered = counted && replies.len() == calls.len() && self.are_answers(&replies);
        if self.failing().is_none() {
            return Ok(answered);
        }
        let failed = all_failed(&run_calls(alloc, &mut encoder, calls)?);
        let reset = encoder.reset_to(next).is_ok();
        let again = none_refused(&run_calls(alloc, &mut encoder, calls)?);
        Ok(answered && failed && reset && again && self.is_whole(&encoder.as_inner().0.bytes))
    }

    /// Whether each reply is as it should be.
    fn are_answers(self, replies: &[Reply]) -> bool {
        for i in 0..replies.len() {
            if told_by(&replies[i]) != answer_of(self.failing(), i + 1, self.kind()) {
                return false;
            }
        }
        true
    }
}

/// Whether each call was told that the encoder has failed.
fn all_failed(replies: &[Reply]) -> bool {
    for reply in replies {
        if told_by(reply) != Err(EncodeError::Failed) {
            return false;
        }
    }
    true
}

/// Whether no call was refused.
fn none_refused(replies: &[Reply]) -> bool {
    for reply in replies {
        if told_by(reply).is_err() {
            return false;
        }
    }
    true
}

/// Whether after each call of the trace's first encoder a flush that fails so is told, and changes nothing but that the
/// encoder has failed.
pub fn fails_to_flush(alloc: Global, worked: Worked, kind: ErrorKind) -> Result<bool, AllocError> {
    let manner = Manner {
        flushing: Some(kind),
        ..SOUND
    };
    for steps in parts_of(alloc, worked)? {
        for count in 0..=steps.len() {
            let mut writer = Breaking::new(alloc, manner);
            let Ok(mut encoder) = Encoder::new_to(alloc, Plain(&mut writer)) else {
                return Err(AllocError);
            };
            for step in &steps[..count] {
                if make(&mut encoder, step).is_err() {
                    return Ok(false);
                }
            }
            let written = encoder.bytes_written();
            let told = encoder.flush() == Err(EncodeError::Writer(kind));
            if !told || !is_left_failed(&mut encoder, &steps, written) {
                return Ok(false);
            }
        }
    }
    Ok(true)
}

/// Whether each call is told that the encoder has failed, and so many bytes are counted and out.
fn is_left_failed(
    encoder: &mut Encoder<Plain<&mut Breaking>>,
    steps: &[Step],
    written: u64,
) -> bool {
    for step in steps {
        if make(encoder, step) != Err(EncodeError::Failed) {
            return false;
        }
    }
    let out = encoder.as_inner().0.bytes.len() as u64;
    encoder.flush() == Err(EncodeError::Failed)
        && encoder.bytes_written() == written
        && out == written
}

/// Whether a reply is a refusal, and which.
fn told_by(reply: &Reply) -> Result<(), EncodeError> {
    match reply {
        Reply::Refused(error) => Err(*error),
        _ => Ok(()),
    }
}

/// Takes all, and never fails.
pub const SOUND: Manner = Manner {
    most: 1_000_000,
    place: 1_000_000,
    fault: Fault::Zero,
    once: false,
    flushing: None,
};
