//! Encoders that go on after a trace, each growth of which is refused.

ghost use Rattle.trace_samples.specs.Telling.{all_told};

use crate::calls::{all_owned, decoder_of};
use crate::refused::encoding::Hashing;
use crate::refused::heap::{refuse, was_refused};
use crate::refused::lists::run_all;
use crate::refused::sweep::{LACKING, Trial};
use crate::refused::verdict::{Answer, Seen, told_as};
use dial9_trace_format::decoder::Decoder;
use dial9_trace_format::encoder::{Call, Encoder, Reply, run_calls};
use dial9_trace_format::leb128::{EncodeError, TraceWrite};
use std::alloc::{AllocError, Global};
use std::io;
use trace_samples::{Manner, Told};
use trace_values::leb128::Faults;

/// A trace that was read to its end, how the encoder hashes that goes on after it, the calls that come then, and what
/// they answer and write.
#[derive(Drop)]
pub struct Resuming<'b> {
    hashing: Hashing,
    bytes: &'b [u8],
    calls: Vec<Call>,
    replies: Vec<Reply>,
    written: Vec<u8>,
}

/// A decoder that has read the bytes to their end.
fn read(alloc: Global, bytes: &[u8]) -> Result<Decoder<'_>, AllocError> {
    let mut decoder = decoder_of(alloc, bytes)?;
    let _ = all_owned(&mut decoder);
    Ok(decoder)
}

/// `Decoder::into_encoder`, or `Decoder::into_encoder_with_hasher`.
fn resumed<W: TraceWrite + Drop>(
    decoder: Decoder<'_>,
    writer: W,
    hashing: Hashing,
) -> Result<Encoder<W>, EncodeError> {
    match hashing {
        Hashing::Fixed => decoder.into_encoder(writer),
        Hashing::Seeded(state) => decoder.into_encoder_with_hasher(writer, state),
    }
}

/// What comes of these calls after the trace; `None` where no encoder goes on after it.
pub fn after_trace(
    alloc: Global,
    bytes: &[u8],
    calls: Vec<Call>,
    hashing: Hashing,
) -> Result<Option<Resuming<'_>>, AllocError> {
    match resumed(read(alloc, bytes)?, Told::new(Manner::SOUND), hashing) {
        Ok(mut encoder) => {
            let ran = run_all(alloc, &mut encoder, &calls);
            resuming_of(bytes, calls, hashing, ran)
        }
        Err(EncodeError::OutOfMemory) => Err(AllocError),
        Err(_) => Ok(None),
    }
}

fn resuming_of(
    bytes: &[u8],
    calls: Vec<Call>,
    hashing: Hashing,
    ran: Result<(Vec<Reply>, Vec<u8>), AllocError>,
) -> Result<Option<Resuming<'_>>, AllocError> {
    let (replies, written) = ran?;
    Ok(Some(Resuming {
        hashing,
        bytes,
        calls,
        replies,
        written,
    }))
}

/// A writer that its owner sees again.
#[derive(Drop)]
struct Lent<'w>(&'w mut Told);

impl<'w> TraceWrite for Lent<'w> {
    ghost told = { λ l. all_told l.0.now };

    fn send(&mut self, piece: &[u8]) -> io::Result<usize> {
        self.0.send(piece)
    }

    fn settle(&mut self) -> io::Result<()> {
        self.0.settle()
    }
}

/// The encoder is made over a writer that is lent to it, to which a refusal sends nothing.
impl Trial for Resuming<'_> {
    fn seen(&self, alloc: Global, number: u32) -> Seen {
        let mut writer = Told::new(Manner::SOUND);
        let mut seen = self.seen_over(alloc, number, Lent(&mut writer));
        seen.right &= self.is_sent(seen.answer, &writer);
        seen
    }
}

impl Resuming<'_> {
    /// Whether what is to be sent after this answer was, without a fault.
    fn is_sent(&self, answer: Answer, writer: &Told) -> bool {
        let sent = match answer {
            Answer::Same => self.written.as_slice(),
            _ => &[],
        };
        (writer.bytes() == sent) & (writer.faults() == Faults::NoFault)
    }

    fn seen_over(&self, alloc: Global, number: u32, writer: Lent<'_>) -> Seen {
        match read(alloc, self.bytes) {
            Ok(decoder) => self.seen_after(alloc, number, decoder, writer),
            Err(_) => LACKING,
        }
    }

    fn seen_after(
        &self,
        alloc: Global,
        number: u32,
        decoder: Decoder<'_>,
        writer: Lent<'_>,
    ) -> Seen {
        refuse(alloc, number);
        let told = resumed(decoder, writer, self.hashing);
        let refused = was_refused(alloc);
        let (answer, right) = match told {
            Ok(mut encoder) => (Answer::Same, self.goes_on(alloc, &mut encoder)),
            Err(error) => (told_as(Err(error)), true),
        };
        Seen {
            refused,
            answer,
            right,
        }
    }

    /// Whether the calls are answered as they should be.
    fn goes_on(&self, alloc: Global, encoder: &mut Encoder<Lent<'_>>) -> bool {
        match run_calls(alloc, encoder, &self.calls) {
            Ok(replies) => replies == self.replies,
            Err(_) => false,
        }
    }
}
