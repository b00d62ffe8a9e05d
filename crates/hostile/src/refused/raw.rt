//! Bytes of the caller's own over a list that grows, each growth of which is refused.

use crate::refused::heap::{refuse, was_refused};
use crate::refused::plan::{HEADER, new_encoder};
use crate::refused::sweep::{LACKING, Trial, sweep};
use crate::refused::verdict::{Answer, Counts, Seen};
use dial9_trace_format::encoder::RawEncoder;
use dial9_trace_format::leb128::EncodeError;
use std::alloc::Global;
use std::io::ErrorKind;

/// Bytes of the caller's own: few, and more than any list has room for beside a header.
const PIECES: &[&[u8]] = &[&[1, 2, 3], &[7; 100], &[0; 5_000]];

/// `RawEncoder::write_raw` of these bytes. Where the list does not grow, a front of them went out, and the encoder has
/// failed.
#[derive(Drop)]
struct Raw<'p>(&'p [u8]);

impl Trial for Raw<'_> {
    fn seen(&self, alloc: Global, number: u32) -> Seen {
        match new_encoder(alloc) {
            Ok(encoder) => self.seen_by(alloc, number, encoder.into_raw_encoder()),
            Err(_) => LACKING,
        }
    }
}

impl Raw<'_> {
    fn seen_by(&self, alloc: Global, number: u32, mut raw: RawEncoder) -> Seen {
        refuse(alloc, number);
        let told = raw.write_raw(self.0);
        let refused = was_refused(alloc);
        let answer = answer_of(told);
        let right = goes_on(&mut raw, answer);
        Seen {
            refused,
            answer,
            right: right & self.is_sent(answer, raw),
        }
    }

    /// Whether the bytes are out after a header, or a front of them where the list did not grow, and counted.
    fn is_sent(&self, answer: Answer, raw: RawEncoder) -> bool {
        let counted = raw.bytes_written();
        let written = raw.into_inner();
        let Some(sent) = written.get(HEADER..) else {
            return false;
        };
        let whole = answer != Answer::Same || sent.len() == self.0.len();
        self.0.starts_with(sent) & whole & (counted == written.len() as u64)
    }
}

/// Whether the encoder works, or has failed where the list did not grow.
fn goes_on(raw: &mut RawEncoder, answer: Answer) -> bool {
    let wanted = match answer {
        Answer::Same => Ok(()),
        _ => Err(EncodeError::Failed),
    };
    (raw.flush() == wanted) & (raw.write_raw(&[]) == wanted)
}

fn answer_of(told: Result<(), EncodeError>) -> Answer {
    match told {
        Ok(()) => Answer::Same,
        Err(EncodeError::Writer(ErrorKind::OutOfMemory)) => Answer::Memory,
        Err(_) => Answer::Other,
    }
}

/// Sends each of the pieces.
pub fn sweep_raw(alloc: Global, counts: &mut Counts) {
    for piece in PIECES {
        sweep(alloc, &Raw(piece), counts);
    }
}
