//! Cutting a range of times out of a trace.

ghost use Rattle.std.specs.Prelude.{ℕ, [], IfOk, IfErr};
ghost use Rattle.dial9_trace_format.specs.Decoding.{StartsWith};
ghost use Rattle.dial9_trace_format.specs.Words.{TookOnly};
ghost use Rattle.trace_cuts.specs.Cuts.{IsCut};
ghost use Rattle.trace_cuts.specs.Sent.{FailsToCut};

use crate::copying::Copying;
use crate::range::TimeRange;
use dial9_trace_format::decoder::Decoder;
use std::alloc::{AllocError, Global};
use std::io::ErrorKind;
use thiserror::Error;
use trace_values::leb128::{TraceWrite, send_all};
use trace_wire::codec::tags::HEADER_LEN;
use trace_wire::schema::WireTypeId;

/// Why a cut could not be made or sent.
#[derive(Clone, Copy, Debug, PartialEq, Eq, Error)]
pub enum CutError {
    /// A growth was refused.
    #[error("out of memory")]
    OutOfMemory,
    /// The writer failed, with this kind of error.
    #[error("writer failed")]
    Writer(ErrorKind),
}

impl From<AllocError> for CutError {
    ghost use Rattle.std.specs.Prelude.{◌≡◌};
    ghost use Rattle.trace_cuts.specs.declared.cut.CutError.TheVariants.{OutOfMemory};

    ghost from_gives = { λ _ e. e ≡ OutOfMemory };

    fn from(_: AllocError) -> CutError {
        CutError::OutOfMemory
    }
}

/// A trace of a range of times, and how much was read for it.
#[derive(Debug, Drop)]
pub struct Cut {
    /// Its bytes; none where no header stands at the front of what was read.
    pub bytes: Vec<u8>,
    /// How many bytes the longest run takes, the header's among them; 0 where no header stands at the front.
    pub length: usize,
    /// The wire id of the schema at which the run ends, where that differs from what the id stands for.
    pub conflict: Option<WireTypeId>,
}

/// The events of a range of times of `bytes`, up to where the reader of owned values finds no frame, with all headers,
/// schemas, pools and annotations there (docs/FORMAT.md, "Cuts"). All frames are copied as they stand, but for resets:
/// one stands before an event exactly where the base time is another than before that event in `bytes`. `AllocError`
/// where a growth was refused.
pub fn cut_of(alloc: Global, bytes: &[u8], range: TimeRange) -> Result<Cut, AllocError>
    ensures { IfOk result (IsCut range bytes.now) }
{
    let Some(_) = Decoder::new(alloc, bytes) else {
        return Ok(Cut {
            bytes: Vec::new(alloc),
            length: 0,
            conflict: None,
        });
    };
    cut_after_header(alloc, bytes, range)
}

// The cut of bytes that begin with a header.
fn cut_after_header(alloc: Global, bytes: &[u8], range: TimeRange) -> Result<Cut, AllocError>
    requires { (version : ℕ) × StartsWith bytes.now version }
    ensures { IfOk result (IsCut range bytes.now) }
{
    let (header, frames) = bytes.split_at(HEADER_LEN);
    let mut copying = Copying::new(alloc, header, frames)?;
    let conflict = copying.copy_all(range)?;
    let (kept, rest) = copying.into_parts();
    Ok(Cut {
        bytes: kept,
        length: bytes.len() - rest.len(),
        conflict,
    })
}

/// Sends the cut of `bytes` (`cut_of`), and answers it. The writer is not settled. `OutOfMemory` where a growth was
/// refused, before anything was sent. `Writer` where the writer failed: it took a front of the cut, and not all.
pub fn send_cut<W: TraceWrite>(
    alloc: Global,
    bytes: &[u8],
    range: TimeRange,
    out: &mut W,
) -> Result<Cut, CutError>
    ensures cut { IfOk result (IsCut range bytes.now) }
    ensures sent { IfOk result (λ cut.
        TookOnly (W.told out.old) (W.told out.new) cut.bytes.items []) }
    ensures refused { IfErr result (FailsToCut W.told range bytes.now out.old out.new) }
{
    let cut = cut_of(alloc, bytes, range)?;
    match send_all(out, cut.bytes.as_slice()) {
        Ok(()) => Ok(cut),
        Err(fault) => Err(CutError::Writer(fault.kind)),
    }
}
