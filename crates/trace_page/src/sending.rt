//! Sending a page.

ghost use Rattle.std.specs.Prelude.{◌++◌, [], IfErr, OnOk};
ghost use Rattle.trace_values.specs.Sending.{TookOnly};
ghost use Rattle.trace_page.specs.Escaping.{escaped};
ghost use Rattle.trace_page.specs.Sending.{PageFails};

use crate::escaping::push_escaped;
use std::alloc::{AllocError, Global};
use std::io::ErrorKind;
use trace_values::leb128::{SendFault, TraceWrite, send_all};

/// So many bytes of data are escaped and sent at once.
pub const PIECE: usize = 65_536;

/// Why a page was not sent whole.
#[derive(Clone, Copy, Debug, PartialEq, Eq)]
pub enum PageError {
    /// A growth was refused.
    OutOfMemory,
    /// The writer failed, by this kind of error.
    Writer(ErrorKind),
}

impl From<AllocError> for PageError {
    ghost use Rattle.std.specs.Prelude.{◌≡◌};
    ghost use Rattle.trace_page.specs.declared.sending.PageError.TheVariants.{OutOfMemory};

    ghost from_gives = { λ _ e. e ≡ OutOfMemory };

    fn from(_: AllocError) -> PageError {
        PageError::OutOfMemory
    }
}

impl From<SendFault> for PageError {
    ghost use Rattle.std.specs.Prelude.{◌≡◌};
    ghost use Rattle.trace_page.specs.declared.sending.PageError.TheVariants.{Writer};

    ghost from_gives = { λ fault e. e ≡ Writer fault.kind };

    fn from(fault: SendFault) -> PageError {
        PageError::Writer(fault.kind)
    }
}

/// Sends a page: what stands before its data, the text of the data, escaped, and what stands after it.
/// `PageError::OutOfMemory` where a growth was refused, and `PageError::Writer` where the writer failed: then a front
/// of the page may be sent, and not all.
pub fn send_page<W: TraceWrite>(
    alloc: Global,
    out: &mut W,
    head: &str,
    text: &[u8],
    tail: &str,
) -> Result<(), PageError>
    ensures sent { OnOk result (TookOnly (W.told out.old) (W.told out.new)
        (head.now ++ (escaped text.now ++ tail.now)) []) }
    ensures refused { IfErr result (PageFails (W.told out.old) (W.told out.new)
        (head.now ++ (escaped text.now ++ tail.now))) }
{
    send_all(out, head.as_bytes())?;
    send_escaped(alloc, out, text)?;
    send_all(out, tail.as_bytes())?;
    Ok(())
}

// Sends text, escaped, a piece of it after another.
fn send_escaped<W: TraceWrite>(alloc: Global, out: &mut W, text: &[u8]) -> Result<(), PageError>
    ensures sent { OnOk result
        (TookOnly (W.told out.old) (W.told out.new) (escaped text.now) []) }
    ensures refused { IfErr result
        (PageFails (W.told out.old) (W.told out.new) (escaped text.now)) }
{
    let mut held = Vec::new(alloc);
    let mut sent = 0;
    while sent < text.len() {
        let count = PIECE.min(text.len() - sent);
        held.clear();
        push_escaped(&mut held, &text[sent..sent + count])?;
        send_all(out, &held)?;
        sent += count;
    }
    Ok(())
}
