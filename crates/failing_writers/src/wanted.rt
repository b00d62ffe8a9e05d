//! What encoders over a writer that fails have to answer.

ghost use Rattle.std.specs.Prelude.{◌≡◌, ◌-◌, min};
ghost use Rattle.std.specs.List.{position};
ghost use Rattle.failing_writers.specs.Wanted.{passes, told_kind, IsAnswer};

use crate::breaking::Fault;
use dial9_trace_format::leb128::EncodeError;
use std::io::ErrorKind;

/// Which call meets the fault of a writer that fails after so many bytes: the first that would pass that place. The
/// ends tell how many bytes there are after each call; the first of them makes the encoder.
pub fn failing_call(ends: &[usize], place: usize) -> Option<usize>
    ensures { result ≡ position (passes place) ends.now }
{
    ends.iter().position(|end| place < *end)
}

/// The kind that the encoder tells of a fault.
pub fn kind_of(fault: Fault) -> ErrorKind
    ensures { result ≡ told_kind fault }
{
    match fault {
        Fault::Zero => ErrorKind::WriteZero,
        Fault::Error(kind) => kind,
    }
}

/// What a call answers where one of them meets a fault of this kind: those before it are accepted, and those after it
/// are told that the encoder has failed.
pub fn answer_of(failing: Option<usize>, call: usize, kind: ErrorKind) -> Result<(), EncodeError>
    ensures { IsAnswer failing call kind result }
{
    match failing {
        Some(failing) if call == failing => Err(EncodeError::Writer(kind)),
        Some(failing) if call > failing => Err(EncodeError::Failed),
        _ => Ok(()),
    }
}

/// How many bytes an encoder has written after a call: up to the end of that call, or to the place where its writer
/// failed; counted from the bytes that stood there before the encoder.
pub fn written_after(end: usize, place: usize, before: usize) -> u64
    ensures { result ≡ min end place - before }
{
    end.min(place).saturating_sub(before) as u64
}
