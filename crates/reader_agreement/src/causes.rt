//! What a reader that shows events to a sink tells, beside where a reader of frames stops.

ghost use Rattle.std.specs.Prelude.{◌≡◌, ◌↔◌, IsTrue, Err};
ghost use Rattle.dial9_trace_format.specs.declared.decoder.error.TryForEachError.TheVariants.{Decode};
ghost use Rattle.reader_agreement.specs.Causes.{may_be_cause, MayBeCause, IsToldFor};

use crate::ends::{Ended, is_same_error};
use dial9_trace_format::decoder::{DecodeError, DecodeErrorKind, TryForEachError};

/// The byte that an event begins with.
const EVENT: u8 = 2;

/// The byte that a reset begins with.
const RESET: u8 = 5;

/// Whether this is told to a sink where a reader of frames ends so: its error; or nothing at the end of the bytes; or
/// what may be the first cause why no frame stands there.
pub fn is_told_for(bytes: &[u8], told: Option<DecodeError>, ended: &Ended) -> bool
    ensures { IsTrue result ↔ IsToldFor bytes.now ended.now.place told ended.now.error }
{
    match (told, ended.error) {
        (Some(told), Some(error)) => is_same_error(&told, &error),
        (Some(told), None) => may_be_cause_at(bytes, ended.place, &told),
        (None, Some(_)) => false,
        (None, None) => ended.place == bytes.len(),
    }
}

/// Whether this may be the cause why no frame stands at this place.
pub fn may_be_cause_at(bytes: &[u8], place: usize, told: &DecodeError) -> bool
    ensures { IsTrue result ↔ MayBeCause bytes.now place told.now }
{
    match bytes.get(place) {
        Some(tag) => {
            place <= told.pos
                && may_be_cause(*tag, bytes.len() - place, told.pos - place, told.kind)
        }
        None => false,
    }
}

/// Whether no frame may stand for this cause, so far in, at the front of so many bytes that begin with this one.
fn may_be_cause(tag: u8, len: usize, ahead: usize, kind: DecodeErrorKind) -> bool
    ensures { result ≡ may_be_cause tag len ahead kind }
{
    match kind {
        DecodeErrorKind::TruncatedEvent => tag == EVENT && ahead == 0 && len < 3,
        DecodeErrorKind::UnknownTypeId(_) => tag == EVENT && ahead == 0 && len >= 3,
        DecodeErrorKind::TruncatedDelta => tag == EVENT && ahead == 3 && len < 6,
        DecodeErrorKind::TimestampOverflow => tag == EVENT && ahead == 3 && len >= 6,
        DecodeErrorKind::TruncatedPrefix => tag == EVENT && ahead == len,
        DecodeErrorKind::TruncatedOptional => tag == EVENT && ahead > 3 && ahead <= len,
        DecodeErrorKind::TruncatedValue => tag == EVENT && ahead >= 3 && ahead <= len,
        DecodeErrorKind::TruncatedReset => tag == RESET && ahead == 0 && len < 9,
        DecodeErrorKind::NoFrame(first) => {
            tag == first && ahead == 0 && !(tag == EVENT || tag == RESET)
        }
        _ => false,
    }
}

/// Whether an answer to a sink is this error of its reader.
pub fn is_told_to_sink<E: Drop>(answer: Result<(), TryForEachError<E>>, error: &DecodeError) -> bool
    ensures { IsTrue result ↔ (answer ≡ Err (Decode error.now)) }
{
    match answer {
        Err(TryForEachError::Decode(told)) => is_same_error(&told, error),
        Ok(()) | Err(TryForEachError::User(_)) => false,
    }
}
