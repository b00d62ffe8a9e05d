//! What calls answer: a number for each outcome, and a report.

ghost use Rattle.std.specs.Prelude.{◌≡◌};
ghost use Rattle.trace_door.specs.Codes.{cause_code, cause_field, encode_code, read_code, stop_code, stop_detail};
ghost use Rattle.trace_door.specs.Codes.{empty_report};

use dial9_trace_format::decoder::DecodeErrorKind;
use dial9_trace_format::leb128::EncodeError;
use trace_batch::{BatchCause, ReadError};

/// What a call answers besides its number (docs/DOORS.md, "Calls"). Where a call says nothing of a part it is 0.
#[repr(C)]
#[derive(Clone, Copy)]
pub struct TraceReport {
    /// How many bytes were written, or are needed where the room is too short; of a check, how many read whole; of a
    /// read, how many the batch has.
    pub length: usize,
    /// Of a read, how many bytes the state has, which stands after the batch.
    pub state: usize,
    /// Of a read, how many bytes of the trace were read.
    pub read: usize,
    /// Of a batch the record that is refused, from 0; of a trace the place of the cause, in bytes.
    pub place: usize,
    /// The field, the wire id or the byte that the number speaks of; of a dump the status of `tracedump`.
    pub detail: usize,
    /// Of a check, how many events stand in what reads whole; of a read, how many were read.
    pub events: u64,
    /// Of a check or a read, the version of the header.
    pub version: u8,
}

/// All was done.
pub const DONE: u32 = 0;
/// The room is too short; nothing was written.
pub const SHORT_ROOM: u32 = 1;
/// A growth was refused.
pub const OUT_OF_MEMORY: u32 = 2;

/// A report that says nothing.
pub(crate) fn empty_report() -> TraceReport
    ensures { result ≡ empty_report }
{
    TraceReport {
        length: 0,
        state: 0,
        read: 0,
        place: 0,
        detail: 0,
        events: 0,
        version: 0,
    }
}

/// The number of a cause why a batch is refused.
pub(crate) fn cause_code(cause: BatchCause) -> u32
    ensures { result ≡ cause_code cause }
{
    match cause {
        BatchCause::NoRecord => 16,
        BatchCause::UnknownSchema => 17,
        BatchCause::Refused(error) => encode_code(error),
        BatchCause::OutOfMemory => OUT_OF_MEMORY,
    }
}

/// The field of which the cause speaks.
pub(crate) fn cause_field(cause: BatchCause) -> usize
    ensures { result ≡ cause_field cause }
{
    match cause {
        BatchCause::Refused(EncodeError::Misfit { field }) => field,
        _ => 0,
    }
}

/// The number of a cause why nothing is read.
pub(crate) fn read_code(error: ReadError) -> u32
    ensures { result ≡ read_code error }
{
    match error {
        ReadError::NoHeader => 58,
        ReadError::NoState => 60,
        ReadError::TooLong => 35,
        ReadError::OutOfMemory => OUT_OF_MEMORY,
    }
}

/// The number of an encoder's error. Want of memory has one number, of the encoder's own and of the trace's.
fn encode_code(error: EncodeError) -> u32
    ensures { result ≡ encode_code error }
{
    match error {
        EncodeError::Conflict => 32,
        EncodeError::ValueCount => 33,
        EncodeError::Misfit { field: _ } => 34,
        EncodeError::TooLong => 35,
        EncodeError::IdsUsedUp => 36,
        EncodeError::SlotTaken => 37,
        EncodeError::SlotUntimed => 38,
        EncodeError::ByteCount => 39,
        EncodeError::OutOfMemory => OUT_OF_MEMORY,
        EncodeError::Writer(_) => OUT_OF_MEMORY,
        EncodeError::Failed => 40,
    }
}

/// The number of a cause why a trace ends.
pub(crate) fn stop_code(cause: DecodeErrorKind) -> u32
    ensures { result ≡ stop_code cause }
{
    match cause {
        DecodeErrorKind::TruncatedEvent => 48,
        DecodeErrorKind::UnknownTypeId(_) => 49,
        DecodeErrorKind::TruncatedDelta => 50,
        DecodeErrorKind::TimestampOverflow => 51,
        DecodeErrorKind::TruncatedPrefix => 52,
        DecodeErrorKind::TruncatedOptional => 53,
        DecodeErrorKind::TruncatedValue => 54,
        DecodeErrorKind::TruncatedReset => 55,
        DecodeErrorKind::NoFrame(_) => 56,
        DecodeErrorKind::Conflict(_) => 57,
        DecodeErrorKind::OutOfMemory => OUT_OF_MEMORY,
        DecodeErrorKind::NoHeader => 58,
        DecodeErrorKind::InputTooLong => 59,
    }
}

/// The wire id or the byte of which the cause speaks.
pub(crate) fn stop_detail(cause: DecodeErrorKind) -> usize
    ensures { result ≡ stop_detail cause }
{
    match cause {
        DecodeErrorKind::UnknownTypeId(id) => usize::from(id.0),
        DecodeErrorKind::Conflict(id) => usize::from(id.0),
        DecodeErrorKind::NoFrame(byte) => usize::from(byte),
        _ => 0,
    }
}
