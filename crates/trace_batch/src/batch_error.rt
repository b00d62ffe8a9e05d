//! Why a batch is refused.

ghost use Rattle.std.specs.Prelude.{◌≡◌};
ghost use Rattle.trace_batch.specs.declared.batch_error.BatchCause.TheVariants.{OutOfMemory};

use std::alloc::{AllocError, AllocFailed};
use thiserror::Error;
use trace_values::leb128::EncodeError;

/// Why a batch is refused (docs/DOORS.md, "Errors").
#[derive(Clone, Copy, Debug, PartialEq, Eq, Error)]
pub enum BatchCause {
    /// No record stands there: its first byte begins none, the bytes end inside it, a name is not UTF-8, a tag names
    /// no type, or no value of its type stands after it.
    #[error("no record of a batch stands there")]
    NoRecord,
    /// An event names a schema by a number that no record before it defines.
    #[error("no schema has this number")]
    UnknownSchema,
    /// The encoder refused what the record asks for.
    #[error("the record was refused")]
    Refused(EncodeError),
    /// A growth was refused.
    #[error("out of memory")]
    OutOfMemory,
}

/// Which record of a batch is refused, and why. Records count from 0.
#[derive(Clone, Copy, Debug, PartialEq, Eq, Error)]
#[error("record {index}: {cause}")]
pub struct BatchError {
    /// How many records stand before it.
    pub index: usize,
    /// Why.
    pub cause: BatchCause,
}

impl From<AllocError> for BatchCause {
    ghost from_gives = { λ _ e. e ≡ OutOfMemory };

    fn from(_: AllocError) -> BatchCause {
        BatchCause::OutOfMemory
    }
}

impl<T: Drop> From<AllocFailed<T>> for BatchCause {
    ghost from_gives = { λ _ e. e ≡ OutOfMemory };

    fn from(_: AllocFailed<T>) -> BatchCause {
        BatchCause::OutOfMemory
    }
}
