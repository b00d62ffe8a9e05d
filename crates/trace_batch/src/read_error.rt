//! Why nothing of a trace becomes a batch.

ghost use Rattle.std.specs.Prelude.{◌≡◌};
ghost use Rattle.trace_batch.specs.declared.read_error.ReadError.TheVariants.{OutOfMemory};

use std::alloc::AllocError;
use thiserror::Error;

/// Why nothing of a trace becomes a batch (docs/DOORS.md, "Errors").
#[derive(Clone, Copy, Debug, PartialEq, Eq, Error)]
pub enum ReadError {
    /// The trace begins with no header, and there is no state.
    #[error("no header stands there")]
    NoHeader,
    /// The trace begins with no header, and the state is none that was handed out.
    #[error("no state stands there")]
    NoState,
    /// A schema gets more annotations than a record of a batch counts, and no event stands before that.
    #[error("a schema is too long for a record")]
    TooLong,
    /// A growth was refused.
    #[error("out of memory")]
    OutOfMemory,
}

impl From<AllocError> for ReadError {
    ghost from_gives = { λ _ e. e ≡ OutOfMemory };

    fn from(_: AllocError) -> ReadError {
        ReadError::OutOfMemory
    }
}
