//! What a reader gives up to its end, beside what it should give.

ghost use Rattle.std.specs.Prelude.{◌≡◌, ◌≢◌, ◌↔◌, true, Ok, Err, Some, None, IsTrue, IfSome, IfNone};
ghost use Rattle.dial9_trace_format.specs.declared.decoder.error.DecodeError.{DecodeError};
ghost use Rattle.dial9_trace_format.specs.declared.decoder.error.DecodeErrorKind.TheVariants as kinds;
ghost use Rattle.reader_agreement.specs.Steps.{run_after};

use crate::ends::is_same_end;
use dial9_trace_format::decoder::{DecodeError, DecodeErrorKind};

/// What a reader gave up to its end.
#[derive(Clone, Copy)]
pub struct Run {
    /// How many frames, or events.
    pub given: usize,
    /// Whether they are those that are wanted, in order, and nothing came after an error.
    pub same: bool,
    /// The error by which it ended, if it did.
    pub error: Option<DecodeError>,
}

impl Run {
    /// Nothing was given.
    pub fn new() -> Run
        ensures { result ≡ record { given = 0; same = true; error = None } }
    {
        Run {
            given: 0,
            same: true,
            error: None,
        }
    }

    /// One more was given, which is the one that is wanted or not.
    pub fn give(&mut self, same: bool)
        ensures { self.new ≡ run_after self.old (Ok (Some same)) }
    {
        self.given = self.given.saturating_add(1);
        self.same = self.same && (same && self.error.is_none());
    }

    /// The run met this error, and none before.
    pub fn fail(&mut self, error: DecodeError)
        ensures { self.new ≡ run_after self.old (Err error) }
    {
        self.same = self.same && self.error.is_none();
        self.error = Some(error);
    }

    /// The run that ended so.
    pub fn ended(self, error: Option<DecodeError>) -> Run
        ensures { result ≡ record self { error = error } }
    {
        Run { error, ..self }
    }

    /// The error by which it ended, if that tells want of memory.
    pub fn want_of_memory(&self) -> Option<DecodeError>
        ensures some { IfSome result
            (λ e. (self.now.error ≡ Some e) × (e.kind ≡ kinds.OutOfMemory)) }
        ensures none { IfNone result ((e : DecodeError) → self.now.error ≡ Some e
            → e.kind ≢ kinds.OutOfMemory) }
    {
        match self.error {
            Some(error) if error.kind == DecodeErrorKind::OutOfMemory => Some(error),
            _ => None,
        }
    }

    /// Whether it gave as many as another, and ended as that one.
    pub fn is_as(&self, other: &Run) -> bool
        ensures { IsTrue result
            ↔ ((self.now.given ≡ other.now.given) × (self.now.error ≡ other.now.error)) }
    {
        self.given == other.given && is_same_end(&self.error, &other.error)
    }
}
