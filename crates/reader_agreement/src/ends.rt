//! How readers end.

ghost use Rattle.std.specs.Prelude.{◌≡◌, ◌↔◌, IsTrue, Err};

use dial9_trace_format::decoder::DecodeError;

/// How a reader ended.
#[derive(Clone, Copy)]
pub struct Ended {
    /// The error, where it ended by one.
    pub error: Option<DecodeError>,
    /// The decoder's position.
    pub place: usize,
}

impl Ended {
    /// Whether both ended by the same error, or by none, and at the same place.
    pub fn is_same(&self, other: &Ended) -> bool
        ensures { IsTrue result ↔ (self.now ≡ other.now) }
    {
        is_same_end(&self.error, &other.error) && self.place == other.place
    }
}

/// Whether both errors tell the same.
pub fn is_same_error(a: &DecodeError, b: &DecodeError) -> bool
    ensures { IsTrue result ↔ (a.now ≡ b.now) }
{
    a.pos == b.pos && a.kind == b.kind
}

/// Whether both are the same error, or none.
pub fn is_same_end(a: &Option<DecodeError>, b: &Option<DecodeError>) -> bool
    ensures { IsTrue result ↔ (a.now ≡ b.now) }
{
    match (a, b) {
        (Some(a), Some(b)) => is_same_error(a, b),
        (None, None) => true,
        _ => false,
    }
}

/// Whether an answer is this error.
pub fn is_told<T: Drop>(answer: Result<T, DecodeError>, error: &DecodeError) -> bool
    ensures { IsTrue result ↔ (answer ≡ Err error.now) }
{
    match answer {
        Err(told) => is_same_error(&told, error),
        Ok(_) => false,
    }
}
