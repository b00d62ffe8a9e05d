//! That no more can be counted.

use thiserror::Error;

/// 2^64 - 1 things of a kind were counted, so that one more has no number.
#[derive(Clone, Copy, Debug, PartialEq, Eq, Error)]
#[error("too many to count")]
pub struct Full;
