//! Ranges of times.

ghost use Rattle.std.specs.Prelude.{◌≡◌};
ghost use Rattle.trace_cuts.specs.Ranges.{is_within};

/// Times from one to another, both of them included, in nanoseconds.
#[derive(Clone, Copy, Debug, PartialEq, Eq)]
pub struct TimeRange {
    /// The first.
    pub from: u64,
    /// The last.
    pub to: u64,
}

impl TimeRange {
    /// Whether a time is in the range. None is where the first comes after the last.
    #[inline]
    pub fn contains(&self, time: u64) -> bool
        ensures { result ≡ is_within self.now time }
    {
        self.from <= time && time <= self.to
    }
}
