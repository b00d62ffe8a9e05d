//! What is kept of numbers that are counted.

ghost use Rattle.std.specs.Prelude.{◌≡◌};

use crate::full::Full;

/// How many numbers were counted, the least and the greatest of them, their sum, and how many there are of each
/// number of binary digits. It takes no memory but its own.
#[derive(Debug, Drop)]
pub struct Summary {
    count: u64,
    least: u64,
    greatest: u64,
    sum: u128,
    by_digits: [u64; 65],
    ghost least_of_none: { count ≡ 0 → least ≡ 18446744073709551615 },
    ghost greatest_of_none: { count ≡ 0 → greatest ≡ 0 },
}

impl Summary {
    ghost use Rattle.std.specs.Prelude.{◌≤◌, ◌++◌, ◌∷◌, ◌==◌, [], ℕ, List, cond, None, Some, OnOk, OnErr, length};
    ghost use Rattle.trace_stats.specs.Summaries.{IsSummaryOf, most_counted};

    /// Of no number.
    pub fn new() -> Summary
        ensures { IsSummaryOf [] result }
    {
        Summary {
            count: 0,
            least: u64::MAX,
            greatest: 0,
            sum: 0,
            by_digits: [0; 65],
        }
    }

    /// Counts a number too. `Full` only where 2^64 - 1 numbers were counted: then nothing changes.
    pub fn add(&mut self, number: u64) -> Result<(), Full>
        ensures added { OnOk result
            ((xs : List ℕ) → IsSummaryOf xs self.old → IsSummaryOf (xs ++ number ∷ []) self.new) }
        ensures full { OnErr result
            ((xs : List ℕ) → IsSummaryOf xs self.old → most_counted ≤ length xs) }
        ensures same { OnErr result (self.new ≡ self.old) }
    {
        let Some(count) = self.count.checked_add(1) else {
            return Err(Full);
        };
        self.least = self.least.min(number);
        self.greatest = self.greatest.max(number);
        self.count = count;
        // (so many numbers of 64 bits have a sum of 128)
        self.sum = self.sum.wrapping_add(u128::from(number));
        let digits = 64 - number.leading_zeros() as usize;
        self.by_digits[digits] = self.by_digits[digits].wrapping_add(1);
        Ok(())
    }

    /// How many numbers were counted.
    pub fn count(&self) -> u64
        ensures { result ≡ self.now.count }
    {
        self.count
    }

    /// The least of them, where there are any.
    pub fn least(&self) -> Option<u64>
        ensures { result ≡ cond (self.now.count == 0) None (Some self.now.least) }
    {
        if self.count == 0 {
            None
        } else {
            Some(self.least)
        }
    }

    /// The greatest of them, where there are any.
    pub fn greatest(&self) -> Option<u64>
        ensures { result ≡ cond (self.now.count == 0) None (Some self.now.greatest) }
    {
        if self.count == 0 {
            None
        } else {
            Some(self.greatest)
        }
    }

    /// Their sum.
    pub fn sum(&self) -> u128
        ensures { result ≡ self.now.sum }
    {
        self.sum
    }

    /// How many of them have 0, 1 and so on up to 64 binary digits: the number 0 has none, and those from 2^(n - 1)
    /// to 2^n - 1 have n.
    pub fn by_digits(&self) -> &[u64; 65]
        ensures { result.now ≡ self.now.by_digits }
    {
        &self.by_digits
    }
}
