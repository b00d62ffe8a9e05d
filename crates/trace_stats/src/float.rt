//! What is kept of floats that are counted.

ghost use Rattle.std.specs.Prelude.{◌≡◌, true, from_bits};
ghost use Rattle.std.specs.Float.{binary64};
ghost use Rattle.trace_stats.specs.Floats.{is_a_number, stands_before};

use crate::full::Full;
use std::num::f64_from_bits_with_nan;

/// How many floats were counted that are numbers, and the least and the greatest of them, by their bits. Infinities
/// are numbers, and -0 is less than 0. How many were counted that are no numbers. It takes no memory but its own.
#[derive(Debug, Drop)]
pub struct FloatSummary {
    count: u64,
    least: u64,
    greatest: u64,
    not_numbers: u64,
    ghost least_is_number: { is_a_number least ≡ true },
    ghost greatest_is_number: { is_a_number greatest ≡ true },
}

impl FloatSummary {
    ghost use Rattle.std.specs.Prelude.{◌≤◌, ◌++◌, ◌∷◌, ◌==◌, [], ℕ, List, cond, false, None, Some, OnOk, OnErr};
    ghost use Rattle.std.specs.Prelude.{length};
    ghost use Rattle.trace_stats.specs.FloatSummaries.{IsFloatSummaryOf};
    ghost use Rattle.trace_stats.specs.Summaries.{most_counted};
    ghost use Rattle.trace_stats.specs.parts.Floats.{least_with, greatest_with};

    /// Of no float.
    pub fn new() -> FloatSummary
        ensures { IsFloatSummaryOf [] result }
    {
        FloatSummary {
            count: 0,
            least: 0,
            greatest: 0,
            not_numbers: 0,
        }
    }

    /// Counts a float too, by its bits. `Full` only where 2^64 - 1 floats were counted: then nothing changes.
    pub fn add(&mut self, bits: u64) -> Result<(), Full>
        ensures added { OnOk result
            ((xs : List ℕ) → IsFloatSummaryOf xs self.old
            → IsFloatSummaryOf (xs ++ bits ∷ []) self.new) }
        ensures full { OnErr result
            ((xs : List ℕ) → IsFloatSummaryOf xs self.old → most_counted ≤ length xs) }
        ensures same { OnErr result (self.new ≡ self.old) }
    {
        if is_a_number(bits) {
            self.add_number(bits)
        } else {
            self.add_other(bits)
        }
    }

    // Counts a float that is a number.
    fn add_number(&mut self, bits: u64) -> Result<(), Full>
        requires { is_a_number bits ≡ true }
        ensures added { OnOk result
            ((xs : List ℕ) → IsFloatSummaryOf xs self.old
            → IsFloatSummaryOf (xs ++ bits ∷ []) self.new) }
        ensures full { OnErr result
            ((xs : List ℕ) → IsFloatSummaryOf xs self.old → most_counted ≤ length xs) }
        ensures same { OnErr result (self.new ≡ self.old) }
    {
        let Some(count) = self.count.checked_add(1) else {
            return Err(Full);
        };
        let (least, greatest) = (self.least_with(bits), self.greatest_with(bits));
        self.count = count;
        self.least = least;
        self.greatest = greatest;
        Ok(())
    }

    // Counts one that is none, whose bits do not matter.
    fn add_other(&mut self, _bits: u64) -> Result<(), Full>
        requires { is_a_number _bits ≡ false }
        ensures added { OnOk result
            ((xs : List ℕ) → IsFloatSummaryOf xs self.old
            → IsFloatSummaryOf (xs ++ _bits ∷ []) self.new) }
        ensures full { OnErr result
            ((xs : List ℕ) → IsFloatSummaryOf xs self.old → most_counted ≤ length xs) }
        ensures same { OnErr result (self.new ≡ self.old) }
    {
        let Some(not_numbers) = self.not_numbers.checked_add(1) else {
            return Err(Full);
        };
        self.not_numbers = not_numbers;
        Ok(())
    }

    // The least of a float and of those that were counted.
    fn least_with(&self, bits: u64) -> u64
        requires { is_a_number bits ≡ true }
        ensures least { result ≡ least_with bits self.now }
        ensures number { is_a_number result ≡ true }
    {
        if self.count == 0 {
            bits
        } else if stands_before(bits, self.least) {
            bits
        } else {
            self.least
        }
    }

    // The greatest of them.
    fn greatest_with(&self, bits: u64) -> u64
        requires { is_a_number bits ≡ true }
        ensures greatest { result ≡ greatest_with bits self.now }
        ensures number { is_a_number result ≡ true }
    {
        if self.count == 0 {
            bits
        } else if stands_before(self.greatest, bits) {
            bits
        } else {
            self.greatest
        }
    }

    /// How many floats were counted that are numbers.
    pub fn count(&self) -> u64
        ensures { result ≡ self.now.count }
    {
        self.count
    }

    /// The bits of the least of them, where there are any.
    pub fn least(&self) -> Option<u64>
        ensures { result ≡ cond (self.now.count == 0) None (Some self.now.least) }
    {
        if self.count == 0 {
            None
        } else {
            Some(self.least)
        }
    }

    /// The bits of the greatest of them, where there are any.
    pub fn greatest(&self) -> Option<u64>
        ensures { result ≡ cond (self.now.count == 0) None (Some self.now.greatest) }
    {
        if self.count == 0 {
            None
        } else {
            Some(self.greatest)
        }
    }

    /// How many floats were counted that are no numbers.
    pub fn not_numbers(&self) -> u64
        ensures { result ≡ self.now.not_numbers }
    {
        self.not_numbers
    }
}

// Whether a float is a number, by its bits.
fn is_a_number(bits: u64) -> bool
    ensures { result ≡ is_a_number bits }
{
    !f64_from_bits_with_nan(bits).is_nan()
}

// Whether a float stands before another, by their bits.
fn stands_before(one: u64, other: u64) -> bool
    requires one { is_a_number one ≡ true }
    requires other { is_a_number other ≡ true }
    ensures { result ≡ stands_before one other }
{
    let (first, second) = (f64_from_bits_with_nan(one), f64_from_bits_with_nan(other));
    first.total_cmp(&second).is_lt()
}
