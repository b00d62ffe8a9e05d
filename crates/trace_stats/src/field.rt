//! What is kept of the values of a field.

ghost use Rattle.std.specs.Prelude.{◌≡◌, ◌≤◌, ◌++◌, ◌∷◌, [], List, OnOk, OnErr, length};
ghost use Rattle.trace_values.specs.Values.{Value};
ghost use Rattle.trace_stats.specs.Fields.{IsFieldOf, measure_of};
ghost use Rattle.trace_stats.specs.Summaries.{most_counted};

use crate::float::FloatSummary;
use crate::full::Full;
use crate::measure::Measure;
use crate::summary::Summary;

/// What the values of a field add up to: the numbers from 0 on, how far the others lie below 0, the floats, and how
/// long texts, bytes and stacks are. Other values are in none of these.
#[derive(Debug, Drop)]
pub struct FieldStats {
    naturals: Summary,
    negatives: Summary,
    floats: FloatSummary,
    lengths: Summary,
}

impl FieldStats {
    /// Of no value.
    pub fn new() -> FieldStats
        ensures { IsFieldOf [] result }
    {
        FieldStats {
            naturals: Summary::new(),
            negatives: Summary::new(),
            floats: FloatSummary::new(),
            lengths: Summary::new(),
        }
    }

    /// Counts a value too, by what is counted of it. `Full` only where 2^64 - 1 values were counted: then nothing
    /// changes.
    pub(crate) fn add(&mut self, measure: Measure) -> Result<(), Full>
        ensures added { OnOk result
            ((vs : List Value) (v : Value) → measure ≡ measure_of v → IsFieldOf vs self.old
            → IsFieldOf (vs ++ v ∷ []) self.new) }
        ensures full { OnErr result
            ((vs : List Value) → IsFieldOf vs self.old → most_counted ≤ length vs) }
        ensures same { OnErr result (self.new ≡ self.old) }
    {
        match measure {
            Measure::Natural(number) => self.naturals.add(number),
            Measure::Negative(number) => self.negatives.add(number),
            Measure::Float(bits) => self.floats.add(bits),
            Measure::Length(length) => self.lengths.add(length),
            Measure::Nothing => Ok(()),
        }
    }

    /// The numbers from 0 on.
    pub fn naturals(&self) -> &Summary
        ensures { result.now ≡ self.now.naturals }
    {
        &self.naturals
    }

    /// How far each number below 0 lies below it.
    pub fn negatives(&self) -> &Summary
        ensures { result.now ≡ self.now.negatives }
    {
        &self.negatives
    }

    /// The floats.
    pub fn floats(&self) -> &FloatSummary
        ensures { result.now ≡ self.now.floats }
    {
        &self.floats
    }

    /// How long each text, each list of bytes and each stack is: in bytes, and in addresses.
    pub fn lengths(&self) -> &Summary
        ensures { result.now ≡ self.now.lengths }
    {
        &self.lengths
    }
}
