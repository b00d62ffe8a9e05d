//! What stacks add up to.

ghost use Rattle.std.specs.Prelude.{◌≡◌, ◌≤◌, ◌^◌, ℕ, List, ◌+◌, OnOk, OnErr, IfOk, IfErr, ◌++◌};
ghost use Rattle.std.specs.Prelude.{Option, [], string_bytes};
ghost use Rattle.std.specs.List.{flat_map};
ghost use Rattle.std.specs.BTreeMap.{IsUnchanged};
ghost use Rattle.trace_folded.specs.Stacks.{folded_text};
ghost use Rattle.trace_folded.specs.Events.{AreCountsOf};
ghost use Rattle.trace_folded.specs.Tallies.{count_of, CountsMore, PutsNoOther, line_of, count_line};
ghost use Rattle.trace_folded.specs.parts.Tallies.{SetsCount};
ghost use Rattle.trace_folded.specs.declared.tally.FoldError.TheVariants.{OutOfMemory, Full};

use crate::text::folded_text;
use std::alloc::{AllocError, Global};
use std::collections::BTreeMap;
use thiserror::Error;

/// Why a stack is not counted.
#[derive(Clone, Copy, Debug, PartialEq, Eq, Error)]
pub enum FoldError {
    /// A growth was refused.
    #[error("out of memory")]
    OutOfMemory,
    /// The number of a stack would pass 2^64 - 1.
    #[error("too many to count")]
    Full,
}

/// What stacks add up to, by their texts.
#[derive(Drop)]
pub struct FoldedStacks {
    alloc: Global,
    counts: BTreeMap<String, u64>,
}

impl FoldedStacks {
    /// Of no stacks. Takes no memory.
    pub fn new(alloc: Global) -> FoldedStacks
        ensures none { (text : List ℕ) → count_of result.counts text ≡ 0 }
        ensures counts { (by : Option (List ℕ)) → AreCountsOf by [] result }
    {
        FoldedStacks {
            alloc,
            counts: BTreeMap::new(alloc),
        }
    }

    /// Adds so much to the number of a stack. `OutOfMemory` where a growth was refused, `Full` where the number would
    /// pass 2^64 - 1: then nothing changes.
    pub fn add(&mut self, stack: &[u64], more: u64) -> Result<(), FoldError>
        ensures added { OnOk result (CountsMore self.old.counts self.new.counts
            (folded_text stack.now) more) }
        ensures others { OnOk result (PutsNoOther self.old.counts self.new.counts
            (folded_text stack.now)) }
        ensures refused { OnErr result (IsUnchanged self.old.counts self.new.counts) }
        ensures full { IfErr result (λ e. e ≡ Full
            → 2 ^ 64 ≤ count_of self.old.counts (folded_text stack.now) + more) }
    {
        let text = folded_text(self.alloc, stack)?;
        let count = self.counts.get(text.as_str()).copied().unwrap_or(0);
        match count.checked_add(more) {
            Some(count) => Ok(self.put(text, count)?),
            None => Err(FoldError::Full),
        }
    }

    /// The lines of all stacks but those of number 0, in the order of their texts: each its text, a space, its number,
    /// and a line feed. `AllocError` where a growth was refused.
    pub fn lines(&self) -> Result<String, AllocError>
        ensures { IfOk result (λ lines. string_bytes lines
            ≡ flat_map count_line self.now.counts.entries) }
    {
        let mut lines = String::new(self.alloc);
        'stacks: for (text, count) in self.counts.iter() {
            push_line(&mut lines, text.as_str(), *count)?;
        }
        Ok(lines)
    }

    // Puts the number of a text in, in place of the one that it had. `AllocError` where a growth was refused: then
    // nothing changes.
    fn put(&mut self, text: String, count: u64) -> Result<(), AllocError>
        ensures put { OnOk result (SetsCount self.old.counts self.new.counts
            (string_bytes text) count) }
        ensures others { OnOk result (PutsNoOther self.old.counts self.new.counts
            (string_bytes text)) }
        ensures refused { OnErr result (IsUnchanged self.old.counts self.new.counts) }
    {
        self.counts.insert(text, count)?;
        Ok(())
    }
}

// Appends the line of a text, where its number is not 0.
fn push_line(lines: &mut String, text: &str, count: u64) -> Result<(), AllocError>
    ensures { OnOk result (string_bytes lines.new
        ≡ string_bytes lines.old ++ line_of text.now count) }
{
    if count == 0 {
        return Ok(());
    }
    lines.push_str(text)?;
    writeln!(lines, " {count}")
}

impl From<AllocError> for FoldError {
    ghost use Rattle.trace_folded.specs.declared.tally.FoldError.TheVariants.{OutOfMemory};

    ghost from_gives = { λ _ e. e ≡ OutOfMemory };

    fn from(_: AllocError) -> FoldError {
        FoldError::OutOfMemory
    }
}
