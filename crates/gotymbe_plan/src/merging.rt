//! The order in which the events of several files are shown.

ghost use Rattle.std.specs.Prelude.{◌≡◌, OnOk};
ghost use Rattle.std.specs.List.Sorted.{IsPermutation, IsNonDecreasingBy, IsStableByKey};
ghost use Rattle.std.specs.Ordering.{nat_cmp};
ghost use Rattle.gotymbe_plan.specs.Merging.{IsTurnAfter};

use std::alloc::AllocError;

/// When an event of a file is shown among those of others.
#[derive(Clone, Copy, Debug, PartialEq, Eq)]
pub struct Turn {
    /// The number of its file.
    pub file: usize,
    /// Its time in nanoseconds, or that of an event before it in the file that is later.
    pub time: u64,
}

/// The turn of an event, where the one before it in its file has a turn at this time, or 0 where there is none.
pub fn turn_after(file: usize, before: u64, time: u64) -> Turn
    ensures { IsTurnAfter file before time result }
{
    Turn {
        file,
        time: if time < before { before } else { time },
    }
}

/// Puts the turns of several files into the order of their times, those of one time as they stand. `AllocError`
/// where a growth was refused.
pub fn put_in_order(turns: &mut Vec<Turn>) -> Result<(), AllocError>
    ensures all { IsPermutation turns.old.items turns.new.items }
    ensures ordered { OnOk result (IsNonDecreasingBy (λ turn. turn.time) turns.new.items) }
    ensures ties { IsStableByKey (λ turn. turn.time) nat_cmp turns.old.items turns.new.items }
{
    turns.sort_by_key(|turn| turn.time)
}
