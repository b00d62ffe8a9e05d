//! Lists with room that is made ahead, for values that a count in the input tells of.

ghost use Rattle.std.specs.Prelude.{◌≡◌, []};

use std::alloc::Global;

/// The most values that room is made for ahead.
const MOST_AHEAD: usize = 1024;

/// A list without values, with room for those that are told, of which at most so many can stand in the bytes. Where the
/// room is not to be had, the list has none, and grows as values are put in.
#[inline(always)]
pub(crate) fn list_ahead<T: Drop>(alloc: Global, told: u32, most: usize) -> Vec<T>
    ensures { result.items ≡ [] }
{
    let count = (told as usize).min(most).min(MOST_AHEAD);
    match Vec::with_capacity(alloc, count) {
        Ok(list) => list,
        Err(_) => Vec::new(alloc),
    }
}
