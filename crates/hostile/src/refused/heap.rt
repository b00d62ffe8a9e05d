//! The heap of `tools/refused`. It is steered by sizes that no growth of the library has, and that any other heap
//! refuses, since no memory holds as much.

use std::alloc::Global;

/// The least size that steers. What is added to it says what to do.
const STEERS: usize = 0x5A00_0000_0000_0000;

/// Refuse no more. It is granted where a growth was refused since the last number.
const ENDS: usize = 0x1_0000_0000;

/// It is granted by that heap alone.
const IS_THERE: usize = 0x2_0000_0000;

fn is_granted(alloc: Global, size: usize) -> bool {
    let room: Result<Vec<u8>, _> = Vec::with_capacity(alloc, size);
    room.is_ok()
}

/// Whether the program runs over that heap.
pub fn is_there(alloc: Global) -> bool {
    is_granted(alloc, STEERS + IS_THERE)
}

/// From now on the growth of this number, counted from 1, is refused, and no other.
pub fn refuse(alloc: Global, number: u32) {
    let _ = is_granted(alloc, STEERS + number as usize);
}

/// No growth is refused from now on. Whether one was.
pub fn was_refused(alloc: Global) -> bool {
    is_granted(alloc, STEERS + ENDS)
}
