//! Bytes that a call puts into the room that its caller has.

ghost use Rattle.std.specs.Prelude.{length};
ghost use Rattle.trace_door.specs.Filling.{Fills};

use crate::codes::SHORT_ROOM;

/// Puts the bytes at the front of the room, and answers the number that is to be told; `SHORT_ROOM` where the room is
/// shorter, and then it is as it was.
pub(crate) fn fill(room: &mut [u8], bytes: &[u8], told: u32) -> u32
    ensures { Fills bytes.now room.old room.new (length bytes.now) told result }
{
    if room.len() < bytes.len() {
        return SHORT_ROOM;
    }
    room[..bytes.len()].copy_from_slice(bytes);
    told
}
