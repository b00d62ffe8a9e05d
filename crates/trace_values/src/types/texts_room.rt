//! Room that is made once for all texts of a map, and is then filled.

ghost use Rattle.std.specs.Prelude.{◌≡◌, ◌⊎◌, ◌<◌, ◌≤◌, ◌+◌, ◌^◌, ◌++◌, true, false, length, take, drop, MatchOption};
ghost use Rattle.std.specs.List.{flat_map};
ghost use Rattle.trace_values.specs.Limits.{greatest_u32};
ghost use Rattle.trace_values.specs.Values.{counted, text_pair, u32};
ghost use Rattle.trace_values.specs.Spelling.{are_short_pairs, is_short};
ghost use Rattle.trace_values.specs.Encoding.{Appends};
ghost use Rattle.trace_values.specs.parts.types.TextParts.{parts_view};

use crate::types::fitting::is_short;
use crate::types::limits::MAX_U32;
use crate::types::text_part::TextPart;
use std::alloc::AllocError;

/// How many bytes the pairs of a map of texts take, where each of them can stand after its length; `None` where one
/// cannot, or where no number of 64 bits tells it.
#[inline(always)]
pub(crate) fn room_of_texts<T: TextPart>(pairs: &[(T, T)]) -> Option<usize>
    ensures { MatchOption result
        ((are_short_pairs (parts_view T.bytes pairs.now) ≡ false)
        ⊎ (2 ^ 64 ≤ length (flat_map text_pair (parts_view T.bytes pairs.now))))
        (λ room. (are_short_pairs (parts_view T.bytes pairs.now) ≡ true)
        × (room ≡ length (flat_map text_pair (parts_view T.bytes pairs.now)))) }
{
    let mut room = 0usize;
    for pair in pairs {
        let Some(key) = room_of_text(pair.0.bytes()) else {
            return None;
        };
        let Some(value) = room_of_text(pair.1.bytes()) else {
            return None;
        };
        let Some(more) = room.checked_add(key + value) else {
            return None;
        };
        room = more;
    }
    Some(room)
}

/// How many bytes the pairs of a map of texts take, where four bytes can tell it, and so each length in them; else
/// `None`.
#[inline(always)]
pub(crate) fn small_room_of_texts<T: TextPart>(pairs: &[(T, T)]) -> Option<usize>
    ensures { MatchOption result
        (greatest_u32 < length (flat_map text_pair (parts_view T.bytes pairs.now)))
        (λ room. (room ≤ greatest_u32)
        × (room ≡ length (flat_map text_pair (parts_view T.bytes pairs.now)))) }
{
    let mut room = 0usize;
    for pair in pairs {
        let both = pair.0.bytes().len() + pair.1.bytes().len();
        if both > MAX_U32 as usize {
            return None;
        }
        room += both + 8;
        if room > MAX_U32 as usize {
            return None;
        }
    }
    Some(room)
}

/// How many bytes a text takes with its length; `None` where four bytes cannot tell the length.
#[inline(always)]
fn room_of_text(text: &[u8]) -> Option<usize>
    ensures { MatchOption result (is_short text.now ≡ false)
        (λ room. (is_short text.now ≡ true) × (room ≡ length (counted text.now))) }
{
    if !is_short(text) {
        return None;
    }
    Some(text.len() + 4)
}

/// Appends the pairs of a map of texts, which take so many bytes. `AllocError` where a growth was refused: then the
/// old bytes stand unchanged.
#[inline(always)]
pub(crate) fn push_texts_in<T: TextPart>(
    out: &mut Vec<u8>,
    room: usize,
    pairs: &[(T, T)],
) -> Result<(), AllocError>
    requires { room ≡ length (flat_map text_pair (parts_view T.bytes pairs.now)) }
    ensures { Appends (flat_map text_pair (parts_view T.bytes pairs.now)) out.old.items
        out.new.items result }
{
    let start = out.len();
    let Some(end) = start.checked_add(room) else {
        return Err(AllocError);
    };
    out.resize(end, 0)?;
    fill_texts(&mut out[start..], pairs);
    Ok(())
}

/// Puts the pairs of a map of texts into the place of as many bytes.
#[inline(always)]
fn fill_texts<T: TextPart>(place: &mut [u8], pairs: &[(T, T)])
    requires { length place.old ≡ length (flat_map text_pair (parts_view T.bytes pairs.now)) }
    ensures { place.new ≡ flat_map text_pair (parts_view T.bytes pairs.now) }
{
    let mut at = 0;
    for pair in pairs {
        at = fill_counted(place, at, pair.0.bytes());
        at = fill_counted(place, at, pair.1.bytes());
    }
}

/// Puts bytes after their length at a place, and answers where they end; of a length that passes 4,294,967,295 the
/// low four bytes are put. What stands before and after them stays.
#[inline(always)]
pub(crate) fn fill_counted(room: &mut [u8], at: usize, bytes: &[u8]) -> usize
    requires { at + length (counted bytes.now) ≤ length room.old }
    ensures bytes { room.new ≡ take at room.old ++ counted bytes.now ++ drop result room.old }
    ensures end { result ≡ at + length (counted bytes.now) }
{
    let start = at + 4;
    let end = start + bytes.len();
    fill_count(&mut room[at..start], bytes.len());
    fill(&mut room[start..end], bytes);
    end
}

/// Puts a length into the place of four bytes; of one that passes 4,294,967,295 these are the low four.
#[inline(always)]
fn fill_count(place: &mut [u8], count: usize)
    requires { length place.old ≡ 4 }
    ensures { place.new ≡ u32 count }
{
    place.copy_from_slice(&count.to_le_bytes()[..4]);
}

/// Puts bytes into the place of as many. From 2 to 32 of them are copied in line.
#[inline(always)]
fn fill(place: &mut [u8], bytes: &[u8])
    requires { length place.old ≡ length bytes.now }
    ensures { place.new ≡ bytes.now }
{
    match bytes.len() {
        2..=3 => fill_ends::<2>(place, bytes),
        4..=7 => fill_ends::<4>(place, bytes),
        8..=16 => fill_ends::<8>(place, bytes),
        17..=32 => fill_ends::<16>(place, bytes),
        _ => fill_any(place, bytes),
    }
}

/// The same of any number, by a call.
#[inline(never)]
fn fill_any(place: &mut [u8], bytes: &[u8])
    requires { length place.old ≡ length bytes.now }
    ensures { place.new ≡ bytes.now }
{
    place.copy_from_slice(bytes);
}

/// The same of the first and the last so many bytes, which reach all.
#[inline(always)]
fn fill_ends<const N: usize>(place: &mut [u8], bytes: &[u8])
    requires len { length place.old ≡ length bytes.now }
    requires enough { N ≤ length bytes.now }
    requires reached { length bytes.now ≤ N + N }
    ensures { place.new ≡ bytes.now }
{
    let Some(first) = bytes.first_chunk::<N>() else {
        unreachable!()
    };
    let Some(last) = bytes.last_chunk::<N>() else {
        unreachable!()
    };
    if let Some(front) = place.first_chunk_mut::<N>() {
        *front = *first;
    }
    if let Some(back) = place.last_chunk_mut::<N>() {
        *back = *last;
    }
}
