//! Where what was found differs from what was recorded.

ghost use Rattle.std.specs.Prelude.{◌≡◌, ◌≢◌, ◌↔◌, ◌≤◌, length, take, slice_get, IsNone, IfSome, IfOk, string_bytes};
ghost use Rattle.trace_recordings.specs.Comparisons.{ended};

use std::alloc::{AllocError, Global};

/// Tells by what found bytes differ from the recorded ones, where they do. `AllocError` where a growth was refused.
pub fn bytes_difference(
    alloc: Global,
    recorded: &[u8],
    found: &[u8],
) -> Result<Option<String>, AllocError>
    ensures { IfOk result (λ difference. IsNone difference ↔ (recorded.now ≡ found.now)) }
{
    let Some(place) = first_difference(recorded, found) else {
        return Ok(None);
    };
    Ok(Some(format!(in alloc; "the bytes differ first at byte {place}")?))
}

/// Tells by what found lines differ from the recorded ones, where they do. Each found line has its line feed, and the
/// last recorded one lacks it. `AllocError` where a growth was refused.
pub fn lines_difference(
    alloc: Global,
    recorded: &str,
    found: &[u8],
) -> Result<Option<String>, AllocError>
    ensures { IfOk result (λ difference. IsNone difference ↔ (ended recorded.now ≡ found.now)) }
{
    let recorded = ended_lines(alloc, recorded)?;
    let Some(place) = first_difference(recorded.as_bytes(), found) else {
        return Ok(None);
    };
    Ok(Some(difference_in_line(alloc, recorded.as_bytes(), found, place)?))
}

// The place of the first byte by which two texts differ, or at which one of them ends. None where they are equal.
fn first_difference(recorded: &[u8], found: &[u8]) -> Option<usize>
    ensures same { IsNone result ↔ (recorded.now ≡ found.now) }
    ensures inside { IfSome result (λ i. (i ≤ length recorded.now) × (i ≤ length found.now)) }
    ensures front { IfSome result (λ i. take i recorded.now ≡ take i found.now) }
    ensures differs { IfSome result (λ i. slice_get recorded.now i ≢ slice_get found.now i) }
{
    let both = recorded.len().min(found.len());
    for i in 0..both {
        if recorded[i] != found[i] {
            return Some(i);
        }
    }
    if recorded.len() == found.len() {
        None
    } else {
        Some(both)
    }
}

// Lines with the line feed that ends the last, where there is one.
fn ended_lines(alloc: Global, lines: &str) -> Result<String, AllocError>
    ensures { IfOk result (λ text. string_bytes text ≡ ended lines.now) }
{
    let mut text = String::from_str(alloc, lines)?;
    if !lines.is_empty() {
        text.push('\n')?;
    }
    Ok(text)
}

// Tells which line a place stands in, and how both texts have it.
fn difference_in_line(
    alloc: Global,
    recorded: &[u8],
    found: &[u8],
    place: usize,
) -> Result<String, AllocError> {
    let before = line_feeds(recorded, place);
    let number = before.saturating_add(1);
    let expected = String::from_utf8_lossy(alloc, line_of(recorded, before))?;
    let actual = String::from_utf8_lossy(alloc, line_of(found, before))?;
    format!(in alloc; "line {number} was recorded as `{expected}` and is `{actual}`")
}

// How many line feeds stand before a place.
fn line_feeds(text: &[u8], place: usize) -> usize {
    text.iter()
        .take(place)
        .filter(|byte| **byte == b'\n')
        .count()
}

// The line after this many line feeds, and nothing where the text has not as many.
fn line_of(text: &[u8], before: usize) -> &[u8] {
    text.split(|byte| *byte == b'\n').nth(before).unwrap_or(&[])
}
