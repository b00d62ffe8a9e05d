//! What a part of a line seems to say. Nothing here minds how exactly a part is spelled: the caller prints what was
//! found, and sees whether the line begins with that.

ghost use Rattle.std.specs.Prelude.{◌≡◌, ◌-◌, ◌+◌, ◌<◌, ◌≤◌, drop, length, IfOk, IfSome};
ghost use Rattle.trace_recordings.specs.Scripts.{Shortens};

use crate::script::line_error::LineError;
use crate::script::parts::after_mark;
use std::alloc::Global;
use trace_values::types::{FieldValue, InternedStackFrames, InternedString, StackFrames};

/// The number of the digits at the front, and the rest. It wraps at 64 bits, and is 0 where no digit stands.
pub fn number(text: &[u8], radix: u32) -> (u64, &[u8])
    requires lower_bound { 2 ≤ radix }
    requires upper_bound { radix ≤ 36 }
    ensures rest { result.1.now ≡ drop (length text.now - length result.1.now) text.now }
    ensures len { length result.1.now ≤ length text.now }
{
    let mut value = 0u64;
    for (i, byte) in text.iter().enumerate() {
        match char::from(*byte).to_digit(radix) {
            Some(digit) => value = value
                .wrapping_mul(u64::from(radix))
                .wrapping_add(u64::from(digit)),
            None => return (value, &text[i..]),
        }
    }
    (value, &[])
}

/// The bytes of the text in quotes at the front, and the rest. `Text` where no quote begins it or none ends it, or
/// where what stands after `\x` are no two hexadecimal digits. `Memory` where a growth was refused.
pub fn text(alloc: Global, line: &[u8]) -> Result<(Vec<u8>, &[u8]), LineError>
    ensures { Shortens line.now result }
{
    let mut bytes = Vec::new(alloc);
    let mut rest = after_mark(line, b"\"").ok_or(LineError::Text)?;
    loop {
        match rest {
            [b'"', after @ ..] => return Ok((bytes, after)),
            [b'\\', b'x', high, low, after @ ..] => {
                bytes.push(hex_byte(*high, *low).ok_or(LineError::Text)?)?;
                rest = after;
            }
            [byte, after @ ..] => {
                bytes.push(*byte)?;
                rest = after;
            }
            [] => return Err(LineError::Text),
        }
    }
}

// The byte of two hexadecimal digits.
fn hex_byte(high: u8, low: u8) -> Option<u8> {
    let high = char::from(high).to_digit(16)?;
    let low = char::from(low).to_digit(16)?;
    u8::try_from(high * 16 + low).ok()
}

/// The addresses in brackets at the front, and the rest. `Addresses` where no bracket begins them, one has no `0x`
/// before it, or neither a comma nor a bracket stands after it. `Memory` where a growth was refused.
pub fn addresses(alloc: Global, line: &[u8]) -> Result<(Vec<u64>, &[u8]), LineError>
    ensures { Shortens line.now result }
{
    let mut addresses = Vec::new(alloc);
    let mut rest = after_mark(line, b"[").ok_or(LineError::Addresses)?;
    if let [b']', after @ ..] = rest {
        return Ok((addresses, after));
    }
    loop {
        let digits = after_mark(rest, b"0x").ok_or(LineError::Addresses)?;
        let (address, after) = number(digits, 16);
        addresses.push(address)?;
        match after {
            [b',', more @ ..] => rest = more,
            [b']', more @ ..] => return Ok((addresses, more)),
            _ => return Err(LineError::Addresses),
        }
    }
}

/// The value at the front, which has at most this many values around its innermost one, and the rest.
///
/// The first error from left to right: `TooLarge` of an id of a text or a stack which, as `number` reads it, is above
/// 4,294,967,295; `Utf8` of a text that is not UTF-8; `Text` and `Addresses` as `text` and `addresses` tell them;
/// `Mark('=')` where a pair has none after its key; `Depth` of a list or a map that has as many around it as are
/// allowed; `Value` where no value begins, or neither a comma nor the closing mark stands after an item or a pair.
/// `Memory` where a growth was refused.
#[cycle(loose)]
pub fn value(alloc: Global, levels: u32, line: &[u8]) -> Result<(FieldValue, &[u8]), LineError>
    ensures { Shortens line.now result }
{
    if let Some(found) = plain(line) {
        return Ok(found);
    }
    if let Some(found) = pooled(line)? {
        return Ok(found);
    }
    if let Some(found) = held(alloc, line)? {
        return Ok(found);
    }
    inside(alloc, levels, line)
}

// A value of fixed width or none at the front, and the rest.
fn plain(line: &[u8]) -> Option<(FieldValue, &[u8])>
    ensures { IfSome result (λ x. length x.1.now < length line.now) }
{
    if let Some(rest) = after_mark(line, b"None") {
        return Some((FieldValue::None, rest));
    }
    if let Some(rest) = after_mark(line, b"Bool:true") {
        return Some((FieldValue::Bool(true), rest));
    }
    if let Some(rest) = after_mark(line, b"Bool:false") {
        return Some((FieldValue::Bool(false), rest));
    }
    if let Some(rest) = after_mark(line, b"I64:") {
        return Some(integer(rest));
    }
    if let Some(rest) = after_mark(line, b"F64:0x") {
        let (bits, rest) = number(rest, 16);
        return Some((FieldValue::F64(bits), rest));
    }
    if let Some(rest) = after_mark(line, b"Varint:") {
        let (number, rest) = number(rest, 10);
        return Some((FieldValue::Varint(number), rest));
    }
    None
}

// The id of a text or of a stack at the front, and the rest.
fn pooled(line: &[u8]) -> Result<Option<(FieldValue, &[u8])>, LineError>
    ensures { IfOk result (λ found. IfSome found (λ x. length x.1.now < length line.now)) }
{
    if let Some(rest) = after_mark(line, b"PooledString:pool#") {
        let (id, rest) = number(rest, 10);
        let id = u32::try_from(id).map_err(|_| LineError::TooLarge)?;
        let id = InternedString::from_raw(id);
        return Ok(Some((FieldValue::PooledString(id), rest)));
    }
    if let Some(rest) = after_mark(line, b"PooledStackFrames:stack#") {
        let (id, rest) = number(rest, 10);
        let id = u32::try_from(id).map_err(|_| LineError::TooLarge)?;
        let id = InternedStackFrames::from_raw(id);
        return Ok(Some((FieldValue::PooledStackFrames(id), rest)));
    }
    Ok(None)
}

// A text, bytes, addresses or a map of texts at the front, and the rest.
fn held(alloc: Global, line: &[u8]) -> Result<Option<(FieldValue, &[u8])>, LineError>
    ensures { IfOk result (λ found. IfSome found (λ x. length x.1.now < length line.now)) }
{
    if let Some(rest) = after_mark(line, b"String:") {
        let (bytes, rest) = text(alloc, rest)?;
        let text = String::from_utf8(bytes).map_err(|_| LineError::Utf8)?;
        return Ok(Some((FieldValue::String(text), rest)));
    }
    if let Some(rest) = after_mark(line, b"Bytes:") {
        let (bytes, rest) = text(alloc, rest)?;
        return Ok(Some((FieldValue::Bytes(bytes), rest)));
    }
    if let Some(rest) = after_mark(line, b"StackFrames:") {
        let (frames, rest) = addresses(alloc, rest)?;
        return Ok(Some((FieldValue::StackFrames(StackFrames(frames)), rest)));
    }
    if let Some(rest) = after_mark(line, b"StringMap:{") {
        let (pairs, rest) = text_pairs(alloc, rest)?;
        return Ok(Some((FieldValue::StringMap(pairs), rest)));
    }
    Ok(None)
}

// A number with its sign, and the rest. It wraps at 64 bits.
fn integer(line: &[u8]) -> (FieldValue, &[u8])
    ensures { length result.1.now ≤ length line.now }
{
    match after_mark(line, b"-") {
        Some(digits) => {
            let (number, rest) = number(digits, 10);
            (FieldValue::I64(number.wrapping_neg().cast_signed()), rest)
        }
        None => {
            let (number, rest) = number(line, 10);
            (FieldValue::I64(number.cast_signed()), rest)
        }
    }
}

// The pairs of a map of texts up to its closing brace, and the rest.
fn text_pairs(alloc: Global, line: &[u8]) -> Result<(Vec<(Vec<u8>, Vec<u8>)>, &[u8]), LineError>
    ensures { Shortens line.now result }
{
    let mut pairs = Vec::new(alloc);
    if let [b'}', after @ ..] = line {
        return Ok((pairs, after));
    }
    let mut rest = line;
    loop {
        let (key, after) = text(alloc, rest)?;
        let after = after_mark(after, b"=").ok_or(LineError::Mark('='))?;
        let (value, after) = text(alloc, after)?;
        pairs.push((key, value))?;
        match after {
            [b',', more @ ..] => rest = more,
            [b'}', more @ ..] => return Ok((pairs, more)),
            _ => return Err(LineError::Value),
        }
    }
}

// A list or a map at the front, and the rest.
#[cycle(loose)]
fn inside(alloc: Global, levels: u32, line: &[u8]) -> Result<(FieldValue, &[u8]), LineError>
    ensures { Shortens line.now result }
{
    if let Some(rest) = after_mark(line, b"List:[") {
        if levels == 0 {
            return Err(LineError::Depth);
        }
        let (items, rest) = items(alloc, levels - 1, rest)?;
        return Ok((FieldValue::List(items), rest));
    }
    if let Some(rest) = after_mark(line, b"Map:{") {
        if levels == 0 {
            return Err(LineError::Depth);
        }
        let (pairs, rest) = pairs(alloc, levels - 1, rest)?;
        return Ok((FieldValue::Map(pairs), rest));
    }
    Err(LineError::Value)
}

// The items of a list up to its closing bracket, and the rest.
#[cycle(loose)]
fn items(alloc: Global, levels: u32, line: &[u8]) -> Result<(Vec<FieldValue>, &[u8]), LineError>
    ensures { Shortens line.now result }
{
    let mut items = Vec::new(alloc);
    if let [b']', after @ ..] = line {
        return Ok((items, after));
    }
    let mut rest = line;
    loop {
        let (item, after) = value(alloc, levels, rest)?;
        items.push(item)?;
        match after {
            [b',', more @ ..] => rest = more,
            [b']', more @ ..] => return Ok((items, more)),
            _ => return Err(LineError::Value),
        }
    }
}

// The pairs of a map up to its closing brace, and the rest.
#[cycle(loose)]
fn pairs(
    alloc: Global,
    levels: u32,
    line: &[u8],
) -> Result<(Vec<(FieldValue, FieldValue)>, &[u8]), LineError>
    ensures { Shortens line.now result }
{
    let mut pairs = Vec::new(alloc);
    if let [b'}', after @ ..] = line {
        return Ok((pairs, after));
    }
    let mut rest = line;
    loop {
        let (key, after) = value(alloc, levels, rest)?;
        let after = after_mark(after, b"=").ok_or(LineError::Mark('='))?;
        let (value, after) = value(alloc, levels, after)?;
        pairs.push((key, value))?;
        match after {
            [b',', more @ ..] => rest = more,
            [b'}', more @ ..] => return Ok((pairs, more)),
            _ => return Err(LineError::Value),
        }
    }
}
