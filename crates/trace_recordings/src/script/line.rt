//! The lines of a script.

ghost use Rattle.std.specs.Prelude.{◌≡◌, ◌↔◌, ◌<◌, ◌≤◌, ◌++◌, ℕ, List, [], length, take, IfErr, IfOk, IfSome, IsNone};
ghost use Rattle.std.specs.Prelude.{IsSome, OnOk, codes, decimal};
ghost use Rattle.std.specs.List.{flat_map, AllPass};
ghost use Rattle.hex.specs.Hex.{is_hex_digit};
ghost use Rattle.trace_values.specs.ValueViews.{view, views};
ghost use Rattle.trace_lines.specs.Lines.{spaced_value};
ghost use Rattle.trace_recordings.specs.Scripts.{event_text, AreDigitsOf, IsPair, Says, SaysNoWord, Shortens};

use crate::script::call::ScriptCall;
use crate::script::definitions::definition_of;
use crate::script::line_error::LineError;
use crate::script::parts::{
    after_mark, leading_addresses, leading_name, leading_number, leading_value,
};
use crate::script::pools::{pool_stacks, pool_texts};
use hex::FromHex;
use std::alloc::Global;
use trace_values::types::FieldValue;

/// Reads what a line asks for. A line that is empty or begins with `#`, and one that is `reset`, `resume` or `bare`,
/// is never refused.
///  Of any other: `ScriptCall` where its first word is that of no call with parts; else the first error of its parts,
/// from left to right. `Mark(' ')` where a part has no space before it; `Number` of a handle, a slot or a time; what
/// `definition_of`, `leading_value`, `leading_name`, `leading_addresses`, `pool_texts` and `pool_stacks` refuse of
/// what the call has; `Hexadecimal` of bytes; `Excess` where more stands after a handle, a text or addresses that end
/// the call. `Memory` where a growth was refused.
pub fn call_of(alloc: Global, line: &[u8]) -> Result<ScriptCall, LineError>
    ensures says { IfOk result (λ call. Says call line.now) }
    ensures unsaid { IfErr result (λ _. SaysNoWord line.now) }
{
    match one_word_call(line) {
        Some(call) => Ok(call),
        None => parts_of(alloc, line),
    }
}

// What a line asks for that says nothing, or is one word.
#[tactic(auto, using(crate::proofs::ScriptLines::no_word))]
fn one_word_call(line: &[u8]) -> Option<ScriptCall>
    ensures says { IfSome result (λ call. Says call line.now) }
    ensures unsaid { IsNone result → SaysNoWord line.now }
{
    match line {
        [] | [b'#', ..] => Some(ScriptCall::Nothing),
        b"reset" => Some(ScriptCall::Reset),
        b"resume" => Some(ScriptCall::Resume),
        b"bare" => Some(ScriptCall::Bare),
        _ => None,
    }
}

// What a line asks for that has parts after its word.
fn parts_of(alloc: Global, line: &[u8]) -> Result<ScriptCall, LineError>
    ensures { IfOk result (λ call. Says call line.now) }
{
    let (word, rest) = first_word(line);
    match word {
        b"define" => define_call(alloc, rest),
        b"register" => register_call(alloc, rest),
        b"event" => event_call(alloc, rest),
        b"type" => type_call(alloc, rest),
        b"write" => write_call(alloc, rest),
        b"string" => string_call(alloc, rest),
        b"stack" => stack_call(alloc, rest),
        b"strings" => strings_call(alloc, rest),
        b"stacks" => stacks_call(alloc, rest),
        b"raw" => raw_call(alloc, rest),
        _ => Err(LineError::ScriptCall),
    }
}

// The line up to its first space, and the rest.
fn first_word(line: &[u8]) -> (&[u8], &[u8])
    ensures { line.now ≡ result.0.now ++ result.1.now }
{
    let end = line
        .iter()
        .position(|byte| *byte == b' ')
        .unwrap_or(line.len());
    line.split_at(end)
}

// A handle, and what the schema is.
fn define_call(alloc: Global, line: &[u8]) -> Result<ScriptCall, LineError>
    ensures { IfOk result (λ call. Says call (codes "define" ++ line.now)) }
{
    let (handle, rest) = leading_number(alloc, space(line)?)?;
    let definition = definition_of(alloc, space(rest)?)?;
    Ok(ScriptCall::Define { handle, definition })
}

// A handle.
fn register_call(alloc: Global, line: &[u8]) -> Result<ScriptCall, LineError>
    ensures { IfOk result (λ call. Says call (codes "register" ++ line.now)) }
{
    let (handle, rest) = leading_number(alloc, space(line)?)?;
    nothing_left(rest)?;
    Ok(ScriptCall::Register { handle })
}

// What an event is.
fn event_call(alloc: Global, line: &[u8]) -> Result<ScriptCall, LineError>
    ensures { IfOk result (λ call. Says call (codes "event" ++ line.now)) }
{
    let (handle, time, values) = event_parts(alloc, space(line)?)?;
    Ok(ScriptCall::Event {
        handle,
        time,
        values,
    })
}

// A handle, a slot, and what the type's events are.
fn type_call(alloc: Global, line: &[u8]) -> Result<ScriptCall, LineError>
    ensures { IfOk result (λ call. Says call (codes "type" ++ line.now)) }
{
    let (handle, rest) = leading_number(alloc, space(line)?)?;
    let (slot, rest) = leading_number(alloc, space(rest)?)?;
    let definition = definition_of(alloc, space(rest)?)?;
    Ok(ScriptCall::DefineType {
        handle,
        slot,
        definition,
    })
}

// What an event of a type is.
fn write_call(alloc: Global, line: &[u8]) -> Result<ScriptCall, LineError>
    ensures { IfOk result (λ call. Says call (codes "write" ++ line.now)) }
{
    let (handle, time, values) = event_parts(alloc, space(line)?)?;
    Ok(ScriptCall::WriteTyped {
        handle,
        time,
        values,
    })
}

// A text.
fn string_call(alloc: Global, line: &[u8]) -> Result<ScriptCall, LineError>
    ensures { IfOk result (λ call. Says call (codes "string" ++ line.now)) }
{
    let (text, rest) = leading_name(alloc, space(line)?)?;
    nothing_left(rest)?;
    Ok(ScriptCall::InternString { text })
}

// Addresses.
fn stack_call(alloc: Global, line: &[u8]) -> Result<ScriptCall, LineError>
    ensures { IfOk result (λ call. Says call (codes "stack" ++ line.now)) }
{
    let (frames, rest) = leading_addresses(alloc, space(line)?)?;
    nothing_left(rest)?;
    Ok(ScriptCall::InternStack { frames })
}

// The entries of a string pool.
fn strings_call(alloc: Global, line: &[u8]) -> Result<ScriptCall, LineError>
    ensures { IfOk result (λ call. Says call (codes "strings" ++ line.now)) }
{
    let entries = pool_texts(alloc, line)?;
    Ok(ScriptCall::StringPool { entries })
}

// The entries of a stack pool.
fn stacks_call(alloc: Global, line: &[u8]) -> Result<ScriptCall, LineError>
    ensures { IfOk result (λ call. Says call (codes "stacks" ++ line.now)) }
{
    let entries = pool_stacks(alloc, line)?;
    Ok(ScriptCall::StackPool { entries })
}

// Bytes.
fn raw_call(alloc: Global, line: &[u8]) -> Result<ScriptCall, LineError>
    ensures { IfOk result (λ call. Says call (codes "raw" ++ line.now)) }
{
    let bytes = hex_bytes(alloc, space(line)?)?;
    Ok(ScriptCall::Raw { bytes })
}

// A handle, a time, and the values of an event.
#[tactic(auto, unfolding(crate::specs::Scripts::event_text))]
fn event_parts(alloc: Global, line: &[u8]) -> Result<(u64, u64, Vec<FieldValue>), LineError>
    ensures { IfOk result (λ x. line.now ≡ event_text x.0 x.1 (views x.2.items)) }
{
    let (handle, rest) = leading_number(alloc, line)?;
    let (time, rest) = leading_number(alloc, space(rest)?)?;
    let values = values_of(alloc, rest)?;
    Ok((handle, time, values))
}

// Values up to the end of the line, each after a space.
fn values_of(alloc: Global, line: &[u8]) -> Result<Vec<FieldValue>, LineError>
    ensures { IfOk result (λ vs. line.now ≡ flat_map spaced_value (views vs.items)) }
{
    let mut values = Vec::new(alloc);
    let mut rest = line;
    while !rest.is_empty() {
        let (value, after) = leading_spaced_value(alloc, rest)?;
        values.push(value)?;
        rest = after;
    }
    Ok(values)
}

// A value after a space, and the rest.
fn leading_spaced_value(alloc: Global, line: &[u8]) -> Result<(FieldValue, &[u8]), LineError>
    ensures text { IfOk result (λ x. line.now ≡ spaced_value (view x.0) ++ x.1.now) }
    ensures shorter { Shortens line.now result }
{
    leading_value(alloc, space(line)?)
}

// The bytes of pairs of hexadecimal digits, between which a space may stand.
fn hex_bytes(alloc: Global, line: &[u8]) -> Result<Vec<u8>, LineError>
    ensures { IfOk result (λ bytes. AreDigitsOf bytes.items line.now) }
{
    let mut bytes = Vec::new(alloc);
    let mut rest = line;
    'pairs: loop {
        let (byte, after) = leading_pair(rest).ok_or(LineError::Hexadecimal)?;
        bytes.push(byte)?;
        match after {
            [] => return Ok(bytes),
            [b' ', more @ ..] => rest = more,
            more => rest = more,
        }
    }
}

// The byte of the two hexadecimal digits at the front, and the rest. None where no two stand there.
fn leading_pair(text: &[u8]) -> Option<(u8, &[u8])>
    ensures found { IsSome result
        ↔ ((2 ≤ length text.now) × AllPass is_hex_digit (take 2 text.now)) }
    ensures pair { IfSome result
        (λ x. (pair : List ℕ) × IsPair x.0 pair × (text.now ≡ pair ++ x.1.now)) }
    ensures shorter { IfSome result (λ x. length x.1.now < length text.now) }
{
    let (pair, rest) = text.split_at_checked(2)?;
    let [byte] = <[u8; 1]>::from_hex(pair).ok()?;
    Some((byte, rest))
}

// What stands after a space.
fn space(line: &[u8]) -> Result<&[u8], LineError>
    ensures { IfOk result (λ rest. line.now ≡ codes " " ++ rest.now) }
{
    after_mark(line, b" ").ok_or(LineError::Mark(' '))
}

// Nothing stands there.
fn nothing_left(line: &[u8]) -> Result<(), LineError>
    ensures { OnOk result (line.now ≡ []) }
{
    if !line.is_empty() {
        return Err(LineError::Excess);
    }
    Ok(())
}
