//! Scripts of encoder calls (docs/RECORDINGS.md, "Scripts").

ghost use Rattle.std.specs.Prelude.{◌≡◌, ◌≢◌, ◌<◌, length, IfErr, IfOk, IfSome, OnOk};
ghost use Rattle.std.specs.Option.{option_copied};
ghost use Rattle.trace_recordings.specs.Scripts.{IsScript, IsBrokenAt, IsFirstLine, GainsCall, EndsWithReturn};
ghost use Rattle.trace_recordings.specs.Scripts.{SaysNoWord};
ghost use Rattle.trace_recordings.specs.Tallies.{counted_up};
ghost use Rattle.trace_recordings.specs.declared.script.line_error.LineError.TheVariants.{CarriageReturn, Memory};

mod call;
mod definitions;
mod line;
mod line_error;
mod loose;
mod parts;
mod pools;

pub use call::ScriptCall;
pub use definitions::Definition;
use line::call_of;
pub use line_error::LineError;
pub use pools::{PoolStack, PoolText};
use std::alloc::Global;
use thiserror::Error;

/// Which line of a script cannot be read, and why. Lines count from 1.
#[derive(Clone, Copy, Debug, PartialEq, Eq, Error)]
#[error("line {line}: {error}")]
pub struct ScriptError {
    pub line: usize,
    pub error: LineError,
}

/// Reads a script: what each line asks for, in their order. A line ends with a line feed, which the last one may
/// lack.
///  Refuses the first line that cannot be read, with its number and the error that `call_of` tells: `CarriageReturn`
/// in its place where a carriage return ends the line, but for `Memory`. `Memory` too where there is no room for what
/// the line asks for.
#[tactic(auto, using(crate::proofs::ScriptLines::one_more, crate::proofs::ScriptLines::the_last))]
pub fn script_of(alloc: Global, text: &[u8]) -> Result<Vec<ScriptCall>, ScriptError>
    ensures read { IfOk result (λ calls. IsScript calls.items text.now) }
    ensures broken { IfErr result (IsBrokenAt text.now) }
{
    let mut calls = Vec::new(alloc);
    let mut rest = text;
    loop {
        let (line, after) = first_line(rest);
        push_call(alloc, &mut calls, line)?;
        match after {
            Some(lines) => rest = lines,
            None => return Ok(calls),
        }
    }
}

// The first line, and what stands after its line feed.
#[tactic(auto, using(crate::proofs::ScriptLines::feed_at, crate::proofs::ScriptLines::no_feed))]
fn first_line(text: &[u8]) -> (&[u8], Option<&[u8]>)
    ensures line { IsFirstLine text.now result.0.now (option_copied result.1) }
    ensures shorter { IfSome result.1 (λ rest. length rest.now < length text.now) }
{
    for (at, byte) in text.iter().enumerate() {
        if *byte == b'\n' {
            return (&text[..at], Some(&text[at + 1..]));
        }
    }
    (text, None)
}

// Appends what a line asks for.
fn push_call(alloc: Global, calls: &mut Vec<ScriptCall>, line: &[u8]) -> Result<(), ScriptError>
    ensures gains { OnOk result (GainsCall calls.old.items calls.new.items line.now) }
    ensures counts { IfErr result (λ error. error.line ≡ counted_up (length calls.old.items) 1) }
    ensures unsaid { IfErr result (λ error. error.error ≢ Memory → SaysNoWord line.now) }
{
    let before = calls.len();
    match push_said(alloc, calls, line) {
        Ok(()) => Ok(()),
        Err(error) => Err(error_on(before, named(line, error))),
    }
}

// The same, with an error by its own name.
fn push_said(alloc: Global, calls: &mut Vec<ScriptCall>, line: &[u8]) -> Result<(), LineError>
    ensures gains { OnOk result (GainsCall calls.old.items calls.new.items line.now) }
    ensures unsaid { IfErr result (λ error. error ≢ Memory → SaysNoWord line.now) }
{
    let call = call_of(alloc, line)?;
    Ok(calls.push(call)?)
}

// An error in the line after this many.
fn error_on(before: usize, error: LineError) -> ScriptError
    ensures line { result.line ≡ counted_up before 1 }
    ensures error { result.error ≡ error }
{
    ScriptError {
        line: before.saturating_add(1),
        error,
    }
}

// By what name to tell the error of a line: a carriage return at its end is told before all but want of memory.
fn named(line: &[u8], error: LineError) -> LineError
    ensures memory { error ≡ Memory → result ≡ Memory }
    ensures returned { error ≢ Memory → EndsWithReturn line.now → result ≡ CarriageReturn }
    ensures other { (EndsWithReturn line.now → ⊥) → result ≡ error }
{
    if error == LineError::Memory {
        return error;
    }
    match line.last() {
        Some(b'\r') => LineError::CarriageReturn,
        _ => error,
    }
}
