//! What a script says of pools.

ghost use Rattle.std.specs.Prelude.{◌≡◌, ◌<◌, ◌++◌, length, IfOk};
ghost use Rattle.std.specs.List.{flat_map};
ghost use Rattle.trace_recordings.specs.Pools.{id_text, pool_text_text, pool_stack_text};
ghost use Rattle.trace_recordings.specs.Scripts.{Shortens};

use crate::script::line_error::LineError;
use crate::script::parts::{after_mark, leading_addresses, leading_number, leading_text};
use std::alloc::Global;

/// An entry of a string pool.
#[derive(Drop)]
pub struct PoolText {
    pub id: u32,
    pub bytes: Vec<u8>,
}

/// An entry of a stack pool.
#[derive(Drop)]
pub struct PoolStack {
    pub id: u32,
    pub frames: Vec<u64>,
}

/// Entries of a string pool up to the end of the line. The first error: of each entry `Mark(' ')` before its id,
/// `Number` where no id stands, `TooLarge` where it is above 4,294,967,295, `Mark(':')` after it, and `Text` as
/// `leading_text` tells it. `Memory` where a growth was refused.
pub fn pool_texts(alloc: Global, line: &[u8]) -> Result<Vec<PoolText>, LineError>
    ensures { IfOk result (λ v. line.now ≡ flat_map pool_text_text v.items) }
{
    let mut entries = Vec::new(alloc);
    let mut rest = line;
    while !rest.is_empty() {
        let (entry, after) = leading_pool_text(alloc, rest)?;
        entries.push(entry)?;
        rest = after;
    }
    Ok(entries)
}

/// Entries of a stack pool up to the end of the line. Refuses what `pool_texts` does, with `Addresses` as
/// `leading_addresses` tells it in place of `Text`.
pub fn pool_stacks(alloc: Global, line: &[u8]) -> Result<Vec<PoolStack>, LineError>
    ensures { IfOk result (λ v. line.now ≡ flat_map pool_stack_text v.items) }
{
    let mut entries = Vec::new(alloc);
    let mut rest = line;
    while !rest.is_empty() {
        let (entry, after) = leading_pool_stack(alloc, rest)?;
        entries.push(entry)?;
        rest = after;
    }
    Ok(entries)
}

// An entry of a string pool, and the rest.
#[tactic(auto, unfolding(crate::specs::Pools::pool_text_text))]
fn leading_pool_text(alloc: Global, line: &[u8]) -> Result<(PoolText, &[u8]), LineError>
    ensures text { IfOk result (λ x. line.now ≡ pool_text_text x.0 ++ x.1.now) }
    ensures shorter { Shortens line.now result }
{
    let (id, rest) = leading_id(alloc, line)?;
    let (bytes, rest) = leading_text(alloc, rest)?;
    Ok((PoolText { id, bytes }, rest))
}

// An entry of a stack pool, and the rest.
#[tactic(auto, unfolding(crate::specs::Pools::pool_stack_text))]
fn leading_pool_stack(alloc: Global, line: &[u8]) -> Result<(PoolStack, &[u8]), LineError>
    ensures text { IfOk result (λ x. line.now ≡ pool_stack_text x.0 ++ x.1.now) }
    ensures shorter { Shortens line.now result }
{
    let (id, rest) = leading_id(alloc, line)?;
    let (frames, rest) = leading_addresses(alloc, rest)?;
    Ok((PoolStack { id, frames }, rest))
}

// A space, an id and a colon, and the rest.
#[tactic(auto, unfolding(crate::specs::Pools::id_text))]
fn leading_id(alloc: Global, line: &[u8]) -> Result<(u32, &[u8]), LineError>
    ensures text { IfOk result (λ x. line.now ≡ id_text x.0 ++ x.1.now) }
    ensures shorter { Shortens line.now result }
{
    let rest = after_mark(line, b" ").ok_or(LineError::Mark(' '))?;
    let (id, rest) = leading_number(alloc, rest)?;
    let id = u32::try_from(id).map_err(|_| LineError::TooLarge)?;
    let rest = after_mark(rest, b":").ok_or(LineError::Mark(':'))?;
    Ok((id, rest))
}
