//! The texts and stacks that values name by their index.

ghost use Rattle.std.specs.Prelude.{◌≡◌, [], IfOk, string_bytes, OnOk};
ghost use Rattle.trace_page.specs.Holding.{texts_in, lists_in};
ghost use Rattle.trace_page.specs.parts.Writing.{IsLonger, StandsAt};

use indexmap::IndexSet;
use std::alloc::{AllocError, Global};

/// Texts and stacks, each once, in the order in which they were named first.
#[derive(Drop)]
pub struct Names {
    pub(crate) strings: IndexSet<String>,
    pub(crate) stacks: IndexSet<Vec<u64>>,
}

impl Names {
    /// No texts and no stacks. Takes no memory.
    pub(crate) fn new(alloc: Global) -> Names
        ensures strings { texts_in result.strings ≡ [] }
        ensures stacks { lists_in result.stacks ≡ [] }
    {
        Names {
            strings: IndexSet::new(alloc),
            stacks: IndexSet::new(alloc),
        }
    }
}

/// The index of a text, which is put in last where it is new. `AllocError` where a growth was refused.
pub(crate) fn index_of_text(
    alloc: Global,
    strings: &mut IndexSet<String>,
    text: &str,
) -> Result<usize, AllocError>
    ensures index { IfOk result (StandsAt (texts_in strings.new) text.now) }
    ensures grown { OnOk result (IsLonger (texts_in strings.old) (texts_in strings.new)) }
{
    match strings.get_index_of(text) {
        Some(index) => Ok(index),
        None => {
            let copy = String::from_str(alloc, text)?;
            put_last_text(strings, copy)
        }
    }
}

// Puts a text in that is new, and answers its index.
fn put_last_text(strings: &mut IndexSet<String>, text: String) -> Result<usize, AllocError>
    ensures index { IfOk result (StandsAt (texts_in strings.new) (string_bytes text)) }
    ensures grown { OnOk result (IsLonger (texts_in strings.old) (texts_in strings.new)) }
{
    match strings.insert_full(text) {
        Ok(put) => Ok(put.0),
        Err(_) => Err(AllocError),
    }
}

/// The index of a stack, which is put in last where it is new. `AllocError` where a growth was refused.
pub(crate) fn index_of_stack(
    alloc: Global,
    stacks: &mut IndexSet<Vec<u64>>,
    stack: &[u64],
) -> Result<usize, AllocError>
    ensures index { IfOk result (StandsAt (lists_in stacks.new) stack.now) }
    ensures grown { OnOk result (IsLonger (lists_in stacks.old) (lists_in stacks.new)) }
{
    match stacks.get_index_of(stack) {
        Some(index) => Ok(index),
        None => {
            let mut copy = Vec::new(alloc);
            copy.extend_from_slice(stack)?;
            put_last_stack(stacks, copy)
        }
    }
}

// Puts a stack in that is new, and answers its index.
fn put_last_stack(stacks: &mut IndexSet<Vec<u64>>, stack: Vec<u64>) -> Result<usize, AllocError>
    ensures index { IfOk result (StandsAt (lists_in stacks.new) stack.items) }
    ensures grown { OnOk result (IsLonger (lists_in stacks.old) (lists_in stacks.new)) }
{
    match stacks.insert_full(stack) {
        Ok(put) => Ok(put.0),
        Err(_) => Err(AllocError),
    }
}
