//! Entries of pools, and annotations, as they stand in a line. Each function answers `AllocError` where a growth was
//! refused.

ghost use Rattle.std.specs.Prelude.{◌++◌, codes};
ghost use Rattle.std.specs.Fmt.{decimal};
ghost use Rattle.trace_wire.specs.PoolEntries.{string_entry_of, stack_entry_of};
ghost use Rattle.dial9_trace_format.specs.CompactFrames.{compact_entry_of};
ghost use Rattle.trace_lines.specs.Appending.{AppendsText};
ghost use Rattle.trace_lines.specs.Lines.{string_entry_text, stack_entry_text, annotation_text};

use crate::text::{push_addresses, push_decimal, push_quoted};
use crate::text_maps::push_text_pair;
use dial9_trace_format::decoder::CompactEntry;
use std::alloc::AllocError;
use trace_wire::codec::{PoolEntry, StackPoolEntry};
use trace_wire::schema::FieldAnnotation;

/// Appends an entry of a string pool after a space: its id and its bytes, which need not be text. `AllocError` where
/// a growth was refused.
#[tactic(auto, unfolding(crate::specs::Lines::string_entry_text))]
pub fn push_string_entry(out: &mut String, entry: &PoolEntry) -> Result<(), AllocError>
    ensures { AppendsText (string_entry_text (string_entry_of entry.now)) out.old out.new result }
{
    let id = entry.pool_id;
    push_number_before(out, u64::from(id))?;
    push_quoted(out, &entry.bytes)
}

/// The same of an entry that takes little memory.
#[tactic(auto, unfolding(crate::specs::Lines::string_entry_text))]
pub fn push_compact_entry(out: &mut String, entry: &CompactEntry) -> Result<(), AllocError>
    ensures { AppendsText (string_entry_text (compact_entry_of entry.now)) out.old out.new result }
{
    let id = entry.pool_id();
    push_number_before(out, u64::from(id))?;
    push_quoted(out, entry.bytes())
}

/// Appends an entry of a stack pool after a space: its id and its addresses. `AllocError` where a growth was refused.
#[tactic(auto, unfolding(crate::specs::Lines::stack_entry_text))]
pub fn push_stack_entry(out: &mut String, entry: &StackPoolEntry) -> Result<(), AllocError>
    ensures { AppendsText (stack_entry_text (stack_entry_of entry.now)) out.old out.new result }
{
    let id = entry.pool_id;
    push_number_before(out, u64::from(id))?;
    push_addresses(out, &entry.frames)
}

/// Appends an annotation after a space: the index of its field, its key and its value. `AllocError` where a growth
/// was refused.
#[tactic(auto, unfolding(crate::specs::Lines::annotation_text))]
pub fn push_annotation(out: &mut String, annotation: &FieldAnnotation) -> Result<(), AllocError>
    ensures { AppendsText (annotation_text annotation.now) out.old out.new result }
{
    let index = annotation.field_index();
    push_number_before(out, u64::from(index))?;
    push_text_pair(
        out,
        annotation.key().as_bytes(),
        annotation.value().as_bytes(),
    )
}

// Appends a number between a space and a colon.
fn push_number_before(out: &mut String, number: u64) -> Result<(), AllocError>
    ensures { AppendsText (codes " " ++ decimal number ++ codes ":") out.old out.new result }
{
    out.push(' ')?;
    push_decimal(out, number)?;
    out.push(':')
}
