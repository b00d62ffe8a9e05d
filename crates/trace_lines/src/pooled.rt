//! What pools hold under ids, as it stands in a line (docs/FORMAT.md, "Dumps").

ghost use Rattle.std.specs.FinMap as finmap;
ghost use Rattle.dial9_trace_format.specs.Resolving.{unknown, text_or_id, stack_or_id};
ghost use Rattle.dial9_trace_format.specs.declared.resolve.error.DeserError.TheVariants as errors;
ghost use Rattle.trace_lines.specs.Appending.{AppendsText};
ghost use Rattle.trace_lines.specs.Lines.{value_text};
ghost use Rattle.trace_lines.specs.parts.InFull.{IsKnown};

use crate::plain::{push_pooled_stack, push_pooled_text, push_stack, push_text};
use dial9_trace_format::resolve::DeserError;
use std::alloc::AllocError;
use trace_values::types::{InternedStackFrames, InternedString};
use trace_wire::pools::{StackPool, StringPool};

/// Appends the text of an id, or the id where the pool holds none. `AllocError` where a growth was refused.
pub(crate) fn push_known_text(
    out: &mut String,
    strings: &StringPool,
    id: InternedString,
) -> Result<(), AllocError>
    ensures { AppendsText (value_text (text_or_id id.0 (finmap.get strings.now id.0))) out.old
        out.new result }
{
    match strings.get(id) {
        Some(text) => push_text(out, text.as_bytes()),
        None => push_pooled_text(out, id),
    }
}

/// Appends the stack of an id, or the id where the pool holds none. `AllocError` where a growth was refused.
pub(crate) fn push_known_stack(
    out: &mut String,
    stacks: &StackPool,
    id: InternedStackFrames,
) -> Result<(), AllocError>
    ensures { AppendsText (value_text (stack_or_id id.0 (finmap.get stacks.now id.0))) out.old
        out.new result }
{
    match stacks.get(id) {
        Some(addresses) => push_stack(out, addresses),
        None => push_pooled_stack(out, id),
    }
}

/// Whether the pool knows the id.
pub(crate) fn text_known(strings: &StringPool, id: InternedString) -> Result<(), DeserError>
    ensures { IsKnown (unknown (errors.UnknownString id) (finmap.get strings.now id.0)) result }
{
    match strings.get(id) {
        Some(_) => Ok(()),
        None => Err(DeserError::UnknownString(id)),
    }
}

/// Whether the pool knows the id.
pub(crate) fn stack_known(stacks: &StackPool, id: InternedStackFrames) -> Result<(), DeserError>
    ensures { IsKnown (unknown (errors.UnknownStack id) (finmap.get stacks.now id.0)) result }
{
    match stacks.get(id) {
        Some(_) => Ok(()),
        None => Err(DeserError::UnknownStack(id)),
    }
}
