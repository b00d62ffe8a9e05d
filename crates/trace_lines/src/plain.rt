//! Values that hold no others, as they stand in a line: the name of the kind, and what the value is (docs/FORMAT.md,
//! "Dumps"). Each function answers `AllocError` where a growth was refused.

ghost use Rattle.trace_values.specs.Values.{integer, float, boolean, number, text, bytes, stack, pooled_text};
ghost use Rattle.trace_values.specs.Values.{pooled_stack};
ghost use Rattle.trace_lines.specs.Appending.{AppendsText};
ghost use Rattle.trace_lines.specs.Lines.{value_text};

use crate::text::{push_addresses, push_decimal, push_quoted, push_sixteen_digits};
use std::alloc::AllocError;
use trace_values::types::{InternedStackFrames, InternedString};

/// Appends a signed number.
pub fn push_integer(out: &mut String, number: i64) -> Result<(), AllocError>
    ensures { AppendsText (value_text (integer number)) out.old out.new result }
{
    write!(out, "I64:{number}")
}

/// Appends a float, by its bits.
pub fn push_float(out: &mut String, bits: u64) -> Result<(), AllocError>
    ensures { AppendsText (value_text (float bits)) out.old out.new result }
{
    out.push_str("F64:0x")?;
    push_sixteen_digits(out, bits)
}

/// Appends a truth value.
pub fn push_truth(out: &mut String, flag: bool) -> Result<(), AllocError>
    ensures { AppendsText (value_text (boolean flag)) out.old out.new result }
{
    write!(out, "Bool:{flag}")
}

/// Appends an unsigned number.
pub fn push_number(out: &mut String, held: u64) -> Result<(), AllocError>
    ensures { AppendsText (value_text (number held)) out.old out.new result }
{
    out.push_str("Varint:")?;
    push_decimal(out, held)
}

/// Appends a text.
pub fn push_text(out: &mut String, characters: &[u8]) -> Result<(), AllocError>
    ensures { AppendsText (value_text (text characters.now)) out.old out.new result }
{
    out.push_str("String:")?;
    push_quoted(out, characters)
}

/// Appends bytes.
pub fn push_bytes(out: &mut String, held: &[u8]) -> Result<(), AllocError>
    ensures { AppendsText (value_text (bytes held.now)) out.old out.new result }
{
    out.push_str("Bytes:")?;
    push_quoted(out, held)
}

/// Appends the addresses of a stack.
pub fn push_stack(out: &mut String, addresses: &[u64]) -> Result<(), AllocError>
    ensures { AppendsText (value_text (stack addresses.now)) out.old out.new result }
{
    out.push_str("StackFrames:")?;
    push_addresses(out, addresses)
}

/// Appends the id of a text in the string pool.
pub fn push_pooled_text(out: &mut String, id: InternedString) -> Result<(), AllocError>
    ensures { AppendsText (value_text (pooled_text id.0)) out.old out.new result }
{
    write!(out, "PooledString:{id:?}")
}

/// Appends the id of a stack in the stack pool.
pub fn push_pooled_stack(out: &mut String, id: InternedStackFrames) -> Result<(), AllocError>
    ensures { AppendsText (value_text (pooled_stack id.0)) out.old out.new result }
{
    write!(out, "PooledStackFrames:{id:?}")
}
