//! The parts of a line. Each is read by what it seems to say and then printed: a part that is not what is printed is
//! refused, so that nothing is read as something else.

ghost use Rattle.std.specs.Prelude.{◌≡◌, ◌+◌, ◌<◌, ◌++◌, length, IfOk, IfSome, codes, decimal, string_bytes};
ghost use Rattle.trace_values.specs.ValueViews.{view};
ghost use Rattle.trace_lines.specs.Lines.{quoted, address_list, type_name, value_text};

use crate::script::line_error::LineError;
use crate::script::loose;
use std::alloc::Global;
use trace_lines::text::{push_addresses, push_quoted};
use trace_lines::value::push_value;
use trace_values::types::{FieldType, FieldValue};

/// How many values a value of a script may have around it.
pub const MAX_NESTING: u32 = 100;

/// What stands after a mark, where the line begins with the mark.
pub fn after_mark<'a>(line: &'a [u8], mark: &[u8]) -> Option<&'a [u8]>
    ensures found { IfSome result (λ rest. line.now ≡ mark.now ++ rest.now) }
    ensures len { IfSome result (λ rest. length rest.now + length mark.now ≡ length line.now) }
{
    line.strip_prefix(mark)
}

/// A number in decimal digits, and the rest. `Number` where what the digits at the front say (`loose::number`) does
/// not stand there as it is printed, and so where no digit does. `Memory` where a growth was refused.
pub fn leading_number(alloc: Global, line: &[u8]) -> Result<(u64, &[u8]), LineError>
    ensures { IfOk result (λ x. line.now ≡ decimal x.0 ++ x.1.now) }
{
    let (number, _) = loose::number(line, 10);
    let shown = number.to_string(alloc)?;
    let rest = after_mark(line, shown.as_bytes()).ok_or(LineError::Number)?;
    Ok((number, rest))
}

/// The bytes of a text in quotes, and the rest. `Text` where no text in quotes stands at the front, or it is spelled
/// in another way than it is printed. `Memory` where a growth was refused.
pub fn leading_text(alloc: Global, line: &[u8]) -> Result<(Vec<u8>, &[u8]), LineError>
    ensures { IfOk result (λ x. line.now ≡ quoted x.0.items ++ x.1.now) }
{
    let (bytes, _) = loose::text(alloc, line)?;
    let mut shown = String::new(alloc);
    push_quoted(&mut shown, &bytes)?;
    let rest = after_mark(line, shown.as_bytes()).ok_or(LineError::Text)?;
    Ok((bytes, rest))
}

/// A text in quotes that is UTF-8, and the rest. `Text` and `Memory` as `leading_text`; `Utf8` where its bytes are
/// not UTF-8.
pub fn leading_name(alloc: Global, line: &[u8]) -> Result<(String, &[u8]), LineError>
    ensures { IfOk result (λ x. line.now ≡ quoted (string_bytes x.0) ++ x.1.now) }
{
    let (bytes, rest) = leading_text(alloc, line)?;
    let name = String::from_utf8(bytes).map_err(|_| LineError::Utf8)?;
    Ok((name, rest))
}

/// Addresses in brackets, and the rest. `Addresses` where none stand at the front, or they are spelled in another way
/// than they are printed. `Memory` where a growth was refused.
pub fn leading_addresses(alloc: Global, line: &[u8]) -> Result<(Vec<u64>, &[u8]), LineError>
    ensures { IfOk result (λ x. line.now ≡ address_list x.0.items ++ x.1.now) }
{
    let (addresses, _) = loose::addresses(alloc, line)?;
    let mut shown = String::new(alloc);
    push_addresses(&mut shown, &addresses)?;
    let rest = after_mark(line, shown.as_bytes()).ok_or(LineError::Addresses)?;
    Ok((addresses, rest))
}

/// A value as a dump shows it, and the rest. What `loose::value` refuses of one with at most `MAX_NESTING` values
/// around its innermost; `Value` too where it is spelled in another way than it is printed. `Memory` where a growth
/// was refused.
pub fn leading_value(alloc: Global, line: &[u8]) -> Result<(FieldValue, &[u8]), LineError>
    ensures { IfOk result (λ x. line.now ≡ value_text (view x.0) ++ x.1.now) }
{
    let (value, _) = loose::value(alloc, MAX_NESTING, line)?;
    let mut shown = String::new(alloc);
    push_value(&mut shown, &value)?;
    let rest = after_mark(line, shown.as_bytes()).ok_or(LineError::Value)?;
    Ok((value, rest))
}

/// The name of a field type, and the rest. `FieldType` where the letters and digits at the front are the name of
/// none. Takes no memory.
pub fn leading_type(line: &[u8]) -> Result<(FieldType, &[u8]), LineError>
    ensures { IfOk result (λ x. line.now ≡ type_name x.0 ++ x.1.now) }
{
    let end = line
        .iter()
        .position(|byte| !byte.is_ascii_alphanumeric())
        .unwrap_or(line.len());
    let (name, rest) = line.split_at(end);
    let name = str::from_utf8(name).map_err(|_| LineError::FieldType)?;
    let field_type = type_named(name).ok_or(LineError::FieldType)?;
    Ok((field_type, rest))
}

// The type that has the name.
fn type_named(name: &str) -> Option<FieldType>
    ensures { IfSome result (λ t. name.now ≡ type_name t) }
{
    match name {
        "I64" => Some(FieldType::I64),
        "F64" => Some(FieldType::F64),
        "Bool" => Some(FieldType::Bool),
        "String" => Some(FieldType::String),
        "Bytes" => Some(FieldType::Bytes),
        "PooledStackFrames" => Some(FieldType::PooledStackFrames),
        "PooledString" => Some(FieldType::PooledString),
        "StackFrames" => Some(FieldType::StackFrames),
        "Varint" => Some(FieldType::Varint),
        "StringMap" => Some(FieldType::StringMap),
        "U8" => Some(FieldType::U8),
        "U16" => Some(FieldType::U16),
        "U32" => Some(FieldType::U32),
        "DynamicList" => Some(FieldType::DynamicList),
        "DynamicMap" => Some(FieldType::DynamicMap),
        "OptionalI64" => Some(FieldType::OptionalI64),
        "OptionalF64" => Some(FieldType::OptionalF64),
        "OptionalBool" => Some(FieldType::OptionalBool),
        "OptionalString" => Some(FieldType::OptionalString),
        "OptionalBytes" => Some(FieldType::OptionalBytes),
        "OptionalPooledStackFrames" => Some(FieldType::OptionalPooledStackFrames),
        "OptionalPooledString" => Some(FieldType::OptionalPooledString),
        "OptionalStackFrames" => Some(FieldType::OptionalStackFrames),
        "OptionalVarint" => Some(FieldType::OptionalVarint),
        "OptionalStringMap" => Some(FieldType::OptionalStringMap),
        "OptionalU8" => Some(FieldType::OptionalU8),
        "OptionalU16" => Some(FieldType::OptionalU16),
        "OptionalU32" => Some(FieldType::OptionalU32),
        "OptionalDynamicList" => Some(FieldType::OptionalDynamicList),
        "OptionalDynamicMap" => Some(FieldType::OptionalDynamicMap),
        _ => None,
    }
}
