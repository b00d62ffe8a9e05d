//! What a script says of schemas and of types of events.

ghost use Rattle.std.specs.Prelude.{◌≡◌, ◌<◌, ◌++◌, length, IfOk};
ghost use Rattle.std.specs.List.{flat_map};
ghost use Rattle.trace_lines.specs.Lines.{field_text};
ghost use Rattle.trace_recordings.specs.Definitions.{annotation_part, definition_text};
ghost use Rattle.trace_recordings.specs.Scripts.{Shortens};

use crate::script::line_error::LineError;
use crate::script::parts::{after_mark, leading_name, leading_number, leading_type};
use std::alloc::Global;
use trace_wire::schema::FieldDef;

/// A name, the fields in the order in which events hold them, and annotations of the fields.
#[derive(Drop)]
pub struct Definition {
    pub name: String,
    pub fields: Vec<FieldDef>,
    pub annotations: Vec<ScriptAnnotation>,
}

/// A key and a value for the field with an index.
#[derive(Drop)]
pub struct ScriptAnnotation {
    pub index: u16,
    pub key: String,
    pub value: String,
}

/// The definition that a whole line says: its name, its fields, and its annotations.
///
/// The first error: of the name `Text` or `Utf8`, as `leading_name` tells them; of a field these of its name,
/// `Mark(':')` after it, and `FieldType`; where something else than a field or an annotation follows, `Mark('@')`; of
/// an annotation `Number` where no index stands, `TooLarge` where it is above 65,535, `Mark(':')` after it, `Text` or
/// `Utf8` of the key and of the value, `Mark('=')` between them. `Memory` where a growth was refused.
#[tactic(auto, unfolding(crate::specs::Definitions::definition_text))]
pub fn definition_of(alloc: Global, line: &[u8]) -> Result<Definition, LineError>
    ensures { IfOk result (λ definition. line.now ≡ definition_text definition) }
{
    let (name, rest) = leading_name(alloc, line)?;
    let (fields, rest) = leading_fields(alloc, rest)?;
    let annotations = annotations_of(alloc, rest)?;
    Ok(Definition {
        name,
        fields,
        annotations,
    })
}

// The fields, and the rest.
fn leading_fields(alloc: Global, line: &[u8]) -> Result<(Vec<FieldDef>, &[u8]), LineError>
    ensures { IfOk result (λ x. line.now ≡ flat_map field_text x.0.items ++ x.1.now) }
{
    let mut fields = Vec::new(alloc);
    let mut rest = line;
    while let [b' ', b'"', ..] = rest {
        let (field, after) = leading_field(alloc, rest)?;
        fields.push(field)?;
        rest = after;
    }
    Ok((fields, rest))
}

// A space, a name, a colon and a type, and the rest.
#[tactic(auto, unfolding(trace_lines::specs::Lines::field_text))]
fn leading_field(alloc: Global, line: &[u8]) -> Result<(FieldDef, &[u8]), LineError>
    ensures text { IfOk result (λ x. line.now ≡ field_text x.0 ++ x.1.now) }
    ensures shorter { Shortens line.now result }
{
    let rest = after_mark(line, b" ").ok_or(LineError::Mark(' '))?;
    let (name, rest) = leading_name(alloc, rest)?;
    let rest = after_mark(rest, b":").ok_or(LineError::Mark(':'))?;
    let (field_type, rest) = leading_type(rest)?;
    Ok((FieldDef::new(alloc, name.as_str(), field_type)?, rest))
}

// Annotations up to the end of the line.
fn annotations_of(alloc: Global, line: &[u8]) -> Result<Vec<ScriptAnnotation>, LineError>
    ensures { IfOk result (λ v. line.now ≡ flat_map annotation_part v.items) }
{
    let mut annotations = Vec::new(alloc);
    let mut rest = line;
    while !rest.is_empty() {
        let (annotation, after) = leading_annotation(alloc, rest)?;
        annotations.push(annotation)?;
        rest = after;
    }
    Ok(annotations)
}

// A space, `@`, the index of a field, a colon, a key, an equals sign and a value, and the rest.
#[tactic(auto, unfolding(crate::specs::Definitions::annotation_part))]
fn leading_annotation(alloc: Global, line: &[u8]) -> Result<(ScriptAnnotation, &[u8]), LineError>
    ensures text { IfOk result (λ x. line.now ≡ annotation_part x.0 ++ x.1.now) }
    ensures shorter { Shortens line.now result }
{
    let rest = after_mark(line, b" @").ok_or(LineError::Mark('@'))?;
    let (index, rest) = leading_number(alloc, rest)?;
    let index = u16::try_from(index).map_err(|_| LineError::TooLarge)?;
    let rest = after_mark(rest, b":").ok_or(LineError::Mark(':'))?;
    let (key, rest) = leading_name(alloc, rest)?;
    let rest = after_mark(rest, b"=").ok_or(LineError::Mark('='))?;
    let (value, rest) = leading_name(alloc, rest)?;
    Ok((ScriptAnnotation { index, key, value }, rest))
}
