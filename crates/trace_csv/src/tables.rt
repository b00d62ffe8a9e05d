//! The texts that create tables.

ghost use Rattle.std.specs.Prelude.{◌≡◌, ◌++◌, ◌<◌, length, OnOk, string_bytes};
ghost use Rattle.trace_csv.specs.Tables.{create_text, column_text, type_name, table_head, table_end};

use crate::columns::column_name;
use std::alloc::{AllocError, Global};
use trace_values::types::FieldType;
use trace_wire::schema::FieldDef;

/// Appends the text in SQL that creates the table of a schema: the column of the times, and one for each field, each
/// with the type of its values. `AllocError` where a growth was refused: then a part of the text may stand there.
pub fn push_table(
    alloc: Global,
    out: &mut String,
    name: &str,
    fields: &[FieldDef],
) -> Result<(), AllocError>
    ensures { OnOk result
        (string_bytes out.new ≡ string_bytes out.old ++ create_text name.now fields.now) }
{
    push_head(out, name)?;
    'fields: for place in 0..fields.len() {
        push_column(alloc, out, fields, place)?;
    }
    push_end(out)
}

// Appends how the text begins: with the column of the times.
fn push_head(out: &mut String, name: &str) -> Result<(), AllocError>
    ensures { OnOk result (string_bytes out.new ≡ string_bytes out.old ++ table_head name.now) }
{
    write!(out, "CREATE TABLE \"{name}\" (\n  \"timestamp_ns\" UBIGINT")
}

// Appends how the text ends.
fn push_end(out: &mut String) -> Result<(), AllocError>
    ensures { OnOk result (string_bytes out.new ≡ string_bytes out.old ++ table_end) }
{
    out.push_str("\n);\n")
}

// Appends a column.
fn push_column(
    alloc: Global,
    out: &mut String,
    fields: &[FieldDef],
    place: usize,
) -> Result<(), AllocError>
    requires { place < length fields.now }
    ensures { OnOk result
        (string_bytes out.new ≡ string_bytes out.old ++ column_text fields.now place) }
{
    let name = column_name(alloc, fields, place)?;
    let type_name = type_name(fields[place].field_type());
    write!(out, ",\n  \"{name}\" {type_name}")
}

// The type in SQL of the values of a field.
fn type_name(field_type: FieldType) -> &'static str
    ensures { result.now ≡ type_name field_type }
{
    match field_type.inner() {
        FieldType::I64 => "BIGINT",
        FieldType::F64 => "DOUBLE",
        FieldType::Bool => "BOOLEAN",
        FieldType::Varint | FieldType::U8 | FieldType::U16 | FieldType::U32 => "UBIGINT",
        _ => "VARCHAR",
    }
}
