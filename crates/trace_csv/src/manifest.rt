//! What is told of tables: which has the events of which schema.

ghost use Rattle.std.specs.Prelude.{◌≡◌, IfOk};
ghost use Rattle.std.specs.List.{flat_map};
ghost use Rattle.json.specs.Json.{string};
ghost use Rattle.json.specs.Tree.{json_tokens};
ghost use Rattle.dial9_trace_format.specs.ShownEvents.{names_of};
ghost use Rattle.trace_json.specs.Lines.{IsTextOf};
ghost use Rattle.trace_json.specs.parts.Put.{PutsTokens, Puts};
ghost use Rattle.trace_csv.specs.Manifests.{manifest_json, names_json};
ghost use Rattle.trace_csv.specs.parts.Manifests.{manifest_tokens};

use json::Writer;
use std::alloc::{AllocError, Global};
use trace_values::tri;
use trace_wire::schema::{FieldDef, SchemaEntry};

/// The text of what is told of a table: an object with the name of the table, that of the schema whose events it has,
/// how many rows it has, and the names of the fields, one for each column after that of the times (docs/FORMAT.md,
/// "Tables"). It has no space, and no line feed. `AllocError` where a growth was refused.
pub fn manifest_text(
    alloc: Global,
    table: &str,
    schema: &SchemaEntry,
    rows: u64,
) -> Result<Vec<u8>, AllocError>
    ensures { IfOk result
        (λ text. IsTextOf (λ j. j ≡ manifest_json table.now schema.now rows) text.items) }
{
    let mut writer = Writer::new(Vec::new(alloc));
    put_table(&mut writer, table, schema, rows)?;
    Ok(writer.into_inner())
}

// Writes the object of a table.
fn put_table(
    out: &mut Writer,
    table: &str,
    schema: &SchemaEntry,
    rows: u64,
) -> Result<(), AllocError>
    ensures tokens { Puts (manifest_json table.now schema.now rows) out.old out.new result }
    ensures before { out.new.before ≡ out.old.before }
{
    put_head(out, table, schema.name(), rows)?;
    put_names(out, schema.fields())?;
    out.end_object()
}

// Writes the beginning of the object, up to the names of the fields.
fn put_head(out: &mut Writer, table: &str, schema: &str, rows: u64) -> Result<(), AllocError>
    ensures tokens { PutsTokens (manifest_tokens table.now schema.now rows) out.old out.new result }
    ensures before { out.new.before ≡ out.old.before }
{
    tri!(out.begin_object());
    tri!(out.key("table"));
    tri!(out.string(table));
    tri!(out.key("schema"));
    tri!(out.string(schema));
    tri!(out.key("rows"));
    tri!(out.u64(rows));
    out.key("fields")
}

// Writes the list of the names of fields.
fn put_names(out: &mut Writer, fields: &[FieldDef]) -> Result<(), AllocError>
    ensures tokens { Puts (names_json fields.now) out.old out.new result }
    ensures before { out.new.before ≡ out.old.before }
{
    out.begin_array()?;
    put_each_name(out, fields)?;
    out.end_array()
}

// Writes the names of fields, one after another.
fn put_each_name(out: &mut Writer, fields: &[FieldDef]) -> Result<(), AllocError>
    ensures tokens { PutsTokens
        (flat_map (λ name. json_tokens (string name)) (names_of fields.now)) out.old out.new
        result }
    ensures before { out.new.before ≡ out.old.before }
{
    'fields: for field in fields {
        out.string(field.name())?;
    }
    Ok(())
}
