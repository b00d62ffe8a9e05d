//! Schemas as objects. Each function answers `AllocError` where a growth was refused.

ghost use Rattle.std.specs.Prelude.{◌≡◌, ◌<◌, codes, length, option_map, slice_get};
ghost use Rattle.std.specs.Fmt.{decimal};
ghost use Rattle.std.specs.List.{flat_map};
ghost use Rattle.json.specs.Json.{number};
ghost use Rattle.json.specs.Tree.{json_tokens};
ghost use Rattle.trace_values.specs.FieldTypes.{tag};
ghost use Rattle.trace_json.specs.EventJson.{list_json};
ghost use Rattle.trace_json.specs.parts.Put.{Puts, PutsTokens};
ghost use Rattle.trace_page.specs.PageSchemas.{text_or_null, index_or_null, roles_json};
ghost use Rattle.trace_page.specs.PageSchemas.{counter_name};
ghost use Rattle.trace_page.specs.PageSchemas.{unit_at, counter_at, field_json, field_at};
ghost use Rattle.trace_page.specs.PageSchemas.{first_fields, schema_json};
ghost use Rattle.trace_page.specs.PageValues.{natural_json};
ghost use Rattle.trace_page.specs.parts.Writing.{PutsMember};

use crate::numbers::{put_index, put_natural};
use json::Writer;
use std::alloc::AllocError;
use trace_roles::roles::{OF_SCHEMA, roles_of};
use trace_roles::units::{CounterKind, counter_of, unit_of};
use trace_values::tri;
use trace_values::types::FieldType;
use trace_wire::schema::{FieldDef, SchemaEntry};

/// A schema, and how many bytes its events have.
#[derive(Drop)]
pub struct PageSchema {
    pub(crate) entry: SchemaEntry,
    pub(crate) bytes: u64,
}

/// Writes schemas, one after another.
pub(crate) fn put_each_schema(out: &mut Writer, schemas: &[PageSchema]) -> Result<(), AllocError>
    ensures tokens { PutsTokens (flat_map (λ s. json_tokens (schema_json s)) schemas.now) out.old
        out.new result }
    ensures before { out.new.before ≡ out.old.before }
{
    'schemas: for schema in schemas {
        put_schema(out, schema)?;
    }
    Ok(())
}

// Writes a schema, and how many bytes its events have.
fn put_schema(out: &mut Writer, schema: &PageSchema) -> Result<(), AllocError>
    ensures tokens { Puts (schema_json schema.now) out.old out.new result }
    ensures before { out.new.before ≡ out.old.before }
{
    tri!(out.begin_object());
    tri!(put_text_member(out, "name", Some(schema.entry.name())));
    tri!(put_bytes_member(out, schema.bytes));
    tri!(put_roles_member(out, &schema.entry));
    tri!(put_fields_member(out, &schema.entry));
    out.end_object()
}

// Writes the member that has how many bytes the events of a schema have.
fn put_bytes_member(out: &mut Writer, bytes: u64) -> Result<(), AllocError>
    ensures tokens { PutsMember (codes "bytes") (natural_json bytes) out.old out.new result }
    ensures before { out.new.before ≡ out.old.before }
{
    out.key("bytes")?;
    put_natural(out, bytes)
}

// Writes the member that has the roles of a schema's fields.
fn put_roles_member(out: &mut Writer, entry: &SchemaEntry) -> Result<(), AllocError>
    ensures tokens { PutsMember (codes "roles") (roles_json entry.now) out.old out.new result }
    ensures before { out.new.before ≡ out.old.before }
{
    out.key("roles")?;
    put_roles(out, entry)
}

// Writes the roles of a schema's fields.
fn put_roles(out: &mut Writer, entry: &SchemaEntry) -> Result<(), AllocError>
    ensures tokens { Puts (roles_json entry.now) out.old out.new result }
    ensures before { out.new.before ≡ out.old.before }
{
    let roles = roles_of(entry);
    tri!(out.begin_object());
    tri!(put_index_member(out, "tid", roles.track));
    tri!(put_index_member(out, "duration", roles.duration));
    tri!(put_index_member(out, "name", roles.name));
    tri!(put_text_member(out, "begin", roles.begin));
    tri!(put_text_member(out, "end", roles.end));
    out.end_object()
}

// Writes a member: an index, or null.
fn put_index_member(out: &mut Writer, name: &str, index: Option<usize>) -> Result<(), AllocError>
    ensures tokens { PutsMember name.now (index_or_null index) out.old out.new result }
    ensures before { out.new.before ≡ out.old.before }
{
    out.key(name)?;
    put_index_or_null(out, index)
}

fn put_index_or_null(out: &mut Writer, index: Option<usize>) -> Result<(), AllocError>
    ensures tokens { Puts (index_or_null index) out.old out.new result }
    ensures before { out.new.before ≡ out.old.before }
{
    match index {
        Some(index) => put_index(out, index),
        None => out.null(),
    }
}

/// Writes a member: a text, or null.
pub(crate) fn put_text_member(
    out: &mut Writer,
    name: &str,
    text: Option<&str>,
) -> Result<(), AllocError>
    ensures tokens { PutsMember name.now (text_or_null (option_map (λ t. t.now) text.entry))
        out.old out.new result }
    ensures before { out.new.before ≡ out.old.before }
{
    out.key(name)?;
    put_text_or_null(out, text)
}

fn put_text_or_null(out: &mut Writer, text: Option<&str>) -> Result<(), AllocError>
    ensures tokens { Puts (text_or_null (option_map (λ t. t.now) text.entry)) out.old out.new
        result }
    ensures before { out.new.before ≡ out.old.before }
{
    match text {
        Some(text) => out.string(text),
        None => out.null(),
    }
}

// Writes the member that has the list of a schema's fields.
fn put_fields_member(out: &mut Writer, entry: &SchemaEntry) -> Result<(), AllocError>
    ensures tokens { PutsMember (codes "fields")
        (list_json (first_fields entry.now (length entry.now.fields))) out.old out.new result }
    ensures before { out.new.before ≡ out.old.before }
{
    tri!(out.key("fields"));
    tri!(out.begin_array());
    tri!(put_each_field(out, entry));
    out.end_array()
}

fn put_each_field(out: &mut Writer, entry: &SchemaEntry) -> Result<(), AllocError>
    ensures tokens { PutsTokens
        (flat_map json_tokens (first_fields entry.now (length entry.now.fields))) out.old out.new
        result }
    ensures before { out.new.before ≡ out.old.before }
{
    'fields: for place in 0..entry.fields().len() {
        put_field(out, entry, place)?;
    }
    Ok(())
}

// Writes the field at a place.
fn put_field(out: &mut Writer, entry: &SchemaEntry, place: usize) -> Result<(), AllocError>
    requires { place < length entry.now.fields }
    ensures tokens { PutsTokens
        (flat_map json_tokens (field_at entry.now place (slice_get entry.now.fields place))) out.old
        out.new result }
    ensures before { out.new.before ≡ out.old.before }
{
    put_named_field(out, entry, place, &entry.fields()[place])
}

// Writes a field of a schema, which stands at a place.
fn put_named_field(
    out: &mut Writer,
    entry: &SchemaEntry,
    place: usize,
    field: &FieldDef,
) -> Result<(), AllocError>
    ensures tokens { Puts (field_json entry.now place field.now) out.old out.new result }
    ensures before { out.new.before ≡ out.old.before }
{
    tri!(out.begin_object());
    tri!(put_text_member(out, "name", Some(field.name())));
    tri!(put_type_member(out, field.field_type()));
    tri!(put_text_member(out, "unit", field_unit(entry, place)));
    tri!(put_text_member(out, "counter", field_counter(entry, place)));
    out.end_object()
}

// Writes the member that has the tag of a field type.
fn put_type_member(out: &mut Writer, field_type: FieldType) -> Result<(), AllocError>
    ensures tokens { PutsMember (codes "type") (number (decimal (tag field_type))) out.old out.new
        result }
    ensures before { out.new.before ≡ out.old.before }
{
    out.key("type")?;
    out.u64(u64::from(field_type.tag()))
}

// The unit of the field at a place.
fn field_unit(entry: &SchemaEntry, place: usize) -> Option<&str>
    ensures { option_map (λ t. t.now) result ≡ unit_at entry.now place }
{
    if place < usize::from(OF_SCHEMA) {
        unit_of(entry, place as u16)
    } else {
        None
    }
}

// The name of the kind of counter that the field at a place is.
fn field_counter(entry: &SchemaEntry, place: usize) -> Option<&'static str>
    ensures { option_map (λ t. t.now) result ≡ counter_at entry.now place }
{
    if place < usize::from(OF_SCHEMA) {
        name_of(counter_of(entry, place as u16))
    } else {
        None
    }
}

// The name of a kind, if there is one.
fn name_of(kind: Option<CounterKind>) -> Option<&'static str>
    ensures { option_map (λ t. t.now) result ≡ option_map counter_name kind }
{
    match kind {
        Some(kind) => Some(counter_name(kind)),
        None => None,
    }
}

fn counter_name(kind: CounterKind) -> &'static str
    ensures { result.now ≡ counter_name kind }
{
    match kind {
        CounterKind::Gauge => "gauge",
        CounterKind::Counter => "counter",
        CounterKind::UpDownCounter => "updown-counter",
    }
}
