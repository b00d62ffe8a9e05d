//! The fields of an event as JSON.

ghost use Rattle.std.specs.Prelude.{◌≡◌, [], drop, get_or, map as list_map};
ghost use Rattle.dial9_trace_format.specs.parts.Resolving.{as_pools};
ghost use Rattle.dial9_trace_format.specs.ShownEvents.{names_of};
ghost use Rattle.trace_json.specs.EventJson.{AreFieldsJson};
ghost use Rattle.trace_json.specs.parts.Growing.{PutsAllBy};
ghost use Rattle.trace_json.specs.parts.Put.{member_tokens};

use crate::growing::{GrowingJson, Mark};
use crate::parts::Parts;
use crate::value::{JsonValue, put_value};
use std::alloc::Global;
use trace_wire::schema::FieldDef;

/// Writes the members of an event's fields, one after another: each value under its name, and where the schema has no
/// name for it, under the empty one. A fault of what they are put to.
pub(crate) fn put_fields<V: JsonValue, L: GrowingJson>(
    alloc: Global,
    out: &mut L,
    event: &Parts<'_, V>,
) -> Result<(), L::Fault>
    ensures { PutsAllBy L.grows L.fails member_tokens
        (AreFieldsJson (as_pools event.now.string_pool.now event.now.stack_pool.now)
        (names_of event.now.schema.now.fields) (list_map V.value event.now.values.now)) out.old
        out.new result }
{
    let mut names = event.schema.fields();
    'fields: for value in event.values {
        let (name, others) = first_name(names);
        out.put_mark(Mark::Key(name))?;
        put_value(alloc, out, event.string_pool, event.stack_pool, value)?;
        names = others;
    }
    Ok(())
}

// The first name, or the empty one where there is none, and the fields after it.
fn first_name(fields: &[FieldDef]) -> (&str, &[FieldDef])
    ensures name { result.0.now ≡ get_or (names_of fields.now) 0 [] }
    ensures others { names_of result.1.now ≡ drop 1 (names_of fields.now) }
{
    match fields.split_first() {
        Some((field, others)) => (field.name(), others),
        None => ("", fields),
    }
}
