//! The fields of an event, by their names.

ghost use Rattle.std.specs.Prelude.{◌≡◌, option_map};
ghost use Rattle.trace_values.specs.Refs.{ref_view, ref_views};
ghost use Rattle.trace_converter.specs.Rules.{field_named};

use trace_values::types::{FieldType, FieldValueRef};
use trace_wire::schema::FieldDef;

// The type and the value of the first field that has this name.
pub(crate) fn field_of<'v, 'a>(
    fields: &'v [FieldDef],
    values: &'v [FieldValueRef<'a>],
    name: &str,
) -> Option<(FieldType, &'v FieldValueRef<'a>)>
    ensures { option_map (λ x. (x.0, ref_view x.1.now)) result
        ≡ field_named name.now fields.now (ref_views values.now) }
{
    for (index, field) in fields.iter().enumerate() {
        let Some(value) = values.get(index) else {
            return None;
        };
        if field.name() == name {
            return Some((field.field_type(), value));
        }
    }
    None
}
