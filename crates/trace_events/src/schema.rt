//! Schemas of one name with the same fields.

ghost use Rattle.std.specs.Prelude.{◌≡◌};
ghost use Rattle.trace_events.specs.Schemas.{is_same_schema};

use trace_wire::schema::SchemaEntry;

/// Whether two schemas have the same name and the same fields, whatever their annotations.
#[inline]
pub fn is_same_schema(one: &SchemaEntry, other: &SchemaEntry) -> bool
    ensures { result ≡ is_same_schema one.now other.now }
{
    one.name() == other.name() && one.fields() == other.fields()
}
