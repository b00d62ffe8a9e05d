//! A registry of one's own, apart from any trace.

ghost use Rattle.std.specs.Prelude.{◌≡◌, Some};
ghost use Rattle.std.specs.Option.{option_map};
ghost use Rattle.dial9_trace_format.specs.Words.{first_wire_id};

use dial9_trace_format::codec::WireTypeId;
use dial9_trace_format::schema::SchemaRegistry;
use std::alloc::Global;

/// The first wire id that a new registry hands out. Takes no memory.
pub fn first_id(alloc: Global) -> Option<WireTypeId>
    ensures { option_map (λ id. id.0) result ≡ Some first_wire_id }
{
    let mut registry = SchemaRegistry::new(alloc);
    registry.next_type_id()
}
