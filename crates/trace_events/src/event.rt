//! Events as decoders give them that own what they give.

ghost use Rattle.std.specs.Prelude.{◌≡◌, [], ◌∷◌, IfNone, IfSome};
ghost use Rattle.dial9_trace_format.specs.DecodedFrames.{item_of};
ghost use Rattle.trace_events.specs.OwnedEvents.{owned_event, events_in};

use dial9_trace_format::decoder::DecodedFrame;
use trace_values::types::FieldValue;
use trace_wire::pools::{StackPool, StringPool};
use trace_wire::schema::{SchemaEntry, SchemaRegistry, WireTypeId};

/// An event of a trace with its schema and both pools, as `RawEvent` is, whose values own their memory
/// (docs/FORMAT.md, "Event").
#[derive(Clone, Copy, Drop)]
pub struct OwnedEvent<'f> {
    /// The wire id of its schema.
    pub type_id: WireTypeId,
    /// Its time, in nanoseconds.
    pub timestamp_ns: u64,
    /// Its values, one for each field of the schema.
    pub values: &'f [FieldValue],
    /// The schema, with the annotations that were read before the event.
    pub schema: &'f SchemaEntry,
    /// The texts of the string pool frames that were read before the event, since the last header.
    pub string_pool: &'f StringPool,
    /// The stacks of the stack pool frames that were read before the event, since the last header.
    pub stack_pool: &'f StackPool,
}

impl<'f> OwnedEvent<'f> {
    /// The event that a frame is, with the registry and the pools of the decoder that gave it last. `None` where the
    /// frame is no event, or the registry has no schema under its wire id.
    pub fn of_frame(
        frame: &'f DecodedFrame,
        registry: &'f SchemaRegistry,
        string_pool: &'f StringPool,
        stack_pool: &'f StackPool,
    ) -> Option<OwnedEvent<'f>>
        ensures event { IfSome result (λ event.
            events_in registry.now.wire_types string_pool.now stack_pool.now (item_of frame.now)
            ≡ owned_event event ∷ []) }
        ensures none { IfNone result
            (events_in registry.now.wire_types string_pool.now stack_pool.now (item_of frame.now)
            ≡ []) }
    {
        match frame {
            DecodedFrame::Event {
                type_id,
                timestamp_ns,
                values,
            } => match registry.get(*type_id) {
                Some(schema) => Some(OwnedEvent {
                    type_id: *type_id,
                    timestamp_ns: *timestamp_ns,
                    values: values.as_slice(),
                    schema,
                    string_pool,
                    stack_pool,
                }),
                None => None,
            },
            DecodedFrame::Schema(_) => None,
            DecodedFrame::StringPool(_) => None,
            DecodedFrame::StackPool(_) => None,
            DecodedFrame::SchemaAnnotations {
                type_id: _,
                annotations: _,
            } => None,
        }
    }
}
