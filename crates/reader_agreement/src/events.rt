//! Events that one reader gives, beside those that another gives or shows to a sink.

ghost use Rattle.std.specs.Prelude.{◌≡◌, ◌↔◌, ◌∷◌, ℕ, List, IsTrue, false};
ghost use Rattle.std.specs.Cmp.Lexicographic.{pointwise};
ghost use Rattle.std.specs.Option.{option_map_or};
ghost use Rattle.trace_values.specs.Equal.{same_value};
ghost use Rattle.trace_values.specs.Refs.{ref_views};
ghost use Rattle.trace_values.specs.ValueViews.{views};
ghost use Rattle.dial9_trace_format.specs.DecodedFrames.{item_of, ref_item_of, same_item};
ghost use Rattle.dial9_trace_format.specs.NextEvents.{headed};
ghost use Rattle.dial9_trace_format.specs.ShownEvents.{names_left, names_of, shown_event};
ghost use Rattle.reader_agreement.specs.Describing.{IsDescribed};

use crate::tables::{is_same_entry, same_stacks, same_texts};
use dial9_trace_format::decoder::{
    DecodedFrame, DecodedFrameRef, EventHead, FieldNames, RawEvent, StackPool, StringPool,
};
use dial9_trace_format::schema::{FieldDef, SchemaEntry, SchemaRegistry};
use dial9_trace_format::types::{FieldValue, FieldValueRef};

/// Whether the frame is the event of this head and these values.
pub fn is_event(frame: Option<&DecodedFrame>, head: EventHead, values: &[FieldValue]) -> bool
    ensures { result ≡ option_map_or
        (λ f. same_item (item_of f.now) (headed (views values.now) head)) frame.entry false }
{
    match frame {
        Some(
            DecodedFrame::Event {
                type_id,
                timestamp_ns,
                values: wanted,
            },
        ) => {
            *type_id == head.type_id
                && *timestamp_ns == head.timestamp_ns
                && are_same(wanted.as_slice(), values)
        }
        _ => false,
    }
}

/// The same of values that stay in the bytes.
pub fn is_event_ref<'v, 'b>(
    frame: Option<&'v DecodedFrameRef<'b>>,
    head: EventHead,
    values: &'v [FieldValueRef<'b>],
) -> bool
    ensures { result ≡ option_map_or
        (λ f. same_item (ref_item_of f.now) (headed (ref_views values.now) head))
        frame.entry false }
{
    match frame {
        Some(
            DecodedFrameRef::Event {
                type_id,
                timestamp_ns,
                values: wanted,
            },
        ) => {
            *type_id == head.type_id
                && *timestamp_ns == head.timestamp_ns
                && are_same_refs(wanted.as_slice(), values)
        }
        _ => false,
    }
}

/// Whether the frame is the event that a sink is shown, by its wire id, its time and its values.
pub fn is_shown<'v, 'b>(frame: Option<&'v DecodedFrameRef<'b>>, event: &'v RawEvent<'b, '_>) -> bool
    ensures { result ≡ option_map_or (λ f. same_item (ref_item_of f.now)
        (headed (ref_views event.now.fields.now)
        record { type_id = event.now.type_id; timestamp_ns = event.now.timestamp_ns }))
        frame.entry false }
{
    let head = EventHead {
        type_id: event.type_id,
        timestamp_ns: event.timestamp_ns,
    };
    is_event_ref(frame, head, event.fields)
}

/// Whether the values are the same, in order.
pub fn are_same(a: &[FieldValue], b: &[FieldValue]) -> bool
    ensures { result ≡ pointwise same_value (views a.now) (views b.now) }
{
    a == b
}

/// The same of values that stay in the bytes.
pub fn are_same_refs<'v, 'b>(a: &'v [FieldValueRef<'b>], b: &'v [FieldValueRef<'b>]) -> bool
    ensures { result ≡ pointwise same_value (ref_views a.now) (ref_views b.now) }
{
    if a.len() != b.len() {
        return false;
    }
    for i in 0..a.len() {
        if a[i] != b[i] {
            return false;
        }
    }
    true
}

/// Whether the event comes with the schema that a reader knows under its wire id, and with these pools.
pub fn is_described(
    registry: &SchemaRegistry,
    texts: &StringPool,
    stacks: &StackPool,
    event: &RawEvent<'_, '_>,
) -> bool
    ensures { IsTrue result ↔ IsDescribed registry.now.wire_types
        record { strings = texts.now; stacks = stacks.now } (shown_event event.now) }
{
    match registry.get(event.type_id) {
        Some(entry) => {
            has_entry(event, entry)
                && same_texts(event.string_pool, texts)
                && same_stacks(event.stack_pool, stacks)
        }
        None => false,
    }
}

/// Whether the event comes with this entry, its name, and the names of its fields.
fn has_entry(event: &RawEvent<'_, '_>, entry: &SchemaEntry) -> bool
    ensures { IsTrue result ↔ ((event.now.schema.now ≡ entry.now)
        × (event.now.name.now ≡ entry.now.name)) }
{
    is_same_entry(event.schema, entry)
        && event.name == entry.name()
        && gives_names(event, entry.fields())
}

/// Whether the event gives the names of these fields, in order.
fn gives_names(event: &RawEvent<'_, '_>, fields: &[FieldDef]) -> bool
    ensures { IsTrue result ↔ (names_of fields.now ≡ names_of event.now.schema.now.fields) }
{
    let mut names = event.field_names();
    for field in fields {
        if !is_next_name(&mut names, field.name()) {
            return false;
        }
    }
    names.next().is_none()
}

/// Whether the next of these names is this one.
fn is_next_name(names: &mut FieldNames<'_>, name: &str) -> bool
    ensures next { IsTrue result → names_left names.old ≡ name.now ∷ names_left names.new }
    ensures other { (rest : List (List ℕ)) → names_left names.old ≡ name.now ∷ rest
        → IsTrue result }
{
    match names.next() {
        Some(next) => next == name,
        None => false,
    }
}
