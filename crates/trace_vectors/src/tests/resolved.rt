//! Events resolved by the call.

use crate::tests::traces::HEADER;
use dial9_trace_format::codec::WireTypeId;
use dial9_trace_format::decoder::{Decoder, RawEvent};
use dial9_trace_format::resolve::DeserError;
use dial9_trace_format::schema::SchemaEntry;
use dial9_trace_format::types::{FieldValueRef, InternedString};
use std::alloc::Global;
use std::process::Abort;

/// What an event of no schema fields with these values resolves to, in pools without entries.
fn resolve_bare(
    rt: &impl Abort,
    alloc: Global,
    fields: &[FieldValueRef<'_>],
) -> Option<DeserError> {
    let Some(decoder) = Decoder::new(alloc, &HEADER) else {
        return None;
    };
    let schema = SchemaEntry::new(alloc, "S", &[]).expect(rt, "memory");
    let event = RawEvent {
        type_id: WireTypeId(256),
        name: "S",
        timestamp_ns: 1,
        fields,
        schema: &schema,
        string_pool: decoder.string_pool(),
        stack_pool: decoder.stack_pool(),
    };
    event.resolve(alloc).err()
}

#[test]
fn a_value_without_a_field_is_refused(rt: HostRuntime) {
    let id = InternedString::from_raw(7);
    let short = resolve_bare(&rt, rt.alloc(), &[FieldValueRef::PooledString(id)]);
    assert!(rt; short == Some(DeserError::SchemaShort));
    assert!(rt; resolve_bare(&rt, rt.alloc(), &[]) == None);
}
