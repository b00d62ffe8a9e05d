//! What `Debug` prints of schemas.

use crate::tests::traces::one_field;
use dial9_trace_format::types::FieldType;

#[test]
fn a_schema_is_shown_as_its_entry(rt: HostRuntime) {
    let schema = one_field(&rt, rt.alloc(), "S", "o", FieldType::OptionalU8);
    let shown = format!(in rt.alloc(); "{schema:?}").expect(&rt, "memory");
    let entry = format!(in rt.alloc(); "{:?}", schema.entry()).expect(&rt, "memory");
    assert!(rt; shown == entry && entry.contains("\"o\""));
}
