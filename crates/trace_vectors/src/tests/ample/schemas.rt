//! Names that no frame has, and registries that are full.

use crate::tests::ample::{MILLION, text};
use dial9_trace_format::codec::WireTypeId;
use dial9_trace_format::encoder::Schema;
use dial9_trace_format::schema::{FieldAnnotation, FieldDef, SchemaEntry, SchemaRegistry};
use dial9_trace_format::types::FieldType;
use std::alloc::Global;
use std::process::Abort;

/// So many fields without a name.
pub fn fields(
    rt: &impl Abort,
    alloc: Global,
    count: usize,
    field_type: FieldType,
) -> Vec<FieldDef> {
    let mut fields = Vec::new(alloc);
    for _ in 0..count {
        let field = FieldDef::new(alloc, "", field_type).expect(rt, "memory");
        fields.push(field).expect(rt, "memory");
    }
    fields
}

/// A field has this name, and its copy is equal to it.
fn is_field_copied(rt: &impl Abort, alloc: Global, name: &str) -> bool {
    let field = FieldDef::new(alloc, name, FieldType::U8).expect(rt, "memory");
    field.name() == name && field.clone(alloc).expect(rt, "memory") == field
}

/// An annotation has this key and this value, and its copy is equal to it.
fn is_annotation_copied(rt: &impl Abort, alloc: Global, key: &str) -> bool {
    let annotation = FieldAnnotation::new(alloc, 1, key, key).expect(rt, "memory");
    let is_copied = annotation.clone(alloc).expect(rt, "memory") == annotation;
    is_copied && annotation.key() == key && annotation.value() == key
}

/// An entry without fields has this name, and its copy is equal to it.
fn is_entry_copied(rt: &impl Abort, alloc: Global, name: &str) -> bool {
    let entry = SchemaEntry::new(alloc, name, &[]).expect(rt, "memory");
    entry.name() == name && entry.clone(alloc).expect(rt, "memory") == entry
}

/// The copy of a schema without fields has its name.
fn is_schema_copied(rt: &impl Abort, alloc: Global, name: &str) -> bool {
    let schema = Schema::new(alloc, name, Vec::new(alloc)).expect(rt, "memory");
    schema.clone().expect(rt, "memory").name() == name
}

/// Fields, annotations, entries and schemas have names of this size.
fn check_names(rt: &impl Abort, alloc: Global, size: usize) {
    let name = text(rt, alloc, size);
    assert!(rt; is_field_copied(rt, alloc, name.as_str()));
    assert!(rt; is_annotation_copied(rt, alloc, name.as_str()));
    assert!(rt; is_entry_copied(rt, alloc, name.as_str()));
    assert!(rt; is_schema_copied(rt, alloc, name.as_str()));
}

/// Names of more bytes than a frame can have.
#[test]
fn long_names(rt: HostRuntime) {
    check_names(&rt, rt.alloc(), 65_536);
    check_names(&rt, rt.alloc(), MILLION)
}

/// Puts an entry without fields.
fn put(rt: &impl Abort, registry: &mut SchemaRegistry, alloc: Global, id: u16) {
    let entry = SchemaEntry::new(alloc, "S", &[]).expect(rt, "memory");
    registry
        .register(WireTypeId(id), entry)
        .expect(rt, "no refusal")
}

/// A registry of entries with the ids below this count, each put twice.
fn registry(rt: &impl Abort, alloc: Global, ids: usize) -> SchemaRegistry {
    let mut registry = SchemaRegistry::new(alloc);
    for id in 0..ids.min(65_536) {
        put(rt, &mut registry, alloc, id as u16);
        put(rt, &mut registry, alloc, id as u16);
    }
    registry
}

/// The registry holds an entry under each id below this count.
fn is_held(registry: &SchemaRegistry, ids: usize) -> bool {
    for id in 0..ids.min(65_536) {
        if registry.get(WireTypeId(id as u16)).is_none() {
            return false;
        }
    }
    true
}

/// The copy of the registry holds as much.
fn is_copy_held(rt: &impl Abort, registry: &SchemaRegistry, ids: usize) -> bool {
    let copy = registry.clone().expect(rt, "memory");
    is_held(&copy, ids)
}

/// A registry and its copy hold so many entries.
fn are_held(rt: &impl Abort, alloc: Global, ids: usize) -> bool {
    let registry = registry(rt, alloc, ids);
    is_held(&registry, ids) && is_copy_held(rt, &registry, ids)
}

#[test]
fn registries_of_each_count(rt: HostRuntime) {
    assert!(rt; are_held(&rt, rt.alloc(), 4_097));
    assert!(rt; are_held(&rt, rt.alloc(), 65_536));
}
