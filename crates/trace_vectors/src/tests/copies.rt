//! Copies of schemas, and of maps.

use crate::tests::ample::read_value;
use dial9_trace_format::schema::{FieldAnnotation, FieldDef, SchemaEntry};
use dial9_trace_format::types::FieldType;
use std::alloc::Global;
use std::process::Abort;

/// The annotation is `unit` and `ns` of field 7.
fn is_unit(annotation: &FieldAnnotation) -> bool {
    annotation.field_index() == 7 && annotation.key() == "unit" && annotation.value() == "ns"
}

/// The annotations are so many of that one.
fn are_units(annotations: &[FieldAnnotation], count: usize) -> bool {
    for annotation in annotations {
        if !is_unit(annotation) {
            return false;
        }
    }
    annotations.len() == count
}

/// The fields are `v`, of type Varint, alone.
fn are_v(fields: &[FieldDef]) -> bool {
    match fields {
        [field] => field.name() == "v" && field.field_type() == FieldType::Varint,
        _ => false,
    }
}

/// The entry is `Ev` with that field and so many of that annotation.
fn is_ev(entry: &SchemaEntry, count: usize) -> bool {
    entry.name() == "Ev" && are_v(entry.fields()) && are_units(entry.annotations(), count)
}

/// The copy of the entry is equal to it until it has one annotation more.
fn is_copied(
    rt: &impl Abort,
    alloc: Global,
    entry: &SchemaEntry,
    annotations: &[FieldAnnotation],
) -> bool {
    let mut copy = entry.clone(alloc).expect(rt, "memory");
    let is_equal = is_ev(&copy, 1) && copy == *entry;
    copy.push_annotation_copies(alloc, annotations)
        .expect(rt, "memory");
    is_equal && is_ev(&copy, 2) && copy != *entry
}

/// The entry of this field and this annotation is that, and its copy too.
fn are_copied(rt: &impl Abort, alloc: Global, field: FieldDef, unit: FieldAnnotation) -> bool {
    let annotations = [unit];
    let entry = SchemaEntry::with_annotations(alloc, "Ev", &[field], &annotations).expect(
        rt, "memory",
    );
    is_ev(&entry, 1) && is_copied(rt, alloc, &entry, &annotations)
}

#[test]
fn copied_entry(rt: HostRuntime) {
    let field = FieldDef::new(rt.alloc(), "v", FieldType::Varint).expect(&rt, "memory");
    let unit = FieldAnnotation::new(rt.alloc(), 7, "unit", "ns").expect(&rt, "memory");
    assert!(rt; are_copied(&rt, rt.alloc(), field, unit));
}

/// The spellings of a map of two texts under two, and of a map of two pairs of numbers, the last of which is absent.
const MAPS: [(FieldType, &[u8]); 2] = [
    (
        FieldType::StringMap,
        &[
            2, 0, 0, 0, 1, 0, 0, 0, b'a', 1, 0, 0, 0, b'b', 0, 0, 0, 0, 1, 0, 0, 0, b'c',
        ],
    ),
    (
        FieldType::DynamicMap,
        &[2, 0, 0, 0, 0x09, 1, 0x09, 2, 0x09, 3, 0x8B, 0],
    ),
];

/// The copy of a map is equal to it, and has both pairs.
fn is_map_copied(rt: &impl Abort, alloc: Global, field_type: FieldType, bytes: &[u8]) -> bool {
    let map = read_value(rt, alloc, field_type, bytes);
    let copy = map.clone(alloc).expect(rt, "memory");
    copy == map && copy == read_value(rt, alloc, field_type, bytes)
}

#[test]
fn copied_maps(rt: HostRuntime) {
    for (field_type, bytes) in MAPS {
        assert!(rt; is_map_copied(&rt, rt.alloc(), field_type, bytes));
    }
}
