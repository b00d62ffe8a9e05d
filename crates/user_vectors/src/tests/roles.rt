//! The rules of docs/ROLES.md, over schemas made here.

use std::alloc::Global;
use std::process::Abort;
use trace_roles::clock::clock_of;
use trace_roles::roles::{OF_SCHEMA, Shape, note_of, roles_of};
use trace_roles::units::{CounterKind, counter_of, nanoseconds_in, unit_of};
use trace_values::types::FieldType;
use trace_wire::schema::{FieldAnnotation, FieldDef, SchemaEntry};

/// An annotation: an index, a key and a value.
type Note = (u16, &'static str, &'static str);

/// Fields of these names.
fn fields_of(rt: &impl Abort, alloc: Global, names: &[&str]) -> Vec<FieldDef> {
    let mut fields = Vec::new(alloc);
    for name in names {
        let field = FieldDef::new(alloc, name, FieldType::Varint).expect(rt, "memory");
        fields.push(field).expect(rt, "memory");
    }
    fields
}

/// These annotations.
fn annotations_of(rt: &impl Abort, alloc: Global, notes: &[Note]) -> Vec<FieldAnnotation> {
    let mut annotations = Vec::new(alloc);
    for (index, key, value) in notes {
        let annotation = FieldAnnotation::new(alloc, *index, key, value).expect(rt, "memory");
        annotations.push(annotation).expect(rt, "memory");
    }
    annotations
}

/// A schema with these fields and these annotations.
fn schema_of(rt: &impl Abort, alloc: Global, names: &[&str], notes: &[Note]) -> SchemaEntry {
    let fields = fields_of(rt, alloc, names);
    let annotations = annotations_of(rt, alloc, notes);
    SchemaEntry::from_parts(alloc, "Ev", fields, annotations).expect(rt, "memory")
}

const NOTES: [Note; 5] = [
    (9, "role", "duration"),
    (1, "role", "duration"),
    (0, "role", "name"),
    (1, "unit", "us"),
    (1, "kind", "updown-counter"),
];

/// The fields have these roles.
fn has_roles(entry: &SchemaEntry) -> bool {
    let roles = roles_of(entry);
    roles.track == Some(2)
        && roles.duration == Some(1)
        && roles.name == Some(0)
        && matches!(roles.shape(), Shape::Slice(1))
}

#[test]
fn roles_of_annotations(rt: HostRuntime) {
    let entry = schema_of(&rt, rt.alloc(), &["n", "took", "worker"], &NOTES);
    assert!(rt; has_roles(&entry));
    assert!(rt; unit_of(&entry, 1) == Some("us") && unit_of(&entry, 0).is_none());
    assert!(rt; counter_of(&entry, 1) == Some(CounterKind::UpDownCounter));
    assert!(rt; nanoseconds_in("us") == Some(1_000) && nanoseconds_in("bytes").is_none());
}

const BEGIN: [Note; 2] = [(OF_SCHEMA, "begin", "poll"), (0, "role", "duration")];

/// Events of such a schema begin a span.
fn begins(rt: &impl Abort, alloc: Global) -> bool {
    let begin = schema_of(rt, alloc, &["tid"], &BEGIN);
    matches!(roles_of(&begin).shape(), Shape::Begins("poll"))
}

const END: [Note; 2] = [(OF_SCHEMA, "end", "poll"), (0, "role", "tid")];

/// Events of such a schema end it, on the track of their first field.
fn ends(rt: &impl Abort, alloc: Global) -> bool {
    let end = schema_of(rt, alloc, &["id", "tid"], &END);
    matches!(roles_of(&end).shape(), Shape::Ends("poll"))
        && roles_of(&end).track == Some(0)
        && note_of(&end, OF_SCHEMA, "end") == Some("poll")
}

#[test]
fn shapes_of_schemas(rt: HostRuntime) {
    assert!(rt; begins(&rt, rt.alloc()));
    assert!(rt; ends(&rt, rt.alloc()));
    let plain = schema_of(&rt, rt.alloc(), &[], &[]);
    assert!(rt; matches!(roles_of(&plain).shape(), Shape::Instant));
}

/// What a schema of this note tells of its clock: its name, and its zero.
fn has_clock(entry: &SchemaEntry, name: &str, zero: i64) -> bool {
    match clock_of(entry) {
        Some(clock) => clock.name == name && clock.zero == zero,
        None => false,
    }
}

/// A schema with this note of its clock.
fn clocked(rt: &impl Abort, alloc: Global, text: &'static str) -> SchemaEntry {
    schema_of(rt, alloc, &[], &[(OF_SCHEMA, "clock", text)])
}

#[test]
fn clocks_of_schemas(rt: HostRuntime) {
    let entry = clocked(&rt, rt.alloc(), "monotonic 1764288000000000000");
    assert!(rt; has_clock(&entry, "monotonic", 1_764_288_000_000_000_000));
    for text in ["monotonic", "monotonic ", "a b 1", "m 9223372036854775808"] {
        let entry = clocked(&rt, rt.alloc(), text);
        assert!(rt; clock_of(&entry).is_none());
    }
}
