//! The registry of schemas.

use crate::tests::calls::{all, decoder_of};
use dial9_trace_format::schema::{
    FieldDef, RegisterError, SchemaEntry, SchemaRegistry, WireTypeId,
};
use dial9_trace_format::types::FieldType;
use std::alloc::Global;
use std::process::Abort;

fn entry(rt: &impl Abort, alloc: Global, name: &str) -> SchemaEntry {
    let field = FieldDef::new(alloc, "v", FieldType::Varint).expect(rt, "memory");
    SchemaEntry::new(alloc, name, &[field]).expect(rt, "memory")
}

/// `SchemaRegistry::register`, of an entry of this name.
fn put(
    rt: &impl Abort,
    registry: &mut SchemaRegistry,
    alloc: Global,
    id: u16,
    name: &str,
) -> Result<(), RegisterError> {
    registry.register(WireTypeId(id), entry(rt, alloc, name))
}

/// `SchemaRegistry::next_type_id`.
fn next_id(registry: &mut SchemaRegistry) -> Option<u16> {
    let id = registry.next_type_id()?;
    Some(id.0)
}

/// The entry that an iterator gives has this id and this name.
fn is_entry(given: Option<(WireTypeId, &SchemaEntry)>, id: u16, name: &str) -> bool {
    match given {
        Some((found, entry)) => found == WireTypeId(id) && entry.name() == name,
        None => false,
    }
}

/// The registry holds these names by these ids, in this order, and no others.
fn has_entries(registry: &SchemaRegistry, wanted: &[(u16, &str)]) -> bool {
    let mut entries = registry.entries();
    for (id, name) in wanted {
        if !is_entry(entries.next(), *id, *name) {
            return false;
        }
    }
    entries.next().is_none()
}

#[test]
fn ids_are_handed_out_in_order(rt: HostRuntime) {
    let mut registry = SchemaRegistry::new(rt.alloc());
    assert!(rt; next_id(&mut registry) == Some(256));
    assert!(rt; next_id(&mut registry) == Some(257));
    put(&rt, &mut registry, rt.alloc(), 9, "A").expect(&rt, "no refusal");
    put(&rt, &mut registry, rt.alloc(), 3, "B").expect(&rt, "no refusal");
    assert!(rt; has_entries(&registry, &[(3, "B"), (9, "A")]));
    let conflict = Err(RegisterError::Conflict(WireTypeId(9)));
    assert!(rt; put(&rt, &mut registry, rt.alloc(), 9, "B") == conflict);
    assert!(rt; put(&rt, &mut registry, rt.alloc(), 9, "A") == Ok(()));
    registry.sync_next_id();
    assert!(rt; next_id(&mut registry) == Some(256));
}

#[test]
fn greatest_id_is_handed_out_last(rt: HostRuntime) {
    let mut registry = SchemaRegistry::new(rt.alloc());
    for id in 256..65_536u32 {
        assert!(rt; next_id(&mut registry) == Some(id as u16));
    }
    assert!(rt; next_id(&mut registry) == None);
    assert!(rt; next_id(&mut registry) == None);
    registry.clear();
    assert!(rt; next_id(&mut registry) == Some(256));
}

#[test]
fn no_id_above_the_greatest(rt: HostRuntime) {
    let mut registry = SchemaRegistry::new(rt.alloc());
    put(&rt, &mut registry, rt.alloc(), 65_535, "A").expect(&rt, "no refusal");
    registry.sync_next_id();
    assert!(rt; next_id(&mut registry) == None);
    let mut again = registry.clone().expect(&rt, "memory");
    assert!(rt; next_id(&mut again) == None);
    assert!(rt; again.get(WireTypeId(256)).is_none());
    assert!(rt; has_entries(&again, &[(65_535, "A")]));
}

/// Two schemas without fields, of events without a time: `A` under wire id 9, and `B` under 300.
const UNTIMED: [u8; 23] = [
    0x54, 0x52, 0x43, 0x00, 0x01, 0x01, 0x09, 0x00, 0x01, 0x00, 0x41, 0x00, 0x00, 0x00, 0x01, 0x2C,
    0x01, 0x01, 0x00, 0x42, 0x00, 0x00, 0x00,
];

#[test]
fn schemas_without_a_time_are_copied(rt: HostRuntime) {
    let mut decoder = decoder_of(&rt, rt.alloc(), &UNTIMED);
    assert!(rt; all(&rt, &mut decoder).len() == 2);
    let copy = decoder.registry().clone().expect(&rt, "memory");
    assert!(rt; has_entries(&copy, &[(9, "A"), (300, "B")]));
}

/// A registry with 65,535 schemas, emptied.
fn emptied(rt: &impl Abort, alloc: Global) -> SchemaRegistry {
    let mut registry = SchemaRegistry::new(alloc);
    for id in 1..65_536u32 {
        put(rt, &mut registry, alloc, id as u16, "A").expect(rt, "no refusal");
    }
    registry.clear();
    registry
}

#[test]
fn a_full_registry_is_emptied(rt: HostRuntime) {
    let mut registry = emptied(&rt, rt.alloc());
    assert!(rt; has_entries(&registry, &[]));
    assert!(rt; next_id(&mut registry) == Some(256));
    put(&rt, &mut registry, rt.alloc(), 65_535, "B").expect(&rt, "no refusal");
    assert!(rt; has_entries(&registry, &[(65_535, "B")]));
}
