//! What readers know: schemas, and the texts and stacks of pools.

ghost use Rattle.std.specs.Prelude.{◌≡◌, ◌↔◌, ◌∷◌, ℕ, List, IsTrue};
ghost use Rattle.std.specs.FinMap as map;
ghost use Rattle.trace_wire.specs.Registries.{entries_of};
ghost use Rattle.trace_wire.specs.Schemas.{Entry};

use trace_values::types::{InternedStackFrames, InternedString};
use trace_wire::pools::{StackPool, StackPoolIter, StringPool, StringPoolIter};
use trace_wire::schema::{SchemaEntries, SchemaEntry, SchemaRegistry, WireTypeId};

/// Whether both have the same schemas under the same ids.
pub fn same_schemas(registry: &SchemaRegistry, other: &SchemaRegistry) -> bool
    ensures { IsTrue result ↔ (entries_of (map.entries registry.now.wire_types)
        ≡ entries_of (map.entries other.now.wire_types)) }
{
    let mut others = other.entries();
    for (id, entry) in registry.entries() {
        if !is_next_schema(&mut others, id, entry) {
            return false;
        }
    }
    others.next().is_none()
}

/// Whether the next of these schemas is this one under this id.
fn is_next_schema(others: &mut SchemaEntries<'_>, id: WireTypeId, entry: &SchemaEntry) -> bool
    ensures next { IsTrue result → others.old ≡ (id.0, entry.now) ∷ others.new }
    ensures other { (rest : List (ℕ × Entry)) → others.old ≡ (id.0, entry.now) ∷ rest
        → IsTrue result }
{
    match others.next() {
        Some((other_id, other)) => id == other_id && is_same_entry(entry, other),
        None => false,
    }
}

/// Whether both schemas have the same name, fields and annotations.
pub fn is_same_entry(entry: &SchemaEntry, other: &SchemaEntry) -> bool
    ensures { IsTrue result ↔ (entry.now ≡ other.now) }
{
    *entry == *other
}

/// Whether both have the same texts under the same ids.
pub fn same_texts(pool: &StringPool, other: &StringPool) -> bool
    ensures { IsTrue result ↔ (pool.now ≡ other.now) }
{
    let mut others = other.iter();
    for (id, text) in pool.iter() {
        if !is_next_text(&mut others, id, text) {
            return false;
        }
    }
    others.next().is_none()
}

/// Whether the next of these texts is this one under this id.
fn is_next_text(others: &mut StringPoolIter<'_>, id: InternedString, text: &str) -> bool
    ensures next { IsTrue result → others.old ≡ (id.0, text.now) ∷ others.new }
    ensures other { (rest : List (ℕ × List ℕ)) → others.old ≡ (id.0, text.now) ∷ rest
        → IsTrue result }
{
    match others.next() {
        Some((other_id, other)) => id == other_id && text == other,
        None => false,
    }
}

/// Whether both have the same stacks under the same ids.
pub fn same_stacks(pool: &StackPool, other: &StackPool) -> bool
    ensures { IsTrue result ↔ (pool.now ≡ other.now) }
{
    let mut others = other.iter();
    for (id, stack) in pool.iter() {
        if !is_next_stack(&mut others, id, stack) {
            return false;
        }
    }
    others.next().is_none()
}

/// Whether the next of these stacks is this one under this id.
fn is_next_stack(others: &mut StackPoolIter<'_>, id: InternedStackFrames, stack: &[u64]) -> bool
    ensures next { IsTrue result → others.old ≡ (id.0, stack.now) ∷ others.new }
    ensures other { (rest : List (ℕ × List ℕ)) → others.old ≡ (id.0, stack.now) ∷ rest
        → IsTrue result }
{
    match others.next() {
        Some((other_id, other)) => id == other_id && stack == other,
        None => false,
    }
}
