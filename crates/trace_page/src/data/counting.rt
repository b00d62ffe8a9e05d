//! The schemas of events, with how many bytes their events have.

ghost use Rattle.std.specs.Prelude.{◌≡◌, ◌<◌, ◌++◌, ◌∷◌, [], IfOk, IfSome, IfNone, OnOk};
ghost use Rattle.std.specs.Prelude.{length, position};
ghost use Rattle.trace_wire.specs.Schemas.{same_entry};
ghost use Rattle.trace_page.specs.Counting.{IsPlaceOf, LacksEntry, HasMoreBytes, IsCountedAt};

use crate::schemas::PageSchema;
use std::alloc::{AllocError, Global};
use trace_wire::schema::{SchemaEntry, WireTypeId};

/// Where a schema of such a wire id is looked for first.
pub(crate) fn guess_of(id: WireTypeId) -> usize
    ensures { result < 256 }
{
    id.0 as usize % 256
}

/// Counts the bytes of an event to its schema, which comes last where it is new, and answers the schema's place.
/// `AllocError` where a growth was refused.
pub(crate) fn count_in(
    alloc: Global,
    schemas: &mut Vec<PageSchema>,
    guess: usize,
    entry: &SchemaEntry,
    bytes: u64,
) -> Result<usize, AllocError>
    ensures { IfOk result (λ place.
        IsCountedAt schemas.old.items entry.now bytes place schemas.new.items) }
{
    match place_of(schemas.as_slice(), guess, entry) {
        Some(place) => {
            add_bytes(schemas, place, bytes);
            Ok(place)
        }
        None => put_last_schema(alloc, schemas, entry, bytes),
    }
}

// Where a schema stands, if it does: at the guessed place, or elsewhere.
fn place_of(schemas: &[PageSchema], guess: usize, entry: &SchemaEntry) -> Option<usize>
    ensures found { IfSome result (IsPlaceOf schemas.now entry.now) }
    ensures none { IfNone result (LacksEntry schemas.now entry.now) }
{
    if let Some(guessed) = schemas.get(guess) {
        if guessed.entry == *entry {
            return Some(guess);
        }
    }
    first_place(schemas, entry)
}

// The first place where a schema stands, if it does.
fn first_place(schemas: &[PageSchema], entry: &SchemaEntry) -> Option<usize>
    ensures { result ≡ position (λ s. same_entry s.entry entry.now) schemas.now }
{
    schemas.iter().position(|schema| schema.entry == *entry)
}

// Counts bytes to the schema at a place.
fn add_bytes(schemas: &mut Vec<PageSchema>, place: usize, bytes: u64)
    requires { place < length schemas.old.items }
    ensures { HasMoreBytes schemas.old.items place bytes schemas.new.items }
{
    schemas[place].bytes = schemas[place].bytes.saturating_add(bytes);
}

// Puts a schema in last, with so many bytes, and answers its place. `AllocError` where a growth was refused.
fn put_last_schema(
    alloc: Global,
    schemas: &mut Vec<PageSchema>,
    entry: &SchemaEntry,
    bytes: u64,
) -> Result<usize, AllocError>
    ensures place { IfOk result (λ place. place ≡ length schemas.old.items) }
    ensures last { OnOk result (schemas.new.items
        ≡ schemas.old.items ++ record { entry = entry.now; bytes = bytes } ∷ []) }
{
    let place = schemas.len();
    let entry = entry.clone(alloc)?;
    schemas.push(PageSchema { entry, bytes })?;
    Ok(place)
}
