//! What a decoder knows before a frame.

ghost use Rattle.std.specs.Prelude.{◌≡◌, ◌↔◌, ◌≤◌, [], None, IsTrue, IfSome, length};
ghost use Rattle.std.specs.FinMap as map;
ghost use Rattle.trace_wire.specs.Registries.{entries_of};
ghost use Rattle.hostile.specs.Standing.{ReadsTo};

use crate::calls::{all_owned, place_of};
use crate::refused::plan::{HEADER, new_encoder};
use crate::refused::runs::Reference;
use dial9_trace_format::decoder::{DecodedFrame, Decoder, StackPool, StringPool};
use dial9_trace_format::encoder::Encoder;
use dial9_trace_format::schema::SchemaRegistry;
use reader_agreement::any_event::is_any_event;
use reader_agreement::tables::{same_schemas, same_stacks, same_texts};
use std::alloc::{AllocError, Global};

/// The tables of a decoder.
#[derive(Clone, Copy)]
pub struct Tables<'t> {
    pub schemas: &'t SchemaRegistry,
    pub texts: &'t StringPool,
    pub stacks: &'t StackPool,
}

/// How many frames, and how many events among them, stand before a place.
#[derive(Clone, Copy)]
pub struct Stood {
    pub frames: usize,
    pub events: usize,
}

/// No frame stood.
const NONE: Stood = Stood {
    frames: 0,
    events: 0,
};

impl Tables<'_> {
    /// Whether no schema, no text and no stack is known.
    fn are_empty(self) -> bool
        ensures { IsTrue result ↔ ((entries_of (map.entries self.entry.schemas.now.wire_types) ≡ [])
            × (map.len self.entry.texts.now ≡ 0) × (map.len self.entry.stacks.now ≡ 0)) }
    {
        let schemas = self.schemas.entries().next().is_none();
        schemas & self.texts.is_empty() & self.stacks.is_empty()
    }

    /// Whether the pools are those that the decoder has.
    fn has_pools_of(self, decoder: &Decoder<'_>) -> bool
        ensures { IsTrue result ↔ ((self.entry.texts.now ≡ decoder.now.pools.strings)
            × (self.entry.stacks.now ≡ decoder.now.pools.stacks)) }
    {
        let texts = same_texts(self.texts, decoder.string_pool());
        texts & same_stacks(self.stacks, decoder.stack_pool())
    }
}

/// What stands before a place of a trace, where that is whole and the tables are what it leaves; of a pool frame at the
/// place a front of the entries may be in its pool. `None` where it is not so.
pub fn what_stood(
    alloc: Global,
    reference: &Reference<'_>,
    place: usize,
    tables: Tables<'_>,
) -> Option<Stood>
    ensures { IfSome result (λ stood. place ≤ length reference.now.bytes.now) }
{
    let front = reference.bytes.get(..place)?;
    match Decoder::new(alloc, front) {
        Some(mut decoder) => what_reads(alloc, reference, front, &mut decoder, tables),
        None if (place == 0) & tables.are_empty() => Some(NONE),
        None => None,
    }
}

/// The same, by a decoder of what stands before the place.
fn what_reads(
    alloc: Global,
    reference: &Reference<'_>,
    front: &[u8],
    decoder: &mut Decoder<'_>,
    tables: Tables<'_>,
) -> Option<Stood>
    ensures { decoder.old.failure ≡ None → IfSome result (λ stood. ReadsTo (length front.now)
        tables.entry.schemas.now.wire_types decoder.old decoder.new stood.frames) }
{
    let Ok(frames) = all_owned(decoder) else {
        return None;
    };
    let next = reference.owned.frames.get(frames.len());
    if stands_at(decoder, front.len(), tables.schemas)
        && (tables.has_pools_of(decoder) || leaves_some(alloc, front, next, tables))
    {
        Some(stood_in(&frames))
    } else {
        None
    }
}

/// Whether the decoder stands at this place, and has these schemas.
fn stands_at(decoder: &Decoder<'_>, place: usize, schemas: &SchemaRegistry) -> bool
    ensures { IsTrue result ↔ ((decoder.now.position ≡ place)
        × (entries_of (map.entries schemas.now.wire_types)
        ≡ entries_of (map.entries decoder.now.grammar.wire_types))) }
{
    place_of(decoder) == place && same_schemas(schemas, decoder.registry())
}

/// How many frames these are, and events among them.
fn stood_in(frames: &[DecodedFrame]) -> Stood
    ensures { result.frames ≡ length frames.now }
{
    Stood {
        frames: frames.len(),
        events: events_of(frames),
    }
}

/// How many of the frames are events.
fn events_of(frames: &[DecodedFrame]) -> usize {
    let mut count: usize = 0;
    for frame in frames {
        if is_any_event(frame) {
            count = count.saturating_add(1);
        }
    }
    count
}

/// Whether the pools are left by a front of a trace, and then by a front of the entries of the pool frame that is next.
fn leaves_some(
    alloc: Global,
    front: &[u8],
    next: Option<&DecodedFrame>,
    tables: Tables<'_>,
) -> bool {
    let Some(frame) = next else {
        return false;
    };
    for count in 1..=entries_of(frame) {
        if leaves(alloc, front, frame, count, tables) {
            return true;
        }
    }
    false
}

fn entries_of(frame: &DecodedFrame) -> usize {
    match frame {
        DecodedFrame::StringPool(entries) => entries.len(),
        DecodedFrame::StackPool(entries) => entries.len(),
        _ => 0,
    }
}

/// Whether the first entries of the frame, so many, leave these pools.
fn leaves(
    alloc: Global,
    front: &[u8],
    frame: &DecodedFrame,
    count: usize,
    tables: Tables<'_>,
) -> bool {
    match joined(alloc, front, frame, count) {
        Ok(trace) => leaves_pools(alloc, &trace, tables),
        Err(_) => false,
    }
}

/// Whether a trace leaves these pools.
fn leaves_pools(alloc: Global, trace: &[u8], tables: Tables<'_>) -> bool {
    match Decoder::new(alloc, trace) {
        Some(mut decoder) => {
            let read = all_owned(&mut decoder).is_ok();
            read & tables.has_pools_of(&decoder)
        }
        None => false,
    }
}

/// The bytes, and then the pool frame of so many of the frame's entries.
fn joined(
    alloc: Global,
    front: &[u8],
    frame: &DecodedFrame,
    count: usize,
) -> Result<Vec<u8>, AllocError> {
    let spelled = pool_frame(alloc, frame, count)?;
    let mut trace = Vec::from_slice(alloc, front)?;
    if let Some(pool) = spelled.get(HEADER..) {
        trace.extend_from_slice(pool)?;
    }
    Ok(trace)
}

/// A header, and the pool frame of so many of the frame's entries.
fn pool_frame(alloc: Global, frame: &DecodedFrame, count: usize) -> Result<Vec<u8>, AllocError> {
    let mut encoder = new_encoder(alloc)?;
    if writes_pool(&mut encoder, frame, count) {
        Ok(encoder.finish())
    } else {
        Err(AllocError)
    }
}

fn writes_pool(encoder: &mut Encoder, frame: &DecodedFrame, count: usize) -> bool {
    match frame {
        DecodedFrame::StringPool(entries) => match entries.get(..count) {
            Some(first) => encoder.write_string_pool(first).is_ok(),
            None => false,
        },
        DecodedFrame::StackPool(entries) => match entries.get(..count) {
            Some(first) => encoder.write_stack_pool(first).is_ok(),
            None => false,
        },
        _ => false,
    }
}
