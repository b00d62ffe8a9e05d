//! The calls that would write a trace.

use crate::calls::next_owned;
use crate::refused::samples::{push_stack, push_text};
use dial9_trace_format::codec::{PoolEntry, StackPoolEntry, WireTypeId};
use dial9_trace_format::decoder::{DecodedFrame, Decoder};
use dial9_trace_format::encoder::{Call, Schema};
use dial9_trace_format::schema::SchemaRegistry;
use std::alloc::{AllocError, Global};

/// The calls that would write the frames of a trace again, and intern its texts and stacks.
pub fn calls_of_trace(alloc: Global, bytes: &[u8]) -> Result<Vec<Call>, AllocError> {
    let mut calls = Vec::new(alloc);
    match push_trace(alloc, bytes, &mut calls) {
        Ok(()) => Ok(calls),
        Err(error) => Err(error),
    }
}

fn push_trace(alloc: Global, bytes: &[u8], calls: &mut Vec<Call>) -> Result<(), AllocError> {
    match Decoder::new(alloc, bytes) {
        Some(mut decoder) => push_frames(alloc, &mut decoder, calls),
        None => Ok(()),
    }
}

fn push_frames(
    alloc: Global,
    decoder: &mut Decoder<'_>,
    calls: &mut Vec<Call>,
) -> Result<(), AllocError> {
    for _ in 0..(*decoder).data_len() {
        match next_owned(decoder) {
            Ok(Some(frame)) => push_frame(alloc, decoder.registry(), frame, calls)?,
            _ => break,
        }
    }
    Ok(())
}

fn push_frame(
    alloc: Global,
    registry: &SchemaRegistry,
    frame: DecodedFrame,
    calls: &mut Vec<Call>,
) -> Result<(), AllocError> {
    intern_parts(alloc, &frame, calls)?;
    match call_of(alloc, registry, frame)? {
        Some(call) => {
            calls.push(call)?;
            Ok(())
        }
        None => Ok(()),
    }
}

/// Interns the texts and the stacks of a pool.
fn intern_parts(
    alloc: Global,
    frame: &DecodedFrame,
    calls: &mut Vec<Call>,
) -> Result<(), AllocError> {
    match frame {
        DecodedFrame::StringPool(entries) => intern_texts(alloc, entries, calls),
        DecodedFrame::StackPool(entries) => intern_stacks(alloc, entries, calls),
        _ => Ok(()),
    }
}

fn intern_texts(
    alloc: Global,
    entries: &[PoolEntry],
    calls: &mut Vec<Call>,
) -> Result<(), AllocError> {
    for entry in entries {
        if let Ok(text) = str::from_utf8(&entry.bytes) {
            push_text(alloc, text, calls)?;
        }
    }
    Ok(())
}

fn intern_stacks(
    alloc: Global,
    entries: &[StackPoolEntry],
    calls: &mut Vec<Call>,
) -> Result<(), AllocError> {
    for entry in entries {
        push_stack(alloc, &entry.frames, calls)?;
    }
    Ok(())
}

/// The call that writes a frame that was read last, by a decoder with this registry, if one does.
fn call_of(
    alloc: Global,
    registry: &SchemaRegistry,
    frame: DecodedFrame,
) -> Result<Option<Call>, AllocError> {
    match frame {
        DecodedFrame::Schema(entry) => match Schema::from_entry(alloc, entry) {
            Ok(schema) => Ok(Some(Call::Register(schema))),
            Err(error) => Err(error),
        },
        DecodedFrame::Event {
            type_id,
            timestamp_ns,
            values,
        } => match schema_under(alloc, registry, type_id) {
            Ok(Some(schema)) => Ok(Some(Call::WriteEvent(schema, timestamp_ns, values))),
            Ok(None) => Ok(None),
            Err(error) => Err(error),
        },
        DecodedFrame::StringPool(entries) => Ok(Some(Call::StringPool(entries))),
        DecodedFrame::StackPool(entries) => Ok(Some(Call::StackPool(entries))),
        DecodedFrame::SchemaAnnotations {
            type_id: _,
            annotations: _annotations,
        } => Ok(None),
    }
}

/// The schema that the registry has under a wire id.
fn schema_under(
    alloc: Global,
    registry: &SchemaRegistry,
    id: WireTypeId,
) -> Result<Option<Schema>, AllocError> {
    match registry.get(id) {
        Some(entry) => Ok(Some(Schema::from_entry(alloc, entry.clone(alloc)?)?)),
        None => Ok(None),
    }
}
