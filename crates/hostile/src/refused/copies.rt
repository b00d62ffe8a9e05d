//! Copies of frames and of values, each growth of which is refused.

use crate::refused::sweep::{Making, is_equal, sweep_made};
use crate::refused::verdict::{Counts, Verdict};
use dial9_trace_format::codec::{PoolEntry, StackPoolEntry};
use dial9_trace_format::decoder::{DecodedFrame, DecodedFrameRef};
use dial9_trace_format::types::{FieldValue, FieldValueRef, StackFrames};
use std::alloc::{AllocError, Global};

/// What is copied.
#[derive(Drop)]
pub enum Copied<'f, 'b> {
    /// `DecodedFrame::clone`.
    Frame(&'f DecodedFrame),
    /// `DecodedFrameRef::clone`.
    FrameRef(&'f DecodedFrameRef<'b>),
    /// `DecodedFrameRef::to_owned`, and what it gives.
    Owned(&'f DecodedFrameRef<'b>, &'f DecodedFrame),
    /// `FieldValue::clone`.
    Value(&'f FieldValue),
    /// `FieldValueRef::clone`.
    ValueRef(&'f FieldValueRef<'b>),
    /// `PoolEntry::clone`.
    Text(&'f PoolEntry),
    /// `StackPoolEntry::clone`.
    Stack(&'f StackPoolEntry),
    /// `StackFrames::from_slice`, `StackFrames::clone` and `FieldValue::string`, of these addresses and of a text.
    Made(&'f [u64]),
}

impl Making for Copied<'_, '_> {
    fn is_made(&self, alloc: Global) -> Result<bool, AllocError> {
        match self {
            Copied::Frame(frame) => is_equal((**frame).clone(alloc), frame),
            Copied::FrameRef(frame) => is_equal((**frame).clone(alloc), frame),
            Copied::Owned(frame, wanted) => is_equal((**frame).to_owned(alloc), wanted),
            Copied::Value(value) => is_equal((**value).clone(alloc), value),
            Copied::ValueRef(value) => is_equal((**value).clone(alloc), value),
            Copied::Text(entry) => is_equal((**entry).clone(alloc), entry),
            Copied::Stack(entry) => is_equal((**entry).clone(alloc), entry),
            Copied::Made(addresses) => are_made(alloc, addresses),
        }
    }
}

fn are_made(alloc: Global, addresses: &[u64]) -> Result<bool, AllocError> {
    let made = StackFrames::from_slice(alloc, addresses)?;
    let copied = is_copied(alloc, &made, addresses)?;
    Ok(makes_text(alloc)? & copied)
}

fn is_copied(alloc: Global, made: &StackFrames, addresses: &[u64]) -> Result<bool, AllocError> {
    let copy = made.clone(alloc)?;
    Ok(copy.as_slice() == addresses)
}

fn makes_text(alloc: Global) -> Result<bool, AllocError> {
    match FieldValue::string(alloc, "text")? {
        FieldValue::String(text) => Ok(text.as_str() == "text"),
        _ => Ok(false),
    }
}

/// Copies a frame, and each entry of its pools.
pub fn sweep_frame(alloc: Global, frame: &DecodedFrame, counts: &mut Counts) {
    sweep_made(alloc, &Copied::Frame(frame), counts);
    match frame {
        DecodedFrame::StringPool(entries) => {
            for entry in entries {
                sweep_made(alloc, &Copied::Text(entry), counts);
            }
        }
        DecodedFrame::StackPool(entries) => {
            for entry in entries {
                sweep_made(alloc, &Copied::Stack(entry), counts);
                sweep_made(alloc, &Copied::Made(&entry.frames), counts);
            }
        }
        _ => {}
    }
}

/// Copies a frame whose values stay in the bytes, and each value of an event.
pub fn sweep_ref(alloc: Global, frame: &DecodedFrameRef<'_>, counts: &mut Counts) {
    sweep_made(alloc, &Copied::FrameRef(frame), counts);
    match frame.to_owned(alloc) {
        Ok(wanted) => sweep_made(alloc, &Copied::Owned(frame, &wanted), counts),
        Err(_) => counts.add(Verdict::Wrong),
    }
    if let DecodedFrameRef::Event { values, .. } = frame {
        for value in values {
            sweep_made(alloc, &Copied::ValueRef(value), counts);
        }
    }
}
