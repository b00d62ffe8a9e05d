//! Values that are made, written and read by themselves, each growth of which is refused.

use crate::refused::copies::Copied;
use crate::refused::heap::{refuse, was_refused};
use crate::refused::sweep::{LACKING, Making, Trial, sweep, sweep_made};
use crate::refused::verdict::{Answer, Counts, Seen, Verdict, told_as};
use dial9_trace_format::decoder::DecodedFrame;
use dial9_trace_format::leb128::EncodeError;
use dial9_trace_format::types::{EventEncoder, FieldType, FieldValue, FieldValueRef};
use std::alloc::{AllocError, Global};
use trace_samples::manner::ROOM;
use trace_samples::{Manner, Told};

/// A value, its type, and its bytes.
#[derive(Drop)]
struct Spelled<'v> {
    value: &'v FieldValue,
    field_type: FieldType,
    bytes: Vec<u8>,
}

/// The value with its bytes, where it can be written by itself over an array.
fn spelling_of(alloc: Global, value: &FieldValue) -> Result<Option<Spelled<'_>>, AllocError> {
    let Some(field_type) = FieldType::from_tag(value.field_type_tag()) else {
        return Ok(None);
    };
    let mut bytes = Vec::new(alloc);
    match value.encode(alloc, &mut bytes) {
        Ok(()) => Ok(Some(Spelled {
            value,
            field_type,
            bytes,
        })),
        Err(EncodeError::OutOfMemory) => Err(AllocError),
        Err(_) => Ok(None),
    }
}

/// `FieldValue::encode` over an array. After a refusal nothing was sent, and the value written again is its bytes.
#[derive(Drop)]
struct Encoded<'v>(&'v Spelled<'v>);

impl Trial for Encoded<'_> {
    fn seen(&self, alloc: Global, number: u32) -> Seen {
        let mut writer = Told::new(Manner::SOUND);
        refuse(alloc, number);
        let told = self.0.value.encode(alloc, &mut writer);
        let refused = was_refused(alloc);
        let answer = told_as(told);
        let right = self.is_sent(alloc, answer, &mut writer);
        Seen {
            refused,
            answer,
            right,
        }
    }
}

impl Encoded<'_> {
    /// Whether the value is sent; after a refusal nothing was, and the value is now.
    fn is_sent(&self, alloc: Global, answer: Answer, writer: &mut Told) -> bool {
        if answer == Answer::Memory {
            let nothing = writer.bytes().is_empty();
            if !(self.0.value.encode(alloc, writer).is_ok() & nothing) {
                return false;
            }
        }
        writer.bytes() == self.0.bytes.as_slice()
    }
}

/// `EventEncoder::write_field_value`. After a refusal nothing was appended, and so on.
#[derive(Drop)]
struct Appended<'v>(&'v Spelled<'v>);

impl Trial for Appended<'_> {
    fn seen(&self, alloc: Global, number: u32) -> Seen {
        match vec![in alloc; 7u8] {
            Ok(mut out) => self.seen_in(alloc, number, &mut out),
            Err(_) => LACKING,
        }
    }
}

impl Appended<'_> {
    fn seen_in(&self, alloc: Global, number: u32, out: &mut Vec<u8>) -> Seen {
        refuse(alloc, number);
        let told = append(out, self.0);
        let refused = was_refused(alloc);
        let answer = told_as(told);
        let right = self.is_appended(answer, out);
        Seen {
            refused,
            answer,
            right,
        }
    }

    fn is_appended(&self, answer: Answer, out: &mut Vec<u8>) -> bool {
        if answer == Answer::Memory {
            let nothing = out.len() == 1;
            if !(append(out, self.0).is_ok() & nothing) {
                return false;
            }
        }
        out.strip_prefix(&[7]) == Some(self.0.bytes.as_slice())
    }
}

fn append(out: &mut Vec<u8>, spelled: &Spelled<'_>) -> Result<(), EncodeError> {
    EventEncoder::new(out).write_field_value(spelled.value, spelled.field_type)
}

/// A value that is read again.
#[derive(Drop)]
enum Reread<'v> {
    /// `FieldValue::decode`.
    Owned(&'v Spelled<'v>),
    /// `FieldValueRef::decode`, and what it gives.
    Borrowed(&'v Spelled<'v>, FieldValueRef<'v>),
}

impl Making for Reread<'_> {
    fn is_made(&self, alloc: Global) -> Result<bool, AllocError> {
        match self {
            Reread::Owned(spelled) => decodes(alloc, spelled),
            Reread::Borrowed(spelled, value) => decodes_ref(alloc, spelled, value),
        }
    }
}

/// Whether the bytes give the value, and no byte is left.
fn decodes(alloc: Global, spelled: &Spelled<'_>) -> Result<bool, AllocError> {
    match FieldValue::decode(alloc, spelled.field_type, &spelled.bytes)? {
        Some((value, rest)) => Ok((value == *spelled.value) & rest.is_empty()),
        None => Ok(false),
    }
}

/// Whether the bytes give this value, which ends where they end.
fn decodes_ref<'g, 'v>(
    alloc: Global,
    spelled: &'v Spelled<'v>,
    wanted: &'g FieldValueRef<'v>,
) -> Result<bool, AllocError> {
    match FieldValueRef::decode(alloc, spelled.field_type, &spelled.bytes, 0)? {
        Some((value, end)) => Ok((value == *wanted) & (end == spelled.bytes.len())),
        None => Ok(false),
    }
}

/// Copies, writes and reads a value.
pub fn sweep_value(alloc: Global, value: &FieldValue, counts: &mut Counts) {
    sweep_made(alloc, &Copied::Value(value), counts);
    match spelling_of(alloc, value) {
        Ok(Some(spelled)) => sweep_spelled(alloc, &spelled, counts),
        Ok(None) => {}
        Err(_) => counts.add(Verdict::Wrong),
    }
}

fn sweep_spelled(alloc: Global, spelled: &Spelled<'_>, counts: &mut Counts) {
    sweep(alloc, &Appended(spelled), counts);
    sweep_made(alloc, &Reread::Owned(spelled), counts);
    sweep_borrowed(alloc, spelled, counts);
    if spelled.bytes.len() < ROOM {
        sweep(alloc, &Encoded(spelled), counts);
    }
}

fn sweep_borrowed(alloc: Global, spelled: &Spelled<'_>, counts: &mut Counts) {
    match FieldValueRef::decode(alloc, spelled.field_type, &spelled.bytes, 0) {
        Ok(Some((value, _end))) => sweep_made(alloc, &Reread::Borrowed(spelled, value), counts),
        Ok(None) => {}
        Err(_) => counts.add(Verdict::Wrong),
    }
}

/// The same of each value of an event.
pub fn sweep_values(alloc: Global, frame: &DecodedFrame, counts: &mut Counts) {
    if let DecodedFrame::Event { values, .. } = frame {
        for value in values {
            sweep_value(alloc, value, counts);
        }
    }
}
