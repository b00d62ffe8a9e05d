//! Calls that no worked trace has, and new writers that fail, over writers that fail at each place.

use crate::breaking::{Breaking, Fault, Manner};
use crate::wanted::kind_of;
use crate::written::SOUND;
use dial9_trace_format::codec::StackPoolEntry;
use dial9_trace_format::encoder::Encoder;
use dial9_trace_format::leb128::{EncodeError, Plain};
use dial9_trace_format::schema::FieldDef;
use dial9_trace_format::types::FieldType;
use std::alloc::Global;

/// A call that no worked trace has.
#[derive(Clone, Copy, PartialEq, Eq, Debug)]
pub enum Apart {
    /// `Encoder::register_schema`, of the schema `Ev` with the field `v: Varint`.
    Schema,
    /// `Encoder::write_stack_pool`, of the empty stack under 7.
    Stacks,
}

/// Header, and that schema (docs/FORMAT.md, "Schema").
const SCHEMA: [u8; 19] = [
    0x54, 0x52, 0x43, 0x00, 0x01, 0x01, 0x00, 0x01, 0x02, 0x00, 0x45, 0x76, 0x01, 0x01, 0x00, 0x01,
    0x00, 0x76, 0x09,
];

/// Header, and that pool.
const STACKS: [u8; 18] = [
    0x54, 0x52, 0x43, 0x00, 0x01, 0x04, 0x01, 0x00, 0x00, 0x00, 0x07, 0x00, 0x00, 0x00, 0x00, 0x00,
    0x00, 0x00,
];

/// What is tried over writers that fail.
#[derive(Clone, Copy, PartialEq, Eq, Debug)]
pub enum Tried {
    Call(Apart),
    /// A new writer, which fails in its header.
    NewWriter,
}

/// All of it.
pub const TRIED: [Tried; 3] = [
    Tried::Call(Apart::Schema),
    Tried::Call(Apart::Stacks),
    Tried::NewWriter,
];

/// At how many places a writer fails, from the first on.
pub fn places_of(tried: Tried) -> usize {
    match tried {
        Tried::Call(apart) => bytes_of(apart).len().saturating_add(1),
        Tried::NewWriter => 5,
    }
}

/// Whether all is as it should be over a writer of this manner.
pub fn is_right_apart(alloc: Global, tried: Tried, manner: Manner) -> bool {
    match tried {
        Tried::Call(apart) => stops(alloc, apart, manner),
        Tried::NewWriter => goes_on(alloc, manner),
    }
}

/// What a new encoder has sent after the call.
fn bytes_of(apart: Apart) -> &'static [u8] {
    match apart {
        Apart::Schema => &SCHEMA,
        Apart::Stacks => &STACKS,
    }
}

/// Makes the call.
fn make(
    alloc: Global,
    encoder: &mut Encoder<Plain<&mut Breaking>>,
    apart: Apart,
) -> Result<(), EncodeError> {
    match apart {
        Apart::Schema => register(alloc, encoder),
        Apart::Stacks => {
            let entry = StackPoolEntry {
                pool_id: 7,
                frames: Vec::new(alloc),
            };
            encoder.write_stack_pool(&[entry])
        }
    }
}

fn register(alloc: Global, encoder: &mut Encoder<Plain<&mut Breaking>>) -> Result<(), EncodeError> {
    let field = FieldDef::new(alloc, "v", FieldType::Varint)?;
    encoder.register_schema("Ev", vec![in alloc; field]?)?;
    Ok(())
}

/// Whether the call over a writer of this manner, on a new encoder, stops where the writer fails, is told so, and is
/// told when it is made again that the encoder has failed; and whether that writer is never flushed.
fn stops(alloc: Global, apart: Apart, manner: Manner) -> bool {
    let mut writer = Breaking::new(alloc, manner);
    let right = is_answered(alloc, Plain(&mut writer), apart, manner);
    let bytes = bytes_of(apart);
    let sent = bytes.get(..manner.place).unwrap_or(bytes);
    right && writer.flushes == 0 && writer.bytes.as_slice() == sent
}

fn is_answered(alloc: Global, writer: Plain<&mut Breaking>, apart: Apart, manner: Manner) -> bool {
    let fault = Err(EncodeError::Writer(kind_of(manner.fault)));
    match Encoder::new_to(alloc, writer) {
        Err(error) => manner.place < 5 && Err(error) == fault,
        Ok(mut encoder) => {
            let answer = make(alloc, &mut encoder, apart);
            if manner.place >= bytes_of(apart).len() {
                return answer == Ok(());
            }
            let failed = make(alloc, &mut encoder, apart) == Err(EncodeError::Failed);
            answer == fault && failed && encoder.bytes_written() == manner.place as u64
        }
    }
}

/// Whether the call is accepted twice over a writer of this manner, which does not fail to write.
pub fn is_accepted_twice(alloc: Global, apart: Apart, manner: Manner) -> bool {
    let mut writer = Breaking::new(alloc, manner);
    let right = is_counted(alloc, Plain(&mut writer), apart);
    right && writer.bytes.as_slice().starts_with(bytes_of(apart))
}

fn is_counted(alloc: Global, writer: Plain<&mut Breaking>, apart: Apart) -> bool {
    let Ok(mut encoder) = Encoder::new_to(alloc, writer) else {
        return false;
    };
    let first = make(alloc, &mut encoder, apart) == Ok(());
    let counted = encoder.bytes_written() == bytes_of(apart).len() as u64;
    first && counted && make(alloc, &mut encoder, apart) == Ok(())
}

/// Header, and the pool of `hello` under 0.
const GOES_ON: [u8; 23] = [
    0x54, 0x52, 0x43, 0x00, 0x01, 0x03, 0x01, 0x00, 0x00, 0x00, 0x00, 0x00, 0x00, 0x00, 0x05, 0x00,
    0x00, 0x00, 0x68, 0x65, 0x6C, 0x6C, 0x6F,
];

/// Whether an encoder that is given a writer of this manner, which fails in the header of the new trace, tells that
/// fault, tries that writer once, does not flush it, and goes on over its own one, which it flushes once.
fn goes_on(alloc: Global, manner: Manner) -> bool {
    let mut writer = Breaking::new(alloc, SOUND);
    let mut next = Breaking::new(alloc, manner);
    let right = goes_on_over(alloc, Plain(&mut writer), Plain(&mut next), manner.fault);
    let header = GOES_ON.get(..manner.place).unwrap_or(&[]);
    matches!(right, Ok(true))
        && writer.bytes.as_slice().starts_with(&GOES_ON)
        && writer.flushes == 1
        && next.bytes.as_slice() == header
        && next.flushes == 0
}

/// The same of these two writers.
fn goes_on_over<'w>(
    alloc: Global,
    writer: Plain<&'w mut Breaking>,
    next: Plain<&'w mut Breaking>,
    fault: Fault,
) -> Result<bool, EncodeError> {
    let mut encoder = Encoder::new_to(alloc, writer)?;
    let refused = match encoder.reset_to(next) {
        Ok(_) => false,
        Err(error) => error == EncodeError::Writer(kind_of(fault)),
    };
    let accepted = encoder.intern_string("hello").is_ok() && encoder.flush().is_ok();
    let written = encoder.as_inner().0.bytes.len() == 23 && encoder.bytes_written() == 23;
    Ok(refused && accepted && written)
}
