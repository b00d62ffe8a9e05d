//! Values that own their memory as JSON.

use crate::leaves::{put_bytes, put_float, put_pooled_stack, put_pooled_text, put_stack};
use crate::texts::put_owned_texts;
use crate::value::JsonValue;
use crate::weights::{LITTLE, pairs_weight, pooled_stack_weight, pooled_text_weight, stack_weight};
use json::Writer;
use std::alloc::{AllocError, Global};
use trace_values::types::FieldValue;
use trace_wire::pools::{StackPool, StringPool};

impl JsonValue for FieldValue {
    fn put_flat(
        &self,
        alloc: Global,
        out: &mut Writer,
        strings: &StringPool,
        stacks: &StackPool,
    ) -> Result<(), AllocError> {
        match self {
            FieldValue::I64(number) => out.i64(*number),
            FieldValue::F64(bits) => put_float(alloc, out, *bits),
            FieldValue::Bool(flag) => out.boolean(*flag),
            FieldValue::String(text) => out.string(text.as_str()),
            FieldValue::Bytes(bytes) => put_bytes(alloc, out, bytes.as_slice()),
            FieldValue::PooledString(id) => put_pooled_text(out, strings, *id),
            FieldValue::StackFrames(frames) => put_stack(alloc, out, frames.as_slice()),
            FieldValue::PooledStackFrames(id) => put_pooled_stack(alloc, out, stacks, *id),
            FieldValue::Varint(number) => out.u64(*number),
            FieldValue::StringMap(pairs) => put_owned_texts(alloc, out, pairs.as_slice()),
            FieldValue::None => out.null(),
            FieldValue::List(_) => out.null(),
            FieldValue::Map(_) => out.null(),
        }
    }

    fn weight(&self, strings: &StringPool, stacks: &StackPool) -> usize {
        match self {
            FieldValue::String(text) => text.len(),
            FieldValue::Bytes(bytes) => bytes.len().saturating_mul(2),
            FieldValue::PooledString(id) => pooled_text_weight(strings, *id),
            FieldValue::StackFrames(frames) => stack_weight(frames.as_slice()),
            FieldValue::PooledStackFrames(id) => pooled_stack_weight(stacks, *id),
            FieldValue::StringMap(pairs) => pairs_weight(pairs.as_slice()),
            _ => LITTLE,
        }
    }
}
