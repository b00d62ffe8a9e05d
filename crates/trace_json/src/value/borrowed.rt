//! Values that stay in the input as JSON.

use crate::leaves::{put_bytes, put_float, put_pooled_stack, put_pooled_text, put_stack_ref};
use crate::texts::put_texts;
use crate::value::JsonValue;
use crate::weights::{LITTLE, pooled_stack_weight, pooled_text_weight};
use json::Writer;
use std::alloc::{AllocError, Global};
use trace_values::types::FieldValueRef;
use trace_wire::pools::{StackPool, StringPool};

impl<'a> JsonValue for FieldValueRef<'a> {
    fn put_flat(
        &self,
        alloc: Global,
        out: &mut Writer,
        strings: &StringPool,
        stacks: &StackPool,
    ) -> Result<(), AllocError> {
        match self {
            FieldValueRef::I64(number) => out.i64(*number),
            FieldValueRef::F64(bits) => put_float(alloc, out, *bits),
            FieldValueRef::Bool(flag) => out.boolean(*flag),
            FieldValueRef::String(text) => out.string(text),
            FieldValueRef::Bytes(bytes) => put_bytes(alloc, out, bytes),
            FieldValueRef::PooledString(id) => put_pooled_text(out, strings, *id),
            FieldValueRef::StackFrames(frames) => put_stack_ref(alloc, out, frames),
            FieldValueRef::PooledStackFrames(id) => put_pooled_stack(alloc, out, stacks, *id),
            FieldValueRef::Varint(number) => out.u64(*number),
            FieldValueRef::StringMap(pairs) => put_texts(alloc, out, pairs),
            FieldValueRef::None => out.null(),
            FieldValueRef::List(_) => out.null(),
            FieldValueRef::Map(_) => out.null(),
        }
    }

    fn weight(&self, strings: &StringPool, stacks: &StackPool) -> usize {
        match self {
            FieldValueRef::String(text) => text.len(),
            FieldValueRef::Bytes(bytes) => bytes.len().saturating_mul(2),
            FieldValueRef::PooledString(id) => pooled_text_weight(strings, *id),
            FieldValueRef::StackFrames(frames) => frames.raw_data().len().saturating_mul(2),
            FieldValueRef::PooledStackFrames(id) => pooled_stack_weight(stacks, *id),
            FieldValueRef::StringMap(pairs) => pairs.raw_data().len(),
            _ => LITTLE,
        }
    }
}
