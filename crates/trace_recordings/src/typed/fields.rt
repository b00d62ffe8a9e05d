//! Fields of events, from values.

ghost use Rattle.std.specs.Prelude.{◌≡◌, IfOk, string_bytes};
ghost use Rattle.trace_values.specs.ValueViews.{text_pairs_view, view};
ghost use Rattle.trace_values.specs.TraceFields.{string_pairs};

use crate::typed::Unheld;
use std::alloc::Global;
use trace_values::types::{
    BytesField, F64Bits, FieldValue, InternedStackFrames, InternedString, RequiredField,
    StackFrames, StrField, TraceField,
};

/// A field that can be made from a value.
pub trait HoldsValue<'a>: TraceField {
    /// The field whose value this is. `Unfit` where the value is of another kind, too large, or not UTF-8; `Memory`
    /// where a growth was refused.
    fn of_value(alloc: Global, value: &'a FieldValue) -> Result<Self, Unheld>
        ensures holds { IfOk result (λ x. Self.value x ≡ view value.now) };
}

impl<'a> HoldsValue<'a> for u8 {
    fn of_value(_: Global, value: &'a FieldValue) -> Result<u8, Unheld> {
        match value {
            FieldValue::Varint(number) => u8::try_from(*number).map_err(|_| Unheld::Unfit),
            _ => Err(Unheld::Unfit),
        }
    }
}

impl<'a> HoldsValue<'a> for u16 {
    fn of_value(_: Global, value: &'a FieldValue) -> Result<u16, Unheld> {
        match value {
            FieldValue::Varint(number) => u16::try_from(*number).map_err(|_| Unheld::Unfit),
            _ => Err(Unheld::Unfit),
        }
    }
}

impl<'a> HoldsValue<'a> for u32 {
    fn of_value(_: Global, value: &'a FieldValue) -> Result<u32, Unheld> {
        match value {
            FieldValue::Varint(number) => u32::try_from(*number).map_err(|_| Unheld::Unfit),
            _ => Err(Unheld::Unfit),
        }
    }
}

impl<'a> HoldsValue<'a> for u64 {
    fn of_value(_: Global, value: &'a FieldValue) -> Result<u64, Unheld> {
        match value {
            FieldValue::Varint(number) => Ok(*number),
            _ => Err(Unheld::Unfit),
        }
    }
}

impl<'a> HoldsValue<'a> for i64 {
    fn of_value(_: Global, value: &'a FieldValue) -> Result<i64, Unheld> {
        match value {
            FieldValue::I64(number) => Ok(*number),
            _ => Err(Unheld::Unfit),
        }
    }
}

impl<'a> HoldsValue<'a> for F64Bits {
    fn of_value(_: Global, value: &'a FieldValue) -> Result<F64Bits, Unheld> {
        match value {
            FieldValue::F64(bits) => Ok(F64Bits(*bits)),
            _ => Err(Unheld::Unfit),
        }
    }
}

impl<'a> HoldsValue<'a> for bool {
    fn of_value(_: Global, value: &'a FieldValue) -> Result<bool, Unheld> {
        match value {
            FieldValue::Bool(flag) => Ok(*flag),
            _ => Err(Unheld::Unfit),
        }
    }
}

impl<'a> HoldsValue<'a> for String {
    fn of_value(alloc: Global, value: &'a FieldValue) -> Result<String, Unheld> {
        match value {
            FieldValue::String(text) => Ok(String::from_str(alloc, text)?),
            _ => Err(Unheld::Unfit),
        }
    }
}

impl<'a> HoldsValue<'a> for Vec<u8> {
    fn of_value(alloc: Global, value: &'a FieldValue) -> Result<Vec<u8>, Unheld> {
        match value {
            FieldValue::Bytes(bytes) => Ok(Vec::from_slice(alloc, bytes)?),
            _ => Err(Unheld::Unfit),
        }
    }
}

impl<'a> HoldsValue<'a> for StrField<'a> {
    fn of_value(_: Global, value: &'a FieldValue) -> Result<StrField<'a>, Unheld> {
        match value {
            FieldValue::String(text) => Ok(StrField(text.as_str())),
            _ => Err(Unheld::Unfit),
        }
    }
}

impl<'a> HoldsValue<'a> for BytesField<'a> {
    fn of_value(_: Global, value: &'a FieldValue) -> Result<BytesField<'a>, Unheld> {
        match value {
            FieldValue::Bytes(bytes) => Ok(BytesField(bytes)),
            _ => Err(Unheld::Unfit),
        }
    }
}

impl<'a> HoldsValue<'a> for StackFrames {
    fn of_value(alloc: Global, value: &'a FieldValue) -> Result<StackFrames, Unheld> {
        match value {
            FieldValue::StackFrames(frames) => {
                Ok(StackFrames(Vec::from_slice(alloc, &frames.0)?))
            }
            _ => Err(Unheld::Unfit),
        }
    }
}

impl<'a> HoldsValue<'a> for InternedString {
    fn of_value(_: Global, value: &'a FieldValue) -> Result<InternedString, Unheld> {
        match value {
            FieldValue::PooledString(id) => Ok(*id),
            _ => Err(Unheld::Unfit),
        }
    }
}

impl<'a> HoldsValue<'a> for InternedStackFrames {
    fn of_value(_: Global, value: &'a FieldValue) -> Result<InternedStackFrames, Unheld> {
        match value {
            FieldValue::PooledStackFrames(id) => Ok(*id),
            _ => Err(Unheld::Unfit),
        }
    }
}

impl<'a> HoldsValue<'a> for Vec<(String, String)> {
    fn of_value(alloc: Global, value: &'a FieldValue) -> Result<Vec<(String, String)>, Unheld> {
        match value {
            FieldValue::StringMap(pairs) => texts_of(alloc, pairs),
            _ => Err(Unheld::Unfit),
        }
    }
}

impl<'a, T: HoldsValue<'a> + RequiredField> HoldsValue<'a> for Option<T> {
    fn of_value(alloc: Global, value: &'a FieldValue) -> Result<Option<T>, Unheld> {
        match value {
            FieldValue::None => Ok(None),
            value => Ok(Some(T::of_value(alloc, value)?)),
        }
    }
}

// The pairs as texts, where they are UTF-8.
fn texts_of(alloc: Global, pairs: &[(Vec<u8>, Vec<u8>)]) -> Result<Vec<(String, String)>, Unheld>
    ensures { IfOk result (λ made. string_pairs made.items ≡ text_pairs_view pairs.now) }
{
    let mut made = Vec::new(alloc);
    for (key, value) in pairs {
        let key = utf8_text(alloc, key)?;
        let value = utf8_text(alloc, value)?;
        made.push((key, value))?;
    }
    Ok(made)
}

// The bytes as a text, where they are UTF-8.
fn utf8_text(alloc: Global, bytes: &[u8]) -> Result<String, Unheld>
    ensures { IfOk result (λ text. string_bytes text ≡ bytes.now) }
{
    match str::from_utf8(bytes) {
        Ok(text) => Ok(String::from_str(alloc, text)?),
        Err(_) => Err(Unheld::Unfit),
    }
}
