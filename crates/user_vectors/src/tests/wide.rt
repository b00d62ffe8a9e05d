//! An event type of 48 fields of twelve types, with annotations, as a user defines one, and three of its fields
//! converted. The bytes that are wanted were worked out by hand after docs/FORMAT.md.

ghost use Rattle.std.specs.Prelude.{[], ◌∷◌, refl, string_bytes};
ghost use Rattle.dial9_trace_format.specs.Words.{constant_entry, number, integer, float, boolean, text};
ghost use Rattle.dial9_trace_format.specs.Words.{pooled_text, pooled_stack, value_of_option};
ghost use Rattle.user_vectors.specs.declared.tests.wide.TheConstants.{WIDE};

use crate::tests::conversions::converted;
use dial9_trace_format::definition::Definition;
use dial9_trace_format::encoder::Encoder;
use dial9_trace_format::leb128::EncodeError;
use dial9_trace_format::types::{F64Bits, FieldType};
use dial9_trace_format::{
    EventEncoder, InternedStackFrames, InternedString, TraceEvent, TraceFields,
};
use std::alloc::Global;
use std::process::Abort;
use trace_converter::rules::Rule;
use trace_values::fields;

const WIDE: Definition = (
    "Wide",
    &[
        ("f0", FieldType::Varint),
        ("f1", FieldType::U32),
        ("f2", FieldType::U16),
        ("f3", FieldType::U8),
        ("f4", FieldType::I64),
        ("f5", FieldType::F64),
        ("f6", FieldType::Bool),
        ("f7", FieldType::String),
        ("f8", FieldType::PooledString),
        ("f9", FieldType::PooledStackFrames),
        ("f10", FieldType::OptionalU32),
        ("f11", FieldType::OptionalString),
        ("f12", FieldType::Varint),
        ("f13", FieldType::U32),
        ("f14", FieldType::U16),
        ("f15", FieldType::U8),
        ("f16", FieldType::I64),
        ("f17", FieldType::F64),
        ("f18", FieldType::Bool),
        ("f19", FieldType::String),
        ("f20", FieldType::PooledString),
        ("f21", FieldType::PooledStackFrames),
        ("f22", FieldType::OptionalU32),
        ("f23", FieldType::OptionalString),
        ("f24", FieldType::Varint),
        ("f25", FieldType::U32),
        ("f26", FieldType::U16),
        ("f27", FieldType::U8),
        ("f28", FieldType::I64),
        ("f29", FieldType::F64),
        ("f30", FieldType::Bool),
        ("f31", FieldType::String),
        ("f32", FieldType::PooledString),
        ("f33", FieldType::PooledStackFrames),
        ("f34", FieldType::OptionalU32),
        ("f35", FieldType::OptionalString),
        ("f36", FieldType::Varint),
        ("f37", FieldType::U32),
        ("f38", FieldType::U16),
        ("f39", FieldType::U8),
        ("f40", FieldType::I64),
        ("f41", FieldType::F64),
        ("f42", FieldType::Bool),
        ("f43", FieldType::String),
        ("f44", FieldType::PooledString),
        ("f45", FieldType::PooledStackFrames),
        ("f46", FieldType::OptionalU32),
        ("f47", FieldType::OptionalString),
    ],
    &[(0, "unit", "ns"), (47, "note", "last")],
);

/// Values of 48 fields.
#[derive(Drop)]
pub struct Wide {
    time: u64,
    f0: u64,
    f1: u32,
    f2: u16,
    f3: u8,
    f4: i64,
    f5: F64Bits,
    f6: bool,
    f7: String,
    f8: InternedString,
    f9: InternedStackFrames,
    f10: Option<u32>,
    f11: Option<String>,
    f12: u64,
    f13: u32,
    f14: u16,
    f15: u8,
    f16: i64,
    f17: F64Bits,
    f18: bool,
    f19: String,
    f20: InternedString,
    f21: InternedStackFrames,
    f22: Option<u32>,
    f23: Option<String>,
    f24: u64,
    f25: u32,
    f26: u16,
    f27: u8,
    f28: i64,
    f29: F64Bits,
    f30: bool,
    f31: String,
    f32: InternedString,
    f33: InternedStackFrames,
    f34: Option<u32>,
    f35: Option<String>,
    f36: u64,
    f37: u32,
    f38: u16,
    f39: u8,
    f40: i64,
    f41: F64Bits,
    f42: bool,
    f43: String,
    f44: InternedString,
    f45: InternedStackFrames,
    f46: Option<u32>,
    f47: Option<String>,
}

impl TraceEvent for Wide {
    ghost slot = { 48 };

    ghost entry = { constant_entry WIDE };

    ghost time = { λ e. e.time };

    ghost values = { λ e. number e.f0 ∷ number e.f1 ∷ number e.f2 ∷ number e.f3 ∷ integer e.f4 ∷
        float e.f5.0 ∷ boolean e.f6 ∷ text (string_bytes e.f7) ∷ pooled_text e.f8.0 ∷
        pooled_stack e.f9.0 ∷ value_of_option number e.f10 ∷
        value_of_option (λ s. text (string_bytes s)) e.f11 ∷ number e.f12 ∷ number e.f13 ∷
        number e.f14 ∷ number e.f15 ∷ integer e.f16 ∷ float e.f17.0 ∷ boolean e.f18 ∷
        text (string_bytes e.f19) ∷ pooled_text e.f20.0 ∷ pooled_stack e.f21.0 ∷
        value_of_option number e.f22 ∷ value_of_option (λ s. text (string_bytes s)) e.f23 ∷
        number e.f24 ∷ number e.f25 ∷ number e.f26 ∷ number e.f27 ∷ integer e.f28 ∷ float e.f29.0 ∷
        boolean e.f30 ∷ text (string_bytes e.f31) ∷ pooled_text e.f32.0 ∷ pooled_stack e.f33.0 ∷
        value_of_option number e.f34 ∷ value_of_option (λ s. text (string_bytes s)) e.f35 ∷
        number e.f36 ∷ number e.f37 ∷ number e.f38 ∷ number e.f39 ∷ integer e.f40 ∷ float e.f41.0 ∷
        boolean e.f42 ∷ text (string_bytes e.f43) ∷ pooled_text e.f44.0 ∷ pooled_stack e.f45.0 ∷
        value_of_option number e.f46 ∷ value_of_option (λ s. text (string_bytes s)) e.f47 ∷ [] };

    ghost one_each = { λ _. refl };

    fn type_slot() -> u16 {
        48
    }

    fn definition() -> Definition {
        WIDE
    }

    fn timestamp(&self) -> u64 {
        self.time
    }

    fn encode_fields(&self, enc: &mut EventEncoder<'_>) -> Result<(), EncodeError> {
        fields!(
            self.f0, self.f1, self.f2, self.f3, self.f4, self.f5, self.f6, self.f7, self.f8,
            self.f9, self.f10, self.f11, self.f12, self.f13, self.f14, self.f15, self.f16,
            self.f17, self.f18, self.f19, self.f20, self.f21, self.f22, self.f23, self.f24,
            self.f25, self.f26, self.f27, self.f28, self.f29, self.f30, self.f31, self.f32,
            self.f33, self.f34, self.f35, self.f36, self.f37, self.f38, self.f39, self.f40,
            self.f41, self.f42, self.f43, self.f44, self.f45, self.f46, self.f47
        )
        .encode_all(enc)
    }
}

/// One event at 10, with this text and this stack.
fn event_of_many(alloc: Global, text: InternedString, stack: InternedStackFrames) -> Wide {
    Wide {
        time: 10,
        f0: 7,
        f1: 8,
        f2: 9,
        f3: 10,
        f4: -1,
        f5: F64Bits(0),
        f6: true,
        f7: String::new(alloc),
        f8: text,
        f9: stack,
        f10: Some(3),
        f11: None,
        f12: 7,
        f13: 8,
        f14: 9,
        f15: 10,
        f16: -1,
        f17: F64Bits(0),
        f18: true,
        f19: String::new(alloc),
        f20: text,
        f21: stack,
        f22: Some(3),
        f23: None,
        f24: 7,
        f25: 8,
        f26: 9,
        f27: 10,
        f28: -1,
        f29: F64Bits(0),
        f30: true,
        f31: String::new(alloc),
        f32: text,
        f33: stack,
        f34: Some(3),
        f35: None,
        f36: 7,
        f37: 8,
        f38: 9,
        f39: 10,
        f40: -1,
        f41: F64Bits(0),
        f42: true,
        f43: String::new(alloc),
        f44: text,
        f45: stack,
        f46: Some(3),
        f47: None,
    }
}

/// A trace of the text `y`, the text `x`, the stack of 7, and that event with the second text.
fn trace(rt: &impl Abort, alloc: Global) -> Vec<u8> {
    let mut encoder = Encoder::new(alloc).expect(rt, "no refusal");
    encoder.intern_string("y").expect(rt, "no refusal");
    let text = encoder.intern_string("x").expect(rt, "no refusal");
    let stack = encoder.intern_stack_frames(&[7]).expect(rt, "no refusal");
    encoder
        .write(&event_of_many(alloc, text, stack))
        .expect(rt, "no refusal");
    encoder.finish()
}

/// The first number, the last text of the pool, and the last field of all.
const RULES: [Rule<'static>; 1] = [Rule {
    from: "Wide",
    to: "T",
    slot: 1,
    fields: &[("f0", "a"), ("f44", "b"), ("f47", "c")],
}];

/// The text, the schema `T`, and the event.
const WANTED: [u8; 52] = [
    0x54, 0x52, 0x43, 0x00, 0x01, 0x03, 0x01, 0x00, 0x00, 0x00, 0x00, 0x00, 0x00, 0x00, 0x01, 0x00,
    0x00, 0x00, b'x', 0x01, 0x01, 0x00, 0x01, 0x00, b'T', 0x01, 0x03, 0x00, 0x01, 0x00, b'a', 0x09,
    0x01, 0x00, b'b', 0x07, 0x01, 0x00, b'c', 0x84, 0x02, 0x01, 0x00, 0x0A, 0x00, 0x00, 0x07, 0x00,
    0x00, 0x00, 0x00, 0x00,
];

#[test]
fn three_of_many_fields(rt: HostRuntime) {
    let trace = trace(&rt, rt.alloc());
    let (found, refused) = converted(&rt, rt.alloc(), &trace, &RULES);
    assert!(rt; refused.is_none() && found.as_slice() == WANTED.as_slice());
}
