//! An event type whose fields may all be absent.

ghost use Rattle.std.specs.Prelude.{refl, ◌++◌, ◌≡◌};
ghost use Rattle.trace_samples.specs.EventEntries.{options_entry};
ghost use Rattle.trace_samples.specs.OptionalFields.{optional_numbers, optional_texts};

use trace_values::fields;
use trace_values::leb128::EncodeError;
use trace_values::types::{
    EventEncoder, F64Bits, FieldType, InternedStackFrames, InternedString, StackFrames,
};
use trace_writer::definition::Definition;
use trace_writer::event::TraceEvent;
use trace_writer::fields::TraceFields;

const OPTIONS: Definition = (
    "Options",
    &[
        ("byte", FieldType::OptionalU8),
        ("short", FieldType::OptionalU16),
        ("word", FieldType::OptionalU32),
        ("long", FieldType::OptionalVarint),
        ("signed", FieldType::OptionalI64),
        ("real", FieldType::OptionalF64),
        ("flag", FieldType::OptionalBool),
        ("text", FieldType::OptionalString),
        ("blob", FieldType::OptionalBytes),
        ("frames", FieldType::OptionalStackFrames),
        ("label", FieldType::OptionalPooledString),
        ("stack", FieldType::OptionalPooledStackFrames),
        ("pairs", FieldType::OptionalStringMap),
    ],
    &[],
);

/// Numbers and a truth value that may be absent.
#[derive(Clone, Copy)]
pub struct OptionalNumbers {
    pub byte: Option<u8>,
    pub short: Option<u16>,
    pub word: Option<u32>,
    pub long: Option<u64>,
    pub signed: Option<i64>,
    pub real: Option<F64Bits>,
    pub flag: Option<bool>,
}

/// Texts, bytes, stacks and ids that may be absent.
#[derive(Drop)]
pub struct OptionalTexts {
    pub text: Option<String>,
    pub blob: Option<Vec<u8>>,
    pub frames: Option<StackFrames>,
    pub label: Option<InternedString>,
    pub stack: Option<InternedStackFrames>,
    pub pairs: Option<Vec<(String, String)>>,
}

/// A field that may be absent of each type, of slot 0.
#[derive(Drop)]
pub struct Options {
    /// The time in nanoseconds.
    pub time: u64,
    pub numbers: OptionalNumbers,
    pub texts: OptionalTexts,
}

impl TraceEvent for Options {
    ghost slot = { 0 };

    ghost entry = { options_entry };

    ghost time = { λ e. e.time };

    ghost values = { λ e. optional_numbers e.numbers ++ optional_texts e.texts };

    ghost one_each = { λ _. refl };

    fn type_slot() -> u16 {
        0
    }

    fn definition() -> Definition {
        OPTIONS
    }

    fn timestamp(&self) -> u64 {
        self.time
    }

    fn encode_fields(&self, enc: &mut EventEncoder<'_>) -> Result<(), EncodeError> {
        let numbers = &self.numbers;
        let texts = &self.texts;
        fields!(
            numbers.byte,
            numbers.short,
            numbers.word,
            numbers.long,
            numbers.signed,
            numbers.real,
            numbers.flag,
            texts.text,
            texts.blob,
            texts.frames,
            texts.label,
            texts.stack,
            texts.pairs
        )
        .encode_all(enc)
    }
}
