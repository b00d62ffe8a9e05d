//! Event types with texts, bytes and stacks.

ghost use Rattle.std.specs.Prelude.{[], refl, string_bytes, ◌∷◌, ◌≡◌};
ghost use Rattle.trace_values.specs.Values.{bytes, pooled_stack, stack, text, texts};
ghost use Rattle.trace_values.specs.TraceFields.{string_pairs};
ghost use Rattle.trace_samples.specs.EventEntries.{stacks_entry, texts_entry};

use trace_values::fields;
use trace_values::leb128::EncodeError;
use trace_values::types::{EventEncoder, FieldType, InternedStackFrames, StackFrames};
use trace_writer::definition::Definition;
use trace_writer::event::TraceEvent;
use trace_writer::fields::TraceFields;

const TEXTS: Definition = (
    "Texts",
    &[
        ("text", FieldType::String),
        ("blob", FieldType::Bytes),
        ("pairs", FieldType::StringMap),
    ],
    &[],
);

/// A text, bytes and a map of texts, of slot 7.
#[derive(Drop)]
pub struct Texts {
    /// The time in nanoseconds.
    pub time: u64,
    pub text: String,
    pub blob: Vec<u8>,
    pub pairs: Vec<(String, String)>,
}

impl TraceEvent for Texts {
    ghost slot = { 7 };

    ghost entry = { texts_entry };

    ghost time = { λ e. e.time };

    ghost values = { λ e. text (string_bytes e.text) ∷ bytes e.blob.items ∷ texts (string_pairs e.pairs.items) ∷ [] };

    ghost one_each = { λ _. refl };

    fn type_slot() -> u16 {
        7
    }

    fn definition() -> Definition {
        TEXTS
    }

    fn timestamp(&self) -> u64 {
        self.time
    }

    fn encode_fields(&self, enc: &mut EventEncoder<'_>) -> Result<(), EncodeError> {
        fields!(self.text, self.blob, self.pairs).encode_all(enc)
    }
}

const STACKS: Definition = (
    "Stacks",
    &[
        ("frames", FieldType::StackFrames),
        ("stack", FieldType::PooledStackFrames),
    ],
    &[],
);

/// A stack, and the id of one, of slot 0.
#[derive(Drop)]
pub struct Stacks {
    /// The time in nanoseconds.
    pub time: u64,
    pub frames: StackFrames,
    pub stack: InternedStackFrames,
}

impl TraceEvent for Stacks {
    ghost slot = { 0 };

    ghost entry = { stacks_entry };

    ghost time = { λ e. e.time };

    ghost values = { λ e. stack e.frames.0.items ∷ pooled_stack e.stack.0 ∷ [] };

    ghost one_each = { λ _. refl };

    fn type_slot() -> u16 {
        0
    }

    fn definition() -> Definition {
        STACKS
    }

    fn timestamp(&self) -> u64 {
        self.time
    }

    fn encode_fields(&self, enc: &mut EventEncoder<'_>) -> Result<(), EncodeError> {
        fields!(self.frames, self.stack).encode_all(enc)
    }
}
