//! An event type that borrows.

ghost use Rattle.std.specs.Prelude.{◌≡◌, [], ◌∷◌, refl};
ghost use Rattle.trace_values.specs.Values.{bytes, text};
ghost use Rattle.trace_values.specs.TraceFields.{value_of_option};
ghost use Rattle.trace_writer.specs.Definitions.{defined_entry};
ghost use Rattle.trace_samples.specs.EventEntries.{borrowed_entry};

use trace_values::fields;
use trace_values::leb128::EncodeError;
use trace_values::types::{BytesField, EventEncoder, FieldType, StrField};
use trace_writer::definition::Definition;
use trace_writer::event::TraceEvent;
use trace_writer::fields::TraceFields;

const BORROWED: Definition = (
    "Borrowed",
    &[
        ("path", FieldType::String),
        ("body", FieldType::Bytes),
        ("note", FieldType::OptionalString),
        ("rest", FieldType::OptionalBytes),
    ],
    &[],
);

/// Texts and bytes that are borrowed, of slot 0.
#[derive(Drop)]
pub struct Borrowed<'a> {
    /// The time in nanoseconds.
    pub time: u64,
    pub path: StrField<'a>,
    pub body: BytesField<'a>,
    pub note: Option<StrField<'a>>,
    pub rest: Option<BytesField<'a>>,
}

impl<'a> TraceEvent for Borrowed<'a> {
    ghost slot = { 0 };

    ghost entry = { borrowed_entry };

    ghost time = { λ e. e.time };

    ghost values = { λ e. text e.path.0.now ∷ bytes e.body.0.now ∷ value_of_option (λ x. text x.0.now) e.note
        ∷ value_of_option (λ x. bytes x.0.now) e.rest ∷ [] };

    ghost one_each = { λ _. refl };

    fn type_slot() -> u16
        ensures { result ≡ 0 }
    {
        0
    }

    fn definition() -> Definition
        ensures { defined_entry result ≡ borrowed_entry }
    {
        BORROWED
    }

    fn timestamp(&self) -> u64 {
        self.time
    }

    fn encode_fields(&self, enc: &mut EventEncoder<'_>) -> Result<(), EncodeError> {
        fields!(self.path, self.body, self.note, self.rest).encode_all(enc)
    }
}
