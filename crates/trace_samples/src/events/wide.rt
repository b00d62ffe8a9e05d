//! An event type with many fields.

ghost use Rattle.std.specs.Prelude.{[], refl, ◌∷◌, ◌≡◌};
ghost use Rattle.trace_values.specs.Values.{number};
ghost use Rattle.trace_samples.specs.EventEntries.{wide_entry};

use trace_values::fields;
use trace_values::leb128::EncodeError;
use trace_values::types::{EventEncoder, FieldType};
use trace_writer::definition::Definition;
use trace_writer::event::TraceEvent;
use trace_writer::fields::TraceFields;

const WIDE: Definition = (
    "Wide",
    &[
        ("v0", FieldType::Varint),
        ("v1", FieldType::Varint),
        ("v2", FieldType::Varint),
        ("v3", FieldType::Varint),
        ("v4", FieldType::Varint),
        ("v5", FieldType::Varint),
        ("v6", FieldType::Varint),
        ("v7", FieldType::Varint),
        ("v8", FieldType::Varint),
        ("v9", FieldType::Varint),
        ("v10", FieldType::Varint),
        ("v11", FieldType::Varint),
        ("v12", FieldType::Varint),
        ("v13", FieldType::Varint),
        ("v14", FieldType::Varint),
        ("v15", FieldType::Varint),
        ("v16", FieldType::Varint),
        ("v17", FieldType::Varint),
        ("v18", FieldType::Varint),
        ("v19", FieldType::Varint),
    ],
    &[],
);

/// Twenty numbers, of slot 0.
#[derive(Drop)]
pub struct Wide {
    /// The time in nanoseconds.
    pub time: u64,
    pub v0: u64,
    pub v1: u64,
    pub v2: u64,
    pub v3: u64,
    pub v4: u64,
    pub v5: u64,
    pub v6: u64,
    pub v7: u64,
    pub v8: u64,
    pub v9: u64,
    pub v10: u64,
    pub v11: u64,
    pub v12: u64,
    pub v13: u64,
    pub v14: u64,
    pub v15: u64,
    pub v16: u64,
    pub v17: u64,
    pub v18: u64,
    pub v19: u64,
}

impl TraceEvent for Wide {
    ghost slot = { 0 };

    ghost entry = { wide_entry };

    ghost time = { λ e. e.time };

    ghost values = { λ e. number e.v0 ∷ number e.v1 ∷ number e.v2
        ∷ number e.v3 ∷ number e.v4 ∷ number e.v5
        ∷ number e.v6 ∷ number e.v7 ∷ number e.v8
        ∷ number e.v9 ∷ number e.v10 ∷ number e.v11
        ∷ number e.v12 ∷ number e.v13 ∷ number e.v14
        ∷ number e.v15 ∷ number e.v16 ∷ number e.v17
        ∷ number e.v18 ∷ number e.v19 ∷ [] };

    ghost one_each = { λ _. refl };

    fn type_slot() -> u16 {
        0
    }

    fn definition() -> Definition {
        WIDE
    }

    fn timestamp(&self) -> u64 {
        self.time
    }

    fn encode_fields(&self, enc: &mut EventEncoder<'_>) -> Result<(), EncodeError> {
        fields!(
            self.v0, self.v1, self.v2, self.v3, self.v4, self.v5, self.v6, self.v7, self.v8,
            self.v9, self.v10, self.v11, self.v12, self.v13, self.v14, self.v15, self.v16,
            self.v17, self.v18, self.v19
        )
        .encode_all(enc)
    }
}
