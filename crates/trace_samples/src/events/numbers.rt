//! An event type with numbers of all widths.

ghost use Rattle.std.specs.Prelude.{[], refl, ◌∷◌, ◌≡◌};
ghost use Rattle.trace_values.specs.Values.{boolean, float, integer, number};
ghost use Rattle.trace_samples.specs.EventEntries.{numbers_entry};

use trace_values::fields;
use trace_values::leb128::EncodeError;
use trace_values::types::{EventEncoder, F64Bits, FieldType};
use trace_writer::definition::Definition;
use trace_writer::event::TraceEvent;
use trace_writer::fields::TraceFields;

const NUMBERS: Definition = (
    "Numbers",
    &[
        ("byte", FieldType::U8),
        ("short", FieldType::U16),
        ("word", FieldType::U32),
        ("long", FieldType::Varint),
        ("signed", FieldType::I64),
        ("real", FieldType::F64),
        ("flag", FieldType::Bool),
    ],
    &[],
);

/// Numbers of all widths, of slot 1.
#[derive(Drop)]
pub struct Numbers {
    /// The time in nanoseconds.
    pub time: u64,
    pub byte: u8,
    pub short: u16,
    pub word: u32,
    pub long: u64,
    pub signed: i64,
    pub real: F64Bits,
    pub flag: bool,
}

impl TraceEvent for Numbers {
    ghost slot = { 1 };

    ghost entry = { numbers_entry };

    ghost time = { λ e. e.time };

    ghost values = { λ e. number e.byte ∷ number e.short ∷ number e.word
        ∷ number e.long ∷ integer e.signed ∷ float e.real.0
        ∷ boolean e.flag ∷ [] };

    ghost one_each = { λ _. refl };

    fn type_slot() -> u16 {
        1
    }

    fn definition() -> Definition {
        NUMBERS
    }

    fn timestamp(&self) -> u64 {
        self.time
    }

    fn encode_fields(&self, enc: &mut EventEncoder<'_>) -> Result<(), EncodeError> {
        fields!(
            self.byte,
            self.short,
            self.word,
            self.long,
            self.signed,
            self.real,
            self.flag
        )
        .encode_all(enc)
    }
}
