//! An event type with a list and a map of values.

ghost use Rattle.std.specs.Prelude.{◌≡◌, [], ◌∷◌, refl};
ghost use Rattle.trace_values.specs.ValueViews.{view};
ghost use Rattle.trace_samples.specs.EventEntries.{dynamic_entry};

use trace_values::leb128::EncodeError;
use trace_values::types::{EventEncoder, FieldType, FieldValue};
use trace_writer::definition::Definition;
use trace_writer::event::TraceEvent;

const DYNAMIC: Definition = (
    "Dynamic",
    &[
        ("items", FieldType::DynamicList),
        ("table", FieldType::DynamicMap),
    ],
    &[],
);

/// A list and a map of values, of slot 1,000: it goes by its name.
#[derive(Drop)]
pub struct Dynamic {
    /// The time in nanoseconds.
    pub time: u64,
    pub items: FieldValue,
    pub table: FieldValue,
}

impl TraceEvent for Dynamic {
    ghost slot = { 1000 };

    ghost entry = { dynamic_entry };

    ghost time = { λ e. e.time };

    ghost values = { λ e. view e.items ∷ view e.table ∷ [] };

    ghost one_each = { λ _. refl };

    fn type_slot() -> u16 {
        1_000
    }

    fn definition() -> Definition {
        DYNAMIC
    }

    fn timestamp(&self) -> u64 {
        self.time
    }

    fn encode_fields(&self, enc: &mut EventEncoder<'_>) -> Result<(), EncodeError> {
        let items = enc.write_field_value(&self.items, FieldType::DynamicList);
        let table = enc.write_field_value(&self.table, FieldType::DynamicMap);
        match (items, table) {
            (Ok(()), table) => table,
            (Err(EncodeError::OutOfMemory), Err(refusal)) => Err(refusal),
            (items, _) => items,
        }
    }
}
