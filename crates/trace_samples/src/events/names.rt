//! Event types that go by their names.

ghost use Rattle.std.specs.Prelude.{[], refl, ◌∷◌, ◌≡◌};
ghost use Rattle.trace_values.specs.Values.{boolean, integer};
ghost use Rattle.trace_wire.specs.Limits.{first_wire_id};
ghost use Rattle.trace_samples.specs.EventEntries.{also_entry, nameless_entry, other_entry};

use trace_values::fields;
use trace_values::leb128::EncodeError;
use trace_values::types::{EventEncoder, FieldType};
use trace_writer::definition::Definition;
use trace_writer::event::TraceEvent;
use trace_writer::fields::TraceFields;

const BY_NAME: Definition = ("Other", &[], &[]);

/// An event without fields, of slot 256: it goes by its name, and has the schema of `SlotClash`.
#[derive(Drop)]
pub struct ByName {
    /// The time in nanoseconds.
    pub time: u64,
}

impl TraceEvent for ByName {
    ghost slot = { first_wire_id };

    ghost entry = { other_entry };

    ghost time = { λ e. e.time };

    ghost values = { λ _. [] };

    ghost one_each = { λ _. refl };

    fn type_slot() -> u16 {
        256
    }

    fn definition() -> Definition {
        BY_NAME
    }

    fn timestamp(&self) -> u64 {
        self.time
    }

    fn encode_fields(&self, _enc: &mut EventEncoder<'_>) -> Result<(), EncodeError> {
        Ok(())
    }
}

const ALSO_BY_NAME: Definition = ("Also", &[("amount", FieldType::I64)], &[]);

/// An amount, of slot 256 as `ByName`.
#[derive(Drop)]
pub struct AlsoByName {
    /// The time in nanoseconds.
    pub time: u64,
    pub amount: i64,
}

impl TraceEvent for AlsoByName {
    ghost slot = { first_wire_id };

    ghost entry = { also_entry };

    ghost time = { λ e. e.time };

    ghost values = { λ e. integer e.amount ∷ [] };

    ghost one_each = { λ _. refl };

    fn type_slot() -> u16 {
        256
    }

    fn definition() -> Definition {
        ALSO_BY_NAME
    }

    fn timestamp(&self) -> u64 {
        self.time
    }

    fn encode_fields(&self, enc: &mut EventEncoder<'_>) -> Result<(), EncodeError> {
        fields!(self.amount).encode_all(enc)
    }
}

const NAMELESS: Definition = ("", &[("", FieldType::Bool)], &[]);

/// A flag, of a schema and a field without names.
#[derive(Drop)]
pub struct Nameless {
    /// The time in nanoseconds.
    pub time: u64,
    pub flag: bool,
}

impl TraceEvent for Nameless {
    ghost slot = { 0 };

    ghost entry = { nameless_entry };

    ghost time = { λ e. e.time };

    ghost values = { λ e. boolean e.flag ∷ [] };

    ghost one_each = { λ _. refl };

    fn type_slot() -> u16 {
        0
    }

    fn definition() -> Definition {
        NAMELESS
    }

    fn timestamp(&self) -> u64 {
        self.time
    }

    fn encode_fields(&self, enc: &mut EventEncoder<'_>) -> Result<(), EncodeError> {
        fields!(self.flag).encode_all(enc)
    }
}
