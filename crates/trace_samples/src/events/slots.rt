//! Event types whose slot is their wire id.

ghost use Rattle.std.specs.Prelude.{[], refl, ◌∷◌, ◌≡◌};
ghost use Rattle.trace_values.specs.Values.{number};
ghost use Rattle.trace_wire.specs.Limits.{greatest_slot};
ghost use Rattle.trace_samples.specs.EventEntries.{annotated_entry, fast_slot_entry, last_slot_entry, other_entry};

use trace_values::fields;
use trace_values::leb128::EncodeError;
use trace_values::types::{EventEncoder, FieldType};
use trace_writer::definition::Definition;
use trace_writer::event::TraceEvent;
use trace_writer::fields::TraceFields;

const FAST_SLOT: Definition = ("FastSlot", &[], &[]);

/// An event without fields, of slot 5.
#[derive(Drop)]
pub struct FastSlot {
    /// The time in nanoseconds.
    pub time: u64,
}

impl TraceEvent for FastSlot {
    ghost slot = { 5 };

    ghost entry = { fast_slot_entry };

    ghost time = { λ e. e.time };

    ghost values = { λ _. [] };

    ghost one_each = { λ _. refl };

    fn type_slot() -> u16 {
        5
    }

    fn definition() -> Definition {
        FAST_SLOT
    }

    fn timestamp(&self) -> u64 {
        self.time
    }

    fn encode_fields(&self, _enc: &mut EventEncoder<'_>) -> Result<(), EncodeError> {
        Ok(())
    }
}

const SLOT_CLASH: Definition = ("Other", &[], &[]);

/// An event without fields, of the slot of `FastSlot`.
#[derive(Drop)]
pub struct SlotClash {
    /// The time in nanoseconds.
    pub time: u64,
}

impl TraceEvent for SlotClash {
    ghost slot = { 5 };

    ghost entry = { other_entry };

    ghost time = { λ e. e.time };

    ghost values = { λ _. [] };

    ghost one_each = { λ _. refl };

    fn type_slot() -> u16 {
        5
    }

    fn definition() -> Definition {
        SLOT_CLASH
    }

    fn timestamp(&self) -> u64 {
        self.time
    }

    fn encode_fields(&self, _enc: &mut EventEncoder<'_>) -> Result<(), EncodeError> {
        Ok(())
    }
}

const LAST_SLOT: Definition = ("LastSlot", &[("number", FieldType::U16)], &[]);

/// A number, of the last slot that is a wire id.
#[derive(Drop)]
pub struct LastSlot {
    /// The time in nanoseconds.
    pub time: u64,
    pub number: u16,
}

impl TraceEvent for LastSlot {
    ghost slot = { greatest_slot };

    ghost entry = { last_slot_entry };

    ghost time = { λ e. e.time };

    ghost values = { λ e. number e.number ∷ [] };

    ghost one_each = { λ _. refl };

    fn type_slot() -> u16 {
        255
    }

    fn definition() -> Definition {
        LAST_SLOT
    }

    fn timestamp(&self) -> u64 {
        self.time
    }

    fn encode_fields(&self, enc: &mut EventEncoder<'_>) -> Result<(), EncodeError> {
        fields!(self.number).encode_all(enc)
    }
}

const ANNOTATED: Definition = (
    "Annotated",
    &[("load", FieldType::U8)],
    &[(0, "unit", "ns"), (65535, "", "")],
);

/// A load with two annotations, one of them of no field, of slot 9.
#[derive(Drop)]
pub struct Annotated {
    /// The time in nanoseconds.
    pub time: u64,
    pub load: u8,
}

impl TraceEvent for Annotated {
    ghost slot = { 9 };

    ghost entry = { annotated_entry };

    ghost time = { λ e. e.time };

    ghost values = { λ e. number e.load ∷ [] };

    ghost one_each = { λ _. refl };

    fn type_slot() -> u16 {
        9
    }

    fn definition() -> Definition {
        ANNOTATED
    }

    fn timestamp(&self) -> u64 {
        self.time
    }

    fn encode_fields(&self, enc: &mut EventEncoder<'_>) -> Result<(), EncodeError> {
        fields!(self.load).encode_all(enc)
    }
}
