//! Event types of one name.

ghost use Rattle.std.specs.Prelude.{[], refl, ◌∷◌, ◌≡◌};
ghost use Rattle.trace_values.specs.Values.{number};
ghost use Rattle.trace_samples.specs.EventEntries.{poll_entry, poll_again_entry, poll_annotated_entry};
ghost use Rattle.trace_samples.specs.Polls.{poll_values};

use trace_values::fields;
use trace_values::leb128::EncodeError;
use trace_values::types::{EventEncoder, FieldType, InternedString};
use trace_writer::definition::Definition;
use trace_writer::event::TraceEvent;
use trace_writer::fields::TraceFields;

const POLL_FIELDS: &[(&str, FieldType)] = &[
    ("worker", FieldType::Varint),
    ("cpu", FieldType::OptionalU32),
    ("label", FieldType::PooledString),
];

const POLL: Definition = ("Poll", POLL_FIELDS, &[]);

/// A poll of a task by a worker, on a core where it is known, of slot 0.
#[derive(Drop)]
pub struct Poll {
    /// The time in nanoseconds.
    pub time: u64,
    pub worker: u64,
    pub cpu: Option<u32>,
    pub label: InternedString,
}

impl TraceEvent for Poll {
    ghost slot = { 0 };

    ghost entry = { poll_entry };

    ghost time = { λ e. e.time };

    ghost values = { poll_values };

    ghost one_each = { λ _. refl };

    fn type_slot() -> u16 {
        0
    }

    fn definition() -> Definition {
        POLL
    }

    fn timestamp(&self) -> u64 {
        self.time
    }

    fn encode_fields(&self, enc: &mut EventEncoder<'_>) -> Result<(), EncodeError> {
        fields!(self.worker, self.cpu, self.label).encode_all(enc)
    }
}

const POLL_AGAIN: Definition = (
    "Poll",
    &[("worker", FieldType::Varint), ("core", FieldType::U8)],
    &[],
);

/// The name of `Poll` with other fields.
#[derive(Drop)]
pub struct PollAgain {
    /// The time in nanoseconds.
    pub time: u64,
    pub worker: u64,
    pub core: u8,
}

impl TraceEvent for PollAgain {
    ghost slot = { 0 };

    ghost entry = { poll_again_entry };

    ghost time = { λ e. e.time };

    ghost values = { λ e. number e.worker ∷ number e.core ∷ [] };

    ghost one_each = { λ _. refl };

    fn type_slot() -> u16 {
        0
    }

    fn definition() -> Definition {
        POLL_AGAIN
    }

    fn timestamp(&self) -> u64 {
        self.time
    }

    fn encode_fields(&self, enc: &mut EventEncoder<'_>) -> Result<(), EncodeError> {
        fields!(self.worker, self.core).encode_all(enc)
    }
}

const POLL_ANNOTATED: Definition = ("Poll", POLL_FIELDS, &[(1, "unit", "index")]);

/// The name and the fields of `Poll`, and an annotation.
#[derive(Drop)]
pub struct PollAnnotated(pub Poll);

impl TraceEvent for PollAnnotated {
    ghost slot = { 0 };

    ghost entry = { poll_annotated_entry };

    ghost time = { λ e. e.0.time };

    ghost values = { λ e. poll_values e.0 };

    ghost one_each = { λ _. refl };

    fn type_slot() -> u16 {
        0
    }

    fn definition() -> Definition {
        POLL_ANNOTATED
    }

    fn timestamp(&self) -> u64 {
        self.0.time
    }

    fn encode_fields(&self, enc: &mut EventEncoder<'_>) -> Result<(), EncodeError> {
        self.0.encode_fields(enc)
    }
}
