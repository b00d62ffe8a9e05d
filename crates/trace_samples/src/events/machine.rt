//! An event type of 24 fields, as a user defines one: without `specs/` and without proofs.

ghost use Rattle.std.specs.Prelude.{[], refl, string_bytes, ◌∷◌};
ghost use Rattle.trace_values.specs.TraceFields.{string_pairs, value_of_option};
ghost use Rattle.trace_values.specs.Values.{boolean, bytes, float, integer, number, pooled_stack, pooled_text};
ghost use Rattle.trace_values.specs.Values.{stack, text, texts};
ghost use Rattle.trace_writer.specs.Definitions.{constant_entry};
ghost use Rattle.trace_samples.specs.declared.events.machine.TheConstants.{MACHINE};

use trace_values::fields;
use trace_values::leb128::EncodeError;
use trace_values::types::{
    EventEncoder, F64Bits, FieldType, InternedStackFrames, InternedString, StackFrames,
};
use trace_writer::definition::Definition;
use trace_writer::event::TraceEvent;
use trace_writer::fields::TraceFields;

const MACHINE: Definition = (
    "Machine",
    &[
        ("host", FieldType::PooledString),
        ("kernel", FieldType::String),
        ("rack", FieldType::OptionalPooledString),
        ("cores", FieldType::U16),
        ("clock", FieldType::U32),
        ("load", FieldType::F64),
        ("idle", FieldType::OptionalF64),
        ("memory", FieldType::Varint),
        ("free", FieldType::OptionalVarint),
        ("swap", FieldType::OptionalU32),
        ("uptime", FieldType::Varint),
        ("skew", FieldType::I64),
        ("drift", FieldType::OptionalI64),
        ("is_virtual", FieldType::Bool),
        ("is_throttled", FieldType::OptionalBool),
        ("level", FieldType::U8),
        ("fan", FieldType::OptionalU8),
        ("port", FieldType::OptionalU16),
        ("running", FieldType::PooledStackFrames),
        ("waiting", FieldType::OptionalPooledStackFrames),
        ("frames", FieldType::StackFrames),
        ("trap", FieldType::OptionalStackFrames),
        ("key", FieldType::Bytes),
        ("labels", FieldType::StringMap),
    ],
    &[(4, "unit", "hz"), (7, "unit", "bytes"), (10, "unit", "ns")],
);

/// How a machine is, of slot 24.
#[derive(Drop)]
pub struct Machine {
    /// The time in nanoseconds.
    pub time: u64,
    pub host: InternedString,
    pub kernel: String,
    pub rack: Option<InternedString>,
    pub cores: u16,
    pub clock: u32,
    pub load: F64Bits,
    pub idle: Option<F64Bits>,
    pub memory: u64,
    pub free: Option<u64>,
    pub swap: Option<u32>,
    pub uptime: u64,
    pub skew: i64,
    pub drift: Option<i64>,
    pub is_virtual: bool,
    pub is_throttled: Option<bool>,
    pub level: u8,
    pub fan: Option<u8>,
    pub port: Option<u16>,
    pub running: InternedStackFrames,
    pub waiting: Option<InternedStackFrames>,
    pub frames: StackFrames,
    pub trap: Option<StackFrames>,
    pub key: Vec<u8>,
    pub labels: Vec<(String, String)>,
}

impl TraceEvent for Machine {
    ghost slot = { 24 };

    ghost entry = { constant_entry MACHINE };

    ghost time = { λ e. e.time };

    ghost values = { λ e. pooled_text e.host.0 ∷ text (string_bytes e.kernel)
        ∷ value_of_option (λ x. pooled_text x.0) e.rack ∷ number e.cores ∷ number e.clock
        ∷ float e.load.0 ∷ value_of_option (λ x. float x.0) e.idle ∷ number e.memory
        ∷ value_of_option number e.free ∷ value_of_option number e.swap ∷ number e.uptime
        ∷ integer e.skew ∷ value_of_option integer e.drift ∷ boolean e.is_virtual
        ∷ value_of_option boolean e.is_throttled ∷ number e.level ∷ value_of_option number e.fan
        ∷ value_of_option number e.port ∷ pooled_stack e.running.0
        ∷ value_of_option (λ x. pooled_stack x.0) e.waiting ∷ stack e.frames.0.items
        ∷ value_of_option (λ x. stack x.0.items) e.trap ∷ bytes e.key.items
        ∷ texts (string_pairs e.labels.items) ∷ [] };

    ghost one_each = { λ _. refl };

    fn type_slot() -> u16 {
        24
    }

    fn definition() -> Definition {
        MACHINE
    }

    fn timestamp(&self) -> u64 {
        self.time
    }

    fn encode_fields(&self, enc: &mut EventEncoder<'_>) -> Result<(), EncodeError> {
        fields!(
            self.host,
            self.kernel,
            self.rack,
            self.cores,
            self.clock,
            self.load,
            self.idle,
            self.memory,
            self.free,
            self.swap,
            self.uptime,
            self.skew,
            self.drift,
            self.is_virtual,
            self.is_throttled,
            self.level,
            self.fan,
            self.port,
            self.running,
            self.waiting,
            self.frames,
            self.trap,
            self.key,
            self.labels
        )
        .encode_all(enc)
    }
}
