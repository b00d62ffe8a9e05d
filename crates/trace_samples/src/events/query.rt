//! An event type of 32 fields of all types but lists and maps, as a user defines one: without `specs/` and without
//! proofs.

ghost use Rattle.std.specs.Prelude.{[], refl, string_bytes, ◌∷◌};
ghost use Rattle.trace_values.specs.TraceFields.{string_pairs, value_of_option};
ghost use Rattle.trace_values.specs.Values.{boolean, bytes, float, integer, number, pooled_stack, pooled_text};
ghost use Rattle.trace_values.specs.Values.{stack, text, texts};
ghost use Rattle.trace_writer.specs.Definitions.{constant_entry};
ghost use Rattle.trace_samples.specs.declared.events.query.TheConstants.{QUERY};

use trace_values::fields;
use trace_values::leb128::EncodeError;
use trace_values::types::{
    EventEncoder, F64Bits, FieldType, InternedStackFrames, InternedString, StackFrames,
};
use trace_writer::definition::Definition;
use trace_writer::event::TraceEvent;
use trace_writer::fields::TraceFields;

const QUERY: Definition = (
    "Query",
    &[
        ("client", FieldType::PooledString),
        ("user", FieldType::OptionalPooledString),
        ("database", FieldType::PooledString),
        ("text", FieldType::String),
        ("plan", FieldType::OptionalString),
        ("digest", FieldType::Bytes),
        ("parameters", FieldType::OptionalBytes),
        ("settings", FieldType::StringMap),
        ("tags", FieldType::OptionalStringMap),
        ("called_at", FieldType::PooledStackFrames),
        ("waited_at", FieldType::OptionalPooledStackFrames),
        ("frames", FieldType::StackFrames),
        ("failed_at", FieldType::OptionalStackFrames),
        ("rows", FieldType::Varint),
        ("sent", FieldType::Varint),
        ("limit", FieldType::OptionalVarint),
        ("scanned", FieldType::U32),
        ("cached", FieldType::OptionalU32),
        ("tables", FieldType::U16),
        ("port", FieldType::OptionalU16),
        ("priority", FieldType::U8),
        ("retries", FieldType::OptionalU8),
        ("lag", FieldType::I64),
        ("skew", FieldType::OptionalI64),
        ("cost", FieldType::F64),
        ("estimate", FieldType::OptionalF64),
        ("is_prepared", FieldType::Bool),
        ("is_committed", FieldType::OptionalBool),
        ("planning", FieldType::Varint),
        ("running", FieldType::Varint),
        ("waiting", FieldType::Varint),
        ("status", FieldType::U16),
    ],
    &[
        (14, "unit", "bytes"),
        (28, "unit", "ns"),
        (29, "unit", "ns"),
        (30, "unit", "ns"),
    ],
);

/// A query of a database, of slot 32.
#[derive(Drop)]
pub struct Query {
    /// The time in nanoseconds.
    pub time: u64,
    pub client: InternedString,
    pub user: Option<InternedString>,
    pub database: InternedString,
    pub text: String,
    pub plan: Option<String>,
    pub digest: Vec<u8>,
    pub parameters: Option<Vec<u8>>,
    pub settings: Vec<(String, String)>,
    pub tags: Option<Vec<(String, String)>>,
    pub called_at: InternedStackFrames,
    pub waited_at: Option<InternedStackFrames>,
    pub frames: StackFrames,
    pub failed_at: Option<StackFrames>,
    pub rows: u64,
    pub sent: u64,
    pub limit: Option<u64>,
    pub scanned: u32,
    pub cached: Option<u32>,
    pub tables: u16,
    pub port: Option<u16>,
    pub priority: u8,
    pub retries: Option<u8>,
    pub lag: i64,
    pub skew: Option<i64>,
    pub cost: F64Bits,
    pub estimate: Option<F64Bits>,
    pub is_prepared: bool,
    pub is_committed: Option<bool>,
    pub planning: u64,
    pub running: u64,
    pub waiting: u64,
    pub status: u16,
}

impl TraceEvent for Query {
    ghost slot = { 32 };

    ghost entry = { constant_entry QUERY };

    ghost time = { λ e. e.time };

    ghost values = { λ e. pooled_text e.client.0 ∷ value_of_option (λ x. pooled_text x.0) e.user
        ∷ pooled_text e.database.0 ∷ text (string_bytes e.text)
        ∷ value_of_option (λ x. text (string_bytes x)) e.plan ∷ bytes e.digest.items
        ∷ value_of_option (λ x. bytes x.items) e.parameters
        ∷ texts (string_pairs e.settings.items)
        ∷ value_of_option (λ x. texts (string_pairs x.items)) e.tags ∷ pooled_stack e.called_at.0
        ∷ value_of_option (λ x. pooled_stack x.0) e.waited_at ∷ stack e.frames.0.items
        ∷ value_of_option (λ x. stack x.0.items) e.failed_at ∷ number e.rows ∷ number e.sent
        ∷ value_of_option number e.limit ∷ number e.scanned ∷ value_of_option number e.cached
        ∷ number e.tables ∷ value_of_option number e.port ∷ number e.priority
        ∷ value_of_option number e.retries ∷ integer e.lag ∷ value_of_option integer e.skew
        ∷ float e.cost.0 ∷ value_of_option (λ x. float x.0) e.estimate ∷ boolean e.is_prepared
        ∷ value_of_option boolean e.is_committed ∷ number e.planning ∷ number e.running
        ∷ number e.waiting ∷ number e.status ∷ [] };

    ghost one_each = { λ _. refl };

    fn type_slot() -> u16 {
        32
    }

    fn definition() -> Definition {
        QUERY
    }

    fn timestamp(&self) -> u64 {
        self.time
    }

    fn encode_fields(&self, enc: &mut EventEncoder<'_>) -> Result<(), EncodeError> {
        fields!(
            self.client,
            self.user,
            self.database,
            self.text,
            self.plan,
            self.digest,
            self.parameters,
            self.settings,
            self.tags,
            self.called_at,
            self.waited_at,
            self.frames,
            self.failed_at,
            self.rows,
            self.sent,
            self.limit,
            self.scanned,
            self.cached,
            self.tables,
            self.port,
            self.priority,
            self.retries,
            self.lag,
            self.skew,
            self.cost,
            self.estimate,
            self.is_prepared,
            self.is_committed,
            self.planning,
            self.running,
            self.waiting,
            self.status
        )
        .encode_all(enc)
    }
}
