//! The calls of a script.

ghost use Rattle.std.specs.Prelude.{◌≡◌};
ghost use Rattle.trace_recordings.specs.Scripts.{word_of};

use crate::script::definitions::Definition;
use crate::script::pools::{PoolStack, PoolText};
use trace_values::types::FieldValue;

/// What a line of a script asks for (docs/RECORDINGS.md, "Scripts"). A handle is a number that the script chooses for
/// a schema or for a type of events. Times are in nanoseconds.
#[derive(Drop)]
pub enum ScriptCall {
    /// Nothing: the line is empty, or begins with `#`.
    Nothing,
    /// Makes a schema.
    Define {
        handle: u64,
        definition: Definition,
    },
    /// Registers a schema.
    Register {
        handle: u64,
    },
    /// Writes an event of a schema.
    Event {
        handle: u64,
        time: u64,
        values: Vec<FieldValue>,
    },
    /// Makes a type of events that has a slot.
    DefineType {
        handle: u64,
        slot: u64,
        definition: Definition,
    },
    /// Writes an event of a type.
    WriteTyped {
        handle: u64,
        time: u64,
        values: Vec<FieldValue>,
    },
    /// Interns a text.
    InternString {
        text: String,
    },
    /// Interns a stack.
    InternStack {
        frames: Vec<u64>,
    },
    /// Writes a string pool.
    StringPool {
        entries: Vec<PoolText>,
    },
    /// Writes a stack pool.
    StackPool {
        entries: Vec<PoolStack>,
    },
    /// Hands the encoder another writer, which appends to the same output.
    Reset,
    /// Reads the output to its end, and goes on as the encoder that the reader becomes.
    Resume,
    /// Puts bytes into the output, past the encoder.
    Raw {
        bytes: Vec<u8>,
    },
    /// Drops the output so far.
    Bare,
}

impl ScriptCall {
    /// The word by which a line of the call begins, and nothing where the line asks for nothing.
    pub fn name(&self) -> &'static str
        ensures { result.now ≡ word_of self.now }
    {
        match self {
            ScriptCall::Nothing => "",
            ScriptCall::Define { .. } => "define",
            ScriptCall::Register { .. } => "register",
            ScriptCall::Event { .. } => "event",
            ScriptCall::DefineType { .. } => "type",
            ScriptCall::WriteTyped { .. } => "write",
            ScriptCall::InternString { .. } => "string",
            ScriptCall::InternStack { .. } => "stack",
            ScriptCall::StringPool { .. } => "strings",
            ScriptCall::StackPool { .. } => "stacks",
            ScriptCall::Reset => "reset",
            ScriptCall::Resume => "resume",
            ScriptCall::Raw { .. } => "raw",
            ScriptCall::Bare => "bare",
        }
    }
}
