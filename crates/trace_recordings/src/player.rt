//! Plays the calls of a script on an encoder.

ghost use Rattle.std.specs.Prelude.{◌≡◌, ◌↔◌, ◌++◌, map, true, false, None, IsTrue, IfOk, IfErr, IfSome, is_none};
ghost use Rattle.std.specs.Prelude.{OnOk, string_bytes};
ghost use Rattle.std.specs.List.{AllByRecursion};
ghost use Rattle.trace_wire.specs.PoolEntries.{string_entries_of, stack_entries_of};
ghost use Rattle.trace_writer.specs.Calls.{reply_from};
ghost use Rattle.trace_recordings.specs.declared.player.PlayError.TheVariants as errors;
ghost use Rattle.trace_recordings.specs.Playing.{AnswersResumption, DefinesType, IsOfScript, IsPlayed, Asks};
ghost use Rattle.trace_recordings.specs.Playing.{DoesCall, Resets, Resumes, Turns, answer_text, asks, defined_in};
ghost use Rattle.trace_recordings.specs.Playing.{defined_entry, under, pool_stack_of, pool_text_of, playing_of};
ghost use Rattle.trace_recordings.specs.Playing.{refusal_text, reply_line, start, with_reply, with_schema};
ghost use Rattle.trace_recordings.specs.Samples.{is_sample};
ghost use Rattle.trace_recordings.specs.Refusals.{IsHad, IsOfPlayer, IsUnheld, LacksHeader, LacksType, LeavesOut};
ghost use Rattle.trace_recordings.specs.Refusals.{MissesAt, RefusesScript, RefusesCall, RefusesUnder, misses};

use crate::script::{
    Definition, LineError, PoolStack, PoolText, ScriptCall, ScriptError, script_of,
};
use crate::typed::{SampleType, Unheld, is_sample, write_sample};
use dial9_trace_format::decoder::Decoder;
use std::alloc::{AllocError, AllocFailed, Global};
use std::collections::BTreeMap;
use thiserror::Error;
use trace_values::leb128::EncodeError;
use trace_values::types::{InternedStackFrames, InternedString};
use trace_wire::codec::{PoolEntry, StackPoolEntry};
use trace_wire::schema::{FieldAnnotation, SchemaEntry, WireTypeId};
use trace_writer::encoder::{Encoder, Reply, Schema};
use trace_writer::laws::fresh_headline;

/// What the calls of a script made.
#[derive(Drop)]
pub struct Played {
    /// The output.
    pub bytes: Vec<u8>,
    /// A line for each call: the reply, and how many bytes the encoder had written after it.
    pub replies: String,
}

/// Why a script was not played to its end. Lines count from 1.
#[derive(Debug, Drop, Error)]
pub enum PlayError {
    /// A line cannot be read.
    #[error("{0}")]
    Script(ScriptError),
    /// The line makes a type of events that is none of the samples.
    #[error("line {line}: no sample type is this `{call}`")]
    LeftOut { line: usize, call: &'static str },
    /// No schema, or no type, was defined before the line under the handle that it names.
    #[error("line {line}: no schema has the handle {handle}")]
    Unknown { line: usize, handle: u64 },
    /// The type of the line's event takes no such values: others, more or fewer.
    #[error("line {line}: the type has no event of these values")]
    Unheld { line: usize },
    /// The line goes on after an output at whose front no header stands.
    #[error("line {line}: the output begins with no header")]
    Headless { line: usize },
    /// There was no memory for the first header.
    #[error("no encoder: {0}")]
    Encoder(EncodeError),
    /// A growth was refused.
    #[error("out of memory")]
    Memory,
}

impl PlayError {
    /// Whether the error is the script's, and not want of memory.
    pub fn is_of_script(&self) -> bool
        ensures { IsTrue result ↔ IsOfScript self.now }
    {
        match self {
            PlayError::Script(error) => error.error != LineError::Memory,
            PlayError::LeftOut { .. }
            | PlayError::Unknown { .. }
            | PlayError::Unheld { .. }
            | PlayError::Headless { .. } => true,
            PlayError::Encoder(_) | PlayError::Memory => false,
        }
    }
}

impl From<ScriptError> for PlayError {
    ghost from_gives = { λ error e. e ≡ errors.Script error };

    fn from(error: ScriptError) -> PlayError {
        PlayError::Script(error)
    }
}

impl From<AllocError> for PlayError {
    ghost from_gives = { λ _ e. e ≡ errors.Memory };

    fn from(_: AllocError) -> PlayError {
        PlayError::Memory
    }
}

impl<T: Drop> From<AllocFailed<T>> for PlayError {
    ghost from_gives = { λ _ e. e ≡ errors.Memory };

    fn from(_: AllocFailed<T>) -> PlayError {
        PlayError::Memory
    }
}

/// Reads a script, and makes its calls in their order. A script with a type that is none of the samples is not begun.
///  What the encoder refuses is a reply. This refuses, in this order: `Script` with the first line that cannot be
/// read, as `script_of` tells it; `LeftOut` at the first type that is none of the samples;
/// `Encoder(Writer(OutOfMemory))` where there is no memory for the header; and then, at the first such line,
/// `Unknown` where no schema or type has the handle, `Unheld` where the type has no event of these values, `Headless`
/// of a `resume` where no header stands at the front of the output. `Memory` where a growth was refused once the
/// script was read.
#[tactic(auto, using(crate::proofs::ScriptRefusals::not_begun, crate::proofs::ScriptRefusals::no_player))]
pub fn play(alloc: Global, text: &[u8]) -> Result<Played, PlayError>
    ensures played { IfOk result
        (λ played. IsPlayed text.now played.bytes.items (string_bytes played.replies)) }
    ensures refused { IfErr result (RefusesScript text.now) }
{
    let script = script_of(alloc, text)?;
    admit(alloc, &script)?;
    // How a reader takes the output.
    fresh_headline();
    let mut player = Player::new(alloc)?;
    for (before, call) in script.iter().enumerate() {
        player.make(before.saturating_add(1), call)?;
    }
    Ok(player.into_played())
}

// Refuses a script with a type that is none of the samples, by the first of them.
fn admit(alloc: Global, script: &[ScriptCall]) -> Result<(), PlayError>
    ensures admitted { OnOk result (AllByRecursion IsHad script.now) }
    ensures refused { IfErr result (LeavesOut script.now) }
{
    for (before, call) in script.iter().enumerate() {
        admit_call(alloc, before.saturating_add(1), call)?;
    }
    Ok(())
}

// Refuses the call of a line that makes a type which is none of the samples.
fn admit_call(alloc: Global, line: usize, call: &ScriptCall) -> Result<(), PlayError>
    ensures admitted { OnOk result (misses call.now ≡ false) }
    ensures refused { IfErr result (MissesAt line call.now) }
{
    if is_missing(alloc, call)? {
        return Err(PlayError::LeftOut {
            line,
            call: call.name(),
        });
    }
    Ok(())
}

// Whether the call makes a type that is none of the samples.
fn is_missing(alloc: Global, call: &ScriptCall) -> Result<bool, AllocError>
    ensures { IfOk result (λ missing. missing ≡ misses call.now) }
{
    match call {
        ScriptCall::DefineType {
            slot,
            definition,
            ..
        } => {
            let schema = schema_of(alloc, definition)?;
            Ok(!is_sample(*slot, schema.entry()))
        }
        _ => Ok(false),
    }
}

// The reply of a line.
#[derive(Drop)]
enum LineReply {
    // The encoder was not called.
    Silent,
    // What a call of the encoder answered.
    Replied(Reply),
    // A new trace was begun.
    Reset,
    // The encoder was replaced by one that goes on after an output of this many bytes.
    Resumed { length: usize },
}

// What a script defined, by its handles.
#[derive(Drop)]
struct Handles {
    schemas: BTreeMap<u64, Schema>,
    types: BTreeMap<u64, SampleType>,
}

// An encoder and what it made: the output holds what the encoder's writer accepted, and what a script put in past it.
#[derive(Drop)]
struct Player {
    alloc: Global,
    encoder: Encoder,
    handles: Handles,
    played: Played,
}

impl Player {
    fn new(alloc: Global) -> Result<Player, PlayError>
        ensures started { IfOk result (λ player. playing_of player ≡ start) }
        ensures refused { IfErr result IsOfPlayer }
    {
        let encoder = Encoder::new(alloc).map_err(PlayError::Encoder)?;
        let bytes = Vec::from_slice(alloc, encoder.as_inner())?;
        Ok(Player {
            alloc,
            encoder,
            handles: Handles {
                schemas: BTreeMap::new(alloc),
                types: BTreeMap::new(alloc),
            },
            played: Played {
                bytes,
                replies: String::new(alloc),
            },
        })
    }

    // Makes the call of a line, and appends the line of its reply.
    #[tactic(auto, using(crate::proofs::ScriptRefusals::lacks_type, crate::proofs::ScriptRefusals::lacks_header))]
    fn make(&mut self, line: usize, call: &ScriptCall) -> Result<(), PlayError>
        ensures turns { OnOk result (Turns (playing_of self.old) call.now (playing_of self.new)) }
        ensures refused { IfErr result (RefusesCall (playing_of self.old) line call.now) }
    {
        match call {
            ScriptCall::Nothing => Ok(()),
            ScriptCall::Define { handle, definition } => {
                self.define(*handle, definition)?;
                self.push_reply_line(LineReply::Silent)
            }
            ScriptCall::DefineType {
                handle,
                slot,
                definition,
            } => {
                self.define_type(line, *handle, *slot, definition)?;
                self.push_reply_line(LineReply::Silent)
            }
            ScriptCall::Raw { bytes } => {
                self.played.bytes.extend_from_slice(bytes)?;
                self.push_reply_line(LineReply::Silent)
            }
            ScriptCall::Bare => {
                self.played.bytes.clear();
                self.push_reply_line(LineReply::Silent)
            }
            ScriptCall::Reset => {
                let reply = self.reset()?;
                self.push_reply_line(reply)
            }
            ScriptCall::Resume => {
                let reply = self.resume(line)?;
                self.push_reply_line(reply)
            }
            other => {
                let reply = self.ask(line, other)?;
                self.push_reply_line(LineReply::Replied(reply))
            }
        }
    }

    // Appends the line of a reply to the others.
    fn push_reply_line(&mut self, reply: LineReply) -> Result<(), PlayError>
        ensures added { OnOk result (playing_of self.new ≡ with_reply reply (playing_of self.old)) }
        ensures refused { IfErr result IsOfPlayer }
    {
        let written = self.encoder.bytes_written();
        push_reply(&mut self.played.replies, reply, written)?;
        Ok(())
    }

    // Keeps the schema that a definition says, in the place of one with the same handle.
    fn define(&mut self, handle: u64, definition: &Definition) -> Result<(), PlayError>
        ensures defined { OnOk result
            (playing_of self.new ≡ with_schema handle definition.now (playing_of self.old)) }
        ensures refused { IfErr result IsOfPlayer }
    {
        let schema = schema_of(self.alloc, definition)?;
        self.handles.schemas.insert(handle, schema)?;
        Ok(())
    }

    // Keeps the sample type that a definition says, in the place of one with the same handle.
    fn define_type(
        &mut self,
        line: usize,
        handle: u64,
        slot: u64,
        definition: &Definition,
    ) -> Result<(), PlayError>
        ensures defined { OnOk result
            (DefinesType handle slot definition.now (playing_of self.old) (playing_of self.new)) }
        ensures refused { IfErr result (LacksType line slot definition.now) }
    {
        let schema = schema_of(self.alloc, definition)?;
        if !is_sample(slot, schema.entry()) {
            return Err(PlayError::LeftOut { line, call: "type" });
        }
        self.handles
            .types
            .insert(handle, SampleType { slot, schema })?;
        Ok(())
    }

    // Begins a new trace, whose header it appends to the output.
    fn reset(&mut self) -> Result<LineReply, PlayError>
        ensures resets { IfOk result
            (λ reply. Resets (playing_of self.old) reply (playing_of self.new)) }
        ensures refused { IfErr result IsOfPlayer }
    {
        match self.encoder.reset_to(Vec::new(self.alloc)) {
            Ok(_) => {
                self.played
                    .bytes
                    .extend_from_slice(self.encoder.as_inner())?;
                Ok(LineReply::Reset)
            }
            Err(error) => Ok(LineReply::Replied(Reply::Refused(error))),
        }
    }

    // Puts an encoder that goes on after the output in the place of the one before.
    fn resume(&mut self, line: usize) -> Result<LineReply, PlayError>
        ensures resumes { IfOk result
            (λ reply. Resumes (playing_of self.old) reply (playing_of self.new)) }
        ensures refused { IfErr result (LacksHeader line (playing_of self.old).bytes) }
    {
        match encoder_after(self.alloc, line, &self.played.bytes)? {
            Ok(encoder) => {
                self.encoder = encoder;
                Ok(LineReply::Resumed {
                    length: self.played.bytes.len(),
                })
            }
            Err(error) => Ok(LineReply::Replied(Reply::Refused(error))),
        }
    }

    // Makes a call of the encoder, and appends what it sent to the output.
    #[tactic(auto, using(crate::proofs::ScriptRefusals::under_definitions))]
    fn ask(&mut self, line: usize, call: &ScriptCall) -> Result<Reply, PlayError>
        requires { asks call.now ≡ true }
        ensures asked { IfOk result
            (λ reply. Asks (playing_of self.old) call.now reply (playing_of self.new)) }
        ensures refused { IfErr result (RefusesCall (playing_of self.old) line call.now) }
    {
        let before = self.encoder.as_inner().len();
        let reply = make_on_encoder(self.alloc, &mut self.encoder, &self.handles, line, call)?;
        let sent = &self.encoder.as_inner()[before..];
        self.played.bytes.extend_from_slice(sent)?;
        Ok(reply)
    }

    fn into_played(self) -> Played
        ensures { result ≡ self.played }
    {
        let Player {
            alloc: _,
            encoder: _,
            handles: _,
            played,
        } = self;
        played
    }
}

// The encoder that a decoder becomes which has read a trace to its end.
fn encoder_after(
    alloc: Global,
    line: usize,
    trace: &[u8],
) -> Result<Result<Encoder, EncodeError>, PlayError>
    ensures answers { IfOk result (AnswersResumption trace.now) }
    ensures refused { IfErr result (LacksHeader line trace.now) }
{
    let Some(mut decoder) = Decoder::new(alloc, trace) else {
        return Err(PlayError::Headless { line });
    };
    match decoder.decode_all() {
        Ok(_) => Ok(decoder.into_encoder(Vec::new(alloc))),
        Err(_) => Err(PlayError::Memory),
    }
}

// Makes the call of a line on an encoder.
#[tactic(auto, using(crate::proofs::ScriptRefusals::unheld))]
fn make_on_encoder(
    alloc: Global,
    encoder: &mut Encoder,
    handles: &Handles,
    line: usize,
    call: &ScriptCall,
) -> Result<Reply, PlayError>
    requires { asks call.now ≡ true }
    ensures does { IfOk result
        (DoesCall (defined_in handles.now) encoder.old encoder.new call.now) }
    ensures refused { IfErr result (RefusesUnder (defined_in handles.now) line call.now) }
{
    match call {
        ScriptCall::Register { handle } => {
            let schema = schema_under(&handles.schemas, line, *handle)?;
            Ok(wire_id_reply(encoder.register_existing(schema)))
        }
        ScriptCall::Event {
            handle,
            time,
            values,
        } => {
            let schema = schema_under(&handles.schemas, line, *handle)?;
            Ok(done_reply(encoder.write_event(schema, *time, values)))
        }
        ScriptCall::WriteTyped {
            handle,
            time,
            values,
        } => {
            let sample = sample_under(&handles.types, line, *handle)?;
            let answer = write_sample(alloc, encoder, sample, *time, values);
            answer.map_err(|unheld| unheld_on(line, unheld))
        }
        ScriptCall::InternString { text } => Ok(text_reply(encoder.intern_string(text))),
        ScriptCall::InternStack { frames } => Ok(stack_reply(encoder.intern_stack_frames(frames))),
        ScriptCall::StringPool { entries } => {
            let entries = pool_of(alloc, entries)?;
            Ok(done_reply(encoder.write_string_pool(&entries)))
        }
        ScriptCall::StackPool { entries } => {
            let entries = stack_pool_of(alloc, entries)?;
            Ok(done_reply(encoder.write_stack_pool(&entries)))
        }
        other => Err(PlayError::LeftOut {
            line,
            call: other.name(),
        }),
    }
}

/// The reply of a call that answers no value: `Done`, or `Refused` with the error.
pub fn done_reply(answer: Result<(), EncodeError>) -> Reply
    ensures { result ≡ reply_from (λ _. Reply.Done) answer }
{
    match answer {
        Ok(()) => Reply::Done,
        Err(error) => Reply::Refused(error),
    }
}

// The reply of a call that answers a wire id.
fn wire_id_reply(answer: Result<WireTypeId, EncodeError>) -> Reply
    ensures { result ≡ reply_from (λ id. Reply.WireId id) answer }
{
    match answer {
        Ok(id) => Reply::WireId(id),
        Err(error) => Reply::Refused(error),
    }
}

// The reply of a call that answers the id of a text.
fn text_reply(answer: Result<InternedString, EncodeError>) -> Reply
    ensures { result ≡ reply_from (λ id. Reply.Text id) answer }
{
    match answer {
        Ok(id) => Reply::Text(id),
        Err(error) => Reply::Refused(error),
    }
}

// The reply of a call that answers the id of a stack.
fn stack_reply(answer: Result<InternedStackFrames, EncodeError>) -> Reply
    ensures { result ≡ reply_from (λ id. Reply.Stack id) answer }
{
    match answer {
        Ok(id) => Reply::Stack(id),
        Err(error) => Reply::Refused(error),
    }
}

// The schema that a definition says.
fn schema_of(alloc: Global, definition: &Definition) -> Result<Schema, AllocError>
    ensures { IfOk result (λ schema. schema ≡ defined_entry definition.now) }
{
    let mut annotations = Vec::new(alloc);
    for annotation in &definition.annotations {
        annotations.push(FieldAnnotation::new(
            alloc,
            annotation.index,
            &annotation.key,
            &annotation.value,
        )?)?;
    }
    let name = definition.name.as_str();
    let entry = SchemaEntry::with_annotations(alloc, name, &definition.fields, &annotations)?;
    Schema::from_entry(alloc, entry)
}

// The entries of a string pool.
fn pool_of(alloc: Global, texts: &[PoolText]) -> Result<Vec<PoolEntry>, AllocError>
    ensures { IfOk result
        (λ entries. string_entries_of entries.items ≡ map pool_text_of texts.now) }
{
    let mut entries = Vec::new(alloc);
    for text in texts {
        entries.push(PoolEntry {
            pool_id: text.id,
            bytes: Vec::from_slice(alloc, &text.bytes)?,
        })?;
    }
    Ok(entries)
}

// The entries of a stack pool.
fn stack_pool_of(alloc: Global, stacks: &[PoolStack]) -> Result<Vec<StackPoolEntry>, AllocError>
    ensures { IfOk result
        (λ entries. stack_entries_of entries.items ≡ map pool_stack_of stacks.now) }
{
    let mut entries = Vec::new(alloc);
    for stack in stacks {
        entries.push(StackPoolEntry {
            pool_id: stack.id,
            frames: Vec::from_slice(alloc, &stack.frames)?,
        })?;
    }
    Ok(entries)
}

// The schema that was defined last under a handle.
fn schema_under(
    schemas: &BTreeMap<u64, Schema>,
    line: usize,
    handle: u64,
) -> Result<&Schema, PlayError>
    ensures found { IfOk result (λ schema. under schemas.now.entries handle ≡ Some schema.now) }
    ensures unknown { IfErr result
        (λ e. (e ≡ errors.Unknown line handle) × (under schemas.now.entries handle ≡ None)) }
{
    match schemas.get(&handle) {
        Some(schema) => Ok(schema),
        None => Err(PlayError::Unknown { line, handle }),
    }
}

// The sample type that was defined last under a handle.
fn sample_under(
    types: &BTreeMap<u64, SampleType>,
    line: usize,
    handle: u64,
) -> Result<&SampleType, PlayError>
    ensures found { IfOk result (λ sample. under types.now.entries handle ≡ Some sample.now) }
    ensures unknown { IfErr result
        (λ e. (e ≡ errors.Unknown line handle) × (under types.now.entries handle ≡ None)) }
{
    match types.get(&handle) {
        Some(sample) => Ok(sample),
        None => Err(PlayError::Unknown { line, handle }),
    }
}

// The error of a line whose values no event has.
fn unheld_on(line: usize, unheld: Unheld) -> PlayError
    ensures { IsUnheld line result }
{
    match unheld {
        Unheld::Unfit => PlayError::Unheld { line },
        Unheld::Memory => PlayError::Memory,
    }
}

// Appends the line of a reply, `-` where the encoder was not called.
#[tactic(auto, unfolding(crate::specs::Playing::reply_line))]
fn push_reply(out: &mut String, reply: LineReply, written: u64) -> Result<(), AllocError>
    ensures { OnOk result
        (string_bytes out.new ≡ string_bytes out.old ++ reply_line reply written) }
{
    match reply {
        LineReply::Silent => out.push_str("-")?,
        LineReply::Reset => out.push_str("reset")?,
        LineReply::Resumed { length } => write!(out, "resume {length}")?,
        LineReply::Replied(reply) => push_answer(out, reply)?,
    }
    writeln!(out, " bytes={written}")
}

// Appends what a call of the encoder answered.
fn push_answer(out: &mut String, reply: Reply) -> Result<(), AllocError>
    ensures { OnOk result (string_bytes out.new ≡ string_bytes out.old ++ answer_text reply) }
{
    match reply {
        Reply::Done => out.push_str("done"),
        Reply::WireId(id) => {
            let id = id.0;
            write!(out, "wire {id}")
        }
        Reply::Text(id) => write!(out, "{id:?}"),
        Reply::Stack(id) => write!(out, "{id:?}"),
        Reply::Refused(error) => push_refusal(out, error),
    }
}

// Appends a refusal: its number and name, and the field of a misfit.
fn push_refusal(out: &mut String, error: EncodeError) -> Result<(), AllocError>
    ensures { OnOk result (string_bytes out.new ≡ string_bytes out.old ++ refusal_text error) }
{
    match error {
        EncodeError::Conflict => out.push_str("refused 1 Conflict"),
        EncodeError::ValueCount => out.push_str("refused 2 ValueCount"),
        EncodeError::Misfit { field } => write!(out, "refused 3 Misfit {field}"),
        EncodeError::TooLong => out.push_str("refused 4 TooLong"),
        EncodeError::IdsUsedUp => out.push_str("refused 5 IdsUsedUp"),
        EncodeError::SlotTaken => out.push_str("refused 6 SlotTaken"),
        EncodeError::SlotUntimed => out.push_str("refused 7 SlotUntimed"),
        EncodeError::ByteCount => out.push_str("refused 8 ByteCount"),
        EncodeError::OutOfMemory => out.push_str("refused 9 OutOfMemory"),
        EncodeError::Writer(_) => out.push_str("refused 10 Writer"),
        EncodeError::Failed => out.push_str("refused 11 Failed"),
    }
}
