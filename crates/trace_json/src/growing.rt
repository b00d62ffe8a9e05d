//! JSON that is put token by token: kept whole, or sent as it grows.

ghost use Rattle.std.specs.Prelude.{◌≡◌, ◌∷◌, ◌++◌, List, [], true, drop};
ghost use Rattle.json.specs.Print.{ends_value};
ghost use Rattle.json.specs.Token.{Token};
ghost use Rattle.dial9_trace_format.specs.parts.Resolving.{as_pools};
ghost use Rattle.trace_events.specs.Holding.{HoldsNone};
ghost use Rattle.trace_json.specs.EventJson.{IsValueJson};
ghost use Rattle.trace_json.specs.parts.Growing.{PutsBy, PutsOneBy, WriterRefuses, WriterGrows, mark_token};
ghost use Rattle.trace_json.specs.parts.GrowingLaws.{sent_carries, sent_empty, sent_joins};
ghost use Rattle.trace_json.specs.parts.GrowingLaws.{writer_carries, writer_empty, writer_joins};
ghost use Rattle.trace_json.specs.parts.Put.{PutsTokens, head_tokens};
ghost use Rattle.trace_json.specs.parts.SentJson.{JsonFails, JsonGrows, SendsBytes, standing_for};

use crate::line::put_head_to;
use crate::value::JsonValue;
use json::Writer;
use std::alloc::{AllocError, Global};
use std::io::ErrorKind;
use std::mem;
use trace_values::leb128::{SendFault, TraceWrite, send_all};
use trace_wire::pools::{StackPool, StringPool};

/// So many bytes of lines are sent at once. A line is sent as it grows where its values alone may be so many.
pub(crate) const ENOUGH: usize = 65_536;

/// A token that is no value.
#[derive(Clone, Copy)]
pub(crate) enum Mark<'s> {
    BeginObject,
    EndObject,
    BeginArray,
    EndArray,
    Key(&'s str),
}

/// What JSON is put to.
pub(crate) trait GrowingJson {
    /// Why it takes no more.
    type Fault;

    /// Tokens were put, from one state to another.
    ghost grows: { Self → List Token → Self → Type 0 };

    /// It took no more, from one state to another.
    ghost fails: { Self → Self.Fault → Self → Type 0 };

    /// Puts a token that is no value.
    fn put_mark(&mut self, mark: Mark<'_>) -> Result<(), Self::Fault>
        ensures { PutsBy grows fails (mark_token mark.entry ∷ []) self.old self.new result };

    /// Puts the beginning of an event's object, up to its fields: the name of its file, where one is told, its own name
    /// and its time.
    fn put_head(
        &mut self,
        file: Option<&str>,
        name: &str,
        timestamp_ns: u64,
    ) -> Result<(), Self::Fault>
        ensures { PutsBy grows fails (head_tokens file.entry name.now timestamp_ns)
            self.old self.new result };

    /// Puts a value that holds no others, with what the pools hold in place of ids.
    fn put_flat<V: JsonValue>(
        &mut self,
        alloc: Global,
        strings: &StringPool,
        stacks: &StackPool,
        value: &V,
    ) -> Result<(), Self::Fault>
        requires { HoldsNone (V.value value.now) }
        ensures { PutsOneBy grows fails
            (IsValueJson (as_pools strings.now stacks.now) (V.value value.now)) self.old self.new
            result };

    /// No tokens are put by doing nothing.
    ghost empty: { (s : Self) → grows s [] s };

    /// Tokens are put after others.
    ghost joins: { (s m t : Self) (a b : List Token) → grows s a m → grows m b t
        → grows s (a ++ b) t };

    /// It takes no more after tokens were put.
    ghost carries: { (s m t : Self) (a : List Token) (e : Self.Fault) → grows s a m → fails m e t
        → fails s e t };
}

/// A text that is kept whole.
impl GrowingJson for Writer {
    type Fault = AllocError;

    ghost grows = { WriterGrows };

    ghost fails = { WriterRefuses };

    ghost empty = { writer_empty };

    ghost joins = { writer_joins };

    ghost carries = { writer_carries };

    #[inline(always)]
    fn put_mark(&mut self, mark: Mark<'_>) -> Result<(), AllocError> {
        put_mark_to(self, mark)
    }

    fn put_head(
        &mut self,
        file: Option<&str>,
        name: &str,
        timestamp_ns: u64,
    ) -> Result<(), AllocError> {
        put_head_to(self, file, name, timestamp_ns)
    }

    #[inline(always)]
    fn put_flat<V: JsonValue>(
        &mut self,
        alloc: Global,
        strings: &StringPool,
        stacks: &StackPool,
        value: &V,
    ) -> Result<(), AllocError> {
        value.put_flat(alloc, self, strings, stacks)
    }
}

// Writes a token that is no value.
#[inline(always)]
fn put_mark_to(out: &mut Writer, mark: Mark<'_>) -> Result<(), AllocError>
    ensures tokens { PutsTokens (mark_token mark.entry ∷ []) out.old out.new result }
    ensures before { out.new.before ≡ out.old.before }
{
    match mark {
        Mark::BeginObject => out.begin_object(),
        Mark::EndObject => out.end_object(),
        Mark::BeginArray => out.begin_array(),
        Mark::EndArray => out.end_array(),
        Mark::Key(name) => out.key(name),
    }
}

/// Why a line of JSON was not held, or not sent.
#[derive(Clone, Copy, Debug, PartialEq, Eq)]
pub enum LineError {
    /// A growth was refused.
    OutOfMemory,
    /// The writer failed, by this kind of error.
    Writer(ErrorKind),
}

impl From<AllocError> for LineError {
    ghost use Rattle.std.specs.Prelude.{◌≡◌};
    ghost use Rattle.trace_json.specs.declared.growing.LineError.TheVariants.{OutOfMemory};

    ghost from_gives = { λ _ e. e ≡ OutOfMemory };

    fn from(_: AllocError) -> LineError {
        LineError::OutOfMemory
    }
}

impl From<SendFault> for LineError {
    ghost use Rattle.std.specs.Prelude.{◌≡◌};
    ghost use Rattle.trace_json.specs.declared.growing.LineError.TheVariants.{Writer};

    ghost from_gives = { λ fault e. e ≡ Writer fault.kind };

    fn from(fault: SendFault) -> LineError {
        LineError::Writer(fault.kind)
    }
}

/// The text of a line, the lines that are held before it, and where all of them go. A front of a long line is sent
/// before all of it is made.
#[derive(Drop)]
pub(crate) struct SentJson<'w, W> {
    /// The line. Where it goes on after what was sent, it begins with a bracket in place of that, so that a comma
    /// stands before the next value, and the bracket is not sent.
    pub(crate) writer: Writer,
    pub(crate) goes_on: bool,
    /// About how many bytes of values it has.
    pub(crate) weight: usize,
    pub(crate) held: Vec<u8>,
    pub(crate) out: &'w mut W,
}

impl<'w, W: TraceWrite> GrowingJson for SentJson<'w, W> {
    type Fault = LineError;

    ghost grows = { JsonGrows W.told };

    ghost fails = { JsonFails W.told };

    ghost empty = { sent_empty W.told };

    ghost joins = { sent_joins W.told };

    ghost carries = { sent_carries W.told };

    #[inline(always)]
    fn put_mark(&mut self, mark: Mark<'_>) -> Result<(), LineError> {
        Ok(put_mark_to(&mut self.writer, mark)?)
    }

    fn put_head(
        &mut self,
        file: Option<&str>,
        name: &str,
        timestamp_ns: u64,
    ) -> Result<(), LineError> {
        Ok(put_head_to(&mut self.writer, file, name, timestamp_ns)?)
    }

    #[inline(always)]
    fn put_flat<V: JsonValue>(
        &mut self,
        alloc: Global,
        strings: &StringPool,
        stacks: &StackPool,
        value: &V,
    ) -> Result<(), LineError> {
        value.put_flat(alloc, &mut self.writer, strings, stacks)?;
        self.weight = self.weight.saturating_add(value.weight(strings, stacks));
        if self.weight < ENOUGH {
            return Ok(());
        }
        self.send_line(alloc)
    }
}

impl<'w, W: TraceWrite> SentJson<'w, W> {
    // Sends what is held, and what there is of the line, whose last token ends a value.
    #[inline(never)]
    fn send_line(&mut self, alloc: Global) -> Result<(), LineError>
        requires { ends_value self.old.writer.tokens ≡ true }
        ensures { PutsBy (JsonGrows W.told) (JsonFails W.told) [] self.old self.new result }
    {
        let writer = mem::replace(&mut self.writer, Writer::new(Vec::new(alloc)));
        let mut line = writer.into_inner();
        send_both(self.out, &self.held, left_of(&line, self.goes_on))?;
        self.held.clear();
        line.clear();
        self.writer = Writer::new(line);
        self.goes_on = true;
        self.weight = 0;
        Ok(self.writer.end_array()?)
    }
}

// Sends bytes and others after them. `LineError::Writer` where the writer failed.
fn send_both<W: TraceWrite>(out: &mut W, first: &[u8], second: &[u8]) -> Result<(), LineError>
    ensures { SendsBytes (W.told out.old) (W.told out.new) (first.now ++ second.now) result }
{
    send_to(out, first)?;
    send_to(out, second)
}

// Sends bytes. `LineError::Writer` where the writer failed.
fn send_to<W: TraceWrite>(out: &mut W, bytes: &[u8]) -> Result<(), LineError>
    ensures { SendsBytes (W.told out.old) (W.told out.new) bytes.now result }
{
    match send_all(out, bytes) {
        Ok(()) => Ok(()),
        Err(fault) => Err(LineError::Writer(fault.kind)),
    }
}

/// What was not sent of a text of a line.
pub(crate) fn left_of(line: &[u8], goes_on: bool) -> &[u8]
    ensures { result.now ≡ drop (standing_for goes_on) line.now }
{
    match line.split_first() {
        Some((_, left)) if goes_on => left,
        _ => line,
    }
}
