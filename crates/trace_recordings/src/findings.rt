//! What a recording shows of the library.

ghost use Rattle.std.specs.Prelude.{◌≡◌, ◌↔◌, [], IfOk, codes, string_bytes};
ghost use Rattle.trace_recordings.specs.Comparisons.{ended};
ghost use Rattle.trace_recordings.specs.Findings.{borrowed_lines, IsUnread, ShowsBorrowed, ShowsDump, ShowsPieces};
ghost use Rattle.trace_recordings.specs.Findings.{ShowsResolved, ShowsScript, ShowsSink, ShowsUnread, WhereRead};

use crate::compare::{bytes_difference, lines_difference};
use crate::pieces::first_apart;
use crate::player::{PlayError, Played, play};
use crate::recording::{Calls, Readings, Recording};
use crate::sink::sink_lines;
use hex::FromHexError;
use std::alloc::{AllocError, Global};
use trace_lines::dump::{DumpForm, FAILED, Reader, dump_as};

// By what name to speak of the lines of a sink.
const SINK_NAME: &str = "what a sink is given";

/// What became of a part of a recording.
#[derive(Drop)]
pub enum PartFinding {
    /// The recording has no such part.
    Absent,
    /// The library has nothing for what is named.
    LeftOut(&'static str),
    /// It was compared. A text for each difference.
    Compared(Vec<String>),
}

/// What a recording shows.
#[derive(Drop)]
pub struct Findings {
    pub script: PartFinding,
    pub dump: PartFinding,
    /// The dump of the borrowed reader.
    pub borrowed: PartFinding,
    /// The dump with resolved events.
    pub resolved: PartFinding,
    /// What a sink is given.
    pub sink: PartFinding,
    /// What is given of the trace in pieces, beside what is given of it whole.
    pub pieces: PartFinding,
}

/// Plays the script of a recording, dumps its trace, by each reader and with resolved events, and shows its events to
/// a sink, and compares what comes of it with the recording. Feeds the trace in pieces of 1, 2, 3, 5 and 4,096 bytes,
/// and compares what is given with what is given of it whole. Where the recorded bytes cannot be read that is told as
/// a difference of the dump. `AllocError` where a growth was refused, by whichever of these.
pub fn findings_of(alloc: Global, recording: Recording<'_>) -> Result<Findings, AllocError>
    ensures script { IfOk result
        (λ f. WhereRead recording.entry
        (λ trace. ShowsScript trace recording.entry.calls f.script)) }
    ensures dump { IfOk result
        (λ f. WhereRead recording.entry
        (λ trace. ShowsDump (DumpForm.Frames Reader.Owned) trace recording.entry.dump.now f.dump)) }
    ensures borrowed { IfOk result (λ f. WhereRead recording.entry
        (λ trace. ShowsBorrowed trace recording.entry.dump.now recording.entry.readings
        f.borrowed)) }
    ensures resolved { IfOk result
        (λ f. WhereRead recording.entry
        (λ trace. ShowsResolved trace recording.entry.readings f.resolved)) }
    ensures sink { IfOk result
        (λ f. WhereRead recording.entry
        (λ trace. ShowsSink trace recording.entry.readings f.sink)) }
    ensures pieces { IfOk result
        (λ f. WhereRead recording.entry (λ trace. ShowsPieces trace f.pieces)) }
    ensures unread { IfOk result (λ f. IsUnread recording.entry → ShowsUnread f) }
{
    match hex::decode(alloc, recording.bytes) {
        Ok(trace) => Ok(Findings {
            script: script_outcome(alloc, recording.calls, &trace)?,
            dump: dump_outcome(
                alloc,
                recording.dump,
                &trace,
                DumpForm::Frames(Reader::Owned),
            )?,
            borrowed: borrowed_outcome(alloc, recording.dump, recording.readings, &trace)?,
            resolved: resolved_outcome(alloc, recording.readings, &trace)?,
            sink: sink_outcome(alloc, recording.readings, &trace)?,
            pieces: pieces_outcome(alloc, &trace)?,
        }),
        Err(FromHexError::OutOfMemory) => Err(AllocError),
        Err(error) => unread_findings(alloc, &error),
    }
}

// What is shown where the digits of the recorded bytes cannot be read.
fn unread_findings(alloc: Global, error: &FromHexError) -> Result<Findings, AllocError>
    ensures { IfOk result ShowsUnread }
{
    let difference = format!(in alloc; "the recorded bytes cannot be read: {error}")?;
    Ok(Findings {
        script: PartFinding::Absent,
        dump: PartFinding::Compared(vec![in alloc; difference]?),
        borrowed: PartFinding::Absent,
        resolved: PartFinding::Absent,
        sink: PartFinding::Absent,
        pieces: PartFinding::Absent,
    })
}

// Plays a script, and compares the bytes and the replies.
#[tactic(auto, using(crate::proofs::PlayedOrRefused::shows_played, crate::proofs::PlayedOrRefused::shows_refused))]
fn script_outcome(
    alloc: Global,
    calls: Option<Calls<'_>>,
    trace: &[u8],
) -> Result<PartFinding, AllocError>
    ensures { IfOk result (ShowsScript trace.now calls.entry) }
{
    let Some(calls) = calls else {
        return Ok(PartFinding::Absent);
    };
    match play(alloc, calls.script.as_bytes()) {
        Ok(played) => {
            let differences = played_differences(alloc, calls.replies, trace, &played)?;
            Ok(PartFinding::Compared(differences))
        }
        Err(PlayError::LeftOut { call, .. }) => Ok(PartFinding::LeftOut(call)),
        Err(error) if error.is_of_script() => {
            let difference = format!(in alloc; "the script was not played: {error}")?;
            Ok(PartFinding::Compared(vec![in alloc; difference]?))
        }
        Err(_) => Err(AllocError),
    }
}

// Compares the bytes and the replies.
fn played_differences(
    alloc: Global,
    replies: &str,
    trace: &[u8],
    played: &Played,
) -> Result<Vec<String>, AllocError>
    ensures { IfOk result
        (λ told. (told.items ≡ [])
        ↔ ((trace.now ≡ played.now.bytes.items)
        × (ended replies.now ≡ string_bytes played.now.replies))) }
{
    let mut differences = Vec::new(alloc);
    if let Some(difference) = bytes_difference(alloc, trace, &played.bytes)? {
        differences.push(difference)?;
    }
    if let Some(difference) = lines_difference(alloc, replies, played.replies.as_bytes())? {
        differences.push(format!(in alloc; "the replies differ: {difference}")?)?;
    }
    Ok(differences)
}

// Dumps a trace by the borrowed reader, where its readings were recorded. The lines are those of the dump where they
// have no others.
fn borrowed_outcome(
    alloc: Global,
    lines: &str,
    readings: Option<Readings<'_>>,
    trace: &[u8],
) -> Result<PartFinding, AllocError>
    ensures { IfOk result (ShowsBorrowed trace.now lines.now readings.entry) }
{
    match readings {
        Some(readings) => {
            let lines = readings.borrowed.unwrap_or(lines);
            dump_outcome(alloc, lines, trace, DumpForm::Frames(Reader::Borrowed))
        }
        None => Ok(PartFinding::Absent),
    }
}

// Dumps a trace with resolved events, where its lines were recorded.
fn resolved_outcome(
    alloc: Global,
    readings: Option<Readings<'_>>,
    trace: &[u8],
) -> Result<PartFinding, AllocError>
    ensures { IfOk result (ShowsResolved trace.now readings.entry) }
{
    match readings {
        Some(readings) => dump_outcome(alloc, readings.resolved, trace, DumpForm::Events),
        None => Ok(PartFinding::Absent),
    }
}

// Shows the events of a trace to a sink, where its lines were recorded.
fn sink_outcome(
    alloc: Global,
    readings: Option<Readings<'_>>,
    trace: &[u8],
) -> Result<PartFinding, AllocError>
    ensures { IfOk result (ShowsSink trace.now readings.entry) }
{
    let Some(readings) = readings else {
        return Ok(PartFinding::Absent);
    };
    let found = sink_lines(alloc, trace)?;
    let differences = text_differences(alloc, SINK_NAME, readings.sink, found.as_bytes())?;
    Ok(PartFinding::Compared(differences))
}

// Feeds a trace in pieces, and compares what is given with what is given of it whole.
#[tactic(auto, using(crate::proofs::ToldOfPieces::shows_alike, crate::proofs::ToldOfPieces::shows_apart))]
fn pieces_outcome(alloc: Global, trace: &[u8]) -> Result<PartFinding, AllocError>
    ensures { IfOk result (ShowsPieces trace.now) }
{
    let Some(size) = first_apart(alloc, trace)? else {
        return Ok(PartFinding::Compared(Vec::new(alloc)));
    };
    let difference = format!(in alloc;
        "in pieces of {size} bytes not the same is given as of the whole"
    )?;
    Ok(PartFinding::Compared(vec![in alloc; difference]?))
}

// Dumps a trace, and compares the lines, whose last one tells the status. A vector as a writer wants nothing but
// memory.
fn dump_outcome(
    alloc: Global,
    lines: &str,
    trace: &[u8],
    form: DumpForm,
) -> Result<PartFinding, AllocError>
    ensures { IfOk result (ShowsDump form trace.now lines.now) }
{
    let mut found = Vec::new(alloc);
    if dump_as(alloc, trace, &mut found, form) == FAILED {
        return Err(AllocError);
    }
    let differences = text_differences(alloc, dump_name(form), lines, &found)?;
    Ok(PartFinding::Compared(differences))
}

// By what name to speak of a dump.
fn dump_name(form: DumpForm) -> &'static str {
    match form {
        DumpForm::Frames(Reader::Owned) => "the dump",
        DumpForm::Frames(Reader::Borrowed) => "the borrowed dump",
        DumpForm::Events => "the resolved dump",
    }
}

// Compares the lines of a text that has this name.
fn text_differences(
    alloc: Global,
    name: &str,
    lines: &str,
    found: &[u8],
) -> Result<Vec<String>, AllocError>
    ensures { IfOk result
        (λ differences. (differences.items ≡ []) ↔ (ended lines.now ≡ found.now)) }
{
    let mut differences = Vec::new(alloc);
    if let Some(difference) = lines_difference(alloc, lines, found)? {
        differences.push(format!(in alloc; "{name} differs: {difference}")?)?;
    }
    Ok(differences)
}
