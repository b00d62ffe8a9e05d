//! Packed recordings of traces (docs/RECORDINGS.md, "The files").

ghost use Rattle.std.specs.Prelude.{◌≡◌, ◌≢◌, ◌<◌, false, get_or, List, ℕ, ◌++◌, length, IfOk, IfSome, codes};
ghost use Rattle.std.specs.List.{flat_map};
ghost use Rattle.trace_recordings.specs.declared.recording.RecordingError.TheVariants as errors;
ghost use Rattle.trace_recordings.specs.Scripts.{line_feed};
ghost use Rattle.trace_recordings.specs.Recordings.{borrowed_text, calls_text, making_text, readings_text};
ghost use Rattle.trace_recordings.specs.Recordings.{recording_lines, recording_text, IsFile};

use std::alloc::{AllocError, AllocFailed, Global};
use thiserror::Error;

/// A recorded trace. Each part stands here without the line feed after it.
#[derive(Clone, Copy)]
pub struct Recording<'a> {
    /// By what name to speak of it.
    pub name: &'a str,
    /// The calls that made the trace, where calls did.
    pub calls: Option<Calls<'a>>,
    /// The trace, two hexadecimal digits a byte.
    pub bytes: &'a str,
    /// The lines of its dump.
    pub dump: &'a str,
    /// What the borrowed reader and a sink made of it, where that was recorded.
    pub readings: Option<Readings<'a>>,
}

/// The calls that made a trace.
#[derive(Clone, Copy)]
pub struct Calls<'a> {
    /// The lines of the script.
    pub script: &'a str,
    /// A line for each call: the reply, and how many bytes were written.
    pub replies: &'a str,
}

/// What the borrowed reader and a sink made of a trace.
#[derive(Clone, Copy)]
pub struct Readings<'a> {
    /// The lines of the dump of the borrowed reader, where they are others.
    pub borrowed: Option<&'a str>,
    /// The lines of the dump with resolved events.
    pub resolved: &'a str,
    /// How many events a sink was given, how that ended, and at which place.
    pub sink: &'a str,
}

/// Why a file of recordings cannot be read.
#[derive(Clone, Copy, Debug, PartialEq, Eq, Error)]
pub enum RecordingError {
    /// The file has no empty line, or begins with one.
    #[error("the file has no head that an empty line ends")]
    Head,
    /// The recording of this number, from 1, has no end, or not the marks of its parts in their order.
    #[error("recording {0} of the file has not its parts")]
    Parts(usize),
    /// A growth was refused.
    #[error("out of memory")]
    Memory,
}

impl<T: Drop> From<AllocFailed<T>> for RecordingError {
    ghost from_gives = { λ _ e. e ≡ errors.Memory };

    fn from(_: AllocFailed<T>) -> RecordingError {
        RecordingError::Memory
    }
}

/// Reads a file: its head up to the first empty line, and the recordings, each of which stands there whole. `Head`
/// where the file has no empty line, or begins with one; `Parts` with the number of the first recording, from 1, that
/// is not whole; `Memory` where a growth was refused.
pub fn recordings_of(alloc: Global, file: &str) -> Result<Vec<Recording<'_>>, RecordingError>
    ensures { IfOk result (λ v. IsFile v.items file.now) }
{
    let (head, recordings) = file.split_once("\n\n").ok_or(RecordingError::Head)?;
    if begins_empty(head) {
        return Err(RecordingError::Head);
    }
    recordings_in(alloc, recordings)
}

// Whether the first line of a text is empty.
fn begins_empty(text: &str) -> bool
    ensures { result ≡ false → get_or text.now 0 line_feed ≢ line_feed }
{
    match text.as_bytes() {
        [] => true,
        [first, ..] => *first == b'\n',
    }
}

// The recordings up to the end of a file.
fn recordings_in(alloc: Global, text: &str) -> Result<Vec<Recording<'_>>, RecordingError>
    ensures { IfOk result (λ v. text.now ≡ flat_map recording_text v.items) }
{
    let mut recordings = Vec::new(alloc);
    let mut rest = text;
    while !rest.is_empty() {
        let number = recordings.len().saturating_add(1);
        let (recording, after) = leading_recording(rest).ok_or(RecordingError::Parts(number))?;
        recordings.push(recording)?;
        rest = after;
    }
    Ok(recordings)
}

// The recording at the front, and the rest.
fn leading_recording(text: &str) -> Option<(Recording<'_>, &str)>
    ensures parts { IfSome result (λ x. text.now ≡ recording_text x.0 ++ x.1.now) }
    ensures shorter { IfSome result (λ x. length x.1.now < length text.now) }
{
    let (lines, rest) = text.split_once("\n# end\n")?;
    Some((recording_of(lines)?, rest))
}

// The recording of these lines.
#[tactic(auto, unfolding(crate::specs::Recordings::recording_lines))]
fn recording_of(lines: &str) -> Option<Recording<'_>>
    ensures { IfSome result (λ r. lines.now ≡ recording_lines r) }
{
    let named = lines.strip_prefix("== ")?;
    let (front, after_mark) = named.split_once("\n# dump\n")?;
    let (name, calls, bytes) = making_of(front)?;
    let (dump, readings) = dump_of(after_mark)?;
    Some(Recording {
        name,
        calls,
        bytes,
        dump,
        readings,
    })
}

// The lines of the dump, and the other readings where there are some.
fn dump_of(lines: &str) -> Option<(&str, Option<Readings<'_>>)>
    ensures { IfSome result (λ x. lines.now ≡ x.0.now ++ readings_text x.1) }
{
    match lines.split_once("\n# resolve\n") {
        Some((front, rest)) => {
            let (dump, borrowed) = borrowed_of(front);
            let (resolved, sink) = rest.split_once("\n# sink\n")?;
            let readings = Readings {
                borrowed,
                resolved,
                sink,
            };
            Some((dump, Some(readings)))
        }
        None => Some((lines, None)),
    }
}

// The lines of the dump, and those of the borrowed reader where they are others.
fn borrowed_of(lines: &str) -> (&str, Option<&str>)
    ensures { lines.now ≡ result.0.now ++ borrowed_text result.1 }
{
    match lines.split_once("\n# borrowed\n") {
        Some((dump, borrowed)) => (dump, Some(borrowed)),
        None => (lines, None),
    }
}

// A name, the calls where there are some, and the bytes.
fn making_of(lines: &str) -> Option<(&str, Option<Calls<'_>>, &str)>
    ensures { IfSome result (λ x. lines.now ≡ x.0.now ++ making_text x.1 x.2.now) }
{
    match lines.split_once("\n# script\n") {
        Some((name, rest)) => {
            let (calls, bytes) = calls_of(rest)?;
            Some((name, Some(calls), bytes))
        }
        None => {
            let (name, bytes) = lines.split_once("\n# bytes\n")?;
            Some((name, None, bytes))
        }
    }
}

// The calls and the bytes.
fn calls_of(lines: &str) -> Option<(Calls<'_>, &str)>
    ensures { IfSome result (λ x. lines.now ≡ calls_text x.0 x.1.now) }
{
    let (script, rest) = lines.split_once("\n# bytes\n")?;
    let (bytes, replies) = rest.split_once("\n# replies\n")?;
    Some((Calls { script, replies }, bytes))
}
