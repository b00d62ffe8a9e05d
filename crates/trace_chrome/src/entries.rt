//! The texts of entries. Each function answers `AllocError` where a growth was refused.

ghost use Rattle.std.specs.Prelude.{◌≡◌, ◌++◌, IfOk, OnOk, codes};
ghost use Rattle.trace_chrome.specs.Times.{micros_text};
ghost use Rattle.trace_chrome.specs.Entries.{quoted, key_text, count_id_text, start_text, name_text, frame_text};
ghost use Rattle.trace_chrome.specs.Entries.{args_text};
ghost use Rattle.trace_chrome.specs.Entries.{naming_text, count_name, count_args_text, entry_text, head_text};
ghost use Rattle.trace_chrome.specs.Entries.{end_text, tail_text_by, Appends};
ghost use Rattle.trace_chrome.specs.Entries.{names, begins, ends, is_cut, takes, happens, counts};
ghost use Rattle.trace_chrome.specs.parts.Parts.{cuts_text};
ghost use Rattle.trace_chrome.specs.parts.Shapes.{counter_view, told_view};

use crate::times::{micros_text, time_text};
use json::Writer;
use std::alloc::{AllocError, Global};

/// The number of a track, and a time after a first one, in nanoseconds.
#[derive(Clone, Copy)]
pub(crate) struct Spot {
    pub(crate) track: usize,
    pub(crate) from: u64,
    pub(crate) at: u64,
}

/// What an entry tells of its event: the number of the frame of its stack, 0 where it has none, and its JSON.
#[derive(Clone, Copy)]
pub(crate) struct Told<'e> {
    pub(crate) frame: usize,
    pub(crate) json: &'e [u8],
}

/// A counter: the number of its track, and the names of its schema and its field.
#[derive(Clone, Copy)]
pub(crate) struct Counter<'e> {
    pub(crate) track: usize,
    pub(crate) schema: &'e str,
    pub(crate) field: &'e str,
}

/// Appends the entry of the name of a track.
pub(crate) fn push_track_name(
    alloc: Global,
    out: &mut Vec<u8>,
    spot: Spot,
    name: &str,
) -> Result<(), AllocError>
    ensures { Appends (entry_text spot.from (names spot.track spot.at name.now)) out.old.items
        out.new.items result }
{
    push_start(alloc, out, "M", spot)?;
    push_naming(alloc, out, name)
}

// Appends what names a track.
fn push_naming(alloc: Global, out: &mut Vec<u8>, name: &str) -> Result<(), AllocError>
    ensures { Appends (naming_text name.now) out.old.items out.new.items result }
{
    out.extend_from_slice(b",\"name\":\"thread_name\",\"args\":{\"name\":")?;
    push_last_name(alloc, out, name)
}

// Appends a name, and the end of an entry.
fn push_last_name(alloc: Global, out: &mut Vec<u8>, name: &str) -> Result<(), AllocError>
    ensures { Appends (quoted name.now ++ codes "}}") out.old.items out.new.items result }
{
    let quoted = quoted(alloc, name)?;
    out.extend_from_slice(&quoted)?;
    out.extend_from_slice(b"}}")
}

/// Appends what stands before the entries of a whole of this name.
pub(crate) fn push_head(alloc: Global, out: &mut Vec<u8>, name: &str) -> Result<(), AllocError>
    ensures { Appends (head_text name.now) out.old.items out.new.items result }
{
    out.extend_from_slice(
        b"{\"traceEvents\":[\n{\"ph\":\"M\",\"pid\":1,\"name\":\"process_name\",\"args\":{\"name\":",
    )?;
    push_last_name(alloc, out, name)
}

/// Appends what stands after the entries, with the time of the first event, and the JSON of frames.
pub(crate) fn push_tail(
    alloc: Global,
    out: &mut Vec<u8>,
    start: u64,
    frames: &[u8],
) -> Result<(), AllocError>
    ensures { Appends (tail_text_by start frames.now) out.old.items out.new.items result }
{
    push_end_start(alloc, out, start)?;
    push_frames(out, frames)
}

// Appends the end of the list of entries, and the time of the first event.
fn push_end_start(alloc: Global, out: &mut Vec<u8>, start: u64) -> Result<(), AllocError>
    ensures { Appends (end_text start) out.old.items out.new.items result }
{
    let text = format!(in alloc;
        "\n],\"displayTimeUnit\":\"ns\",\"otherData\":{{\"start_ns\":\"{start}\"}}"
    )?;
    out.extend_from_slice(text.as_bytes())
}

// Appends the JSON of frames, and the end.
fn push_frames(out: &mut Vec<u8>, frames: &[u8]) -> Result<(), AllocError>
    ensures { Appends (codes ",\"stackFrames\":" ++ (frames.now ++ codes "}\n")) out.old.items
        out.new.items result }
{
    out.extend_from_slice(b",\"stackFrames\":")?;
    out.extend_from_slice(frames)?;
    out.extend_from_slice(b"}\n")
}

/// Appends so many ends that no event says.
pub(crate) fn push_cuts(
    alloc: Global,
    out: &mut Vec<u8>,
    spot: Spot,
    count: usize,
) -> Result<(), AllocError>
    ensures { Appends (cuts_text spot.from count spot.track spot.at) out.old.items out.new.items
        result }
{
    'cuts: for _ in 0..count {
        push_cut(alloc, out, spot)?;
    }
    Ok(())
}

/// Appends the entry of a slice that begins.
pub(crate) fn push_begin(
    alloc: Global,
    out: &mut Vec<u8>,
    spot: Spot,
    name: &str,
    told: Told<'_>,
) -> Result<(), AllocError>
    ensures { Appends (entry_text spot.from
        (begins spot.track spot.at name.now (told_view told.entry))) out.old.items out.new.items
        result }
{
    push_start(alloc, out, "B", spot)?;
    push_name(alloc, out, name)?;
    push_args(alloc, out, told)
}

/// Appends the entry of an end.
pub(crate) fn push_end(
    alloc: Global,
    out: &mut Vec<u8>,
    spot: Spot,
    told: Told<'_>,
) -> Result<(), AllocError>
    ensures { Appends (entry_text spot.from (ends spot.track spot.at (told_view told.entry)))
        out.old.items out.new.items result }
{
    push_start(alloc, out, "E", spot)?;
    push_args(alloc, out, told)
}

/// Appends the entry of an end that no event says.
pub(crate) fn push_cut(alloc: Global, out: &mut Vec<u8>, spot: Spot) -> Result<(), AllocError>
    ensures { Appends (entry_text spot.from (is_cut spot.track spot.at)) out.old.items out.new.items
        result }
{
    push_start(alloc, out, "E", spot)?;
    out.extend_from_slice(b",\"args\":{\"open\":true}}")
}

/// Appends the entry of a slice of so many nanoseconds.
pub(crate) fn push_slice(
    alloc: Global,
    out: &mut Vec<u8>,
    spot: Spot,
    length: u64,
    name: &str,
    told: Told<'_>,
) -> Result<(), AllocError>
    ensures { Appends (entry_text spot.from
        (takes spot.track spot.at length name.now (told_view told.entry))) out.old.items
        out.new.items result }
{
    push_start(alloc, out, "X", spot)?;
    push_length(alloc, out, length)?;
    push_name(alloc, out, name)?;
    push_args(alloc, out, told)
}

/// Appends the entry of what happens.
pub(crate) fn push_instant(
    alloc: Global,
    out: &mut Vec<u8>,
    spot: Spot,
    name: &str,
    told: Told<'_>,
) -> Result<(), AllocError>
    ensures { Appends (entry_text spot.from
        (happens spot.track spot.at name.now (told_view told.entry))) out.old.items out.new.items
        result }
{
    push_start(alloc, out, "i", spot)?;
    push_name(alloc, out, name)?;
    push_args(alloc, out, told)
}

// Appends how an entry begins: its phase, its track and its time.
fn push_start(alloc: Global, out: &mut Vec<u8>, phase: &str, spot: Spot) -> Result<(), AllocError>
    ensures { Appends (start_text phase.now spot.track spot.from spot.at) out.old.items
        out.new.items result }
{
    let time = time_text(alloc, spot.from, spot.at)?;
    let track = spot.track;
    let text = format!(in alloc;
        ",\n{{\"ph\":\"{phase}\",\"pid\":1,\"tid\":{track},\"ts\":{time}"
    )?;
    out.extend_from_slice(text.as_bytes())
}

// Appends how long a slice is.
fn push_length(alloc: Global, out: &mut Vec<u8>, length: u64) -> Result<(), AllocError>
    ensures { Appends (codes ",\"dur\":" ++ micros_text length) out.old.items out.new.items result }
{
    let text = micros_text(alloc, length)?;
    out.extend_from_slice(b",\"dur\":")?;
    out.extend_from_slice(text.as_bytes())
}

// Appends the name of an entry.
fn push_name(alloc: Global, out: &mut Vec<u8>, name: &str) -> Result<(), AllocError>
    ensures { Appends (name_text name.now) out.old.items out.new.items result }
{
    let quoted = quoted(alloc, name)?;
    out.extend_from_slice(b",\"name\":")?;
    out.extend_from_slice(&quoted)
}

// Appends the number of the frame of a stack, the JSON of an event, and the end of an entry.
fn push_args(alloc: Global, out: &mut Vec<u8>, told: Told<'_>) -> Result<(), AllocError>
    ensures { Appends (args_text (told_view told.entry)) out.old.items out.new.items result }
{
    push_frame(alloc, out, told.frame)?;
    out.extend_from_slice(b",\"args\":")?;
    out.extend_from_slice(told.json)?;
    out.extend_from_slice(b"}")
}

// Appends the number of a frame, where there is one.
fn push_frame(alloc: Global, out: &mut Vec<u8>, frame: usize) -> Result<(), AllocError>
    ensures { Appends (frame_text frame) out.old.items out.new.items result }
{
    if frame == 0 {
        return Ok(());
    }
    let text = format!(in alloc; ",\"sf\":{frame}")?;
    out.extend_from_slice(text.as_bytes())
}

/// Appends the entry of a counter that shows a number at a time after a first one.
pub(crate) fn push_count(
    alloc: Global,
    out: &mut Vec<u8>,
    spot: Spot,
    counter: Counter<'_>,
    shown: &[u8],
) -> Result<(), AllocError>
    requires { spot.track ≡ counter.track }
    ensures { Appends (entry_text spot.from (counts spot.at (counter_view counter.entry) shown.now))
        out.old.items out.new.items result }
{
    push_start(alloc, out, "C", spot)?;
    push_count_name(alloc, out, counter)?;
    push_count_args(alloc, out, counter, shown)
}

// Appends the name of a counter.
fn push_count_name(alloc: Global, out: &mut Vec<u8>, counter: Counter<'_>) -> Result<(), AllocError>
    ensures { Appends (name_text (count_name (counter_view counter.entry))) out.old.items
        out.new.items result }
{
    let (schema, field) = (counter.schema, counter.field);
    let name = format!(in alloc; "{schema}.{field}")?;
    push_name(alloc, out, name.as_str())
}

// Appends the track of a counter, what it shows, and the end of an entry.
fn push_count_args(
    alloc: Global,
    out: &mut Vec<u8>,
    counter: Counter<'_>,
    shown: &[u8],
) -> Result<(), AllocError>
    ensures { Appends (count_args_text (counter_view counter.entry) shown.now) out.old.items
        out.new.items result }
{
    push_count_id(alloc, out, counter.track)?;
    push_key(alloc, out, counter.field)?;
    push_shown(out, shown)
}

// Appends the track of a counter, and the beginning of what it shows.
fn push_count_id(alloc: Global, out: &mut Vec<u8>, track: usize) -> Result<(), AllocError>
    ensures { Appends (count_id_text track) out.old.items out.new.items result }
{
    let text = format!(in alloc; ",\"id\":{track},\"args\":{{")?;
    out.extend_from_slice(text.as_bytes())
}

// Appends the name of a member.
fn push_key(alloc: Global, out: &mut Vec<u8>, name: &str) -> Result<(), AllocError>
    ensures { Appends (key_text name.now) out.old.items out.new.items result }
{
    let quoted = quoted(alloc, name)?;
    out.extend_from_slice(&quoted)?;
    out.extend_from_slice(b":")
}

// Appends what a counter shows, and the end of an entry.
fn push_shown(out: &mut Vec<u8>, shown: &[u8]) -> Result<(), AllocError>
    ensures { Appends (shown.now ++ codes "}}") out.old.items out.new.items result }
{
    out.extend_from_slice(shown)?;
    out.extend_from_slice(b"}}")
}

// A text in quotes.
fn quoted(alloc: Global, text: &str) -> Result<Vec<u8>, AllocError>
    ensures { IfOk result (λ v. v.items ≡ quoted text.now) }
{
    let mut writer = Writer::new(Vec::new(alloc));
    writer.string(text)?;
    Ok(writer.into_inner())
}
