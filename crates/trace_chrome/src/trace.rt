//! Entries of a trace, event by event.

ghost use Rattle.std.specs.Prelude.{◌≡◌, ◌<◌, ◌+◌, ◌++◌, [], ◌∷◌, None, Some, IfOk, OnOk, length, max};
ghost use Rattle.trace_events.specs.OwnedEvents.{owned_event};
ghost use Rattle.trace_json.specs.EventJson.{IsEventJson};
ghost use Rattle.trace_json.specs.Lines.{IsLineOf, line_feed};
ghost use Rattle.trace_chrome.specs.Labels.{what_of, event_name};
ghost use Rattle.trace_chrome.specs.Tracks.{new_track, number_of, with_track, track_at};
ghost use Rattle.trace_chrome.specs.Entries.{names, entries_text, head_text, tail_text, Appends};
ghost use Rattle.trace_chrome.specs.Slices.{naming, own_by, ends_by, tracks_by, closings};
ghost use Rattle.trace_chrome.specs.Sending.{IsNumbered};
ghost use Rattle.trace_chrome.specs.Steps.{first_by, frame_of, frames_after, Takes};
ghost use Rattle.trace_chrome.specs.Trees.{IsSmall};
ghost use Rattle.trace_chrome.specs.parts.Shapes.{told_view};

use crate::counters::{Sum, push_counters};
use crate::entries::{
    Spot, Told, push_begin, push_cuts, push_end, push_head, push_instant, push_slice, push_tail,
    push_track_name,
};
use crate::frames::Frames;
use crate::labels::{What, end_by, event_name, track_name, what_of};
use crate::tracks::{Track, begin_on, end_on, place_of};
use std::alloc::{AllocError, Global};
use trace_events::event::OwnedEvent;
use trace_folded::stack::first_stack;
use trace_json::line::push_owned_event_line;

/// What the entries of a trace stand on, as far as its events were told (docs/FORMAT.md, "Chrome's format").
#[derive(Drop)]
pub struct ChromeTrace {
    alloc: Global,
    // the time of the first event
    start: Option<u64>,
    // the greatest time of an event, or of the end of a slice with a length
    last: u64,
    tracks: Vec<Track>,
    // the frames of stacks
    frames: Frames,
    // the sums of counters
    sums: Vec<Sum>,
}

impl ChromeTrace {
    /// Of no event. Takes no memory.
    pub fn new(alloc: Global) -> ChromeTrace
        ensures start { result.start ≡ None }
        ensures last { result.last ≡ 0 }
        ensures tracks { result.tracks.items ≡ [] }
        ensures frames { result.frames.all.keys ≡ [] }
        ensures sums { result.sums.items ≡ [] }
    {
        ChromeTrace {
            alloc,
            start: None,
            last: 0,
            tracks: Vec::new(alloc),
            frames: Frames::new(alloc),
            sums: Vec::new(alloc),
        }
    }

    /// Appends what stands before the entries, with a name of the whole. `AllocError` where a growth was refused.
    pub fn push_head(&self, out: &mut Vec<u8>, name: &str) -> Result<(), AllocError>
        ensures { Appends (head_text name.now) out.old.items out.new.items result }
    {
        push_head(self.alloc, out, name)
    }

    /// Appends the entries of an event. `AllocError` where a growth was refused: then the trace is good for nothing.
    pub fn push_event(
        &mut self,
        out: &mut Vec<u8>,
        event: &OwnedEvent<'_>,
    ) -> Result<(), AllocError>
        ensures { OnOk result
            (Takes (owned_event event.now) self.old self.new out.old.items out.new.items) }
    {
        let at = event.timestamp_ns;
        let from = self.start.unwrap_or(at);
        self.start = Some(from);
        self.last = later(self.last, end_by(at, what_of(event)));
        let json = event_json(self.alloc, event)?;
        let frame = frame_of(&mut self.frames, event)?;
        let told = Told { frame, json: &json };
        let name = track_name(self.alloc, event)?;
        let spot = spot_of(self.alloc, out, &mut self.tracks, name.as_str(), from, at)?;
        push_own(self.alloc, out, &mut self.tracks, event, spot, told)?;
        push_counters(self.alloc, out, &mut self.sums, event, spot)
    }

    /// Appends the ends of the slices that are open, and what stands after the entries. `AllocError` where a growth was
    /// refused.
    pub fn push_tail(&self, out: &mut Vec<u8>) -> Result<(), AllocError>
        ensures text { Appends (entries_text (first_by self.now.start 0)
            (closings self.now.last self.now.tracks.items)
            ++ tail_text (first_by self.now.start 0) self.now.frames.all.keys)
            out.old.items out.new.items result }
        ensures numbered { OnOk result (IsNumbered self.now) }
    {
        let from = self.start.unwrap_or(0);
        let frames = self.frames.text(self.alloc)?;
        push_closings(self.alloc, out, self.tracks.as_slice(), from, self.last)?;
        push_tail(self.alloc, out, from, &frames)
    }
}

// The later of two times.
fn later(one: u64, other: u64) -> u64
    ensures { result ≡ max one other }
{
    if one < other { other } else { one }
}

// The JSON of an event, as it stands in its line. `AllocError` where a growth was refused.
fn event_json(alloc: Global, event: &OwnedEvent<'_>) -> Result<Vec<u8>, AllocError>
    ensures { IfOk result (λ json. IsLineOf (IsEventJson (owned_event event.now))
        (json.items ++ line_feed ∷ [])) }
{
    let mut line = Vec::new(alloc);
    push_owned_event_line(alloc, &mut line, event)?;
    line.pop();
    Ok(line)
}

// The number of the frame of an event's stack, 0 where it has none. Frames that are new are put in. `AllocError` where
// a growth was refused.
fn frame_of(frames: &mut Frames, event: &OwnedEvent<'_>) -> Result<usize, AllocError>
    ensures number { IfOk result (λ n. n ≡ frame_of (owned_event event.now) frames.old.all.keys) }
    ensures frames { OnOk result (frames.new.all.keys
        ≡ frames_after (owned_event event.now) frames.old.all.keys) }
{
    match first_stack(event.values, event.stack_pool) {
        Some(stack) => frames.put_stack(stack),
        None => Ok(0),
    }
}

// Where an event on the track of a name lies. A new track is put in last, and its name appended. `AllocError` where a
// growth was refused.
fn spot_of(
    alloc: Global,
    out: &mut Vec<u8>,
    tracks: &mut Vec<Track>,
    name: &str,
    from: u64,
    at: u64,
) -> Result<Spot, AllocError>
    ensures spot { IfOk result (λ spot.
        spot ≡ record { track = number_of name.now tracks.old.items; from = from; at = at }) }
    ensures inside { IfOk result (λ spot. spot.track < length tracks.new.items) }
    ensures tracks { OnOk result (tracks.new.items ≡ with_track name.now tracks.old.items) }
    ensures text { Appends (entries_text from (naming name.now at tracks.old.items)) out.old.items
        out.new.items result }
{
    match place_of(tracks.as_slice(), name) {
        Some(track) => Ok(Spot { track, from, at }),
        None => {
            let track = tracks.len();
            put_track(alloc, out, tracks, name, Spot { track, from, at })
        }
    }
}

// Puts the track of a name in last, and appends its name. `AllocError` where a growth was refused.
fn put_track(
    alloc: Global,
    out: &mut Vec<u8>,
    tracks: &mut Vec<Track>,
    name: &str,
    spot: Spot,
) -> Result<Spot, AllocError>
    ensures spot { IfOk result (λ placed. placed ≡ spot) }
    ensures count { OnOk result (length tracks.new.items ≡ length tracks.old.items + 1) }
    ensures tracks { OnOk result (tracks.new.items ≡ tracks.old.items ++ new_track name.now ∷ []) }
    ensures text { Appends (entries_text spot.from (names spot.track spot.at name.now ∷ []))
        out.old.items out.new.items result }
{
    push_track_name(alloc, out, spot, name)?;
    tracks.push(Track::new(alloc, name)?)?;
    Ok(spot)
}

// Appends an event's own entries, and takes what it begins or ends. `AllocError` where a growth was refused.
fn push_own(
    alloc: Global,
    out: &mut Vec<u8>,
    tracks: &mut Vec<Track>,
    event: &OwnedEvent<'_>,
    spot: Spot,
    told: Told<'_>,
) -> Result<(), AllocError>
    requires { spot.track < length tracks.old.items }
    ensures tracks { OnOk result (tracks.new.items
        ≡ tracks_by (what_of (owned_event event.now)) spot.track tracks.old.items) }
    ensures text { Appends (entries_text spot.from (own_by (what_of (owned_event event.now))
        spot.track (track_at tracks.old.items spot.track) spot.at
        (event_name (owned_event event.now)) (told_view told.entry))) out.old.items out.new.items
        result }
{
    let name = event_name(alloc, event)?;
    match what_of(event) {
        What::Begins(group) => {
            begin_on(alloc, tracks, spot.track, group)?;
            push_begin(alloc, out, spot, name.as_str(), told)
        }
        What::Ends(group) => {
            let inside = end_on(tracks, spot.track, group)?;
            push_ends(alloc, out, spot, inside, group, told)
        }
        What::Takes(length) => push_slice(alloc, out, spot, length, name.as_str(), told),
        What::Happens => push_instant(alloc, out, spot, name.as_str(), told),
    }
}

// Appends the entries of an end: it ends so many slices inside the one of its group too.
fn push_ends(
    alloc: Global,
    out: &mut Vec<u8>,
    spot: Spot,
    inside: Option<usize>,
    group: &str,
    told: Told<'_>,
) -> Result<(), AllocError>
    ensures { Appends (entries_text spot.from
        (ends_by inside spot.track spot.at group.now (told_view told.entry))) out.old.items
        out.new.items result }
{
    match inside {
        Some(count) => {
            push_cuts(alloc, out, spot, count)?;
            push_end(alloc, out, spot, told)
        }
        None => {
            let name = format!(in alloc; "end {group}")?;
            push_instant(alloc, out, spot, name.as_str(), told)
        }
    }
}

// Appends the ends of the slices that are open on tracks.
fn push_closings(
    alloc: Global,
    out: &mut Vec<u8>,
    tracks: &[Track],
    from: u64,
    at: u64,
) -> Result<(), AllocError>
    ensures text { Appends (entries_text from (closings at tracks.now)) out.old.items
        out.new.items result }
    ensures few { OnOk result (IsSmall (length tracks.now)) }
{
    'tracks: for track in 0..tracks.len() {
        let count = tracks[track].depth();
        push_cuts(alloc, out, Spot { track, from, at }, count)?;
    }
    Ok(())
}
