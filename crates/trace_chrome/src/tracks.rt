//! Tracks, and the slices on them that are open.

ghost use Rattle.std.specs.Prelude.{◌≡◌, ◌<◌, IfOk, OnOk, IfSome, Some, length, slice_set};
ghost use Rattle.trace_chrome.specs.Tracks.{Track, new_track, place_of, inside_of, begun, ended, ended_by, track_at};

use std::alloc::{AllocError, Global};
use std::marker::Model;

/// The group of a slice that is open.
#[derive(Drop)]
pub(crate) struct Group {
    name: String,
}

impl Model for Group {
    ghost use Rattle.std.specs.Prelude.{ℕ, List, string_bytes};
    ghost use Rattle.std.specs.Coded.{coded_ℕ, coded_list};

    ghost Value = { List ℕ };

    ghost coded = { coded_list coded_ℕ };

    ghost view = { λ g. string_bytes g.name };
}

impl Group {
    // A copy of a name. `AllocError` where a growth was refused.
    fn new(alloc: Global, name: &str) -> Result<Group, AllocError>
        ensures { IfOk result (λ g. g ≡ name.now) }
    {
        Ok(Group {
            name: String::from_str(alloc, name)?,
        })
    }

    // Its name.
    fn name(&self) -> &str
        ensures { result.now ≡ self.now }
    {
        self.name.as_str()
    }
}

/// A track.
#[derive(Drop)]
pub(crate) struct Track {
    name: String,
    slices: Vec<Group>,
}

impl Model for Track {
    ghost use Rattle.std.specs.Prelude.{string_bytes};
    ghost use Rattle.trace_chrome.specs.Tracks.{Track};
    ghost use Rattle.trace_chrome.specs.parts.Codes.{coded_track};

    ghost Value = { Track };

    ghost coded = { coded_track };

    ghost view = { λ t. record { name = string_bytes t.name; slices = t.slices.items } };
}

impl Track {
    /// A track of a name, without a slice. `AllocError` where a growth was refused.
    pub(crate) fn new(alloc: Global, name: &str) -> Result<Track, AllocError>
        ensures { IfOk result (λ t. t ≡ new_track name.now) }
    {
        Ok(Track {
            name: String::from_str(alloc, name)?,
            slices: Vec::new(alloc),
        })
    }

    /// Its name.
    pub(crate) fn name(&self) -> &str
        ensures { result.now ≡ self.now.name }
    {
        self.name.as_str()
    }

    /// Begins a slice of a group. `AllocError` where a growth was refused: then nothing changes.
    pub(crate) fn begin(&mut self, alloc: Global, group: &str) -> Result<(), AllocError>
        ensures { OnOk result (self.new ≡ begun group.now self.old) }
    {
        let group = Group::new(alloc, group)?;
        self.slices.insert(0, group)?;
        Ok(())
    }

    /// Ends the innermost slice of a group and those inside it, and answers how many these are; `None` where none of
    /// the group is open. `AllocError` where a growth was refused: then nothing changes.
    pub(crate) fn end(&mut self, group: &str) -> Result<Option<usize>, AllocError>
        ensures inside { IfOk result (λ inside. inside ≡ inside_of group.now self.old.slices) }
        ensures after { OnOk result (self.new ≡ ended group.now self.old) }
    {
        let inside = self.inside_of(group);
        match inside {
            Some(count) => self.cut(count)?,
            None => {}
        }
        Ok(inside)
    }

    // How many slices are open inside the innermost one of a group.
    fn inside_of(&self, group: &str) -> Option<usize>
        ensures inside { result ≡ inside_of group.now self.now.slices }
        ensures within { IfSome result (λ n. n < length self.now.slices) }
    {
        self.slices.iter().position(|slice| slice.name() == group)
    }

    // Removes so many slices, and one more.
    fn cut(&mut self, count: usize) -> Result<(), AllocError>
        requires { count < length self.old.slices }
        ensures { OnOk result (self.new ≡ ended_by (Some count) self.old) }
    {
        let rest = self.slices.split_off(count + 1)?;
        self.slices = rest;
        Ok(())
    }

    /// How many slices are open.
    pub(crate) fn depth(&self) -> usize
        ensures { result ≡ length self.now.slices }
    {
        self.slices.len()
    }
}

/// Where the track of a name stands.
pub(crate) fn place_of(tracks: &[Track], name: &str) -> Option<usize>
    ensures place { result ≡ place_of name.now tracks.now }
    ensures within { IfSome result (λ i. i < length tracks.now) }
{
    tracks.iter().position(|track| track.name() == name)
}

/// Begins a slice of a group on a track. `AllocError` where a growth was refused.
pub(crate) fn begin_on(
    alloc: Global,
    tracks: &mut Vec<Track>,
    track: usize,
    group: &str,
) -> Result<(), AllocError>
    requires { track < length tracks.old.items }
    ensures { OnOk result (tracks.new.items
        ≡ slice_set tracks.old.items track (begun group.now (track_at tracks.old.items track))) }
{
    tracks[track].begin(alloc, group)
}

/// Ends the innermost slice of a group on a track and those inside it, and answers how many these are. `AllocError`
/// where a growth was refused.
pub(crate) fn end_on(
    tracks: &mut Vec<Track>,
    track: usize,
    group: &str,
) -> Result<Option<usize>, AllocError>
    requires { track < length tracks.old.items }
    ensures inside { IfOk result (λ inside.
        inside ≡ inside_of group.now (track_at tracks.old.items track).slices) }
    ensures after { OnOk result (tracks.new.items
        ≡ slice_set tracks.old.items track (ended group.now (track_at tracks.old.items track))) }
{
    tracks[track].end(group)
}
