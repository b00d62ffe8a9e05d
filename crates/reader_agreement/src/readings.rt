//! What all readers of one trace gave, beside what the readers of its frames give.

ghost use Rattle.std.specs.Prelude.{◌≡◌, ◌↔◌, IsTrue, IfOk, map};
ghost use Rattle.std.specs.Cmp.Lexicographic.{pointwise};
ghost use Rattle.dial9_trace_format.specs.DecodedFrames.{item_of, ref_item_of, same_item};
ghost use Rattle.reader_agreement.specs.AllReaders.{IsWhole, GiveAll, FedAlike, IsShownAll, ReadsAlike};
ghost use Rattle.reader_agreement.specs.Headless.{GivesNothing, GaveNone};

use crate::causes::is_told_for;
use crate::ends::{Ended, is_same_end};
use crate::frames::{Borrowed, Owned, agree};
use crate::runs::Run;
use dial9_trace_format::decoder::{DecodeError, DecodeErrorKind, DecodedFrame, DecodedFrameRef};
use std::alloc::{AllocError, Global};

/// What a reader gave, and how it stood then.
#[derive(Clone, Copy)]
pub struct Reading {
    pub run: Run,
    /// Whether it gives nothing more.
    pub over: bool,
    /// The decoder's position.
    pub place: usize,
}

impl Reading {
    /// Whether it gave so many, all as they are wanted, ended by this error or none, stands at this place, and gives
    /// nothing more.
    pub fn is_whole(&self, given: usize, error: Option<DecodeError>, place: usize) -> bool
        ensures { IsTrue result ↔ IsWhole given error place self.now }
    {
        let ended = is_same_end(&self.run.error, &error) && self.place == place;
        self.run.same && self.run.given == given && ended && self.over
    }
}

/// What the readers of many frames, and the iterators, gave.
#[derive(Clone, Copy)]
pub struct Readings {
    /// `decode_all`.
    pub all_owned: Reading,
    /// `decode_all_ref`.
    pub all_borrowed: Reading,
    /// The iterator over frames.
    pub frames: Reading,
    /// The iterator over events.
    pub events: Reading,
}

/// Whether these gave the frames, and the events, which are so many.
pub fn give_all(owned: &Owned, borrowed: &Borrowed<'_>, events: usize, readings: &Readings) -> bool
    ensures { IsTrue result ↔ GiveAll owned.now borrowed.now events readings.now }
{
    let (place, error) = (borrowed.ended.place, borrowed.ended.error);
    let lists = readings
        .all_owned
        .is_whole(owned.frames.len(), None, owned.ended.place)
        && readings
            .all_borrowed
            .is_whole(borrowed.frames.len(), None, place);
    lists
        && readings
            .frames
            .is_whole(borrowed.frames.len(), error, place)
        && readings.events.is_whole(events, error, place)
}

/// What a decoder gave that was fed a trace in two pieces.
#[derive(Drop)]
pub struct Fed {
    pub frames: Vec<DecodedFrame>,
    /// The error that the first piece was answered with.
    pub first: Option<DecodeError>,
    /// The decoder's fault between the pieces.
    pub between: Option<DecodeError>,
    /// The error that the second piece was answered with.
    pub second: Option<DecodeError>,
    /// The decoder's fault and its position in the end.
    pub ended: Ended,
}

/// Whether the decoder gave the frames, and ended as a reader of frames does; it answered an error where it had failed
/// before.
pub fn is_fed(owned: &Owned, fed: &Fed) -> bool
    ensures { IsTrue result ↔ FedAlike owned.now fed.now }
{
    let answered = fed.first.is_none() && is_same_end(&fed.second, &fed.between);
    let ended = fed.ended.is_same(&owned.ended);
    answered && ended && are_same_frames(&fed.frames, &owned.frames)
}

/// Whether the frames are the same, in order.
pub fn are_same_frames(a: &[DecodedFrame], b: &[DecodedFrame]) -> bool
    ensures { result ≡ pointwise same_item (map item_of a.now) (map item_of b.now) }
{
    a == b
}

/// The same of frames that stay in the bytes.
pub fn are_same_refs<'v, 'b>(
    refs: &'v [DecodedFrameRef<'b>],
    others: &'v [DecodedFrameRef<'b>],
) -> bool
    ensures { result ≡ pointwise same_item (map ref_item_of refs.now) (map ref_item_of others.now) }
{
    if refs.len() != others.len() {
        return false;
    }
    for i in 0..refs.len() {
        if refs[i] != others[i] {
            return false;
        }
    }
    true
}

/// What a decoder did that was fed two pieces without a header in front.
#[derive(Clone, Copy)]
pub struct Unread {
    /// How many frames the first piece was answered with, or by which error.
    pub first: Result<usize, DecodeError>,
    /// The same of the second.
    pub second: Result<usize, DecodeError>,
    /// The decoder's position in the end.
    pub position: usize,
    /// The version that it tells then.
    pub version: Option<u8>,
}

/// Whether it gave nothing, and told what is wrong where there are five bytes. The first piece has so many bytes, and
/// both have so many.
pub fn gave_none(first: usize, whole: usize, unread: &Unread) -> bool
    ensures { IsTrue result ↔ GaveNone first whole unread.now }
{
    let answered = gives_nothing(first, &unread.first) && gives_nothing(whole, &unread.second);
    answered && unread.position == 0 && unread.version.is_none()
}

/// Whether no frame is given where so many bytes were fed; or that there is no header, where these are five or more.
fn gives_nothing(length: usize, answer: &Result<usize, DecodeError>) -> bool
    ensures { IsTrue result ↔ GivesNothing length answer.now }
{
    match answer {
        Ok(frames) => *frames == 0 && length < 5,
        Err(error) => error.kind == DecodeErrorKind::NoHeader && length >= 5,
    }
}

/// What was shown to a sink beside a reader of borrowed values.
#[derive(Clone, Copy)]
pub struct Showing {
    /// How many events.
    pub events: usize,
    /// Whether each was the next one that the reader gives, and came as it should.
    pub right: bool,
    /// The error that was told in the end, if one was.
    pub told: Option<DecodeError>,
    /// The decoder's position then.
    pub place: usize,
}

/// Whether a sink was shown so many events, all right, up to where a reader of frames ends.
pub fn is_shown_all(bytes: &[u8], events: usize, ended: &Ended, showing: &Showing) -> bool
    ensures { IsTrue result ↔ IsShownAll bytes.now events ended.now showing.now }
{
    let shown = showing.right && showing.events == events;
    shown && showing.place == ended.place && is_told_for(bytes, showing.told, ended)
}

/// What was seen of all readers but those of frames.
#[derive(Drop)]
pub struct Observed {
    pub fed: Fed,
    pub readings: Readings,
    /// Of a sink that takes all events.
    pub taking: Showing,
    /// Of a sink that refuses each.
    pub refusing: Showing,
}

/// Whether all readers of these bytes give the same, of which so many are events. `AllocError` where a growth was
/// refused.
pub fn reads_alike(
    alloc: Global,
    bytes: &[u8],
    owned: &Owned,
    borrowed: &Borrowed<'_>,
    events: usize,
    observed: &Observed,
) -> Result<bool, AllocError>
    ensures { IfOk result (λ alike. IsTrue alike
        ↔ ReadsAlike bytes.now owned.now borrowed.now events observed.now) }
{
    let same = agree(alloc, owned, borrowed)?;
    let read = is_fed(owned, &observed.fed)
        && give_all(owned, borrowed, events, &observed.readings);
    let shown = is_shown_all(bytes, events, &borrowed.ended, &observed.taking)
        && is_shown_all(bytes, events, &borrowed.ended, &observed.refusing);
    Ok(same && read && shown)
}
