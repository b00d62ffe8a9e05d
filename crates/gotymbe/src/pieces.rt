//! Frames of an input that is read in pieces.

ghost use Rattle.std.specs.Prelude.{◌≡◌, take};
ghost use Rattle.dial9_trace_format.specs.DecodedFrames.{item_of};
ghost use Rattle.gotymbe.specs.Picks.{LearnsOf, PicksOf};
ghost use Rattle.gotymbe.specs.Reading.{IsFedEnding, IsEndingInside, IsPlaced, KeepsCause, IsEndingAgain};
ghost use Rattle.gotymbe.specs.Reading.{IsPlaceAgain};

use crate::clocks::zero_said;
use crate::input::open;
use crate::output::reads_twice;
use crate::tasks::Call;
use dial9_trace_format::decoder::{DecodeErrorKind, DecodedFrame, FeedDecoder};
use gotymbe_plan::ending::{Ending, lacks_cause};
use gotymbe_plan::picking::Picker;
use std::fs::File;
use std::io::{ErrorKind, Read};
use std::rt::{Clock, Files};
use trace_events::event::OwnedEvent;
use trace_fronts::whole::Stop;
use trace_stats::trace::TraceStats;

/// So many bytes at most are read at once.
pub(crate) const PIECE: usize = 16_384;

/// What takes frames, each with the decoder that gave it and how many bytes it took. A sink leaves out the other calls
/// where it does nothing.
pub(crate) trait FrameSink {
    /// Learns the version of the trace, before its first frame.
    fn begin(&mut self, _version: u8) -> Result<(), Ending> {
        Ok(())
    }

    /// Takes a frame; or an ending, where no more are taken.
    fn frame<'f>(
        &mut self,
        frame: &'f DecodedFrame,
        decoder: &'f FeedDecoder,
        bytes: u64,
    ) -> Result<(), Ending>;

    /// Hands on what it holds: no frame comes before more is read.
    fn settle(&mut self) -> Result<(), Ending> {
        Ok(())
    }

    /// Learns how reading ended, and how many bytes the frames have.
    fn end(&mut self, _ending: Ending, _position: usize) -> Result<(), Ending> {
        Ok(())
    }
}

/// Takes all frames, and does nothing with them.
#[derive(Drop)]
pub(crate) struct Nothing;

impl FrameSink for Nothing {
    fn frame<'f>(&mut self, _: &'f DecodedFrame, _: &'f FeedDecoder, _: u64) -> Result<(), Ending> {
        Ok(())
    }
}

/// The events that are asked for, as they come.
#[derive(Drop)]
pub(crate) struct Picked<'n> {
    picker: Picker<'n>,
}

impl<'n> Picked<'n> {
    /// All that a call asks for of a trace, by its clock's zero, if that is known.
    pub(crate) fn of(call: &'n Call<'_>, zero: Option<i64>) -> Picked<'n> {
        Picked {
            picker: Picker::new(call.wanted(), zero, call.asked.limit),
        }
    }

    /// The event that a frame is, if it is one that is asked for; an ending where as many were taken as are asked for,
    /// and where a date is asked for and no frame so far says a clock.
    #[inline(always)]
    pub(crate) fn pick<'f>(
        &mut self,
        frame: &'f DecodedFrame,
        decoder: &'f FeedDecoder,
    ) -> Result<Option<OwnedEvent<'f>>, Ending>
        ensures { PicksOf decoder.now.state (item_of frame.now)
            self.old.picker self.new.picker result }
    {
        let (registry, strings, stacks) = (
            decoder.registry(),
            decoder.string_pool(),
            decoder.stack_pool(),
        );
        let Some(event) = OwnedEvent::of_frame(frame, registry, strings, stacks) else {
            self.learn(frame, decoder);
            return Ok(None);
        };
        if self.picker.pick(event.schema.name(), event.timestamp_ns)? {
            return Ok(Some(event));
        }
        Ok(None)
    }

    /// An ending where as many events were taken as are asked for: what comes after them is not waited for.
    pub(crate) fn go_on(&self) -> Result<(), Ending> {
        self.picker.go_on()
    }

    // Learns the clock that a frame says, where a date waits for one.
    fn learn(&mut self, frame: &DecodedFrame, decoder: &FeedDecoder)
        ensures { LearnsOf decoder.now.state.grammar.wire_types (item_of frame.now)
            self.old.picker self.new.picker }
    {
        if self.picker.waits() {
            self.picker.learn(zero_said(frame, decoder));
        }
    }
}

/// Counts the events that are asked for.
#[derive(Drop)]
pub(crate) struct Tally<'n> {
    pub(crate) stats: TraceStats,
    pub(crate) picked: Picked<'n>,
}

impl FrameSink for Tally<'_> {
    fn frame<'f>(
        &mut self,
        frame: &'f DecodedFrame,
        decoder: &'f FeedDecoder,
        bytes: u64,
    ) -> Result<(), Ending> {
        let Some(event) = self.picked.pick(frame, decoder)? else {
            return Ok(());
        };
        match self.stats.add_owned(&event, bytes) {
            Ok(()) => self.picked.go_on(),
            Err(error) => Err(Ending::from(error)),
        }
    }
}

/// How the reading of a file ends, in pieces.
pub(crate) fn ending_of(
    rt: &(impl AllocGlobal + Files<File = File> + Input + Eprint + Clock),
    call: &Call<'_>,
    name: &str,
) -> Ending {
    read_named(rt, call, name, &mut Nothing)
}

/// Gives the frames of a file to a sink, and answers how reading ended.
pub(crate) fn read_named<S: FrameSink>(
    rt: &(impl AllocGlobal + Files<File = File> + Input + Eprint + Clock),
    call: &Call<'_>,
    name: &str,
    sink: &mut S,
) -> Ending {
    let ending = read_frames(rt, call, name, sink);
    placed(rt, call, name, ending)
}

/// How an input ended that a decoder was fed: all of it, or as far as that took it.
pub(crate) fn ending_by(decoder: &FeedDecoder) -> Ending
    ensures { IsFedEnding decoder.now.state result }
{
    match decoder.fault() {
        Some(fault) => Ending::of_error(*fault),
        None => {
            let rest = Ending::of_rest(decoder.version(), decoder.position(), decoder.fed_len());
            match rest {
                Ending::Unfinished(_) => ending_inside(decoder),
                _ => rest,
            }
        }
    }
}

// How an input ended whose last bytes make no frame whole, of a decoder that has not failed: by the cause why none
// stands there, if one is found.
fn ending_inside(decoder: &FeedDecoder) -> Ending
    ensures { IsEndingInside decoder.now.state result }
{
    match decoder.cause() {
        Ok(Some(error)) => Ending::of_error(error),
        Ok(None) => Ending::Unfinished(decoder.position()),
        Err(_) => Ending::OutOfMemory,
    }
}

/// The same ending of an input, and of a file at a schema that conflicts with the place where that begins: up to its
/// last byte the file is read once more. What can't be read twice, as standard input and pipes, keeps the place after
/// that schema.
pub(crate) fn placed(
    rt: &(impl AllocGlobal + Files<File = File> + Input + Eprint + Clock),
    call: &Call<'_>,
    name: &str,
    ending: Ending,
) -> Ending
    ensures { IsPlaced name.now ending result }
{
    match ending {
        Ending::Stopped(stop) => {
            if lacks_cause(ending, name) && reads_twice(rt, name) {
                return placed_stop(rt, call, name, stop);
            }
            ending
        }
        _ => ending,
    }
}

// The ending of a file at a schema that conflicts, which ends at the place that is told, with the place where that
// begins.
fn placed_stop(
    rt: &(impl AllocGlobal + Files<File = File> + Input + Eprint + Clock),
    call: &Call<'_>,
    name: &str,
    stop: Stop,
) -> Ending
    ensures { KeepsCause stop.cause result }
{
    let mut decoder = FeedDecoder::new(rt.alloc());
    let before = (stop.place as u64).saturating_sub(1);
    let again = feed_named(rt, call, name, &mut decoder, &mut Nothing, before);
    ending_again(again, place_again(&decoder, stop.place), stop.cause)
}

// The place where what conflicts begins, where a decoder was fed the file once more, up to the last byte before this
// place. Where it did not come so far again, as in a file that was changed meanwhile, it is the same place.
fn place_again(decoder: &FeedDecoder, place: usize) -> usize
    ensures { IsPlaceAgain decoder.now.state place result }
{
    if decoder.fault().is_none() && decoder.fed_len().checked_add(1) == Some(place) {
        return decoder.position();
    }
    place
}

// The ending of a file that stops by this cause at a place, where it was read once more, and reading ended so; or by
// the kind of error by which it was not opened again.
fn ending_again(again: Result<Ending, ErrorKind>, place: usize, cause: DecodeErrorKind) -> Ending
    ensures cause { KeepsCause cause result }
    ensures place { IsEndingAgain again place result }
{
    match again {
        Ok(Ending::Unread(kind)) => Ending::Unread(kind),
        Ok(Ending::OutOfMemory) => Ending::OutOfMemory,
        Ok(_) => Ending::Stopped(Stop { place, cause }),
        Err(kind) => Ending::of_unread(kind),
    }
}

// Gives the frames of a file to a sink, and answers how reading ended.
fn read_frames<S: FrameSink>(
    rt: &(impl AllocGlobal + Files<File = File> + Input + Eprint + Clock),
    call: &Call<'_>,
    name: &str,
    sink: &mut S,
) -> Ending {
    let mut decoder = FeedDecoder::new(rt.alloc());
    match feed_named(rt, call, name, &mut decoder, sink, u64::MAX) {
        Ok(ending) => match sink.end(ending, decoder.position()) {
            Ok(()) => ending,
            Err(failed) => failed,
        },
        Err(kind) => Ending::of_unread(kind),
    }
}

// Feeds so many bytes of a file to a decoder, or all that it has, and answers how reading ended; or by which kind of
// error the file can't be opened.
fn feed_named<S: FrameSink>(
    rt: &(impl AllocGlobal + Files<File = File> + Input + Eprint + Clock),
    call: &Call<'_>,
    name: &str,
    decoder: &mut FeedDecoder,
    sink: &mut S,
    most: u64,
) -> Result<Ending, ErrorKind> {
    match open(rt, call, name) {
        Ok(mut input) => {
            let ending = feed(&mut input, decoder, sink, most);
            input.finish();
            Ok(ending)
        }
        Err(error) => Err(error.kind()),
    }
}

/// Feeds so many bytes of an input to a decoder, or all that it has, and answers how reading ended.
pub(crate) fn feed<R: Read, S: FrameSink>(
    input: &mut R,
    decoder: &mut FeedDecoder,
    sink: &mut S,
    most: u64,
) -> Ending {
    let mut piece = [0; PIECE];
    let (mut left, mut end) = (most, decoder.position());
    'reads: for _ in 0..u64::MAX {
        if left == 0 {
            return ending_by(decoder);
        }
        match input.read(&mut piece) {
            Ok(0) => return ending_by(decoder),
            Ok(count) => {
                let front = front_of(&piece[..count], left);
                left = left.saturating_sub(count as u64);
                if let Err(ending) = take_piece(decoder, front, sink, &mut end) {
                    return ending;
                }
            }
            Err(error) => {
                if error.kind() != ErrorKind::Interrupted {
                    return Ending::of_unread(error.kind());
                }
            }
        }
    }
    Ending::OutOfMemory
}

// At most so many bytes of a piece.
fn front_of(piece: &[u8], most: u64) -> &[u8]
    ensures { result.now ≡ take most piece.now }
{
    match usize::try_from(most) {
        Ok(most) => piece.get(..most).unwrap_or(piece),
        Err(_) => piece,
    }
}

// Gives the frames that are whole with a piece to a sink; or an ending, where no more are read.
fn take_piece<S: FrameSink>(
    decoder: &mut FeedDecoder,
    piece: &[u8],
    sink: &mut S,
    end: &mut usize,
) -> Result<(), Ending> {
    if let Err(error) = decoder.push(piece) {
        return Err(Ending::of_error(error));
    }
    'frames: for _ in 0..u64::MAX {
        if !take_frame(decoder, sink, end)? {
            return match decoder.stuck() {
                Some(_) => Err(ending_by(decoder)),
                None => sink.settle(),
            };
        }
    }
    Ok(())
}

// Gives the next frame that is whole to a sink, and answers whether there is one; or an ending, where no more are read.
fn take_frame<S: FrameSink>(
    decoder: &mut FeedDecoder,
    sink: &mut S,
    end: &mut usize,
) -> Result<bool, Ending> {
    let begun = decoder.version().is_some();
    let pulled = decoder.next_frame();
    if !begun {
        if let Some(version) = decoder.version() {
            sink.begin(version)?;
        }
    }
    match pulled {
        Ok(Some(frame)) => hand_on(frame, decoder, sink, end),
        Ok(None) => Ok(false),
        Err(error) => Err(Ending::of_error(error)),
    }
}

// Gives a frame to a sink, with its bytes: those after the end of the frame before it, since a reset may have come with
// an earlier piece. The decoder takes it back then, whose next event has its memory.
fn hand_on<S: FrameSink>(
    frame: DecodedFrame,
    decoder: &mut FeedDecoder,
    sink: &mut S,
    end: &mut usize,
) -> Result<bool, Ending> {
    let bytes = decoder.position().saturating_sub(*end) as u64;
    *end = decoder.position();
    sink.frame(&frame, decoder, bytes)?;
    decoder.reuse(frame);
    Ok(true)
}
