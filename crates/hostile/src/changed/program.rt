//! What the program does and prints of changed traces.

ghost use Rattle.std.specs.Prelude.{◌≡◌, ◌==◌, ◌&&◌, nat_eq, nat_le, length};
ghost use Rattle.std.specs.List.{starts_with};
ghost use Rattle.hostile.specs.Answers.{end_at, magic, IsOver};

use crate::calls::{decoder_of, next_owned, place_of, step};
use crate::changed::beside::showing_of;
use crate::changed::fed::{fed_of, unread_of};
use crate::changed::reading::events_of;
use crate::changed::tally::{End, Shown, Tally};
use crate::refused::plan::HEADER;
use crate::refused::runs::{Reader, Reference, reference_of};
use dial9_trace_format::decoder::Decoder;
use md5::{Digest, Md5};
use reader_agreement::ends::Ended;
use reader_agreement::readings::{Observed, Reading, Readings, gave_none, reads_alike};
use std::alloc::{AllocError, Global};
use std::env;
use std::rt::Env;
use trace_lines::dump::{DumpForm, FAILED, Reader as Lines, dump_as};
use worked_traces::{ALL, Worked, name_of, parts_of, write_parts};

/// Each trace of so many is dumped.
const EACH: usize = 10;

const FORMS: &[DumpForm] = &[
    DumpForm::Frames(Lines::Owned),
    DumpForm::Frames(Lines::Borrowed),
    DumpForm::Events,
];

/// Changes each trace that an argument names, or all where there is none.
pub fn run_changed(rt: &(impl AllocGlobal + Env + Print)) -> anyhow::Result<bool> {
    let words: Vec<String> = env::args(rt)?.collect(rt.alloc())?;
    run_named(rt, words.get(1..).unwrap_or(&[]))
}

fn run_named(rt: &(impl AllocGlobal + Print), names: &[String]) -> anyhow::Result<bool> {
    let mut good = true;
    for worked in ALL {
        let name = name_of(worked);
        if names.is_empty() || names.iter().any(|it| it.as_str() == name) {
            good &= run_worked(rt, worked)?;
        }
    }
    Ok(good)
}

/// Changes one trace in each way, and prints what comes of it.
fn run_worked(rt: &(impl AllocGlobal + Print), worked: Worked) -> anyhow::Result<bool> {
    let alloc = rt.alloc();
    let mut changed = Changed {
        alloc,
        tally: Tally::new(),
        lines: Vec::new(alloc),
    };
    changed.change(&write_parts(alloc, &parts_of(alloc, worked)?)?)?;
    tell(rt, name_of(worked), &changed)?;
    Ok(changed.tally.is_right())
}

fn tell(rt: &(impl AllocGlobal + Print), name: &str, changed: &Changed) -> anyhow::Result<()> {
    println!(rt; "{name}: {}", changed.tally)?;
    let digest = hex::encode(rt.alloc(), &Md5::digest(&changed.lines[..]))?;
    println!(rt; "{name}: dumps {digest}")?;
    Ok(())
}

/// What the changed traces show, and the lines of the dumps of some of them.
#[derive(Drop)]
struct Changed {
    alloc: Global,
    tally: Tally,
    lines: Vec<u8>,
}

impl Changed {
    /// Changes the trace in each way.
    fn change(&mut self, bytes: &[u8]) -> Result<(), AllocError> {
        self.cut(bytes)?;
        self.replace(bytes, 0)?;
        self.replace(&with_first_again(self.alloc, bytes)?, bytes.len())
    }

    /// Cuts the trace at every place.
    fn cut(&mut self, bytes: &[u8]) -> Result<(), AllocError> {
        for place in 0..=bytes.len() {
            self.add(&bytes[..place], place / 2)?;
        }
        Ok(())
    }

    /// Puts every value in the place of every byte from this place on.
    fn replace(&mut self, bytes: &[u8], from: usize) -> Result<(), AllocError> {
        let mut changed = Vec::from_slice(self.alloc, bytes)?;
        for place in from..bytes.len() {
            self.replace_at(&mut changed, place)?;
            put(&mut changed, place, bytes[place]);
        }
        Ok(())
    }

    fn replace_at(&mut self, changed: &mut [u8], place: usize) -> Result<(), AllocError> {
        for byte in 0..=255u8 {
            put(changed, place, byte);
            self.add(changed, place)?;
        }
        Ok(())
    }

    /// Reads a trace, in two pieces cut at this place too, and dumps it if its turn has come.
    fn add(&mut self, bytes: &[u8], place: usize) -> Result<(), AllocError> {
        if self.tally.traces() % EACH == 0 {
            self.dump(bytes)?;
        }
        self.tally.add(shown(self.alloc, bytes, place)?);
        Ok(())
    }

    fn dump(&mut self, bytes: &[u8]) -> Result<(), AllocError> {
        for form in FORMS {
            if dump_as(self.alloc, bytes, &mut self.lines, *form) == FAILED {
                return Err(AllocError);
            }
        }
        Ok(())
    }
}

/// The trace, and its first frame once more: if that is a schema, another one in its place is a conflict.
fn with_first_again(alloc: Global, bytes: &[u8]) -> Result<Vec<u8>, AllocError> {
    let end = end_of_first(&mut decoder_of(alloc, bytes)?);
    let mut again = Vec::from_slice(alloc, bytes)?;
    if let Some(first) = bytes.get(HEADER..end) {
        again.extend_from_slice(first)?;
    }
    Ok(again)
}

/// The place after the first frame.
fn end_of_first(decoder: &mut Decoder<'_>) -> usize {
    let _ = next_owned(decoder);
    place_of(decoder)
}

/// Puts a byte at this place, where the bytes have that.
fn put(bytes: &mut [u8], place: usize, byte: u8) {
    if let Some(at) = bytes.get_mut(place) {
        *at = byte;
    }
}

/// What a trace shows: all readers are run to their end.
fn shown(alloc: Global, bytes: &[u8], place: usize) -> Result<Shown, AllocError> {
    match reference_of(alloc, bytes)? {
        None => shown_headless(alloc, bytes, place),
        Some(reference) => shown_of(alloc, &reference, place),
    }
}

/// Whether the bytes begin with a header of any version.
fn has_header(bytes: &[u8]) -> bool
    ensures { result ≡ (nat_le 5 (length bytes.now) && starts_with nat_eq bytes.now magic) }
{
    bytes.len() >= 5 && bytes.starts_with(b"TRC\0")
}

fn shown_headless(alloc: Global, bytes: &[u8], place: usize) -> Result<Shown, AllocError> {
    let first = place.min(bytes.len());
    let unread = unread_of(alloc, bytes, first)?;
    Ok(Shown {
        end: End::Headless,
        frames: 0,
        events: 0,
        right: gave_none(first, bytes.len(), &unread) & !has_header(bytes),
    })
}

fn shown_of(alloc: Global, reference: &Reference<'_>, place: usize) -> Result<Shown, AllocError> {
    let (bytes, owned, borrowed) = (reference.bytes, &reference.owned, &reference.borrowed);
    let events = events_of(&borrowed.frames);
    let observed = observed(alloc, reference, events, place)?;
    let alike = reads_alike(alloc, bytes, owned, borrowed, events, &observed)?;
    Ok(Shown {
        end: end_of(bytes, &owned.ended),
        frames: owned.frames.len(),
        events: reference.events.len(),
        right: alike & has_header(bytes),
    })
}

fn end_of(bytes: &[u8], ended: &Ended) -> End
    ensures { result ≡ end_at (ended.now.place == length bytes.now) ended.now.error }
{
    if ended.error.is_some() {
        return End::Conflict;
    }
    if ended.place == bytes.len() {
        End::Whole
    } else {
        End::Stopped
    }
}

/// What all readers but those of frames give of a trace, fed in two pieces cut at this place too.
fn observed(
    alloc: Global,
    reference: &Reference<'_>,
    events: usize,
    place: usize,
) -> Result<Observed, AllocError> {
    let readings = readings_of(alloc, reference)?;
    let taking = showing_of(alloc, reference.bytes, events, false)?;
    let refusing = showing_of(alloc, reference.bytes, events, true)?;
    Ok(Observed {
        fed: fed_of(alloc, reference.bytes, place)?,
        readings,
        taking,
        refusing,
    })
}

/// What readers of many frames, and iterators, give.
fn readings_of(alloc: Global, reference: &Reference<'_>) -> Result<Readings, AllocError> {
    Ok(Readings {
        all_owned: reading_of(alloc, reference, Reader::AllOwned)?,
        all_borrowed: reading_of(alloc, reference, Reader::AllBorrowed)?,
        frames: reading_of(alloc, reference, Reader::Frames)?,
        events: reading_of(alloc, reference, Reader::Events)?,
    })
}

fn reading_of(
    alloc: Global,
    reference: &Reference<'_>,
    reader: Reader,
) -> Result<Reading, AllocError> {
    let mut decoder = decoder_of(alloc, reference.bytes)?;
    Ok(reading_by(reference, reader, &mut decoder))
}

fn reading_by<'b>(reference: &Reference<'b>, reader: Reader, decoder: &mut Decoder<'b>) -> Reading {
    let run = reference.run(reader, decoder);
    Reading {
        run,
        over: is_over(reader, decoder),
        place: place_of(decoder),
    }
}

/// Whether an iterator that ended gives no more.
fn is_over(reader: Reader, decoder: &mut Decoder<'_>) -> bool
    ensures { IsOver reader decoder.old decoder.new result }
{
    match reader {
        Reader::Frames | Reader::Events => step(decoder).is_none(),
        _ => true,
    }
}
