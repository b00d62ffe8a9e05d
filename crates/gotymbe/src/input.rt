//! What is read.

ghost use Rattle.std.specs.Prelude.{◌≡◌, IsSome, IfSome};
ghost use Rattle.gotymbe_plan.specs.Progress.{IsToldOf};
ghost use Rattle.gotymbe.specs.Reading.{IsFrontEnding};

use crate::tasks::Call;
use gotymbe_plan::ending::Ending;
use gotymbe_plan::progress::{how_far, is_told_of, push_progress};
use std::alloc::Global;
use std::fs::File;
use std::io;
use std::io::{ErrorKind, Read};
use std::rt::{Clock, Files};
use std::time::Instant;
use trace_fronts::whole::{Readers, whole_front};

/// A file, or standard input.
#[derive(Drop)]
pub(crate) enum Source<I: Read + Drop> {
    /// A file.
    Named(File),
    /// Standard input.
    Standard(I),
}

impl<I: Read + Drop> Read for Source<I> {
    fn read(&mut self, buf: &mut [u8]) -> io::Result<usize> {
        match self {
            Source::Named(file) => file.read(buf),
            Source::Standard(input) => input.read(buf),
        }
    }
}

// How far reading is, as it was told.
#[derive(Clone, Copy)]
struct Meter {
    of: u64,
    done: u64,
    begun: Instant,
    percent: Option<u64>,
}

/// A reader, and the last kind of error that it gave. It tells how far it is where it has a meter.
#[derive(Drop)]
pub(crate) struct Watched<'h, H: AllocGlobal + Eprint + Clock, R: Read + Drop> {
    rt: &'h H,
    name: &'h str,
    inner: R,
    meter: Option<Meter>,
    pub(crate) error: Option<ErrorKind>,
}

impl<H: AllocGlobal + Eprint + Clock, R: Read + Drop> Watched<'_, H, R> {
    // Tells that so many bytes more were read.
    fn go_on(&mut self, count: usize) {
        if let Some(meter) = self.meter {
            self.meter = Some(meter.gone_on(self.rt, self.name, count));
        }
    }

    /// Removes what was told from the terminal.
    pub(crate) fn finish(&self) {
        if self.meter.is_some() {
            let _ = eprint!(self.rt; "\x1b[K");
        }
    }
}

impl Meter {
    // Tells how far reading is, where it is further than what was told.
    fn gone_on(self, rt: &(impl AllocGlobal + Eprint + Clock), name: &str, count: usize) -> Meter {
        let done = self.done.saturating_add(count as u64);
        let elapsed_ms = match self.begun.elapsed(rt) {
            Ok(elapsed) => u64::try_from(elapsed.as_millis()).unwrap_or(u64::MAX),
            Err(_) => 0,
        };
        let far = how_far(done, self.of, elapsed_ms);
        if self.percent != Some(far.percent) {
            let mut line = String::new(rt.alloc());
            if push_progress(&mut line, name, far).is_ok() {
                let _ = eprint!(rt; "{line}");
            }
        }
        Meter {
            done,
            percent: Some(far.percent),
            ..self
        }
    }
}

impl<H: AllocGlobal + Eprint + Clock, R: Read + Drop> Read for Watched<'_, H, R> {
    fn read(&mut self, buf: &mut [u8]) -> io::Result<usize> {
        match self.inner.read(buf) {
            Ok(count) => {
                self.go_on(count);
                Ok(count)
            }
            Err(error) => {
                self.error = Some(error.kind());
                Err(error)
            }
        }
    }
}

/// Opens a file, or standard input where the name is `-`.
pub(crate) fn open<'h, H: AllocGlobal + Files<File = File> + Input + Eprint + Clock>(
    rt: &'h H,
    call: &Call<'_>,
    name: &'h str,
) -> io::Result<Watched<'h, H, Source<H::Reader>>> {
    if name == "-" {
        return Ok(Watched {
            rt,
            name,
            inner: Source::Standard(rt.reader()),
            meter: None,
            error: None,
        });
    }
    let file = File::open(rt, name)?;
    let meter = meter_for(rt, call, file.metadata()?.len());
    Ok(Watched {
        rt,
        name,
        inner: Source::Named(file),
        meter,
        error: None,
    })
}

// What tells how far the reading of so many bytes is, if that is told.
fn meter_for(rt: &impl Clock, call: &Call<'_>, of: u64) -> Option<Meter>
    ensures told { IsSome result → IsToldOf of call.now.terminal call.now.asked.now.quiet }
    ensures begun { IfSome result (λ meter. (meter.of ≡ of) × (meter.done ≡ 0)) }
{
    if !is_told_of(of, call.terminal, call.asked.quiet) {
        return None;
    }
    match Instant::now(rt) {
        Ok(begun) => Some(Meter {
            of,
            done: 0,
            begun,
            percent: None,
        }),
        Err(_) => None,
    }
}

/// All bytes of a file, or of standard input; or why they can't be had.
pub(crate) fn read_all(
    rt: &(impl AllocGlobal + Files<File = File> + Input + Eprint + Clock),
    call: &Call<'_>,
    name: &str,
) -> Result<Vec<u8>, Ending> {
    let mut bytes = Vec::new(rt.alloc());
    let read = match open(rt, call, name) {
        Ok(mut input) => {
            let read = input.read_to_end(&mut bytes);
            input.finish();
            read
        }
        Err(error) => Err(error),
    };
    match read {
        Ok(_) => Ok(bytes),
        Err(error) => Err(Ending::of_unread(error.kind())),
    }
}

/// How the reading of bytes ends.
pub(crate) fn front_ending(alloc: Global, bytes: &[u8], readers: Readers) -> Ending
    ensures { IsFrontEnding readers bytes.now result }
{
    match whole_front(alloc, bytes, readers) {
        Ok(front) => Ending::of_stop(front.stop),
        Err(_) => Ending::OutOfMemory,
    }
}
