//! Writing a page that shows traces.

ghost use Rattle.std.specs.Prelude.{◌≡◌};
ghost use Rattle.gotymbe.specs.Failures.{page_ending};

use crate::clocks::{zero_of, zero_said};
use crate::output::Noted;
use crate::pieces::{FrameSink, Picked, read_named};
use crate::tasks::{Call, settle, tell};
use dial9_trace_format::decoder::{DecodedFrame, FeedDecoder};
use gotymbe_plan::ending::Ending;
use gotymbe_plan::page::{push_end, said, title_of};
use page_template::{HEAD, TAIL};
use std::alloc::AllocError;
use std::fs::File;
use std::rt::{Clock, Files};
use trace_lines::dump::WHOLE;
use trace_page::data::PageData;
use trace_page::sending::{PageError, send_page};
use trace_values::leb128::TraceWrite;

// Gathers the events that are asked for.
#[derive(Drop)]
struct Gathered<'n> {
    data: PageData,
    picked: Picked<'n>,
    // the zero of the clock that the file's first schema with one says
    zero: Option<i64>,
    // what is said of the files that did not end well
    ends: String,
}

impl Gathered<'_> {
    // Ends a file, whose clock has the zero that it said, if it said one, and says how its reading ended.
    fn end_file(&mut self, name: &str, ending: Ending) -> Result<(), AllocError> {
        let zero = self.zero;
        self.data.end_file(zero)?;
        push_end(&mut self.ends, name, ending)
    }
}

impl FrameSink for Gathered<'_> {
    fn frame<'f>(
        &mut self,
        frame: &'f DecodedFrame,
        decoder: &'f FeedDecoder,
        bytes: u64,
    ) -> Result<(), Ending> {
        if self.zero.is_none() {
            self.zero = zero_said(frame, decoder);
        }
        let Some(event) = self.picked.pick(frame, decoder)? else {
            return Ok(());
        };
        self.data.add(&event, bytes)?;
        self.picked.go_on()
    }
}

/// Writes one page of the events of all files, in the order of the files.
pub(crate) fn write_page<W: TraceWrite + Drop>(
    rt: &(impl AllocGlobal + Files<File = File> + Input + Eprint + Clock),
    call: &Call<'_>,
    written: &str,
    out: &mut Noted<W>,
) -> Result<u8, AllocError> {
    let mut gathered = Gathered {
        data: PageData::new(rt.alloc())?,
        picked: Picked::of(call, None),
        zero: None,
        ends: String::new(rt.alloc()),
    };
    match gather_all(rt, call, &mut gathered)? {
        Ok(status) => write_gathered(rt, call, gathered, written, out, status),
        Err(status) => Ok(status),
    }
}

// Gathers the events of all files, and answers the status; as an error where memory was refused.
fn gather_all<'n>(
    rt: &(impl AllocGlobal + Files<File = File> + Input + Eprint + Clock),
    call: &'n Call<'_>,
    gathered: &mut Gathered<'n>,
) -> Result<Result<u8, u8>, AllocError> {
    let mut status = WHOLE;
    for name in call.asked.files.as_slice() {
        let ending = gather(rt, call, name, gathered);
        status = status.max(tell(rt, name, ending)?);
        if ending == Ending::OutOfMemory {
            return Ok(Err(status));
        }
        gathered.end_file(name, ending)?;
    }
    Ok(Ok(status))
}

// Gathers the events of a file, and answers how its reading ends.
fn gather<'n>(
    rt: &(impl AllocGlobal + Files<File = File> + Input + Eprint + Clock),
    call: &'n Call<'_>,
    name: &str,
    gathered: &mut Gathered<'n>,
) -> Ending {
    let Ok(zero) = zero_of(rt, call, name) else {
        return Ending::OutOfMemory;
    };
    gathered.zero = zero;
    gathered.picked = Picked::of(call, zero);
    read_named(rt, call, name, gathered)
}

// Writes the page of the events that were gathered.
fn write_gathered<W: TraceWrite + Drop>(
    rt: &(impl AllocGlobal + Eprint),
    call: &Call<'_>,
    gathered: Gathered<'_>,
    written: &str,
    out: &mut Noted<W>,
    status: u8,
) -> Result<u8, AllocError> {
    let title = title_of(call.asked.title, &call.asked.files);
    let data = gathered.data.finish(title, said(&gathered.ends))?;
    match send_page(rt.alloc(), out, HEAD, &data, TAIL) {
        Ok(()) => settle(rt, written, out, status),
        Err(error) => tell(rt, written, unsent(error)),
    }
}

// The ending where a page was not sent.
fn unsent(error: PageError) -> Ending
    ensures { result ≡ page_ending error }
{
    match error {
        PageError::OutOfMemory => Ending::OutOfMemory,
        PageError::Writer(kind) => Ending::Unwritten(kind),
    }
}
