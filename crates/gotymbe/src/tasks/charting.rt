//! Writing events in Chrome's format.

ghost use Rattle.std.specs.Prelude.{◌≡◌, ◌↔◌, IsOk, Err};
ghost use Rattle.trace_chrome.specs.declared.sending.ChromeError.{ChromeError};
ghost use Rattle.gotymbe.specs.Failures.{chrome_ending};

use crate::clocks::zero_of;
use crate::output::Noted;
use crate::pieces::{FrameSink, Picked, read_named};
use crate::tasks::Call;
use dial9_trace_format::decoder::{DecodedFrame, FeedDecoder};
use gotymbe_plan::ending::{Ending, has_tail};
use gotymbe_plan::page::title_of;
use std::fs::File;
use std::rt::{Clock, Files};
use trace_chrome::sending::{ChromeError, ChromeText};
use trace_values::leb128::TraceWrite;

// Sends the text of the events that are asked for.
#[derive(Drop)]
struct Entries<'c, 'o, W: TraceWrite> {
    text: ChromeText,
    picked: Picked<'c>,
    out: &'o mut W,
}

impl<W: TraceWrite> FrameSink for Entries<'_, '_, W> {
    fn frame<'f>(
        &mut self,
        frame: &'f DecodedFrame,
        decoder: &'f FeedDecoder,
        _: u64,
    ) -> Result<(), Ending> {
        let Entries { text, picked, out } = self;
        let Some(event) = picked.pick(frame, decoder)? else {
            return Ok(());
        };
        sent(text.send_event(*out, &event))?;
        picked.go_on()
    }

    fn settle(&mut self) -> Result<(), Ending> {
        sent(self.text.send_held(self.out))
    }

    fn end(&mut self, ending: Ending, _: usize) -> Result<(), Ending> {
        if has_tail(ending) {
            return sent(self.text.finish(self.out));
        }
        Ok(())
    }
}

// An ending where a part of the text was not sent.
fn sent(part: Result<(), ChromeError>) -> Result<(), Ending>
    ensures sent { IsOk result ↔ IsOk part }
    ensures failed { (error : ChromeError) → part ≡ Err error
        → result ≡ Err (chrome_ending error) }
{
    match part {
        Ok(()) => Ok(()),
        Err(ChromeError::OutOfMemory) => Err(Ending::OutOfMemory),
        Err(ChromeError::Writer(kind)) => Err(Ending::Unwritten(kind)),
    }
}

/// Writes the events of a file in Chrome's format, as it is read.
pub(crate) fn chart_one<W: TraceWrite + Drop>(
    rt: &(impl AllocGlobal + Files<File = File> + Input + Eprint + Clock),
    call: &Call<'_>,
    name: &str,
    out: &mut Noted<W>,
) -> Ending {
    let title = title_of(call.asked.title, &call.asked.files);
    let Ok(text) = ChromeText::new(rt.alloc(), title) else {
        return Ending::OutOfMemory;
    };
    let Ok(zero) = zero_of(rt, call, name) else {
        return Ending::OutOfMemory;
    };
    let mut entries = Entries {
        text,
        picked: Picked::of(call, zero),
        out,
    };
    read_named(rt, call, name, &mut entries)
}
