//! Lines that are held before they are sent, and sent as they grow.

ghost use Rattle.std.specs.Prelude.{◌≡◌, [], ◌++◌, string_bytes};
ghost use Rattle.dial9_trace_format.specs.LongEvents.{long_event};
ghost use Rattle.dial9_trace_format.specs.ShownEvents.{shown_event};
ghost use Rattle.trace_lines.specs.Lines.{line};
ghost use Rattle.trace_lines.specs.ResolvedLines.{resolved_line};
ghost use Rattle.trace_lines.specs.declared.sent_lines.LineFault.TheVariants.{OutOfMemory};
ghost use Rattle.trace_lines.specs.parts.EventLines.{event_as};
ghost use Rattle.trace_lines.specs.parts.Listed.{listed_value};
ghost use Rattle.trace_lines.specs.parts.SentLines.{GoOut, LineGrows, HoldsEvent, takes_event};
ghost use Rattle.trace_lines.specs.parts.LineLaws.{line_empty, line_joins, line_stops};

use crate::growing::{GrowingLine, LinePart};
use crate::listed::{ListedValue, long_line_event};
use crate::resolved::{LineEvent, line_event, push_event_in_full};
use crate::value::FieldLine;
use dial9_trace_format::decoder::{EventSink, LongEvent, LongEventSink, RawEvent};
use std::alloc::AllocError;
use trace_values::leb128::{TraceWrite, send_all};

/// So many bytes of lines are sent at once. Only the last line that was held goes past it, or the last value of a line.
pub(crate) const ENOUGH: usize = 65_536;

/// Why a line does not grow.
#[derive(Clone, Copy, Debug, PartialEq, Eq)]
pub enum LineFault {
    /// A growth was refused.
    OutOfMemory,
    /// The writer failed. It knows by which error.
    Unsent,
}

impl From<AllocError> for LineFault {
    ghost from_gives = { λ _ e. e ≡ OutOfMemory };

    fn from(_: AllocError) -> LineFault {
        LineFault::OutOfMemory
    }
}

/// Why the lines take no more events for now.
#[derive(Clone, Copy)]
pub(crate) enum LinesRefusal {
    /// There are enough of them, this one's among them.
    Enough,
    /// This one's was not held.
    Fault(LineFault),
}

/// Lines that are held before they are sent, the one that is being made, and their writer. Of a long line a front is
/// sent before all of it is made.
#[derive(Drop)]
pub(crate) struct Lines<'w, W> {
    pub(crate) line: String,
    pub(crate) held: String,
    pub(crate) out: &'w mut W,
}

impl<'w, W: TraceWrite> GrowingLine for Lines<'w, W> {
    type Fault = LineFault;

    ghost grows = { LineGrows W.told };

    ghost empty = { line_empty W.told };

    ghost joins = { line_joins W.told };

    ghost stops = { line_stops W.told };

    #[inline(always)]
    fn put<P: LinePart>(&mut self, part: P) -> Result<(), LineFault> {
        part.push_to(&mut self.line)?;
        Ok(())
    }

    #[inline(always)]
    fn put_on<P: LinePart>(&mut self, part: P) -> Result<(), LineFault> {
        self.put(part)?;
        if self.line.len() < ENOUGH {
            return Ok(());
        }
        self.send_line()
    }

    fn refuse(&mut self) -> Result<(), LineFault> {
        Err(LineFault::OutOfMemory)
    }

    fn refusal(&self) -> LineFault {
        LineFault::OutOfMemory
    }
}

impl<'w, W: TraceWrite> Lines<'w, W> {
    // Sends what is held, and what there is of the line.
    #[inline(never)]
    fn send_line(&mut self) -> Result<(), LineFault>
        ensures { LineGrows W.told self.old [] result self.new }
    {
        match send_all(self.out, self.held.as_bytes()) {
            Ok(()) => self.held.clear(),
            Err(_) => return Err(LineFault::Unsent),
        }
        match send_all(self.out, self.line.as_bytes()) {
            Ok(()) => self.line.clear(),
            Err(_) => return Err(LineFault::Unsent),
        }
        Ok(())
    }

    // Holds the line of the event, resolved.
    fn hold(&mut self, event: &RawEvent<'_, '_>) -> Result<(), LineFault>
        ensures { HoldsEvent W.told self.old (shown_event event.now) result self.new }
    {
        self.hold_after("", &line_event(event))
    }

    // The same of a long event.
    fn hold_long(&mut self, event: &LongEvent<'_, ListedValue<'_>>) -> Result<(), LineFault>
        ensures { HoldsEvent W.told self.old (long_event listed_value event.now) result self.new }
    {
        self.hold_after("", &long_line_event(event))
    }

    /// Holds a text and then the line of the event, resolved.
    pub(crate) fn hold_after<V: FieldLine>(
        &mut self,
        start: &str,
        event: &LineEvent<'_, V>,
    ) -> Result<(), LineFault>
        ensures { GoOut W.told self.old self.new (string_bytes self.old.held
            ++ (start.now ++ line (resolved_line (event_as V.value event.now))))
            (string_bytes self.new.held) result }
    {
        self.line.clear();
        self.put(start)?;
        push_event_in_full(self, event)?;
        self.held.push_str(&self.line)?;
        Ok(())
    }
}

// Holds the line of each event, resolved.
impl<'a, 'w, W: TraceWrite> EventSink<'a, LinesRefusal> for Lines<'w, W> {
    ghost step = { takes_event W.told };

    fn event(&mut self, event: &RawEvent<'a, '_>) -> Result<(), LinesRefusal> {
        match self.hold(event) {
            Ok(()) => {}
            Err(fault) => return Err(LinesRefusal::Fault(fault)),
        }
        if self.held.len() >= ENOUGH {
            return Err(LinesRefusal::Enough);
        }
        Ok(())
    }
}

// Holds the line of each long event, resolved. A list of ids of texts takes no memory.
impl<'a, 'w, W: TraceWrite> LongEventSink<'a, ListedValue<'a>, LinesRefusal> for Lines<'w, W> {
    fn long_event(&mut self, event: &LongEvent<'_, ListedValue<'a>>) -> Result<(), LinesRefusal> {
        if let Err(fault) = self.hold_long(event) {
            return Err(LinesRefusal::Fault(fault));
        }
        if self.held.len() < ENOUGH {
            return Ok(());
        }
        Err(LinesRefusal::Enough)
    }
}
