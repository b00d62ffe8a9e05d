//! Lines of events, resolved, that are sent as they grow.

ghost use Rattle.std.specs.Prelude.{◌≡◌, ◌++◌, [], OnErr, OnOk, string_bytes};
ghost use Rattle.trace_events.specs.OwnedEvents.{owned_event};
ghost use Rattle.dial9_trace_format.specs.ShownEvents.{shown_event};
ghost use Rattle.trace_lines.specs.Lines.{line};
ghost use Rattle.trace_lines.specs.ResolvedLines.{resolved_line};
ghost use Rattle.trace_lines.specs.SentLines.{HoldsText};
ghost use Rattle.trace_lines.specs.parts.EventLines.{event_as};

use crate::resolved::{LineEvent, line_event, owned_line_event};
use crate::sent_lines::{ENOUGH, LineFault, Lines};
use crate::value::FieldLine;
use dial9_trace_format::decoder::RawEvent;
use std::alloc::{AllocError, Global};
use std::mem;
use trace_events::event::OwnedEvent;
use trace_values::leb128::{TraceWrite, send_all};

/// Lines that are held until there are enough of them to send. Of a long line a front is sent before all of it is made.
#[derive(Drop)]
pub struct GrowingLines {
    line: String,
    held: String,
}

impl GrowingLines {
    /// No lines.
    pub fn new(alloc: Global) -> GrowingLines
        ensures { string_bytes result.held ≡ [] }
    {
        GrowingLines {
            line: String::new(alloc),
            held: String::new(alloc),
        }
    }

    /// Holds a text after the lines that are held. `AllocError` where a growth was refused: then these stay.
    pub fn push(&mut self, text: &str) -> Result<(), AllocError>
        ensures held { OnOk result
            (string_bytes self.new.held ≡ string_bytes self.old.held ++ text.now) }
        ensures same { OnErr result (string_bytes self.new.held ≡ string_bytes self.old.held) }
    {
        self.held.push_str(text)
    }

    /// Puts a text and the line of an event, resolved, after the lines that are held, and sends all of them where they
    /// are enough; and a front of all where the line alone is. `LineFault` where a growth was refused or the writer
    /// failed: then the lines are good for nothing.
    pub fn send_event<W: TraceWrite>(
        &mut self,
        alloc: Global,
        out: &mut W,
        start: &str,
        event: &RawEvent<'_, '_>,
    ) -> Result<(), LineFault>
        ensures { HoldsText (W.told out.old) (W.told out.new) self.old self.new
            (start.now ++ line (resolved_line (shown_event event.now))) result }
    {
        self.send_line(alloc, out, start, &line_event(event))
    }

    /// Does the same of an event whose values own their memory.
    pub fn send_owned_event<W: TraceWrite>(
        &mut self,
        alloc: Global,
        out: &mut W,
        start: &str,
        event: &OwnedEvent<'_>,
    ) -> Result<(), LineFault>
        ensures { HoldsText (W.told out.old) (W.told out.new) self.old self.new
            (start.now ++ line (resolved_line (owned_event event.now))) result }
    {
        self.send_line(alloc, out, start, &owned_line_event(event))
    }

    // The same of an event as its line shows it.
    fn send_line<V: FieldLine, W: TraceWrite>(
        &mut self,
        alloc: Global,
        out: &mut W,
        start: &str,
        event: &LineEvent<'_, V>,
    ) -> Result<(), LineFault>
        ensures { HoldsText (W.told out.old) (W.told out.new) self.old self.new
            (start.now ++ line (resolved_line (event_as V.value event.now))) result }
    {
        self.hold_line(alloc, out, start, event)?;
        if self.held.len() < ENOUGH {
            return Ok(());
        }
        self.send_held(out)
    }

    // Holds a text and the line of an event, but for a front that was sent.
    fn hold_line<V: FieldLine, W: TraceWrite>(
        &mut self,
        alloc: Global,
        out: &mut W,
        start: &str,
        event: &LineEvent<'_, V>,
    ) -> Result<(), LineFault>
        ensures { HoldsText (W.told out.old) (W.told out.new) self.old self.new
            (start.now ++ line (resolved_line (event_as V.value event.now))) result }
    {
        let line = mem::replace(&mut self.line, String::new(alloc));
        let held = mem::replace(&mut self.held, String::new(alloc));
        let mut lines = Lines { line, held, out };
        let put = lines.hold_after(start, event);
        // (taken apart, so that the writer is known to be the one that was given)
        let Lines { line, held, out } = lines;
        self.line = line;
        self.held = held;
        put
    }

    /// Sends the lines that are held. `LineFault::Unsent` where the writer failed: then they are good for nothing.
    pub fn send_held<W: TraceWrite>(&mut self, out: &mut W) -> Result<(), LineFault>
        ensures sent { HoldsText (W.told out.old) (W.told out.new) self.old self.new [] result }
        ensures all { OnOk result (string_bytes self.new.held ≡ []) }
    {
        match send_all(out, self.held.as_bytes()) {
            Ok(()) => {
                self.held.clear();
                Ok(())
            }
            Err(_) => Err(LineFault::Unsent),
        }
    }
}
