//! Sending a trace as its events come.

ghost use Rattle.std.specs.Prelude.{◌++◌, [], IfErr, IfOk, OnOk};
ghost use Rattle.trace_values.specs.Sending.{TookOnly};
ghost use Rattle.trace_events.specs.OwnedEvents.{owned_event};
ghost use Rattle.trace_chrome.specs.Sending.{BeginsText, SendsEvent, SendsHeld, HoldsLittle, ending_text};
ghost use Rattle.trace_chrome.specs.Sending.{EventFails, HeldFails, EndFails, IsNumbered};

use crate::trace::ChromeTrace;
use std::alloc::{AllocError, Global};
use std::io::ErrorKind;
use trace_events::event::OwnedEvent;
use trace_values::leb128::{SendFault, TraceWrite, send_all};

/// So many bytes of entries are sent at once.
pub const ENOUGH: usize = 65_536;

/// Why a part of a text was not sent.
#[derive(Clone, Copy, Debug, PartialEq, Eq)]
pub enum ChromeError {
    /// A growth was refused.
    OutOfMemory,
    /// The writer failed, by this kind of error.
    Writer(ErrorKind),
}

impl From<AllocError> for ChromeError {
    ghost use Rattle.std.specs.Prelude.{◌≡◌};
    ghost use Rattle.trace_chrome.specs.declared.sending.ChromeError.TheVariants.{OutOfMemory};

    ghost from_gives = { λ _ e. e ≡ OutOfMemory };

    fn from(_: AllocError) -> ChromeError {
        ChromeError::OutOfMemory
    }
}

impl From<SendFault> for ChromeError {
    ghost use Rattle.std.specs.Prelude.{◌≡◌};
    ghost use Rattle.trace_chrome.specs.declared.sending.ChromeError.TheVariants.{Writer};

    ghost from_gives = { λ fault e. e ≡ Writer fault.kind };

    fn from(fault: SendFault) -> ChromeError {
        ChromeError::Writer(fault.kind)
    }
}

/// The text of a trace, as far as its events came. Its last entries are held until there are enough to send.
#[derive(Drop)]
pub struct ChromeText {
    trace: ChromeTrace,
    held: Vec<u8>,
}

impl ChromeText {
    /// What stands before the entries, with a name of the whole. `AllocError` where a growth was refused.
    pub fn new(alloc: Global, name: &str) -> Result<ChromeText, AllocError>
        ensures { IfOk result (BeginsText name.now) }
    {
        let trace = ChromeTrace::new(alloc);
        let mut held = Vec::new(alloc);
        trace.push_head(&mut held, name)?;
        Ok(ChromeText { trace, held })
    }

    /// Puts an event's entries after what is held, and sends all of that where it is enough: less than `ENOUGH` is held
    /// then.
    /// `ChromeError::OutOfMemory` where a growth was refused, before anything was sent, and `ChromeError::Writer` where
    /// the writer failed: then the text is good for nothing.
    pub fn send_event<W: TraceWrite>(
        &mut self,
        out: &mut W,
        event: &OwnedEvent<'_>,
    ) -> Result<(), ChromeError>
        ensures sent { OnOk result (SendsEvent (owned_event event.now) self.old self.new
            (W.told out.old) (W.told out.new)) }
        ensures held { OnOk result (HoldsLittle self.new) }
        ensures refused { IfErr result
            (EventFails W.told (owned_event event.now) self.old out.old out.new) }
    {
        self.trace.push_event(&mut self.held, event)?;
        if self.held.len() >= ENOUGH {
            return self.send_held(out);
        }
        Ok(())
    }

    /// Sends what is held. `ChromeError::Writer` where the writer failed: then the text is good for nothing.
    pub fn send_held<W: TraceWrite>(&mut self, out: &mut W) -> Result<(), ChromeError>
        ensures sent { OnOk result
            (SendsHeld self.old self.new (W.told out.old) (W.told out.new)) }
        ensures refused { IfErr result (HeldFails W.told self.old out.old out.new) }
    {
        send_all(out, &self.held)?;
        self.held.clear();
        Ok(())
    }

    /// Sends what is held, the ends of the slices that are open, and what stands after the entries. No event may come
    /// after that. `ChromeError::OutOfMemory` where a growth was refused, before anything was sent, and
    /// `ChromeError::Writer` where the writer failed: then a part may be sent.
    pub fn finish<W: TraceWrite>(&mut self, out: &mut W) -> Result<(), ChromeError>
        ensures sent { OnOk result (TookOnly (W.told out.old) (W.told out.new)
            (self.old.held.items ++ ending_text self.old.trace) []) }
        ensures numbered { OnOk result (IsNumbered self.old.trace) }
        ensures refused { IfErr result (EndFails W.told self.old out.old out.new) }
    {
        self.trace.push_tail(&mut self.held)?;
        self.send_held(out)
    }
}
