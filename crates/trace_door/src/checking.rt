//! Whether a trace is whole.

ghost use Rattle.std.specs.Prelude.{◌≡◌};
ghost use Rattle.trace_door.specs.Calls.{Checks, TellsStop, TellsVersion};

use crate::codes::{DONE, OUT_OF_MEMORY, TraceReport, empty_report, stop_code, stop_detail};
use crate::counting::events_in;
use std::alloc::Global;
use trace_batch::header_version;
use trace_fronts::whole::{Readers, Stop, whole_front};

/// How far a trace reads whole, by all readers (docs/DOORS.md, "trace_check").
///
/// `DONE`: to its end. Any other but `OUT_OF_MEMORY`: its first `length` bytes do, and the number says why no frame
/// stands there, with the place of that in `place`. `events` are those of what reads whole.
#[unsafe(no_mangle)]
pub extern "C" fn trace_check(alloc: Global, trace: &[u8], report: &mut TraceReport) -> u32
    ensures { Checks trace.now report.new result }
{
    *report = empty_report();
    let Ok(front) = whole_front(alloc, trace, Readers::Both) else {
        return OUT_OF_MEMORY;
    };
    let Ok(events) = events_in(alloc, &trace[..front.length]) else {
        return OUT_OF_MEMORY;
    };
    report.length = front.length;
    report.events = events;
    report.version = version_of(alloc, trace);
    tell_stop(front.stop, report)
}

/// The version of the header; 0 where there is none.
fn version_of(alloc: Global, trace: &[u8]) -> u8
    ensures { TellsVersion trace.now result }
{
    match header_version(alloc, trace) {
        Some(version) => version,
        None => 0,
    }
}

/// Tells why a trace does not read further, and where; nothing of one that reads whole.
pub(crate) fn tell_stop(stop: Option<Stop>, report: &mut TraceReport) -> u32
    ensures told { TellsStop stop report.new result }
    ensures length { report.new.length ≡ report.old.length }
    ensures state { report.new.state ≡ report.old.state }
    ensures read { report.new.read ≡ report.old.read }
    ensures events { report.new.events ≡ report.old.events }
    ensures version { report.new.version ≡ report.old.version }
{
    match stop {
        Some(stop) => {
            report.place = stop.place;
            report.detail = stop_detail(stop.cause);
            stop_code(stop.cause)
        }
        None => {
            report.place = 0;
            report.detail = 0;
            DONE
        }
    }
}
