//! A batch to a trace.

ghost use Rattle.trace_door.specs.Calls.{RecordsInto};

use crate::codes::{DONE, TraceReport, cause_code, cause_field, empty_report};
use crate::filling::fill;
use std::alloc::Global;
use trace_batch::record_batch;

/// Puts the trace of a batch into `out` (docs/DOORS.md, "trace_record").
///
/// `DONE`: the trace stands at the front of `out`, of `length` bytes. `SHORT_ROOM`: it needs `length` bytes. Any
/// other: the batch is refused at the record `place`, and nothing was written.
#[unsafe(no_mangle)]
pub extern "C" fn trace_record(
    alloc: Global,
    batch: &[u8],
    out: &mut [u8],
    report: &mut TraceReport,
) -> u32
    ensures { RecordsInto batch.now out.old out.new report.new result }
{
    *report = empty_report();
    match record_batch(alloc, batch) {
        Ok(trace) => {
            report.length = trace.len();
            fill(out, &trace, DONE)
        }
        Err(error) => {
            report.place = error.index;
            report.detail = cause_field(error.cause);
            cause_code(error.cause)
        }
    }
}
