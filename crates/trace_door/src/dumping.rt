//! The lines of a trace.

ghost use Rattle.trace_door.specs.Calls.{DumpsInto};

use crate::codes::{DONE, OUT_OF_MEMORY, TraceReport, empty_report};
use crate::filling::fill;
use std::alloc::Global;
use trace_lines::dump::{FAILED, dump};

/// Puts the lines of what a trace holds into `out` (docs/DOORS.md, "trace_dump"): of all frames as they are, or, with
/// `resolve`, of the events alone, texts and stacks in place of the ids of the pools.
///
/// `DONE`: the lines stand at the front of `out`, of `length` bytes. `SHORT_ROOM`: they need `length` bytes. Both have
/// the status of `tracedump` in `detail`. `OUT_OF_MEMORY`: nothing was written.
#[unsafe(no_mangle)]
pub extern "C" fn trace_dump(
    alloc: Global,
    trace: &[u8],
    resolve: bool,
    out: &mut [u8],
    report: &mut TraceReport,
) -> u32
    ensures { DumpsInto resolve trace.now out.old out.new report.new result }
{
    *report = empty_report();
    let mut lines = Vec::new(alloc);
    let status = dump(alloc, trace, &mut lines, resolve);
    if status == FAILED {
        return OUT_OF_MEMORY;
    }
    report.length = lines.len();
    report.detail = usize::from(status);
    fill(out, &lines, DONE)
}
