//! A trace to a batch.

ghost use Rattle.std.specs.Prelude.{◌≡◌, ◌++◌, IfOk};
ghost use Rattle.trace_door.specs.Calls.{ReadsInto, TellsRead};

use crate::checking::tell_stop;
use crate::codes::{OUT_OF_MEMORY, TraceReport, empty_report, read_code};
use crate::filling::fill;
use std::alloc::{AllocError, Global};
use trace_batch::{ReadBatch, read_batch};

/// Puts what comes next in a trace into `out`, as a batch, with at most so many events, and after it the state that
/// belongs to what is left (docs/DOORS.md, "trace_read"). `state` is empty, or what such a call gave before, for what
/// was left of the trace then.
///
/// `DONE`: a batch of `length` bytes and a state of `state` bytes stand at the front of `out`; `read` bytes of the
/// trace were read. `SHORT_ROOM`: they need `length` and `state` bytes, and nothing was written. The number of a cause:
/// as `DONE`, and no frame stands after what was read. Any other: nothing was read.
#[unsafe(no_mangle)]
pub extern "C" fn trace_read(
    alloc: Global,
    state: &[u8],
    trace: &[u8],
    most: u64,
    out: &mut [u8],
    report: &mut TraceReport,
) -> u32
    ensures { ReadsInto state.now trace.now most out.old out.new report.new result }
{
    *report = empty_report();
    match read_batch(alloc, state, trace, most) {
        Ok(found) => match joined(alloc, &found.batch, &found.state) {
            Ok(bytes) => tell_read(&found, &bytes, out, report),
            Err(AllocError) => OUT_OF_MEMORY,
        },
        Err(error) => read_code(error),
    }
}

// The bytes of both.
fn joined(alloc: Global, batch: &[u8], state: &[u8]) -> Result<Vec<u8>, AllocError>
    ensures { IfOk result (λ bytes. bytes.items ≡ batch.now ++ state.now) }
{
    let mut bytes = Vec::from_slice(alloc, batch)?;
    bytes.extend_from_slice(state)?;
    Ok(bytes)
}

// Tells what was read, whose bytes these are.
fn tell_read(found: &ReadBatch, bytes: &[u8], out: &mut [u8], report: &mut TraceReport) -> u32
    requires { bytes.now ≡ found.now.batch.items ++ found.now.state.items }
    ensures { TellsRead found.now out.old out.new report.new result }
{
    report.length = found.batch.len();
    report.state = found.state.len();
    report.read = found.length;
    report.events = found.events;
    report.version = found.version;
    let code = tell_stop(found.stop, report);
    fill(out, bytes, code)
}
