//! The last line of a dump (docs/FORMAT.md, "Dumps").

ghost use Rattle.trace_lines.specs.Appending.{AppendsText};
ghost use Rattle.gotymbe_plan.specs.LastLines.{last_line, stop_line};

use crate::ending::Ending;
use dial9_trace_format::decoder::DecodeErrorKind;
use std::alloc::AllocError;
use trace_fronts::whole::Stop;
use trace_lines::lines::{
    push_conflict_line, push_no_header_line, push_stopped_line, push_whole_line,
};

/// Appends the last line of the dump of an input whose reading ended so, where its frames have so many bytes; nothing
/// where reading or writing failed. `AllocError` where a growth was refused.
pub fn push_last_line(out: &mut String, ending: Ending, position: usize) -> Result<(), AllocError>
    ensures { AppendsText (last_line ending position) out.old out.new result }
{
    match ending {
        Ending::Whole => push_whole_line(out),
        Ending::Stopped(stop) => push_stop_line(out, stop, position),
        Ending::Unfinished(place) => push_stopped_line(out, place),
        Ending::OutOfMemory => Ok(()),
        Ending::Unread(_) => Ok(()),
        Ending::Unwritten(_) => Ok(()),
        Ending::TooMuch => Ok(()),
        Ending::NoClock => Ok(()),
        Ending::Dumped(_) => Ok(()),
    }
}

// Appends the line of a stop.
fn push_stop_line(out: &mut String, stop: Stop, position: usize) -> Result<(), AllocError>
    ensures { AppendsText (stop_line stop.cause stop.place position) out.old out.new result }
{
    match stop.cause {
        DecodeErrorKind::NoHeader => push_no_header_line(out),
        DecodeErrorKind::Conflict(id) => push_conflict_line(out, stop.place, id),
        DecodeErrorKind::TruncatedEvent
        | DecodeErrorKind::UnknownTypeId(_)
        | DecodeErrorKind::TruncatedDelta
        | DecodeErrorKind::TimestampOverflow
        | DecodeErrorKind::TruncatedPrefix
        | DecodeErrorKind::TruncatedOptional
        | DecodeErrorKind::TruncatedValue
        | DecodeErrorKind::TruncatedReset
        | DecodeErrorKind::NoFrame(_)
        | DecodeErrorKind::OutOfMemory
        | DecodeErrorKind::InputTooLong => push_stopped_line(out, position),
    }
}
