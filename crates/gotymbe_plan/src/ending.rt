//! How the reading of an input ended: the status, and what is told of it.

ghost use Rattle.std.specs.Prelude.{◌≡◌, ◌≢◌, ◌↔◌, ◌++◌, OnOk, IfErr, IsOk, IsTrue, codes, string_bytes};
ghost use Rattle.trace_lines.specs.Appending.{AppendsText};
ghost use Rattle.trace_lines.specs.Dumps.{failed_status};
ghost use Rattle.gotymbe_plan.specs.Endings.{stop_ending, IsErrorEnding, dump_ending, HasStatus, stop_status};
ghost use Rattle.gotymbe_plan.specs.Endings.{IsTold, AppendsLine, AppendsReason, AppendsStop};
ghost use Rattle.gotymbe_plan.specs.Endings.{start_text, cause_text, rest_ending, LacksCause, IsPlaceAlone};
ghost use Rattle.gotymbe_plan.specs.Endings.{IsConflict, AppendsUnfinished, HasTail, error_text, whole_line};
ghost use Rattle.gotymbe_plan.specs.Endings.{IsUnreadEnding, told_of};
ghost use Rattle.gotymbe_plan.specs.declared.ending.Ending.TheVariants.{Whole};
ghost use Rattle.gotymbe_plan.specs.Failures.{line_ending};
ghost use Rattle.gotymbe_plan.specs.OneLine.{AddsLine};

use crate::names::push_name;
use crate::numbers::push_grouped;
use dial9_trace_format::decoder::{DecodeError, DecodeErrorKind};
use std::alloc::{AllocError, AllocFailed};
use std::io::ErrorKind;
use trace_fronts::salvaging::SalvageError;
use trace_fronts::whole::Stop;
use trace_json::growing::LineError;
use trace_lines::dump::{CONFLICT, FAILED, NO_HEADER, STOPPED, WHOLE};
use trace_lines::sent_lines::LineFault;
use trace_stats::trace::StatsError;

/// How the reading of an input ended.
#[derive(Clone, Copy, Debug, PartialEq, Eq)]
pub enum Ending {
    /// All of it was read, or all that was asked for.
    Whole,
    /// No frame stands at a place, or a schema that conflicts.
    Stopped(Stop),
    /// A growth was refused.
    OutOfMemory,
    /// It could not be opened or read, by this kind of error.
    Unread(ErrorKind),
    /// What was made of it could not be written, by this kind of error.
    Unwritten(ErrorKind),
    /// It ends inside the frame that begins at this place.
    Unfinished(usize),
    /// A sum of what it holds would pass 2^64 - 1.
    TooMuch,
    /// A date is asked for, and no clock says which dates its times are.
    NoClock,
    /// It was dumped up to where it stops, with this status; the last line of the dump tells the place.
    Dumped(u8),
}

impl From<AllocError> for Ending {
    ghost use Rattle.gotymbe_plan.specs.declared.ending.Ending.TheVariants.{OutOfMemory};

    ghost from_gives = { λ _ e. e ≡ OutOfMemory };

    fn from(_: AllocError) -> Ending {
        Ending::OutOfMemory
    }
}

impl<T: Drop> From<AllocFailed<T>> for Ending {
    ghost use Rattle.gotymbe_plan.specs.declared.ending.Ending.TheVariants.{OutOfMemory};

    ghost from_gives = { λ _ e. e ≡ OutOfMemory };

    fn from(_: AllocFailed<T>) -> Ending {
        Ending::OutOfMemory
    }
}

impl From<SalvageError> for Ending {
    ghost use Rattle.std.specs.Prelude.{◌≡◌};
    ghost use Rattle.gotymbe_plan.specs.Failures.{salvage_ending};

    ghost from_gives = { λ error ending. ending ≡ salvage_ending error };

    fn from(error: SalvageError) -> Ending {
        match error {
            SalvageError::OutOfMemory => Ending::OutOfMemory,
            SalvageError::Writer(kind) => Ending::Unwritten(kind),
        }
    }
}

impl From<StatsError> for Ending {
    ghost use Rattle.std.specs.Prelude.{◌≡◌};
    ghost use Rattle.gotymbe_plan.specs.Failures.{stats_ending};

    ghost from_gives = { λ error ending. ending ≡ stats_ending error };

    fn from(error: StatsError) -> Ending {
        match error {
            StatsError::OutOfMemory => Ending::OutOfMemory,
            StatsError::Full => Ending::TooMuch,
        }
    }
}

impl From<LineError> for Ending {
    ghost use Rattle.std.specs.Prelude.{◌≡◌};
    ghost use Rattle.gotymbe_plan.specs.Failures.{json_ending};

    ghost from_gives = { λ error ending. ending ≡ json_ending error };

    fn from(error: LineError) -> Ending {
        match error {
            LineError::OutOfMemory => Ending::OutOfMemory,
            LineError::Writer(kind) => Ending::Unwritten(kind),
        }
    }
}

impl Ending {
    /// That of a front with this stop, or of all bytes.
    pub fn of_stop(stop: Option<Stop>) -> Ending
        ensures { result ≡ stop_ending stop }
    {
        match stop {
            Some(stop) => Ending::Stopped(stop),
            None => Ending::Whole,
        }
    }

    /// That of a decoder that told this error.
    pub fn of_error(error: DecodeError) -> Ending
        ensures { IsErrorEnding error.pos error.kind result }
    {
        match error.kind {
            DecodeErrorKind::OutOfMemory => Ending::OutOfMemory,
            _ => Ending::Stopped(Stop {
                place: error.pos,
                cause: error.kind,
            }),
        }
    }

    /// That of an input that was read to its end, where a decoder that was fed all of it tells this version, how many
    /// bytes were read, and how many it was fed.
    pub fn of_rest(version: Option<u8>, position: usize, fed_len: usize) -> Ending
        ensures { result ≡ rest_ending version position fed_len }
    {
        match version {
            None => Ending::Stopped(Stop {
                place: 0,
                cause: DecodeErrorKind::NoHeader,
            }),
            Some(_) if position == fed_len => Ending::Whole,
            Some(_) => Ending::Unfinished(position),
        }
    }

    /// That of an input that could not be opened or read, by this kind of error.
    pub fn of_unread(kind: ErrorKind) -> Ending
        ensures { IsUnreadEnding kind result }
    {
        match kind {
            ErrorKind::OutOfMemory => Ending::OutOfMemory,
            _ => Ending::Unread(kind),
        }
    }

    /// That of a line that was not held or not sent, where this kind of error came last from the writer. Where none
    /// came, it took no more bytes.
    pub fn of_line_fault(fault: LineFault, written: Option<ErrorKind>) -> Ending
        ensures { result ≡ line_ending fault written }
    {
        match fault {
            LineFault::OutOfMemory => Ending::OutOfMemory,
            LineFault::Unsent => Ending::Unwritten(written.unwrap_or(ErrorKind::WriteZero)),
        }
    }

    /// The ending as an error, unless all was read that was asked for.
    pub fn unless_whole(self) -> Result<(), Ending>
        ensures whole { IsOk result ↔ (self ≡ Whole) }
        ensures failed { IfErr result (λ ending. ending ≡ self) }
    {
        match self {
            Ending::Whole => Ok(()),
            failed => Err(failed),
        }
    }
}

/// Whether the cause by which a file ends is to be looked for in all of its bytes: where they end inside a frame,
/// where a dump tells the place alone, and at a conflict. Standard input can't be read again.
pub fn lacks_cause(ending: Ending, name: &str) -> bool
    ensures { IsTrue result ↔ LacksCause ending name.now }
{
    is_place_alone(ending) && name != "-"
}

// Whether an ending tells a place without its cause, or that after a schema that conflicts.
fn is_place_alone(ending: Ending) -> bool
    ensures { IsTrue result ↔ IsPlaceAlone ending }
{
    match ending {
        Ending::Unfinished(_) => true,
        Ending::Dumped(_) => true,
        Ending::Stopped(stop) => is_conflict(stop.cause),
        Ending::Whole => false,
        Ending::OutOfMemory => false,
        Ending::Unread(_) => false,
        Ending::Unwritten(_) => false,
        Ending::TooMuch => false,
        Ending::NoClock => false,
    }
}

// Whether a schema conflicts.
fn is_conflict(cause: DecodeErrorKind) -> bool
    ensures { IsTrue result ↔ IsConflict cause }
{
    matches!(cause, DecodeErrorKind::Conflict(_))
}

/// The name of what an ending is told of: of the input, unless what was made of it could not be written.
pub fn told_of<'a>(ending: Ending, read: &'a str, written: &'a str) -> &'a str
    ensures { result.now ≡ told_of ending read.now written.now }
{
    match ending {
        Ending::Unwritten(_) => written,
        _ => read,
    }
}

/// The ending of a dump with this status, where these kinds of errors came last from the input and from the output.
pub fn dump_ending(status: u8, read: Option<ErrorKind>, written: Option<ErrorKind>) -> Ending
    ensures { result ≡ dump_ending status read written }
{
    if status == WHOLE {
        return Ending::Whole;
    }
    if status != FAILED {
        return Ending::Dumped(status);
    }
    match (written, read) {
        (Some(kind), _) => Ending::Unwritten(kind),
        (None, Some(kind)) => Ending::Unread(kind),
        (None, None) => Ending::OutOfMemory,
    }
}

/// Whether a file is kept that was written with this status: unless that is 4.
pub fn is_kept(status: u8) -> bool
    ensures { IsTrue result ↔ (status ≢ failed_status) }
{
    status != FAILED
}

/// Whether what stands after the entries of a text is written, where reading ended so: unless memory was refused or
/// writing failed.
pub fn has_tail(ending: Ending) -> bool
    ensures { IsTrue result ↔ HasTail ending }
{
    !matches!(ending, Ending::OutOfMemory | Ending::Unwritten(_))
}

/// The status of the program: those of `tracedump`, and that of a whole trace where a pipe was closed that is written
/// to.
pub fn status_of(ending: Ending) -> u8
    ensures { HasStatus ending result }
{
    match ending {
        Ending::Whole => WHOLE,
        Ending::Stopped(stop) => stop_status(stop.cause),
        Ending::OutOfMemory => FAILED,
        Ending::Unread(_) => FAILED,
        Ending::Unwritten(kind) => {
            if kind == ErrorKind::BrokenPipe {
                WHOLE
            } else {
                FAILED
            }
        }
        Ending::Unfinished(_) => STOPPED,
        Ending::TooMuch => FAILED,
        Ending::NoClock => FAILED,
        Ending::Dumped(status) => status,
    }
}

// The status of a trace that stops.
pub(crate) fn stop_status(cause: DecodeErrorKind) -> u8
    ensures { result ≡ stop_status cause }
{
    match cause {
        DecodeErrorKind::NoHeader => NO_HEADER,
        DecodeErrorKind::Conflict(_) => CONFLICT,
        DecodeErrorKind::TruncatedEvent
        | DecodeErrorKind::UnknownTypeId(_)
        | DecodeErrorKind::TruncatedDelta
        | DecodeErrorKind::TimestampOverflow
        | DecodeErrorKind::TruncatedPrefix
        | DecodeErrorKind::TruncatedOptional
        | DecodeErrorKind::TruncatedValue
        | DecodeErrorKind::TruncatedReset
        | DecodeErrorKind::NoFrame(_)
        | DecodeErrorKind::OutOfMemory
        | DecodeErrorKind::InputTooLong => STOPPED,
    }
}

/// Appends the line that tells how the reading of a file ended, its cause and its place; nothing where it ended well,
/// or where a pipe was closed that is written to. It is one line, whatever the file's name. `AllocError` where a
/// growth was refused.
#[tactic(auto, using(crate::proofs::ToldInOneLine::line_told))]
pub fn push_message(out: &mut String, name: &str, ending: Ending) -> Result<(), AllocError>
    ensures told { IsTold ending → OnOk result
        (AppendsLine name.now ending (string_bytes out.old) (string_bytes out.new)) }
    ensures line { IsTold ending → OnOk result
        (AddsLine (string_bytes out.old) (string_bytes out.new)) }
    ensures untold { ¬ IsTold ending → string_bytes out.new ≡ string_bytes out.old }
{
    if is_told(ending) {
        return push_line(out, name, ending);
    }
    Ok(())
}

/// Appends the line that tells that a file is whole. `AllocError` where a growth was refused.
#[tactic(auto, using(crate::proofs::ToldInOneLine::whole_told))]
pub fn push_whole(out: &mut String, name: &str) -> Result<(), AllocError>
    ensures text { AppendsText (whole_line name.now) out.old out.new result }
    ensures line { OnOk result (AddsLine (string_bytes out.old) (string_bytes out.new)) }
{
    push_whole_line(out, name)
}

fn push_whole_line(out: &mut String, name: &str) -> Result<(), AllocError>
    ensures { AppendsText (whole_line name.now) out.old out.new result }
{
    push_name(out, name)?;
    out.push_str(": whole\n")
}

// Whether anything is told: not where reading ended well, or where a pipe was closed.
pub(crate) fn is_told(ending: Ending) -> bool
    ensures { IsTrue result ↔ IsTold ending }
{
    match ending {
        Ending::Whole => false,
        Ending::Unwritten(kind) => kind != ErrorKind::BrokenPipe,
        Ending::Stopped(_) => true,
        Ending::OutOfMemory => true,
        Ending::Unread(_) => true,
        Ending::Unfinished(_) => true,
        Ending::TooMuch => true,
        Ending::NoClock => true,
        Ending::Dumped(_) => true,
    }
}

// Appends the program, the file and the reason.
fn push_line(out: &mut String, name: &str, ending: Ending) -> Result<(), AllocError>
    ensures { OnOk result
        (AppendsLine name.now ending (string_bytes out.old) (string_bytes out.new)) }
{
    push_start(out, name)?;
    push_reason(out, ending)?;
    out.push('\n')
}

/// Appends the program and the file.
pub(crate) fn push_start(out: &mut String, name: &str) -> Result<(), AllocError>
    ensures { AppendsText (start_text name.now) out.old out.new result }
{
    out.push_str("gotymbe: ")?;
    push_name(out, name)?;
    out.push_str(": ")
}

// Appends why reading ended.
pub(crate) fn push_reason(out: &mut String, ending: Ending) -> Result<(), AllocError>
    ensures { OnOk result
        (AppendsReason ending (string_bytes out.old) (string_bytes out.new)) }
{
    match ending {
        Ending::Whole => out.push_str("whole"),
        Ending::Stopped(stop) => push_stop(out, stop),
        Ending::OutOfMemory => out.push_str("out of memory"),
        Ending::Unread(kind) => push_both(out, "cannot be read: ", error_text(kind)),
        Ending::Unwritten(kind) => push_both(out, "cannot be written: ", error_text(kind)),
        Ending::Unfinished(place) => push_unfinished(out, place),
        Ending::TooMuch => out.push_str("adds up to more than 64 bits hold"),
        Ending::NoClock => out.push_str("has no clock that dates can go by"),
        Ending::Dumped(_) => out.push_str("stops where the last line of its dump tells"),
    }
}

// Appends where the frame begins inside which an input ends.
fn push_unfinished(out: &mut String, place: usize) -> Result<(), AllocError>
    ensures { OnOk result
        (AppendsUnfinished place (string_bytes out.old) (string_bytes out.new)) }
{
    out.push_str("ends inside the frame at byte ")?;
    push_grouped(out, place as u64)
}

// Appends one text after another.
fn push_both(out: &mut String, first: &str, second: &str) -> Result<(), AllocError>
    ensures { AppendsText (first.now ++ second.now) out.old out.new result }
{
    out.push_str(first)?;
    out.push_str(second)
}

// Appends where no frame stands, and why.
fn push_stop(out: &mut String, stop: Stop) -> Result<(), AllocError>
    ensures { OnOk result (AppendsStop stop (string_bytes out.old) (string_bytes out.new)) }
{
    out.push_str("stops at byte ")?;
    push_grouped(out, stop.place as u64)?;
    push_after_place(out, stop.cause)
}

// Appends a colon, and why no frame stands there.
fn push_after_place(out: &mut String, cause: DecodeErrorKind) -> Result<(), AllocError>
    ensures { AppendsText (codes ": " ++ cause_text cause) out.old out.new result }
{
    out.push_str(": ")?;
    push_cause(out, cause)
}

// Appends why no frame stands there.
fn push_cause(out: &mut String, cause: DecodeErrorKind) -> Result<(), AllocError>
    ensures { AppendsText (cause_text cause) out.old out.new result }
{
    match cause {
        DecodeErrorKind::TruncatedEvent => out.push_str("truncated event frame"),
        DecodeErrorKind::UnknownTypeId(id) => write!(out, "unknown wire id {}", id.0),
        DecodeErrorKind::TruncatedDelta => out.push_str("truncated timestamp delta"),
        DecodeErrorKind::TimestampOverflow => out.push_str("timestamp overflow"),
        DecodeErrorKind::TruncatedPrefix => out.push_str("truncated optional field prefix"),
        DecodeErrorKind::TruncatedOptional => out.push_str("truncated optional field value"),
        DecodeErrorKind::TruncatedValue => out.push_str("truncated field value"),
        DecodeErrorKind::TruncatedReset => out.push_str("truncated timestamp reset"),
        DecodeErrorKind::NoFrame(tag) => write!(out, "no whole frame with tag {tag}"),
        DecodeErrorKind::Conflict(id) => write!(out, "another schema under wire id {}", id.0),
        DecodeErrorKind::OutOfMemory => out.push_str("out of memory"),
        DecodeErrorKind::NoHeader => out.push_str("no trace header"),
        DecodeErrorKind::InputTooLong => out.push_str("input too long"),
    }
}

// What is told of a kind of error.
fn error_text(kind: ErrorKind) -> &'static str
    ensures { result.now ≡ error_text kind }
{
    match kind {
        ErrorKind::NotFound => "no such file or folder",
        ErrorKind::PermissionDenied => "permission denied",
        ErrorKind::AlreadyExists => "is there already (--force writes all the same)",
        ErrorKind::IsADirectory => "is a folder",
        ErrorKind::NotADirectory => "a part of the name is no folder",
        ErrorKind::InvalidFilename => "the name is too long",
        ErrorKind::FilesystemLoop => "links lead in a circle",
        ErrorKind::StorageFull => "no space left",
        ErrorKind::ReadOnlyFilesystem => "read-only file system",
        ErrorKind::FileTooLarge => "file too large",
        ErrorKind::WriteZero => "nothing more is taken",
        ErrorKind::OutOfMemory => "out of memory",
        _ => "input or output error",
    }
}
