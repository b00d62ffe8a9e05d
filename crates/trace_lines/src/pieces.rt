//! A dump of an input that is read in pieces.

ghost use Rattle.std.specs.Prelude.{◌≡◌, ◌≢◌, ◌≤◌, [], false, IfOk, IfSome, OnOk, string_bytes};
ghost use Rattle.trace_values.specs.Sending.{IsSettled};
ghost use Rattle.trace_lines.specs.Dumps.{failed_status};
ghost use Rattle.trace_lines.specs.PieceDumps.{DumpsFrontOfBytes, DumpsFrontOfRead, DumpsRead, ReadsWithin};
ghost use Rattle.trace_lines.specs.parts.PieceDumps.{IsFed, IsWaiting, AreNextLines, IsLeft};
ghost use Rattle.trace_lines.specs.parts.PieceDumps.{AppendsEnd, AppendsFirst, PulledLines, SendsPiece, SendsRead};
ghost use Rattle.trace_lines.specs.parts.PieceDumps.{CountsPiece, StuckLines};
ghost use Rattle.trace_lines.specs.parts.NextLines.{GathersSent, HoldsNext, PutsEvent, PutsNext};
ghost use Rattle.dial9_trace_format.specs.WholeEvents.{IsWholeEvent};
ghost use Rattle.dial9_trace_format.specs.CompactFrames.{compact_item_of};
ghost use Rattle.dial9_trace_format.specs.DecodedFrames.{next_as};
ghost use Rattle.dial9_trace_format.specs.Feeding.{greatest_fed, new_feed};
ghost use Rattle.trace_lines.specs.parts.Sent.{Sends};
ghost use Rattle.trace_lines.specs.Program.{DumpsAll};

use crate::dump::{CONFLICT, DumpError, FAILED, NO_HEADER, STOPPED, WHOLE};
use crate::growing::GrowingLine;
use crate::lines::{
    push_compact_line, push_conflict_line, push_first_line, push_no_header_line, push_stopped_line,
    push_whole_line,
};
use crate::sent_lines::{ENOUGH, LineFault, Lines};
use crate::spelled::push_spelled_line;
use dial9_trace_format::decoder::{
    CompactFrame, DecodeError, DecodeErrorKind, FeedDecoder, WholeEvent,
};
use std::alloc::{AllocError, Global};
use std::io::{ErrorKind, Read};
use trace_values::leb128::{TraceWrite, send_all};

// So many bytes at most are read at once.
const PIECE: usize = 4096;

// How many times an input is read at most. The check has to see that reading ends.
const MOST_READS: u64 = u64::MAX;

// What comes next of the lines.
#[derive(Clone, Copy)]
enum Next {
    // That of a frame.
    Line,
    // None, as long as no more is read.
    Wait,
    // The last, with the status.
    End(u8),
}

/// Writes the lines of all that a reader has left, as `dump` does those of the same bytes, and answers the status
/// (docs/FORMAT.md, "Dumps"). It reads at most 4,096 bytes at once, and sends the lines of all frames that are whole
/// then before it reads more. After a conflict, where no header stands, and where no frame comes of what was read,
/// whatever is read after it, it reads no more. `FAILED` comes only where a growth was refused, where the input could
/// not be read to its end, and where the writer failed: then a front of the lines was written, with no fault or one,
/// and nothing was handed on or tried again. An input of more than 2^64 - 1 bytes cannot be read to its end, and none
/// that gives no end in 2^64 - 1 reads.
pub fn dump_pieces<R: Read, W: TraceWrite>(alloc: Global, input: &mut R, out: &mut W) -> u8
    ensures lines { result ≢ failed_status
        → DumpsAll false (R.remaining input.old) (W.told out.old) (W.told out.new) result }
    ensures settled { result ≢ failed_status → IsSettled (W.told out.new) }
    ensures known { result ≤ failed_status }
    ensures front { result ≡ failed_status
        → DumpsFrontOfBytes (R.remaining input.old) (W.told out.old) (W.told out.new) }
    ensures read { result ≢ failed_status
        → DumpsRead (R.remaining input.old) (R.remaining input.new) (W.told out.old)
        (W.told out.new) result }
    ensures front_read { result ≡ failed_status
        → DumpsFrontOfRead (R.remaining input.old) (R.remaining input.new) (W.told out.old)
        (W.told out.new) }
    ensures within { result ≢ failed_status
        → ReadsWithin greatest_fed (R.remaining input.old) (R.remaining input.new) }
{
    dump_fed(alloc, &mut FeedDecoder::new(alloc), input, out)
}

/// Does the same with a decoder of the caller's, that was fed nothing. It tells afterwards why the dump ends:
/// `FeedDecoder::{fault, stuck, cause}`.
pub fn dump_fed<R: Read, W: TraceWrite>(
    alloc: Global,
    decoder: &mut FeedDecoder,
    input: &mut R,
    out: &mut W,
) -> u8
    requires unfed { decoder.old.state ≡ new_feed }
    ensures lines { result ≢ failed_status
        → DumpsAll false (R.remaining input.old) (W.told out.old) (W.told out.new) result }
    ensures settled { result ≢ failed_status → IsSettled (W.told out.new) }
    ensures known { result ≤ failed_status }
    ensures front { result ≡ failed_status
        → DumpsFrontOfBytes (R.remaining input.old) (W.told out.old) (W.told out.new) }
    ensures read { result ≢ failed_status
        → DumpsRead (R.remaining input.old) (R.remaining input.new) (W.told out.old)
        (W.told out.new) result }
    ensures front_read { result ≡ failed_status
        → DumpsFrontOfRead (R.remaining input.old) (R.remaining input.new) (W.told out.old)
        (W.told out.new) }
    ensures within { result ≢ failed_status
        → ReadsWithin greatest_fed (R.remaining input.old) (R.remaining input.new) }
{
    match send_pieces(alloc, decoder, input, out) {
        Ok(status) => match out.settle() {
            Ok(()) => status,
            Err(_) => FAILED,
        },
        Err(_) => FAILED,
    }
}

// Sends all lines.
fn send_pieces<R: Read, W: TraceWrite>(
    alloc: Global,
    decoder: &mut FeedDecoder,
    input: &mut R,
    out: &mut W,
) -> Result<u8, DumpError>
    requires { decoder.old.state ≡ new_feed }
    ensures { SendsRead (W.told out.old) (W.told out.new) (R.remaining input.old)
        (R.remaining input.new) result }
{
    let mut piece = [0; PIECE];
    'reads: for _ in 0..MOST_READS {
        match input.read(&mut piece) {
            Ok(0) => return send_last(alloc, decoder, out),
            Ok(count) => {
                if let Some(status) = send_piece(alloc, decoder, &piece[..count], out)? {
                    return Ok(status);
                }
            }
            Err(error) => {
                if error.kind() != ErrorKind::Interrupted {
                    return Err(DumpError);
                }
            }
        }
    }
    Err(DumpError)
}

// Sends the last line where the input has ended.
fn send_last<W: TraceWrite>(
    alloc: Global,
    decoder: &FeedDecoder,
    out: &mut W,
) -> Result<u8, DumpError>
    requires { IsWaiting decoder.now.state }
    ensures { Sends (W.told out.old) (W.told out.new) (IsLeft decoder.now.state []) result }
{
    let mut line = String::new(alloc);
    let status = push_last_line(&mut line, decoder)?;
    send_all(out, line.as_bytes())?;
    Ok(status)
}

// Appends the last line where the input has ended, and answers the status.
fn push_last_line(line: &mut String, decoder: &FeedDecoder) -> Result<u8, AllocError>
    requires waiting { IsWaiting decoder.now.state }
    requires empty { string_bytes line.old ≡ [] }
    ensures { IfOk result (λ status. IsLeft decoder.now.state [] status (string_bytes line.new)) }
{
    let Some(_) = decoder.version() else {
        push_no_header_line(line)?;
        return Ok(NO_HEADER);
    };
    let place = decoder.position();
    if place == decoder.fed_len() {
        push_whole_line(line)?;
        return Ok(WHOLE);
    }
    push_stopped_line(line, place)?;
    Ok(STOPPED)
}

// Sends the lines of all frames that are whole with the piece. Answers the status where they are the last.
fn send_piece<W: TraceWrite>(
    alloc: Global,
    decoder: &mut FeedDecoder,
    piece: &[u8],
    out: &mut W,
) -> Result<Option<u8>, DumpError>
    requires { IsWaiting decoder.old.state }
    ensures sends { SendsPiece (W.told out.old) (W.told out.new) decoder.old.state piece.now
        decoder.new.state result }
    ensures counts { OnOk result (CountsPiece decoder.old.state piece.now decoder.new.state) }
{
    let (line, held) = (String::new(alloc), String::new(alloc));
    let mut lines = Lines { line, held, out };
    let sent = send_gathered(alloc, decoder, piece, &mut lines);
    // (taken apart, so that the writer is known to be the one that was given)
    let Lines { line, held, out } = lines;
    sent
}

// The same by lines that hold nothing.
fn send_gathered<W: TraceWrite>(
    alloc: Global,
    decoder: &mut FeedDecoder,
    piece: &[u8],
    lines: &mut Lines<'_, W>,
) -> Result<Option<u8>, DumpError>
    requires waiting { IsWaiting decoder.old.state }
    requires empty { string_bytes lines.old.held ≡ [] }
    ensures same_writer { lines.new.out.ghost_name ≡ lines.old.out.ghost_name }
    ensures sends { SendsPiece (W.told lines.old.out.now) (W.told lines.new.out.now)
        decoder.old.state piece.now decoder.new.state result }
    ensures counts { OnOk result (CountsPiece decoder.old.state piece.now decoder.new.state) }
{
    match gather_piece(alloc, decoder, piece, lines) {
        Ok(end) => {
            send_all(lines.out, lines.held.as_bytes())?;
            Ok(end)
        }
        Err(LineFault::OutOfMemory) => {
            send_all(lines.out, lines.held.as_bytes())?;
            Err(DumpError)
        }
        Err(LineFault::Unsent) => Err(DumpError),
    }
}

// Holds the lines of all frames that are whole with the piece, and sends a front of them where there is much. Answers
// the status where they are the last.
fn gather_piece<W: TraceWrite>(
    alloc: Global,
    decoder: &mut FeedDecoder,
    piece: &[u8],
    lines: &mut Lines<'_, W>,
) -> Result<Option<u8>, LineFault>
    requires { IsWaiting decoder.old.state }
    ensures gathers { GathersSent W.told lines.old lines.new decoder.old.state piece.now
        decoder.new.state result }
    ensures counts { OnOk result (CountsPiece decoder.old.state piece.now decoder.new.state) }
{
    let Ok(()) = decoder.push(piece) else {
        return Err(LineFault::OutOfMemory);
    };
    gather_kept(alloc, decoder, lines)
}

// Holds the lines of all frames that are whole, and sends a front of them where there is much. Answers the status where
// they are the last.
fn gather_kept<W: TraceWrite>(
    alloc: Global,
    decoder: &mut FeedDecoder,
    lines: &mut Lines<'_, W>,
) -> Result<Option<u8>, LineFault>
    requires { IsFed decoder.old.state }
    ensures gathers { GathersSent W.told lines.old lines.new decoder.old.state []
        decoder.new.state result }
    ensures same { OnOk result (decoder.new.state.fed_len ≡ decoder.old.state.fed_len) }
{
    'lines: loop {
        match hold_next(alloc, decoder, lines)? {
            Next::Line => {}
            Next::Wait => return Ok(None),
            Next::End(status) => return Ok(Some(status)),
        }
    }
}

// Holds the line of the next frame, if one is whole, and before it the first line, where the header was read with it;
// or the last line.
fn hold_next<W: TraceWrite>(
    alloc: Global,
    decoder: &mut FeedDecoder,
    lines: &mut Lines<'_, W>,
) -> Result<Next, LineFault>
    requires { IsFed decoder.old.state }
    ensures holds { HoldsNext W.told lines.old lines.new decoder.old.state decoder.new.state
        result }
    ensures same { OnOk result (decoder.new.state.fed_len ≡ decoder.old.state.fed_len) }
{
    lines.line.clear();
    let next = put_next(alloc, decoder, lines)?;
    lines.held.push_str(&lines.line)?;
    Ok(next)
}

// The same in the line, which is empty.
fn put_next<W: TraceWrite>(
    alloc: Global,
    decoder: &mut FeedDecoder,
    lines: &mut Lines<'_, W>,
) -> Result<Next, LineFault>
    requires fed { IsFed decoder.old.state }
    requires empty { string_bytes lines.old.line ≡ [] }
    ensures puts { PutsNext W.told lines.old lines.new decoder.old.state decoder.new.state result }
    ensures same { OnOk result (decoder.new.state.fed_len ≡ decoder.old.state.fed_len) }
{
    match large_event(decoder) {
        Some(event) => put_event(alloc, decoder, event, lines),
        None => {
            let next = push_next_lines(&mut lines.line, decoder)?;
            // (a long line is sent at once, and not held beside itself)
            lines.put_on("")?;
            Ok(next)
        }
    }
}

// The event that stands whole at the front, if much is kept. (Any answer is right: of a small event the values take
// little, and are read sooner all at once.)
fn large_event(decoder: &mut FeedDecoder) -> Option<WholeEvent>
    ensures same { decoder.new ≡ decoder.old }
    ensures whole { IfSome result (IsWholeEvent decoder.old.state) }
{
    if decoder.fed_len().saturating_sub(decoder.position()) < ENOUGH {
        return None;
    }
    decoder.whole_event()
}

// Appends the line of the event that stands whole at the front, and goes on after it.
fn put_event<L: GrowingLine>(
    alloc: Global,
    decoder: &mut FeedDecoder,
    event: WholeEvent,
    line: &mut L,
) -> Result<Next, L::Fault>
    requires { IsWholeEvent decoder.old.state event }
    ensures puts { (whole : IsWholeEvent decoder.old.state event)
        → PutsEvent L.grows event whole.at.values line.old line.new decoder.old.state
        decoder.new.state result }
    ensures same { OnOk result (decoder.new.state.fed_len ≡ decoder.old.state.fed_len) }
{
    let Some(schema) = decoder.registry().get(event.type_id) else {
        return Err(line.refusal());
    };
    let bytes = decoder.event_values(event);
    let (id, time) = (event.type_id, event.timestamp_ns);
    push_spelled_line(alloc, line, id, time, schema.fields(), bytes)?;
    decoder.pass_event(event);
    Ok(Next::Line)
}

// Appends the line of the next frame, if one is whole, and before it the first line, where the header was read with
// it; or the last line.
fn push_next_lines(line: &mut String, decoder: &mut FeedDecoder) -> Result<Next, AllocError>
    requires fed { IsFed decoder.old.state }
    requires empty { string_bytes line.old ≡ [] }
    ensures lines { IfOk result
        (AreNextLines decoder.old.state decoder.new.state (string_bytes line.new)) }
    ensures same { OnOk result (decoder.new.state.fed_len ≡ decoder.old.state.fed_len) }
{
    let before = decoder.version();
    let frame = decoder.next_compact();
    push_first_part(line, before, decoder.version())?;
    match push_pulled_line(line, frame)? {
        Next::Wait => push_stuck_line(line, decoder),
        next => Ok(next),
    }
}

// Appends the last line where no frame comes, whatever is read.
fn push_stuck_line(line: &mut String, decoder: &FeedDecoder) -> Result<Next, AllocError>
    ensures { IfOk result
        (StuckLines decoder.now.state (string_bytes line.old) (string_bytes line.new)) }
{
    let Some(_) = decoder.stuck() else {
        return Ok(Next::Wait);
    };
    push_stopped_line(line, decoder.position())?;
    Ok(Next::End(STOPPED))
}

// Appends the first line where the version was unknown, and is known now.
fn push_first_part(
    line: &mut String,
    before: Option<u8>,
    after: Option<u8>,
) -> Result<(), AllocError>
    ensures { OnOk result (AppendsFirst before after (string_bytes line.old)
        (string_bytes line.new)) }
{
    match (before, after) {
        (None, Some(version)) => push_first_line(line, version),
        _ => Ok(()),
    }
}

// Appends the line of the frame, or the last line.
fn push_pulled_line(
    line: &mut String,
    frame: Result<Option<CompactFrame>, DecodeError>,
) -> Result<Next, AllocError>
    ensures { IfOk result
        (PulledLines (next_as compact_item_of frame) (string_bytes line.old)
        (string_bytes line.new)) }
{
    match frame {
        Ok(Some(frame)) => {
            push_compact_line(line, &frame)?;
            Ok(Next::Line)
        }
        Ok(None) => Ok(Next::Wait),
        Err(error) => Ok(Next::End(push_error_line(line, error)?)),
    }
}

// Appends the last line where the decoder told an error, and answers the status.
fn push_error_line(line: &mut String, error: DecodeError) -> Result<u8, AllocError>
    ensures { IfOk result (λ status. AppendsEnd error.pos error.kind status (string_bytes line.old)
        (string_bytes line.new)) }
{
    match error.kind {
        DecodeErrorKind::Conflict(id) => {
            push_conflict_line(line, error.pos, id)?;
            Ok(CONFLICT)
        }
        DecodeErrorKind::NoHeader => {
            push_no_header_line(line)?;
            Ok(NO_HEADER)
        }
        _ => Err(AllocError),
    }
}
