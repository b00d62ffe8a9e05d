//! What a sink is given of a trace, as recordings have it (docs/RECORDINGS.md, "The files").

ghost use Rattle.std.specs.Prelude.{◌≡◌, ◌≢◌, ◌≤◌, IfOk, IfErr, length, codes, string_bytes};
ghost use Rattle.trace_values.specs.Number.{AreBytes};
ghost use Rattle.dial9_trace_format.specs.Decoding.{StartsWith, new_decoder, rest_of};
ghost use Rattle.dial9_trace_format.specs.declared.decoder.error.DecodeErrorKind.TheVariants.{OutOfMemory};
ghost use Rattle.trace_recordings.specs.Sinks.{counts, sink_text, IsSinkText, IsStreamSink};

use dial9_trace_format::decoder::{DecodeError, DecodeErrorKind, Decoder, EventVisitor, RawEvent};
use std::alloc::{AllocError, Global};

// How many events were shown, up to the greatest number of 64 bits.
#[derive(Drop)]
struct EventCounter {
    events: u64,
}

impl<'a> EventVisitor<'a> for EventCounter {
    ghost step = { counts };

    fn event(&mut self, _event: &RawEvent<'a, '_>) {
        self.events = self.events.saturating_add(1);
    }
}

/// The lines of what a sink is given of a trace: how many events, how that ended, and at which place; or that no
/// header stands there. `AllocError` where a growth was refused, the reader's included.
pub fn sink_lines(alloc: Global, trace: &[u8]) -> Result<String, AllocError>
    ensures { IfOk result (λ lines. IsSinkText trace.now (string_bytes lines)) }
{
    match Decoder::new(alloc, trace) {
        Some(mut decoder) => stream_lines(alloc, &mut decoder),
        None => String::from_str(alloc, "no header\n"),
    }
}

// The three lines of a stream whose decoder stands after its header.
fn stream_lines(alloc: Global, decoder: &mut Decoder<'_>) -> Result<String, AllocError>
    requires starts { StartsWith decoder.old.input decoder.old.version }
    requires new { decoder.old ≡ new_decoder decoder.old.input decoder.old.version }
    requires inside { decoder.old.position ≤ length decoder.old.input }
    requires fits { AreBytes (rest_of decoder.old) }
    ensures { IfOk result (λ lines. IsStreamSink decoder.old.input (string_bytes lines)) }
{
    let mut counter = EventCounter { events: 0 };
    let ended = decoder.for_each_event(&mut counter);
    let told = told_of(alloc, &ended)?;
    told_lines(alloc, counter.events, &told, Decoder::position(decoder))
}

// The lines of so many events that were shown, of how that ended, and of the place there.
fn told_lines(alloc: Global, events: u64, told: &str, place: usize) -> Result<String, AllocError>
    ensures { IfOk result (λ lines. string_bytes lines ≡ sink_text events told.now place) }
{
    let mut lines = String::new(alloc);
    writeln!(lines, "events {events}")?;
    writeln!(lines, "{told}")?;
    writeln!(lines, "position {place}")?;
    Ok(lines)
}

// How a reader that shows events ended: `ok`, or the text of its error. Want of memory is none of them.
fn told_of(alloc: Global, ended: &Result<(), DecodeError>) -> Result<String, AllocError>
    ensures whole { IfOk result (λ told. IfOk ended.now (λ u. string_bytes told ≡ codes "ok")) }
    ensures memory { IfOk result (λ told. IfErr ended.now (λ error. error.kind ≢ OutOfMemory)) }
{
    match ended {
        Ok(()) => String::from_str(alloc, "ok"),
        Err(error) => match error.kind {
            DecodeErrorKind::OutOfMemory => Err(AllocError),
            _ => format!(in alloc; "{error}"),
        },
    }
}
