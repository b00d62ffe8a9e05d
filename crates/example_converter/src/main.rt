//! Converts the requests of a trace on standard input to a trace of their paths and durations (docs/USING.md,
//! "Converting a trace").
#![tactic(auto)]

use anyhow::{Context, Error, Result, anyhow};
use dial9_trace_format::decoder::{Decoder, TryForEachError};
use dial9_trace_format::encoder::Encoder;
use dial9_trace_format::leb128::Plain;
use std::io::{self, Read};
use trace_converter::converter::{ConvertError, Converter};
use trace_converter::rules::Rule;

/// Requests become `Served`, with two of their fields.
const RULES: [Rule; 1] = [Rule {
    from: "Request",
    to: "Served",
    slot: 1,
    fields: &[("path", "url"), ("duration", "took")],
}];

fn main(rt: HostRuntime) -> Result<()> {
    convert(&rt)
}

/// Writes the converted trace to standard output. An error where the input is no trace to its end, and where an event
/// can't be converted.
fn convert(rt: &(impl AllocGlobal + Input + Print)) -> Result<()> {
    let mut input = Vec::new(rt.alloc());
    rt.reader().read_to_end(&mut input)?;
    let decoder = Decoder::new(rt.alloc(), &input).context("no trace")?;
    write_converted(rt, decoder)
}

/// Writes what is left of a trace, converted, to standard output.
fn write_converted(rt: &(impl AllocGlobal + Print), mut decoder: Decoder<'_>) -> Result<()> {
    let encoder = Encoder::new_to(rt.alloc(), Plain(io::writer(rt)))?;
    let mut converter = Converter::new(rt.alloc(), &RULES, encoder);
    if let Err(error) = decoder.try_for_each_event(&mut converter) {
        return Err(run_error(error));
    }
    converter.into_encoder().flush()?;
    Ok(())
}

/// Why a run ended early: an event is not converted, or no frame stands at a place.
fn run_error(error: TryForEachError<ConvertError>) -> Error {
    match error {
        TryForEachError::User(error) => anyhow!("an event is not converted: {error}"),
        TryForEachError::Decode(error) => anyhow!("at {}: {}", error.pos, error.kind),
    }
}
