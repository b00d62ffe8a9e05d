//! The example of the README.

use dial9_trace_format::decoder::{DecodeError, DecodedFrame, Decoder};
use dial9_trace_format::encoder::Encoder;
use dial9_trace_format::leb128::EncodeError;
use dial9_trace_format::schema::FieldDef;
use dial9_trace_format::types::{FieldType, FieldValue};
use std::alloc::Global;
use std::test::Fail;

/// A trace of one event, of the schema `Ev` with one number, at 1,000 nanoseconds.
fn write(alloc: Global) -> Result<Vec<u8>, EncodeError> {
    let mut fields = Vec::new(alloc);
    fields.push(FieldDef::new(alloc, "v", FieldType::Varint)?)?;
    let mut encoder = Encoder::new(alloc)?;
    let schema = encoder.register_schema("Ev", fields)?;
    encoder.write_event(&schema, 1_000, &[FieldValue::Varint(42)])?;
    Ok(encoder.finish())
}

/// All that a trace holds up to its end, or up to bytes where no frame stands.
fn read(alloc: Global, bytes: &[u8]) -> Result<Vec<DecodedFrame>, DecodeError> {
    match Decoder::new(alloc, bytes) {
        Some(mut decoder) => decoder.decode_all(),
        None => Ok(Vec::new(alloc)),
    }
}

#[test]
fn example(rt: HostRuntime) -> Result<(), Fail> {
    let trace = write(rt.alloc())?;
    assert!(rt; trace.len() == 26);
    assert!(rt; read(rt.alloc(), &trace)?.len() == 2);
    Ok(())
}
