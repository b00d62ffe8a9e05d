//! The texts of errors that no recording shows.

use dial9_trace_format::codec::WireTypeId;
use dial9_trace_format::decoder::{DecodeError, DecodeErrorKind, TryForEachError};
use dial9_trace_format::leb128::EncodeError;
use dial9_trace_format::resolve::DeserError;
use dial9_trace_format::schema::RegisterError;
use dial9_trace_format::types::{InternedStackFrames, InternedString};
use std::alloc::Global;
use std::fmt::Display;
use std::io::ErrorKind;
use std::process::Abort;

/// The error is printed so.
fn has_text(rt: &impl Abort, alloc: Global, error: &impl Display, text: &str) -> bool {
    format!(in alloc; "{error}").expect(rt, "memory").as_str() == text
}

const ENCODING: [(EncodeError, &str); 11] = [
    (
        EncodeError::Conflict,
        "schema already registered with different definition",
    ),
    (
        EncodeError::ValueCount,
        "value count does not match schema field count",
    ),
    (
        EncodeError::Misfit { field: 3 },
        "value of field 3 does not fit its type",
    ),
    (EncodeError::TooLong, "length exceeds its width on the wire"),
    (EncodeError::IdsUsedUp, "no id is left"),
    (EncodeError::SlotTaken, "slot is held by another schema"),
    (EncodeError::SlotUntimed, "slot is held without timestamps"),
    (EncodeError::ByteCount, "byte count exceeds its range"),
    (EncodeError::OutOfMemory, "out of memory"),
    (EncodeError::Writer(ErrorKind::BrokenPipe), "writer failed"),
    (EncodeError::Failed, "encoder has failed"),
];

const REGISTERING: [(RegisterError, &str); 2] = [
    (
        RegisterError::Conflict(WireTypeId(9)),
        "type_id WireTypeId(9) already registered with different schema",
    ),
    (RegisterError::OutOfMemory, "out of memory"),
];

#[test]
fn errors_of_encoding(rt: HostRuntime) {
    for (error, text) in ENCODING {
        assert!(rt; has_text(&rt, rt.alloc(), &error, text));
    }
}

#[test]
fn errors_of_registering(rt: HostRuntime) {
    for (error, text) in REGISTERING {
        assert!(rt; has_text(&rt, rt.alloc(), &error, text));
    }
}

/// Errors of a decoder that is fed in pieces that recordings have not.
const FEEDING: [(DecodeError, &str); 3] = [
    (
        DecodeError {
            pos: 0,
            kind: DecodeErrorKind::NoHeader,
        },
        "decode error at byte 0: no trace header",
    ),
    (
        DecodeError {
            pos: 26,
            kind: DecodeErrorKind::InputTooLong,
        },
        "decode error at byte 26: input exceeds its range",
    ),
    (
        DecodeError {
            pos: 19,
            kind: DecodeErrorKind::OutOfMemory,
        },
        "decode error at byte 19: out of memory",
    ),
];

#[test]
fn errors_of_feeding(rt: HostRuntime) {
    for (error, text) in FEEDING {
        assert!(rt; has_text(&rt, rt.alloc(), &error, text));
    }
}

/// Errors of a reader that shows events to a sink that recordings have not: want of memory, and the sink's own.
const SHOWING: [(TryForEachError<EncodeError>, &str); 2] = [
    (
        TryForEachError::Decode(DecodeError {
            pos: 7,
            kind: DecodeErrorKind::OutOfMemory,
        }),
        "decode error at byte 7: out of memory",
    ),
    (
        TryForEachError::User(EncodeError::Failed),
        "encoder has failed",
    ),
];

#[test]
fn errors_of_showing(rt: HostRuntime) {
    for (error, text) in SHOWING {
        assert!(rt; has_text(&rt, rt.alloc(), &error, text));
    }
}

#[test]
fn errors_of_resolving(rt: HostRuntime) {
    let cases = [
        (
            DeserError::UnknownString(InternedString::from_raw(7)),
            "PooledString id pool#7 not found in string pool",
        ),
        (
            DeserError::UnknownStack(InternedStackFrames::from_raw(4)),
            "PooledStackFrames id stack#4 not found in stack pool",
        ),
        (
            DeserError::SchemaShort,
            "schema has fewer fields than the event",
        ),
        (DeserError::OutOfMemory, "out of memory"),
    ];
    for (error, text) in cases {
        assert!(rt; has_text(&rt, rt.alloc(), &error, text));
    }
}
