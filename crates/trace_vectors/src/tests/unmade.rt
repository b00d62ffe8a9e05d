//! Events of a type that is known: no schema is made for them.

use crate::tests::calls::{fresh, put};
use dial9_trace_format::definition::Definition;
use dial9_trace_format::encoder::Encoder;
use dial9_trace_format::leb128::EncodeError;
use dial9_trace_format::schema::{FieldDef, SchemaEntry};
use dial9_trace_format::types::EventEncoder;
use dial9_trace_format::{STATIC_WIRE_ID_LIMIT, TraceEvent};
use std::alloc::{AllocError, Global};
use std::process::Abort;
use trace_samples::events::{Annotated, ByName, FastSlot, Nameless};

/// An event of another type, of which no schema can be made.
#[derive(Drop)]
struct Unmade<T: Drop>(T);

impl<T: TraceEvent + Drop> TraceEvent for Unmade<T> {
    ghost slot = { T.slot };

    ghost entry = { T.entry };

    ghost time = { λ e. T.time e.0 };

    ghost values = { λ e. T.values e.0 };

    ghost one_each = { λ e. T.one_each e.0 };

    fn type_slot() -> u16 {
        T::type_slot()
    }

    fn definition() -> Definition {
        T::definition()
    }

    fn field_defs(_alloc: Global) -> Result<Vec<FieldDef>, AllocError> {
        Err(AllocError)
    }

    fn schema_entry(_alloc: Global) -> Result<SchemaEntry, AllocError> {
        Err(AllocError)
    }

    fn is_entry(other: &SchemaEntry) -> bool {
        T::is_entry(other)
    }

    fn timestamp(&self) -> u64 {
        self.0.timestamp()
    }

    fn encode_fields(&self, enc: &mut EventEncoder<'_>) -> Result<(), EncodeError> {
        self.0.encode_fields(enc)
    }
}

/// The event is refused, and nothing is written.
fn is_refused<T: TraceEvent>(encoder: &mut Encoder, unmade: &T) -> bool {
    let refused = put(encoder, unmade).err();
    refused == Some(EncodeError::OutOfMemory) && Encoder::bytes_written(encoder) == 5
}

/// How many bytes two such events have.
fn count_of_two<T: TraceEvent>(rt: &impl Abort, encoder: &mut Encoder, unmade: &T) -> u64 {
    let before = Encoder::bytes_written(encoder);
    put(encoder, unmade).expect(rt, "no refusal");
    put(encoder, unmade).expect(rt, "no refusal");
    Encoder::bytes_written(encoder).saturating_sub(before)
}

/// Before the type is known the event is refused, and nothing is written; after it two such events are written.
fn check_known<T: TraceEvent + Drop>(
    rt: &impl Abort,
    alloc: Global,
    unmade: &Unmade<T>,
    length: u64,
) {
    let mut encoder = fresh(rt, alloc);
    assert!(rt; is_refused(&mut encoder, unmade));
    put(&mut encoder, &unmade.0).expect(rt, "no refusal");
    assert!(rt; count_of_two(rt, &mut encoder, unmade) == length);
}

/// Two types of a slot, and two of a name.
#[test]
fn no_schema_of_a_known_type(rt: HostRuntime) {
    assert!(rt; STATIC_WIRE_ID_LIMIT == 256);
    let fast = Unmade(FastSlot { time: 1 });
    check_known(&rt, rt.alloc(), &fast, 12);
    let load = Unmade(Annotated { time: 1, load: 2 });
    check_known(&rt, rt.alloc(), &load, 14);
    let other = Unmade(ByName { time: 1 });
    check_known(&rt, rt.alloc(), &other, 12);
    let flag = Unmade(Nameless {
        time: 1,
        flag: true,
    });
    check_known(&rt, rt.alloc(), &flag, 14)
}
