//! Fields compiled into steps.

use dial9_trace_format::codec::{Step, compile};
use dial9_trace_format::schema::FieldDef;
use dial9_trace_format::types::FieldType;
use std::alloc::Global;
use std::process::Abort;

/// A field of each of these types.
fn fields_of(rt: &impl Abort, alloc: Global, types: &[FieldType]) -> Vec<FieldDef> {
    let mut fields = Vec::new(alloc);
    for field_type in types {
        let field = FieldDef::new(alloc, "f", *field_type).expect(rt, "memory");
        fields.push(field).expect(rt, "memory");
    }
    fields
}

/// Types of fields in a row, and their steps.
const LAYOUTS: [(&[FieldType], &[Step]); 2] = [
    (
        &[
            FieldType::I64,
            FieldType::Bool,
            FieldType::Varint,
            FieldType::U16,
            FieldType::OptionalU8,
            FieldType::PooledString,
            FieldType::U32,
        ],
        &[
            Step::Run {
                first: 0,
                count: 2,
                width: 9,
            },
            Step::Walk { field: 2 },
            Step::Run {
                first: 3,
                count: 1,
                width: 2,
            },
            Step::Walk { field: 4 },
            Step::Run {
                first: 5,
                count: 2,
                width: 8,
            },
        ],
    ),
    (&[], &[]),
];

#[test]
fn runs_between_fields_of_open_width(rt: HostRuntime) {
    for (types, steps) in LAYOUTS {
        let fields = fields_of(&rt, rt.alloc(), types);
        let layout = compile(rt.alloc(), &fields).expect(&rt, "no refusal");
        assert!(rt; layout.steps() == steps);
    }
}
