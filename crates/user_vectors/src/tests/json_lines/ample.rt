//! With ample memory each kind of value makes its line at each size, as Python's `json` writes it, by a sink.
//! `tools/tool_runs --ample` compares those of frames.

use crate::tests::json_lines::has_lines;
use crate::tests::made::{put_numbers, sized};
use dial9_trace_format::encoder::Encoder;
use dial9_trace_format::types::FieldType;
use std::alloc::Global;
use std::process::Abort;

/// Sizes of values, and counts of fields and events.
const SIZES: [usize; 24] = [
    0, 1, 2, 3, 4, 5, 6, 7, 8, 9, 10, 11, 12, 13, 14, 15, 16, 17, 18, 19, 20, 255, 256, 4_097,
];

/// How a value is written: what stands before its parts, each of them, what stands between two, and what stands after
/// them.
#[derive(Clone, Copy)]
struct Form<'a> {
    open: &'a str,
    part: &'a str,
    between: &'a str,
    close: &'a str,
}

const TEXT: Form<'static> = Form {
    open: "\"",
    part: "x",
    between: "",
    close: "\"",
};

const BYTES: Form<'static> = Form {
    open: "{\"hex\":\"",
    part: "07",
    between: "",
    close: "\"}",
};

const STACK: Form<'static> = Form {
    open: "[",
    part: "\"0x7\"",
    between: ",",
    close: "]",
};

const TEXTS: Form<'static> = Form {
    open: "[",
    part: "[\"k\",\"v\"]",
    between: ",",
    close: "]",
};

const LIST: Form<'static> = Form {
    open: "[",
    part: "true",
    between: ",",
    close: "]",
};

const MAP: Form<'static> = Form {
    open: "[",
    part: "[true,7]",
    between: ",",
    close: "]",
};

/// Types of fields whose values have a size, each with the form of these.
const FORMS: [(FieldType, Form<'static>); 8] = [
    (FieldType::String, TEXT),
    (FieldType::PooledString, TEXT),
    (FieldType::Bytes, BYTES),
    (FieldType::StackFrames, STACK),
    (FieldType::PooledStackFrames, STACK),
    (FieldType::StringMap, TEXTS),
    (FieldType::DynamicList, LIST),
    (FieldType::DynamicMap, MAP),
];

/// Appends the text.
fn put(rt: &impl Abort, line: &mut String, text: &str) {
    line.push_str(text).expect(rt, "memory");
}

/// Appends so many parts, with what stands between two.
fn put_parts(rt: &impl Abort, line: &mut String, part: &str, between: &str, count: usize) {
    for place in 0..count {
        if 0 < place {
            put(rt, line, between);
        }
        put(rt, line, part);
    }
}

/// The line of an event of one value, of so many parts.
fn line(rt: &impl Abort, alloc: Global, form: &Form<'_>, size: usize) -> String {
    let mut line = String::new(alloc);
    put(
        rt,
        &mut line,
        "{\"event\":\"K\",\"timestamp_ns\":1000,\"fields\":{\"f\":",
    );
    put(rt, &mut line, form.open);
    put_parts(rt, &mut line, form.part, form.between, size);
    put(rt, &mut line, form.close);
    put(rt, &mut line, "}}\n");
    line
}

/// An event of one value of so many parts has its line.
fn has_line(
    rt: &impl Abort,
    alloc: Global,
    field_type: FieldType,
    form: &Form<'_>,
    size: usize,
) -> bool {
    let trace = sized(rt, alloc, field_type, size, (b"k", b"v"));
    has_lines(alloc, &trace, line(rt, alloc, form, size).as_str())
}

#[test]
fn values_of_each_size(rt: HostRuntime) {
    for (field_type, form) in FORMS {
        for size in SIZES {
            assert!(rt; has_line(&rt, rt.alloc(), field_type, &form, size));
        }
    }
}

/// So many events of so many numbers have their lines.
fn have_lines(rt: &impl Abort, alloc: Global, events: usize, count: usize) -> bool {
    let mut encoder = Encoder::new(alloc).expect(rt, "no refusal");
    put_numbers(rt, alloc, &mut encoder, "K", events, count);
    let mut line = String::new(alloc);
    put(
        rt,
        &mut line,
        "{\"event\":\"K\",\"timestamp_ns\":1000,\"fields\":{",
    );
    put_parts(rt, &mut line, "\"f\":300", ",", count);
    put(rt, &mut line, "}}\n");
    let wanted = line.as_str().repeat(alloc, events).expect(rt, "memory");
    has_lines(alloc, &encoder.finish(), wanted.as_str())
}

#[test]
fn events_and_fields_of_each_count(rt: HostRuntime) {
    for size in SIZES {
        assert!(rt; have_lines(&rt, rt.alloc(), 1, size));
        assert!(rt; have_lines(&rt, rt.alloc(), size, 1));
    }
}
