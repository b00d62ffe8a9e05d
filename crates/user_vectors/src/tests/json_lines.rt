//! Events of the traces in `tables` as lines of JSON, as Python's `json` writes them (docs/FORMAT.md, "Lines of JSON"),
//! by a sink. `gotymbe` writes the same lines by frames (`runs/json_rows`).

mod ample;

use crate::tests::tables::ROWS;
use dial9_trace_format::decoder::{Decoder, EventSink, RawEvent};
use json::Writer;
use std::alloc::{AllocError, Global};
use std::mem;
use trace_json::line::{push_event_line, put_event};

/// The lines of each of the traces.
const LINES: [&str; 10] = [
    // one number
    "{\"event\":\"Ev\",\"timestamp_ns\":1000,\"fields\":{\"v\":42}}\n",
    // no field, and none
    "{\"event\":\"\",\"timestamp_ns\":0,\"fields\":{}}\n{\"event\":\"\",\"timestamp_ns\":1,\"fi\
     elds\":{}}\n",
    // numbers
    "{\"event\":\"N\",\"timestamp_ns\":18446744073709551615,\"fields\":{\"a\":-9223372036854775\
     808,\"a\":18446744073709551615,\"b\":255,\"c\":65535,\"d\":4294967295,\"e\":true,\"e\":fal\
     se,\"a\":null,\"\":-1}}\n",
    // floats
    "{\"event\":\"F\",\"timestamp_ns\":0,\"fields\":{\"f\":0.0,\"f\":-0.0,\"f\":1.5,\"f\":-0.1,\
     \"f\":5e-324,\"f\":2.2250738585072014e-308,\"f\":123456789.125,\"f\":1000000000000000.5}}\
     \n",
    // special floats
    "{\"event\":\"F\",\"timestamp_ns\":0,\"fields\":{\"f\":\"Infinity\",\"f\":\"-Infinity\",\"f\
     \":\"NaN:0x7ff8000000000000\",\"f\":\"NaN:0xffffffffffffffff\",\"f\":\"NaN:0x7ff0000000000\
     001\"}}\n",
    // texts and bytes
    "{\"event\":\"a\\\"\\\\/\\b\\f\\n\\r\\t\\u0000\\u001f\x7f\u{e9}\u{20ac}\u{1f600}\",\"timest\
     amp_ns\":0,\"fields\":{\"a\\\"\\\\/\\b\\f\\n\\r\\t\\u0000\\u001f\x7f\u{e9}\u{20ac}\
     \u{1f600}\":\"a\\\"\\\\/\\b\\f\\n\\r\\t\\u0000\\u001f\x7f\u{e9}\u{20ac}\u{1f600}\",\"b\":{\
     \"hex\":\"00ff9a\"},\"b\":{\"hex\":\"\"}}}\n",
    // maps of texts
    "{\"event\":\"M\",\"timestamp_ns\":0,\"fields\":{\"m\":[[\"k\",\"v\"],[{\"hex\":\"ff\"},\"w\
     \"],[\"k\",{\"hex\":\"8078\"}]],\"m\":[]}}\n",
    // pools
    "{\"event\":\"P\",\"timestamp_ns\":0,\"fields\":{\"t\":\"seven\",\"t\":{\"unresolved_text\"\
     :8},\"t\":{\"unresolved_text\":4294967295},\"s\":[\"0x0\",\"0xffffffffffffffff\"],\"s\":[]\
     ,\"s\":{\"unresolved_stack\":7},\"s\":[\"0xa\",\"0xff\"]}}\n",
    // lists and maps
    "{\"event\":\"D\",\"timestamp_ns\":5,\"fields\":{\"l\":[1,[],[[\"k\",[\"one\",{\"unresolved\
     _text\":2}]]],2.5],\"m\":[[1,true],[[\"0x10\"],{\"hex\":\"7a\"}]]}}\n",
    // a header after
    "{\"event\":\"A\",\"timestamp_ns\":9,\"fields\":{\"t\":\"one\"}}\n{\"event\":\"B\",\"timest\
     amp_ns\":1,\"fields\":{\"u\":{\"unresolved_text\":1}}}\n",
];

/// The lines of events, and their objects as a writer of JSON has them, a line feed after each.
#[derive(Drop)]
struct Lines {
    alloc: Global,
    lines: Vec<u8>,
    objects: Vec<u8>,
}

impl<'a> EventSink<'a, AllocError> for Lines {
    ghost step = { λ _ _ _ _. Unit {0} };

    fn event(&mut self, event: &RawEvent<'a, '_>) -> Result<(), AllocError> {
        push_event_line(self.alloc, &mut self.lines, event)?;
        let mut writer = Writer::new(mem::replace(&mut self.objects, Vec::new(self.alloc)));
        let put = put_event(self.alloc, &mut writer, event);
        self.objects = writer.into_inner();
        put?;
        self.objects.extend_from_slice(b"\n")
    }
}

/// Whether the events of a trace, which is whole, have exactly these lines.
fn has_lines(alloc: Global, trace: &[u8], wanted: &str) -> bool {
    let Some(mut decoder) = Decoder::new(alloc, trace) else {
        return false;
    };
    let mut shown = Lines {
        alloc,
        lines: Vec::new(alloc),
        objects: Vec::new(alloc),
    };
    decoder.try_for_each_event(&mut shown).is_ok()
        && shown.lines.as_slice() == wanted.as_bytes()
        && shown.objects.as_slice() == wanted.as_bytes()
}

#[test]
fn events(rt: HostRuntime) {
    let alloc = rt.alloc();
    for place in 0..LINES.len() {
        let trace = hex::decode(alloc, ROWS[place].0).expect(&rt, "memory");
        assert!(rt; has_lines(alloc, &trace, LINES[place]));
    }
}
