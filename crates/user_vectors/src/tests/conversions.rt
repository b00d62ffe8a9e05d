//! Conversions of ids in lists and maps. `tools/ample_users` has values of each kind and size.

use dial9_trace_format::decoder::{Decoder, TryForEachError};
use dial9_trace_format::encoder::Encoder;
use std::alloc::Global;
use std::process::Abort;
use trace_converter::converter::{ConvertError, Converter};
use trace_converter::rules::Rule;

/// Events of `K`, whose field `f` becomes `g` of `L`.
const RULES: [Rule<'static>; 1] = [Rule {
    from: "K",
    to: "L",
    slot: 0,
    fields: &[("f", "g")],
}];

/// The texts `a` and `b`, a stack, and an event of a list: the id of `b`, and a map from the id of the stack to that of
/// `a`.
const WITH_IDS: [u8; 92] = [
    0x54, 0x52, 0x43, 0x00, 0x01, 0x03, 0x02, 0x00, 0x00, 0x00, 0x00, 0x00, 0x00, 0x00, 0x01, 0x00,
    0x00, 0x00, b'a', 0x01, 0x00, 0x00, 0x00, 0x01, 0x00, 0x00, 0x00, b'b', 0x04, 0x01, 0x00, 0x00,
    0x00, 0x00, 0x00, 0x00, 0x00, 0x01, 0x00, 0x00, 0x00, 0x07, 0x00, 0x00, 0x00, 0x00, 0x00, 0x00,
    0x00, 0x01, 0x00, 0x01, 0x01, 0x00, b'K', 0x01, 0x01, 0x00, 0x01, 0x00, b'f', 0x0E, 0x02, 0x00,
    0x01, 0xE8, 0x03, 0x00, 0x02, 0x00, 0x00, 0x00, 0x07, 0x01, 0x00, 0x00, 0x00, 0x0F, 0x01, 0x00,
    0x00, 0x00, 0x06, 0x00, 0x00, 0x00, 0x00, 0x07, 0x00, 0x00, 0x00, 0x00,
];

/// The same, where each gets its id when it is met: `b`, the stack, and `a`.
const ANEW: [u8; 97] = [
    0x54, 0x52, 0x43, 0x00, 0x01, 0x03, 0x01, 0x00, 0x00, 0x00, 0x00, 0x00, 0x00, 0x00, 0x01, 0x00,
    0x00, 0x00, b'b', 0x04, 0x01, 0x00, 0x00, 0x00, 0x00, 0x00, 0x00, 0x00, 0x01, 0x00, 0x00, 0x00,
    0x07, 0x00, 0x00, 0x00, 0x00, 0x00, 0x00, 0x00, 0x03, 0x01, 0x00, 0x00, 0x00, 0x01, 0x00, 0x00,
    0x00, 0x01, 0x00, 0x00, 0x00, b'a', 0x01, 0x00, 0x01, 0x01, 0x00, b'L', 0x01, 0x01, 0x00, 0x01,
    0x00, b'g', 0x0E, 0x02, 0x00, 0x01, 0xE8, 0x03, 0x00, 0x02, 0x00, 0x00, 0x00, 0x07, 0x00, 0x00,
    0x00, 0x00, 0x0F, 0x01, 0x00, 0x00, 0x00, 0x06, 0x00, 0x00, 0x00, 0x00, 0x07, 0x01, 0x00, 0x00,
    0x00,
];

/// An event of a map from a truth to a list of an id that stands for nothing.
const UNKNOWN: [u8; 40] = [
    0x54, 0x52, 0x43, 0x00, 0x01, 0x01, 0x00, 0x01, 0x01, 0x00, b'K', 0x01, 0x01, 0x00, 0x01, 0x00,
    b'f', 0x0F, 0x02, 0x00, 0x01, 0x00, 0x00, 0x00, 0x01, 0x00, 0x00, 0x00, 0x03, 0x01, 0x0E, 0x01,
    0x00, 0x00, 0x00, 0x07, 0x09, 0x00, 0x00, 0x00,
];

/// What a converter writes of the trace by the rules, and what it answers.
pub fn converted<'r>(
    rt: &impl Abort,
    alloc: Global,
    trace: &[u8],
    rules: &'r [Rule<'r>],
) -> (Vec<u8>, Option<TryForEachError<ConvertError>>) {
    let mut decoder = Decoder::new(alloc, trace).expect(rt, "a header");
    let mut converter = Converter::new(alloc, rules, Encoder::new(alloc).expect(rt, "no refusal"));
    let refused = decoder.try_for_each_event(&mut converter).err();
    (converter.into_encoder().finish(), refused)
}

#[test]
fn ids_inside_are_interned_anew(rt: HostRuntime) {
    let (found, refused) = converted(&rt, rt.alloc(), &WITH_IDS, &RULES);
    assert!(rt; refused.is_none() && found.as_slice() == ANEW.as_slice());
}

#[test]
fn an_unknown_id_inside_is_refused(rt: HostRuntime) {
    let (found, refused) = converted(&rt, rt.alloc(), &UNKNOWN, &RULES);
    assert!(rt;
        matches!(
            refused,
            Some(TryForEachError::User(ConvertError::UnknownId))
        )
    );
    assert!(rt; found.as_slice() == &UNKNOWN[..5]);
}

/// An event of the number 7.
const NUMBER: [u8; 25] = [
    0x54, 0x52, 0x43, 0x00, 0x01, 0x01, 0x00, 0x01, 0x01, 0x00, b'K', 0x01, 0x01, 0x00, 0x01, 0x00,
    b'f', 0x09, 0x02, 0x00, 0x01, 0x00, 0x00, 0x00, 0x07,
];

/// The text `a`, and an event of it.
const TEXT: [u8; 42] = [
    0x54, 0x52, 0x43, 0x00, 0x01, 0x03, 0x01, 0x00, 0x00, 0x00, 0x00, 0x00, 0x00, 0x00, 0x01, 0x00,
    0x00, 0x00, b'a', 0x01, 0x00, 0x01, 0x01, 0x00, b'K', 0x01, 0x01, 0x00, 0x01, 0x00, b'f', 0x07,
    0x02, 0x00, 0x01, 0x00, 0x00, 0x00, 0x00, 0x00, 0x00, 0x00,
];

/// How many bytes are written of this event where a rule keeps the field so often.
fn count_kept(rt: &impl Abort, alloc: Global, event: &[u8], count: usize) -> usize {
    let mut fields = Vec::new(alloc);
    for _ in 0..count {
        fields.push(("f", "g")).expect(rt, "memory");
    }
    let rules = [Rule {
        from: "K",
        to: "L",
        slot: 0,
        fields: &fields,
    }];
    let (found, _) = converted(rt, alloc, event, &rules);
    found.len()
}

/// They are as many as docs/FORMAT.md says.
fn is_kept(rt: &impl Abort, alloc: Global, count: usize) -> bool {
    count_kept(rt, alloc, &NUMBER, count) == count.saturating_mul(5).saturating_add(20)
}

/// The same of the text, which is there once.
fn is_text_kept(rt: &impl Abort, alloc: Global, count: usize) -> bool {
    let wanted = if count == 0 {
        20
    } else {
        count.saturating_mul(8).saturating_add(34)
    };
    count_kept(rt, alloc, &TEXT, count) == wanted
}

/// How many bytes are written of that event by a rule of this slot whose new schema and its field have this name.
fn count_named(rt: &impl Abort, alloc: Global, slot: u16, name: &str) -> usize {
    let fields = [("f", name)];
    let rules = [Rule {
        from: "K",
        to: name,
        slot,
        fields: &fields,
    }];
    let (found, _) = converted(rt, alloc, &NUMBER, &rules);
    found.len()
}

/// They are as many as docs/FORMAT.md says.
fn is_named(rt: &impl Abort, alloc: Global, slot: u16, size: usize) -> bool {
    let name = "x".repeat(alloc, size).expect(rt, "memory");
    count_named(rt, alloc, slot, name.as_str()) == size.saturating_mul(2).saturating_add(23)
}

#[test]
fn rules_of_each_slot_and_name(rt: HostRuntime) {
    for slot in 0..=256u16 {
        assert!(rt; is_named(&rt, rt.alloc(), slot, usize::from(slot)));
    }
    for size in [4_096, 4_097, 65_535] {
        assert!(rt; is_named(&rt, rt.alloc(), 0, size));
    }
}

#[test]
fn rules_of_each_count_of_fields(rt: HostRuntime) {
    for count in 0..301 {
        assert!(rt; is_kept(&rt, rt.alloc(), count));
    }
    for count in [4_096, 4_097, 65_535] {
        assert!(rt; is_kept(&rt, rt.alloc(), count));
    }
}

#[test]
fn rules_of_each_count_of_texts(rt: HostRuntime) {
    for count in 0..301 {
        assert!(rt; is_text_kept(&rt, rt.alloc(), count));
    }
    for count in [4_096, 4_097, 65_535] {
        assert!(rt; is_text_kept(&rt, rt.alloc(), count));
    }
}
