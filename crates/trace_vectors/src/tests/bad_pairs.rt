//! A map of texts with a pair that is no text, as both readers give it in an event.

use crate::tests::calls::{all_of, decoder_of};
use dial9_trace_format::decoder::{DecodedFrame, DecodedFrameRef};
use dial9_trace_format::types::{FieldValue, FieldValueRef, StringMapRef};
use std::alloc::Global;
use std::process::Abort;

/// Header, the schema `Ev` with the field `m: StringMap`, and an event of it at 1,000 with one pair: the byte FF, and
/// `v`.
const BAD_KEY: [u8; 39] = [
    0x54, 0x52, 0x43, 0x00, 0x01, 0x01, 0x00, 0x01, 0x02, 0x00, 0x45, 0x76, 0x01, 0x01, 0x00, 0x01,
    0x00, 0x6D, 0x0A, 0x02, 0x00, 0x01, 0xE8, 0x03, 0x00, 0x01, 0x00, 0x00, 0x00, 0x01, 0x00, 0x00,
    0x00, 0xFF, 0x01, 0x00, 0x00, 0x00, 0x76,
];

/// Where the pair stands.
const PAIR: usize = 29;

/// The frame is the event, with these pairs.
fn has_pairs(frame: Option<&DecodedFrame>, wanted: &[(&[u8], &[u8])]) -> bool {
    match frame {
        Some(
            DecodedFrame::Event {
                type_id,
                timestamp_ns,
                values,
            },
        ) => type_id.0 == 256 && *timestamp_ns == 1_000 && are_pairs(values, wanted),
        _ => false,
    }
}

/// The values are one map of these pairs.
fn are_pairs(values: &[FieldValue], wanted: &[(&[u8], &[u8])]) -> bool {
    match values {
        [FieldValue::StringMap(pairs)] => {
            let same = pairs.iter().zip(wanted).all(|(pair, it)| pair.0.as_slice() == it.0
                && pair.1.as_slice() == it.1);
            same && pairs.len() == wanted.len()
        }
        _ => false,
    }
}

/// The map holds the pair in its raw data, and its iterator gives nothing.
fn is_raw(map: &StringMapRef<'_>) -> bool {
    map.count() == 1 && map.raw_data() == &BAD_KEY[PAIR..] && map.iter().next() == None
}

/// The frame's one value is such a map, and `to_owned` of the frame and of the value has no pair.
fn is_owned_without(rt: &impl Abort, alloc: Global, frame: &DecodedFrameRef<'_>) -> bool {
    let owned = frame.to_owned(alloc).expect(rt, "memory");
    match frame {
        DecodedFrameRef::Event { values, .. } => {
            has_pairs(Some(&owned), &[]) && has_none(rt, alloc, values)
        }
        _ => false,
    }
}

/// The values are one such map, and `to_owned` of it has no pair.
fn has_none(rt: &impl Abort, alloc: Global, values: &[FieldValueRef<'_>]) -> bool {
    match values {
        [value] => {
            let owned = value.to_owned(alloc).expect(rt, "memory");
            is_raw_value(value) && are_pairs(&[owned], &[])
        }
        _ => false,
    }
}

fn is_raw_value(value: &FieldValueRef<'_>) -> bool {
    match value {
        FieldValueRef::StringMap(map) => is_raw(map),
        _ => false,
    }
}

#[test]
fn a_pair_that_is_no_text_to_the_reader_of_owned_values(rt: HostRuntime) {
    let frames = all_of(&rt, rt.alloc(), &BAD_KEY);
    assert!(rt; frames.len() == 2);
    assert!(rt; has_pairs(frames.get(1), &[(b"\xFF", b"v")]));
}

#[test]
fn a_pair_that_is_no_text_to_the_reader_of_borrowed_values(rt: HostRuntime) {
    let mut decoder = decoder_of(&rt, rt.alloc(), &BAD_KEY);
    let frames = decoder.decode_all_ref().expect(&rt, "frames");
    assert!(rt; frames.len() == 2 && decoder.position() == BAD_KEY.len());
    assert!(rt; is_owned_without(&rt, rt.alloc(), &frames[1]));
}
