//! Values alone: absent ones, values after a place, copies, and texts.

use crate::tests::ample::{MILLION, SIZES, text};
use crate::tests::calls::encoded;
use crate::tests::checks::check_bytes;
use dial9_trace_format::types::{FieldType, FieldValue, FieldValueRef};
use std::alloc::Global;
use std::process::Abort;

#[test]
fn absent_values(rt: HostRuntime) {
    let list = FieldValue::List(vec![in rt.alloc(); FieldValue::None].expect(&rt, "memory"));
    check_bytes(&rt, &encoded(&rt, rt.alloc(), &FieldValue::None), &[0x00]);
    let spelled = [0x01, 0x00, 0x00, 0x00, 0x00, 0x00];
    check_bytes(&rt, &encoded(&rt, rt.alloc(), &list), &spelled);
    assert!(rt; FieldValue::None.field_type_tag() == 0);
    assert!(rt; FieldValue::Varint(1).field_type_tag() == 9);
}

/// The reader of borrowed values reads none from the bytes at this place.
fn is_no_borrowed(
    rt: &impl Abort,
    alloc: Global,
    of: FieldType,
    bytes: &[u8],
    place: usize,
) -> bool {
    FieldValueRef::decode(alloc, of, bytes, place)
        .expect(rt, "memory")
        .is_none()
}

/// Bytes before a number of two bytes.
const OFFSET: [u8; 4] = [0xFF, 0xFF, 0x2C, 0x01];

/// The number is read at its place.
fn reads_at_place(rt: &impl Abort, alloc: Global) -> bool {
    let read = FieldValueRef::decode(alloc, FieldType::U16, &OFFSET, 2).expect(rt, "memory");
    matches!(read, Some((FieldValueRef::Varint(300), 2)))
}

#[test]
fn borrowed_values_after_an_place(rt: HostRuntime) {
    assert!(rt; reads_at_place(&rt, rt.alloc()));
    for place in [4, 5usize] {
        assert!(rt; is_no_borrowed(&rt, rt.alloc(), FieldType::U8, &OFFSET, place));
    }
}

/// So many lists, one in the other; the innermost holds the number 1.
fn nested_lists(rt: &impl Abort, alloc: Global, depth: usize) -> FieldValue {
    let mut value = FieldValue::Varint(1);
    for _ in 0..depth {
        value = FieldValue::List(vec![in alloc; value].expect(rt, "memory"));
    }
    value
}

#[test]
fn copies_are_equal(rt: HostRuntime) {
    let deep = nested_lists(&rt, rt.alloc(), 4);
    assert!(rt; deep.clone(rt.alloc()).expect(&rt, "memory") == deep);
    assert!(rt; nested_lists(&rt, rt.alloc(), 5) != deep);
    assert!(rt; FieldValue::F64(0) != FieldValue::F64(1 << 63));
    assert!(rt; FieldValue::F64(0x7FF8_0000_0000_0000) == FieldValue::F64(0x7FF8_0000_0000_0000));
}

/// The value of a text of this size is spelled as docs/FORMAT.md says: its length in four bytes, and its bytes.
fn is_text_made(rt: &impl Abort, alloc: Global, size: usize) -> bool {
    let text = text(rt, alloc, size);
    let value = FieldValue::string(alloc, text.as_str()).expect(rt, "memory");
    let length = u32::try_from(size).unwrap_or(u32::MAX).to_le_bytes();
    encoded(rt, alloc, &value).strip_prefix(&length) == Some(text.as_bytes())
}

#[test]
fn texts_of_each_size(rt: HostRuntime) {
    for size in SIZES {
        assert!(rt; is_text_made(&rt, rt.alloc(), size));
    }
    assert!(rt; is_text_made(&rt, rt.alloc(), MILLION));
}
