//! The sign that stands in owned texts for what is not UTF-8.

ghost use Rattle.std.specs.Prelude.{◌≡◌};
ghost use Rattle.trace_values.specs.Reading.{values_to_items, values_to_pairs};
ghost use Rattle.trace_values.specs.ValueViews.{view, views, pair_views};
ghost use Rattle.reader_agreement.specs.Signs.{has_sign, holds_sign, items_hold_sign, pairs_hold_sign};
ghost use Rattle.reader_agreement.specs.Signs.{frame_holds_sign};
ghost use Rattle.dial9_trace_format.specs.DecodedFrames.{item_of};

use dial9_trace_format::decoder::DecodedFrame;
use trace_values::types::FieldValue;

/// Its bytes.
const SIGN: [u8; 3] = [0xEF, 0xBF, 0xBD];

/// Whether a frame is an event with a text, at any depth, that has the sign.
pub fn frame_holds_sign(frame: &DecodedFrame) -> bool
    ensures { result ≡ frame_holds_sign (item_of frame.now) }
{
    match frame {
        DecodedFrame::Event { values, .. } => items_hold_sign(values.as_slice()),
        _ => false,
    }
}

/// Whether a value is such a text, or holds one.
#[cycle(holds_sign)]
fn holds_sign(value: &FieldValue) -> bool
    ensures { result ≡ holds_sign (view value.now) }
{
    match value {
        FieldValue::String(text) => has_sign(text.as_bytes()),
        FieldValue::List(items) => items_hold_sign(items.as_slice()),
        FieldValue::Map(pairs) => pairs_hold_sign(pairs.as_slice()),
        _ => false,
    }
}

#[cycle(holds_sign)]
fn items_hold_sign(items: &[FieldValue]) -> bool
    ensures { result ≡ items_hold_sign (values_to_items (views items.now)) }
{
    for item in items {
        if holds_sign(item) {
            return true;
        }
    }
    false
}

#[cycle(holds_sign)]
fn pairs_hold_sign(pairs: &[(FieldValue, FieldValue)]) -> bool
    ensures { result ≡ pairs_hold_sign (values_to_pairs (pair_views pairs.now)) }
{
    for pair in pairs {
        if holds_sign(&pair.0) {
            return true;
        }
        if holds_sign(&pair.1) {
            return true;
        }
    }
    false
}

/// Whether bytes have the sign.
fn has_sign(bytes: &[u8]) -> bool
    ensures { result ≡ has_sign bytes.now }
{
    for i in 0..bytes.len() {
        let rest = &bytes[i..];
        if rest.starts_with(&SIGN) {
            return true;
        }
    }
    false
}
