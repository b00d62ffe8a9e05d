//! Which frames of a reader are events.

ghost use Rattle.std.specs.Prelude.{◌≡◌};
ghost use Rattle.dial9_trace_format.specs.DecodedFrames.{item_of, ref_item_of};
ghost use Rattle.dial9_trace_format.specs.Iterating.{is_event};

use dial9_trace_format::decoder::{DecodedFrame, DecodedFrameRef};

/// Whether a frame is an event.
pub fn is_any_event(frame: &DecodedFrame) -> bool
    ensures { result ≡ is_event (item_of frame.now) }
{
    matches!(frame, DecodedFrame::Event { .. })
}

/// The same of a frame that stays in the bytes.
pub fn is_any_event_ref(frame: &DecodedFrameRef<'_>) -> bool
    ensures { result ≡ is_event (ref_item_of frame.now) }
{
    matches!(frame, DecodedFrameRef::Event { .. })
}
