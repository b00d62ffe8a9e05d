//! An event that a sink is shown, beside a reader of frames that gave it too.

ghost use Rattle.std.specs.Prelude.{◌≡◌, ◌↔◌, IsTrue, true, false};
ghost use Rattle.std.specs.Option.{option_map_or};
ghost use Rattle.trace_values.specs.Refs.{ref_views};
ghost use Rattle.dial9_trace_format.specs.DecodedFrames.{ref_item_of, same_item};
ghost use Rattle.dial9_trace_format.specs.NextEvents.{headed};
ghost use Rattle.dial9_trace_format.specs.ShownEvents.{shown_event};
ghost use Rattle.reader_agreement.specs.Describing.{IsToldWhole};

use crate::events::{is_described, is_shown};
use crate::resolved::is_resolved;
use dial9_trace_format::DeserError;
use dial9_trace_format::decoder::{DecodedFrameRef, Decoder, RawEvent};
use dial9_trace_format::resolve::ResolvedEvent;

/// Whether the event is the one of this frame, which the reader gave last, comes with what that knows, and resolves
/// to this.
pub fn is_read_by<'v, 'b>(
    reader: &'v Decoder<'b>,
    frame: Option<&'v DecodedFrameRef<'b>>,
    event: &'v RawEvent<'b, '_>,
    answer: &'v Result<ResolvedEvent, DeserError>,
) -> bool
    ensures { IsTrue result ↔ ((option_map_or (λ f. same_item (ref_item_of f.now)
        (headed (ref_views event.now.fields.now)
        record { type_id = event.now.type_id; timestamp_ns = event.now.timestamp_ns }))
        frame.entry false ≡ true)
        × IsToldWhole reader.now.grammar.wire_types reader.now.pools (shown_event event.now)
        answer.now) }
{
    is_shown(frame, event) && comes_so(reader, event, answer)
}

/// Whether the event comes with what the reader knows, and resolves to this.
fn comes_so<'v, 'b>(
    reader: &'v Decoder<'b>,
    event: &'v RawEvent<'b, '_>,
    answer: &'v Result<ResolvedEvent, DeserError>,
) -> bool
    ensures { IsTrue result ↔ IsToldWhole reader.now.grammar.wire_types reader.now.pools
        (shown_event event.now) answer.now }
{
    let (texts, stacks) = (reader.string_pool(), reader.stack_pool());
    is_described(reader.registry(), texts, stacks, event) && is_resolved(event, answer)
}
