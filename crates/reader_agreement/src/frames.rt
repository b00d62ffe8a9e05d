//! Owned frames beside such as stay in the bytes.

ghost use Rattle.std.specs.Prelude.{◌≡◌, ◌↔◌, IsTrue, IfOk, length, map, take};
ghost use Rattle.std.specs.Cmp.Lexicographic.{pointwise};
ghost use Rattle.dial9_trace_format.specs.DecodedFrames.{item_of, owned_item, ref_item_of, same_item};
ghost use Rattle.std.specs.List.{list_any};
ghost use Rattle.std.specs.Option.{option_map};
ghost use Rattle.trace_values.specs.Refs.{ref_view, ref_views};
ghost use Rattle.trace_wire.specs.Runs.{EventItem};
ghost use Rattle.reader_agreement.specs.Readings.{Agreement, EndsAlike};
ghost use Rattle.reader_agreement.specs.ReadAlike.{lacks_texts, read_alike, value_lacks_texts};

use crate::ends::Ended;
use crate::signs::frame_holds_sign;
use crate::values::are_values;
use dial9_trace_format::decoder::{DecodedFrame, DecodedFrameRef};
use dial9_trace_format::schema::WireTypeId;
use dial9_trace_format::types::FieldValueRef;
use std::alloc::{AllocError, Global};

/// The frames that a reader of owned values gives, the place after each, and how it ended.
#[derive(Drop)]
pub struct Owned {
    pub frames: Vec<DecodedFrame>,
    pub places: Vec<usize>,
    pub ended: Ended,
}

/// The same of a reader of borrowed values.
#[derive(Drop)]
pub struct Borrowed<'a> {
    pub frames: Vec<DecodedFrameRef<'a>>,
    pub places: Vec<usize>,
    pub ended: Ended,
}

/// Whether an owned frame is the borrowed one in memory of its own. `AllocError` where a growth was refused.
pub fn is_copy(
    alloc: Global,
    owned: &DecodedFrame,
    borrowed: &DecodedFrameRef<'_>,
) -> Result<bool, AllocError>
    ensures { IfOk result (λ same. same
        ≡ same_item (item_of owned.now) (owned_item (ref_item_of borrowed.now))) }
{
    Ok(*owned == borrowed.to_owned(alloc)?)
}

/// Whether an owned frame is the borrowed one, of maps of texts all pairs, text or not. `AllocError` where a growth
/// was refused.
pub fn is_same_frame(
    alloc: Global,
    owned: &DecodedFrame,
    borrowed: &DecodedFrameRef<'_>,
) -> Result<bool, AllocError>
    ensures { IfOk result
        (λ same. same ≡ same_item (item_of owned.now) (ref_item_of borrowed.now)) }
{
    match borrowed {
        DecodedFrameRef::Event {
            type_id,
            timestamp_ns,
            values,
        } => Ok(is_event_of(owned, *type_id, *timestamp_ns, values.as_slice())),
        _ => is_copy(alloc, owned, borrowed),
    }
}

/// Whether an owned frame is the event of this wire id, this time and these values.
fn is_event_of(
    owned: &DecodedFrame,
    type_id: WireTypeId,
    timestamp_ns: u64,
    others: &[FieldValueRef<'_>],
) -> bool
    ensures { result ≡ same_item (item_of owned.now)
        (EventItem type_id.0 timestamp_ns (ref_views others.now)) }
{
    match owned {
        DecodedFrame::Event {
            type_id: id,
            timestamp_ns: time,
            values,
        } => *id == type_id && (*time == timestamp_ns && are_values(values.as_slice(), others)),
        _ => false,
    }
}

/// Whether an owned frame is the borrowed one, and what `to_owned` makes of that, where its maps of texts hold nothing
/// else. `AllocError` where a growth was refused.
fn is_read_alike(
    alloc: Global,
    owned: &DecodedFrame,
    borrowed: &DecodedFrameRef<'_>,
) -> Result<bool, AllocError>
    ensures { IfOk result
        (λ alike. alike ≡ read_alike (item_of owned.now) (ref_item_of borrowed.now)) }
{
    let same = is_same_frame(alloc, owned, borrowed)?;
    let copied = is_copy(alloc, owned, borrowed)?;
    let lacks = lacks_texts(borrowed);
    Ok(same & (copied | lacks))
}

/// Whether a frame is an event with a map of texts of which a pair is no pair of texts.
fn lacks_texts(frame: &DecodedFrameRef<'_>) -> bool
    ensures { result ≡ lacks_texts (ref_item_of frame.now) }
{
    match frame {
        DecodedFrameRef::Event { values, .. } => any_lacks_texts(values.as_slice()),
        _ => false,
    }
}

fn any_lacks_texts(values: &[FieldValueRef<'_>]) -> bool
    ensures { result ≡ list_any value_lacks_texts (ref_views values.now) }
{
    for value in values {
        if value_lacks_texts(value) {
            return true;
        }
    }
    false
}

fn value_lacks_texts(value: &FieldValueRef<'_>) -> bool
    ensures { result ≡ value_lacks_texts (ref_view value.now) }
{
    match value {
        FieldValueRef::StringMap(map) => map.iter().len() < map.count() as usize,
        _ => false,
    }
}

/// Whether the frames are read alike, in order. `AllocError` where a growth was refused.
pub fn are_read_alike(
    alloc: Global,
    owned: &[DecodedFrame],
    borrowed: &[DecodedFrameRef<'_>],
) -> Result<bool, AllocError>
    ensures { IfOk result (λ same. same
        ≡ pointwise read_alike (map item_of owned.now) (map ref_item_of borrowed.now)) }
{
    if owned.len() != borrowed.len() {
        return Ok(false);
    }
    for i in 0..owned.len() {
        if !is_read_alike(alloc, &owned[i], &borrowed[i])? {
            return Ok(false);
        }
    }
    Ok(true)
}

/// Whether the borrowed frames are a front of the owned ones. `AllocError` where a growth was refused.
fn is_front(
    alloc: Global,
    owned: &[DecodedFrame],
    borrowed: &[DecodedFrameRef<'_>],
) -> Result<bool, AllocError>
    ensures { IfOk result (λ same. same ≡ pointwise read_alike
        (map item_of (take (length borrowed.now) owned.now)) (map ref_item_of borrowed.now)) }
{
    match owned.get(..borrowed.len()) {
        Some(front) => are_read_alike(alloc, front, borrowed),
        None => Ok(false),
    }
}

/// Whether the borrowed frames end as the owned ones, or before an event with a text that is not UTF-8, which is the
/// next owned one.
fn ends_alike(next: Option<&DecodedFrame>, owned: &Ended, borrowed: &Ended) -> bool
    ensures { IsTrue result ↔ EndsAlike (option_map (λ f. f.now) next.entry)
        owned.now borrowed.now }
{
    match next {
        Some(next) => frame_holds_sign(next) && borrowed.error.is_none(),
        None => owned.is_same(borrowed),
    }
}

/// Whether both readers give the same, as far as they may not differ: the borrowed one gives a front of the owned
/// frames at the same places, and ends as the owned one, or before an event with a text that is not UTF-8.
/// `AllocError` where a growth was refused.
pub fn agree(alloc: Global, owned: &Owned, borrowed: &Borrowed<'_>) -> Result<bool, AllocError>
    ensures { IfOk result (λ same. IsTrue same ↔ Agreement owned.now borrowed.now) }
{
    let same = is_front(alloc, &owned.frames, &borrowed.frames)?;
    let placed = owned.places.starts_with(&borrowed.places);
    let next = owned.frames.get(borrowed.frames.len());
    let ended = ends_alike(next, &owned.ended, &borrowed.ended);
    Ok(same & placed & ended)
}
