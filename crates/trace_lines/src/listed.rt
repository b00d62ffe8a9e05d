//! Values of long events, of which a list of ids of texts stays in the input.

ghost use Rattle.std.specs.Prelude.{◌≡◌, Some, IfSome};
ghost use Rattle.std.specs.List.{list_all};
ghost use Rattle.trace_values.specs.declared.types.field_type.FieldType.TheVariants as types;
ghost use Rattle.trace_values.specs.Reading.{field_at};
ghost use Rattle.trace_values.specs.Values.{borrowed};
ghost use Rattle.trace_values.specs.Wanting.{GivesIf, field_wants};
ghost use Rattle.dial9_trace_format.specs.LongEvents.{long_event};
ghost use Rattle.trace_lines.specs.parts.EventLines.{event_as};
ghost use Rattle.trace_lines.specs.parts.Listed.{is_text_id, listed_value, text_id, text_id_value, text_ids_value};

use crate::growing::GrowingLine;
use crate::plain::push_pooled_text;
use crate::pooled::{push_known_text, text_known};
use crate::resolved::LineEvent;
use crate::value::{
    FieldLine, Held, LineValue, Shown, item_ids_known, push_line_value, push_list, value_known,
};
use dial9_trace_format::decoder::LongEvent;
use dial9_trace_format::resolve::DeserError;
use std::alloc::{AllocError, Global};
use trace_values::types::limits::MAX_ITEMS;
use trace_values::types::parts::count_at;
use trace_values::types::{FieldType, FieldValueRef, InternedString, Stop, field_ref_at};
use trace_wire::codec::form::FieldForm;
use trace_wire::pools::{StackPool, StringPool};

// The tag of the type `PooledString`.
const TEXT_ID: u8 = 7;

/// The id of a text as an item of a list: the tag of its type, and four bytes.
pub(crate) type TextId = [u8; 5];

/// A value of an event's field. A list of ids of texts stays in the input, and takes no memory.
#[derive(Drop)]
pub(crate) enum ListedValue<'a> {
    /// A list of ids of texts.
    TextIds(&'a [TextId]),
    /// Any value.
    Other(FieldValueRef<'a>),
}

/// The event as its line shows it.
pub(crate) fn long_line_event<'f, 'a>(
    event: &LongEvent<'f, ListedValue<'a>>,
) -> LineEvent<'f, ListedValue<'a>>
    ensures { event_as listed_value result ≡ long_event listed_value event.now }
{
    LineEvent {
        type_id: event.type_id,
        name: event.name,
        timestamp_ns: event.timestamp_ns,
        values: event.values,
        schema: event.schema,
        strings: event.string_pool,
        stacks: event.stack_pool,
    }
}

impl<'a> FieldForm<'a> for ListedValue<'a> {
    ghost kind = { borrowed };

    ghost value = { listed_value };

    fn push_any_field_at(
        alloc: Global,
        field_type: FieldType,
        bytes: &'a [u8],
        values: &mut Vec<ListedValue<'a>>,
    ) -> Result<&'a [u8], Stop> {
        let (value, rest) = listed_field_at(alloc, field_type, bytes)?;
        values.push(value)?;
        Ok(rest)
    }

    fn push_fixed_at(
        field_type: FieldType,
        bytes: &'a [u8],
        values: &mut Vec<ListedValue<'a>>,
    ) -> &'a [u8] {
        match field_ref_at(*values.allocator(), field_type, bytes) {
            Ok((value, rest)) => {
                values.push_reserved(ListedValue::Other(value));
                rest
            }
            Err(_) => unreachable!(),
        }
    }

    fn of_number(given: u64) -> ListedValue<'a> {
        ListedValue::Other(FieldValueRef::Varint(given))
    }

    fn drop_value(value: ListedValue<'a>) -> bool {
        drop(value);
        true
    }
}

// The value of an event's field at the front, and the rest.
fn listed_field_at<'a>(
    alloc: Global,
    field_type: FieldType,
    bytes: &'a [u8],
) -> Result<(ListedValue<'a>, &'a [u8]), Stop>
    ensures { GivesIf (field_wants borrowed field_type bytes.now)
        (λ x. (listed_value x.0, x.1.now)) result (field_at borrowed field_type bytes.now) }
{
    if let FieldType::DynamicList = field_type {
        if let Some((items, rest)) = text_ids_at(bytes) {
            return Ok((ListedValue::TextIds(items), rest));
        }
    }
    let (value, rest) = field_ref_at(alloc, field_type, bytes)?;
    Ok((ListedValue::Other(value), rest))
}

// The list of ids of texts at the front, and the rest; `None` where something else stands there.
fn text_ids_at(bytes: &[u8]) -> Option<(&[TextId], &[u8])>
    ensures { IfSome result (λ x. field_at borrowed types.DynamicList bytes.now
        ≡ Some (text_ids_value x.0.now, x.1.now)) }
{
    let Ok((count, rest)) = count_at(MAX_ITEMS, bytes) else {
        return None;
    };
    let Some((front, after)) = rest.split_at_checked(count as usize * 5) else {
        return None;
    };
    let (items, _) = front.as_chunks::<5>();
    if are_text_ids(items) {
        Some((items, after))
    } else {
        None
    }
}

// Whether all items are ids of texts.
fn are_text_ids(items: &[TextId]) -> bool
    ensures { result ≡ list_all is_text_id items.now }
{
    let mut all = true;
    for item in items {
        let one = is_text_id(item);
        all = all & one;
    }
    all
}

// Whether an item is the id of a text.
fn is_text_id(item: &TextId) -> bool
    ensures { result ≡ is_text_id item.now }
{
    item[0] == TEXT_ID
}

// The id that an item is.
fn text_id(item: &TextId) -> InternedString
    ensures { result.0 ≡ text_id item.now }
{
    let (_, id) = item.split_last_chunk::<4>().unwrap();
    InternedString::from_raw(u32::from_le_bytes(*id))
}

impl LineValue for [u8; 5] {
    ghost value = { text_id_value };

    ghost depth = { λ _. 0 };

    fn held(&self) -> Held<'_, [u8; 5]> {
        Held::Nothing
    }

    fn push_flat(&self, out: &mut String) -> Result<(), AllocError> {
        push_pooled_text(out, text_id(self))
    }

    fn push_flat_in_full(
        &self,
        out: &mut String,
        strings: &StringPool,
        _: &StackPool,
    ) -> Result<(), AllocError> {
        push_known_text(out, strings, text_id(self))
    }

    fn flat_known(&self, strings: &StringPool, _: &StackPool) -> Result<(), DeserError> {
        text_known(strings, text_id(self))
    }
}

impl<'a> FieldLine for ListedValue<'a> {
    ghost value = { listed_value };

    fn field_known(&self, strings: &StringPool, stacks: &StackPool) -> Result<(), DeserError> {
        match self {
            ListedValue::TextIds(items) => item_ids_known(strings, stacks, items),
            ListedValue::Other(value) => value_known(strings, stacks, value),
        }
    }

    fn put_field<L: GrowingLine>(&self, out: &mut L, form: &Shown<'_>) -> Result<(), L::Fault> {
        match self {
            ListedValue::TextIds(items) => push_list(out, items, form),
            ListedValue::Other(value) => push_line_value(out, value, form),
        }
    }
}
