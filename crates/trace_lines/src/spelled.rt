//! Events as they stand in a line, their values read from the bytes that spell them, one by one (docs/FORMAT.md,
//! "Dumps"). Of a list or a map no value is kept, and of a map of texts no pair.

ghost use Rattle.std.specs.Prelude.{◌≡◌, ◌++◌, [], codes, List};
ghost use Rattle.std.specs.List.{flat_map, join_by};
ghost use Rattle.trace_values.specs.declared.types.field_type.FieldType.TheVariants as types;
ghost use Rattle.trace_values.specs.Reading.{value_at, plain_at, item_at, pair_at, times_at, field_at, fields_at};
ghost use Rattle.trace_values.specs.Reading.{as_value, many_at, text_pair_at};
ghost use Rattle.trace_values.specs.Limits.{most_items};
ghost use Rattle.trace_values.specs.Values.{Value, owned_reader, text, texts, AreFields};
ghost use Rattle.trace_values.specs.ValueViews.{view};
ghost use Rattle.trace_wire.specs.Schemas.{types_of};
ghost use Rattle.trace_lines.specs.Appending.{AppendsText};
ghost use Rattle.trace_lines.specs.Lines.{line, event_line, pair_text, quoted_byte, spaced_value, value_text};
ghost use Rattle.trace_lines.specs.parts.SpelledLines.{PutsRead, event_start, pair_value_text};

use crate::growing::{CommaBefore, GrowingLine, LinePart};
use crate::text::{push_decimal, push_unquoted};
use crate::text_maps::push_text_pair;
use crate::value::{Shown, push_line_value};
use std::alloc::{AllocError, Global};
use trace_values::tri;
use trace_values::types::limits::{MAX_ITEMS, MAX_LEVELS};
use trace_values::types::parts::{byte_at, count_at, counted_at, type_with_tag};
use trace_values::types::{FieldType, FieldValue};
use trace_wire::schema::{FieldDef, WireTypeId};

// So many bytes of a text at most are appended at once.
const RUN: usize = 4096;

/// Appends the line of an event: its wire id, its time in nanoseconds, and the values of its fields, which these bytes
/// spell.
pub(crate) fn push_spelled_line<L: GrowingLine>(
    alloc: Global,
    out: &mut L,
    type_id: WireTypeId,
    timestamp_ns: u64,
    fields: &[FieldDef],
    bytes: &[u8],
) -> Result<(), L::Fault>
    ensures { (vs : List Value) → AreFields owned_reader (types_of fields.now) bytes.now vs
        → L.grows out.old (line (event_line type_id.0 timestamp_ns vs)) result out.new }
{
    out.put(NumberedStart {
        type_id,
        timestamp_ns,
    })?;
    push_fields_at(alloc, out, fields, bytes)?;
    out.put("\n")
}

// The wire id and the time of an event.
#[derive(Clone, Copy)]
struct NumberedStart {
    type_id: WireTypeId,
    timestamp_ns: u64,
}

impl LinePart for NumberedStart {
    ghost text = { λ p. event_start p.type_id.0 p.timestamp_ns };

    #[inline(always)]
    fn push_to(self, out: &mut String) -> Result<(), AllocError> {
        push_start(out, self.type_id.0, self.timestamp_ns)
    }
}

fn push_start(out: &mut String, id: u16, timestamp_ns: u64) -> Result<(), AllocError>
    ensures { AppendsText (event_start id timestamp_ns) out.old out.new result }
{
    out.push_str("event ")?;
    push_decimal(out, u64::from(id))?;
    out.push(' ')?;
    push_decimal(out, timestamp_ns)
}

// Appends the values of the fields at the front of the bytes, each after a space, and answers the bytes after them.
fn push_fields_at<'a, L: GrowingLine>(
    alloc: Global,
    out: &mut L,
    fields: &[FieldDef],
    bytes: &'a [u8],
) -> Result<&'a [u8], L::Fault>
    ensures { PutsRead L.grows (λ vs. flat_map spaced_value vs)
        (fields_at owned_reader (types_of fields.now) bytes.now) out.old out.new result }
{
    let mut rest = bytes;
    'fields: for field in fields {
        out.put(" ")?;
        rest = push_field_at(alloc, out, field.field_type(), rest)?;
    }
    Ok(rest)
}

// Appends the value of an event's field at the front of the bytes, and answers the bytes after it.
fn push_field_at<'a, L: GrowingLine>(
    alloc: Global,
    out: &mut L,
    field_type: FieldType,
    bytes: &'a [u8],
) -> Result<&'a [u8], L::Fault>
    ensures { PutsRead L.grows value_text (field_at owned_reader field_type bytes.now) out.old
        out.new result }
{
    if !field_type.is_optional() {
        return push_value_at(alloc, out, MAX_LEVELS, field_type, bytes);
    }
    let Ok((present, rest)) = byte_at(bytes) else {
        return Err(out.refusal());
    };
    if present == 0 {
        out.put("None")?;
        return Ok(rest);
    }
    push_value_at(alloc, out, MAX_LEVELS, field_type, rest)
}

// Appends the value of a type at the front of the bytes, of at most so many levels, its own among them, and answers the
// bytes after it.
#[cycle(spelled)]
fn push_value_at<'a, L: GrowingLine>(
    alloc: Global,
    out: &mut L,
    levels: u32,
    field_type: FieldType,
    bytes: &'a [u8],
) -> Result<&'a [u8], L::Fault>
    ensures { PutsRead L.grows value_text (value_at owned_reader levels field_type bytes.now)
        out.old out.new result }
{
    if levels == 0 {
        return Err(out.refusal());
    }
    match field_type.inner() {
        FieldType::DynamicList => push_list_at(alloc, out, levels - 1, bytes),
        FieldType::DynamicMap => push_map_at(alloc, out, levels - 1, bytes),
        FieldType::StringMap => push_texts_at(out, bytes),
        plain => push_plain_at(alloc, out, plain, bytes),
    }
}

// The same of a map of texts.
fn push_texts_at<'a, L: GrowingLine>(out: &mut L, bytes: &'a [u8]) -> Result<&'a [u8], L::Fault>
    ensures { PutsRead L.grows value_text
        (as_value texts (many_at most_items text_pair_at bytes.now)) out.old out.new result }
{
    let Ok((count, rest)) = count_at(MAX_ITEMS, bytes) else {
        return Err(out.refusal());
    };
    tri!(out.put("StringMap:{"));
    let rest = tri!(push_text_pairs_at(out, count, rest));
    tri!(out.put("}"));
    Ok(rest)
}

// Appends so many pairs of texts, with commas between them.
fn push_text_pairs_at<'a, L: GrowingLine>(
    out: &mut L,
    count: u32,
    bytes: &'a [u8],
) -> Result<&'a [u8], L::Fault>
    ensures { PutsRead L.grows (λ ps. join_by pair_text (codes ",") ps)
        (times_at text_pair_at count bytes.now) out.old out.new result }
{
    let mut rest = bytes;
    'pairs: for index in 0..count as usize {
        out.put(CommaBefore(index))?;
        rest = push_text_pair_at(out, rest)?;
    }
    Ok(rest)
}

// Appends the pair of texts at the front.
fn push_text_pair_at<'a, L: GrowingLine>(out: &mut L, bytes: &'a [u8]) -> Result<&'a [u8], L::Fault>
    ensures { PutsRead L.grows pair_text (text_pair_at bytes.now) out.old out.new result }
{
    let Ok((key, after)) = counted_at(bytes) else {
        return Err(out.refusal());
    };
    let Ok((value, rest)) = counted_at(after) else {
        return Err(out.refusal());
    };
    out.put_on(QuotedPair { key, value })?;
    Ok(rest)
}

// A key and its value, both in quotes.
#[derive(Clone, Copy)]
struct QuotedPair<'a> {
    key: &'a [u8],
    value: &'a [u8],
}

impl<'a> LinePart for QuotedPair<'a> {
    ghost text = { λ p. pair_text (p.key.now, p.value.now) };

    #[inline(always)]
    fn push_to(self, out: &mut String) -> Result<(), AllocError> {
        push_text_pair(out, self.key, self.value)
    }
}

// The same of a value of any other plain type: it is made, and then appended.
fn push_plain_at<'a, L: GrowingLine>(
    alloc: Global,
    out: &mut L,
    field_type: FieldType,
    bytes: &'a [u8],
) -> Result<&'a [u8], L::Fault>
    ensures { PutsRead L.grows value_text (value_at owned_reader 33 field_type bytes.now)
        out.old out.new result }
{
    let Ok(Some((value, rest))) = FieldValue::decode(alloc, field_type, bytes) else {
        return Err(out.refusal());
    };
    push_plain_value(out, &value)?;
    Ok(rest)
}

// Appends a value that holds no others: a text run by run.
fn push_plain_value<L: GrowingLine>(out: &mut L, value: &FieldValue) -> Result<(), L::Fault>
    ensures { L.grows out.old (value_text (view value.now)) result out.new }
{
    match value {
        FieldValue::String(characters) => push_text_runs(out, characters.as_bytes()),
        _ => push_line_value(out, value, &Shown::Plain),
    }
}

// Appends a text run by run, so that of a long one, of which each byte may take four, a front is sent.
fn push_text_runs<L: GrowingLine>(out: &mut L, characters: &[u8]) -> Result<(), L::Fault>
    ensures { L.grows out.old (value_text (text characters.now)) result out.new }
{
    tri!(out.put("String:\""));
    let mut rest = characters;
    'runs: while rest.len() > RUN {
        let (run, others) = rest.split_at(RUN);
        tri!(out.put_on(Unquoted(run)));
        rest = others;
    }
    tri!(out.put_on(Unquoted(rest)));
    out.put("\"")
}

// Bytes as they stand between quotes.
#[derive(Clone, Copy)]
struct Unquoted<'a>(&'a [u8]);

impl<'a> LinePart for Unquoted<'a> {
    ghost text = { λ p. flat_map quoted_byte p.0.now };

    #[inline(always)]
    fn push_to(self, out: &mut String) -> Result<(), AllocError> {
        push_unquoted(out, self.0)
    }
}

// The same of a list, whose items are of at most so many levels.
#[cycle(spelled)]
fn push_list_at<'a, L: GrowingLine>(
    alloc: Global,
    out: &mut L,
    levels: u32,
    bytes: &'a [u8],
) -> Result<&'a [u8], L::Fault>
    ensures { PutsRead L.grows value_text
        (plain_at owned_reader (value_at owned_reader levels) types.DynamicList bytes.now) out.old
        out.new result }
{
    let Ok((count, rest)) = count_at(MAX_ITEMS, bytes) else {
        return Err(out.refusal());
    };
    tri!(out.put("List:["));
    let rest = tri!(push_items_at(alloc, out, levels, count, rest));
    tri!(out.put("]"));
    Ok(rest)
}

// The same of a map.
#[cycle(spelled)]
fn push_map_at<'a, L: GrowingLine>(
    alloc: Global,
    out: &mut L,
    levels: u32,
    bytes: &'a [u8],
) -> Result<&'a [u8], L::Fault>
    ensures { PutsRead L.grows value_text
        (plain_at owned_reader (value_at owned_reader levels) types.DynamicMap bytes.now) out.old
        out.new result }
{
    let Ok((count, rest)) = count_at(MAX_ITEMS, bytes) else {
        return Err(out.refusal());
    };
    tri!(out.put("Map:{"));
    let rest = tri!(push_pairs_at(alloc, out, levels, count, rest));
    tri!(out.put("}"));
    Ok(rest)
}

// Appends so many items, with commas between them.
#[cycle(spelled)]
fn push_items_at<'a, L: GrowingLine>(
    alloc: Global,
    out: &mut L,
    levels: u32,
    count: u32,
    bytes: &'a [u8],
) -> Result<&'a [u8], L::Fault>
    ensures { PutsRead L.grows (λ vs. join_by value_text (codes ",") vs)
        (times_at (item_at (value_at owned_reader levels)) count bytes.now) out.old out.new
        result }
{
    let mut rest = bytes;
    'items: for index in 0..count as usize {
        out.put(CommaBefore(index))?;
        rest = push_item_at(alloc, out, levels, rest)?;
    }
    Ok(rest)
}

// Appends so many pairs, with commas between them.
#[cycle(spelled)]
fn push_pairs_at<'a, L: GrowingLine>(
    alloc: Global,
    out: &mut L,
    levels: u32,
    count: u32,
    bytes: &'a [u8],
) -> Result<&'a [u8], L::Fault>
    ensures { PutsRead L.grows (λ ps. join_by pair_value_text (codes ",") ps)
        (times_at (pair_at (value_at owned_reader levels)) count bytes.now) out.old out.new
        result }
{
    let mut rest = bytes;
    'pairs: for index in 0..count as usize {
        out.put(CommaBefore(index))?;
        rest = push_pair_at(alloc, out, levels, rest)?;
    }
    Ok(rest)
}

// Appends the key and the value of the pair at the front.
#[cycle(spelled)]
fn push_pair_at<'a, L: GrowingLine>(
    alloc: Global,
    out: &mut L,
    levels: u32,
    bytes: &'a [u8],
) -> Result<&'a [u8], L::Fault>
    ensures { PutsRead L.grows pair_value_text (pair_at (value_at owned_reader levels) bytes.now)
        out.old out.new result }
{
    let rest = push_item_at(alloc, out, levels, bytes)?;
    out.put("=")?;
    push_item_at(alloc, out, levels, rest)
}

// Appends the value at the front, which stands after the tag of its type.
#[cycle(spelled)]
fn push_item_at<'a, L: GrowingLine>(
    alloc: Global,
    out: &mut L,
    levels: u32,
    bytes: &'a [u8],
) -> Result<&'a [u8], L::Fault>
    ensures { PutsRead L.grows value_text (item_at (value_at owned_reader levels) bytes.now) out.old
        out.new result }
{
    match bytes {
        [] => Err(out.refusal()),
        [tag, rest @ ..] => match type_with_tag(*tag) {
            Some(field_type) => push_value_at(alloc, out, levels, field_type, rest),
            None => Err(out.refusal()),
        },
    }
}
