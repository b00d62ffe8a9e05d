//! The cells of an event.

ghost use Rattle.std.specs.Prelude.{◌≡◌, [], OnOk, map as list_map};
ghost use Rattle.std.specs.Fmt.{decimal};
ghost use Rattle.csv.specs.Records.{fields_of, partial_of};
ghost use Rattle.dial9_trace_format.specs.parts.Resolving.{as_pools};
ghost use Rattle.dial9_trace_format.specs.ShownEvents.{shown_event};
ghost use Rattle.trace_events.specs.OwnedEvents.{owned_event};
ghost use Rattle.trace_csv.specs.Cells.{AreEventCells, IsCellOf};
ghost use Rattle.trace_csv.specs.CellKinds.{HasJsonCell};
ghost use Rattle.trace_csv.specs.parts.Cells.{PushesCell, AreRowCells};
ghost use Rattle.trace_values.specs.Values.{float};

use crate::kinds::{CellKind, CellValue};
use csv::ByteRecord;
use dial9_trace_format::decoder::RawEvent;
use std::alloc::{AllocError, Global};
use std::num::f64_from_bits_with_nan;
use trace_events::event::OwnedEvent;
use trace_json::leaves::special_text;
use trace_json::value::value_text;
use trace_wire::pools::{StackPool, StringPool};

/// Makes a row of an event, in place of what it held: its time in nanoseconds, and the values of its fields, ids of the
/// pools resolved. A text is a cell as it is, an absent value is an empty one, and any other is as in a line of JSON
/// (docs/FORMAT.md, "Lines of JSON"). `AllocError` where a growth was refused: then the row may hold some of the cells.
pub fn put_event(
    alloc: Global,
    row: &mut ByteRecord,
    event: &RawEvent<'_, '_>,
) -> Result<(), AllocError>
    ensures cells { OnOk result (AreEventCells (shown_event event.now) (fields_of row.new)) }
{
    let (strings, stacks) = (event.string_pool, event.stack_pool);
    put_row(
        alloc,
        row,
        event.timestamp_ns,
        event.fields,
        strings,
        stacks,
    )
}

/// Makes a row of an event whose values own their memory, as `put_event` does.
pub fn put_owned_event(
    alloc: Global,
    row: &mut ByteRecord,
    event: &OwnedEvent<'_>,
) -> Result<(), AllocError>
    ensures cells { OnOk result (AreEventCells (owned_event event.now) (fields_of row.new)) }
{
    let (strings, stacks) = (event.string_pool, event.stack_pool);
    put_row(
        alloc,
        row,
        event.timestamp_ns,
        event.values,
        strings,
        stacks,
    )
}

// Makes a row of a time and the values of an event.
fn put_row<V: CellValue>(
    alloc: Global,
    row: &mut ByteRecord,
    timestamp_ns: u64,
    values: &[V],
    strings: &StringPool,
    stacks: &StackPool,
) -> Result<(), AllocError>
    ensures cells { OnOk result (AreRowCells (as_pools strings.now stacks.now) timestamp_ns
        (list_map V.value values.now) (fields_of row.new)) }
{
    row.clear();
    push_natural(row, timestamp_ns)?;
    'fields: for value in values {
        push_cell(alloc, row, strings, stacks, value)?;
    }
    Ok(())
}

// Appends a cell of the digits of a number.
fn push_natural(row: &mut ByteRecord, number: u64) -> Result<(), AllocError>
    requires { partial_of row.old ≡ [] }
    ensures { PushesCell (λ cell. cell ≡ decimal number) row.old row.new result }
{
    let mut digits = itoa::Buffer::new();
    row.push_field(digits.format(number).as_bytes())
}

// Appends the cell of a value.
fn push_cell<V: CellValue>(
    alloc: Global,
    row: &mut ByteRecord,
    strings: &StringPool,
    stacks: &StackPool,
    value: &V,
) -> Result<(), AllocError>
    requires { partial_of row.old ≡ [] }
    ensures { PushesCell (IsCellOf (as_pools strings.now stacks.now) (V.value value.now)) row.old
        row.new result }
{
    match value.cell_kind() {
        CellKind::Text(text) => row.push_field(text.as_bytes()),
        CellKind::PooledText(id) => match strings.get(id) {
            Some(text) => row.push_field(text.as_bytes()),
            None => push_json(alloc, row, strings, stacks, value),
        },
        CellKind::Natural(number) => push_natural(row, number),
        CellKind::Float(bits) => push_float(alloc, row, strings, stacks, value, bits),
        CellKind::Absent => row.push_field(b""),
        CellKind::Json => push_json(alloc, row, strings, stacks, value),
    }
}

// Appends the cell of a float, by its bits: a numeral where it is finite, else its text.
fn push_float<V: CellValue>(
    alloc: Global,
    row: &mut ByteRecord,
    strings: &StringPool,
    stacks: &StackPool,
    value: &V,
    bits: u64,
) -> Result<(), AllocError>
    requires whole { partial_of row.old ≡ [] }
    requires float { V.value value.now ≡ float bits }
    ensures { PushesCell (IsCellOf (as_pools strings.now stacks.now) (V.value value.now)) row.old
        row.new result }
{
    if f64_from_bits_with_nan(bits).is_finite() {
        return push_json(alloc, row, strings, stacks, value);
    }
    let text = special_text(alloc, bits)?;
    row.push_field(text.as_bytes())
}

// Appends the cell of a value that is the text of its JSON.
fn push_json<V: CellValue>(
    alloc: Global,
    row: &mut ByteRecord,
    strings: &StringPool,
    stacks: &StackPool,
    value: &V,
) -> Result<(), AllocError>
    requires whole { partial_of row.old ≡ [] }
    requires json { HasJsonCell (as_pools strings.now stacks.now) (V.value value.now) }
    ensures { PushesCell (IsCellOf (as_pools strings.now stacks.now) (V.value value.now)) row.old
        row.new result }
{
    let text = value_text(alloc, strings, stacks, value)?;
    row.push_field(text.as_slice())
}
