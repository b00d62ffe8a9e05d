//! The names of columns.

ghost use Rattle.std.specs.Prelude.{◌≡◌, ◌<◌, length, IfOk, OnOk, string_bytes};
ghost use Rattle.csv.specs.Records.{fields_of};
ghost use Rattle.trace_csv.specs.Columns.{has_unfit, is_unfit, is_among, takes_number, column_name};
ghost use Rattle.trace_csv.specs.Columns.{column_names};

use csv::ByteRecord;
use std::alloc::{AllocError, Global};
use trace_values::tri;
use trace_wire::schema::FieldDef;

/// The name of the column with the times of events.
pub const TIME: &str = "timestamp_ns";

/// The most fields of a schema whose columns have the names of the fields alone.
pub const MOST_NAMED: usize = 1000;

/// Makes a row of the names of columns, in place of what it held: that of the times, and one for each field.
/// `AllocError` where a growth was refused: then the row may hold some of the names.
pub fn put_columns(
    alloc: Global,
    row: &mut ByteRecord,
    fields: &[FieldDef],
) -> Result<(), AllocError>
    ensures names { OnOk result (fields_of row.new ≡ column_names fields.now) }
{
    row.clear();
    tri!(row.push_field(TIME.as_bytes()));
    'fields: for place in 0..fields.len() {
        let name = tri!(column_name(alloc, fields, place));
        tri!(row.push_field(name.as_bytes()));
    }
    Ok(())
}

/// The name of the column of a field: the field's, and where that would not do, with `#` and the number of the field.
/// It would not do where it is that of the times or of an earlier field, apart from the case of ASCII letters, and
/// where the schema has more than 1,000 fields. Of an empty name, and of one with a control character, a `"` or a `#`,
/// the number stands alone. `AllocError` where a growth was refused.
pub fn column_name(alloc: Global, fields: &[FieldDef], place: usize) -> Result<String, AllocError>
    requires { place < length fields.now }
    ensures { IfOk result (λ name. string_bytes name ≡ column_name fields.now place) }
{
    let name = fields[place].name();
    if !takes_number(fields.len(), &fields[..place], name) {
        return String::from_str(alloc, name);
    }
    let kept = if is_unfit(name) { "" } else { name };
    format!(in alloc; "{kept}#{}", place + 1)
}

// Whether a name takes the number of its field, by how many fields there are and those before it.
fn takes_number(count: usize, before: &[FieldDef], name: &str) -> bool
    ensures { result ≡ takes_number count before.now name.now }
{
    count > MOST_NAMED
        || (name.eq_ignore_ascii_case(TIME) || (is_unfit(name) || is_among(before, name)))
}

// Whether a name is that of one of these fields, apart from the case of letters.
fn is_among(fields: &[FieldDef], name: &str) -> bool
    ensures { result ≡ is_among fields.now name.now }
{
    fields
        .iter()
        .any(|field| field.name().eq_ignore_ascii_case(name))
}

// Whether a name is empty, or a character stands in it that has no place in a column's.
fn is_unfit(name: &str) -> bool
    ensures { result ≡ is_unfit name.now }
{
    name.is_empty() || has_unfit(name)
}

// Whether a character stands in a name that has no place in a column's.
fn has_unfit(name: &str) -> bool
    ensures { result ≡ has_unfit name.now }
{
    name.as_bytes()
        .iter()
        .any(|byte| *byte < b' ' || (*byte == b'"' || *byte == b'#'))
}
