//! Whether schemas are the same: as `trace_events::schema::is_same_schema`, in fewer steps where names are short.

ghost use Rattle.std.specs.Prelude.{◌≡◌, ◌≤◌, length, nat_eq, take};
ghost use Rattle.std.specs.Int.{w32, from_le_bytes, to_le_bytes};
ghost use Rattle.std.specs.Cmp.Lexicographic.{pointwise};
ghost use Rattle.trace_wire.specs.Schemas.{same_field};
ghost use Rattle.trace_events.specs.Schemas.{is_same_schema};

use trace_wire::schema::{FieldDef, SchemaEntry};

// So many bytes make a word.
const WORD: usize = 4;

/// Whether two schemas have the same name and the same fields, whatever their annotations.
#[inline]
pub(crate) fn is_same(one: &SchemaEntry, other: &SchemaEntry) -> bool
    ensures { result ≡ is_same_schema one.now other.now }
{
    is_same_text(one.name().as_bytes(), other.name().as_bytes())
        && are_same_fields(one.fields(), other.fields())
}

// Whether two lists of fields are the same.
#[inline]
fn are_same_fields(one: &[FieldDef], other: &[FieldDef]) -> bool
    ensures { result ≡ pointwise same_field one.now other.now }
{
    if one.len() != other.len() {
        return false;
    }
    'fields: for index in 0..one.len() {
        if !is_same_field(&one[index], &other[index]) {
            return false;
        }
    }
    true
}

// Whether two fields have the same name and the same type.
#[inline(always)]
fn is_same_field(one: &FieldDef, other: &FieldDef) -> bool
    ensures { result ≡ same_field one.now other.now }
{
    is_same_text(one.name().as_bytes(), other.name().as_bytes())
        && one.field_type().tag() == other.field_type().tag()
}

// Whether two texts are the same. Those of four to eight bytes are by their first four and their last four.
#[inline(always)]
fn is_same_text(one: &[u8], other: &[u8]) -> bool
    ensures { result ≡ pointwise nat_eq one.now other.now }
{
    let length = one.len();
    if length != other.len() {
        return false;
    }
    if length < WORD || 2 * WORD < length {
        return one == other;
    }
    if first_word(one) != first_word(other) {
        return false;
    }
    let last = length - WORD;
    first_word(&one[last..]) == first_word(&other[last..])
}

// The number that the first four bytes are, the lowest first.
#[inline(always)]
fn first_word(bytes: &[u8]) -> u32
    requires { 4 ≤ length bytes.now }
    ensures number { result ≡ from_le_bytes w32 (take 4 bytes.now) }
    ensures bytes { to_le_bytes w32 result ≡ take 4 bytes.now }
{
    u32::from_le_bytes([bytes[0], bytes[1], bytes[2], bytes[3]])
}
