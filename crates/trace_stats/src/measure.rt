//! What is counted of a value.

ghost use Rattle.std.specs.Prelude.{◌≡◌};
ghost use Rattle.trace_values.specs.Refs.{ref_view};
ghost use Rattle.dial9_trace_format.specs.parts.Resolving.{as_pools};
ghost use Rattle.dial9_trace_format.specs.Resolving.{in_full};
ghost use Rattle.trace_stats.specs.Fields.{measure_of, measure_of_integer};

pub(crate) use owned::measure_of_owned;
use trace_values::types::FieldValueRef;
use trace_wire::pools::{StackPool, StringPool};

// What is counted of a value of a type, whose stacks have so many addresses.
macro_rules! measure_of {
    ($values:ident, $value:expr, $strings:expr, $stacks:expr, |$frames:ident| $count:expr) => {
        match $value {
            $values::I64(number) => measure_of_integer(*number),
            $values::Varint(number) => Measure::Natural(*number),
            $values::F64(bits) => Measure::Float(*bits),
            $values::String(text) => Measure::Length(text.len() as u64),
            $values::Bytes(bytes) => Measure::Length(bytes.len() as u64),
            $values::StackFrames($frames) => Measure::Length($count),
            $values::PooledString(id) => match $strings.get(*id) {
                Some(text) => Measure::Length(text.len() as u64),
                None => Measure::Nothing,
            },
            $values::PooledStackFrames(id) => match $stacks.get(*id) {
                Some(addresses) => Measure::Length(addresses.len() as u64),
                None => Measure::Nothing,
            },
            _ => Measure::Nothing,
        }
    };
}

mod owned;

/// What is counted of a value.
#[derive(Clone, Copy, Debug)]
pub(crate) enum Measure {
    /// A number from 0 on.
    Natural(u64),
    /// How far a number lies below 0.
    Negative(u64),
    /// A float, by its bits.
    Float(u64),
    /// How long a text, bytes or a stack is.
    Length(u64),
    /// Nothing.
    Nothing,
}

/// What is counted of a value, with what the pools hold in place of ids.
pub(crate) fn measure_of(
    strings: &StringPool,
    stacks: &StackPool,
    value: &FieldValueRef<'_>,
) -> Measure
    ensures { result ≡ measure_of (in_full (as_pools strings.now stacks.now) (ref_view value.now)) }
{
    measure_of!(
        FieldValueRef,
        value,
        strings,
        stacks,
        |frames| u64::from(frames.count())
    )
}

fn measure_of_integer(number: i64) -> Measure
    ensures { result ≡ measure_of_integer number }
{
    if number < 0 {
        Measure::Negative(number.unsigned_abs())
    } else {
        Measure::Natural(number as u64)
    }
}
