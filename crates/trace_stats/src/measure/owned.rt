//! What is counted of a value that owns its memory.

ghost use Rattle.std.specs.Prelude.{◌≡◌};
ghost use Rattle.trace_values.specs.ValueViews.{view};
ghost use Rattle.dial9_trace_format.specs.parts.Resolving.{as_pools};
ghost use Rattle.dial9_trace_format.specs.Resolving.{in_full};
ghost use Rattle.trace_stats.specs.Fields.{measure_of};

use crate::measure::{Measure, measure_of_integer};
use trace_values::types::FieldValue;
use trace_wire::pools::{StackPool, StringPool};

/// What is counted of such a value, with what the pools hold in place of ids.
pub(crate) fn measure_of_owned(
    strings: &StringPool,
    stacks: &StackPool,
    value: &FieldValue,
) -> Measure
    ensures { result ≡ measure_of (in_full (as_pools strings.now stacks.now) (view value.now)) }
{
    measure_of!(
        FieldValue,
        value,
        strings,
        stacks,
        |frames| frames.as_slice().len() as u64
    )
}
