//! The stack of an event.

ghost use Rattle.std.specs.Prelude.{◌≡◌, option_map};
ghost use Rattle.trace_values.specs.ValueViews.{view, views};
ghost use Rattle.trace_folded.specs.Stacks.{stack_of, first_stack};

use trace_values::types::FieldValue;
use trace_wire::pools::StackPool;

/// The first stack among the values of an event, with what the pool holds in place of an id. Stacks inside lists and
/// maps are not looked for.
pub fn first_stack<'e>(values: &'e [FieldValue], pool: &'e StackPool) -> Option<&'e [u64]>
    ensures { option_map (λ s. s.now) result ≡ first_stack pool.now (views values.now) }
{
    'values: for value in values {
        if let Some(stack) = stack_of(value, pool) {
            return Some(stack);
        }
    }
    None
}

// The stack that a value is.
fn stack_of<'e>(value: &'e FieldValue, pool: &'e StackPool) -> Option<&'e [u64]>
    ensures { option_map (λ s. s.now) result ≡ stack_of pool.now (view value.now) }
{
    match value {
        FieldValue::StackFrames(frames) => Some(frames.as_slice()),
        FieldValue::PooledStackFrames(id) => pool.get(*id),
        _ => None,
    }
}
