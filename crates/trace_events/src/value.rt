//! Values of events, whoever holds them.

ghost use Rattle.std.specs.Prelude.{ℕ};
ghost use Rattle.trace_values.specs.Refs.{ref_view};
ghost use Rattle.trace_values.specs.Values.{Value};
ghost use Rattle.trace_values.specs.ValueViews.{view};
ghost use Rattle.trace_values.specs.declared.types.borrowed.FieldValueRef.TheViews.{size-FieldValueRef};
ghost use Rattle.trace_values.specs.declared.types.field_value.FieldValue.{size-FieldValue};
ghost use Rattle.trace_events.specs.Holding.{Holds};

use trace_values::types::{FieldValue, FieldValueRef, items_of, pairs_of};

/// The values that a value holds.
#[derive(Clone, Copy)]
pub enum Held<'a, V> {
    /// The items of a list.
    Items(&'a [V]),
    /// The keys and values of a map.
    Pairs(&'a [(V, V)]),
    /// None.
    Nothing,
}

/// A value of an event (docs/FORMAT.md, "Values"), whoever holds it.
pub trait TraceValue: Sized {
    /// What it is.
    ghost value: { Self → Value };

    /// How deep it is: deeper than the values that it holds.
    ghost depth: { Self → ℕ };

    /// The values that it holds.
    fn held(&self) -> Held<'_, Self>
        ensures { Holds value depth self.now result };
}

impl TraceValue for FieldValue {
    ghost value = { view };

    ghost depth = { size-FieldValue };

    fn held(&self) -> Held<'_, FieldValue> {
        match self {
            FieldValue::List(items) => Held::Items(items),
            FieldValue::Map(pairs) => Held::Pairs(pairs),
            _ => Held::Nothing,
        }
    }
}

impl<'a> TraceValue for FieldValueRef<'a> {
    ghost value = { ref_view };

    ghost depth = { size-FieldValueRef };

    fn held(&self) -> Held<'_, FieldValueRef<'a>> {
        match self {
            FieldValueRef::List(items) => Held::Items(items_of(items)),
            FieldValueRef::Map(pairs) => Held::Pairs(pairs_of(pairs)),
            _ => Held::Nothing,
        }
    }
}
