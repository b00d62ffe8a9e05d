//! What an event adds to the numbers of stacks.

ghost use Rattle.std.specs.Prelude.{◌≡◌, ◌++◌, ◌∷◌, [], List, OnOk, OnErr, IfErr, option_map};
ghost use Rattle.std.specs.BTreeMap.{IsUnchanged};
ghost use Rattle.trace_values.specs.ValueViews.{view};
ghost use Rattle.dial9_trace_format.specs.ShownEvents.{ShownEvent};
ghost use Rattle.trace_events.specs.OwnedEvents.{owned_event};
ghost use Rattle.trace_folded.specs.Events.{natural_in, natural_of, place_of, value_named, amount_of, AreCountsOf};
ghost use Rattle.trace_folded.specs.Events.{IsTooMuch, PutsOnlyStackOf};
ghost use Rattle.trace_folded.specs.Stacks.{folded_text};
ghost use Rattle.trace_folded.specs.Tallies.{PutsNoOther};
ghost use Rattle.trace_folded.specs.parts.Events.{AddsPart, IsPartTooMuch};
ghost use Rattle.trace_folded.specs.declared.tally.FoldError.TheVariants.{Full};

use crate::stack::first_stack;
use crate::tally::{FoldError, FoldedStacks};
use trace_events::event::OwnedEvent;
use trace_values::types::FieldValue;
use trace_wire::schema::FieldDef;

impl FoldedStacks {
    /// Adds one to the number of an event's stack; or with `by` the number that its first field of this name is.
    /// Events without a stack, or without such a number from 0 on, add nothing. `OutOfMemory` where a growth was
    /// refused, `Full` where the number of the stack would pass 2^64 - 1: then nothing changes.
    pub fn add_event(&mut self, event: &OwnedEvent<'_>, by: Option<&str>) -> Result<(), FoldError>
        ensures added { OnOk result ((es : List ShownEvent)
            → AreCountsOf (option_map (λ t. t.now) by.entry) es self.old
            → AreCountsOf (option_map (λ t. t.now) by.entry) (es ++ owned_event event.now ∷ []) self.new) }
        ensures others { OnOk result (PutsOnlyStackOf (owned_event event.now) self.old self.new) }
        ensures refused { OnErr result (IsUnchanged self.old.counts self.new.counts) }
        ensures full { IfErr result (λ e. e ≡ Full
            → IsTooMuch (option_map (λ t. t.now) by.entry) (owned_event event.now) self.old) }
    {
        match first_stack(event.values, event.stack_pool) {
            Some(stack) => self.add_amount(stack, amount_of(event, by)),
            None => Ok(()),
        }
    }

    // Adds so much to the number of a stack, where that is known.
    fn add_amount(&mut self, stack: &[u64], amount: Option<u64>) -> Result<(), FoldError>
        ensures added { OnOk result (AddsPart self.old self.new stack.now amount) }
        ensures others { OnOk result (PutsNoOther self.old.counts self.new.counts
            (folded_text stack.now)) }
        ensures refused { OnErr result (IsUnchanged self.old.counts self.new.counts) }
        ensures full { IfErr result (λ e. e ≡ Full → IsPartTooMuch self.old stack.now amount) }
    {
        match amount {
            Some(more) => self.add(stack, more),
            None => Ok(()),
        }
    }
}

/// How much an event counts: one, or with `by` the number that its first field of this name is. `None` where that is no
/// number from 0 on.
pub fn amount_of(event: &OwnedEvent<'_>, by: Option<&str>) -> Option<u64>
    ensures { result ≡ amount_of (option_map (λ t. t.now) by.entry) (owned_event event.now) }
{
    let Some(name) = by else {
        return Some(1);
    };
    match value_named(event, name) {
        Some(value) => natural_of(value),
        None => None,
    }
}

// The value of the first field of a name.
fn value_named<'e>(event: &OwnedEvent<'e>, name: &str) -> Option<&'e FieldValue>
    ensures { option_map (λ v. view v.now) result ≡ value_named name.now (owned_event event.now) }
{
    match place_of(event.schema.fields(), name) {
        Some(place) => event.values.get(place),
        None => None,
    }
}

// The index of the first field of a name.
fn place_of(fields: &[FieldDef], name: &str) -> Option<usize>
    ensures { result ≡ place_of name.now fields.now }
{
    fields.iter().position(|field| field.name() == name)
}

// The number from 0 on that a value is.
fn natural_of(value: &FieldValue) -> Option<u64>
    ensures { result ≡ natural_of (view value.now) }
{
    match value {
        FieldValue::Varint(number) => Some(*number),
        FieldValue::I64(number) => natural(*number),
        _ => None,
    }
}

// A number, where it is not below 0.
fn natural(number: i64) -> Option<u64>
    ensures { result ≡ natural_in number }
{
    match u64::try_from(number) {
        Ok(natural) => Some(natural),
        Err(_) => None,
    }
}
