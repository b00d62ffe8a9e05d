//! Events of the sample types, from the values of a script (docs/RECORDINGS.md, "Scripts").

ghost use Rattle.std.specs.Prelude.{◌≡◌, true, IfOk};
ghost use Rattle.trace_values.specs.ValueViews.{views};
ghost use Rattle.trace_recordings.specs.Samples.{WritesEvent, is_of, is_sample};
ghost use Rattle.trace_recordings.specs.declared.typed.Unheld.TheVariants.{Memory};

mod events;
mod fields;

use crate::player::done_reply;
use events::HoldsValues;
use std::alloc::{AllocError, AllocFailed, Global};
use trace_samples::events::{
    AlsoByName, Annotated, Borrowed, ByName, Dynamic, FastSlot, LastSlot, Nameless, Numbers,
    Options, Poll, PollAgain, PollAnnotated, SlotClash, Stacks, Texts, Wide,
};
use trace_values::types::FieldValue;
use trace_wire::schema::SchemaEntry;
use trace_writer::encoder::{Encoder, Reply, Schema};
use trace_writer::event::TraceEvent;

/// A sample type that a script names.
#[derive(Drop)]
pub struct SampleType {
    /// Its slot.
    pub slot: u64,
    /// Its schema.
    pub schema: Schema,
}

// Calls a macro with these arguments and then the sample types that scripts may name.
macro_rules! with_sample_types {
    ($through:ident, $($argument:tt),+) => {
        $through!($($argument,)+ FastSlot, Poll, Texts, Stacks, Annotated, LastSlot, ByName, Dynamic, PollAgain,
            PollAnnotated, SlotClash, AlsoByName, Nameless, Borrowed<'_>, Numbers, Options, Wide)
    };
}

// Whether one of the types has a slot and a schema.
macro_rules! any_type {
    ($of:tt, $type:ty) => {
        is_type::<$type>$of
    };
    ($of:tt, $type:ty, $($others:ty),+) => {
        is_type::<$type>$of || any_type!($of, $($others),+)
    };
}

// What `write_as` answers for the first of the types that has a slot and a schema.
macro_rules! write_as_first {
    ($of:tt, $arguments:tt, $($type:ty),+) => {
        $(if is_type::<$type>$of {
            write_as::<$type>$arguments
        } else)+ {
            Err(Unheld::Unfit)
        }
    };
}

/// Why no field or event holds a value.
#[derive(Clone, Copy, Debug, PartialEq, Eq)]
pub enum Unheld {
    /// It is of another kind, or too large, or not UTF-8; or there are more or fewer.
    Unfit,
    /// A growth was refused.
    Memory,
}

impl From<AllocError> for Unheld {
    ghost from_gives = { λ _ u. u ≡ Memory };

    fn from(_: AllocError) -> Unheld {
        Unheld::Memory
    }
}

impl<T: Drop> From<AllocFailed<T>> for Unheld {
    ghost from_gives = { λ _ u. u ≡ Memory };

    fn from(_: AllocFailed<T>) -> Unheld {
        Unheld::Memory
    }
}

/// Whether a sample type has this slot and this schema.
pub fn is_sample(slot: u64, entry: &SchemaEntry) -> bool
    ensures { result ≡ is_sample slot entry.now }
{
    with_sample_types!(any_type, (slot, entry))
}

// Whether a type has this slot and this schema.
fn is_type<T: TraceEvent>(slot: u64, entry: &SchemaEntry) -> bool
    ensures { result ≡ is_of slot entry.now (T.slot, T.entry) }
{
    u64::from(T::type_slot()) == slot && T::is_entry(entry)
}

/// Writes the event of a sample type that has these values. What the encoder refuses is the reply. `Unfit` where the
/// type has no event of these values, and `Memory` where a growth for the event was refused: the encoder is not
/// called then.
pub fn write_sample(
    alloc: Global,
    encoder: &mut Encoder,
    sample: &SampleType,
    time: u64,
    values: &[FieldValue],
) -> Result<Reply, Unheld>
    ensures { IfOk result
        (WritesEvent sample.now.slot sample.now.schema time (views values.now) encoder.old
        encoder.new) }
{
    let slot = sample.slot;
    let entry = sample.schema.entry();
    with_sample_types!(
        write_as_first,
        (slot, entry),
        (slot, entry, alloc, encoder, time, values)
    )
}

// The same of a type that has this slot and this schema.
fn write_as<'a, T: HoldsValues<'a> + Drop>(
    slot: u64,
    entry: &SchemaEntry,
    alloc: Global,
    encoder: &mut Encoder,
    time: u64,
    values: &'a [FieldValue],
) -> Result<Reply, Unheld>
    requires { is_of slot entry.now (T.slot, T.entry) ≡ true }
    ensures { IfOk result
        (WritesEvent slot entry.now time (views values.now) encoder.old encoder.new) }
{
    let event = T::of_values(alloc, time, values)?;
    Ok(done_reply(encoder.write(&event)))
}
