//! Units of fields, and kinds of counters.

ghost use Rattle.std.specs.Prelude.{◌≡◌, codes, option_map};
ghost use Rattle.trace_roles.specs.Roles.{note_of};
ghost use Rattle.trace_roles.specs.Units.{nanoseconds_in, is_summed, counter_named, counter_of};

use crate::roles::note_of;
use trace_wire::schema::SchemaEntry;

/// What the numbers of a field add up to (docs/ROLES.md, "Counters").
#[derive(Clone, Copy, Debug, PartialEq, Eq)]
pub enum CounterKind {
    /// Each number is the value itself.
    Gauge,
    /// Each number is a step, and none is negative.
    Counter,
    /// Each number is a step, up or down.
    UpDownCounter,
}

impl CounterKind {
    /// Whether the numbers are steps that are summed.
    pub fn is_summed(self) -> bool
        ensures { result ≡ is_summed self }
    {
        match self {
            CounterKind::Gauge => false,
            CounterKind::Counter | CounterKind::UpDownCounter => true,
        }
    }
}

/// The unit that a field is annotated with.
pub fn unit_of(entry: &SchemaEntry, index: u16) -> Option<&str>
    ensures { option_map (λ t. t.now) result ≡ note_of entry.now index (codes "unit") }
{
    note_of(entry, index, "unit")
}

/// What kind of counter a field is annotated as.
pub fn counter_of(entry: &SchemaEntry, index: u16) -> Option<CounterKind>
    ensures { result ≡ counter_of entry.now index }
{
    match note_of(entry, index, "kind") {
        Some(kind) => counter_named(kind),
        None => None,
    }
}

// The kind of counter with this name.
fn counter_named(name: &str) -> Option<CounterKind>
    ensures { result ≡ counter_named name.now }
{
    if name == "gauge" {
        Some(CounterKind::Gauge)
    } else if name == "counter" {
        Some(CounterKind::Counter)
    } else if name == "updown-counter" {
        Some(CounterKind::UpDownCounter)
    } else {
        None
    }
}

/// How many nanoseconds one of a unit of time is; `None` where it is no such unit.
pub fn nanoseconds_in(unit: &str) -> Option<u64>
    ensures { result ≡ nanoseconds_in unit.now }
{
    if unit == "ns" {
        Some(1)
    } else if unit == "us" {
        Some(1_000)
    } else if unit == "ms" {
        Some(1_000_000)
    } else if unit == "s" {
        Some(1_000_000_000)
    } else {
        None
    }
}
