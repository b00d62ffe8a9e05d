//! Which clock the times of a trace are of.

ghost use Rattle.std.specs.Prelude.{ℕ, ℤ, List, codes, IfSome, IfNone};
ghost use Rattle.trace_roles.specs.Roles.{of_schema, note_of};
ghost use Rattle.trace_roles.specs.Clocks.{IsClockText, SaysClock};

use crate::roles::{OF_SCHEMA, note_of};
use trace_wire::schema::SchemaEntry;

/// The clock of the times of a trace (docs/ROLES.md, "Clocks").
#[derive(Clone, Copy, Debug)]
pub struct Clock<'e> {
    /// Its name.
    pub name: &'e str,
    /// The nanoseconds since the beginning of 1970, in UTC, at its zero.
    pub zero: i64,
}

/// The clock that a schema is annotated with.
pub fn clock_of(entry: &SchemaEntry) -> Option<Clock<'_>>
    ensures said { IfSome result (λ c. SaysClock (note_of entry.now of_schema (codes "clock"))
        c.name.now c.zero) }
    ensures none { IfNone result ((name : List ℕ) (zero : ℤ)
        → ¬ SaysClock (note_of entry.now of_schema (codes "clock")) name zero) }
{
    match note_of(entry, OF_SCHEMA, "clock") {
        Some(text) => clock_named(text),
        None => None,
    }
}

// The clock that a text says: a name, a space, and a whole number.
fn clock_named(text: &str) -> Option<Clock<'_>>
    ensures said { IfSome result (λ c. IsClockText text.now c.name.now c.zero) }
    ensures none { IfNone result ((name : List ℕ) (zero : ℤ)
        → ¬ IsClockText text.now name zero) }
{
    let (name, zero) = text.split_once(' ')?;
    match zero.parse::<i64>() {
        Ok(zero) => Some(Clock { name, zero }),
        Err(_) => None,
    }
}
