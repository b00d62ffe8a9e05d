//! The clocks of files. Each function answers `AllocError` where a growth was refused.

ghost use Rattle.std.specs.Prelude.{◌≡◌};
ghost use Rattle.std.specs.List.{flat_map};
ghost use Rattle.json.specs.Tree.{json_tokens};
ghost use Rattle.trace_json.specs.parts.Put.{Puts, PutsTokens};
ghost use Rattle.trace_page.specs.Files.{clock_json, zero_json};

use crate::numbers::put_index;
use json::Writer;
use std::alloc::AllocError;
use trace_values::tri;

/// The clock of a file of which a page shows events.
#[derive(Clone, Copy)]
pub struct FileClock {
    // how many events stand before those of the file
    pub(crate) first: usize,
    // the nanoseconds since 1970 at the clock's zero, if these are known
    pub(crate) zero: Option<i64>,
}

/// Writes clocks, one after another.
pub(crate) fn put_each_clock(out: &mut Writer, clocks: &[FileClock]) -> Result<(), AllocError>
    ensures tokens { PutsTokens (flat_map (λ c. json_tokens (clock_json c)) clocks.now) out.old
        out.new result }
    ensures before { out.new.before ≡ out.old.before }
{
    'clocks: for clock in clocks {
        put_clock(out, clock)?;
    }
    Ok(())
}

// Writes a clock: a list of the index of the first event of its file and of its zero.
fn put_clock(out: &mut Writer, clock: &FileClock) -> Result<(), AllocError>
    ensures tokens { Puts (clock_json clock.now) out.old out.new result }
    ensures before { out.new.before ≡ out.old.before }
{
    tri!(out.begin_array());
    tri!(put_index(out, clock.first));
    tri!(put_zero(out, clock.zero));
    out.end_array()
}

// Writes the nanoseconds since 1970 at a clock's zero, or null.
fn put_zero(out: &mut Writer, zero: Option<i64>) -> Result<(), AllocError>
    ensures tokens { Puts (zero_json zero) out.old out.new result }
    ensures before { out.new.before ≡ out.old.before }
{
    match zero {
        Some(zero) => out.quoted_i64(zero),
        None => out.null(),
    }
}
