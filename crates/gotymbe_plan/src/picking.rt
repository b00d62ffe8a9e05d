//! Which events are taken as they come, and how many more.

ghost use Rattle.std.specs.Prelude.{◌≡◌, ◌≢◌, ◌↔◌, ◌^◌, ◌-◌, IsTrue, IsNone, IfSome, IfNone, OnOk, IfErr, unwrap_or};
ghost use Rattle.gotymbe_plan.specs.Moments.{IsFilterOf, IsAnyDate};
ghost use Rattle.gotymbe_plan.specs.Picking.{IsOver, Picks, Learns};
ghost use Rattle.gotymbe_plan.specs.declared.ending.Ending.TheVariants.{Whole};

use crate::ending::Ending;
use crate::filter::{Filter, Wanted};

/// Which events of a trace are taken as they come: those that are asked for, and no more than so many.
#[derive(Clone, Copy, Debug)]
pub struct Picker<'a> {
    wanted: Wanted<'a>,
    // `None` as long as a date is asked for and no clock is known
    filter: Option<Filter<'a>>,
    left: u64,
}

impl<'a> Picker<'a> {
    /// None was taken yet. Where the trace's clock is known, it stood so many nanoseconds after the beginning of 1970
    /// at its zero.
    pub fn new(wanted: Wanted<'a>, zero: Option<i64>, limit: Option<u64>) -> Picker<'a>
        ensures wanted { result.wanted ≡ wanted.entry }
        ensures some { IfSome result.filter (IsFilterOf wanted.entry zero) }
        ensures none { IfNone result.filter
            (zero ≡ None × IsAnyDate wanted.entry.from wanted.entry.to) }
        ensures left { result.left ≡ unwrap_or limit (2 ^ 64 - 1) }
    {
        Picker {
            wanted,
            filter: wanted.filter(zero),
            left: limit.unwrap_or(u64::MAX),
        }
    }

    /// Whether a date is asked for and no clock is known.
    pub fn waits(&self) -> bool
        ensures { IsTrue result ↔ IsNone self.now.filter }
    {
        self.filter.is_none()
    }

    /// Learns a clock, if one is known, where it waits for one.
    pub fn learn(&mut self, zero: Option<i64>)
        ensures { Learns zero self.old self.new }
    {
        if self.waits() {
            self.filter = self.wanted.filter(zero);
        }
    }

    /// Takes an event of this name and time, and answers whether it did; or an ending, where as many were taken as are
    /// asked for, or a date is asked for and no clock is known.
    pub fn pick(&mut self, name: &str, timestamp_ns: u64) -> Result<bool, Ending>
        ensures { Picks name.now timestamp_ns self.old self.new result }
    {
        self.go_on()?;
        let Some(filter) = self.filter else {
            return Err(Ending::NoClock);
        };
        if !filter.wants(name, timestamp_ns) {
            return Ok(false);
        }
        self.left -= 1;
        Ok(true)
    }

    /// An ending where as many events were taken as are asked for: what comes after them is not waited for.
    pub fn go_on(&self) -> Result<(), Ending>
        ensures more { OnOk result (self.now.left ≢ 0) }
        ensures over { IfErr result (λ ending. (self.now.left ≡ 0) × (ending ≡ Whole)) }
    {
        if self.left == 0 {
            return Err(Ending::Whole);
        }
        Ok(())
    }
}
