//! Times that are asked for: of the trace's clock, or as dates (docs/ROLES.md, "Clocks").

ghost use Rattle.std.specs.Prelude.{◌≡◌, ◌-ℤ◌, ◌↔◌, IsTrue, Some, None, option_map, IfOk, IfErr, OnOk, string_bytes};
ghost use Rattle.trace_lines.specs.Appending.{AppendsText};
ghost use Rattle.gotymbe_plan.specs.Moments.{SaysMoment, IsMomentGiven, date_said, IsDate, IsAnyDate};
ghost use Rattle.gotymbe_plan.specs.Moments.{IsBoundOf, far_end, LiesAt, no_moment_text, no_time_text, wished_text};
ghost use Rattle.gotymbe_plan.specs.OneLine.{IsShown, AddsLine};

use jiff::Timestamp;
use std::alloc::AllocError;
use trace_lines::text::push_quoted;

/// A time that is asked for.
#[derive(Clone, Copy, Debug, PartialEq, Eq)]
pub enum Moment {
    /// Nanoseconds of the trace's clock.
    Time(u64),
    /// A date: the nanoseconds since the beginning of 1970, in UTC.
    Date(i128),
}

/// Where a moment lies among the times of a trace.
#[derive(Clone, Copy, Debug, PartialEq, Eq)]
pub enum Bound {
    /// Before the zero of the clock, and so before each time.
    Early,
    /// At a time, in nanoseconds of the trace's clock.
    At(u64),
    /// After each time, which has 64 bits.
    Late,
}

impl Moment {
    /// Whether it is a date.
    pub fn is_date(self) -> bool
        ensures { IsTrue result ↔ IsDate self }
    {
        matches!(self, Moment::Date(_))
    }

    /// Where it lies among the times of a trace, whose clock stood so many nanoseconds after the beginning of 1970 at
    /// its zero; `None` where it is a date and the clock is not known.
    pub fn bound(self, zero: Option<i64>) -> Option<Bound>
        ensures { LiesAt self zero result }
    {
        match self {
            Moment::Time(time) => Some(Bound::At(time)),
            Moment::Date(date) => Some(bound_of(date, zero?)),
        }
    }
}

/// Whether one of two times that may be asked for is a date.
pub fn is_any_date(from: Option<Moment>, to: Option<Moment>) -> bool
    ensures { IsTrue result ↔ IsAnyDate from to }
{
    from.is_some_and(|moment| moment.is_date()) || to.is_some_and(|moment| moment.is_date())
}

/// The time that a text says: a decimal number of 64 bits is one of the trace's clock, and a date says how far its zone
/// is from UTC, as `2025-11-28T12:00:00Z` does (RFC 3339). `None` of any other text.
pub fn moment_of(text: &str) -> Option<Moment>
    ensures { SaysMoment text.now result }
{
    match text.parse::<u64>() {
        Ok(time) => Some(Moment::Time(time)),
        Err(_) => date_of(text),
    }
}

/// The time that is given, if one is; or the text that says none.
pub fn moment_given(text: Option<&str>) -> Result<Option<Moment>, &str>
    ensures given { IfOk result (IsMomentGiven (option_map (λ s. s.now) text.entry)) }
    ensures refused { IfErr result (λ s. option_map (λ s. s.now) text.entry ≡ Some s.now) }
    ensures no_moment { IfErr result (λ s. SaysMoment s.now None) }
{
    match text {
        None => Ok(None),
        Some(text) => match moment_of(text) {
            Some(moment) => Ok(Some(moment)),
            None => Err(text),
        },
    }
}

// The date that a text says.
fn date_of(text: &str) -> Option<Moment>
    ensures { result ≡ date_said text.now }
{
    match text.parse::<Timestamp>() {
        Ok(date) => Some(Moment::Date(date.as_nanosecond())),
        Err(_) => None,
    }
}

// Where a date lies among the times of a trace: its nanoseconds minus those at the zero of the clock.
fn bound_of(date: i128, zero: i64) -> Bound
    ensures { IsBoundOf (date -ℤ zero) result }
{
    match date.checked_sub(i128::from(zero)) {
        Some(time) => place_of(time),
        None => far_end(date),
    }
}

// Where so many nanoseconds of a clock lie.
fn place_of(time: i128) -> Bound
    ensures { IsBoundOf time result }
{
    match u64::try_from(time) {
        Ok(time) => Bound::At(time),
        Err(_) => far_end(time),
    }
}

// Before or after all times.
fn far_end(time: i128) -> Bound
    ensures { result ≡ far_end time }
{
    if time < 0 { Bound::Early } else { Bound::Late }
}

/// Appends what is told of a text that is given for a time and says none: in quotes (docs/FORMAT.md, "Dumps"), so that
/// it is one line, whatever the text. `AllocError` where a growth was refused.
#[tactic(auto, using(crate::proofs::ToldInOneLine::no_moment_told))]
pub fn push_no_moment(out: &mut String, option: &str, text: &str) -> Result<(), AllocError>
    ensures text { AppendsText (no_moment_text option.now text.now) out.old out.new result }
    ensures line { IsShown option.now → OnOk result
        (AddsLine (string_bytes out.old) (string_bytes out.new)) }
{
    push_no_moment_line(out, option, text)
}

fn push_no_moment_line(out: &mut String, option: &str, text: &str) -> Result<(), AllocError>
    ensures { AppendsText (no_moment_text option.now text.now) out.old out.new result }
{
    push_no_time(out, text)?;
    push_wished(out, option)
}

// Appends that a text says no time.
fn push_no_time(out: &mut String, text: &str) -> Result<(), AllocError>
    ensures { AppendsText (no_time_text text.now) out.old out.new result }
{
    out.push_str("error: ")?;
    push_quoted(out, text.as_bytes())?;
    out.push_str(" says no time for --")
}

// Appends what an option takes.
fn push_wished(out: &mut String, option: &str) -> Result<(), AllocError>
    ensures { AppendsText (wished_text option.now) out.old out.new result }
{
    out.push_str(option)?;
    out.push_str(": a number of nanoseconds, or a date as 2025-11-28T12:00:00Z\n")
}
