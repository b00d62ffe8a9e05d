//! Lines that are made part by part.

ghost use Rattle.std.specs.Prelude.{◌++◌, ℕ, List, [], Result, Ok, Err};
ghost use Rattle.trace_lines.specs.Appending.{AppendsText};
ghost use Rattle.trace_lines.specs.parts.Lines.{comma_before};
ghost use Rattle.trace_lines.specs.parts.TextLaws.{text_empty, text_joins, text_stops};

use crate::text::push_comma_before;
use std::alloc::AllocError;

/// A part of a line.
pub(crate) trait LinePart: Sized {
    /// What stands in the line.
    ghost text: { Self → List ℕ };

    /// Appends it. `AllocError` where a growth was refused.
    fn push_to(self, out: &mut String) -> Result<(), AllocError>
        ensures { AppendsText (text self) out.old out.new result };
}

/// A line that grows by parts, and of which a long front may be handed on.
pub(crate) trait GrowingLine {
    /// Why it does not grow.
    type Fault;

    /// What an answer says of a text that was to be appended, from one state to another.
    ghost grows: { Self → List ℕ → Result (Unit {0}) Self.Fault → Self → Type 0 };

    /// Appends a part.
    fn put<P: LinePart>(&mut self, part: P) -> Result<(), Self::Fault>
        ensures { grows self.old (P.text part) result self.new };

    /// Appends a part, and hands all on that is there then, if it is much and somebody takes it.
    fn put_on<P: LinePart>(&mut self, part: P) -> Result<(), Self::Fault>
        ensures { grows self.old (P.text part) result self.new };

    /// Appends nothing, since a growth was refused elsewhere.
    fn refuse(&mut self) -> Result<(), Self::Fault>
        ensures { (text : List ℕ) → grows self.old text result self.new };

    /// Why it does not grow where a growth was refused elsewhere.
    fn refusal(&self) -> Self::Fault
        ensures { (text : List ℕ) → grows self.now text (Err result) self.now };

    /// No text is appended by doing nothing.
    ghost empty: { (s : Self) → grows s [] (Ok tt) s };

    /// A text is appended after another.
    ghost joins: { (s m t : Self) (a b : List ℕ) (r : Result (Unit {0}) Self.Fault)
        → grows s a (Ok tt) m → grows m b r t → grows s (a ++ b) r t };

    /// Where a text was not appended, no longer one was.
    ghost stops: { (s t : Self) (a b : List ℕ) (e : Self.Fault)
        → grows s a (Err e) t → grows s (a ++ b) (Err e) t };
}

/// A text that is kept whole.
impl GrowingLine for String {
    type Fault = AllocError;

    ghost grows = { λ s text r t. AppendsText text s t r };

    ghost empty = { text_empty };

    ghost joins = { text_joins };

    ghost stops = { text_stops };

    #[inline(always)]
    fn put<P: LinePart>(&mut self, part: P) -> Result<(), AllocError> {
        part.push_to(self)
    }

    #[inline(always)]
    fn put_on<P: LinePart>(&mut self, part: P) -> Result<(), AllocError> {
        part.push_to(self)
    }

    fn refuse(&mut self) -> Result<(), AllocError> {
        Err(AllocError)
    }

    fn refusal(&self) -> AllocError {
        AllocError
    }
}

impl<'t> LinePart for &'t str {
    ghost text = { λ s. s.now };

    #[inline(always)]
    fn push_to(self, out: &mut String) -> Result<(), AllocError> {
        out.push_str(self)
    }
}

/// The comma before the element of this index, but none before the first.
#[derive(Clone, Copy)]
pub(crate) struct CommaBefore(pub(crate) usize);

impl LinePart for CommaBefore {
    ghost text = { λ comma. comma_before comma.0 };

    #[inline(always)]
    fn push_to(self, out: &mut String) -> Result<(), AllocError> {
        push_comma_before(out, self.0)
    }
}
