//! What is to be thought of a call of which a growth was refused, and how many calls were so.

ghost use Rattle.std.specs.Prelude.{◌≡◌, ◌↔◌, true, IsTrue};
ghost use Rattle.hostile.specs.Verdicts.{IsUntouched, IsTold, IsAbsorbed, HasNone, IsRight, one_more_if};
ghost use Rattle.hostile.specs.Verdicts.{is_told, is_absorbed, is_wrong};
ghost use Rattle.hostile.specs.Answers.{told_as};
ghost use Rattle.hostile.specs.declared.refused.verdict.Verdict.TheVariants as verdicts;

use dial9_trace_format::leb128::EncodeError;
use std::fmt;

/// What a call answered, beside what it answers where no growth is refused.
#[derive(Clone, Copy, PartialEq)]
pub enum Answer {
    /// The same.
    Same,
    /// Want of memory, by the call's name for it.
    Memory,
    /// Anything else.
    Other,
}

/// What an answer of an encoder's call is, where it is to be accepted.
pub fn told_as(answer: Result<(), EncodeError>) -> Answer
    ensures { result ≡ told_as answer }
{
    match answer {
        Ok(()) => Answer::Same,
        Err(EncodeError::OutOfMemory) => Answer::Memory,
        Err(_) => Answer::Other,
    }
}

/// What was seen of a call of which a growth was to be refused.
#[derive(Clone, Copy)]
pub struct Seen {
    /// Whether a growth was refused. The call may have had fewer.
    pub refused: bool,
    pub answer: Answer,
    /// Whether all that came before and after was as it should be.
    pub right: bool,
}

/// What is to be thought of it.
#[derive(Clone, Copy)]
pub enum Verdict {
    /// No growth was refused.
    Untouched,
    /// The refusal was told.
    Told,
    /// The refusal made no difference.
    Absorbed,
    /// The call answered what it should not, or left something so.
    Wrong,
}

/// The verdict on a call.
pub fn verdict_of(seen: Seen) -> Verdict
    ensures untouched { (result ≡ verdicts.Untouched) ↔ IsUntouched seen }
    ensures told { (result ≡ verdicts.Told) ↔ IsTold seen }
    ensures absorbed { (result ≡ verdicts.Absorbed) ↔ IsAbsorbed seen }
{
    match (seen.right, seen.refused, seen.answer) {
        (true, false, Answer::Same) => Verdict::Untouched,
        (true, true, Answer::Memory) => Verdict::Told,
        (true, true, Answer::Same) => Verdict::Absorbed,
        _ => Verdict::Wrong,
    }
}

/// What calls of a kind do with memory.
#[derive(Clone, Copy)]
pub enum Need {
    /// They take some, and tell where there is none.
    Memory,
    /// They ask for more than they need, and go on with less.
    Spare,
    /// They take none.
    Nothing,
}

/// How many calls were tried, and how many had each verdict.
#[derive(Clone, Copy)]
pub struct Counts {
    tried: u64,
    told: u64,
    absorbed: u64,
    wrong: u64,
}

impl Counts {
    /// Nothing was tried.
    pub fn new() -> Counts
        ensures { HasNone result }
    {
        Counts {
            tried: 0,
            told: 0,
            absorbed: 0,
            wrong: 0,
        }
    }

    /// Counts one more, up to the greatest number of 64 bits.
    pub fn add(&mut self, verdict: Verdict)
        ensures tried { self.new.tried ≡ one_more_if true self.old.tried }
        ensures told { self.new.told ≡ one_more_if (is_told verdict) self.old.told }
        ensures absorbed { self.new.absorbed ≡ one_more_if (is_absorbed verdict) self.old.absorbed }
        ensures wrong { self.new.wrong ≡ one_more_if (is_wrong verdict) self.old.wrong }
    {
        self.tried = self.tried.saturating_add(1);
        match verdict {
            Verdict::Untouched => {}
            Verdict::Told => self.told = self.told.saturating_add(1),
            Verdict::Absorbed => self.absorbed = self.absorbed.saturating_add(1),
            Verdict::Wrong => self.wrong = self.wrong.saturating_add(1),
        }
    }

    /// Whether all is right: nothing was wrong, and where growths were refused, that was told at least once of calls
    /// that need memory; absorbed at least once, and never told, of those that ask for room to spare; and of others
    /// never met.
    pub fn is_right(&self, refuses: bool, need: Need) -> bool
        ensures { IsTrue result ↔ IsRight refuses need self.now }
    {
        if self.wrong > 0 {
            return false;
        }
        match need {
            Need::Memory => !refuses || self.told > 0,
            Need::Spare => self.told == 0 && (!refuses || self.absorbed > 0),
            Need::Nothing => self.told == 0 && self.absorbed == 0,
        }
    }
}

impl fmt::Display for Counts {
    fn fmt<W: fmt::Write>(&self, f: &mut fmt::Formatter<W>) -> fmt::Result {
        write!(
            f,
            "{} tried: {} told, {} absorbed; {} differ",
            self.tried, self.told, self.absorbed, self.wrong
        )
    }
}
