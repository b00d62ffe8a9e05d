//! A call that is made anew for each of its growths, one of which is refused each time.

ghost use Rattle.std.specs.Prelude.{◌≡◌, true};
ghost use Rattle.hostile.specs.Answers.{made_as};

use crate::refused::heap::{refuse, was_refused};
use crate::refused::verdict::{Answer, Counts, Seen, Verdict, verdict_of};
use std::alloc::{AllocError, Global};

/// More growths than any call has.
pub const MOST: u32 = 1_000_000;

/// A call, with all that is to be before and after it.
pub trait Trial {
    /// Makes the call with the growth of this number refused, and looks at what comes of it.
    fn seen(&self, alloc: Global, number: u32) -> Seen;
}

/// What is seen where there is no memory for what is not refused.
pub const LACKING: Seen = Seen {
    refused: false,
    answer: Answer::Other,
    right: false,
};

/// Makes the call with the first growth refused, with the second, and so on, until it meets no refusal.
pub fn sweep<T: Trial>(alloc: Global, trial: &T, counts: &mut Counts) {
    for number in 1..MOST {
        let seen = trial.seen(alloc, number);
        counts.add(verdict_of(seen));
        if !seen.refused {
            return;
        }
    }
    counts.add(Verdict::Wrong);
}

/// A call that leaves nothing where it tells want of memory.
pub trait Making {
    /// Makes the call, and answers whether it gives what it should. `AllocError` where it tells want of memory.
    fn is_made(&self, alloc: Global) -> Result<bool, AllocError>;
}

/// The same of such a call.
pub fn sweep_made<T: Making>(alloc: Global, making: &T, counts: &mut Counts) {
    for number in 1..MOST {
        refuse(alloc, number);
        let answer = making.is_made(alloc);
        let refused = was_refused(alloc);
        counts.add(verdict_of(seen_of(refused, answer)));
        if !refused {
            return;
        }
    }
    counts.add(Verdict::Wrong);
}

/// What was seen of a call that answers so.
fn seen_of(refused: bool, answer: Result<bool, AllocError>) -> Seen
    ensures { result ≡ record { refused = refused; answer = made_as answer; right = true } }
{
    let answer = match answer {
        Ok(true) => Answer::Same,
        Ok(false) => Answer::Other,
        Err(_) => Answer::Memory,
    };
    Seen {
        refused,
        answer,
        right: true,
    }
}

/// Whether an answer is the value that is wanted. `AllocError` where it tells want of memory.
pub fn is_equal<T: PartialEq + Drop>(
    answer: Result<T, AllocError>,
    wanted: &T,
) -> Result<bool, AllocError> {
    match answer {
        Ok(value) => Ok(value == *wanted),
        Err(error) => Err(error),
    }
}
