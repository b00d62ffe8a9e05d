//! What is told of the gaps between the pieces that were saved of a file.

ghost use Rattle.std.specs.Prelude.{◌≡◌};
ghost use Rattle.gotymbe_plan.specs.Gaps.{EndsWithGap, greatest_status};

use crate::ending::{Ending, stop_status};
use trace_fronts::pieces::Gap;
use trace_lines::dump::WHOLE;

/// The gaps that are told before a file's ending, and that ending: the last gap's, or that of a whole file.
pub fn last_of<'a>(gaps: &'a [Gap]) -> (&'a [Gap], Ending)
    ensures { EndsWithGap gaps.now result.0.now result.1 }
{
    match gaps.split_last() {
        Some((last, before)) => (before, Ending::Stopped(last.stop)),
        None => (gaps, Ending::Whole),
    }
}

/// The greatest status of gaps; that of a whole file where there is none.
pub fn greatest_status(gaps: &[Gap]) -> u8
    ensures { result ≡ greatest_status gaps.now }
{
    let mut status = WHOLE;
    for gap in gaps {
        status = status.max(stop_status(gap.stop.cause));
    }
    status
}
