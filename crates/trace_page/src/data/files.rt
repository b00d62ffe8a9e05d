//! The files that the events of a page are of.

ghost use Rattle.std.specs.Prelude.{◌++◌, ◌∷◌, [], List, IsErr, OnErr, OnOk};
ghost use Rattle.trace_page.specs.Counting.{PageEvent};
ghost use Rattle.trace_page.specs.Files.{PageFile, with_rest};
ghost use Rattle.trace_page.specs.Holding.{Holds, IsSpoiled};

use crate::clocks::FileClock;
use crate::data::PageData;
use std::alloc::AllocError;

impl PageData {
    /// Ends a file: its events are those that were taken since the file before it ended. It has a clock that stood at
    /// 0 so many nanoseconds after the beginning of 1970, or none that is known. `AllocError` where a growth was
    /// refused: then the data is spoiled.
    pub fn end_file(&mut self, zero: Option<i64>) -> Result<(), AllocError>
        ensures ended { OnOk result ((files : List PageFile) (rest : List PageEvent)
            → Holds self.old files rest
            → Holds self.new (files ++ record { events = rest; zero = zero } ∷ []) []) }
        ensures spoiled { OnErr result (IsSpoiled self.new) }
        ensures refused { IsSpoiled self.old → IsErr result }
    {
        if !self.is_whole {
            return Err(AllocError);
        }
        self.is_whole = false;
        let first = self.ended;
        self.clocks.push(FileClock { first, zero })?;
        self.ended = self.times.len();
        self.is_whole = true;
        Ok(())
    }

    /// Ends the file of the events that were taken since a file ended, if there are any, with no clock. `AllocError`
    /// where a growth was refused, or the data is spoiled.
    pub(crate) fn end_rest(&mut self) -> Result<(), AllocError>
        ensures ended { OnOk result ((files : List PageFile) (rest : List PageEvent)
            → Holds self.old files rest → Holds self.new (with_rest files rest) []) }
        ensures refused { IsSpoiled self.old → IsErr result }
    {
        if !self.is_whole {
            return Err(AllocError);
        }
        if self.ended < self.times.len() {
            self.end_file(None)
        } else {
            Ok(())
        }
    }
}
