//! The calls of the data of a page.

ghost use Rattle.std.specs.Prelude.{◌++◌, ◌∷◌, [], List, IfOk, IsErr, OnErr, OnOk, option_map};
ghost use Rattle.trace_events.specs.OwnedEvents.{owned_event};
ghost use Rattle.trace_page.specs.Counting.{PageEvent};
ghost use Rattle.trace_page.specs.Escaping.{IsPrinted};
ghost use Rattle.trace_page.specs.Files.{PageFile, with_rest};
ghost use Rattle.trace_page.specs.Holding.{Holds, IsSpoiled};
ghost use Rattle.trace_page.specs.Pages.{IsPageText};

use crate::columns::start_of;
use crate::data::PageData;
use crate::data::counting::{count_in, guess_of};
use crate::data::writing::{put_clocks, put_columns, put_head, put_last, put_lists, put_schemas};
use crate::names::Names;
use crate::values::put_values;
use json::Writer;
use std::alloc::{AllocError, Global};
use trace_events::event::OwnedEvent;

impl PageData {
    /// Of no file and no event. `AllocError` where a growth was refused.
    pub fn new(alloc: Global) -> Result<PageData, AllocError>
        ensures { IfOk result (λ d. Holds d [] []) }
    {
        let mut text = Writer::new(Vec::new(alloc));
        put_head(&mut text)?;
        Ok(PageData {
            alloc,
            names: Names::new(alloc),
            text,
            times: Vec::new(alloc),
            places: Vec::new(alloc),
            schemas: Vec::new(alloc),
            guesses: [0; 256],
            clocks: Vec::new(alloc),
            ended: 0,
            is_whole: true,
        })
    }

    /// Takes an event of so many bytes, of the file that has not ended. `AllocError` where a growth was refused: then
    /// the data is spoiled, and each later call answers `AllocError` too.
    pub fn add(&mut self, event: &OwnedEvent<'_>, bytes: u64) -> Result<(), AllocError>
        ensures added { OnOk result ((files : List PageFile) (rest : List PageEvent)
            → Holds self.old files rest → Holds self.new files
            (rest ++ record { shown = owned_event event.now; bytes = bytes } ∷ [])) }
        ensures spoiled { OnErr result (IsSpoiled self.new) }
        ensures refused { IsSpoiled self.old → IsErr result }
    {
        if !self.is_whole {
            return Err(AllocError);
        }
        self.is_whole = false;
        let guess = guess_of(event.type_id);
        let first = self.guesses[guess];
        let place = count_in(self.alloc, &mut self.schemas, first, event.schema, bytes)?;
        self.guesses[guess] = place;
        self.places.push(place)?;
        self.times.push(event.timestamp_ns)?;
        put_values(
            self.alloc,
            &mut self.text,
            &mut self.names,
            event.string_pool,
            event.stack_pool,
            event.values,
        )?;
        self.is_whole = true;
        Ok(())
    }

    /// The text of the data, not escaped yet, under a name, and with why reading ended where that was before the end of
    /// the trace. Events of a file that has not ended are of one whose clock is not known. `AllocError` where a growth
    /// was refused, or the data is spoiled.
    pub fn finish(self, name: &str, end: Option<&str>) -> Result<Vec<u8>, AllocError>
        ensures printed { IfOk result (λ text. IsPrinted text.items) }
        ensures page { IfOk result (λ text. (files : List PageFile) (rest : List PageEvent)
            → Holds self files rest → IsPageText (with_rest files rest) name.now
            (option_map (λ t. t.now) end.entry) text.items) }
        ensures refused { IsSpoiled self → IsErr result }
    {
        let mut data = self;
        data.end_rest()?;
        let PageData {
            alloc,
            mut names,
            mut text,
            times,
            places,
            schemas,
            clocks,
            ..
        } = data;
        put_columns(alloc, &mut text, &times, &places)?;
        put_lists(alloc, &mut text, &mut names)?;
        put_schemas(&mut text, &schemas)?;
        put_clocks(&mut text, &clocks)?;
        put_last(&mut text, start_of(&times), name, end)?;
        Ok(text.into_inner())
    }
}
