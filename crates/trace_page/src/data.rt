//! The data of a page.

ghost use Rattle.std.specs.Prelude.{◌≡◌, []};

use crate::clocks::FileClock;
use crate::names::Names;
use crate::schemas::PageSchema;
use json::Writer;
use std::alloc::Global;

mod calls;
mod counting;
mod files;
mod writing;

/// The data of a page that is told events (viewer/DATA.md).
#[derive(Drop)]
pub struct PageData {
    pub(crate) alloc: Global,
    pub(crate) names: Names,
    // what comes before the values of the events, and these
    pub(crate) text: Writer,
    pub(crate) times: Vec<u64>,
    // where the schema of each event stands
    pub(crate) places: Vec<usize>,
    pub(crate) schemas: Vec<PageSchema>,
    // where the schema of an event with such a wire id stood last
    pub(crate) guesses: [usize; 256],
    // those of the files that ended, and how many events these have
    pub(crate) clocks: Vec<FileClock>,
    pub(crate) ended: usize,
    // whether no growth was refused
    pub(crate) is_whole: bool,
    ghost starts: { text.before ≡ [] },
}
