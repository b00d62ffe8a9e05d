//! Writing events as tables.

use crate::clocks::zero_of;
use crate::output::make_folder;
use crate::pieces::{Picked, read_named};
use crate::tables::Tables;
use crate::tasks::{Call, tell};
use gotymbe_plan::ending::{Ending, is_kept};
use std::alloc::AllocError;
use std::fs;
use std::fs::File;
use std::rt::{Clock, Files};
use trace_lines::dump::{FAILED, WHOLE};

/// Writes the events of all files as tables into the files of a folder.
pub(crate) fn write_tables(
    rt: &(impl AllocGlobal + Files<File = File> + Input + Eprint + Clock),
    call: &Call<'_>,
) -> Result<u8, AllocError> {
    let Some(folder) = call.asked.output else {
        return Ok(FAILED);
    };
    let made = match make_folder(rt, folder) {
        Ok(made) => made,
        Err(ending) => return tell(rt, folder, ending),
    };
    let filled = fill_folder(rt, call, folder);
    if made && !matches!(filled, Ok(status) if is_kept(status)) {
        let _ = fs::remove_dir(rt, folder);
    }
    filled
}

// Writes the tables into a folder that is there.
fn fill_folder(
    rt: &(impl AllocGlobal + Files<File = File> + Input + Eprint + Clock),
    call: &Call<'_>,
    folder: &str,
) -> Result<u8, AllocError> {
    let mut tables = Tables::new(rt, folder, call.asked.force, Picked::of(call, None));
    match fill_all(rt, call, &mut tables) {
        Ok(Ok(status)) => Ok(status),
        Ok(Err(ending)) => {
            tables.give_up();
            tell_failed(rt, folder, &tables, ending)
        }
        Err(refused) => {
            tables.give_up();
            Err(refused)
        }
    }
}

// Writes the tables of all files, and answers the status, or why they can't be written. None is left where a file
// can't be read.
fn fill_all<'c, R: AllocGlobal + Files<File = File> + Input + Eprint + Clock>(
    rt: &R,
    call: &'c Call<'_>,
    tables: &mut Tables<'c, '_, R>,
) -> Result<Result<u8, Ending>, AllocError> {
    let mut status = WHOLE;
    for name in call.asked.files.as_slice() {
        tables.picked = Picked::of(call, zero_of(rt, call, name)?);
        let ending = read_named(rt, call, name, tables);
        if let Ending::Unwritten(_) = ending {
            return Ok(Err(ending));
        }
        status = status.max(tell(rt, name, ending)?);
    }
    if is_kept(status) {
        return match tables.finish() {
            Ok(()) => Ok(Ok(status)),
            Err(ending) => Ok(Err(ending)),
        };
    }
    tables.give_up();
    Ok(Ok(status))
}

// Tells which file of the folder can't be written, and why.
fn tell_failed<R: AllocGlobal + Files<File = File> + Eprint>(
    rt: &R,
    folder: &str,
    tables: &Tables<'_, '_, R>,
    ending: Ending,
) -> Result<u8, AllocError> {
    match &tables.failed {
        Some(path) => tell(rt, path.as_str(), ending),
        None => tell(rt, folder, ending),
    }
}
