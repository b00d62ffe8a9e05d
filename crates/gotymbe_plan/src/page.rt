//! What a page that shows traces says of them.

ghost use Rattle.std.specs.Prelude.{◌≡◌, OnOk, option_map, slice_get, string_bytes};
ghost use Rattle.trace_lines.specs.Appending.{AppendsText};
ghost use Rattle.gotymbe_plan.specs.Endings.{IsTold};
ghost use Rattle.gotymbe_plan.specs.Pages.{title_for, first_title, file_title};
ghost use Rattle.gotymbe_plan.specs.Pages.{between_ends, end_start, AddsEnd, ends_said};

use crate::ending::{Ending, is_told, push_reason};
use std::alloc::AllocError;
use std::path::Path;

/// The title of a page: the one that is given, else the last part of the name of the first file.
pub fn title_of<'a>(given: Option<&'a str>, files: &[&'a str]) -> &'a str
    ensures { result.now ≡ title_for (option_map (λ s. s.now) given.entry)
        (option_map (λ s. s.now) (slice_get files.now 0)) }
{
    match given {
        Some(title) => title,
        None => first_title(files),
    }
}

// The title by the first file, if there is one.
fn first_title<'a>(files: &[&'a str]) -> &'a str
    ensures { result.now ≡ first_title (option_map (λ s. s.now) (slice_get files.now 0)) }
{
    match files.first() {
        Some(name) => file_title(name),
        None => "",
    }
}

// The last part of a file's name; the name where it has none.
fn file_title(name: &str) -> &str
    ensures { result.now ≡ file_title name.now }
{
    match Path::new(name).file_name() {
        Some(last) => last,
        None => name,
    }
}

/// Appends a file and how its reading ended to what is said of the files before it; nothing where it ended well.
/// `AllocError` where a growth was refused.
pub fn push_end(out: &mut String, name: &str, ending: Ending) -> Result<(), AllocError>
    ensures told { IsTold ending → OnOk result
        (AddsEnd name.now ending (string_bytes out.old) (string_bytes out.new)) }
    ensures untold { ¬ IsTold ending → string_bytes out.new ≡ string_bytes out.old }
{
    if is_told(ending) {
        return push_told(out, name, ending);
    }
    Ok(())
}

// Appends a file and how its reading ended.
fn push_told(out: &mut String, name: &str, ending: Ending) -> Result<(), AllocError>
    ensures { OnOk result
        (AddsEnd name.now ending (string_bytes out.old) (string_bytes out.new)) }
{
    push_start(out, name)?;
    push_reason(out, ending)
}

// Appends a file, after what stands between two files where something is said already.
fn push_start(out: &mut String, name: &str) -> Result<(), AllocError>
    ensures { AppendsText (end_start (string_bytes out.old) name.now) out.old out.new result }
{
    push_between(out)?;
    out.push_str(name)?;
    out.push_str(": ")
}

// Appends what stands between two files, where something is said already.
fn push_between(out: &mut String) -> Result<(), AllocError>
    ensures { AppendsText (between_ends (string_bytes out.old)) out.old out.new result }
{
    if out.as_str().is_empty() {
        return Ok(());
    }
    out.push_str("; ")
}

/// What is said of how reading ended, if anything is.
pub fn said(ends: &str) -> Option<&str>
    ensures { option_map (λ s. s.now) result ≡ ends_said ends.now }
{
    if ends.is_empty() {
        return None;
    }
    Some(ends)
}
