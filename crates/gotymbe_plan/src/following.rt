//! When a file that grows is read again, and when it is read anew.

ghost use Rattle.std.specs.Prelude.{◌↔◌, ◌++◌, IsTrue, OnOk, string_bytes};
ghost use Rattle.trace_lines.specs.Appending.{AppendsText};
ghost use Rattle.gotymbe_plan.specs.Following.{HasCome, HasRested, IsAnew, anew_line};
ghost use Rattle.gotymbe_plan.specs.Endings.{start_text};
ghost use Rattle.gotymbe_plan.specs.OneLine.{AddsLine};

use crate::ending::push_start;
use std::alloc::AllocError;

/// What is known of a file.
#[derive(Clone, Copy, Debug, PartialEq, Eq)]
pub struct Seen {
    /// The device that it lies on.
    pub device: u64,
    /// Its number on that device.
    pub node: u64,
    /// How many bytes it has.
    pub length: u64,
}

/// What became of a file whose bytes were read.
#[derive(Clone, Copy, Debug, PartialEq, Eq)]
pub enum Change {
    /// Nothing: no more bytes are there.
    Nothing,
    /// It has more bytes than were read.
    Grew,
    /// It has fewer bytes than were read.
    Shrank,
    /// Another file stands under its name.
    Replaced,
    /// No file stands under its name.
    Gone,
}

/// What became of a file that was `known` when it was opened, and of which so many bytes were read, where this is
/// what stands under its name now.
pub fn what_became(known: Seen, read: u64, now: Option<Seen>) -> Change
    ensures { HasCome known read now result }
{
    match now {
        None => Change::Gone,
        Some(now) if now.device != known.device || now.node != known.node => Change::Replaced,
        Some(now) if now.length < read => Change::Shrank,
        Some(now) if now.length > read => Change::Grew,
        Some(_) => Change::Nothing,
    }
}

/// Whether a file is read anew after this: where it shrank, or another one stands under its name.
pub fn is_anew(change: Change) -> bool
    ensures { IsTrue result ↔ IsAnew change }
{
    match change {
        Change::Shrank => true,
        Change::Replaced => true,
        Change::Nothing => false,
        Change::Grew => false,
        Change::Gone => false,
    }
}

/// Appends the line that tells why a file is read anew, and nothing where it is not. It is one line, whatever the
/// file's name. `AllocError` where a growth was refused.
#[tactic(auto, using(crate::proofs::ToldInOneLine::anew_told))]
pub fn push_anew(out: &mut String, name: &str, change: Change) -> Result<(), AllocError>
    ensures text { AppendsText (anew_line name.now change) out.old out.new result }
    ensures line { IsAnew change → OnOk result
        (AddsLine (string_bytes out.old) (string_bytes out.new)) }
{
    push_anew_line(out, name, change)
}

fn push_anew_line(out: &mut String, name: &str, change: Change) -> Result<(), AllocError>
    ensures { AppendsText (anew_line name.now change) out.old out.new result }
{
    match change {
        Change::Shrank => push_after_start(out, name, "shrank, and is read anew\n"),
        Change::Replaced => push_after_start(out, name, "was replaced, and is read anew\n"),
        Change::Nothing => Ok(()),
        Change::Grew => Ok(()),
        Change::Gone => Ok(()),
    }
}

// Appends the program, the file, and what is told of it.
fn push_after_start(out: &mut String, name: &str, told: &str) -> Result<(), AllocError>
    ensures { AppendsText (start_text name.now ++ told.now) out.old out.new result }
{
    push_start(out, name)?;
    out.push_str(told)
}

/// Whether a file rested for so many milliseconds as are waited for, in seconds. Without end where none are said.
pub fn has_rested(resting_ms: u64, idle: Option<u64>) -> bool
    ensures { IsTrue result ↔ HasRested resting_ms idle }
{
    match idle {
        Some(seconds) => resting_ms / 1000 >= seconds,
        None => false,
    }
}
