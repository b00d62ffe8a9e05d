//! How a file is written.

ghost use Rattle.std.specs.Prelude.{◌≡◌, ◌↔◌, ◌++◌, IfOk, IsTrue, codes, string_bytes};
ghost use Rattle.std.specs.Fmt.{decimal};
ghost use Rattle.trace_lines.specs.Appending.{AppendsText};
ghost use Rattle.gotymbe_plan.specs.Outputs.{way_for, IsNameBeside, CanReadTwice, LeadsToOpen};

use std::alloc::{AllocError, Global};

/// What stands under the name of a file.
#[derive(Clone, Copy, Debug, PartialEq, Eq)]
pub enum Standing {
    /// Nothing.
    Nothing,
    /// A file of bytes.
    File,
    /// Anything else, as a pipe or a device.
    Other,
}

/// How a file is to be written.
#[derive(Clone, Copy, Debug, PartialEq, Eq)]
pub enum Way {
    /// Beside its name, and under it once it is whole, unless a file came there meanwhile.
    Beside,
    /// Beside its name, and in place of what stands there once it is whole.
    InPlace,
    /// Into what stands there.
    Into,
    /// Not at all: something stands there.
    Refused,
}

/// How a file is to be written: over what stands there only where that is forced.
pub fn way_of(standing: Standing, force: bool) -> Way
    ensures { result ≡ way_for standing force }
{
    match (standing, force) {
        (Standing::Nothing, _) => Way::Beside,
        (Standing::File, true) => Way::InPlace,
        (Standing::Other, true) => Way::Into,
        (_, false) => Way::Refused,
    }
}

/// Whether what stands under this name is open already, and is no file's own name: as under `/dev/fd/1`, and as what
/// `/dev/stdout` leads to.
pub fn leads_to_open(name: &str) -> bool
    ensures { IsTrue result ↔ LeadsToOpen name.now }
{
    name.starts_with("/proc/") || name.starts_with("/dev/fd/")
}

/// Whether what stands under a name can be read twice: a file of bytes, and not `-`, which is standard input.
pub fn can_read_twice(name: &str, standing: Standing) -> bool
    ensures { IsTrue result ↔ CanReadTwice name.now standing }
{
    name != "-" && standing == Standing::File
}

/// The name under which a file is written meanwhile, where so many of these names are taken. `AllocError` where a
/// growth was refused.
pub fn name_beside(alloc: Global, name: &str, taken: u64) -> Result<String, AllocError>
    ensures { IfOk result (λ beside. IsNameBeside name.now taken (string_bytes beside)) }
{
    let mut beside = format!(in alloc; "{name}.part")?;
    if taken > 0 {
        push_number(&mut beside, taken)?;
    }
    Ok(beside)
}

// Appends a number after a dot.
fn push_number(out: &mut String, number: u64) -> Result<(), AllocError>
    ensures { AppendsText (codes "." ++ decimal number) out.old out.new result }
{
    write!(out, ".{number}")
}
