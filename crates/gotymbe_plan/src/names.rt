//! Names of files, as they are told.

ghost use Rattle.std.specs.Prelude.{◌≡◌};
ghost use Rattle.std.specs.List.{list_any};
ghost use Rattle.trace_lines.specs.Appending.{AppendsText};
ghost use Rattle.gotymbe_plan.specs.Names.{told_name, is_odd, file_word};

use std::alloc::AllocError;
use trace_lines::text::push_quoted;

/// Appends the name of a file as it is told: in quotes (docs/FORMAT.md, "Dumps") where it holds a control character,
/// a quotation mark or a character up to U+00BF that is not ASCII, else as it is. So it stands in one line, and no
/// other name is told so. `AllocError` where a growth was refused.
pub fn push_name(out: &mut String, name: &str) -> Result<(), AllocError>
    ensures { AppendsText (told_name name.now) out.old out.new result }
{
    if has_odd(name) {
        return push_quoted(out, name.as_bytes());
    }
    out.push_str(name)
}

/// Appends what stands before a line of a dump where several files are shown: the name of its file, always in quotes.
/// `AllocError` where a growth was refused.
pub fn push_file_word(out: &mut String, name: &str) -> Result<(), AllocError>
    ensures { AppendsText (file_word name.now) out.old out.new result }
{
    out.push_str("file ")?;
    push_quoted(out, name.as_bytes())?;
    out.push(' ')
}

// Whether a byte stands in a name by which it is told in quotes.
fn has_odd(name: &str) -> bool
    ensures { result ≡ list_any is_odd name.now }
{
    name.as_bytes().iter().any(|byte| {
        *byte < b' ' || (*byte == b'"' || (*byte == 0x7f || *byte == 0xc2))
    })
}
