//! Text of JSON as it stands in a page.

ghost use Rattle.std.specs.Prelude.{◌≡◌, ◌++◌, OnOk};
ghost use Rattle.trace_page.specs.Escaping.{escaped, EscapesMarkup, EscapedReadsBack};

use std::alloc::AllocError;

/// Appends bytes with `\u003c` in place of each `<`, so that none stands there. `AllocError` where a growth was
/// refused: then some of them were appended.
pub fn push_escaped(out: &mut Vec<u8>, text: &[u8]) -> Result<(), AllocError>
    ensures appended { OnOk result (out.new.items ≡ out.old.items ++ escaped text.now) }
{
    'bytes: for byte in text {
        if *byte == b'<' {
            out.extend_from_slice(b"\\u003c")?;
        } else {
            out.push(*byte)?;
        }
    }
    Ok(())
}

/// No byte of escaped text is `<`.
pub fn no_markup()
    ensures { EscapesMarkup }
{}

/// The text of JSON without a space, escaped, is read back as that JSON, where its numbers are numbers and it nests no
/// deeper than readers go.
pub fn reads_back()
    ensures { EscapedReadsBack }
{}
