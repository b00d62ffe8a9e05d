//! The names of files and tables.

ghost use Rattle.std.specs.Prelude.{◌≡◌, OnOk, IfOk, string_bytes};
ghost use Rattle.std.specs.List.{All};
ghost use Rattle.trace_csv.specs.Files.{table_name, is_kept, kept_of, IsPlainName};

use std::alloc::{AllocError, Global};

/// The most characters of a schema's name that stay in the name of its table.
pub const MOST_KEPT: usize = 64;

/// The name of the table of a schema: its number, a `-`, and of the schema's name the first 64 of its ASCII letters,
/// digits, `-` and `_`. It has no others, so that a file of this name lies in the folder where it is made.
/// `AllocError` where a growth was refused.
pub fn table_name(alloc: Global, number: u64, name: &str) -> Result<String, AllocError>
    ensures exact { IfOk result (λ text. string_bytes text ≡ table_name number name.now) }
    ensures plain { IfOk result (λ text. IsPlainName (string_bytes text)) }
{
    let mut text = format!(in alloc; "{number}-")?;
    let mut left = MOST_KEPT;
    'bytes: for byte in name.as_bytes() {
        if left > 0 && is_kept(*byte) {
            text.push(char::from(*byte))?;
            left -= 1;
        }
    }
    Ok(text)
}

// Whether a character of a schema's name stays in that of its table.
fn is_kept(byte: u8) -> bool
    ensures { result ≡ is_kept byte }
{
    byte.is_ascii_alphanumeric() || (byte == b'-' || byte == b'_')
}
