//! The text of a stack.

ghost use Rattle.std.specs.Prelude.{◌≡◌, ◌++◌, IfOk, OnOk, string_bytes};
ghost use Rattle.std.specs.List.{flat_map};
ghost use Rattle.trace_values.specs.AddressTexts.{address_text};
ghost use Rattle.trace_folded.specs.Stacks.{folded_text, after_text};

use std::alloc::{AllocError, Global};

/// The text of a stack in a line: its addresses from the outermost, which stands last, with `;` between them. That of
/// a stack without addresses is `none`. `AllocError` where a growth was refused.
pub fn folded_text(alloc: Global, addresses: &[u64]) -> Result<String, AllocError>
    ensures { IfOk result (λ text. string_bytes text ≡ folded_text addresses.now) }
{
    let mut frames = Vec::from_slice(alloc, addresses)?;
    frames.reverse();
    match frames.as_slice().split_first() {
        Some((first, others)) => joined(alloc, *first, others),
        None => String::from_str(alloc, "none"),
    }
}

// The texts of an address and of those after it, with `;` between them.
fn joined(alloc: Global, first: u64, others: &[u64]) -> Result<String, AllocError>
    ensures { IfOk result (λ text. string_bytes text
        ≡ address_text first ++ flat_map after_text others.now) }
{
    let mut text = format!(in alloc; "0x{first:x}")?;
    'addresses: for address in others {
        push_after(&mut text, *address)?;
    }
    Ok(text)
}

// Appends an address after those before it.
fn push_after(text: &mut String, address: u64) -> Result<(), AllocError>
    ensures { OnOk result (string_bytes text.new ≡ string_bytes text.old ++ after_text address) }
{
    text.push(';')?;
    write!(text, "0x{address:x}")
}
