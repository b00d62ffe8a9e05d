//! Maps of texts as they stand in a line, whoever holds the pairs. Each function answers `AllocError` where a growth
//! was refused.

ghost use Rattle.std.specs.Prelude.{◌≡◌, ℕ, List, IfOk, codes, map as list_map};
ghost use Rattle.std.specs.List.{join_by};
ghost use Rattle.trace_values.specs.Raw.{texts_front};
ghost use Rattle.trace_values.specs.ValueViews.{text_pairs_view};
ghost use Rattle.trace_values.specs.Values.{texts};
ghost use Rattle.trace_lines.specs.Appending.{AppendsText};
ghost use Rattle.trace_lines.specs.Lines.{pair_text, value_text};

use crate::text::{push_comma_before, push_quoted};
use std::alloc::{AllocError, Global};
use trace_values::types::parts::utf8_of;

/// A key and a value of a map of texts, which need not be text.
pub(crate) trait TextPair {
    /// Both.
    ghost texts: { Self → List ℕ × List ℕ };

    /// Both.
    fn texts(&self) -> (&[u8], &[u8])
        ensures { (result.0.now, result.1.now) ≡ texts self.now };
}

impl TextPair for (Vec<u8>, Vec<u8>) {
    ghost texts = { λ p. (p.0.items, p.1.items) };

    fn texts(&self) -> (&[u8], &[u8]) {
        (&self.0, &self.1)
    }
}

impl<'a> TextPair for (&'a [u8], &'a [u8]) {
    ghost texts = { λ p. (p.0.now, p.1.now) };

    fn texts(&self) -> (&[u8], &[u8]) {
        *self
    }
}

impl<'a> TextPair for (&'a str, &'a str) {
    ghost texts = { λ p. (p.0.now, p.1.now) };

    fn texts(&self) -> (&[u8], &[u8]) {
        (self.0.as_bytes(), self.1.as_bytes())
    }
}

/// The pairs up to the first that is no pair of texts. `AllocError` where a growth was refused.
pub(crate) fn text_pairs(
    alloc: Global,
    pairs: &[(Vec<u8>, Vec<u8>)],
) -> Result<Vec<(&str, &str)>, AllocError>
    ensures { IfOk result (λ v. list_map (λ p. (p.0.now, p.1.now)) v.items
        ≡ texts_front (text_pairs_view pairs.now)) }
{
    let mut texts = Vec::new(alloc);
    for pair in pairs {
        let Ok(key) = utf8_of(pair.0.as_slice()) else {
            return Ok(texts);
        };
        let Ok(value) = utf8_of(pair.1.as_slice()) else {
            return Ok(texts);
        };
        texts.reserve(1)?;
        texts.push_reserved((key, value));
    }
    Ok(texts)
}

/// Appends a map of texts.
pub(crate) fn push_texts<P: TextPair>(out: &mut String, pairs: &[P]) -> Result<(), AllocError>
    ensures { AppendsText (value_text (texts (list_map P.texts pairs.now))) out.old out.new result }
{
    out.push_str("StringMap:{")?;
    push_text_pairs(out, pairs)?;
    out.push('}')
}

fn push_text_pairs<P: TextPair>(out: &mut String, pairs: &[P]) -> Result<(), AllocError>
    ensures { AppendsText (join_by (λ p. pair_text (P.texts p)) (codes ",") pairs.now) out.old
        out.new result }
{
    'pairs: for (index, pair) in pairs.iter().enumerate() {
        push_comma_before(out, index)?;
        let (key, value) = pair.texts();
        push_text_pair(out, key, value)?;
    }
    Ok(())
}

/// Appends a key and its value, both in quotes.
pub(crate) fn push_text_pair(out: &mut String, key: &[u8], value: &[u8]) -> Result<(), AllocError>
    ensures { AppendsText (pair_text (key.now, value.now)) out.old out.new result }
{
    push_quoted(out, key)?;
    out.push('=')?;
    push_quoted(out, value)
}
