//! About how many bytes the text of a value takes. (Any answer is right.)

use trace_values::types::{InternedStackFrames, InternedString};
use trace_wire::pools::{StackPool, StringPool};

/// A number, a truth value or an id that stands for nothing.
pub(crate) const LITTLE: usize = 16;

// An address of a stack.
const ADDRESS: usize = 16;

/// The text of an id.
pub(crate) fn pooled_text_weight(strings: &StringPool, id: InternedString) -> usize {
    strings.get(id).map_or(LITTLE, |text| text.len())
}

/// The stack of an id.
pub(crate) fn pooled_stack_weight(stacks: &StackPool, id: InternedStackFrames) -> usize {
    stacks
        .get(id)
        .map_or(LITTLE, |addresses| stack_weight(addresses))
}

/// A stack.
pub(crate) fn stack_weight(addresses: &[u64]) -> usize {
    addresses.len().saturating_mul(ADDRESS)
}

/// The pairs of a map of texts.
pub(crate) fn pairs_weight(pairs: &[(Vec<u8>, Vec<u8>)]) -> usize {
    let mut weight = LITTLE;
    for pair in pairs {
        weight = weight
            .saturating_add(pair.0.len())
            .saturating_add(pair.1.len());
    }
    weight
}
