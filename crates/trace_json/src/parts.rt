//! The parts of an event.

use trace_wire::pools::{StackPool, StringPool};
use trace_wire::schema::{SchemaEntry, WireTypeId};

/// The parts of an event that a line is made of, whoever holds its values.
#[derive(Clone, Copy)]
pub(crate) struct Parts<'e, V> {
    pub(crate) type_id: WireTypeId,
    pub(crate) name: &'e str,
    pub(crate) timestamp_ns: u64,
    pub(crate) values: &'e [V],
    pub(crate) schema: &'e SchemaEntry,
    pub(crate) string_pool: &'e StringPool,
    pub(crate) stack_pool: &'e StackPool,
}
