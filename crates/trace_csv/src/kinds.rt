//! By what the cell of a value is made.

ghost use Rattle.trace_csv.specs.CellKinds.{IsCellKind};

use trace_json::value::JsonValue;
use trace_values::types::{FieldValue, FieldValueRef, InternedString};

/// By what the cell of a value is made.
#[derive(Clone, Copy)]
pub enum CellKind<'v> {
    /// A text as it is.
    Text(&'v str),
    /// What the pool of texts holds under an id.
    PooledText(InternedString),
    /// A number from 0 on.
    Natural(u64),
    /// A float, by its bits.
    Float(u64),
    /// Nothing: the value is absent.
    Absent,
    /// Its JSON.
    Json,
}

/// A value that stands in a cell.
pub trait CellValue: JsonValue {
    /// By what its cell is made.
    fn cell_kind(&self) -> CellKind<'_>
        ensures { IsCellKind (Self.value self.now) result };
}

// By what the cell of a value of a type is made.
macro_rules! cell_kind {
    ($values:ident, $value:expr) => {
        match $value {
            $values::String(text) => CellKind::Text(text),
            $values::PooledString(id) => CellKind::PooledText(*id),
            $values::Varint(number) => CellKind::Natural(*number),
            $values::F64(bits) => CellKind::Float(*bits),
            $values::None => CellKind::Absent,
            $values::I64(_)
            | $values::Bool(_)
            | $values::Bytes(_)
            | $values::StackFrames(_)
            | $values::PooledStackFrames(_)
            | $values::StringMap(_)
            | $values::List(_)
            | $values::Map(_) => CellKind::Json,
        }
    };
}

impl<'a> CellValue for FieldValueRef<'a> {
    fn cell_kind(&self) -> CellKind<'_> {
        cell_kind!(FieldValueRef, self)
    }
}

impl CellValue for FieldValue {
    fn cell_kind(&self) -> CellKind<'_> {
        cell_kind!(FieldValue, self)
    }
}
