//! What can be wrong with a line of a script.

ghost use Rattle.trace_recordings.specs.declared.script.line_error.LineError.TheVariants.{Memory};
ghost use Rattle.std.specs.Prelude.{◌≡◌};

use std::alloc::{AllocError, AllocFailed};
use thiserror::Error;

/// Why a line of a script cannot be read.
#[derive(Clone, Copy, Debug, PartialEq, Eq, Error)]
pub enum LineError {
    /// The first word is that of no call; or it is `reset`, `resume` or `bare`, and more follows.
    #[error("this begins no call")]
    ScriptCall,
    /// What stands there is no number, or is spelled in another way than it is printed.
    #[error("a number is expected, in decimal digits")]
    Number,
    /// The id of a text or a stack is above 4,294,967,295, or the index of an annotation above 65,535.
    #[error("the number is too large")]
    TooLarge,
    /// What stands there is no text in quotes, or is spelled in another way than it is printed.
    #[error("a text in quotes is expected")]
    Text,
    /// The bytes of a name, or of a value of text, are not UTF-8.
    #[error("the text is not UTF-8")]
    Utf8,
    /// The letters and digits there are the name of no field type.
    #[error("the name of a field type is expected")]
    FieldType,
    /// What stands there are no addresses in brackets, or they are spelled in another way than they are printed.
    #[error("addresses in brackets are expected")]
    Addresses,
    /// What stands there is no value, or is spelled in another way than a dump shows it.
    #[error("a value is expected")]
    Value,
    /// A list or a map stands inside 100 others (`MAX_NESTING`).
    #[error("the value has too many others around it")]
    Depth,
    /// No pair of hexadecimal digits stands where a byte is expected.
    #[error("pairs of hexadecimal digits are expected")]
    Hexadecimal,
    /// This mark does not stand there: a space, a colon, an equals sign or `@`.
    #[error("`{0}` is expected")]
    Mark(char),
    /// Something stands after the last part that the call has.
    #[error("the call takes no more than stands before")]
    Excess,
    /// The line cannot be read, and a carriage return ends it. It is told in place of all others but `Memory`.
    #[error("the line ends with a carriage return; a line feed alone ends a line")]
    CarriageReturn,
    /// A growth was refused.
    #[error("out of memory")]
    Memory,
}

impl From<AllocError> for LineError {
    ghost from_gives = { λ _ f. f ≡ Memory };

    fn from(_: AllocError) -> LineError {
        LineError::Memory
    }
}

impl<T: Drop> From<AllocFailed<T>> for LineError {
    ghost from_gives = { λ _ f. f ≡ Memory };

    fn from(_: AllocFailed<T>) -> LineError {
        LineError::Memory
    }
}
