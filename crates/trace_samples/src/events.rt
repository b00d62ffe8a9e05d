//! Sample event types: of each kind of slot, with fields of each type, and of many fields.

mod borrowed;
mod fields;
mod lists;
mod machine;
mod names;
mod numbers;
mod options;
mod polls;
mod query;
mod slots;
mod wide;

pub use borrowed::Borrowed;
pub use fields::{Stacks, Texts};
pub use lists::Dynamic;
pub use machine::Machine;
pub use names::{AlsoByName, ByName, Nameless};
pub use numbers::Numbers;
pub use options::{OptionalNumbers, OptionalTexts, Options};
pub use polls::{Poll, PollAgain, PollAnnotated};
pub use query::Query;
pub use slots::{Annotated, FastSlot, LastSlot, SlotClash};
pub use wide::Wide;
