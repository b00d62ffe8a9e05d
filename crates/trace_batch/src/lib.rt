//! Batches: the events of a program as flat bytes, with the schemas, texts and stacks that they need
//! (docs/DOORS.md, "Batches"). A batch becomes a trace of its own, and the events of a trace a batch.
#![tactic(auto)]

mod accepting;
pub mod asking;
pub mod batch_error;
pub mod laws;
pub mod read;
pub mod read_error;
mod reading;
mod record_bytes;
pub mod recording;
mod taking;

pub use asking::calls_of;
pub use batch_error::{BatchCause, BatchError};
pub use read::{ReadBatch, header_version, read_batch};
pub use read_error::ReadError;
pub use recording::record_batch;
