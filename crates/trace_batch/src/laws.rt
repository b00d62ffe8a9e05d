//! What holds of batches and of what is read as such: public functions that compute nothing.

ghost use Rattle.trace_batch.specs.ReadLaws.{ReadsGoOn};

/// What is left of a trace, read with the state that was handed out there, goes on: both readings have the frames of
/// one run, and the schemas, the base time and the pools are known. Where the rest begins with a header, no state is
/// needed.
pub fn reading_goes_on()
    ensures { ReadsGoOn }
{}
