//! What holds of converters: public functions that compute nothing, and that are called for their clauses.

ghost use Rattle.trace_converter.specs.Written.{RunIsWritten};

use dial9_trace_format::laws;
use dial9_trace_format::leb128::TraceWrite;

/// Of a run all of whose events a converter took, with what was written before: the writer took bytes that make it a
/// longer trace. The events of its new frames are those of the run for which there is a rule, in order, each
/// converted: at the same time, with the new values, under the schema of its rule.
pub fn run_is_written<W: TraceWrite + Drop>()
    ensures { RunIsWritten W.told }
{
    laws::accounts_join();
    laws::reading_joins();
    laws::calls_show();
    laws::decoding();
}
