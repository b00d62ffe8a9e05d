//! What holds of lines of JSON.

ghost use Rattle.trace_json.specs.Laws.{RunHasEvents, RunIsShallow};

/// Each event of a trace nests so little that its line is read back as the JSON that it is.
pub fn shallow()
    ensures { RunIsShallow }
{}

/// Each event of a run is an event of a run, of which the laws of other texts speak.
pub fn of_runs()
    ensures { RunHasEvents }
{}
