//! What holds of tables.

ghost use Rattle.trace_csv.specs.Laws.{RowsAreReadBack};

/// The names of columns and the rows of events, as a writer of rows writes them, are read back as exactly these.
pub fn rows_read_back()
    ensures { RowsAreReadBack }
{}
