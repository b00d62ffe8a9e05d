//! What holds of the data of pages.

ghost use Rattle.trace_page.specs.Pages.{PageReadsBack};

/// The text of the data of events of runs, once it is escaped, is read back as that data.
pub fn page_reads_back()
    ensures { PageReadsBack }
{}
