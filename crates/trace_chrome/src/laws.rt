//! What holds of the entries of traces, and of their texts.

ghost use Rattle.trace_chrome.specs.Laws.{IsToldOnce, SlicesNest};
ghost use Rattle.trace_chrome.specs.Sending.{SentReadsBack, TextIsSent};
ghost use Rattle.trace_chrome.specs.Trees.{TextReadsBack};

/// The entries of an event tell it once.
pub fn told_once()
    ensures { IsToldOnce }
{}

/// Over any events and the tail no slice ends where none is open, and each that begins ends.
pub fn slices_nest()
    ensures { SlicesNest }
{}

/// The text from the head over any entries to the tail is a line of JSON that is read back as the tree of these.
pub fn reads_back()
    ensures { TextReadsBack }
{}

/// From its beginning over any events to its end the text of a trace is sent whole, with each event once and in its
/// place.
pub fn text_is_sent()
    ensures { TextIsSent }
{}

/// Where the events are of runs, the text that is sent is read back as the tree of its entries, each with the JSON of
/// its event.
pub fn sent_reads_back()
    ensures { SentReadsBack }
{}
