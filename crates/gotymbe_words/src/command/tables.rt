//! The subcommands, and the options of each in their order.

use crate::command::options::{Described, Form};

/// A subcommand.
#[derive(Clone, Copy)]
pub(crate) struct Subcommand {
    pub(crate) name: &'static str,
    pub(crate) about: &'static str,
    pub(crate) examples: &'static str,
    pub(crate) options: &'static [Choice],
}

/// An option of a subcommand, or what stands there without one.
#[derive(Clone, Copy)]
pub(crate) enum Choice {
    Files,
    File,
    NeededFile,
    Quiet,
    Resolve,
    Merge,
    Resync,
    From,
    To,
    Event,
    Limit,
    Idle,
    Output,
    Force,
    Folder,
    ForceFiles,
    Field,
    PageTitle,
    ChromeTitle,
}

const FILES: Described = Described {
    name: "file",
    form: Form::Files,
    value_name: "FILE",
    help: "The traces, - for standard input",
};

const FILE: Described = Described {
    name: "file",
    form: Form::File,
    value_name: "FILE",
    help: "The trace, - for standard input",
};

const NEEDED_FILE: Described = Described {
    name: "file",
    form: Form::NeededFile,
    value_name: "FILE",
    help: "The trace",
};

const QUIET: Described = Described {
    name: "quiet",
    form: Form::Flag,
    value_name: "",
    help: "Do not tell how far reading is",
};

const RESOLVE: Described = Described {
    name: "resolve",
    form: Form::Flag,
    value_name: "",
    help: "Of the frames the events alone, with texts and stacks in place of ids",
};

const MERGE: Described = Described {
    name: "merge",
    form: Form::Flag,
    value_name: "",
    help: "The events of all files by their times, each with its file",
};

const RESYNC: Described = Described {
    name: "resync",
    form: Form::Flag,
    value_name: "",
    help: "Go on at the next header from which an event can be read",
};

const FROM: Described = Described {
    name: "from",
    form: Form::Text,
    value_name: "TIME",
    help: "No event before this time, in nanoseconds or as a date",
};

const TO: Described = Described {
    name: "to",
    form: Form::Text,
    value_name: "TIME",
    help: "No event after this time, in nanoseconds or as a date",
};

const EVENT: Described = Described {
    name: "event",
    form: Form::Texts,
    value_name: "NAME",
    help: "Events of this name alone (may be given several times)",
};

const LIMIT: Described = Described {
    name: "limit",
    form: Form::ShortNumber('n'),
    value_name: "N",
    help: "At most so many events",
};

const IDLE: Described = Described {
    name: "idle",
    form: Form::Number,
    value_name: "SECONDS",
    help: "End after so many seconds without growth",
};

const OUTPUT: Described = Described {
    name: "output",
    form: Form::ShortText('o'),
    value_name: "FILE",
    help: "Write into this file, which must not be there yet",
};

const FORCE: Described = Described {
    name: "force",
    form: Form::Flag,
    value_name: "",
    help: "Write in place of a file that is there",
};

const FOLDER: Described = Described {
    name: "output",
    form: Form::NeededText('o'),
    value_name: "FOLDER",
    help: "Write into this folder, which is made where it is not there",
};

const FORCE_FILES: Described = Described {
    name: "force",
    form: Form::Flag,
    value_name: "",
    help: "Write in place of files that are there",
};

const FIELD: Described = Described {
    name: "field",
    form: Form::Text,
    value_name: "NAME",
    help: "Add up the numbers of this field, in place of how many events there are",
};

const PAGE_TITLE: Described = Described {
    name: "title",
    form: Form::Text,
    value_name: "TEXT",
    help: "The title of the page, in place of the first file's name",
};

const CHROME_TITLE: Described = Described {
    name: "title",
    form: Form::Text,
    value_name: "TEXT",
    help: "The name of the whole, in place of the file's name",
};

/// What an option is called, and what is told of it.
pub(crate) fn described(choice: Choice) -> Described {
    match choice {
        Choice::Files => FILES,
        Choice::File => FILE,
        Choice::NeededFile => NEEDED_FILE,
        Choice::Quiet => QUIET,
        Choice::Resolve => RESOLVE,
        Choice::Merge => MERGE,
        Choice::Resync => RESYNC,
        Choice::From => FROM,
        Choice::To => TO,
        Choice::Event => EVENT,
        Choice::Limit => LIMIT,
        Choice::Idle => IDLE,
        Choice::Output => OUTPUT,
        Choice::Force => FORCE,
        Choice::Folder => FOLDER,
        Choice::ForceFiles => FORCE_FILES,
        Choice::Field => FIELD,
        Choice::PageTitle => PAGE_TITLE,
        Choice::ChromeTitle => CHROME_TITLE,
    }
}

/// All subcommands.
pub(crate) fn subcommands() -> &'static [Subcommand] {
    SUBCOMMANDS
}

const SUBCOMMANDS: &[Subcommand] = &[
    Subcommand {
        name: "check",
        about: "Tells whether traces are whole, and else where and why they stop",
        examples: "Example:\n  gotymbe check run.trace next.trace",
        options: &[Choice::Files, Choice::Quiet],
    },
    Subcommand {
        name: "dump",
        about: "Writes the lines of what traces hold",
        examples: "Examples:\n  gotymbe dump run.trace\n  \
            gotymbe dump --resolve --event Poll --limit 10 run.trace",
        options: &[
            Choice::Resolve,
            Choice::Merge,
            Choice::Files,
            Choice::From,
            Choice::To,
            Choice::Event,
            Choice::Limit,
            Choice::Output,
            Choice::Force,
            Choice::Quiet,
        ],
    },
    Subcommand {
        name: "json",
        about: "Writes each event as a line of JSON",
        examples: "Examples:\n  gotymbe json run.trace\n  \
            gotymbe json --from 1000 --to 2000 -o events.jsonl run.trace",
        options: &[
            Choice::Merge,
            Choice::Files,
            Choice::From,
            Choice::To,
            Choice::Event,
            Choice::Limit,
            Choice::Output,
            Choice::Force,
            Choice::Quiet,
        ],
    },
    Subcommand {
        name: "csv",
        about: "Writes the events of each schema as a table of comma-separated values",
        examples: "Examples:\n  gotymbe csv -o tables run.trace next.trace\n  \
            gotymbe csv --event Poll -o polls run.trace",
        options: &[
            Choice::Files,
            Choice::From,
            Choice::To,
            Choice::Event,
            Choice::Limit,
            Choice::Folder,
            Choice::ForceFiles,
            Choice::Quiet,
        ],
    },
    Subcommand {
        name: "stats",
        about: "Writes what the events of all traces add up to, by schema",
        examples: "Examples:\n  gotymbe stats run.trace next.trace\n  gotymbe stats --event Poll run.trace",
        options: &[
            Choice::Files,
            Choice::From,
            Choice::To,
            Choice::Event,
            Choice::Limit,
            Choice::Output,
            Choice::Force,
            Choice::Quiet,
        ],
    },
    Subcommand {
        name: "fold",
        about: "Writes what the stacks of events add up to, as lines for flame graphs",
        examples: "Examples:\n  gotymbe fold run.trace next.trace\n  \
            gotymbe fold --event Alloc --field size run.trace",
        options: &[
            Choice::Field,
            Choice::Files,
            Choice::From,
            Choice::To,
            Choice::Event,
            Choice::Limit,
            Choice::Output,
            Choice::Force,
            Choice::Quiet,
        ],
    },
    Subcommand {
        name: "page",
        about: "Writes one HTML file that shows the events of all traces",
        examples: "Examples:\n  gotymbe page -o run.html run.trace\n  \
            gotymbe page --title Day -o day.html a.trace b.trace",
        options: &[
            Choice::PageTitle,
            Choice::Files,
            Choice::From,
            Choice::To,
            Choice::Event,
            Choice::Limit,
            Choice::Output,
            Choice::Force,
            Choice::Quiet,
        ],
    },
    Subcommand {
        name: "chrome",
        about: "Writes the events of a trace in the format of Chrome's trace viewer",
        examples: "Examples:\n  gotymbe chrome -o run.json run.trace\n  \
            gotymbe chrome --title Day -o day.json run.trace",
        options: &[
            Choice::File,
            Choice::ChromeTitle,
            Choice::From,
            Choice::To,
            Choice::Event,
            Choice::Limit,
            Choice::Output,
            Choice::Force,
            Choice::Quiet,
        ],
    },
    Subcommand {
        name: "salvage",
        about: "Saves the longest front of a trace that reads whole",
        examples: "Examples:\n  gotymbe salvage -o saved.trace torn.trace\n  \
            gotymbe salvage --resync -o all.trace bad.trace",
        options: &[
            Choice::File,
            Choice::Resync,
            Choice::Output,
            Choice::Force,
            Choice::Quiet,
        ],
    },
    Subcommand {
        name: "join",
        about: "Joins the whole fronts of traces, one after another",
        examples: "Example:\n  gotymbe join -o day.trace morning.trace evening.trace",
        options: &[Choice::Files, Choice::Output, Choice::Force, Choice::Quiet],
    },
    Subcommand {
        name: "cut",
        about: "Cuts the events of a range of times out of a trace, with all that they stand on",
        examples: "Example:\n  gotymbe cut --from 1000 --to 2000 -o part.trace run.trace",
        options: &[
            Choice::File,
            Choice::From,
            Choice::To,
            Choice::Output,
            Choice::Force,
            Choice::Quiet,
        ],
    },
    Subcommand {
        name: "follow",
        about: "Writes the lines of a trace as it grows",
        examples: "Example:\n  gotymbe follow --idle 60 run.trace",
        options: &[Choice::NeededFile, Choice::Idle],
    },
];
