//! What the words of a call ask for.

ghost use Rattle.std.specs.Prelude.{◌≡◌, ◌↔◌, IsTrue, IfOk, Any, [], map};
ghost use Rattle.gotymbe_words.specs.Asking.{IsTaskNamed, IsAsked, values_of, IsNumberOf, Selects, status_by};
ghost use Rattle.gotymbe_words.specs.Asking.{HasForm, merged_form, HasEmptyName};

use clap::ArgMatches;
use clap::error::ErrorKind;
use std::alloc::{AllocError, Global};

/// What is done.
#[derive(Clone, Copy, Debug, PartialEq, Eq)]
pub enum Task {
    /// Tells whether traces are whole.
    Check,
    /// Writes the lines of what traces hold.
    Dump,
    /// Writes events as lines of JSON.
    Json,
    /// Writes events as rows of tables.
    Csv,
    /// Saves what reads whole of a trace.
    Salvage,
    /// Joins traces.
    Join,
    /// Writes what the events of traces add up to.
    Stats,
    /// Writes what the stacks of events add up to.
    Fold,
    /// Cuts a range of times out of a trace.
    Cut,
    /// Writes the lines of a trace as it grows.
    Follow,
    /// Writes a page that shows traces.
    Page,
    /// Writes the entries that viewers of Chrome's format open.
    Chrome,
}

/// How events are written.
#[derive(Clone, Copy, Debug, PartialEq, Eq)]
pub enum Form {
    /// As lines of JSON.
    Json,
    /// As lines of a dump, resolved.
    Resolved,
    /// As a resolved dump, with its first and its last line.
    Dump,
}

/// What the words of a call ask for.
#[derive(Debug, Drop)]
pub struct Asked<'a> {
    /// What is done.
    pub task: Task,
    /// The names of the files that are read; `-` is standard input.
    pub files: Vec<&'a str>,
    /// The names of the events that are shown; of all where none is listed.
    pub events: Vec<&'a str>,
    /// The name of the file or the folder that is written; `None` for standard output.
    pub output: Option<&'a str>,
    /// Whether that may stand in place of a file that is there.
    pub force: bool,
    /// No event before this time is shown: a number or a date, as it is given.
    pub from: Option<&'a str>,
    /// No event after this time is shown.
    pub to: Option<&'a str>,
    /// At most so many events are shown.
    pub limit: Option<u64>,
    /// The name of the field whose numbers are added up; `None` where events are counted.
    pub field: Option<&'a str>,
    /// Whether ids of the pools are resolved.
    pub resolve: bool,
    /// Whether the events of all files are shown in one order, by their times.
    pub merge: bool,
    /// Whether saving goes on after a damaged part.
    pub resync: bool,
    /// After so many seconds without growth following ends.
    pub idle: Option<u64>,
    /// Whether nothing is told of how far reading is.
    pub quiet: bool,
    /// The title of a page, or the name of the whole in Chrome's format.
    pub title: Option<&'a str>,
}

impl Asked<'_> {
    /// Whether some events alone are asked for.
    pub fn selects(&self) -> bool
        ensures { IsTrue result ↔ Selects self.now }
    {
        self.from.is_some() || self.to.is_some() || self.limit.is_some() || !self.events.is_empty()
    }

    /// Whether the name of a file or a folder is empty: none has such a name.
    pub fn has_empty_name(&self) -> bool
        ensures { IsTrue result ↔ HasEmptyName self.now }
    {
        self.output.is_some_and(|name| name.is_empty()) || is_any_empty(&self.files)
    }

    /// The form of the lines of a file's events; `None` where the lines are those of its frames.
    pub fn form(&self) -> Option<Form>
        ensures { HasForm self.now result }
    {
        if self.task == Task::Json {
            return Some(Form::Json);
        }
        if self.selects() {
            return Some(Form::Resolved);
        }
        if self.resolve {
            return Some(Form::Dump);
        }
        None
    }

    /// The form of the lines of the events of several files in one order.
    pub fn merged_form(&self) -> Form
        ensures { result ≡ merged_form self.now.task }
    {
        match self.task {
            Task::Json => Form::Json,
            _ => Form::Resolved,
        }
    }
}

/// The task of a subcommand's name.
pub fn task_of(name: &str) -> Option<Task>
    ensures { IsTaskNamed name.now result }
{
    match name {
        "check" => Some(Task::Check),
        "dump" => Some(Task::Dump),
        "json" => Some(Task::Json),
        "csv" => Some(Task::Csv),
        "salvage" => Some(Task::Salvage),
        "join" => Some(Task::Join),
        "stats" => Some(Task::Stats),
        "fold" => Some(Task::Fold),
        "cut" => Some(Task::Cut),
        "follow" => Some(Task::Follow),
        "page" => Some(Task::Page),
        "chrome" => Some(Task::Chrome),
        _ => None,
    }
}

/// What the words that were given to a subcommand ask for. `AllocError` where a growth was refused.
pub fn what_is_asked<'a>(
    alloc: Global,
    task: Task,
    given: &ArgMatches<'a>,
) -> Result<Asked<'a>, AllocError>
    ensures { IfOk result (IsAsked task given.now) }
{
    let files = values_of(alloc, given, "file")?;
    let events = values_of(alloc, given, "event")?;
    Ok(Asked {
        task,
        files,
        events,
        output: given.get_str("output"),
        force: given.get_flag("force"),
        from: given.get_str("from"),
        to: given.get_str("to"),
        limit: number_of(given, "limit"),
        field: given.get_str("field"),
        resolve: given.get_flag("resolve"),
        merge: given.get_flag("merge"),
        resync: given.get_flag("resync"),
        idle: number_of(given, "idle"),
        quiet: given.get_flag("quiet"),
        title: given.get_str("title"),
    })
}

// Whether a name is empty.
fn is_any_empty(names: &[&str]) -> bool
    ensures { IsTrue result ↔ Any (λ s. s.now ≡ []) names.now }
{
    names.iter().any(|name| name.is_empty())
}

// The values of an id, none where it has none.
fn values_of<'a>(
    alloc: Global,
    given: &ArgMatches<'a>,
    id: &str,
) -> Result<Vec<&'a str>, AllocError>
    ensures { IfOk result (λ v. map (λ s. s.now) v.items ≡ values_of given.now id.now) }
{
    let mut values = Vec::new(alloc);
    if let Some(found) = given.get_strs(id) {
        values.extend_from_slice(found)?;
    }
    Ok(values)
}

// The number that is given for an id.
fn number_of(given: &ArgMatches<'_>, id: &str) -> Option<u64>
    ensures { IsNumberOf given.now id.now result }
{
    given.get_one::<u64>(id)
}

/// The status where a call's words could not be read: none of a request for help or the version, 4 where a growth was
/// refused, and else 64.
pub fn status_by(kind: ErrorKind) -> u8
    ensures { result ≡ status_by kind }
{
    match kind {
        ErrorKind::DisplayHelp | ErrorKind::DisplayVersion => 0,
        ErrorKind::OutOfMemory => 4,
        _ => 64,
    }
}
