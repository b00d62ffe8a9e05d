//! The options of a subcommand, by their forms.

use crate::command::tables::{Choice, described};
use clap::{Arg, ArgAction, Command, value_parser};
use std::alloc::{AllocError, Global};

/// How an option is called, and what is told of it.
#[derive(Clone, Copy)]
pub(crate) struct Described {
    pub(crate) name: &'static str,
    pub(crate) form: Form,
    /// What its value is called; nothing where it has none.
    pub(crate) value_name: &'static str,
    pub(crate) help: &'static str,
}

/// What is given with an option.
#[derive(Clone, Copy)]
pub(crate) enum Form {
    /// Nothing: it is yes where it is said.
    Flag,
    /// A text.
    Text,
    /// A text, also after this letter.
    ShortText(char),
    /// The same, and it must be given.
    NeededText(char),
    /// A text each time that it is said.
    Texts,
    /// A number.
    Number,
    /// A number, also after this letter.
    ShortNumber(char),
    /// A file, without an option.
    File,
    /// One that must be given.
    NeededFile,
    /// Several files.
    Files,
}

/// A subcommand with these options.
pub(crate) fn with_options<'a>(
    alloc: Global,
    command: Command<'a>,
    options: &[Choice],
) -> Result<Command<'a>, AllocError> {
    let mut command = command;
    for option in options {
        command = command.arg(argument(alloc, &described(*option)))?;
    }
    Ok(command)
}

// An option as its form has it.
fn argument<'a>(alloc: Global, option: &Described) -> Arg<'a> {
    match option.form {
        Form::Flag => flag(alloc, option),
        Form::Text => text(alloc, option),
        Form::ShortText(letter) => text(alloc, option).short(letter),
        Form::NeededText(letter) => text(alloc, option).short(letter).required(true),
        Form::Texts => text(alloc, option).action(ArgAction::Append),
        Form::Number => number(alloc, option),
        Form::ShortNumber(letter) => number(alloc, option).short(letter),
        Form::File => file(alloc, option).default_value("-"),
        Form::NeededFile => file(alloc, option).required(true),
        Form::Files => files(alloc, option),
    }
}

// Yes where it is said.
fn flag<'a>(alloc: Global, option: &Described) -> Arg<'a> {
    Arg::new(alloc, option.name)
        .long(option.name)
        .action(ArgAction::SetTrue)
        .help(option.help)
}

fn text<'a>(alloc: Global, option: &Described) -> Arg<'a> {
    file(alloc, option).long(option.name)
}

fn number<'a>(alloc: Global, option: &Described) -> Arg<'a> {
    text(alloc, option).value_parser(value_parser!(u64))
}

// What stands there without an option.
fn file<'a>(alloc: Global, option: &Described) -> Arg<'a> {
    Arg::new(alloc, option.name)
        .value_name(option.value_name)
        .help(option.help)
}

fn files<'a>(alloc: Global, option: &Described) -> Arg<'a> {
    file(alloc, option)
        .action(ArgAction::Append)
        .num_args(1..)
        .default_value("-")
}
