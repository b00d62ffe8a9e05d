//! The words that the program takes.

use crate::command::options::with_options;
use crate::command::tables::{Subcommand, subcommands};
use clap::Command;
use std::alloc::{AllocError, Global};

mod options;
mod tables;

const VERSION: &str = "0.1.0, with rattle-kit-13f logic dac8208d650f15bf";

/// The whole command. `AllocError` where a growth was refused.
pub fn command<'a>(alloc: Global) -> Result<Command<'a>, AllocError> {
    with_subcommands(alloc, bare_command(alloc), subcommands())
}

// The command without subcommands.
fn bare_command<'a>(alloc: Global) -> Command<'a> {
    Command::new(alloc, "gotymbe")
        .version(VERSION)
        .about("Looks at traces, saves what reads whole of them, and turns them into other forms")
        .subcommand_required(true)
}

// A command with these subcommands.
fn with_subcommands<'a>(
    alloc: Global,
    command: Command<'a>,
    subcommands: &[Subcommand],
) -> Result<Command<'a>, AllocError> {
    let mut command = command;
    for subcommand in subcommands {
        command = command.subcommand(command_of(alloc, subcommand)?)?;
    }
    Ok(command)
}

// A subcommand with its options.
fn command_of<'a>(alloc: Global, subcommand: &Subcommand) -> Result<Command<'a>, AllocError> {
    let command = Command::new(alloc, subcommand.name)
        .about(subcommand.about)
        .after_help(subcommand.examples);
    with_options(alloc, command, subcommand.options)
}
