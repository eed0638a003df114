//! The parser of command lines, built of the table of commands.

use crate::argument_names::FOR_EVER;
use crate::command_table::FILE_COMMANDS;
use crate::help::ENDING;
use crate::option_table::OPTIONS;
use crate::plain::Plain;
use crate::table::{CommandRow, Operand, OptionRow, Place, Value};
use clap::error::ErrorKind;
use clap::{Arg, ArgAction, ArgGroup, Command, Error};
use std::alloc::{AllocError, Global};

/// The version of the program, which its manual page and the changelog have too.
const VERSION: &str = "0.2.0";

/// What the command line may say of scripts and whole files, and by the commands of these rows.
pub fn program<'a>(alloc: Global, more: &[CommandRow]) -> Result<Command<'a>, AllocError> {
    // The program is made last: to drop it where a growth is refused would be dear to prove.
    let mut commands = Vec::new(alloc);
    add_commands(alloc, FILE_COMMANDS, &mut commands)?;
    add_commands(alloc, more, &mut commands)?;
    Command::new(alloc, "msgq")
        .version(VERSION)
        .about("Message queues (XSI, POSIX.1-2017) kept in one file")
        .after_help(ENDING)
        .subcommands(commands)
}

/// Adds the commands of these rows.
fn add_commands<'a>(
    alloc: Global,
    rows: &[CommandRow],
    commands: &mut Vec<Command<'a>>,
) -> Result<(), AllocError> {
    for row in rows {
        commands.push(command(alloc, row)?)?;
    }
    Ok(())
}

/// What is said of a command line that the parser takes, with the usage of its command.
pub(crate) fn wrong_use(alloc: Global, row: &CommandRow, why: &str) -> Result<Error, AllocError> {
    let name = row.name;
    let program = format!(in alloc; "msgq {name}")?;
    let mut command = command(alloc, row)?.bin_name(program.as_str())?;
    command.error(ErrorKind::ValueValidation, why)
}

/// What is said of a word that its place does not take, and of what it takes.
pub fn wrong_word(
    alloc: Global,
    row: &CommandRow,
    word: &str,
    wanted: &str,
) -> Result<Error, AllocError> {
    let word = Plain(word);
    let why = format!(in alloc; "'{word}' is no {wanted}")?;
    wrong_use(alloc, row, why.as_str())
}

/// What the command line of a command may say.
fn command<'a>(alloc: Global, row: &CommandRow) -> Result<Command<'a>, AllocError> {
    let arguments = arguments(alloc, row)?;
    let choices = choices(alloc, row)?;
    Command::new(alloc, row.name)
        .about(row.about)
        .after_help(row.ending)
        .args(arguments)?
        .groups(choices)
}

/// Its operands, and the options that it takes.
fn arguments<'a>(alloc: Global, row: &CommandRow) -> Result<Vec<Arg<'a>>, AllocError> {
    let mut arguments = Vec::new(alloc);
    for operand in row.operands {
        arguments.push(argument(alloc, operand))?;
    }
    for option in OPTIONS {
        if option.of.contains(&row.verb) {
            arguments.push(option_argument(alloc, option)?)?;
        }
    }
    Ok(arguments)
}

/// An operand.
fn argument<'a>(alloc: Global, row: &Operand) -> Arg<'a> {
    Arg::new(alloc, row.name)
        .required(row.place == Place::Needed)
        .action(ArgAction::Set)
        .help(row.help)
}

/// An option. What it needs and the command has not counts for nothing.
fn option_argument<'a>(alloc: Global, row: &OptionRow) -> Result<Arg<'a>, AllocError> {
    let argument = Arg::new(alloc, row.long).long(row.long).help(row.help);
    let argument = with_value(argument, row.value);
    let argument = match row.short {
        Some(letter) => argument.short(letter),
        None => argument,
    };
    argument
        .requires_all(row.needs)?
        .conflicts_with_all(row.conflicts)
}

/// How the value of an option is given. The argument stands in one line of steps, since each branch
/// that makes one would have the proof join it with those of the others.
fn with_value<'a>(argument: Arg<'a>, value: Value) -> Arg<'a> {
    let Some(shown) = value.shown() else {
        return argument.action(ArgAction::SetTrue);
    };
    let argument = argument
        .action(ArgAction::Set)
        .value_name(shown)
        .allow_negative_numbers(matches!(value, Value::Signed(_)));
    if !matches!(value, Value::Perhaps(_)) {
        return argument;
    }
    argument
        .num_args(0..=1)
        .require_equals(true)
        .default_missing_value(FOR_EVER)
}

/// The options of which at least one is given, if there are such.
fn choices<'a>(alloc: Global, row: &CommandRow) -> Result<Vec<ArgGroup<'a>>, AllocError> {
    let mut choices = Vec::new(alloc);
    if !row.one_of.is_empty() {
        let choice = ArgGroup::new(alloc, "what").args(row.one_of)?;
        choices.push(choice.required(true).multiple(true))?;
    }
    Ok(choices)
}
