//! A command line is read.

ghost use Rattle.std.specs.Prelude.{IfOk, IfSome};
ghost use Rattle.clap.specs.Matches.{found_of};
ghost use Rattle.command_runs.specs.Tasks.{CallsAs, CanBeMade, DeedHasPages, HasPages};

use crate::mistake::Mistake;
use crate::task::{Deed, ReceiveTask, SendTask, ShellTask};
use crate::values::{
    any_queue, creation, ids, mode, mtype, names_input, new_key, new_queue, number, patience,
    queue, serial,
};
use clap::{ArgMatches, Error};
use msgq_cli::argument_names::{
    ALL, FILE, GROUP, HEADER, JSON, LINES, NOERROR, OWNER, QBYTES, SIZE, VERBOSE,
};
use msgq_cli::{SHELL_COMMANDS, ShellVerb, Verb, command_named, program};
use queue_commands::{Framing, Receiving, Setting, Settings};
use queue_model::{MAX_BODY, MAX_MESSAGES};
use std::alloc::Global;

/// Reads the words of a command line of the program, of which the first names it. None where they
/// ask for something else than a command of a shell.
///
/// A number of pages is one that a file can have.
///
/// # Errors
///
/// What the parser tells of a wrong command line, as where help is asked for; or which word is no
/// value of its place.
pub fn read_command<'a>(alloc: Global, words: &'a [String]) -> Result<Option<ShellTask<'a>>, Error>
    ensures pages { IfOk result (λ task. IfSome task HasPages) }
{
    let program = program(alloc, SHELL_COMMANDS)?;
    let matches = program.try_get_matches_from(words)?;
    let Some((name, given)) = matches.subcommand() else {
        return Ok(None);
    };
    let Some(row) = command_named(SHELL_COMMANDS, name) else {
        return Ok(None);
    };
    let Verb::Shell(verb) = row.verb else {
        return Ok(None);
    };
    match read_task(verb, given) {
        Ok(task) => Ok(Some(task)),
        Err(mistake) => Err(mistake.into_error(alloc, &row)?),
    }
}

/// What the arguments of a command ask for, as the parser gives them.
///
/// Who calls is as `--pid`, `--uid` and `--gid` say it, and a number of pages is one that a file can have.
///
/// # Errors
///
/// The first word that its place does not take.
pub fn read_task<'a>(verb: ShellVerb, given: &ArgMatches<'a>) -> Result<ShellTask<'a>, Mistake<'a>>
    ensures pages { IfOk result HasPages }
    ensures ids { IfOk result (λ task. CallsAs (found_of given.now) task.ids) }
{
    let deed = read_deed(verb, given)?;
    Ok(ShellTask {
        file: given.get_str(FILE).unwrap_or(""),
        ids: ids(given)?,
        deed,
    })
}

/// What the arguments of a command ask for, but for the file and who calls.
fn read_deed<'a>(verb: ShellVerb, given: &ArgMatches<'a>) -> Result<Deed, Mistake<'a>>
    ensures pages { IfOk result DeedHasPages }
{
    match verb {
        ShellVerb::Send => Ok(Deed::Send(read_send(given)?)),
        ShellVerb::Receive => Ok(Deed::Receive(ReceiveTask {
            receiving: read_receiving(given)?,
            create: creation(given)?,
            patience: patience(given)?,
        })),
        ShellVerb::Peek => Ok(Deed::Peek(read_receiving(given)?)),
        ShellVerb::List => Ok(Deed::List {
            queue: any_queue(given)?,
            is_json: given.get_flag(JSON),
        }),
        ShellVerb::Make => Ok(Deed::Make {
            key: new_key(given)?,
            new: new_queue(given)?,
        }),
        ShellVerb::Remove => Ok(Deed::Remove(queue(given)?)),
        ShellVerb::Set => Ok(Deed::Set(read_setting(given)?)),
    }
}

/// How standard input is sent.
fn read_send<'a>(given: &ArgMatches<'a>) -> Result<SendTask, Mistake<'a>>
    ensures pages { IfOk result (λ sending. IfSome sending.create CanBeMade) }
{
    Ok(SendTask {
        queue: queue(given)?,
        create: creation(given)?,
        mtype: mtype(given)?.unwrap_or(1),
        framing: if given.get_flag(LINES) {
            Framing::Lines
        } else {
            Framing::Whole
        },
        names_input: names_input(given)?,
        tells: given.get_flag(VERBOSE),
        patience: patience(given)?,
    })
}

/// Which messages are received: a command that does not know an option has it as where it is not
/// given.
fn read_receiving<'a>(given: &ArgMatches<'a>) -> Result<Receiving, Mistake<'a>> {
    Ok(Receiving {
        queue: queue(given)?,
        mtype: mtype(given)?.unwrap_or(0),
        size: number(given, SIZE)?.unwrap_or(MAX_BODY as u32),
        noerror: given.get_flag(NOERROR),
        most: if given.get_flag(ALL) { MAX_MESSAGES } else { 1 },
        serial: serial(given)?,
        heads: given.get_flag(HEADER),
    })
}

/// What is set of a queue.
fn read_setting<'a>(given: &ArgMatches<'a>) -> Result<Setting, Mistake<'a>> {
    Ok(Setting {
        queue: queue(given)?,
        settings: Settings {
            qbytes: number(given, QBYTES)?,
            uid: number(given, OWNER)?,
            gid: number(given, GROUP)?,
            mode: mode(given)?,
        },
    })
}
