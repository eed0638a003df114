//! The table of commands: those that this program runs.

use crate::argument_names::{
    BODY, FILE, GROUP, KEY, MODE, NEW, OLD, OWNER, PAGES, QBYTES, SCHEDULE, SCRIPT,
};
use crate::help::{
    CHECK_PRINTS, COPY_PRINTS, GROW_PRINTS, MIGRATE_PRINTS, NEW_PRINTS, REPLAY_PRINTS, RUN_PRINTS,
    SALVAGE_PRINTS, SHELL_ENDING, STAT_PRINTS,
};
use crate::table::{CommandRow, FileVerb, Operand, Place, ShellVerb, Verb};

const THE_FILE: Operand = Operand {
    name: FILE,
    place: Place::Needed,
    help: "The file",
};

const READ_FILE: Operand = Operand {
    help: "The file, which is not written",
    ..THE_FILE
};

const OLD_FILE: Operand = Operand {
    name: OLD,
    ..READ_FILE
};

const NEW_FILE: Operand = Operand {
    name: NEW,
    place: Place::Needed,
    help: "Where the new file is made; there may be nothing",
};

const SIZE: Operand = Operand {
    name: PAGES,
    place: Place::Needed,
    help: "How many pages of 4,096 bytes it has: 258 to 65,536",
};

const THE_SCRIPT: Operand = Operand {
    name: SCRIPT,
    place: Place::Needed,
    help: "The script, or - for that of standard input",
};

const THE_QUEUE: Operand = Operand {
    name: KEY,
    place: Place::Needed,
    help: "The queue",
};

/// A command on a queue of a file, of which else nothing is said.
const ON_QUEUE: CommandRow = CommandRow {
    verb: Verb::Front(""),
    name: "",
    about: "",
    operands: &[THE_FILE, THE_QUEUE],
    one_of: &[],
    ending: SHELL_ENDING,
};

/// Those on scripts and whole files (docs/SCRIPTS.md).
pub const FILE_COMMANDS: &[CommandRow] = &[
    CommandRow {
        verb: Verb::File(FileVerb::New),
        name: "new",
        about: "Makes a file of message queues",
        operands: &[
            Operand {
                help: "Where it is made; there may be nothing",
                ..THE_FILE
            },
            Operand {
                name: PAGES,
                place: Place::Optional,
                help: "How many pages of 4,096 bytes it has: 258 to 65,536; 1,000 where none is given",
            },
        ],
        one_of: &[],
        ending: NEW_PRINTS,
    },
    CommandRow {
        verb: Verb::File(FileVerb::Run),
        name: "run",
        about: "Runs a script on a file of message queues",
        operands: &[THE_FILE, THE_SCRIPT],
        one_of: &[],
        ending: RUN_PRINTS,
    },
    CommandRow {
        verb: Verb::File(FileVerb::Replay),
        name: "replay",
        about: "Runs the lines of several seats beside one another, by a schedule",
        operands: &[
            THE_FILE,
            THE_SCRIPT,
            Operand {
                name: SCHEDULE,
                place: Place::Needed,
                help: "The schedule, or - for that of standard input",
            },
        ],
        one_of: &[],
        ending: REPLAY_PRINTS,
    },
    CommandRow {
        verb: Verb::File(FileVerb::Check),
        name: "check",
        about: "Checks a file of message queues",
        operands: &[READ_FILE],
        one_of: &[],
        ending: CHECK_PRINTS,
    },
    CommandRow {
        verb: Verb::File(FileVerb::Stat),
        name: "stat",
        about: "Shows the queues of a file",
        operands: &[READ_FILE],
        one_of: &[],
        ending: STAT_PRINTS,
    },
    CommandRow {
        verb: Verb::File(FileVerb::Migrate),
        name: "migrate",
        about: "Makes a file of today's version of one of version 1",
        operands: &[
            Operand {
                help: "The file of version 1, which is not written",
                ..OLD_FILE
            },
            NEW_FILE,
        ],
        one_of: &[],
        ending: MIGRATE_PRINTS,
    },
    CommandRow {
        verb: Verb::File(FileVerb::Copy),
        name: "copy",
        about: "Makes a file of another size with the same queues",
        operands: &[OLD_FILE, NEW_FILE, SIZE],
        one_of: &[],
        ending: COPY_PRINTS,
    },
    CommandRow {
        verb: Verb::File(FileVerb::Grow),
        name: "grow",
        about: "Gives a file another size, in its place",
        operands: &[THE_FILE, SIZE],
        one_of: &[],
        ending: GROW_PRINTS,
    },
    CommandRow {
        verb: Verb::File(FileVerb::Salvage),
        name: "salvage",
        about: "Makes a file of what can be read of one that is wrong",
        operands: &[OLD_FILE, NEW_FILE, SIZE],
        one_of: &[],
        ending: SALVAGE_PRINTS,
    },
];

/// Those of a shell (docs/SHELL.md).
pub const SHELL_COMMANDS: &[CommandRow] = &[
    CommandRow {
        verb: Verb::Shell(ShellVerb::Send),
        name: "send",
        about: "Sends standard input as a message",
        operands: &[
            THE_FILE,
            THE_QUEUE,
            Operand {
                name: BODY,
                place: Place::Input,
                help: "- for standard input, which is the body also where this is left out; a terminal is not",
            },
        ],
        ..ON_QUEUE
    },
    CommandRow {
        verb: Verb::Shell(ShellVerb::Receive),
        name: "receive",
        about: "Receives a message, and prints its body",
        ..ON_QUEUE
    },
    CommandRow {
        verb: Verb::Shell(ShellVerb::Peek),
        name: "peek",
        about: "Prints the body that a receive would get, and leaves it in place",
        ..ON_QUEUE
    },
    CommandRow {
        verb: Verb::Shell(ShellVerb::List),
        name: "list",
        about: "Lists the queues of a file, or the messages of one queue",
        operands: &[
            READ_FILE,
            Operand {
                name: KEY,
                place: Place::Optional,
                help: "The queue whose messages are listed",
            },
        ],
        ..ON_QUEUE
    },
    CommandRow {
        verb: Verb::Shell(ShellVerb::Make),
        name: "make",
        about: "Makes a queue, and prints its id",
        operands: &[
            THE_FILE,
            Operand {
                help: "The key, which no queue may have yet; or private",
                ..THE_QUEUE
            },
        ],
        ..ON_QUEUE
    },
    CommandRow {
        verb: Verb::Shell(ShellVerb::Remove),
        name: "remove",
        about: "Removes a queue with its messages",
        ..ON_QUEUE
    },
    CommandRow {
        verb: Verb::Shell(ShellVerb::Set),
        name: "set",
        about: "Sets the limit, the owner or the mode of a queue",
        one_of: &[QBYTES, OWNER, GROUP, MODE],
        ..ON_QUEUE
    },
];
