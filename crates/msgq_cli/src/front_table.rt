//! The table of commands: those of the front (`c/front`, `c/relay`), and what it adds to `list`. The front
//! reads them itself, so this program's parser has none of them; completions, usages and the manual have.

use crate::argument_names::{COMMAND, CREATE, FILE, GROUP, JSON, KEY, MODE, NEW_PAGES, TYPE, WAIT};
use crate::option_table::PLAIN;
use crate::table::{CommandRow, Operand, OptionRow, Place, Value, Verb};

const QUEUE_FILE: Operand = Operand {
    name: FILE,
    place: Place::Needed,
    help: "The file of queues",
};

const DO: &[Verb] = &[Verb::Front("do")];

const SERVE: &[Verb] = &[Verb::Front("serve")];

const LIST: &[Verb] = &[Verb::Front("list")];

const TOP: &[Verb] = &[Verb::Front("top")];

/// The commands of the front.
pub const FRONT_COMMANDS: &[CommandRow] = &[
    CommandRow {
        verb: Verb::Front("do"),
        name: "do",
        about: "Takes a message, and runs a command on it",
        operands: &[
            QUEUE_FILE,
            Operand {
                name: KEY,
                place: Place::Needed,
                help: "The queue: its key, or @ and its id",
            },
            Operand {
                name: COMMAND,
                place: Place::Behind,
                help: "Gets the body on standard input; where it ends with 0 the message is gone, else it is back, last",
            },
        ],
        one_of: &[],
        ending: "",
    },
    CommandRow {
        verb: Verb::Front("do --recover"),
        name: "do",
        about: "Gives back what dead workers had in hand, and runs nothing",
        operands: &[QUEUE_FILE],
        one_of: &["recover"],
        ending: "",
    },
    CommandRow {
        verb: Verb::Front("serve"),
        name: "serve",
        about: "Serves a file to other processes, through a socket",
        operands: &[QUEUE_FILE],
        one_of: &[],
        ending: "",
    },
    CommandRow {
        verb: Verb::Front("with"),
        name: "with",
        about: "Runs a command whose message queues are those of a file",
        operands: &[
            Operand {
                help: "The file of queues; it is made where there is none",
                ..QUEUE_FILE
            },
            Operand {
                name: COMMAND,
                place: Place::Behind,
                help: "Its msgget, msgsnd, msgrcv and msgctl, and those of what it runs, are made on FILE",
            },
        ],
        one_of: &[],
        ending: "",
    },
    CommandRow {
        verb: Verb::Front("top"),
        name: "top",
        about: "Shows the queues of a file, renewed each second",
        operands: &[Operand {
            help: "The file, which is not written",
            ..QUEUE_FILE
        }],
        one_of: &[],
        ending: "",
    },
];

/// The options of these, and those of `list` that this program does not know.
pub const FRONT_OPTIONS: &[OptionRow] = &[
    OptionRow {
        long: TYPE,
        short: Some('t'),
        of: DO,
        value: Value::Signed("N"),
        help: "Which message: 0 the first, N the first of a type, -N the first of the lowest type up to N [default: 0]",
        ..PLAIN
    },
    OptionRow {
        long: WAIT,
        short: Some('w'),
        of: DO,
        value: Value::Perhaps("SECONDS"),
        help: "Wait until there is a message, for so long or without end",
        ..PLAIN
    },
    OptionRow {
        long: "recover",
        of: &[Verb::Front("do --recover")],
        help: "Give back what dead workers had in hand, and run nothing",
        ..PLAIN
    },
    OptionRow {
        long: "socket",
        short: Some('s'),
        of: SERVE,
        value: Value::Path("PATH"),
        help: "Where the socket is bound [default: FILE.socket]",
        ..PLAIN
    },
    OptionRow {
        long: MODE,
        of: SERVE,
        value: Value::Word("OOO"),
        help: "Who may connect: the mode of the socket [default: 600]",
        ..PLAIN
    },
    OptionRow {
        long: GROUP,
        of: SERVE,
        value: Value::Group("GROUP"),
        help: "The group of the socket, by its name or its number",
        ..PLAIN
    },
    OptionRow {
        long: "durable",
        of: SERVE,
        conflicts: &["every", "in-memory"],
        help: "Answer once the file has on the disk what was done [default]",
        ..PLAIN
    },
    OptionRow {
        long: "every",
        of: SERVE,
        value: Value::Word("MS"),
        conflicts: &["durable", "in-memory"],
        help: "Answer before that, and save every so many milliseconds",
        ..PLAIN
    },
    OptionRow {
        long: "in-memory",
        of: SERVE,
        conflicts: &["durable", "every"],
        help: "Save at the end, and where a client or a signal asks for it",
        ..PLAIN
    },
    OptionRow {
        long: CREATE,
        short: Some('c'),
        of: SERVE,
        help: "Make FILE where there is none",
        ..PLAIN
    },
    OptionRow {
        long: NEW_PAGES,
        short: Some('p'),
        of: &[Verb::Front("serve"), Verb::Front("with")],
        value: Value::Word("N"),
        help: "Make it of so many pages [default: 4096]",
        ..PLAIN
    },
    OptionRow {
        long: "clients",
        of: SERVE,
        value: Value::Word("N"),
        help: "As many may be connected at once [default: 4096]",
        ..PLAIN
    },
    OptionRow {
        long: "waits",
        of: SERVE,
        value: Value::Word("N"),
        help: "As many calls may wait at once [default: 4096]",
        ..PLAIN
    },
    OptionRow {
        long: "user-clients",
        of: SERVE,
        value: Value::Word("N"),
        help: "As many of one user may be connected at once [default: as many as may be]",
        ..PLAIN
    },
    OptionRow {
        long: "user-waits",
        of: SERVE,
        value: Value::Word("N"),
        help: "As many calls of one user may wait at once [default: as many as may]",
        ..PLAIN
    },
    OptionRow {
        long: "utc",
        of: LIST,
        help: "Show moments as dates of UTC, in place of local time (TZ)",
        ..PLAIN
    },
    OptionRow {
        long: "raw",
        of: LIST,
        conflicts: &["utc"],
        help: "Show moments in seconds since the beginning of 1970",
        ..PLAIN
    },
    OptionRow {
        long: "since",
        of: LIST,
        value: Value::Word("MOMENT"),
        conflicts: &[JSON],
        help: "Only queues that were sent to, received from, made or set since then: a date as \
            2026-11-28 or '2026-11-28 15:04:05', or seconds",
        ..PLAIN
    },
    OptionRow {
        long: "older-than",
        of: LIST,
        value: Value::Word("SECONDS"),
        conflicts: &[JSON],
        help: "Only queues of which none of these is so near",
        ..PLAIN
    },
    OptionRow {
        long: "follow",
        of: LIST,
        conflicts: &[JSON],
        help: "Of a queue of a file that is served: go on with each message that is sent to it",
        ..PLAIN
    },
    OptionRow {
        long: "count",
        of: TOP,
        value: Value::Word("N"),
        help: "Show it so many times, and end",
        ..PLAIN
    },
    OptionRow {
        long: "every",
        of: TOP,
        value: Value::Word("SECONDS"),
        help: "Renew it so often, in place of each second",
        ..PLAIN
    },
];
