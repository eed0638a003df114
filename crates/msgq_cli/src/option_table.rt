//! The table of commands: the options of those that this program runs, in the order of their help.

use crate::argument_names::{
    ALL, CREATE, GID, GROUP, HEADER, JSON, LINES, MAP, METRICS, MODE, NEW_PAGES, NOERROR, NOWAIT,
    OWNER, PID, QBYTES, SERIAL, SHARED_WITH, SIZE, TRACE, TYPE, UID, VERBOSE, WAIT,
};
use crate::table::{FileVerb, OptionRow, ShellVerb, Value, Verb};

/// The commands that take the words of a queue that is made.
const MAKERS: &[Verb] = &[
    Verb::Shell(ShellVerb::Send),
    Verb::Shell(ShellVerb::Receive),
    Verb::Shell(ShellVerb::Make),
];

/// Those of which it may be said who calls.
const CALLERS: &[Verb] = &[
    Verb::Shell(ShellVerb::Send),
    Verb::Shell(ShellVerb::Receive),
    Verb::Shell(ShellVerb::Peek),
    Verb::Shell(ShellVerb::Make),
    Verb::Shell(ShellVerb::Remove),
    Verb::Shell(ShellVerb::Set),
];

const SEND: &[Verb] = &[Verb::Shell(ShellVerb::Send)];

const RECEIVE: &[Verb] = &[Verb::Shell(ShellVerb::Receive)];

const SET: &[Verb] = &[Verb::Shell(ShellVerb::Set)];

/// An option of which nothing is said.
pub const PLAIN: OptionRow = OptionRow {
    long: "",
    short: None,
    of: &[],
    value: Value::Nothing,
    needs: &[],
    conflicts: &[],
    help: "",
};

/// The options of this program's commands.
pub const OPTIONS: &[OptionRow] = &[
    OptionRow {
        long: WAIT,
        short: Some('w'),
        of: &[
            Verb::File(FileVerb::Run),
            Verb::File(FileVerb::Replay),
            Verb::File(FileVerb::Grow),
        ],
        value: Value::Word("SECONDS"),
        help: "Waits so long where another process uses the file; else that is fault 20 at once",
        ..PLAIN
    },
    OptionRow {
        long: TRACE,
        of: &[Verb::File(FileVerb::Replay)],
        help: "Tells on standard error each step as it is made, and who blocks whom",
        ..PLAIN
    },
    OptionRow {
        long: VERBOSE,
        short: Some('v'),
        of: &[Verb::File(FileVerb::Check), Verb::File(FileVerb::Stat)],
        help: "Says on standard error how full the file is, as on a terminal",
        ..PLAIN
    },
    OptionRow {
        long: MAP,
        of: &[Verb::File(FileVerb::Check)],
        conflicts: &[VERBOSE],
        help: "Prints its directory, its buckets and its free pages as JSON",
        ..PLAIN
    },
    OptionRow {
        long: METRICS,
        of: &[Verb::File(FileVerb::Stat)],
        help: "Prints them in the text format of Prometheus",
        ..PLAIN
    },
    OptionRow {
        long: TYPE,
        short: Some('t'),
        of: SEND,
        value: Value::Signed("N"),
        help: "The type of the message, from 1 on; 1 where none is given",
        ..PLAIN
    },
    OptionRow {
        long: LINES,
        short: Some('l'),
        of: SEND,
        help: "Send each line as a message, its line end included: all, or none",
        ..PLAIN
    },
    OptionRow {
        long: VERBOSE,
        short: Some('v'),
        of: SEND,
        help: "Print the serial of each message, a line each",
        ..PLAIN
    },
    OptionRow {
        long: TYPE,
        short: Some('t'),
        of: &[
            Verb::Shell(ShellVerb::Receive),
            Verb::Shell(ShellVerb::Peek),
        ],
        value: Value::Signed("N"),
        help: "Which message: the first (0, where none is given), the first of type N, or of the \
            lowest type up to N (-N)",
        ..PLAIN
    },
    OptionRow {
        long: SIZE,
        of: RECEIVE,
        value: Value::Word("N"),
        help: "Refuse a message of more bytes; 1024 where none is given",
        ..PLAIN
    },
    OptionRow {
        long: NOERROR,
        of: RECEIVE,
        help: "Cut it in place of refusing it",
        ..PLAIN
    },
    OptionRow {
        long: HEADER,
        of: &[
            Verb::Shell(ShellVerb::Receive),
            Verb::Shell(ShellVerb::Peek),
        ],
        help: "Print serial, sender, type and length as a line before each body",
        ..PLAIN
    },
    OptionRow {
        long: ALL,
        short: Some('a'),
        of: RECEIVE,
        help: "Receive each that its type selects, until there is none",
        ..PLAIN
    },
    OptionRow {
        long: SERIAL,
        of: RECEIVE,
        value: Value::Word("N"),
        conflicts: &[ALL, WAIT],
        help: "Receive the message of this serial, if it is the one that the type selects",
        ..PLAIN
    },
    OptionRow {
        long: WAIT,
        short: Some('w'),
        of: RECEIVE,
        value: Value::Perhaps("SECONDS"),
        help: "Look again while there is no message, for so long or for ever",
        ..PLAIN
    },
    OptionRow {
        long: CREATE,
        short: Some('c'),
        of: &[
            Verb::Shell(ShellVerb::Send),
            Verb::Shell(ShellVerb::Receive),
        ],
        help: "Make the queue where KEY has none, and FILE where there is none",
        ..PLAIN
    },
    OptionRow {
        long: MODE,
        of: MAKERS,
        value: Value::Word("OOO"),
        needs: &[CREATE],
        help: "Its mode, three octal digits; 600 where none is given, 660 with --shared",
        ..PLAIN
    },
    OptionRow {
        long: QBYTES,
        of: MAKERS,
        value: Value::Word("N"),
        needs: &[CREATE],
        help: "As many bytes may its messages have together; 16384 where none is given",
        ..PLAIN
    },
    OptionRow {
        long: OWNER,
        of: MAKERS,
        value: Value::User("N"),
        needs: &[CREATE],
        help: "The user that owns the queue, else the caller",
        ..PLAIN
    },
    OptionRow {
        long: GROUP,
        of: MAKERS,
        value: Value::Group("N"),
        needs: &[CREATE],
        help: "The group that owns the queue",
        ..PLAIN
    },
    OptionRow {
        long: SHARED_WITH,
        of: MAKERS,
        value: Value::Group("GROUP"),
        needs: &[CREATE],
        conflicts: &[GROUP],
        help: "The group that may use the queue that is made; and FILE, with mode 660, where it is made",
        ..PLAIN
    },
    OptionRow {
        long: NEW_PAGES,
        short: Some('p'),
        of: &[
            Verb::Shell(ShellVerb::Send),
            Verb::Shell(ShellVerb::Receive),
        ],
        value: Value::Word("N"),
        needs: &[CREATE],
        help: "As many pages gets FILE where it is made; 1000 where none is given",
        ..PLAIN
    },
    OptionRow {
        long: NOWAIT,
        of: SEND,
        conflicts: &[WAIT],
        help: "Refuse where there is no room, as without --wait",
        ..PLAIN
    },
    OptionRow {
        long: WAIT,
        short: Some('w'),
        of: SEND,
        value: Value::Perhaps("SECONDS"),
        help: "Look again while there is no room, for so long or for ever",
        ..PLAIN
    },
    OptionRow {
        long: JSON,
        of: &[Verb::Shell(ShellVerb::List)],
        help: "Print JSON in place of a table, with moments in seconds",
        ..PLAIN
    },
    OptionRow {
        long: QBYTES,
        of: SET,
        value: Value::Word("N"),
        help: "As many bytes may its messages have together",
        ..PLAIN
    },
    OptionRow {
        long: OWNER,
        of: SET,
        value: Value::User("N"),
        help: "The user that owns it",
        ..PLAIN
    },
    OptionRow {
        long: GROUP,
        of: SET,
        value: Value::Group("N"),
        help: "The group that owns it",
        ..PLAIN
    },
    OptionRow {
        long: MODE,
        of: SET,
        value: Value::Word("OOO"),
        help: "Its mode, three octal digits",
        ..PLAIN
    },
    OptionRow {
        long: PID,
        of: CALLERS,
        value: Value::Word("N"),
        help: "The process that calls; that of the command where none is given",
        ..PLAIN
    },
    OptionRow {
        long: UID,
        of: CALLERS,
        value: Value::Word("N"),
        help: "Its user; that of the command where none is given",
        ..PLAIN
    },
    OptionRow {
        long: GID,
        of: CALLERS,
        value: Value::Word("N"),
        help: "Its group; that of the command where none is given",
        ..PLAIN
    },
];
