//! The rows of the table of commands: what each command is called, takes and does, as plain data. The
//! parser is built of it (`parser`), and `tools/commands` prints of it the completions and the usages.

/// A command on scripts and whole files.
#[derive(Clone, Copy, PartialEq, Eq)]
pub enum FileVerb {
    New,
    Run,
    Replay,
    Check,
    Stat,
    Migrate,
    Copy,
    Grow,
    Salvage,
}

/// A command of a shell.
#[derive(Clone, Copy, PartialEq, Eq)]
pub enum ShellVerb {
    Send,
    Receive,
    Peek,
    List,
    Make,
    Remove,
    Set,
}

/// Which command it is, and who runs it.
#[derive(Clone, Copy, PartialEq, Eq)]
pub enum Verb {
    /// This program.
    File(FileVerb),
    /// This program.
    Shell(ShellVerb),
    /// The front, `c/front`, which hands all else to this program; by its name.
    Front(&'static str),
}

/// A command.
#[derive(Clone, Copy)]
pub struct CommandRow {
    pub verb: Verb,
    /// The word that names it.
    pub name: &'static str,
    /// What it does, in a line.
    pub about: &'static str,
    /// Its operands, in their order.
    pub operands: &'static [Operand],
    /// Options of which at least one is given.
    pub one_of: &'static [&'static str],
    /// What stands behind its help.
    pub ending: &'static str,
}

/// A word of a command line that is no option's.
#[derive(Clone, Copy)]
pub struct Operand {
    pub name: &'static str,
    pub place: Place,
    pub help: &'static str,
}

/// Where an operand stands.
#[derive(Clone, Copy, PartialEq, Eq)]
pub enum Place {
    /// It has to be given.
    Needed,
    /// It may be left out.
    Optional,
    /// It may be left out, and is nothing but `-`, for standard input.
    Input,
    /// It is a command with its arguments, behind `--`.
    Behind,
}

/// An option, of each command that takes it in the same meaning.
#[derive(Clone, Copy)]
pub struct OptionRow {
    /// The word behind `--`.
    pub long: &'static str,
    /// The letter behind `-`, if it has one.
    pub short: Option<char>,
    /// The commands that take it.
    pub of: &'static [Verb],
    pub value: Value,
    /// Options without which it is refused, of those that the command has.
    pub needs: &'static [&'static str],
    /// Options with which it is refused.
    pub conflicts: &'static [&'static str],
    pub help: &'static str,
}

/// The value of an option, and how that is shown.
#[derive(Clone, Copy)]
pub enum Value {
    /// It has none.
    Nothing,
    /// A word.
    Word(&'static str),
    /// A number, which may be negative.
    Signed(&'static str),
    /// Perhaps a word, behind `=`: `FOR_EVER` where there is none.
    Perhaps(&'static str),
    /// A user, by number, or by name for the front.
    User(&'static str),
    /// A group, by number, or by name for the front.
    Group(&'static str),
    /// A path.
    Path(&'static str),
}

impl Value {
    /// How it is shown, where there is one.
    pub(crate) fn shown(self) -> Option<&'static str> {
        match self {
            Value::Nothing => None,
            Value::Word(shown) | Value::Signed(shown) | Value::Perhaps(shown) => Some(shown),
            Value::User(shown) | Value::Group(shown) | Value::Path(shown) => Some(shown),
        }
    }
}

/// The row of a command.
pub fn command_named(rows: &[CommandRow], name: &str) -> Option<CommandRow> {
    rows.iter().copied().find(|row| row.name == name)
}
