//! The words of the command line.

use serving::Durability;

/// How the program is called.
pub const USAGE: &str = "usage: msgqd FILE [--durable | --every | --in-memory] [--waits N]";

/// So many calls may wait at a time where it is not said.
const USUAL_WAITS: usize = 4_096;

/// As many may be asked for.
const MOST_WAITS: usize = 65_536;

/// The words that name when a file is saved.
const MODES: [(&str, Durability); 3] = [
    ("--durable", Durability::EachGroup),
    ("--every", Durability::NowAndThen),
    ("--in-memory", Durability::InMemory),
];

/// What the command line asks for.
#[derive(Clone, Copy)]
pub struct Task<'a> {
    /// The file.
    pub file: &'a str,
    /// When it is saved.
    pub durability: Durability,
    /// How many calls may wait at a time.
    pub waits: usize,
}

/// What is wrong with a command line.
#[derive(Clone, Copy)]
pub enum WrongWord {
    /// No file is named.
    NoFile,
    /// Two are.
    TwoFiles,
    /// There is no such option.
    Option,
    /// Behind --waits stands no number of calls.
    Waits,
}

impl WrongWord {
    /// What is said of it.
    pub fn text(self) -> &'static str {
        match self {
            WrongWord::NoFile => "no FILE is named",
            WrongWord::TwoFiles => "only one FILE can be served",
            WrongWord::Option => "there is no such option",
            WrongWord::Waits => "behind --waits stands a number from 1 to 65536",
        }
    }
}

/// Reads the words behind the program's name. Where a mode is named twice the last one holds.
pub fn read_command_line(words: &[String]) -> Result<Task<'_>, WrongWord> {
    let mut reading = Reading {
        file: None,
        durability: Durability::EachGroup,
        waits: USUAL_WAITS,
        is_number_next: false,
    };
    for word in words.iter().skip(1) {
        reading.take(word.as_str())?;
    }
    reading.end()
}

/// A command line as far as it is read.
#[derive(Clone, Copy)]
struct Reading<'a> {
    file: Option<&'a str>,
    durability: Durability,
    waits: usize,
    is_number_next: bool,
}

impl<'a> Reading<'a> {
    /// Takes one more word.
    fn take(&mut self, word: &'a str) -> Result<(), WrongWord> {
        if self.is_number_next {
            self.waits = waits_of(word)?;
            self.is_number_next = false;
            return Ok(());
        }
        if word.starts_with("--") {
            return self.take_option(word);
        }
        if self.file.is_some() {
            return Err(WrongWord::TwoFiles);
        }
        self.file = Some(word);
        Ok(())
    }

    /// The same of an option.
    fn take_option(&mut self, word: &str) -> Result<(), WrongWord> {
        if word == "--waits" {
            self.is_number_next = true;
            return Ok(());
        }
        let Some(durability) = mode_of(word) else {
            return Err(WrongWord::Option);
        };
        self.durability = durability;
        Ok(())
    }

    /// What it asks for, where it is whole.
    fn end(self) -> Result<Task<'a>, WrongWord> {
        if self.is_number_next {
            return Err(WrongWord::Waits);
        }
        let Some(file) = self.file else {
            return Err(WrongWord::NoFile);
        };
        Ok(Task {
            file,
            durability: self.durability,
            waits: self.waits,
        })
    }
}

/// When a file is saved by an option's word, where it says so.
fn mode_of(word: &str) -> Option<Durability> {
    for (name, durability) in &MODES {
        if *name == word {
            return Some(*durability);
        }
    }
    None
}

/// A number of calls that may wait.
fn waits_of(word: &str) -> Result<usize, WrongWord> {
    match word.parse::<usize>() {
        Ok(waits) if 1 <= waits && waits <= MOST_WAITS => Ok(waits),
        _ => Err(WrongWord::Waits),
    }
}
