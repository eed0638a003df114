//! Names as they may be shown.

use std::fmt;
use std::fmt::{Display, Formatter};

/// A name that the command line gave, as standard error shows it. A character that does not print
/// is shown by its escape, so no name is a command to a terminal or a line of its own.
#[derive(Clone, Copy)]
pub struct Plain<'a>(pub &'a str);

impl Display for Plain<'_> {
    fn fmt<W: fmt::Write>(&self, f: &mut Formatter<W>) -> fmt::Result {
        for char in self.0.chars() {
            show(char, f)?;
        }
        Ok(())
    }
}

/// Shows a character: a quote and a backslash as they are.
fn show<W: fmt::Write>(char: char, f: &mut Formatter<W>) -> fmt::Result {
    match char {
        '\'' | '"' | '\\' => f.write_char(char),
        _ => write!(f, "{}", char.escape_debug()),
    }
}
