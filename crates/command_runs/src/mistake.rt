//! A word that its place does not take.

use clap::Error;
use msgq_cli::{CommandRow, wrong_word};
use std::alloc::{AllocError, Global};

/// A word that its place does not take.
#[derive(Clone, Copy)]
pub struct Mistake<'a> {
    word: &'a str,
    wanted: &'static str,
}

impl<'a> Mistake<'a> {
    /// The word, and what its place takes.
    pub(crate) fn new(word: &'a str, wanted: &'static str) -> Mistake<'a> {
        Mistake { word, wanted }
    }

    /// What is said of it, with the usage of its command.
    pub fn into_error(self, alloc: Global, row: &CommandRow) -> Result<Error, AllocError> {
        wrong_word(alloc, row, self.word, self.wanted)
    }
}
