//! Where answers are printed.

ghost use Rattle.std.specs.Prelude.{◌≡◌, false, [], is_some, map};
ghost use Rattle.std.specs.Io.Buffered.{writer_contents, writer_inner};
ghost use Rattle.msgq_cli.specs.Answers.{line_of};
ghost use Rattle.msgq_cli.specs.Outputs.{Prints, Takes};
ghost use Rattle.msgq_cli.specs.Texts.{text_of};

use crate::line_faults::LineFaults;
use crate::printed_word::PrintedWord;
use crate::spelling::{ROOM, spell_line};
use std::io;
use std::io::{BufWriter, ErrorKind, Write};
use std::marker::Model;

/// Where answers are printed: to a writer, through a buffer. A contract sees whether a write was
/// refused, the bytes that both hold, and those that the writer holds.
#[derive(Drop)]
pub struct Output<W: Write + Drop> {
    writer: BufWriter<W>,
    refusal: Option<io::Error>,
    line_faults: LineFaults,
    /// Where a line is spelled.
    room: [u8; ROOM],
}

impl<W: Write + Drop> Model for Output<W> {
    ghost use Rattle.std.specs.Prelude.{is_some};
    ghost use Rattle.std.specs.Io.Buffered.{writer_contents, writer_inner};
    ghost use Rattle.msgq_cli.specs.Outputs.{OutputState};

    ghost Value = { OutputState };

    ghost view = { λ o. record {
      refused = is_some o.refusal;
      known = writer_contents W.contents o.writer;
      handed = W.contents (writer_inner o.writer);
    } };
}

impl<W: Write + Drop> Output<W> {
    /// What is printed goes to this writer.
    pub fn new(writer: BufWriter<W>) -> Output<W>
        ensures refused { result.refused ≡ false }
        ensures known { result.known ≡ writer_contents W.contents writer }
        ensures handed { result.handed ≡ W.contents (writer_inner writer) }
    {
        Output {
            writer,
            refusal: None,
            line_faults: LineFaults::NONE,
            room: [0; ROOM],
        }
    }

    /// Whether a write was refused. Once one was, nothing more is printed.
    pub fn has_refused(&self) -> bool
        ensures { result ≡ self.now.refused }
    {
        self.refusal.is_some()
    }

    /// What refused a write, once one was.
    pub fn refusal(&self) -> Option<&io::Error>
        ensures { is_some result ≡ self.now.refused }
    {
        self.refusal.as_ref()
    }

    /// Hands on to the writer all that was printed, unless a write was or is refused.
    pub fn flush(&mut self)
        ensures same { Prints self.old self.new [] }
        ensures handed { self.new.refused ≡ false → self.new.handed ≡ self.new.known }
    {
        if self.refusal.is_none() {
            self.refusal = self.writer.flush().err();
        }
    }

    /// The writer, with what was handed on to it. What was not is left out.
    pub fn into_writer(self) -> W
        ensures { W.contents result ≡ self.handed }
    {
        self.writer.into_parts().0
    }

    /// Whether a line had no room for its records.
    pub fn has_lacked_room(&self) -> bool {
        self.line_faults.no_room.is_some()
    }

    /// The faults that lines were replied.
    pub(crate) fn line_faults(&self) -> LineFaults {
        self.line_faults
    }

    /// A line is replied a fault; nothing is printed.
    pub(crate) fn note(&mut self, line: u64, fault: u8)
        ensures { self.new ≡ self.old }
    {
        self.line_faults.note(line, fault);
    }

    /// Prints words with a space between each two, and an LF behind them: as one text where it can
    /// be spelled, and else word by word.
    pub(crate) fn line(&mut self, words: &[PrintedWord<'_>])
        ensures { Prints self.old self.new (line_of (map text_of words.now)) }
    {
        let Some(start) = spell_line(words, &mut self.room) else {
            return self.word_by_word(words);
        };
        if self.refusal.is_none() {
            let room = self.room.as_slice();
            self.refusal = write_all(&mut self.writer, &room[start..]);
        }
    }

    /// Prints a text.
    pub(crate) fn put(&mut self, text: &[u8])
        ensures { Prints self.old self.new text.now }
    {
        if self.refusal.is_none() {
            self.refusal = write_all(&mut self.writer, text);
        }
    }
}

/// Writes a text, and tells what refused a write, if one was.
fn write_all<W: Write>(writer: &mut W, text: &[u8]) -> Option<io::Error>
    ensures { Takes (is_some result) (W.contents writer.old) (W.contents writer.new) text.now }
{
    let mut rest = text;
    for _ in 0..u64::MAX {
        if rest.is_empty() {
            return None;
        }
        match writer.write(rest) {
            Ok(0) => return Some(ErrorKind::WriteZero.into()),
            Ok(count) => rest = &rest[count..],
            Err(error) if error.kind() == ErrorKind::Interrupted => {}
            Err(error) => return Some(error),
        }
    }
    Some(ErrorKind::WriteZero.into())
}
