//! An output for texts.

ghost use Rattle.std.specs.Prelude.{◌≡◌, ◌||◌, OnOk, false, is_err};
ghost use Rattle.std.specs.Io.KnownBytes.{Appends};

use std::io;
use std::io::Write;
use std::marker::Model;

/// An output that notes whether it refused a text. A contract sees that, and the bytes that its writer
/// holds.
#[derive(Drop)]
pub struct Printer<W: Write + Drop> {
    writer: W,
    has_refused: bool,
}

impl<W: Write + Drop> Model for Printer<W> {
    ghost use Rattle.command_runs.specs.Printing.{PrinterState};

    ghost Value = { PrinterState };

    ghost view = { λ p. record { held = W.contents p.writer; refused = p.has_refused } };
}

impl<W: Write + Drop> Printer<W> {
    /// What is printed goes to this writer.
    pub fn new(writer: W) -> Printer<W>
        ensures held { result.held ≡ W.contents writer }
        ensures refused { result.refused ≡ false }
    {
        Printer {
            writer,
            has_refused: false,
        }
    }

    /// The writer.
    pub fn into_writer(self) -> W
        ensures { W.contents result ≡ self.held }
    {
        self.writer
    }

    /// Hands a text to the writer, and has it pass the text on.
    pub(crate) fn print(&mut self, text: &[u8]) -> io::Result<()>
        ensures ok { OnOk result (Appends self.old.held self.new.held text.now) }
        ensures refused { self.new.refused ≡ (self.old.refused || is_err result) }
    {
        let came = deliver(text, &mut self.writer);
        self.has_refused |= came.is_err();
        came
    }
}

/// Hands a text to a writer, and has it pass the text on.
fn deliver<W: Write>(text: &[u8], writer: &mut W) -> io::Result<()>
    ensures { OnOk result (Appends (W.contents writer.old) (W.contents writer.new) text.now) }
{
    writer.write_all(text)?;
    writer.flush()
}
