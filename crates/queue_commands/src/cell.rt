//! The cells of a table, and its rows.

ghost use Rattle.std.specs.Prelude.{◌≡◌, ◌++◌, ◌/◌, ◌%◌, OnOk, map, take};
ghost use Rattle.queue_commands.specs.Cells.{cell_text, key_text, mode_text, preview, printable, row_text};
ghost use Rattle.queue_commands.specs.declared.cell.TheConstants.{PREVIEW_BYTES};

use crate::text::Text;
use numbers::faults::NoMemory;

/// As many bytes of a body are shown at most.
pub(crate) const PREVIEW_BYTES: usize = 32;

/// What stands in a cell.
#[derive(Clone, Copy)]
pub(crate) enum Cell<'a> {
    /// A text as it is.
    Text(&'a [u8]),
    /// A number in decimal digits.
    Number(u64),
    /// A number in decimal digits, with a `-` in front where it is negative.
    Signed(i64),
    /// A key in decimal digits, or `private`.
    Key(Option<u32>),
    /// Nine bits as three octal digits.
    Mode(u16),
    /// So many messages.
    Messages(u64),
    /// The first bytes of a body, a dot for each that is not printable.
    Body(&'a [u8]),
}

impl Text {
    /// Puts cells last, with a tab between each two, and an LF behind them.
    pub(crate) fn put_row(&mut self, cells: &[Cell<'_>]) -> Result<(), NoMemory>
        ensures { OnOk result (self.new ≡ self.old ++ row_text (map cell_text cells.now)) }
    {
        let Some((first, rest)) = cells.split_first() else {
            return self.put(b"\n");
        };
        self.put_cell(first)?;
        for cell in rest {
            self.put(b"\t")?;
            self.put_cell(cell)?;
        }
        self.put(b"\n")
    }

    /// Puts what stands in a cell last.
    fn put_cell(&mut self, cell: &Cell<'_>) -> Result<(), NoMemory>
        ensures { OnOk result (self.new ≡ self.old ++ cell_text cell.now) }
    {
        match cell {
            Cell::Text(text) => self.put(text),
            Cell::Number(number) => self.put_number(*number),
            Cell::Signed(number) => self.put_signed(*number),
            Cell::Key(Some(key)) => self.put_number(u64::from(*key)),
            Cell::Key(None) => self.put(b"private"),
            Cell::Mode(mode) => self.put_mode(*mode),
            Cell::Messages(number) => {
                self.put(b"messages: ")?;
                self.put_number(*number)
            }
            Cell::Body(body) => self.put_preview(body),
        }
    }

    /// Puts a mode last.
    fn put_mode(&mut self, mode: u16) -> Result<(), NoMemory>
        ensures { OnOk result (self.new ≡ self.old ++ mode_text mode) }
    {
        self.put_number(u64::from(mode / 64 % 8))?;
        self.put_number(u64::from(mode / 8 % 8))?;
        self.put_number(u64::from(mode % 8))
    }

    /// Puts the first bytes of a body last.
    fn put_preview(&mut self, body: &[u8]) -> Result<(), NoMemory>
        ensures { OnOk result (self.new ≡ self.old ++ preview body.now) }
    {
        for byte in front(body) {
            self.put(&[printable(*byte)])?;
        }
        Ok(())
    }
}

/// The first bytes of a body.
fn front(body: &[u8]) -> &[u8]
    ensures { result.now ≡ take PREVIEW_BYTES body.now }
{
    if body.len() <= PREVIEW_BYTES {
        body
    } else {
        &body[..PREVIEW_BYTES]
    }
}

/// A byte where it is printable ASCII, else a dot.
fn printable(byte: u8) -> u8
    ensures { result ≡ printable byte }
{
    if 32 <= byte && byte <= 126 {
        byte
    } else {
        b'.'
    }
}
