//! The words of a printed line.

ghost use Rattle.std.specs.Prelude.{◌≡◌, ℕ, List, map};
ghost use Rattle.std.specs.Fmt.{decimal};
ghost use Rattle.hex.specs.Hex.{encode_lower};
ghost use Rattle.msgq_cli.specs.Answers.{line_of, body_text, key_text, labelled_text, mode_text};
ghost use Rattle.msgq_cli.specs.Outputs.{Prints};
ghost use Rattle.msgq_cli.specs.Texts.{text_of};

use crate::output::Output;
use itoa::Buffer;
use std::io::Write;

/// How many bytes of a body are spelled at a time.
const BLOCK: usize = 32;

/// A word of a printed line.
#[derive(Clone, Copy)]
pub(crate) enum PrintedWord<'a> {
    /// As it is.
    Text(&'a [u8]),
    /// In decimal digits.
    Number(u64),
    /// In decimal digits, with a `-` in front where it is negative.
    Signed(i64),
    /// A key in decimal digits, or `private`.
    Key(Option<u32>),
    /// A body in hexadecimal digits of lower case, or `-` where it is empty.
    Body(&'a [u8]),
    /// Nine bits as three octal digits.
    Mode(u16),
    /// A name with the id and the key of a queue, as Prometheus labels a value.
    Labelled(&'a [u8], u32, Option<u32>),
}

impl<W: Write + Drop> Output<W> {
    /// Prints a line word by word.
    pub(crate) fn word_by_word(&mut self, words: &[PrintedWord<'_>])
        ensures { Prints self.old self.new (line_of (map text_of words.now)) }
    {
        let Some((first, rest)) = words.split_first() else {
            return self.put(b"\n");
        };
        self.word(first);
        for word in rest {
            self.put(b" ");
            self.word(word);
        }
        self.put(b"\n");
    }

    /// Prints a word.
    pub(crate) fn word(&mut self, word: &PrintedWord<'_>)
        ensures { Prints self.old self.new (text_of word.now) }
    {
        match word {
            PrintedWord::Text(text) => self.put(text),
            PrintedWord::Number(number) => self.number(*number),
            PrintedWord::Signed(number) => self.put(Buffer::new().format(*number).as_bytes()),
            PrintedWord::Key(key) => self.key(*key),
            PrintedWord::Body(body) => self.body(body),
            PrintedWord::Mode(mode) => self.mode(*mode),
            PrintedWord::Labelled(name, id, key) => self.labelled(name, *id, *key),
        }
    }

    /// Prints a name with the id and the key of a queue.
    fn labelled(&mut self, name: &[u8], id: u32, key: Option<u32>)
        ensures { Prints self.old self.new (labelled_text name.now id key) }
    {
        self.put(name);
        self.put(b"{id=\"");
        self.number(u64::from(id));
        self.put(b"\",queue=\"");
        self.key(key);
        self.put(b"\"}");
    }

    /// Prints a key.
    fn key(&mut self, key: Option<u32>)
        ensures { Prints self.old self.new (key_text key) }
    {
        match key {
            Some(key) => self.number(u64::from(key)),
            None => self.put(b"private"),
        }
    }

    /// Prints a number.
    fn number(&mut self, number: u64)
        ensures { Prints self.old self.new (decimal number) }
    {
        self.put(Buffer::new().format(number).as_bytes());
    }

    /// Prints a body.
    fn body(&mut self, body: &[u8])
        ensures { Prints self.old self.new (body_text body.now) }
    {
        if body.is_empty() {
            return self.put(b"-");
        }
        self.digits(body);
    }

    /// Prints two hexadecimal digits for each byte, those of a block at a time.
    fn digits(&mut self, bytes: &[u8])
        ensures { Prints self.old self.new (encode_lower bytes.now) }
    {
        let mut room = [0; 2 * BLOCK];
        for block in bytes.chunks(BLOCK) {
            let digits = &mut room[..2 * block.len()];
            hex::encode_to_slice(block, digits).unwrap();
            self.put(digits);
        }
    }

    /// Prints a mode.
    fn mode(&mut self, mode: u16)
        ensures { Prints self.old self.new (mode_text mode) }
    {
        self.number(u64::from(mode / 64 % 8));
        self.number(u64::from(mode / 8 % 8));
        self.number(u64::from(mode % 8));
    }
}
