//! The words of a line.

ghost use Rattle.std.specs.Prelude.{◌≡◌, ◌∷◌, [], ◌++◌, IfOk, OnOk};
ghost use Rattle.std.specs.Str.{bytes_eq};
ghost use Rattle.schedules.specs.Words.{filled, words_of, texts};

use memchr::memchr2;
use std::alloc::{AllocError, Global};

/// For how many words room is taken at first: most lines have no more.
const ROOM: usize = 8;

/// What stands between the blanks of a line, in order.
pub fn words(alloc: Global, text: &[u8]) -> Result<Vec<&[u8]>, AllocError>
    ensures { IfOk result (λ words. texts words.items ≡ words_of text.now) }
{
    let mut words = Vec::with_capacity(alloc, ROOM)?;
    words_into(&mut words, text)?;
    Ok(words)
}

/// The same, put into `words` in place of what stood there: so one list serves a whole script.
pub fn words_into<'a>(words: &mut Vec<&'a [u8]>, text: &'a [u8]) -> Result<(), AllocError>
    ensures { OnOk result (texts words.new.items ≡ words_of text.now) }
{
    words.clear();
    let mut rest = text;
    'blanks: while let Some(end) = memchr2(b' ', b'\t', rest) {
        let (part, after) = rest.split_at(end);
        keep(words, part)?;
        rest = &after[1..];
    }
    keep(words, rest)?;
    Ok(())
}

/// What stands before a blank is a word, unless it is empty.
fn keep<'a>(words: &mut Vec<&'a [u8]>, part: &'a [u8]) -> Result<(), AllocError>
    ensures { OnOk result
        (texts words.new.items ≡ texts words.old.items ++ filled (part.now ∷ [])) }
{
    if !part.is_empty() {
        words.push(part)?;
    }
    Ok(())
}

/// Whether a word is this one.
pub fn is_word(word: &[u8], name: &[u8]) -> bool
    ensures { result ≡ bytes_eq word.now name.now }
{
    word == name
}
