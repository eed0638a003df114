//! Lines spelled into a room from its end on: the last word first, so that a number stands where
//! its digits are written.

ghost use Rattle.std.specs.Prelude.{◌≡◌, ◌≤◌, ◌∷◌, ◌++◌, [], IfSome, drop, length, map};
ghost use Rattle.std.specs.Fmt.{decimal, signed_decimal};
ghost use Rattle.msgq_cli.specs.Answers.{body_text, line_of};
ghost use Rattle.msgq_cli.specs.Spelling.{IsSpelled};
ghost use Rattle.msgq_cli.specs.Texts.{text_of};

use crate::printed_word::PrintedWord;
use itoa::write_digits;
use numbers::fields::set_bytes;

/// How many bytes a room has: a line of the longest body fits.
pub(crate) const ROOM: usize = 2304;

/// A number has at most so many decimal digits.
const DIGITS: usize = 20;

/// Spells a line of these words so that it ends with the room, and tells where it begins. None
/// where there may be too little room, and where a word is of a kind that is seldom printed.
pub(crate) fn spell_line(words: &[PrintedWord<'_>], room: &mut [u8]) -> Option<usize>
    ensures within { IfSome result (λ start. start ≤ length room.old) }
    ensures line { IfSome result (λ start. drop start room.new ≡ line_of (map text_of words.now)) }
{
    if words.is_empty() {
        return None;
    }
    let mut start = room.len();
    let mut behind = b'\n';
    let mut left = words.len();
    'words: while 0 < left {
        left -= 1;
        start = spell_before(&words[left], behind, room, start)?;
        behind = b' ';
    }
    Some(start)
}

/// Spells a word, and the byte behind it so that this ends here.
fn spell_before(word: &PrintedWord<'_>, behind: u8, room: &mut [u8], end: usize) -> Option<usize>
    requires { end ≤ length room.old }
    ensures { IfSome result (IsSpelled (text_of word.now ++ behind ∷ []) room.old room.new end) }
{
    let place = end.checked_sub(1)?;
    room[place] = behind;
    spell(word, room, place)
}

/// Spells a word so that it ends here, and tells where it begins. None where it can't be spelled.
fn spell(word: &PrintedWord<'_>, room: &mut [u8], end: usize) -> Option<usize>
    requires { end ≤ length room.old }
    ensures { IfSome result (IsSpelled (text_of word.now) room.old room.new end) }
{
    match word {
        PrintedWord::Text(text) => spell_text(text, room, end),
        PrintedWord::Number(number) => spell_number(*number, room, end),
        PrintedWord::Signed(number) => spell_signed(*number, room, end),
        PrintedWord::Body(body) => spell_body(body, room, end),
        PrintedWord::Key(_) | PrintedWord::Mode(_) => None,
        PrintedWord::Labelled(..) => None,
    }
}

/// Spells a text.
fn spell_text(text: &[u8], room: &mut [u8], end: usize) -> Option<usize>
    requires { end ≤ length room.old }
    ensures { IfSome result (IsSpelled text.now room.old room.new end) }
{
    let start = end.checked_sub(text.len())?;
    set_bytes(room, start, text);
    Some(start)
}

/// Spells a number.
fn spell_number(number: u64, room: &mut [u8], end: usize) -> Option<usize>
    requires { end ≤ length room.old }
    ensures { IfSome result (IsSpelled (decimal number) room.old room.new end) }
{
    if end < DIGITS {
        return None;
    }
    Some(write_digits(number, room, end))
}

/// Spells a number that is not negative.
fn spell_signed(number: i64, room: &mut [u8], end: usize) -> Option<usize>
    requires { end ≤ length room.old }
    ensures { IfSome result (IsSpelled (signed_decimal number) room.old room.new end) }
{
    if number < 0 {
        return None;
    }
    spell_number(number as u64, room, end)
}

/// Spells a body.
fn spell_body(body: &[u8], room: &mut [u8], end: usize) -> Option<usize>
    requires { end ≤ length room.old }
    ensures { IfSome result (IsSpelled (body_text body.now) room.old room.new end) }
{
    if body.is_empty() {
        return spell_text(b"-", room, end);
    }
    if end / 2 < body.len() {
        return None;
    }
    let start = end - 2 * body.len();
    hex::encode_to_slice(body, &mut room[start..end]).unwrap();
    Some(start)
}
