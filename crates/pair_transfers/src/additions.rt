//! Additions of calls that stand in a journal, read one after another.
ghost use Rattle.std.specs.Prelude.{◌≡◌, ◌≤◌, length};
ghost use Rattle.pair_transfers.specs.Reading.{after_entry, after_read, came_of, came_of_entry, has_room, starting_at, wanted};

use journal_bytes::{Entry, LEAST_ENTRY, Sum, WORD_BYTES, read_sum, read_word};

/// Where the entries of a journal have been read to, as far as calls may stand in it.
#[derive(Clone, Copy)]
pub struct Additions {
    /// No entry is looked for behind so many bytes of the journal.
    pub size: u64,
    /// Where the next entry begins.
    pub at: u64,
    /// The digest with which the last one ends.
    pub sum: Sum,
    /// How many bytes of calls the next one has, once its word was read.
    pub calls: Option<u32>,
}

/// What came of a part that was read.
#[derive(Clone, Copy)]
pub enum Came {
    /// The word of an entry: that is read next.
    Word,
    /// An addition of so many bytes of calls; of none where images were put back.
    Calls(u32),
    /// None is whole from there on.
    End,
}

impl Additions {
    /// Those behind a head that ends with this digest.
    pub fn begin(sum: Sum, size: u64) -> Additions
        ensures { result ≡ starting_at sum size }
    {
        Additions {
            size,
            at: 80,
            sum,
            calls: None,
        }
    }

    /// Whether an entry may still follow.
    pub fn has_room(&self) -> bool
        ensures { result ≡ has_room 0 self.now }
    {
        self.has_room_of(0)
    }

    /// Whether one of so many bytes of calls may.
    fn has_room_of(&self, calls: u32) -> bool
        ensures { result ≡ has_room calls self.now }
    {
        let many = LEAST_ENTRY as u64 + u64::from(calls);
        self.at.saturating_add(many) <= self.size
    }

    /// How many bytes are read next.
    pub fn wanted(&self) -> u32
        ensures { result ≡ wanted self.now }
    {
        match self.calls {
            None => WORD_BYTES as u32,
            Some(calls) => calls.saturating_add(LEAST_ENTRY as u32),
        }
    }

    /// These were read.
    pub fn told(&mut self, read: &[u8]) -> Came
        requires { length read.now ≡ wanted self.old }
        ensures new { self.new ≡ after_read read.now self.old }
        ensures came { result ≡ came_of read.now self.old }
    {
        let Some(calls) = self.calls else {
            return self.told_entry(read_word(read));
        };
        self.calls = None;
        let Some(sum) = read_sum(&self.sum, read) else {
            return Came::End;
        };
        self.at = self.at.saturating_add(read.len() as u64);
        self.sum = sum;
        Came::Calls(calls)
    }

    /// The word of this entry was read.
    fn told_entry(&mut self, entry: Entry) -> Came
        ensures new { self.new ≡ after_entry entry self.old }
        ensures came { result ≡ came_of_entry entry self.old }
    {
        match entry {
            Entry::Calls(calls) if self.has_room_of(calls) => {
                self.calls = Some(calls);
                Came::Word
            }
            Entry::PutBack => {
                self.calls = Some(0);
                Came::Word
            }
            _ => Came::End,
        }
    }
}
