//! Keys of records, and their thirteen bytes.

ghost use Rattle.std.specs.Prelude.{◌≡◌, ◌<◌, ◌≤◌, ◌^◌, length, true, IsTrue, ◌↔◌};
ghost use Rattle.directory.specs.numbers.Numbers.{four, eight};
ghost use Rattle.bucket_page.specs.Keys.{IsKey, key_bytes, key_at, is_below, owner_of};

use directory::fields::{eight_at, four_at, write_eight, write_four};

/// Bytes of a key.
pub const KEY_BYTES: usize = 13;

/// What names a record: its kind, the id of its queue, and a number whose meaning the kind decides.
#[derive(Clone, Copy, PartialEq, Eq)]
pub struct RecordKey {
    pub kind: u8,
    pub queue: u32,
    pub number: u64,
}

impl RecordKey {
    /// The key's bytes: kind (1), queue (4), number (8), the highest byte of each first.
    pub fn to_bytes(self) -> [u8; KEY_BYTES]
        ensures value { result ≡ key_bytes self }
        ensures back { key_at result ≡ self }
    {
        self.fits_bytes();
        let mut bytes = [0; KEY_BYTES];
        write_key(&mut bytes, &self);
        bytes
    }

    /// The key of these bytes; each thirteen bytes are those of one key.
    pub fn from_bytes(bytes: &[u8; KEY_BYTES]) -> RecordKey
        ensures value { result ≡ key_at bytes.now }
        ensures back { key_bytes result ≡ bytes.now }
    {
        key_at(bytes)
    }

    /// Whether this key stands before another: by kind, then by queue, then by number. This is the
    /// order of their bytes.
    #[tactic(auto, unfolding(crate::specs::Keys::is_below))]
    pub fn is_below(&self, other: &RecordKey) -> bool
        ensures { result ≡ is_below self.now other.now }
    {
        if self.kind != other.kind {
            return self.kind < other.kind;
        }
        if self.queue != other.queue {
            return self.queue < other.queue;
        }
        self.number < other.number
    }

    /// The kind and the queue as one number.
    #[tactic(auto, unfolding(crate::specs::Keys::owner_of))]
    pub(crate) fn owner(&self) -> u64
        ensures value { result ≡ owner_of self.now }
        ensures small { self.now.queue < 2 ^ 32 }
    {
        u64::from(self.kind) * (1 << 32) + u64::from(self.queue)
    }

    /// The numbers of each key fit their bytes.
    pub fn fits_bytes(self)
        ensures { IsKey self }
    {
        let RecordKey {
            kind,
            queue,
            number,
        } = self;
        let _ = (kind, queue, number);
    }
}

/// The key that stands first in the bytes.
#[tactic(auto, unfolding(crate::specs::Keys::key_at))]
pub fn key_at(bytes: &[u8]) -> RecordKey
    requires { KEY_BYTES ≤ length bytes.now }
    ensures { result ≡ key_at bytes.now }
{
    RecordKey {
        kind: bytes[0],
        queue: four_at(bytes, 1),
        number: eight_at(bytes, 5),
    }
}

/// The kind and the queue of the key that stands first, as one number: its five upper bytes.
pub(crate) fn owner_at(bytes: &[u8]) -> u64
    requires { KEY_BYTES ≤ length bytes.now }
    ensures value { result ≡ owner_of (key_at bytes.now) }
    ensures small { (key_at bytes.now).queue < 2 ^ 32 }
{
    eight_at(bytes, 0) / (1 << 24)
}

/// The number of the key that stands first.
#[tactic(auto, unfolding(crate::specs::Keys::key_at))]
pub(crate) fn number_at(bytes: &[u8]) -> u64
    requires { KEY_BYTES ≤ length bytes.now }
    ensures { result ≡ (key_at bytes.now).number }
{
    eight_at(bytes, 5)
}

/// Writes a key's bytes.
#[tactic(auto, unfolding(crate::specs::Keys::key_bytes))]
pub fn write_key(bytes: &mut [u8], key: &RecordKey)
    requires { length bytes.old ≡ KEY_BYTES }
    ensures { bytes.new ≡ key_bytes key.now }
{
    let (kind, others) = bytes.split_at_mut(1);
    let (queue, number) = others.split_at_mut(4);
    kind[0] = key.kind;
    write_four(queue, key.queue);
    write_eight(number, key.number);
}
