//! Bytes that saves, notes and recoveries have alike.
ghost use Rattle.std.specs.Prelude.{◌≡◌, ◌≤◌, length, take};
ghost use Rattle.journal_bytes.specs.Bytes.{says};
ghost use Rattle.pair_transfers.specs.Transfers.{laid_over, next_number};

use journal_bytes::{HEAD_BYTES, read_head};
use safe_device::page_device::Page;

/// One above the number of the last save, where a head tells that.
pub(crate) fn next_number(read: &Page) -> Option<u64>
    ensures { result ≡ next_number (says (take 80 read.now)) }
{
    let mut head = [0; HEAD_BYTES];
    head.copy_from_slice(&read[..HEAD_BYTES]);
    match read_head(&head).number() {
        Some(last) if last < u64::MAX => Some(last + 1),
        _ => None,
    }
}

/// Writes a part over the first bytes.
pub(crate) fn put_first(part: &[u8], whole: &mut [u8])
    requires { length part.now ≤ length whole.old }
    ensures { whole.new ≡ laid_over part.now whole.old }
{
    let (front, _) = whole.split_at_mut(part.len());
    front.copy_from_slice(part);
}
