//! Two buckets that a merge makes one.

ghost use Rattle.std.specs.Prelude.{◌≡◌, ◌≤◌, IsTrue, IsErr, IfErr, IfOk};
ghost use Rattle.bucket_page.specs.Changes.{IsBucketPage, SpellsBucket};
ghost use Rattle.bucket_page.specs.Dividing.{AreBuddies, FitTogether, ShareNoKey, joined};
ghost use Rattle.bucket_page.specs.Reading.{bucket_in};
ghost use Rattle.directory.specs.declared.layout.TheConstants.{GREATEST_DEPTH};
ghost use Rattle.file_pages.specs.Buckets.{AreJoinable};

use crate::fault::FileFault;
use bucket_page::{BucketView, ROOM_BYTES};
use buffer_pool::FilePage;

/// The bucket of two buddies. It is `Failed` where a page is no bucket, or they may not be joined.
pub fn join(left: &FilePage, right: &FilePage) -> Result<FilePage, FileFault>
    ensures left { IfOk result (λ _. IsBucketPage left.now) }
    ensures right { IfOk result (λ _. IsBucketPage right.now) }
    ensures ok { IfOk result (SpellsBucket (joined (bucket_in left.now) (bucket_in right.now))) }
    ensures err { IsErr result → IsBucketPage left.now → IsBucketPage right.now →
        AreJoinable (bucket_in left.now) (bucket_in right.now) → ⊥ }
    ensures fault { IfErr result (λ fault. fault ≡ FileFault.Failed) }
{
    if !may_be_joined(left, right) {
        return Err(FileFault::Failed);
    }
    Ok(left.joined(right))
}

/// Whether both pages are buckets that may be joined.
fn may_be_joined(left: &FilePage, right: &FilePage) -> bool
    ensures left { IsTrue result → IsBucketPage left.now }
    ensures right { IsTrue result → IsBucketPage right.now }
    ensures joinable { IsTrue result → AreJoinable (bucket_in left.now) (bucket_in right.now) }
    ensures taken { IsBucketPage left.now → IsBucketPage right.now →
        AreJoinable (bucket_in left.now) (bucket_in right.now) → IsTrue result }
{
    let Some(first) = left.bucket() else {
        return false;
    };
    let Some(second) = right.bucket() else {
        return false;
    };
    if !are_buddies(&first, &second) || !share_no_key(&first, &second) {
        return false;
    }
    fit_together(&first, &second)
}

/// Whether two buckets are the halves of one: their patterns differ in the highest bit alone.
fn are_buddies(left: &BucketView, right: &BucketView) -> bool
    requires depth { left.now.depth ≤ GREATEST_DEPTH }
    ensures buddies { IsTrue result → AreBuddies left.now right.now }
    ensures taken { AreBuddies left.now right.now → IsTrue result }
{
    if left.depth() == 0 || right.depth() != left.depth() {
        return false;
    }
    right.pattern() as u64 == left.pattern() as u64 + (1 << (left.depth() - 1))
}

/// Whether no key stands in both buckets.
fn share_no_key(left: &BucketView, right: &BucketView) -> bool
    ensures apart { IsTrue result → ShareNoKey left.now.records right.now.records }
    ensures taken { ShareNoKey left.now.records right.now.records → IsTrue result }
{
    for record in right.records() {
        if left.find(&record.key).is_some() {
            return false;
        }
    }
    true
}

/// Whether the records of both have room in one bucket.
fn fit_together(left: &BucketView, right: &BucketView) -> bool
    ensures room { IsTrue result → FitTogether left.now.records right.now.records }
    ensures taken { FitTogether left.now.records right.now.records → IsTrue result }
{
    left.used() <= ROOM_BYTES && right.used() <= ROOM_BYTES - left.used()
}
