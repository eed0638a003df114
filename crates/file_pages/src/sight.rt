//! What is seen of a page.

ghost use Rattle.std.specs.Prelude.{◌≡◌, IsErr, IfErr, IfOk, true};
ghost use Rattle.bucket_page.specs.Changes.{IsBucketPage};
ghost use Rattle.bucket_page.specs.Reading.{bucket_in, page_in};
ghost use Rattle.bucket_page.specs.Spelling.{Spells};
ghost use Rattle.file_pages.specs.Reads.{CoversIn, IsOnWay, IsSight, sight_of};

use crate::fault::FileFault;
use bucket_page::RecordKey;
use buffer_pool::FilePage;
use directory::Range;

/// What a search for a key sees of a page.
#[derive(Clone, Copy)]
pub enum Sight {
    /// The page's range has the pseudokey. Of the key: the length of its value, none where
    /// it has no record.
    Covering(Option<usize>),
    /// It has not, or the page is a tombstone: this is the next page or the link.
    Naming(u32),
}

/// What a bucket says beside its records.
#[derive(Clone, Copy)]
pub struct BucketSight {
    /// The local depth.
    pub depth: u8,
    /// The low bits of its records' pseudokeys.
    pub pattern: u32,
    /// The next page on the chain, 0 for the last.
    pub next: u32,
    /// The bytes of its records.
    pub used: usize,
}

/// What is seen of a page by who looks for a key.
pub fn see(page: &FilePage, pseudokey: u32, key: &RecordKey) -> Result<Sight, FileFault>
    ensures ok { IfOk result (λ sight. IsSight sight (page_in page.now) pseudokey key.now) }
    ensures err { IsErr result → Spells (page_in page.now) page.now →
        IsOnWay (page_in page.now) → ⊥ }
    ensures fault { IfErr result (λ fault. fault ≡ FileFault.Failed) }
{
    if let Some(bucket) = page.bucket() {
        let range = Range {
            depth: bucket.depth(),
            pattern: bucket.pattern(),
        };
        if !range.covers(pseudokey) {
            return Ok(Sight::Naming(bucket.next()));
        }
        return Ok(Sight::Covering(bucket.find(key).map(|value| value.len())));
    }
    match page.link() {
        Some(link) => Ok(Sight::Naming(link)),
        None => Err(FileFault::Failed),
    }
}

/// Whether a page is a bucket whose range has the pseudokey.
pub fn covers(page: &FilePage, pseudokey: u32) -> bool
    ensures { result ≡ true → CoversIn (page_in page.now) pseudokey }
{
    let Some(bucket) = page.bucket() else {
        return false;
    };
    let range = Range {
        depth: bucket.depth(),
        pattern: bucket.pattern(),
    };
    range.covers(pseudokey)
}

/// What is seen of a bucket.
pub fn see_bucket(page: &FilePage) -> Result<BucketSight, FileFault>
    ensures bucket { IfOk result (λ _. IsBucketPage page.now) }
    ensures ok { IfOk result (λ sight. sight ≡ sight_of (bucket_in page.now)) }
    ensures err { IsErr result → IsBucketPage page.now → ⊥ }
    ensures fault { IfErr result (λ fault. fault ≡ FileFault.Failed) }
{
    let Some(bucket) = page.bucket() else {
        return Err(FileFault::Failed);
    };
    Ok(BucketSight {
        depth: bucket.depth(),
        pattern: bucket.pattern(),
        next: bucket.next(),
        used: bucket.used(),
    })
}
