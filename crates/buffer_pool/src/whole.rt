//! Buckets made of others: the halves of one, and one of two buddies.

ghost use Rattle.std.specs.Prelude.{◌≡◌, ◌<◌};
ghost use Rattle.bucket_page.specs.Changes.{IsBucketPage, SpellsBucket};
ghost use Rattle.bucket_page.specs.Dividing.{AreBuddies, FitTogether, ShareNoKey, joined, lower_half, upper_half};
ghost use Rattle.bucket_page.specs.Reading.{bucket_in, records_in};
ghost use Rattle.bucket_page.specs.directory.declared.layout.TheConstants.{GREATEST_DEPTH};

use crate::file_page::FilePage;
use bucket_page::page_device::PAYLOAD_BYTES;
use bucket_page::{PseudoKey, join, write_lower_half, write_upper_half};

impl FilePage {
    /// The half of a bucket whose pseudokeys have 1 in the next bit.
    pub fn upper_half<K: PseudoKey>(&self, keys: &K) -> FilePage
        requires bucket { IsBucketPage self.now }
        requires depth { (bucket_in self.now).depth < GREATEST_DEPTH }
        ensures { SpellsBucket (upper_half (K.of_key keys.now) (bucket_in self.now)) result }
    {
        let mut payload = [0; PAYLOAD_BYTES];
        write_upper_half(keys, &self.payload, &mut payload);
        FilePage { payload }
    }

    /// The half of a bucket whose pseudokeys have 0 in the next bit. The other half is
    /// to stand on `page`.
    pub fn lower_half<K: PseudoKey>(&self, keys: &K, page: u32) -> FilePage
        requires bucket { IsBucketPage self.now }
        requires depth { (bucket_in self.now).depth < GREATEST_DEPTH }
        ensures { SpellsBucket (lower_half (K.of_key keys.now) page (bucket_in self.now)) result }
    {
        let mut payload = [0; PAYLOAD_BYTES];
        write_lower_half(keys, &self.payload, page, &mut payload);
        FilePage { payload }
    }

    /// The bucket of two buddies whose records fit one page. It is followed by what
    /// followed the right one.
    pub fn joined(&self, right: &FilePage) -> FilePage
        requires left { IsBucketPage self.now }
        requires right { IsBucketPage right.now }
        requires buddies { AreBuddies (bucket_in self.now) (bucket_in right.now) }
        requires apart { ShareNoKey (records_in self.now) (records_in right.now) }
        requires room { FitTogether (records_in self.now) (records_in right.now) }
        ensures { SpellsBucket (joined (bucket_in self.now) (bucket_in right.now)) result }
    {
        let mut payload = [0; PAYLOAD_BYTES];
        join(&self.payload, &right.payload, &mut payload);
        FilePage { payload }
    }
}
