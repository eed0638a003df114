//! The header: what page 0 says of the file.

ghost use Rattle.std.specs.Prelude.{◌≡◌, ◌+◌, ◌-◌, ◌≤◌, ◌<◌, ◌^◌, ℕ, length, get_or, slice_index, slice_set};
ghost use Rattle.std.specs.List.{AllByRecursion};
ghost use Rattle.directory.specs.declared.layout.TheConstants.{GREATEST_DEPTH, LOCAL_DEPTHS};
ghost use Rattle.directory.specs.Spelling.{FitsBytes};

use crate::layout::LOCAL_DEPTHS;

/// The header of a file.
#[derive(Clone, Copy, PartialEq, Eq)]
pub struct Header {
    /// The depth of the directory: how many low bits of a pseudokey choose its entry.
    pub depth: u8,
    /// Pages of the file.
    pub pages: u32,
    /// The first page on the list of free pages, 0 for none.
    pub first_free: u32,
    /// Live buckets of each local depth, from 0 on.
    pub counts: [u32; LOCAL_DEPTHS],
}

impl Header {
    /// Live buckets of a local depth.
    pub fn count(&self, local_depth: u8) -> u32
        requires { local_depth ≤ GREATEST_DEPTH }
        ensures { result ≡ slice_index self.now.counts local_depth }
    {
        self.counts[local_depth as usize]
    }

    /// One bit more of a pseudokey chooses its entry: the directory has doubled.
    pub fn raise(&mut self)
        requires { self.old.depth < GREATEST_DEPTH }
        ensures { self.new ≡ record self.old { depth = self.old.depth + 1 } }
    {
        self.depth += 1;
    }

    /// One bit less of a pseudokey chooses its entry: the directory has halved.
    pub fn lower(&mut self)
        requires { 1 ≤ self.old.depth }
        ensures { self.new ≡ record self.old { depth = self.old.depth - 1 } }
    {
        self.depth -= 1;
    }

    /// Sets the first page on the list of free pages, 0 for none.
    pub fn set_first_free(&mut self, page: u32)
        ensures { self.new ≡ record self.old { first_free = page } }
    {
        self.first_free = page;
    }

    /// Sets how many live buckets have a local depth.
    pub fn set_count(&mut self, local_depth: u8, count: u32)
        requires { local_depth ≤ GREATEST_DEPTH }
        ensures { self.new ≡ record self.old {
          counts = slice_set self.old.counts local_depth count;
        } }
    {
        self.counts[local_depth as usize] = count;
    }

    /// The numbers of each header fit their bytes.
    pub fn fits_bytes(&self)
        ensures { FitsBytes self.now }
    {
        fits(self.pages);
        fits(self.first_free);
        counts_fit(&self.counts);
    }
}

fn fits(number: u32)
    ensures { number < 2 ^ 32 }
{
    let _ = number;
}

#[tactic(auto, using(numbers::proofs::ListLaws::all_small))]
fn counts_fit(counts: &[u32; LOCAL_DEPTHS])
    ensures number { length counts.now ≡ LOCAL_DEPTHS }
    ensures small { AllByRecursion (λ n. n < 2 ^ 32) counts.now }
{
    let _ = counts.as_slice();
}
