//! The directory is tested: the depths of its buckets, its entries and the header's counts.

ghost use Rattle.std.specs.Prelude.{◌≡◌, ◌≤◌, ◌<◌, ◌^◌, ◌↔◌, true, IsTrue, IfErr, OnOk};
ghost use Rattle.hash_file.specs.Chain.{IsBucketOn, number_on};
ghost use Rattle.hash_file.specs.Store.{entry_at};
ghost use Rattle.file_walk.specs.Walks.{AreEntriesRight, AreCountsRight, AreShallow, HasRightSpares, IsDirectoryFault, IsRightChain, IsRightDirectory};

use crate::fault::StructureFault;
use crate::outline::Outline;

/// Tests that no bucket is deeper than the directory, that each entry is the bucket of its index,
/// and that the header's counts are those of the chain.
pub fn test_directory(file: &Outline, chain: &[u32]) -> Result<(), StructureFault>
    requires chain { IsRightChain file.now chain.now }
    requires spares { HasRightSpares file.now chain.now }
    ensures ok { OnOk result (IsRightDirectory file.now chain.now) }
    ensures err { IfErr result (IsDirectoryFault file.now chain.now) }
{
    file.keeps_layout();
    test_depths(file, chain)?;
    test_entries(file, chain)?;
    test_counts(file, chain)
}

fn test_depths(file: &Outline, chain: &[u32]) -> Result<(), StructureFault>
    requires { IsRightChain file.now chain.now }
    ensures ok { OnOk result (AreShallow file.now chain.now) }
    ensures err { IfErr result (IsDirectoryFault file.now chain.now) }
{
    for page in chain {
        if file.local_depth(*page) > file.depth() {
            return Err(StructureFault::TooDeep { page: *page });
        }
    }
    Ok(())
}

fn test_entries(file: &Outline, chain: &[u32]) -> Result<(), StructureFault>
    requires chain { IsRightChain file.now chain.now }
    requires spares { HasRightSpares file.now chain.now }
    ensures ok { OnOk result (AreEntriesRight file.now chain.now) }
    ensures err { IfErr result (IsDirectoryFault file.now chain.now) }
{
    for index in 0..file.entries() {
        if !is_bucket_of(file, chain, index) {
            return Err(StructureFault::WrongEntry { entry: index });
        }
    }
    Ok(())
}

/// Whether an entry is the bucket on the chain whose range has its index. Each bucket of the file
/// is on the chain.
fn is_bucket_of(file: &Outline, chain: &[u32], index: u32) -> bool
    requires chain { IsRightChain file.now chain.now }
    requires spares { HasRightSpares file.now chain.now }
    requires index { index < 2 ^ file.now.header.depth }
    ensures { IsTrue result ↔ IsBucketOn file.now chain.now index (entry_at file.now index) }
{
    let _on = chain.len();
    file.keeps_layout();
    match file.bucket(file.entry(index)) {
        Some(bucket) => bucket.range.is_valid() && bucket.range.covers(index),
        None => false,
    }
}

fn test_counts(file: &Outline, chain: &[u32]) -> Result<(), StructureFault>
    requires { IsRightChain file.now chain.now }
    ensures ok { OnOk result (AreCountsRight file.now chain.now) }
    ensures err { IfErr result (IsDirectoryFault file.now chain.now) }
{
    file.keeps_layout();
    for depth in 0..file.greatest_depth() + 1 {
        if file.count(depth) as usize != number_of(file, chain, depth) {
            return Err(StructureFault::WrongCount { depth });
        }
    }
    Ok(())
}

/// How many buckets of the chain have a local depth.
fn number_of(file: &Outline, chain: &[u32], depth: u8) -> usize
    requires { IsRightChain file.now chain.now }
    ensures { result ≡ number_on file.now chain.now depth }
{
    let mut number = 0;
    for page in chain {
        if file.local_depth(*page) == depth {
            number += 1;
        }
    }
    number
}
