//! The chain of buckets is walked.

ghost use Rattle.std.specs.Prelude.{◌≡◌, ◌⊎◌, IfOk, IfErr};
ghost use Rattle.file_walk.specs.Order.{LacksMemory};
ghost use Rattle.file_walk.specs.Walks.{IsChainFault, IsRightChain};

use crate::fault::StructureFault;
use crate::outline::Outline;
use directory::POSITIONS;
use std::alloc::Global;

/// The pages of the chain, from the root to its end. Each stands where the range of the one before
/// it stops, so none is met twice.
pub fn chain_of(alloc: Global, file: &Outline) -> Result<Vec<u32>, StructureFault>
    ensures ok { IfOk result (λ chain. IsRightChain file.now chain.items) }
    ensures err { IfErr result (λ fault. LacksMemory fault ⊎ IsChainFault file.now fault) }
{
    let mut chain = Vec::new(alloc);
    let mut reached = 0;
    let mut page = file.root();
    while reached < POSITIONS {
        let Some(bucket) = file.bucket(page) else {
            return Err(StructureFault::ChainBroken { page });
        };
        if !bucket.range.is_tile_at(reached) {
            return Err(StructureFault::ChainBroken { page });
        }
        chain.push(page)?;
        reached = bucket.range.stop();
        page = bucket.next;
    }
    if page != 0 {
        return Err(StructureFault::ChainBroken { page });
    }
    Ok(chain)
}
