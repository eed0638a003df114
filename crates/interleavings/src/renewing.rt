//! Laws of kernels that refine a system and serve for long. The functions do nothing; their
//! contracts are the laws.

ghost use Rattle.interleavings.specs.Renewing.{FailuresRefine, FlushesRefine, PagesRefine, ReadsFailWithTheDevice, RenewsRefine, WithdrawsRefine};

use crate::concurrent_laws::calls_begin_together;
use crate::laws::a_refining_kernel_closes_on_its_file;

/// A kernel still refines its system where a call is taken back that holds no lock and has no
/// answer.
pub fn withdrawals_refine<K>()
    ensures { WithdrawsRefine K }
{}

/// Once its journal is taken out it refines the system after that journal, from which it goes on;
/// and that is lawful where the first one was.
pub fn renewals_refine<K>()
    ensures { RenewsRefine K }
{}

/// Between calls it still refines its system where its pages were read.
pub fn pages_refine<K>()
    ensures { PagesRefine K }
{
    calls_begin_together();
}

/// A page is read, unless a transfer of the device fails: that has the pages of a file.
pub fn reads_fail_with_the_device<K>()
    ensures { ReadsFailWithTheDevice K }
{}

/// One that is flushed between calls still refines its system, and its device has the file of the
/// system after the journal. The stop mark stands in no record.
pub fn flushes_refine<K>()
    ensures { FlushesRefine K }
{
    calls_begin_together();
    a_refining_kernel_closes_on_its_file::<K>();
}

/// Where the pool was refused something the journal is still legal.
pub fn failures_refine<K>()
    ensures { FailuresRefine K }
{}
