//! How a payment begins.

ghost use Rattle.std.specs.Prelude.{◌≡◌, None};
ghost use Rattle.call_writes.specs.PaymentWords.{is_move};
ghost use Rattle.call_writes.specs.Payments.{decided, sweep_of, unwritten};

use crate::due::Due;
use crate::writes::CallWrites;
use call_decisions::Settled;
use record_file::file_pages::FileFault;
use record_file::step_rules::Progress;
use xsi_inquiry::Sweep;

/// The sweep that a call has come to.
pub fn sweep_of(settled: Option<Settled>) -> Option<Sweep>
    ensures { result ≡ sweep_of settled }
{
    match settled {
        Some(Settled::Sweeps(sweep)) => Some(sweep),
        Some(Settled::Answers(_)) | Some(Settled::Waits) | None => None,
    }
}

/// Takes the place of trials of which this was due when their call decided.
pub fn decide_at(writes: &mut CallWrites, due: Due)
    requires rests { writes.old.access ≡ None }
    ensures { writes.new ≡ decided due }
{
    writes.begin_at(due);
    writes.decide();
}

/// What is due of trials of which this was due when their call decided.
pub fn decided(due: Due) -> CallWrites
    ensures { result ≡ decided due }
{
    let mut writes = CallWrites::new();
    decide_at(&mut writes, due);
    writes
}

/// A plan of which nothing is written yet.
pub fn unwritten() -> CallWrites
    ensures { result ≡ unwritten }
{
    decided(Due::Trying(0))
}

/// Whether the step moved.
pub fn is_move(did: Progress<FileFault>) -> bool
    ensures { result ≡ is_move did }
{
    matches!(did, Progress::Moved(_))
}
