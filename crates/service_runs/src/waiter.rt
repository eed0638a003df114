//! Who waits for answers.

ghost use Rattle.std.specs.Prelude.{◌≡◌, ◌∷◌, ◌++◌, [], IfOk, IsErrOf, IsTrue, OnErr, length, true};
ghost use Rattle.queue_model.specs.declared.entry.Entry.TheVariants.{Decided};
ghost use Rattle.workers.specs.Causes.{HadToInsert};
ghost use Rattle.workers.specs.Told.{IsSameSeat, SeesFull};

use page_device::PageDevice;
use queue_model::{Answer, Call};
use replays::FileKeys;
use std::sync::Mutex;
use workers::{Base, Fault, Open, Room, Seat, Service, Stopper};

/// A service that the seats of a script share.
pub type Shared<D, N> = Service<D, FileKeys, Open, N>;

/// Who may wait for the answer to a call.
pub trait Waiter {
    /// As `Service::call`.
    fn call<D: PageDevice + Drop, N: Room + Base>(
        &self,
        service: &Shared<D, N>,
        seat: &mut Seat<N>,
        call: Call,
    ) -> Result<Answer, Fault>
        ensures ok { IfOk result (λ answer.
            seat.new.list ≡ seat.old.list ++ Decided seat.old.seat call answer ∷ []) }
        ensures err { OnErr result (seat.new.list ≡ seat.old.list) }
        ensures failed { IsErrOf result Fault.Failed → seat.new.failed ≡ true }
        ensures full { IsErrOf result Fault.SessionFull →
            SeesFull (length N.origin.callers) seat.new }
        ensures room { IsErrOf result Fault.NoRoom → IsTrue N.origin.honest →
            HadToInsert N.origin call }
        ensures same { IsSameSeat seat.old seat.new };

    /// As `Service::stop`, by a stopper that the seats share.
    fn stop<D: PageDevice + Drop, N: Room + Base>(
        &self,
        service: &Shared<D, N>,
        stopper: &Mutex<Stopper<N>>,
    );
}
