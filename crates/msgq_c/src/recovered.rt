//! A file is recovered before it is opened, transfer by transfer.

ghost use Rattle.std.specs.Prelude.{◌≡◌, IsNone, IsSome, None, Some};
ghost use Rattle.std.specs.Option.{is_some};
ghost use Rattle.msgq_c.specs.HeldRecovery.{RecoveryUnderWay};
ghost use Rattle.msgq_c.specs.Recovering.{AsksRecovery, BeginsCalls, BeginsRecovery, EndsRecovery, TellsRecovery, TellsStands, refusal_code};

use crate::codes::{DONE, FAILED, IN_USE, NO_MEMORY, NO_SESSION, OTHER_FILE, OTHER_VERSION};
use crate::held::recovery::HeldRecovery;
use crate::saving::{Order, Stands, order_of};
use pair_transfers::journal_bytes::{IMAGE_BYTES, Sum};
use pair_transfers::{RecoverFault, Recovering};
use std::alloc::Global;
use std::mem;

/// A recovery, transfer by transfer.
#[derive(Drop)]
pub struct Recovered {
    pub(crate) recovering: Recovering,
}

/// A recovery that C holds, or none. All zeros are none.
#[repr(C)]
#[derive(Drop)]
pub struct RecoveryHandle {
    pub(crate) held: HeldRecovery,
    pub(crate) is_begun: bool,
    ghost agrees: { is_begun ≡ is_some held.recovery },
}

impl RecoveryHandle {
    /// Puts a recovery into a handle that has none.
    fn put(&mut self, recovery: Box<Recovered>)
        requires { IsNone self.old.held.recovery }
        ensures { self.new.held.recovery ≡ Some recovery.value }
    {
        *self = RecoveryHandle {
            held: HeldRecovery::of(recovery),
            is_begun: true,
        };
    }

    /// Takes the recovery out.
    fn take(&mut self, alloc: Global) -> Box<Recovered>
        requires { IsSome self.old.held.recovery }
        ensures recovery { self.old.held.recovery ≡ Some result.value }
        ensures none { self.new.held.recovery ≡ None }
    {
        let none = RecoveryHandle {
            held: HeldRecovery::empty(alloc),
            is_begun: false,
        };
        let RecoveryHandle { held, is_begun: _ } = mem::replace(self, none);
        held.into_box()
    }
}

/// Begins to recover a file from a journal, of so many bytes, in a handle that has no recovery. All zeros are
/// such a handle.
#[unsafe(no_mangle)]
pub extern "C" fn msgq_recovery_begin(
    alloc: Global,
    handle: &mut RecoveryHandle,
    journal: u64,
    file: u64,
) -> u32
    ensures { BeginsRecovery journal file result
        handle.old.held.recovery handle.new.held.recovery }
{
    if handle.is_begun {
        return IN_USE;
    }
    let begun = Recovered {
        recovering: Recovering::begin(journal, file),
    };
    match Box::new(alloc, begun) {
        Ok(recovery) => {
            handle.put(recovery);
            DONE
        }
        Err(_) => NO_MEMORY,
    }
}

/// The transfer that is to be made next, with the bytes that are to be written; `OVER` where all is done.
/// Nothing is written before the journal is known to be of this file.
#[unsafe(no_mangle)]
pub extern "C" fn msgq_recovery_next(
    alloc: Global,
    handle: &mut RecoveryHandle,
    order: &mut Order,
    bytes: &mut [u8; IMAGE_BYTES],
) -> u32
    ensures { AsksRecovery order.new bytes.old bytes.new result
        handle.old.held.recovery handle.new.held.recovery }
{
    if !handle.is_begun {
        return NO_SESSION;
    }
    let mut recovery = handle.take(alloc);
    let told = recovery.recovering.next();
    match told {
        Ok(transfer) => {
            recovery.recovering.spell(bytes);
            handle.put(recovery);
            *order = order_of(&transfer);
            DONE
        }
        Err(fault) => {
            handle.put(recovery);
            refusal_code(fault)
        }
    }
}

/// The transfer was made, or has failed. Where it was a read, these bytes were read, and any others behind
/// them.
#[unsafe(no_mangle)]
pub extern "C" fn msgq_recovery_told(
    alloc: Global,
    handle: &mut RecoveryHandle,
    read: &[u8],
    is_done: bool,
) -> u32
    ensures { TellsRecovery read.now is_done result
        handle.old.held.recovery handle.new.held.recovery }
{
    if !handle.is_begun {
        return NO_SESSION;
    }
    let mut recovery = handle.take(alloc);
    let told = recovery.recovering.told(read, is_done);
    handle.put(recovery);
    match told {
        Ok(()) => DONE,
        Err(fault) => refusal_code(fault),
    }
}

/// Begins to hand on the calls that stand in the journal, once the file is recovered: each addition is told
/// as an order `REMAKE`, behind a read of it.
#[unsafe(no_mangle)]
pub extern "C" fn msgq_recovery_calls(alloc: Global, handle: &mut RecoveryHandle) -> u32
    ensures { BeginsCalls result handle.old.held.recovery handle.new.held.recovery }
{
    if !handle.is_begun {
        return NO_SESSION;
    }
    let mut recovery = handle.take(alloc);
    recovery.recovering.begin_calls();
    handle.put(recovery);
    DONE
}

/// What is known of the journal once the file is recovered.
#[unsafe(no_mangle)]
pub extern "C" fn msgq_recovery_stands(
    alloc: Global,
    handle: &mut RecoveryHandle,
    stands: &mut Stands,
    sum: &mut Sum,
) -> u32
    ensures { TellsStands stands.new sum.new result
        handle.old.held.recovery handle.new.held.recovery }
{
    if !handle.is_begun {
        return NO_SESSION;
    }
    let recovery = handle.take(alloc);
    let standing = recovery.recovering.standing();
    handle.put(recovery);
    *stands = Stands {
        size: standing.size,
        end: standing.end,
        number: standing.number,
    };
    let last = standing.sum;
    *sum = last;
    DONE
}

/// Lets a recovery go.
#[unsafe(no_mangle)]
pub extern "C" fn msgq_recovery_end(alloc: Global, handle: &mut RecoveryHandle) -> u32
    ensures { EndsRecovery result handle.old.held.recovery handle.new.held.recovery }
{
    if !handle.is_begun {
        return NO_SESSION;
    }
    drop(handle.take(alloc));
    DONE
}

/// That of a recovery that is not made.
fn refusal_code(fault: RecoverFault) -> u32
    ensures { result ≡ refusal_code fault }
{
    match fault {
        RecoverFault::Device => FAILED,
        RecoverFault::Foreign => OTHER_FILE,
        RecoverFault::OtherVersion => OTHER_VERSION,
    }
}
