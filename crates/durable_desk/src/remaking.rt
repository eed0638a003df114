//! Calls that were noted are made again.

ghost use Rattle.std.specs.Prelude.{◌≡◌, [], IfErr, OnOk, length};
ghost use Rattle.durable_desk.specs.Opening.{Makes, MakesAgain, MakesAll, MayNotBeMade, MayNotOpenFile};

use crate::opening::OpenRefusal;
use call_entries::{CallEntry, CallLog, CallReader, Unreadable, check_of};
use desk::Desk;
use desk::session::queue_model::Call;
use desk::session::{OpenFault, Unanswered};
use file_walk::StructureFault;
use interleaving_core::file_check::CheckFault;
use safe_device::{CallsFault, PagePair, SafeDevice};
use std::alloc::Global;

/// Who asks for a call that is made again: nobody, who is told nothing.
const NOBODY: u64 = 0;

/// A transfer of the device failed.
const UNREAD: OpenRefusal = OpenRefusal::File(OpenFault::Wrong(CheckFault::Structure(
    StructureFault::Device,
)));

/// There is no memory.
const NO_MEMORY: OpenRefusal = OpenRefusal::File(OpenFault::NoMemory);

/// Makes all calls that stand behind the pages of a device. The ids of the queues that they make are
/// put last among those that were seen.
pub(crate) fn make_again<P: PagePair>(
    alloc: Global,
    device: &SafeDevice<P>,
    desk: &mut Desk,
    seen: &mut Vec<u32>,
) -> Result<(), OpenRefusal>
    ensures made { OnOk result (MakesAgain P.is_honest device.now.calls
        (length device.now.calls) desk.old desk.new) }
    ensures refused { IfErr result (MayNotOpenFile P.is_honest device.now) }
{
    let Ok(mut log) = CallLog::with_room(alloc, 0) else {
        return Err(NO_MEMORY);
    };
    let mut calls = Vec::new(alloc);
    for index in 0..device.noted_count() {
        match device.noted(index, &mut calls) {
            Ok(()) => {}
            Err(CallsFault::Failed(_)) => return Err(UNREAD),
            Err(CallsFault::NoMemory) => return Err(NO_MEMORY),
        }
        make_all(alloc, &calls, desk, &mut log, seen)?;
    }
    Ok(())
}

/// Makes the calls of an addition.
fn make_all(
    alloc: Global,
    calls: &[u8],
    desk: &mut Desk,
    log: &mut CallLog,
    seen: &mut Vec<u32>,
) -> Result<(), OpenRefusal>
    ensures made { OnOk result (MakesAll calls.now [] desk.old desk.new) }
    ensures refused { IfErr result MayNotBeMade }
{
    let mut reader = CallReader::new(calls);
    for _ in 0..calls.len() {
        let next = match reader.next(alloc) {
            Ok(next) => next,
            Err(Unreadable::NoEntry) => return Err(OpenRefusal::Calls),
            Err(Unreadable::NoMemory) => return Err(NO_MEMORY),
        };
        let Some(entry) = next else {
            return Ok(());
        };
        if !see_queue(&entry, seen) {
            return Err(NO_MEMORY);
        }
        make(entry, desk, log)?;
    }
    // (each has some bytes, so none is left)
    match reader.next(alloc) {
        Ok(None) => Ok(()),
        _ => Err(OpenRefusal::Calls),
    }
}

/// Makes the call of an entry, whose answer has to be as the entry says.
fn make(entry: CallEntry, desk: &mut Desk, log: &mut CallLog) -> Result<(), OpenRefusal>
    ensures made { OnOk result (Makes entry desk.old desk.new) }
    ensures refused { IfErr result MayNotBeMade }
{
    let CallEntry {
        caller,
        call,
        check,
    } = entry;
    let answer = match desk.ask(NOBODY, caller, call, log) {
        Ok(answer) => answer,
        Err(Unanswered::NoMemory) => return Err(NO_MEMORY),
        Err(_) => return Err(OpenRefusal::Calls),
    };
    if check_of(&answer) != check {
        return Err(OpenRefusal::Calls);
    }
    Ok(())
}

/// Puts the id of the queue last that a Get was told; false where there is no memory.
fn see_queue(entry: &CallEntry, seen: &mut Vec<u32>) -> bool {
    match entry.call {
        Call::Get(_) => match u32::try_from(entry.check) {
            Ok(id) => seen.push(id).is_ok(),
            Err(_) => true,
        },
        _ => true,
    }
}
