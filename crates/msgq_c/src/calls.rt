//! The calls of message queues (POSIX.1-2017, `msgget`, `msgsnd`, `msgrcv`, `msgctl`).

ghost use Rattle.std.specs.Prelude.{◌≡◌, IfOk, length, min};
ghost use Rattle.queue_model.specs.declared.call.Call.TheVariants as calls;
ghost use Rattle.msgq_c.specs.Arguments.{get_of, receive_of, send_of, set_of};
ghost use Rattle.msgq_c.specs.Serving.{Serves};
ghost use Rattle.msgq_c.specs.Telling.{TellsId, TellsInfo, TellsMessage, TellsNothing, TellsSerial};

use crate::arguments::{GetCall, ReceiveCall, SendCall, SetCall};
use crate::codes::{NO_MEMORY, NO_SESSION, code_of};
use crate::handle::Handle;
use crate::serving::serve;
use crate::telling::{Got, Info};
use session::Unanswered;
use session::queue_model::{Answer, Body, Call};
use std::alloc::Global;

/// More bytes than any message has.
const MOST_BYTES: usize = 65_536;

/// `msgget`: the id of a key's queue, or of a new queue.
#[unsafe(no_mangle)]
pub extern "C" fn msgq_session_get(
    alloc: Global,
    handle: &mut Handle,
    call: &GetCall,
    id: &mut u32,
) -> u32
    ensures { Serves (get_of call.now) (TellsId id.new) result
        handle.old.held.session handle.new.held.session }
{
    let mut call = call.call();
    let Some(result) = serve(alloc, handle, &mut call) else {
        return NO_SESSION;
    };
    if let Ok(Answer::Id(made)) = &result {
        *id = *made;
    }
    code_of(&result)
}

/// `msgsnd`: puts a message last on a queue.
#[unsafe(no_mangle)]
pub extern "C" fn msgq_session_send(
    alloc: Global,
    handle: &mut Handle,
    call: &SendCall,
    body: &[u8],
    serial: &mut u64,
) -> u32
    ensures { Serves (send_of call.now body.now) (TellsSerial serial.new) result
        handle.old.held.session handle.new.held.session }
{
    if !handle.is_open {
        return NO_SESSION;
    }
    let Ok(bytes) = Vec::from_slice(alloc, body) else {
        return NO_MEMORY;
    };
    put(alloc, handle, &mut call.call(Body::new(bytes)), serial)
}

/// Makes a call that may put a message, and tells its serial.
fn put(alloc: Global, handle: &mut Handle, call: &mut Call, serial: &mut u64) -> u32
    ensures { Serves call.old (TellsSerial serial.new) result
        handle.old.held.session handle.new.held.session }
{
    let Some(result) = serve(alloc, handle, call) else {
        return NO_SESSION;
    };
    if let Ok(Answer::Sent(sent)) = &result {
        *serial = *sent;
    }
    code_of(&result)
}

/// `msgrcv`: takes the message that a type selects. Of its bytes as many are copied as there is
/// room for.
#[unsafe(no_mangle)]
pub extern "C" fn msgq_session_receive(
    alloc: Global,
    handle: &mut Handle,
    call: &ReceiveCall,
    room: &mut [u8],
    got: &mut Got,
) -> u32
    ensures { Serves (receive_of call.now (min (length room.old) MOST_BYTES))
        (TellsMessage got.new room.new) result
        handle.old.held.session handle.new.held.session }
{
    let size = room.len().min(MOST_BYTES) as u32;
    let mut call = call.call(size);
    let Some(result) = serve(alloc, handle, &mut call) else {
        return NO_SESSION;
    };
    tell_message(&result, room, got);
    code_of(&result)
}

/// Tells of a message that was taken, and copies its bytes as far as there is room.
fn tell_message(came: &Result<Answer, Unanswered>, room: &mut [u8], got: &mut Got)
    ensures { IfOk came.now (TellsMessage got.new room.new) }
{
    let Ok(Answer::Received(message)) = came else {
        return;
    };
    let bytes = message.bytes.as_slice();
    let count = bytes.len().min(room.len());
    room[..count].copy_from_slice(&bytes[..count]);
    *got = Got {
        serial: message.serial,
        mtype: message.mtype,
        length: bytes.len(),
        sender: message.sender,
    };
}

/// `msgctl` with `IPC_STAT`: tells about a queue.
#[unsafe(no_mangle)]
pub extern "C" fn msgq_session_stat(
    alloc: Global,
    handle: &mut Handle,
    id: u32,
    info: &mut Info,
) -> u32
    ensures { Serves (calls.Stat id) (TellsInfo info.new) result
        handle.old.held.session handle.new.held.session }
{
    let mut call = Call::Stat { id };
    let Some(result) = serve(alloc, handle, &mut call) else {
        return NO_SESSION;
    };
    if let Ok(Answer::Info(known)) = &result {
        *info = Info::of(known);
    }
    code_of(&result)
}

/// `msgctl` with `IPC_SET`: changes `qbytes`, owner and mode.
#[unsafe(no_mangle)]
pub extern "C" fn msgq_session_set(alloc: Global, handle: &mut Handle, call: &SetCall) -> u32
    ensures { Serves (set_of call.now) TellsNothing result
        handle.old.held.session handle.new.held.session }
{
    let mut call = call.call();
    let Some(result) = serve(alloc, handle, &mut call) else {
        return NO_SESSION;
    };
    code_of(&result)
}

/// `msgctl` with `IPC_RMID`: removes a queue and all its messages.
#[unsafe(no_mangle)]
pub extern "C" fn msgq_session_remove(alloc: Global, handle: &mut Handle, id: u32) -> u32
    ensures { Serves (calls.Remove id) TellsNothing result
        handle.old.held.session handle.new.held.session }
{
    let mut call = Call::Remove { id };
    let Some(result) = serve(alloc, handle, &mut call) else {
        return NO_SESSION;
    };
    code_of(&result)
}
