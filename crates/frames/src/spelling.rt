//! A call as the record by which a client asks for it, behind other bytes (docs/PROTOCOL.md,
//! "Requests"). `read` reads it again.

ghost use Rattle.std.specs.Prelude.{◌≡◌, ◌≤◌, ◌+◌, ◌++◌, [], true, length};
ghost use Rattle.std.specs.Vec.{vec_capacity};
ghost use Rattle.frames.specs.Answers.{appended};
ghost use Rattle.frames.specs.Spelling.{call_record, field_parts, fields_len, has_short_body, head_parts, row_of, row_parts};
ghost use Rattle.frames.specs.declared.reading.TheConstants.{MAX_RECORD};

use crate::bytes::Bytes;
use crate::calls::{NO_ERROR, NO_WAIT, flag, get_flags, set_flags};
use crate::frame::Frame;
use crate::little::{put_all, put_eight, put_four, set, set_four, set_two};
use numbers::limits::MAX_BODY;
use queue_model::{Call, Caller};

/// The connection and the number of a request.
#[derive(Clone, Copy)]
pub struct Asker {
    /// The relay's number of the connection, or 0.
    pub connection: u32,
    /// The client's own number of the request.
    pub number: u32,
}

/// Puts the record of a call last.
pub fn put_call(into: &mut Vec<u8>, asker: Asker, caller: Caller, call: &Call)
    requires short { has_short_body call.now ≡ true }
    requires room { length into.old.items + MAX_RECORD ≤ vec_capacity into.old }
    ensures value { into.new.items ≡ into.old.items ++ call_record asker caller call.now }
    ensures len { length into.new.items ≤ length into.old.items + MAX_RECORD }
    ensures room { vec_capacity into.old ≤ vec_capacity into.new }
{
    let frame = row_of(asker.number, call);
    put_front(
        into,
        asker.connection,
        caller,
        12 + len_of_fields(call),
        &frame,
    );
    put_fields(into, call);
}

/// Whether a call has no body that is longer than one may be.
pub fn has_short_body(call: &Call) -> bool
    ensures { result ≡ has_short_body call.now }
{
    match call {
        Call::Send(arguments) => arguments.body.len() <= MAX_BODY,
        _ => true,
    }
}

/// The frame of a call, without its fields.
fn row_of(number: u32, call: &Call) -> Frame<'static>
    ensures { result ≡ row_of number call.now }
{
    let (code, flags, mode, id) = match call {
        Call::Get(arguments) => (1, get_flags(arguments), arguments.mode, 0),
        Call::Send(arguments) => (2, flag(arguments.nowait, NO_WAIT), 0, arguments.id),
        Call::Receive(arguments) => (
            3,
            flag(arguments.nowait, NO_WAIT) + flag(arguments.noerror, NO_ERROR),
            0,
            arguments.id,
        ),
        Call::Stat { id } => (4, 0, 0, *id),
        Call::Set(arguments) => (
            5,
            set_flags(arguments),
            arguments.mode.unwrap_or(0),
            arguments.id,
        ),
        Call::Remove { id } => (6, 0, 0, *id),
    };
    Frame {
        number,
        code,
        flags,
        mode,
        id,
        fields: Bytes::new(&[]),
    }
}

/// How many bytes the fields of a call have.
fn len_of_fields(call: &Call) -> usize
    requires { has_short_body call.now ≡ true }
    ensures value { result ≡ fields_len call.now }
    ensures within { result ≤ 8 + MAX_BODY }
{
    match call {
        Call::Get(_) => 4,
        Call::Send(arguments) => 8 + arguments.body.len(),
        Call::Receive(_) | Call::Set(_) => 12,
        Call::Stat { .. } | Call::Remove { .. } => 0,
    }
}

/// Puts what stands before the fields of a record, of which so many bytes are to stand behind the
/// relay's part: that part, and a frame without its fields. They are put all at once.
fn put_front(into: &mut Vec<u8>, connection: u32, caller: Caller, behind: usize, frame: &Frame)
    requires few { behind ≤ 20 + MAX_BODY }
    requires room { length into.old.items + 36 ≤ vec_capacity into.old }
    ensures value { into.new.items ≡ into.old.items ++
        appended (appended [] (head_parts connection caller behind)) (row_parts frame.now) }
    ensures len { length into.new.items ≡ length into.old.items + 36 }
    ensures room { vec_capacity into.old ≤ vec_capacity into.new }
{
    let mut front = [0; 36];
    set_four(&mut front, 0, (20 + behind) as u32);
    set_four(&mut front, 4, connection);
    set_four(&mut front, 8, 0);
    set_four(&mut front, 12, caller.pid);
    set_four(&mut front, 16, caller.uid);
    set_four(&mut front, 20, caller.gid);
    set_four(&mut front, 24, frame.number);
    set(&mut front, 28, &[frame.code, frame.flags]);
    set_two(&mut front, 30, frame.mode);
    set_four(&mut front, 32, frame.id);
    put_all(into, &front);
}

/// Puts the fields of a call.
fn put_fields(into: &mut Vec<u8>, call: &Call)
    requires room { length into.old.items + fields_len call.now ≤ vec_capacity into.old }
    ensures value { into.new.items ≡ appended into.old.items (field_parts call.now) }
    ensures len { length into.new.items ≡ length into.old.items + fields_len call.now }
    ensures room { vec_capacity into.old ≤ vec_capacity into.new }
{
    match call {
        Call::Get(arguments) => put_four(into, arguments.key.unwrap_or(0)),
        Call::Send(arguments) => {
            put_eight(into, arguments.mtype.cast_unsigned());
            put_all(into, arguments.body.as_slice());
        }
        Call::Receive(arguments) => {
            put_eight(into, arguments.mtype.cast_unsigned());
            put_four(into, arguments.size);
        }
        Call::Set(arguments) => {
            put_four(into, arguments.qbytes);
            put_four(into, arguments.uid.unwrap_or(0));
            put_four(into, arguments.gid.unwrap_or(0));
        }
        Call::Stat { .. } | Call::Remove { .. } => {}
    }
}
