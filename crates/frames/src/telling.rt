//! Answers as bytes, behind others (docs/PROTOCOL.md, "Answers").

ghost use Rattle.std.specs.Prelude.{◌≡◌, ◌≤◌, ◌+◌, ◌++◌, true, length, IsOk, OnOk, OnErr};
ghost use Rattle.std.specs.Vec.{vec_capacity, vec_len};
ghost use Rattle.frames.specs.Little.{four};
ghost use Rattle.frames.specs.Answers.{answer_len, answer_parts, appended, counts_parts, is_short_answer, is_short_reply, message_parts, reply_len, reply_parts, stat_parts, told};

use crate::codes::DONE;
use crate::little::{put_all, put_eight, put_four, put_two};
use crate::reply::{Counts, Reply};
use numbers::limits::MAX_BODY;
use queue_model::{Answer, Message, NoMemory, QueueInfo};

/// The most bytes of an answer's record, with its length: those of a receive of the longest body.
pub const MAX_TOLD: usize = 44 + MAX_BODY;

/// Puts the record of an answer last. Without memory for it nothing is put; nor is a message of
/// more than `MAX_BODY` bytes, which no lawful system has.
pub fn put(into: &mut Vec<u8>, connection: u32, number: u32, reply: &Reply) -> Result<(), NoMemory>
    ensures ok { OnOk result (into.new.items ≡ into.old.items ++ told connection number reply.now) }
    ensures room { vec_len into.old + MAX_TOLD ≤ vec_capacity into.old →
        is_short_reply reply.now ≡ true → IsOk result }
    ensures err { OnErr result (into.new.items ≡ into.old.items) }
{
    if !is_short(reply) {
        return Err(NoMemory);
    }
    let len = 8 + len_of(reply);
    into.reserve(4 + len)?;
    put_four(into, len as u32);
    put_four(into, connection);
    put_four(into, number);
    put_reply(into, reply);
    Ok(())
}

/// Whether a reply has no body that is too long.
fn is_short(reply: &Reply) -> bool
    ensures { result ≡ is_short_reply reply.now }
{
    match reply {
        Reply::Answer(Answer::Received(message)) => message.bytes.len() <= MAX_BODY,
        Reply::Held { message, .. } => message.bytes.len() <= MAX_BODY,
        _ => true,
    }
}

/// How many bytes a reply has from its code on.
fn len_of(reply: &Reply) -> usize
    requires { is_short_reply reply.now ≡ true }
    ensures value { result ≡ reply_len reply.now }
    ensures within { result ≤ 32 + MAX_BODY }
{
    match reply {
        Reply::Answer(answer) => len_of_answer(answer),
        Reply::Held { message, .. } => 32 + message.bytes.len(),
        Reply::Number { .. } => 8,
        Reply::Info(_) => 48,
    }
}

/// How many bytes the answer to a call has from its code on.
fn len_of_answer(answer: &Answer) -> usize
    requires { is_short_answer answer.now ≡ true }
    ensures value { result ≡ answer_len answer.now }
    ensures within { result ≤ 32 + MAX_BODY }
{
    match answer {
        Answer::Sent(_) => 16,
        Answer::Received(message) => 32 + message.bytes.len(),
        Answer::Info(_) => 80,
        _ => 8,
    }
}

/// Puts a reply from its code on.
fn put_reply(into: &mut Vec<u8>, reply: &Reply)
    requires short { is_short_reply reply.now ≡ true }
    requires room { length into.old.items + reply_len reply.now ≤ vec_capacity into.old }
    ensures { into.new.items ≡ appended into.old.items (reply_parts reply.now) }
{
    match reply {
        Reply::Answer(answer) => put_answer(into, answer),
        Reply::Held { id, message } => {
            put_code(into, DONE, *id);
            put_message(into, message);
        }
        Reply::Number { code, value } => put_code(into, *code, *value),
        Reply::Info(counts) => {
            put_code(into, DONE, 0);
            put_counts(into, counts);
        }
    }
}

/// Puts a code and a value.
fn put_code(into: &mut Vec<u8>, code: u32, value: u32)
    requires { length into.old.items + 8 ≤ vec_capacity into.old }
    ensures value { into.new.items ≡ into.old.items ++ four code ++ four value }
    ensures len { length into.new.items ≡ length into.old.items + 8 }
    ensures room { vec_capacity into.old ≤ vec_capacity into.new }
{
    put_four(into, code);
    put_four(into, value);
}

/// Puts the answer to a call.
fn put_answer(into: &mut Vec<u8>, answer: &Answer)
    requires short { is_short_answer answer.now ≡ true }
    requires room { length into.old.items + answer_len answer.now ≤ vec_capacity into.old }
    ensures { into.new.items ≡ appended into.old.items (answer_parts answer.now) }
{
    match answer {
        Answer::Id(id) => put_code(into, DONE, *id),
        Answer::Sent(serial) => {
            put_code(into, DONE, 0);
            put_eight(into, *serial);
        }
        Answer::Received(message) => {
            put_code(into, DONE, message.bytes.len() as u32);
            put_message(into, message);
        }
        Answer::Info(info) => {
            put_code(into, DONE, 0);
            put_stat(into, info);
        }
        Answer::Done => put_code(into, DONE, 0),
        Answer::Refused(errno) => put_code(into, errno.number() as u32, 0),
    }
}

/// Puts the fields of a message.
fn put_message(into: &mut Vec<u8>, message: &Message)
    requires { length into.old.items + (24 + length message.now.bytes) ≤ vec_capacity into.old }
    ensures { into.new.items ≡ appended into.old.items (message_parts message.now) }
{
    put_eight(into, message.serial);
    put_four(into, message.sender);
    put_four(into, 0);
    put_eight(into, message.mtype.cast_unsigned());
    put_all(into, message.bytes.as_slice());
}

/// Puts what Stat tells.
fn put_stat(into: &mut Vec<u8>, info: &QueueInfo)
    requires { length into.old.items + 72 ≤ vec_capacity into.old }
    ensures { into.new.items ≡ appended into.old.items (stat_parts info.now) }
{
    put_eight(into, info.stime);
    put_eight(into, info.rtime);
    put_eight(into, info.ctime);
    put_four(into, info.id);
    put_four(into, info.key.unwrap_or(0));
    put_four(into, info.qnum);
    put_four(into, info.cbytes);
    put_four(into, info.qbytes);
    put_four(into, info.lspid);
    put_four(into, info.lrpid);
    put_four(into, info.permissions.uid);
    put_four(into, info.permissions.gid);
    put_four(into, info.permissions.cuid);
    put_four(into, info.permissions.cgid);
    put_two(into, info.permissions.mode);
    put_two(into, if info.key.is_some() { 1 } else { 0 });
}

/// Puts what Info tells.
fn put_counts(into: &mut Vec<u8>, counts: &Counts)
    requires { length into.old.items + 40 ≤ vec_capacity into.old }
    ensures { into.new.items ≡ appended into.old.items (counts_parts counts.now) }
{
    put_eight(into, counts.calls);
    put_eight(into, counts.saves);
    put_eight(into, counts.tries);
    put_four(into, counts.queues);
    put_four(into, counts.waiting);
    put_four(into, counts.pages);
    put_four(into, counts.highest);
}
