//! What steps, answers, calls and locks are in words.

use crate::line::Line;
use interleaving_core::Step;
use page_locks::{Grant, Lock, LockKind, LockName};
use queue_model::{Answer, Call, Message, QueueInfo};
use step_rules::Kind;

/// A step that moved, and the lock that its seat was granted by it.
pub fn tell_move(line: &mut Line, kind: Kind, last: Option<Lock>) {
    line.word("moved");
    line.word(kind.name());
    if let (Kind::Grant | Kind::Hop | Kind::Convert, Some(lock)) = (kind, last) {
        tell_name(line, lock.name);
        line.word(kind_name(lock.kind));
    }
}

/// What a step came to.
pub fn tell_step(line: &mut Line, step: &Step, last: Option<Lock>) {
    match step {
        Step::Moved(kind) => tell_move(line, *kind, last),
        Step::Blocked(other) => tell_blocked(line, *other),
        Step::Waiting => line.word("waiting"),
        Step::Answered(answer) => tell_answer(line, answer),
        Step::Idle => line.word("idle"),
        Step::Fault(fault) => tell_fault(line, fault.number()),
    }
}

/// A fault by its number.
pub fn tell_fault(line: &mut Line, number: u8) {
    line.word("fault");
    line.number(u64::from(number));
}

/// Whether something is so.
pub fn tell_truth(line: &mut Line, is: bool) {
    line.word(if is { "yes" } else { "no" });
}

/// A seat that stands in the way.
pub fn tell_blocked(line: &mut Line, other: u8) {
    line.word("blocked");
    line.number(u64::from(other));
}

/// Whether a lock was granted.
pub fn tell_grant(line: &mut Line, grant: Grant) {
    match grant {
        Grant::Granted => line.word("granted"),
        Grant::Blocked(other) => tell_blocked(line, other),
    }
}

/// The name of a lock.
fn tell_name(line: &mut Line, name: LockName) {
    match name {
        LockName::Key(key) => line.named("Key", key),
        LockName::Counter => line.word("Counter"),
        LockName::Queue(id) => line.named("Queue", id),
        LockName::Directory => line.word("Directory"),
        LockName::Page(page) => line.named("Page", page),
    }
}

/// The kind of a lock.
pub fn kind_name(kind: LockKind) -> &'static str {
    match kind {
        LockKind::Read => "Read",
        LockKind::Selective => "Selective",
        LockKind::Exclusive => "Exclusive",
    }
}

/// An answer, as docs/SCRIPTS.md has it.
fn tell_answer(line: &mut Line, answer: &Answer) {
    match answer {
        Answer::Id(id) => {
            line.word("id");
            line.number(u64::from(*id));
        }
        Answer::Sent(serial) => {
            line.word("sent");
            line.number(*serial);
        }
        Answer::Received(message) => tell_message(line, message),
        Answer::Info(info) => tell_info(line, info),
        Answer::Done => line.word("done"),
        Answer::Refused(errno) => {
            line.word("refused");
            line.word(errno.name());
        }
    }
}

/// A message that was received.
fn tell_message(line: &mut Line, message: &Message) {
    line.word("received");
    line.number(message.serial);
    line.number(u64::from(message.sender));
    line.signed(message.mtype);
    line.hex(message.bytes.as_slice());
}

/// A key, or that there is none.
fn tell_key(line: &mut Line, key: Option<u32>) {
    match key {
        Some(key) => line.number(u64::from(key)),
        None => line.word("private"),
    }
}

/// What is told of a queue.
fn tell_info(line: &mut Line, info: &QueueInfo) {
    line.word("info");
    line.number(u64::from(info.id));
    tell_key(line, info.key);
    for number in &[
        u64::from(info.qnum),
        u64::from(info.cbytes),
        u64::from(info.qbytes),
        u64::from(info.lspid),
        u64::from(info.lrpid),
        info.stime,
        info.rtime,
        info.ctime,
        u64::from(info.permissions.uid),
        u64::from(info.permissions.gid),
        u64::from(info.permissions.cuid),
        u64::from(info.permissions.cgid),
    ] {
        line.number(*number);
    }
    line.mode(info.permissions.mode);
}

/// The call that was taken back, if there was one.
pub fn tell_withdrawn(line: &mut Line, call: &Option<Call>) {
    match call {
        Some(call) => tell_call(line, call),
        None => line.word("none"),
    }
}

/// A call as in a script, without its options.
fn tell_call(line: &mut Line, call: &Call) {
    match call {
        Call::Get(arguments) => {
            line.word("get");
            tell_key(line, arguments.key);
        }
        Call::Send(arguments) => {
            line.word("snd");
            line.number(u64::from(arguments.id));
            line.signed(arguments.mtype);
            line.hex(arguments.body.as_slice());
        }
        Call::Receive(arguments) => {
            line.word("rcv");
            line.number(u64::from(arguments.id));
            line.number(u64::from(arguments.size));
            line.signed(arguments.mtype);
        }
        Call::Stat { id } => {
            line.word("stat");
            line.number(u64::from(*id));
        }
        Call::Set(arguments) => {
            line.word("set");
            line.number(u64::from(arguments.id));
            line.number(u64::from(arguments.qbytes));
        }
        Call::Remove { id } => {
            line.word("rm");
            line.number(u64::from(*id));
        }
    }
}
