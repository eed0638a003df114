//! Calls are written down as they are made.

ghost use Rattle.std.specs.Prelude.{◌≡◌, ◌≤◌, ◌+◌, IfOk, IsTrue, None, Some, [], false, length};
ghost use Rattle.std.specs.Vec.{vec_capacity};
ghost use Rattle.call_entries.specs.Log.{Begins, Ends, Notes, empty};

use crate::entry::{check_of, is_refusal, may_change, moment_of};
use frames::{Asker, MAX_RECORD, has_short_body, put_call, put_eight};
use queue_model::{Answer, Call, Caller};
use std::alloc::{AllocError, Global};
use std::marker::Model;

/// The most bytes of an entry: those of a Send of the longest body.
pub const MAX_ENTRY: usize = 8 + MAX_RECORD + 8;

/// Nobody is told what comes of a call that is made again.
const NOBODY: Asker = Asker {
    connection: 0,
    number: 0,
};

/// The calls that changed the system, as bytes, in memory that is taken once. A call is written
/// down before it is made, since its body goes with it; where it changed nothing that is taken
/// back. Where there is no room for an entry it is left out, and the log is whole no more.
#[derive(Drop)]
pub struct CallLog {
    bytes: Vec<u8>,
    /// Where the entries end.
    end: usize,
    is_begun: bool,
    is_whole: bool,
    ghost within: { end ≤ length bytes.items },
}

impl Model for CallLog {
    ghost use Rattle.std.specs.Prelude.{drop, take};
    ghost use Rattle.call_entries.specs.Log.{LogState};

    ghost Value = { LogState };

    ghost view = { λ l. record {
      bytes = take l.end l.bytes.items;
      is_begun = l.is_begun;
      begun = drop l.end l.bytes.items;
      is_whole = l.is_whole;
    } };
}

impl CallLog {
    /// No entry, and room for so many bytes.
    pub fn with_room(alloc: Global, room: usize) -> Result<CallLog, AllocError>
        ensures { IfOk result (λ log. log ≡ empty) }
    {
        let bytes = Vec::with_capacity(alloc, room)?;
        Ok(CallLog {
            bytes,
            end: 0,
            is_begun: false,
            is_whole: true,
        })
    }

    /// The bytes of the entries in order.
    pub fn as_slice(&self) -> &[u8]
        ensures { result.now ≡ self.now.bytes }
    {
        &self.bytes[..self.end]
    }

    /// Whether no entry is left out.
    pub fn is_whole(&self) -> bool
        ensures { result ≡ self.now.is_whole }
    {
        self.is_whole
    }

    /// Whether nothing was written down, and nothing left out.
    pub fn is_empty(&self) -> bool {
        self.is_whole && self.end == 0
    }

    /// There is no entry from here on.
    pub fn clear(&mut self)
        ensures { self.new ≡ empty }
    {
        self.bytes.clear();
        self.end = 0;
        self.is_begun = false;
        self.is_whole = true;
    }

    /// Writes a call down that is about to be made.
    pub fn begin(&mut self, caller: Caller, call: &Call)
        ensures { Begins caller call.now self.old self.new }
    {
        self.take_back();
        if !may_change(call) {
            return;
        }
        if !has_short_body(call) || !has_room(&self.bytes, MAX_ENTRY) {
            self.is_whole = false;
            return;
        }
        put_eight(&mut self.bytes, moment_of(call));
        put_call(&mut self.bytes, NOBODY, caller, call);
        self.is_begun = true;
    }

    /// The call has this answer. It stands in whoever was told it, since an answer is large, and would
    /// else be moved through memory to be looked at.
    #[inline(always)]
    pub fn end(&mut self, answer: &Answer)
        ensures { Ends (Some answer.now) self.old self.new }
    {
        if !self.is_begun {
            self.take_back();
            return;
        }
        if is_refusal(answer) {
            self.take_back();
            return;
        }
        if !has_room(&self.bytes, 8) {
            self.take_back();
            self.is_whole = false;
            return;
        }
        put_eight(&mut self.bytes, check_of(answer));
        self.end = self.bytes.len();
        self.is_begun = false;
    }

    /// The call has no answer.
    pub fn take_back(&mut self)
        ensures ends { Ends None self.old self.new }
        ensures none { self.new ≡ record self.old { is_begun = false; begun = [] } }
    {
        self.bytes.truncate(self.end);
        self.is_begun = false;
    }
}

/// Whether there is room for so many bytes more.
fn has_room(bytes: &Vec<u8>, more: usize) -> bool
    ensures { IsTrue result → length bytes.now.items + more ≤ vec_capacity bytes.now }
{
    let room = bytes.capacity();
    more <= room && bytes.len() <= room - more
}
