//! The durable desk.

ghost use Rattle.std.specs.Prelude.{◌≡◌, ◌||◌, IfErr, IfOk, IsTrue, OnOk, false, length, true};
ghost use Rattle.session.specs.Session.{pages_of};
ghost use Rattle.call_entries.specs.Log.{Notes};
ghost use Rattle.desk.specs.Desk.{Asks, Cancels, Leaves, Stops, TellsAndNotes, noted_of};
ghost use Rattle.desk.specs.History.{is_failure, tells_failure};
ghost use Rattle.durable_desk.specs.Durable.{Commits, IsCutShort, IsReady, KeepsFile};
ghost use Rattle.durable_desk.specs.Opening.{MayNotOpenFile, OpensFile};
ghost use Rattle.durable_desk.specs.Room.{AddsNoCalls, HasNoCalls, lacks_room, tells_no_room};

use crate::commit::{Uncommitted, bring, keep};
use crate::opening::{OpenRefusal, remade};
use call_entries::CallLog;
use desk::session::queue_model::{Answer, Call, Caller};
use desk::session::{OpenFault, Unanswered};
use desk::{Desk, Told};
use safe_device::{PagePair, SafeDevice};
use std::alloc::Global;
use std::marker::Model;

/// A checkpoint is made in place of a note that would bring the bytes of the calls in the journal
/// above this: about as much as is made again in half a second.
const MOST_NOTED: u64 = 8_388_608;

/// The calls of many clients over a file that a crash leaves as at a commit. What is answered is in
/// memory until the next commit notes it in the journal, or brings it to the file. Whoever is told
/// of an answer only behind a commit finds it after any crash.
#[derive(Drop)]
pub struct DurableDesk<P: PagePair> {
    desk: Desk,
    device: SafeDevice<P>,
    /// The calls that were decided since the last commit.
    log: CallLog,
    /// How many bytes of calls the journal has, at most.
    noted: u64,
    /// A call lacked room since the last checkpoint. It is not noted, and what it inserted on trial
    /// may have left the pages otherwise than calls that are made again find them.
    lacked_room: bool,
    /// A commit has failed, or the desk has.
    has_failed: bool,
}

impl<P: PagePair> Model for DurableDesk<P> {
    ghost use Rattle.durable_desk.specs.Durable.{DurableState, IsDurable};

    ghost Value = { DurableState P };

    ghost view = { λ d. record {
      desk = d.desk;
      device = d.device;
      log = d.log;
      lacked_room = d.lacked_room;
      has_failed = d.has_failed;
    } };

    ghost invariant = { λ d. IsDurable P.is_honest P.may_leave d.desk d.device d.has_failed };
}

impl<P: PagePair> DurableDesk<P> {
    /// Opens the file of a device, as it was recovered: its pages are read into memory and checked,
    /// and the calls behind them are made again. Nothing is written. So many calls may wait at a
    /// time, and those of so many bytes be noted at once, for which memory is taken here; with no
    /// room each commit is a checkpoint. Ids that may be those of queues are put last among `seen`.
    ///
    /// # Errors
    ///
    /// The first thing that is wrong with the file, a transfer that failed, or no memory; or a call
    /// behind its pages is answered otherwise than it was.
    pub fn open(
        alloc: Global,
        device: SafeDevice<P>,
        most: usize,
        room: usize,
        seen: &mut Vec<u32>,
    ) -> Result<DurableDesk<P>, OpenRefusal>
    where
        P: Drop,
        requires { IsTrue P.is_honest → IsReady P.may_leave device }
        ensures ok { IfOk result (OpensFile P.is_honest P.may_leave device most) }
        ensures refused { IfErr result (MayNotOpenFile P.is_honest device) }
    {
        let mut device = device;
        let Ok(log) = CallLog::with_room(alloc, room) else {
            return Err(OpenRefusal::File(OpenFault::NoMemory));
        };
        let desk = remade(alloc, &mut device, most, seen)?;
        // (where some were made again, the next commit is a checkpoint)
        let noted = if device.noted_count() == 0 {
            0
        } else {
            MOST_NOTED
        };
        Ok(DurableDesk {
            desk,
            device,
            log,
            noted,
            lacked_room: false,
            has_failed: false,
        })
    }

    /// A client asks for a call, as of a `Desk`. What is answered is not yet in the file.
    ///
    /// # Errors
    ///
    /// As those of a `Desk`.
    pub fn ask(&mut self, client: u64, caller: Caller, call: Call) -> Result<Answer, Unanswered>
        ensures asks { Asks (record { client = client; caller = caller; call = call }) result
            self.old.desk self.new.desk }
        ensures notes { Notes
            (noted_of (record { client = client; caller = caller; call = call }) result)
            self.old.log self.new.log }
        ensures file { KeepsFile (is_failure result) self.old self.new }
        ensures room { self.new.lacked_room ≡ (self.old.lacked_room || lacks_room result) }
    {
        let reply = self.desk.ask(client, caller, call, &mut self.log);
        self.has_failed = self.has_failed || is_failure(&reply);
        self.lacked_room |= lacks_room(&reply);
        reply
    }

    /// Answers the call that came first of those that wait and have an answer now; none where none
    /// of them has one. What is answered is not yet in the file.
    pub fn next(&mut self) -> Option<Told>
        ensures tells { TellsAndNotes result self.old.desk self.new.desk
            self.old.log self.new.log }
        ensures file { KeepsFile (tells_failure result) self.old self.new }
        ensures room { self.new.lacked_room ≡ (self.old.lacked_room || tells_no_room result) }
    {
        let told = self.desk.next(&mut self.log);
        self.has_failed = self.has_failed || tells_failure(&told);
        self.lacked_room |= tells_no_room(&told);
        told
    }

    /// The calls of a client that wait are withdrawn. Whether there was one.
    pub fn cancel(&mut self, client: u64) -> bool
        ensures cancels { Cancels client result self.old.desk self.new.desk }
        ensures file { KeepsFile false self.old self.new }
        ensures log { self.new.log ≡ self.old.log }
        ensures room { self.new.lacked_room ≡ self.old.lacked_room }
    {
        self.desk.cancel(client)
    }

    /// The same for the calls of all clients of a connection, for one that has ended.
    pub fn leave(&mut self, connection: u32) -> bool
        ensures leaves { Leaves connection result self.old.desk self.new.desk }
        ensures file { KeepsFile false self.old self.new }
        ensures log { self.new.log ≡ self.old.log }
        ensures room { self.new.lacked_room ≡ self.old.lacked_room }
    {
        self.desk.leave(connection)
    }

    /// Stops the system: from here on a call that would wait is refused EINTR, also one that waits.
    /// The file holds no such mark.
    pub fn stop(&mut self)
        ensures stops { Stops self.old.desk self.new.desk }
        ensures file { KeepsFile false self.old self.new }
        ensures log { self.new.log ≡ self.old.log }
        ensures room { self.new.lacked_room ≡ self.old.lacked_room }
    {
        self.desk.stop();
    }

    /// Brings all that was answered to where it outlasts a crash: the calls that may have changed the
    /// system are noted in the journal, with one addition and one wait; where there is none nothing
    /// is done. A checkpoint is made in place of a note where some were left out, where the journal
    /// has grown long, and where a call lacked room since the last one. A crash meanwhile leaves what
    /// was committed last, or this.
    ///
    /// # Errors
    ///
    /// Why it could not be brought there. From here on no commit is made.
    pub fn commit(&mut self) -> Result<(), Uncommitted>
        ensures becomes { Commits P.is_honest P.may_leave result self.old self.new }
        ensures any_moment { IsCutShort P.is_honest P.moment P.left_since self.old self.new }
        ensures room { OnOk result (AddsNoCalls P.is_honest self.old self.new) }
    {
        if self.has_failed {
            return Err(Uncommitted::Earlier);
        }
        let some = self.log.as_slice().len() as u64;
        let noted = self.noted.saturating_add(some);
        let is_due = is_due(some, noted, self.lacked_room);
        let kept = keep(&mut self.desk, &mut self.device, &mut self.log, is_due);
        self.noted = if is_due { 0 } else { noted };
        self.lacked_room &= !is_due;
        self.has_failed = kept.is_err();
        kept
    }

    /// A commit that ends the calls in the journal: the pages that have changed since the last
    /// checkpoint are written to the file, and the device is synced.
    ///
    /// # Errors
    ///
    /// As of `commit`.
    pub fn checkpoint(&mut self) -> Result<(), Uncommitted>
        ensures becomes { Commits P.is_honest P.may_leave result self.old self.new }
        ensures any_moment { IsCutShort P.is_honest P.moment P.left_since self.old self.new }
        ensures ended { OnOk result (HasNoCalls P.is_honest self.new.device) }
    {
        if self.has_failed {
            return Err(Uncommitted::Earlier);
        }
        let brought = bring(&mut self.desk, &mut self.device, &mut self.log);
        self.noted = 0;
        self.lacked_room = false;
        self.has_failed = brought.is_err();
        brought
    }

    /// Whether a commit has failed, or a client was told that the file has. From there on no commit
    /// is made.
    pub fn has_failed(&self) -> bool
        ensures { result ≡ self.now.has_failed }
    {
        self.has_failed
    }

    /// How many calls wait: no more than may.
    pub fn waiting(&self) -> usize
        ensures { result ≡ length self.now.desk.waiting }
    {
        self.desk.waiting()
    }

    /// How many times a call that waits was tried so far: what `next` costs.
    pub fn tries(&self) -> u64 {
        self.desk.tries()
    }

    /// How many pages the file has.
    pub fn pages(&self) -> u32
        ensures { result ≡ pages_of self.now.desk.session }
    {
        self.desk.pages()
    }

    /// Both files, for who opens the next device over them.
    pub fn into_pair(self) -> P
        ensures { result ≡ self.device.pair }
    {
        self.device.into_pair()
    }
}

/// Whether a commit that has so many bytes of calls, with which the journal has so many, is to be a
/// checkpoint.
fn is_due(some: u64, noted: u64, lacked_room: bool) -> bool
    ensures { lacked_room ≡ true → result ≡ false → some ≡ 0 }
{
    some > 0 && (lacked_room || noted > MOST_NOTED)
}

/// Whether a client is told that the file has failed.
fn is_failure(reply: &Result<Answer, Unanswered>) -> bool
    ensures { result ≡ is_failure reply.now }
{
    matches!(reply, Err(Unanswered::Failed))
}

/// The same of one that waited.
fn tells_failure(told: &Option<Told>) -> bool
    ensures { result ≡ tells_failure told.now }
{
    match told {
        None => false,
        Some(told) => is_failure(&told.reply),
    }
}

/// Whether a client is told that there is no room.
fn lacks_room(reply: &Result<Answer, Unanswered>) -> bool
    ensures { result ≡ lacks_room reply.now }
{
    matches!(reply, Err(Unanswered::NoRoom))
}

/// The same of one that waited.
fn tells_no_room(told: &Option<Told>) -> bool
    ensures { result ≡ tells_no_room told.now }
{
    match told {
        None => false,
        Some(told) => lacks_room(&told.reply),
    }
}
