//! The table: who holds what.

ghost use Rattle.std.specs.Prelude.{◌≡◌, ◌<◌, ◌≤◌, ◌-◌, ◌↔◌, [], length, replicate, slice_get, None, IsSome, IsTrue, IfOk};
ghost use Rattle.page_locks.specs.Grants.{OnGranted, IfBlocked, IsBlocked};
ghost use Rattle.page_locks.specs.Table.{row_of, held, with_lock, without_lock, with_kind};
ghost use Rattle.page_locks.specs.Table.{IsSeat, Opposes, IsOpposed, IsLawful, IsPairwiseCompatible};
ghost use Rattle.page_locks.specs.Ties.{AreHomesApart, IsUnheld};

use crate::grant::{Attempt, Grant};
use crate::lock::{Lock, LockKind, LockName};
use crate::row::{MAX_LOCKS, Row};
use crate::slots::Slots;
use numbers::faults::NoMemory;
use std::alloc::Global;
use std::marker::Model;

/// The most seats of a table.
pub const MAX_SEATS: u8 = 64;

/// What each seat holds. Seats count from 1. Each seat has a row of the names that it holds, and
/// each name that is held a slot with its holders, so that one slot answers who stands in the way.
#[derive(Drop)]
pub struct LockTable {
    rows: Vec<Row>,
    slots: Slots,
    looked: u32,
}

impl Model for LockTable {
    ghost use Rattle.page_locks.specs.Table.{Table};
    ghost use Rattle.page_locks.specs.Ties.{IsSoundTable};

    ghost Value = { Table };

    ghost view = { λ t. t.rows.items };

    ghost invariant = { λ t. IsSoundTable t.slots t.rows.items t.looked };
}

impl LockTable {
    /// A table for this many seats, none of which holds a lock.
    pub fn new(alloc: Global, seats: u8) -> Result<LockTable, NoMemory>
        requires some { 1 ≤ seats }
        requires few { seats ≤ MAX_SEATS }
        ensures { IfOk result (λ table. table ≡ replicate seats []) }
    {
        let slots = Slots::new(alloc)?;
        let mut rows = Vec::with_capacity(alloc, seats as usize)?;
        for _ in 0..seats {
            rows.push(Row::new())?;
        }
        Ok(LockTable {
            rows,
            slots,
            looked: 0,
        })
    }

    /// How many seats there are.
    pub fn seats(&self) -> u8
        ensures { result ≡ length self.now }
    {
        self.rows.len() as u8
    }

    /// Whether the seat holds as many locks as a seat may.
    pub fn is_full(&self, seat: u8) -> bool
        requires seat { IsSeat self.now seat }
        ensures { IsTrue result ↔ (MAX_LOCKS ≤ length (row_of self.now seat)) }
    {
        self.row(seat).len() >= MAX_LOCKS
    }

    /// The lock that the seat was granted last, of those that it holds.
    pub fn last(&self, seat: u8) -> Option<Lock>
        requires seat { IsSeat self.now seat }
        ensures { result ≡ slice_get (row_of self.now seat) (length (row_of self.now seat) - 1) }
    {
        self.row(seat).last()
    }

    /// The kind in which the seat holds the name.
    pub fn holds(&self, seat: u8, name: LockName) -> Option<LockKind>
        requires seat { IsSeat self.now seat }
        ensures { result ≡ held self.now seat name }
    {
        self.row(seat).kind_of(name)
    }

    /// Grants the seat the name in this kind. It is blocked exactly where another seat holds the
    /// name in a kind that does not go with this one, and is told such a seat.
    pub fn try_grant(&mut self, seat: u8, name: LockName, kind: LockKind) -> Grant
        requires seat { IsSeat self.old seat }
        requires room { length (row_of self.old seat) < MAX_LOCKS }
        requires fresh { held self.old seat name ≡ None }
        ensures ok { OnGranted result (self.new ≡ with_lock self.old seat name kind) }
        ensures busy { IsBlocked result ↔ IsOpposed self.old seat name kind }
        ensures blocked { IfBlocked result (Opposes self.old seat name kind) }
        ensures same { IfBlocked result (λ _. self.new ≡ self.old) }
    {
        self.attempt(seat, name, kind).grant
    }

    /// `try_grant`, which also tells how many slots were looked at: one, where no two of the names
    /// that are held or asked for have one home.
    pub fn attempt(&mut self, seat: u8, name: LockName, kind: LockKind) -> Attempt
        requires seat { IsSeat self.old seat }
        requires room { length (row_of self.old seat) < MAX_LOCKS }
        requires fresh { held self.old seat name ≡ None }
        ensures ok { OnGranted result.grant (self.new ≡ with_lock self.old seat name kind) }
        ensures busy { IsBlocked result.grant ↔ IsOpposed self.old seat name kind }
        ensures blocked { IfBlocked result.grant (Opposes self.old seat name kind) }
        ensures same { IfBlocked result.grant (λ _. self.new ≡ self.old) }
        ensures once { AreHomesApart self.old name → result.looked ≡ 1 }
        ensures within { 1 ≤ result.looked }
    {
        let spot = self.slots.spot(name);
        self.looked = spot.looked;
        if let Some(other) = spot.holders.opponent(seat, kind) {
            return Attempt {
                grant: Grant::Blocked(other),
                looked: spot.looked,
            };
        }
        self.slots
            .put(name, spot.place, spot.holders.with(seat, kind));
        self.rows[seat as usize - 1].push(Lock { name, kind });
        Attempt {
            grant: Grant::Granted,
            looked: spot.looked,
        }
    }

    /// Whether `try_grant` would be blocked. Nothing changes.
    pub fn is_opposed(&self, seat: u8, name: LockName, kind: LockKind) -> bool
        requires seat { IsSeat self.now seat }
        ensures { IsTrue result ↔ IsOpposed self.now seat name kind }
    {
        // Nobody is in the way of a seat that is alone.
        if self.rows.len() == 1 {
            return false;
        }
        self.has_opponent(seat, name, kind)
    }

    /// How many slots the last `try_grant` or `attempt` looked at, from the name's home to where it
    /// stood or was put, both counted; 0 before the first.
    pub fn looked(&self) -> u32
        ensures begun { result ≡ 0 → IsUnheld self.now }
    {
        self.looked
    }

    /// Takes the name back from the seat. A name that the seat does not hold changes nothing.
    pub fn release(&mut self, seat: u8, name: LockName)
        requires seat { IsSeat self.old seat }
        ensures { self.new ≡ without_lock self.old seat name }
    {
        let spot = self.slots.spot(name);
        self.slots
            .store(name, spot.place, spot.holders.without(seat));
        self.rows[seat as usize - 1].remove(name);
    }

    /// Changes the kind in which the seat holds the name. It is blocked as in `try_grant`.
    pub fn convert(&mut self, seat: u8, name: LockName, kind: LockKind) -> Grant
        requires seat { IsSeat self.old seat }
        requires held { IsSome (held self.old seat name) }
        ensures ok { OnGranted result (self.new ≡ with_kind self.old seat name kind) }
        ensures busy { IsBlocked result ↔ IsOpposed self.old seat name kind }
        ensures blocked { IfBlocked result (Opposes self.old seat name kind) }
        ensures same { IfBlocked result (λ _. self.new ≡ self.old) }
    {
        let spot = self.slots.spot(name);
        if let Some(other) = spot.holders.opponent(seat, kind) {
            return Grant::Blocked(other);
        }
        let holders = spot.holders.without(seat).with(seat, kind);
        self.slots.store(name, spot.place, holders);
        self.rows[seat as usize - 1].convert(name, kind);
        Grant::Granted
    }

    /// What is true of every table: its limits, no name twice in a row, and that locks go together.
    pub fn keeps_limits(&self)
        ensures { IsLawful self.now }
    {
        let _ = &self.rows;
    }

    /// In every table two seats hold one name in compatible kinds, or one of them does not hold it.
    pub fn locks_are_compatible(&self)
        ensures { IsPairwiseCompatible self.now }
    {
        let _ = &self.rows;
    }

    /// Whether another seat holds the name in a kind that does not go with this one.
    fn has_opponent(&self, seat: u8, name: LockName, kind: LockKind) -> bool
        requires seat { IsSeat self.now seat }
        ensures { IsTrue result ↔ IsOpposed self.now seat name kind }
    {
        let spot = self.slots.spot(name);
        spot.holders.opponent(seat, kind).is_some()
    }

    /// The row of a seat.
    fn row(&self, seat: u8) -> &Row
        requires seat { IsSeat self.now seat }
        ensures { result.now ≡ row_of self.now seat }
    {
        &self.rows[seat as usize - 1]
    }
}
