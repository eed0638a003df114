//! The slots: a table of names by linear probing. It is a circle, and a name that is taken out
//! leaves no hole (Knuth, The Art of Computer Programming, volume 3, section 6.4, algorithm R).

ghost use Rattle.std.specs.Prelude.{◌≡◌, ◌<◌, ◌≤◌, ℕ, true, false, length, IfOk};
ghost use Rattle.page_locks.specs.Holding.{is_nobody, nobody};
ghost use Rattle.page_locks.specs.declared.lock.LockName.{LockName};
ghost use Rattle.page_locks.specs.Probing.{home, after, slot_at, is_open, holders_of};
ghost use Rattle.page_locks.specs.Probing.{IsProbed, IsOpened, IsSpot, HasFewNames, HasFree, HasFreeBut, HasHomesApart, ChangesName};

use crate::holders::Holders;
use crate::lock::LockName;
use crate::slot::{SLOTS, Slot, home, way};
use numbers::faults::NoMemory;
use std::alloc::Global;
use std::marker::Model;

/// Where a name stands or may be put, how many slots were looked at to find that, and who holds it.
#[derive(Clone, Copy)]
pub struct Spot {
    pub place: usize,
    pub looked: u32,
    pub holders: Holders,
}

/// A map from names to those who hold them.
#[derive(Drop)]
pub struct Slots {
    slots: Vec<Slot>,
}

impl Model for Slots {
    ghost use Rattle.std.specs.Prelude.{List};
    ghost use Rattle.page_locks.specs.declared.slot.Slot.{Slot};
    ghost use Rattle.page_locks.specs.Probing.{IsProbed};

    ghost Value = { List Slot };

    ghost view = { λ s. s.slots.items };

    ghost invariant = { λ s. IsProbed s.slots.items };
}

impl Slots {
    /// A table in which no name stands.
    pub fn new(alloc: Global) -> Result<Slots, NoMemory>
        ensures { IfOk result (λ slots. (name : LockName) → holders_of slots name ≡ nobody) }
    {
        let mut slots = Vec::with_capacity(alloc, SLOTS)?;
        for _ in 0..SLOTS {
            slots.push(Slot::FREE)?;
        }
        Ok(Slots { slots })
    }

    /// Where the name stands, else the first free slot from its home on. It stands in whoever asks, as
    /// do its parts: most names stand at their homes, and a call costs more than one look.
    #[inline(always)]
    pub fn spot(&self, name: LockName) -> Spot
        requires few { HasFewNames self.now }
        ensures spot { IsSpot self.now name result.place }
        ensures holders { result.holders ≡ holders_of self.now name }
        ensures once { HasHomesApart self.now name → result.looked ≡ 1 }
        ensures within { 1 ≤ result.looked }
    {
        let first = home(name);
        let steps = steps_to(&self.slots, name, first);
        let place = (first + steps) % SLOTS;
        Spot {
            place,
            looked: steps as u32 + 1,
            holders: self.slots[place].holders,
        }
    }

    /// Gives a name these holders, of which there is one, at its spot.
    pub fn put(&mut self, name: LockName, place: usize, holders: Holders)
        requires some { is_nobody holders ≡ false }
        requires spot { IsSpot self.old name place }
        ensures { ChangesName name holders self.old self.new }
    {
        self.slots[place] = Slot { name, holders };
    }

    /// Gives a name these holders, at its spot. Where there are none its slot becomes free.
    #[inline(always)]
    pub fn store(&mut self, name: LockName, place: usize, holders: Holders)
        requires few { HasFewNames self.old }
        requires spot { IsSpot self.old name place }
        ensures { ChangesName name holders self.old self.new }
    {
        if !holders.is_nobody() {
            self.put(name, place, holders);
            return;
        }
        if self.slots[place].holders.is_nobody() {
            return;
        }
        self.slots[place] = Slot::FREE;
        close_up(self.slots.as_mut_slice(), place);
    }
}

/// How many steps lead from the home of a name to its spot: none, where nobody else's name stands
/// there.
#[inline(always)]
fn steps_to(slots: &[Slot], name: LockName, first: usize) -> usize
    requires first { first ≡ home name }
    requires as_many { length slots.now ≡ SLOTS }
    requires free { HasFree slots.now }
    ensures within { result < SLOTS }
    ensures passed { (u : ℕ) → u < result →
        is_open name (slot_at slots.now (after (home name) u)) ≡ false }
    ensures open { is_open name (slot_at slots.now (after (home name) result)) ≡ true }
{
    if slots[first].is_open_to(name) {
        return 0;
    }
    steps_past(slots, name)
}

/// The same, slot by slot.
#[inline(always)]
fn steps_past(slots: &[Slot], name: LockName) -> usize
    requires as_many { length slots.now ≡ SLOTS }
    requires free { HasFree slots.now }
    ensures within { result < SLOTS }
    ensures passed { (u : ℕ) → u < result →
        is_open name (slot_at slots.now (after (home name) u)) ≡ false }
    ensures open { is_open name (slot_at slots.now (after (home name) result)) ≡ true }
{
    let first = home(name);
    for steps in 0..SLOTS {
        if slots[(first + steps) % SLOTS].is_open_to(name) {
            return steps;
        }
    }
    unreachable!()
}

/// Moves names back over a slot that has become free, until none had passed it. None had where the
/// next slot is free, as it is mostly.
#[inline(always)]
fn close_up(slots: &mut [Slot], start: usize)
    requires opened { IsOpened slots.old start }
    requires free { HasFreeBut start slots.old }
    ensures probed { IsProbed slots.new }
    ensures same { (name : LockName) → holders_of slots.new name ≡ holders_of slots.old name }
{
    if slots[(start + 1) % SLOTS].holders.is_nobody() {
        return;
    }
    move_back(slots, start);
}

/// The same, name by name.
#[inline(never)]
fn move_back(slots: &mut [Slot], start: usize)
    requires opened { IsOpened slots.old start }
    requires free { HasFreeBut start slots.old }
    ensures probed { IsProbed slots.new }
    ensures same { (name : LockName) → holders_of slots.new name ≡ holders_of slots.old name }
{
    let mut hole = 0;
    for steps in 1..SLOTS {
        let place = (start + steps) % SLOTS;
        let slot = slots[place];
        if slot.holders.is_nobody() {
            return;
        }
        // a name whose home comes after the hole stays
        if way(slot.name, place) + hole < steps {
            continue;
        }
        slots[(start + hole) % SLOTS] = slot;
        slots[place] = Slot::FREE;
        hole = steps;
    }
    unreachable!()
}
