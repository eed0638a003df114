//! A script that is played on a kernel.

ghost use Rattle.std.specs.Prelude.{◌≡◌, ◌↔◌, IsTrue, length};
ghost use Rattle.std.specs.List.{list_all};
ghost use Rattle.replays.specs.Events.{Drives, GoesOn, HasEvent, IsEvent, IsReadied, Plays, PlaysAll, StepsOn, Stops};
ghost use Rattle.replays.specs.Events.{Times, line_under_way};
ghost use Rattle.replays.specs.Journal.{IsSoundReplay};
ghost use Rattle.replays.specs.Places.{is_idle_for_good};

use crate::deed::Deed;
use crate::keys::FileKeys;
use crate::line_events::{begin_next, step_line};
use crate::onlooker::{Onlooker, Sight};
use crate::progress::Progress;
use interleavings::interleaving_core::Kernel;
use page_device::PageDevice;
use schedules::Event;
use std::marker::Model;
use step_rules::Kind;

/// More steps than any call makes by itself.
pub const MOST_STEPS: u32 = 4_000_000;

/// A script whose lines are made by its seats beside one another, on a kernel.
#[derive(Drop)]
pub struct Replay<'a, D: PageDevice> {
    kernel: Kernel<D, FileKeys>,
    script: Progress<'a>,
}

impl<'a, D: PageDevice> Model for Replay<'a, D> {
    ghost use Rattle.replays.specs.Events.{ReplayState};
    ghost use Rattle.replays.specs.Journal.{IsSoundReplay};

    ghost Value = { ReplayState };

    ghost view = { λ r. record { kernel = r.kernel; script = r.script } };

    ghost invariant = { λ r. IsSoundReplay (record { kernel = r.kernel; script = r.script }) };
}

impl<'a, D: PageDevice + Drop> Replay<'a, D> {
    /// A script on a kernel that has as many seats, and has decided what its lines were replied.
    pub(crate) fn new(kernel: Kernel<D, FileKeys>, script: Progress<'a>) -> Replay<'a, D>
        requires { IsSoundReplay (record { kernel = kernel; script = script }) }
        ensures kernel { result.kernel ≡ kernel }
        ensures script { result.script ≡ script.entry }
    {
        Replay { kernel, script }
    }

    /// The kernel and the script.
    pub(crate) fn into_parts(self) -> (Kernel<D, FileKeys>, Progress<'a>)
        ensures kernel { result.0 ≡ self.entry.kernel }
        ensures script { result.1 ≡ self.entry.script }
    {
        let Replay { kernel, script } = self;
        (kernel, script)
    }

    /// What the lines of a seat were answered is always its part of the journal, but for an entry
    /// that it is still owed.
    pub fn is_sound(&self)
        ensures { IsSoundReplay self.now }
    {
        let _ = &self.script;
    }

    /// Whether no seat has a line that is under way or left.
    pub fn is_at_end(&self) -> bool
        ensures { result ≡ list_all is_idle_for_good self.now.script.places }
    {
        self.script.is_at_end()
    }

    /// How many seats there are. They count from 1.
    pub fn seats(&self) -> u8
        ensures { result ≡ length self.now.script.places }
    {
        self.kernel.seats()
    }

    /// How many lines with commands the script has.
    pub(crate) fn lines(&self) -> usize
        ensures { result ≡ length self.now.script.lines }
    {
        self.script.lines().len()
    }

    /// One event of a seat: where it is idle its next line is begun, else one step is made. A
    /// number that is no seat's does nothing.
    pub fn event<O: Onlooker>(&mut self, seat: u8, onlooker: &mut O) -> Deed
        ensures { IsEvent seat result self.old self.new }
    {
        match self.script.place(seat).under_way {
            Some(line) => step_line(&mut self.kernel, &mut self.script, seat, line, onlooker),
            None => begin_next(&mut self.kernel, &mut self.script, seat, onlooker),
        }
    }

    /// What a word of a schedule does.
    pub fn play<O: Onlooker>(&mut self, event: Event, onlooker: &mut O)
        ensures { Plays event self.old self.new }
    {
        match event {
            Event::Steps { seat, count } => self.events(seat, count, onlooker),
            Event::Drive { seat } => self.drive(seat, None, onlooker),
            Event::Until { seat, kind } => self.drive(seat, Some(kind), onlooker),
            Event::Stop => self.stop(onlooker),
        }
    }

    /// What the words of a schedule do, one after the other.
    pub fn play_all<O: Onlooker>(&mut self, events: &[Event], onlooker: &mut O)
        ensures { PlaysAll events.now self.old self.new }
    {
        for event in events {
            self.play(*event, onlooker);
        }
    }

    /// From here on no call waits.
    pub fn stop<O: Onlooker>(&mut self, onlooker: &mut O)
        ensures { Stops self.old self.new }
    {
        self.kernel.stop();
        onlooker.see(Sight::Stop, self.kernel.locks());
    }

    /// So many events of a seat.
    fn events<O: Onlooker>(&mut self, seat: u8, count: u32, onlooker: &mut O)
        ensures { Times (HasEvent seat) count self.old self.new }
    {
        for _ in 0..count {
            self.event(seat, onlooker);
        }
    }

    /// Where a seat is idle its next line is begun. Then it is driven for as long as it moves, or up
    /// to its first step of this kind.
    fn drive<O: Onlooker>(&mut self, seat: u8, last: Option<Kind>, onlooker: &mut O)
        ensures { Drives seat last self.old self.new }
    {
        self.ready(seat, onlooker);
        if self.script.place(seat).under_way.is_some() {
            self.step_on(seat, last, onlooker);
        }
    }

    /// Where a seat is idle its next line is begun.
    fn ready<O: Onlooker>(&mut self, seat: u8, onlooker: &mut O)
        ensures { IsReadied seat (line_under_way seat self.old) self.old self.new }
    {
        if self.script.place(seat).under_way.is_none() {
            self.event(seat, onlooker);
        }
    }

    /// Steps of a seat for as long as it moves, or up to the first of this kind.
    fn step_on<O: Onlooker>(&mut self, seat: u8, last: Option<Kind>, onlooker: &mut O)
        ensures { StepsOn seat last self.old self.new }
    {
        for _ in 0..MOST_STEPS {
            if !goes_on(self.event(seat, onlooker), last) {
                return;
            }
        }
    }
}

/// Whether a drive goes on behind an event of its seat: a step, and not the last.
fn goes_on(deed: Deed, last: Option<Kind>) -> bool
    ensures { IsTrue result ↔ GoesOn last deed }
{
    match (deed, last) {
        (Deed::Moved(kind), Some(last)) => kind != last,
        (Deed::Moved(_), None) => true,
        _ => false,
    }
}
