//! Events that are played together: on a kernel, or on a file from its opening to its closing.

use crate::calls;
use crate::keys::Keys;
use crate::line::Line;
use crate::lists::Lists;
use crate::seats::{FileKernel, SEAT_DEEDS, SeatDeed};
use crate::told::{tell_fault, tell_step};
use crate::words::{Words, Wrong};
use interleaving_core::OpenFault;
use interleavings::{EndFault, Event, Outcome, Played, are_of_seats, play_on, run};
use page_device::MemDevice;
use std::alloc::Global;
use std::mem;

/// The seats of a kernel that is opened for events, and its frames: four for each, and eight.
const SEATS: u8 = 5;

const FRAMES: usize = 28;

/// What events are told that are of no seat.
const NO_SEAT: Wrong = Wrong::Wanted("seats of the kernel");

/// More events than a row plays together.
const MOST_EVENTS: u32 = 1_000;

/// The names of events, as they are wanted.
const NAMES: &str = "begin, step, drive or stop";

/// The events that the words are, with a comma between each two.
pub fn read_events(alloc: Global, words: &mut Words<'_>) -> Result<Vec<Event>, Wrong> {
    let mut events = Vec::new(alloc);
    add_events(alloc, words, &mut events)?;
    Ok(events)
}

/// Adds these.
fn add_events(alloc: Global, words: &mut Words<'_>, events: &mut Vec<Event>) -> Result<(), Wrong> {
    for _ in 0..MOST_EVENTS {
        let Some(mut part) = words.part() else {
            break;
        };
        add_event(alloc, &mut part, events)?;
        part.end()?;
    }
    Ok(())
}

/// Adds one.
fn add_event(alloc: Global, words: &mut Words<'_>, events: &mut Vec<Event>) -> Result<(), Wrong> {
    let event = read_event(alloc, words)?;
    match events.push(event) {
        Ok(()) => Ok(()),
        Err(_) => Err(Wrong::NoMemory),
    }
}

/// An event: `begin` with a call, `step`, `drive` or `stop`. No call of an event has a moment.
fn read_event(alloc: Global, words: &mut Words<'_>) -> Result<Event, Wrong> {
    let deed = words.one_of(&SEAT_DEEDS, NAMES)?;
    if let SeatDeed::Stop = deed {
        return Ok(Event::Stop);
    }
    let seat = words.seat()?;
    match deed {
        SeatDeed::Begin => {
            let call = calls::read(alloc, words, 0)?;
            Ok(Event::Begin(seat, call))
        }
        SeatDeed::Step => Ok(Event::Step(seat)),
        SeatDeed::Drive => Ok(Event::Drive(seat)),
        _ => Err(Wrong::Wanted(NAMES)),
    }
}

/// Plays events on a kernel, and tells what came of each.
pub fn play(
    alloc: Global,
    kernel: &mut FileKernel,
    events: Vec<Event>,
    line: &mut Line,
) -> Result<(), Wrong> {
    if !are_of_seats(events.as_slice(), kernel.seats()) {
        return Err(NO_SEAT);
    }
    match run(alloc, kernel, events) {
        Ok(outcomes) => {
            tell_outcomes(line, outcomes.as_slice());
            Ok(())
        }
        Err(_) => Err(Wrong::NoMemory),
    }
}

/// Opens the file of a device, plays events and closes it. Tells what came of each, and how the
/// file was closed.
pub fn play_file(
    alloc: Global,
    device: &mut MemDevice,
    keys: Keys,
    lists: &mut Lists,
    events: Vec<Event>,
    line: &mut Line,
) -> Result<(), Wrong> {
    let callers = lists.callers(SEATS);
    let seats = callers.len();
    if callers.is_empty() || seats > 64 || !are_of_seats(events.as_slice(), seats as u8) {
        return Err(NO_SEAT);
    }
    let file = mem::replace(device, MemDevice::new(alloc));
    let played = play_on(alloc, file, keys, callers, FRAMES, events);
    put_back(device, played, lists, line)
}

/// The file is there again, and it is told what came of each event, or why it was not opened.
fn put_back(
    device: &mut MemDevice,
    played: Result<Played<MemDevice>, (MemDevice, OpenFault)>,
    lists: &mut Lists,
    line: &mut Line,
) -> Result<(), Wrong> {
    match played {
        Ok(played) => {
            tell_played(&played, lists, line);
            *device = played.device;
            Ok(())
        }
        Err((file, fault)) => {
            *device = file;
            tell_refusal(fault, line)
        }
    }
}

/// Tells why the file was not opened, where that was not for want of memory.
fn tell_refusal(fault: OpenFault, line: &mut Line) -> Result<(), Wrong> {
    if let OpenFault::NoMemory = fault {
        return Err(Wrong::NoMemory);
    }
    tell_fault(line, fault.number());
    Ok(())
}

/// Tells what came of each event, how many entries there are, and why the file was not closed well.
fn tell_played(played: &Played<MemDevice>, lists: &mut Lists, line: &mut Line) {
    tell_outcomes(line, played.outcomes.as_slice());
    line.mark(",");
    lists.tell(played.journal.as_slice(), line);
    tell_end(played.fault, line);
}

/// Tells why a file was not closed well.
fn tell_end(fault: Option<EndFault>, line: &mut Line) {
    match fault {
        None => {}
        Some(EndFault::Busy) => line.word("busy"),
        Some(EndFault::Close(fault)) => tell_fault(line, fault.number()),
    }
}

/// Tells what came of each event, with a comma between each two.
fn tell_outcomes(line: &mut Line, outcomes: &[Outcome]) {
    let mut is_first = true;
    for outcome in outcomes {
        if !is_first {
            line.mark(",");
        }
        is_first = false;
        match outcome {
            Outcome::Begun | Outcome::Stopped => line.word("ok"),
            Outcome::Refused(_, fault) => tell_fault(line, fault.number()),
            Outcome::Stepped(step) | Outcome::Driven(step) => tell_step(line, step, None),
        }
    }
}
