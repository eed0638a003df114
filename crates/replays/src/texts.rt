//! Scripts and schedules that are given as texts, replayed on the file of a device.

ghost use Rattle.std.specs.Prelude.{◌≡◌};
ghost use Rattle.replays.specs.Replays.{IsScheduleRefused};
ghost use Rattle.replays.specs.Texts.{PlaysTexts};

use crate::ending::{Ran, run};
use crate::onlooker::Trace;
use crate::opening::{leave_refused, open};
use msgq_cli::{Ending, Output, Stage, complain_of, fail, print_word, read_script, refuse};
use numbers::faults;
use page_device::PageDevice;
use schedules::{Expected, ScheduleError, read_schedule, word_at};
use std::alloc::Global;
use std::io::Write;

/// The texts of a replay, and whether it is traced.
#[derive(Clone, Copy)]
pub struct Texts<'a> {
    /// The script.
    pub script: &'a [u8],
    /// The schedule.
    pub schedule: &'a [u8],
    /// Each event is told on standard error.
    pub is_traced: bool,
}

/// Runs the lines of several seats beside one another on the file of a device: those that the first
/// text spells, by the schedule that the second spells.
///
/// Nothing is run where one of them is wrong; fault 60 alone where there is no memory to read them.
/// Then the file is opened for the script's seats: of an honest device that is the file of one
/// system, from which the lines are run; or the number of the first thing that is wrong with it
/// stands alone, or 20 where a transfer failed. What is printed, and what is left, is what `run`
/// says; where nothing is to be written the file is as it was before.
/// The device comes back, as honest as it was; nothing was written where nothing was run. A trace
/// changes nothing of this.
pub fn replay_on<D: PageDevice + Drop, W: Write + Drop, E: Write>(
    alloc: Global,
    device: D,
    texts: Texts,
    output: &mut Output<W>,
    errors: &mut E,
) -> Ran<D>
    ensures played { PlaysTexts texts.entry.script.now texts.entry.schedule.now (D.is_honest device)
        (record {
          content = D.content device;
          left = D.content result.device;
          synced = D.is_synced result.device;
          was = D.fault_count device;
          faults = D.fault_count result.device;
          old = output.old;
          new = output.new;
          untold = result.is_untold;
        }) result.ending }
    ensures same { D.is_honest result.device ≡ D.is_honest device }
{
    let script = match read_script(alloc, texts.script) {
        Ok(script) => script,
        Err(error) => {
            return Ran::unrun(device, refuse(alloc, error, texts.script, output, errors));
        }
    };
    let events = match read_schedule(alloc, texts.schedule) {
        Ok(events) => events,
        Err(error) => {
            let ending = refuse_schedule(alloc, error, texts.schedule, output, errors);
            return Ran::unrun(device, ending);
        }
    };
    match open(alloc, device, &script) {
        Ok(replay) => {
            let mut trace = Trace::new(alloc, &mut *errors, texts.is_traced);
            run(replay, events.as_slice(), output, &mut trace)
        }
        Err((device, fault)) => Ran::unrun(device, leave_refused(fault, output)),
    }
}

/// Ends a replay whose schedule is not read.
pub(crate) fn refuse_schedule<W: Write + Drop, E: Write>(
    alloc: Global,
    error: ScheduleError,
    text: &[u8],
    output: &mut Output<W>,
    errors: &mut E,
) -> Ending
    ensures { IsScheduleRefused error output.old output.new result }
{
    match error {
        ScheduleError::WrongWord { word } => {
            complain_of_word(alloc, text, word, errors);
            Ending::WrongWord(word)
        }
        ScheduleError::NoMemory => {
            let ending = fail(Stage::Reading, faults::NO_MEMORY, output);
            complain_of("the schedule", ending, errors);
            ending
        }
    }
}

/// `schedule word N`, and below it the word and what could stand there.
fn complain_of_word<E: Write>(alloc: Global, text: &[u8], number: u64, errors: &mut E) {
    let _ = writeln!(errors, "schedule word {number}");
    let Some(word) = word_at(alloc, text, number) else {
        return;
    };
    let _ = print_word(word, errors);
    let expected = Expected::of(word);
    let _ = writeln!(errors, "  could stand there: {expected}");
}
