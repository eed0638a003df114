//! Scripts run on the file of a device, and on a file in memory.

ghost use Rattle.std.specs.Prelude.{◌≡◌, ◌⊎◌, ℕ, false, true, IsTrue, None, Option, length};
ghost use Rattle.interleavings.specs.LoneKernelWords.{State};
ghost use Rattle.session_runs.specs.PlainRuns.{RunsPlainly};
ghost use Rattle.session_runs.specs.Runs.{EndsWell, Stands};
ghost use Rattle.session_runs.specs.Serves.{RunsInput, RunsOn, RunsText, RunsTextOn};
ghost use Rattle.session_runs.specs.Spelled.{RunsSpelled};
ghost use Rattle.session.specs.Session.{Holds, pages_of, saved_of};

use crate::runs::run_lines;
use interleavings::a_new_file_has_no_queues;
use interleavings::interleaving_core::Failure;
use msgq_cli::record_file::format;
use msgq_cli::{
    Ending, Output, Script, Stage, complain_of, fail, read_script, read_text, refuse, unread,
};
use numbers::faults;
use page_device::{MemDevice, PageDevice};
use replays::{Ran, leave_refused, tell_end};
use session::Session;
use std::alloc::Global;
use std::io::{Read, Write};

/// How many pages the file in memory has on which a script of standard input is run.
pub const MEMORY_PAGES: u32 = 352;

/// What its faults are told of.
const MEMORY: &str = "the file in memory";

/// Runs the script that a reader gives on a new file in memory, from the empty system.
///
/// As `serve_text`, and where the reader fails otherwise than for want of memory fault 20 alone.
pub fn serve<R: Read, W: Write + Drop, E: Write>(
    alloc: Global,
    reader: &mut R,
    output: &mut Output<W>,
    errors: &mut E,
) -> Ending
    ensures { RunsInput (R.remaining reader.old) output.old output.new result }
{
    match read_text(alloc, reader) {
        Ok(text) => serve_text(alloc, text.as_slice(), output, errors),
        Err(error) => unread("standard input", &error, output, errors),
    }
}

/// Runs a text as a script on a new file in memory, from the empty system.
///
/// A wrong script runs nothing. Fault 60 alone where there is no memory to read the script or
/// to make the file.
pub fn serve_text<W: Write + Drop, E: Write>(
    alloc: Global,
    text: &[u8],
    output: &mut Output<W>,
    errors: &mut E,
) -> Ending
    ensures { RunsText text.now output.old output.new result }
{
    let script = match read_script(alloc, text) {
        Ok(script) => script,
        Err(error) => return refuse(alloc, error, text, output, errors),
    };
    let mut device = MemDevice::new(alloc);
    if let Err(fault) = format(&mut device, MEMORY_PAGES) {
        let ending = fail(Stage::Making, fault.number(), output);
        complain_of(MEMORY, ending, errors);
        return ending;
    }
    a_new_file_has_no_queues();
    let ending = run_on(alloc, device, &script, output).ending;
    complain_of(MEMORY, ending, errors);
    ending
}

/// Runs a text as a script on the file of a device, and closes the file.
///
/// A wrong script runs nothing, and fault 60 alone stands where there is no memory to read it: then
/// the device comes back as it was. Else it is as `run_on` says.
pub fn run_text_on<D: PageDevice + Drop, W: Write + Drop, E: Write>(
    alloc: Global,
    device: D,
    text: &[u8],
    output: &mut Output<W>,
    errors: &mut E,
) -> Ran<D>
    ensures served { RunsTextOn text.now (D.is_honest device)
        (record {
          content = D.content device;
          left = D.content result.device;
          synced = D.is_synced result.device;
          was = D.fault_count device;
          faults = D.fault_count result.device;
          old = output.old;
          new = output.new;
          untold = result.is_untold;
        }) result.ending }
    ensures same { D.is_honest result.device ≡ D.is_honest device }
{
    match read_script(alloc, text) {
        Ok(script) => run_on(alloc, device, &script, output),
        Err(error) => Ran::unrun(device, refuse(alloc, error, text, output, errors)),
    }
}

/// Runs a script on the file of a device, and closes the file once all answers were handed on.
///
/// The file is checked first. Where the device is honest, it is that of one system, from which the
/// script is run; or the first thing that is wrong is told by its number alone. Fault 60 alone where
/// there is no memory to open it. What is told has happened: the output took all answers, and the
/// file is then one of the system that the script leaves, on a device that is synced. What can't be
/// told did not: where the output refuses a write, the kernel is let go, and nothing was written:
/// the file is as it was before. So it is where a line fails. The device may fail when the file is
/// opened, then fault 20 stands alone; while a line is run, which is then replied 62, as is each
/// after it, and the kernel is let go, which fault 62 after the answers tells; or when it is closed,
/// then fault 20 stands after the answers.
///
/// Of any device: a line is printed for each line of the script, with what its seat was told, and
/// one fault after them where the file is not closed well; or one fault alone. The device is as
/// honest as it was.
pub fn run_on<D: PageDevice + Drop, W: Write + Drop>(
    alloc: Global,
    device: D,
    script: &Script,
    output: &mut Output<W>,
) -> Ran<D>
    ensures served { RunsOn script.now (D.is_honest device)
        (record {
          content = D.content device;
          left = D.content result.device;
          synced = D.is_synced result.device;
          was = D.fault_count device;
          faults = D.fault_count result.device;
          old = output.old;
          new = output.new;
          untold = result.is_untold;
        }) result.ending }
    // the same in words of the rules, of what is printed and of pages alone
    ensures plain { RunsPlainly script.now (D.is_honest device)
        (record {
          content = D.content device;
          left = D.content result.device;
          synced = D.is_synced result.device;
          was = D.fault_count device;
          faults = D.fault_count result.device;
          old = output.old;
          new = output.new;
          untold = result.is_untold;
        }) result.ending }
    // and of what these mean, down to their bytes
    ensures spelled { RunsSpelled script.now (D.is_honest device)
        (record {
          content = D.content device;
          left = D.content result.device;
          synced = D.is_synced result.device;
          was = D.fault_count device;
          faults = D.fault_count result.device;
          old = output.old;
          new = output.new;
          untold = result.is_untold;
        }) result.ending }
    ensures same { D.is_honest result.device ≡ D.is_honest device }
{
    let seat = script.greatest_seat();
    let mut session = match Session::on(alloc, device, script.caller(seat)) {
        Ok(session) => session,
        Err((device, fault)) => return Ran::unrun(device, leave_refused(fault, output)),
    };
    let so_far = run_lines(script, &mut session, output);
    output.flush();
    let is_untold = output.has_refused();
    // a session has a seat of its own, which is that of the lines where they are of one
    let failure = session.failure().map(|failure| Failure { seat, ..failure });
    let (device, fault) = end_session(session, is_untold);
    let ending = tell_end(fault, so_far, output);
    Ran {
        device,
        failure,
        is_untold,
        ending,
    }
}

/// Closes the session of a run, or lets it go where a line has failed or the output refused a write,
/// and tells why it was not closed well, if it was not.
fn end_session<D: PageDevice + Drop>(session: Session<D>, is_untold: bool) -> (D, Option<u8>)
    ensures ends { (was : ℕ) (s : Option State) → Stands was session s →
        EndsWell s (D.content result.0) is_untold was (D.fault_count result.0) result.1 }
    ensures unwritten { (is_untold ≡ true) ⊎ (session.failed ≡ true) →
        D.content result.0 ≡ saved_of session }
    ensures synced { is_untold ≡ false → result.1 ≡ None → IsTrue session.pool.honest →
        IsTrue (D.is_synced result.0) }
    ensures pages { (s : State) → Holds s session → is_untold ≡ false → result.1 ≡ None →
        length (D.content result.0) ≡ pages_of session }
    ensures same { D.is_honest result.0 ≡ session.pool.honest }
{
    if session.has_failed() {
        return (session.abandon(), Some(faults::FAILED));
    }
    if is_untold {
        return (session.abandon(), None);
    }
    match session.close() {
        Ok(device) => (device, None),
        Err((device, fault)) => (device, Some(fault.number())),
    }
}
