//! A script replayed by a schedule over a file and its journal.

ghost use Rattle.std.specs.Prelude.{◌≡◌, IsTrue};
ghost use Rattle.crash_safe_runs.specs.Replays.{ReplaysOver};
ghost use Rattle.crash_safe_runs.specs.Scripts.{effects_on};
ghost use Rattle.crash_safe_runs.specs.deferred_sync.Deferred.{IsLent, IsSettled, start_of};
ghost use Rattle.replays.specs.Texts.{PlaysTexts};

use crate::concluding::conclude;
use deferred_sync::safe_device::{PagePair, SafeDevice};
use deferred_sync::{Beginning, DeferredSync, a_settled_device_is_lent};
use replays::msgq_cli::Output;
use replays::{Ran, Texts, replay_on};
use std::alloc::Global;
use std::io::Write;
use std::marker::Brand;

/// Replays the script that one text spells by the schedule that another spells on the file of a
/// device, as `replays::replay_on` does.
///
/// Cut off at any moment, it leaves what the next opening finds as the file of before, or as that
/// of the system after the journal, of which all answers were printed; once it has ended well, only
/// as the latter.
pub fn replay_over<P: PagePair + Drop, W: Write + Drop, E: Write>(
    alloc: Global,
    device: SafeDevice<P>,
    texts: Texts,
    output: &mut Output<W>,
    errors: &mut E,
) -> Ran<SafeDevice<P>>
    requires settled { IsTrue P.is_honest → IsSettled P.may_leave device }
    ensures played { PlaysTexts texts.entry.script.now texts.entry.schedule.now P.is_honest
        (effects_on device result.device output.old output.new result.is_untold) result.ending }
    ensures over { ReplaysOver P.is_honest P.moment P.left_since P.may_leave
        (P.moment device.pair) (P.left_since device.pair)
        texts.entry.script.now texts.entry.schedule.now
        (effects_on device result.device output.old output.new result.is_untold)
        result.ending result.device.pair }
{
    a_settled_device_is_lent(&device);
    replay_since::<Brand, P, W, E>(alloc, device, texts, output, errors)
}

/// So since a beginning.
fn replay_since<N: Beginning, P: PagePair + Drop, W: Write + Drop, E: Write>(
    alloc: Global,
    device: SafeDevice<P>,
    texts: Texts,
    output: &mut Output<W>,
    errors: &mut E,
) -> Ran<SafeDevice<P>>
    requires lent { IsLent P.is_honest P.moment P.left_since N.start N.left device }
    requires start { N.start ≡ start_of P.moment device }
    ensures played { PlaysTexts texts.entry.script.now texts.entry.schedule.now P.is_honest
        (effects_on device result.device output.old output.new result.is_untold) result.ending }
    ensures over { ReplaysOver P.is_honest P.moment P.left_since P.may_leave N.start.moment N.left
        texts.entry.script.now texts.entry.schedule.now
        (effects_on device result.device output.old output.new result.is_untold)
        result.ending result.device.pair }
{
    let device = DeferredSync::<P, N>::new(device);
    conclude(replay_on(alloc, device, texts, output, errors), output)
}
