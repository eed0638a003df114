//! The numbers of callers and calls fit the fields of records.

ghost use Rattle.std.specs.Prelude.{IfSome};
ghost use Rattle.queue_records.specs.Records.{FitsFour};
ghost use Rattle.type_chains.specs.Fits.{HasFittingCall, HasFittingCaller};

use queue_model::{Call, Caller};
use queue_records::{eight_fits, four_fits, type_fits};

/// The numbers of each caller fit the fields of records, as their types say.
pub fn a_callers_numbers_fit(caller: &Caller)
    ensures { HasFittingCaller caller.now }
{
    let Caller { pid, uid, gid } = *caller;
    four_fits(pid);
    four_fits(uid);
    four_fits(gid);
}

/// The numbers of each call fit the fields of records, as their types say.
pub fn a_calls_numbers_fit(call: &Call)
    ensures { HasFittingCall call.now }
{
    match call {
        Call::Get(arguments) => {
            given_fits(arguments.key);
            eight_fits(arguments.moment);
        }
        Call::Send(arguments) => {
            type_fits(arguments.mtype);
            eight_fits(arguments.moment);
        }
        Call::Receive(arguments) => eight_fits(arguments.moment),
        Call::Set(arguments) => {
            given_fits(arguments.uid);
            given_fits(arguments.gid);
            eight_fits(arguments.moment);
        }
        Call::Stat { .. } | Call::Remove { .. } => {}
    }
}

/// A number, where one is given, fits four bytes.
fn given_fits(number: Option<u32>)
    ensures { IfSome number FitsFour }
{
    if let Some(number) = number {
        four_fits(number);
    }
}
