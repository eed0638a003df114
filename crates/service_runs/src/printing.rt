//! The replies of all seats, printed in the order of the script.

ghost use Rattle.std.specs.Prelude.{◌≡◌, length, replicate};
ghost use Rattle.service_runs.specs.Lines.{is_stopped};
ghost use Rattle.service_runs.specs.Printing.{AreOfSeats, IsPrintedOf};

use crate::desk::Desk;
use msgq_cli::{Ending, Line, Output, Reply};
use std::io::Write;
use workers::{Base, Room};

/// Prints what the lines of a script were replied, in its order, and tells whether one of the replies
/// is that a stop is made. Of each seat the replies that were printed are counted, from none on.
pub fn print_all<N: Room + Base, W: Write + Drop>(
    lines: &[Line],
    desks: &[Desk<'_, N>],
    printed: &mut [usize],
    output: &mut Output<W>,
) -> (Ending, bool)
    requires made { AreOfSeats lines.now desks.now }
    requires none { printed.old ≡ replicate (length desks.now) 0 }
    ensures { IsPrintedOf lines.now desks.now output.old output.new result.0 result.1 }
{
    let mut ending = Ending::Done;
    let mut has_stopped = false;
    for line in lines {
        let place = line.seat as usize - 1;
        let reply = desks[place].reply(printed[place]);
        printed[place] += 1;
        reply.print(line.number, output);
        ending = ending.after(reply);
        has_stopped = has_stopped || is_stopped(reply);
    }
    (ending, has_stopped)
}

/// Whether a line was replied that a stop is made.
fn is_stopped(reply: &Reply) -> bool
    ensures { result ≡ is_stopped reply.now }
{
    matches!(reply, Reply::Stopped)
}
