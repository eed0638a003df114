//! The replies that there are, printed in the order of the script.

ghost use Rattle.std.specs.Prelude.{◌≡◌, length, if◌then◌else◌};
ghost use Rattle.msgq_cli.specs.Outputs.{Prints};
ghost use Rattle.replays.specs.Replays.{ending_by, is_fault_told, replies_text, text_to};

use msgq_cli::{Ending, Line, Output, Reply};
use std::io::Write;

/// Prints the replies that there are to lines, in their order.
pub(crate) fn print_replies<W: Write + Drop>(
    lines: &[Line],
    replies: &[Option<Reply>],
    output: &mut Output<W>,
) -> Ending
    requires { length replies.now ≡ length lines.now }
    ensures prints { Prints output.old output.new (replies_text lines.now replies.now) }
    ensures ends { result ≡ ending_by replies.now }
{
    let mut ending = Ending::Done;
    for (place, line) in lines.iter().enumerate() {
        ending = print_reply(line, &replies[place], ending, output);
    }
    ending
}

/// Prints the reply to a line, if there is one.
fn print_reply<W: Write + Drop>(
    line: &Line,
    reply: &Option<Reply>,
    ending: Ending,
    output: &mut Output<W>,
) -> Ending
    ensures prints { Prints output.old output.new (text_to line.now reply.now) }
    ensures ends { result ≡ (if is_fault_told reply.now then Ending.Faulty else ending) }
{
    let Some(reply) = reply else {
        return ending;
    };
    reply.print(line.number, output);
    ending.after(reply)
}
