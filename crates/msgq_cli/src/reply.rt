//! What is printed for a line of a script.

ghost use Rattle.std.specs.Prelude.{◌≡◌, ◌∷◌, [], map, codes};
ghost use Rattle.std.specs.Fmt.{decimal};
ghost use Rattle.msgq_cli.specs.Answers.{answer_words, message_words, fault_text, info_text, info_words};
ghost use Rattle.msgq_cli.specs.Answers.{line_of, made_text, reply_text};
ghost use Rattle.msgq_cli.specs.Outputs.{Prints};
ghost use Rattle.msgq_cli.specs.Runs.{is_fault};
ghost use Rattle.msgq_cli.specs.Texts.{text_of};

use crate::output::Output;
use crate::printed_word::PrintedWord;
use queue_model::{Answer, Message, QueueInfo};
use std::io::Write;

/// What became of a line's command.
#[derive(Drop)]
pub enum Reply {
    /// Its call was answered.
    Answered(Answer),
    /// It was `stop`.
    Stopped,
    /// A fault of this number met it.
    Failed(u8),
}

impl Reply {
    /// Whether it is a fault.
    pub fn is_fault(&self) -> bool
        ensures { result ≡ is_fault self.now }
    {
        matches!(self, Reply::Failed(_))
    }

    /// Prints the line for the script's line of this number.
    pub fn print<W: Write + Drop>(&self, number: u64, output: &mut Output<W>)
        ensures { Prints output.old output.new (reply_text number self.now) }
    {
        match self {
            Reply::Answered(answer) => print_answer(number, answer, output),
            Reply::Stopped => {
                output.line(&[PrintedWord::Number(number), PrintedWord::Text(b"done")])
            }
            Reply::Failed(fault) => {
                output.note(number, *fault);
                output.line(&[
                    PrintedWord::Number(number),
                    PrintedWord::Text(b"fault"),
                    PrintedWord::Number(u64::from(*fault)),
                ])
            }
        }
    }
}

/// Prints the state of a queue that no line asked about.
pub fn print_info<W: Write + Drop>(info: &QueueInfo, output: &mut Output<W>)
    ensures { Prints output.old output.new (info_text info.now) }
{
    output.line(&words_of_info(info));
}

/// Prints a fault that no line met.
pub fn print_fault<W: Write + Drop>(fault: u8, output: &mut Output<W>)
    ensures { Prints output.old output.new (fault_text fault) }
{
    output.line(&[
        PrintedWord::Text(b"fault"),
        PrintedWord::Number(u64::from(fault)),
    ]);
}

/// Prints of how many pages a file was made.
pub fn print_made<W: Write + Drop>(pages: u32, output: &mut Output<W>)
    ensures { Prints output.old output.new (made_text pages) }
{
    output.line(&[
        PrintedWord::Text(b"made"),
        PrintedWord::Number(u64::from(pages)),
    ]);
}

/// Prints an answer after the number of its line.
fn print_answer<W: Write + Drop>(number: u64, answer: &Answer, output: &mut Output<W>)
    ensures { Prints output.old output.new
        (line_of (decimal number ∷ answer_words answer.now)) }
{
    match answer {
        Answer::Id(id) => output.line(&[
            PrintedWord::Number(number),
            PrintedWord::Text(b"id"),
            PrintedWord::Number(u64::from(*id)),
        ]),
        Answer::Sent(serial) => output.line(&[
            PrintedWord::Number(number),
            PrintedWord::Text(b"sent"),
            PrintedWord::Number(*serial),
        ]),
        Answer::Received(message) => print_message(number, message, output),
        Answer::Info(info) => {
            output.word(&PrintedWord::Number(number));
            output.put(b" ");
            print_info(info, output);
        }
        Answer::Done => output.line(&[PrintedWord::Number(number), PrintedWord::Text(b"done")]),
        Answer::Refused(errno) => output.line(&[
            PrintedWord::Number(number),
            PrintedWord::Text(b"refused"),
            PrintedWord::Text(errno.name().as_bytes()),
        ]),
    }
}

/// Prints a message that was received, after the number of its line.
fn print_message<W: Write + Drop>(number: u64, message: &Message, output: &mut Output<W>)
    ensures { Prints output.old output.new
        (line_of (decimal number ∷ message_words message.now)) }
{
    output.line(&[
        PrintedWord::Number(number),
        PrintedWord::Text(b"received"),
        PrintedWord::Number(message.serial),
        PrintedWord::Number(u64::from(message.sender)),
        PrintedWord::Signed(message.mtype),
        PrintedWord::Body(message.bytes.as_slice()),
    ]);
}

/// The words of a queue's state.
fn words_of_info<'a>(info: &QueueInfo) -> [PrintedWord<'a>; 16]
    ensures { map text_of result ≡ info_words info.now }
{
    [
        PrintedWord::Text(b"info"),
        PrintedWord::Number(u64::from(info.id)),
        PrintedWord::Key(info.key),
        PrintedWord::Number(u64::from(info.qnum)),
        PrintedWord::Number(u64::from(info.cbytes)),
        PrintedWord::Number(u64::from(info.qbytes)),
        PrintedWord::Number(u64::from(info.lspid)),
        PrintedWord::Number(u64::from(info.lrpid)),
        PrintedWord::Number(info.stime),
        PrintedWord::Number(info.rtime),
        PrintedWord::Number(info.ctime),
        PrintedWord::Number(u64::from(info.permissions.uid)),
        PrintedWord::Number(u64::from(info.permissions.gid)),
        PrintedWord::Number(u64::from(info.permissions.cuid)),
        PrintedWord::Number(u64::from(info.permissions.cgid)),
        PrintedWord::Mode(info.permissions.mode),
    ]
}
