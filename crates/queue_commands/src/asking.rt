//! The answers of each kind.

ghost use Rattle.std.specs.Prelude.{◌≡◌};
ghost use Rattle.queue_commands.specs.Coming.{done_in, id_in, info_in, message_in, serial_in};

use crate::error::AskError;
use crate::text::Text;
use queue_model::{Answer, Message, QueueInfo};
use std::alloc::Global;

/// The id that a Get was answered.
pub(crate) fn id_in(answer: &Option<Answer>) -> Result<u32, AskError>
    ensures { result ≡ id_in answer.now }
{
    match answer {
        Some(Answer::Id(id)) => Ok(*id),
        Some(Answer::Refused(errno)) => Err(AskError::Refused(*errno)),
        _ => Err(AskError::Unanswered),
    }
}

/// The serial that a Send was answered.
pub(crate) fn serial_in(answer: &Option<Answer>) -> Result<u64, AskError>
    ensures { result ≡ serial_in answer.now }
{
    match answer {
        Some(Answer::Sent(serial)) => Ok(*serial),
        Some(Answer::Refused(errno)) => Err(AskError::Refused(*errno)),
        _ => Err(AskError::Unanswered),
    }
}

/// The message that a Receive was answered.
pub(crate) fn message_in(answer: Option<Answer>) -> Result<Message, AskError>
    ensures { result ≡ message_in answer }
{
    match answer {
        Some(Answer::Received(message)) => Ok(message),
        Some(Answer::Refused(errno)) => Err(AskError::Refused(errno)),
        _ => Err(AskError::Unanswered),
    }
}

/// What a Stat was answered.
pub(crate) fn info_in(answer: &Option<Answer>) -> Result<QueueInfo, AskError>
    ensures { result ≡ info_in answer.now }
{
    match answer {
        Some(Answer::Info(info)) => Ok(*info),
        Some(Answer::Refused(errno)) => Err(AskError::Refused(*errno)),
        _ => Err(AskError::Unanswered),
    }
}

/// That a Set or a Remove was done, of which there is no text.
pub(crate) fn done_in(alloc: Global, answer: &Option<Answer>) -> Result<Text, AskError>
    ensures { result ≡ done_in answer.now }
{
    match answer {
        Some(Answer::Done) => Ok(Text::new(alloc)),
        Some(Answer::Refused(errno)) => Err(AskError::Refused(*errno)),
        _ => Err(AskError::Unanswered),
    }
}
