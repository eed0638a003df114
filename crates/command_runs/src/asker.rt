//! Who asks the calls of a command in a session.

use queue_commands::Answering;
use queue_model::{Answer, Call};
use session::{Session, Unanswered};

/// A session on a file in memory, and why a call was not answered, where one was not.
#[derive(Drop)]
pub(crate) struct Asker {
    pub(crate) session: Session,
    pub(crate) fault: Option<Unanswered>,
}

impl Answering for Asker {
    ghost use Rattle.command_runs.specs.Asking.{Lacks, Pages, Stands};

    ghost Origin = { Pages };

    ghost stands = { λ x content c s. Stands content c s x };

    ghost lacks = { λ x content c call s. Lacks content c call s x };

    fn answer(&mut self, call: Call) -> Option<Answer> {
        match self.session.call(call) {
            Ok(answer) => Some(answer),
            Err(fault) => {
                self.fault = Some(fault);
                None
            }
        }
    }
}
