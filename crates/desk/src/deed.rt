//! What a call may do to its queue.

ghost use Rattle.std.specs.Prelude.{◌≡◌};
ghost use Rattle.desk.specs.Due.{deed_of};

use session::queue_model::Call;

/// What a call that is answered may do, as far as it bears on calls that wait. A Get makes a queue
/// on which nobody waits yet.
#[derive(Clone, Copy)]
pub enum Deed {
    /// Nothing.
    Nothing,
    /// It puts a message of a type on a queue.
    Puts {
        /// The queue.
        queue: u32,
        /// The type.
        mtype: i64,
    },
    /// It takes a message from this queue.
    Takes(u32),
    /// It changes the settings of this queue, or removes it.
    Alters(u32),
}

/// What this call may do.
pub(crate) fn deed_of(call: &Call) -> Deed
    ensures { result ≡ deed_of call.now }
{
    match call {
        Call::Get(_) | Call::Stat { .. } => Deed::Nothing,
        Call::Send(arguments) => Deed::Puts {
            queue: arguments.id,
            mtype: arguments.mtype,
        },
        Call::Receive(arguments) => Deed::Takes(arguments.id),
        Call::Set(arguments) => Deed::Alters(arguments.id),
        Call::Remove { id } => Deed::Alters(*id),
    }
}
