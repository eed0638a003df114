//! A call on the session of a handle.

ghost use Rattle.msgq_c.specs.Serving.{Answers};

use crate::handle::Handle;
use session::Unanswered;
use session::queue_model::{Answer, Call};
use std::alloc::Global;

/// Makes a call on the session of a handle. Where it has none there is no result. The call is lent,
/// and what is left of it counts no more. It stands in whoever tells of the result, which is large,
/// and would else be moved through memory.
#[inline(always)]
pub(crate) fn serve(
    alloc: Global,
    handle: &mut Handle,
    call: &mut Call,
) -> Option<Result<Answer, Unanswered>>
    ensures { Answers call.old result handle.old.held.session handle.new.held.session }
{
    if !handle.is_open {
        return None;
    }
    let mut kept = handle.take(alloc);
    let result = kept.call(call);
    handle.put(kept);
    Some(result)
}
