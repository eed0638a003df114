//! The place of the trials of a call.

use crate::conclusion::Conclusion;
use call_writes::CallWrites;

/// The place of what a call writes, and whether that is on trial: from the first trial until the
/// call's Decide. For what decision it tries is told by its inquiry. From the Decide on it has what
/// the call has come to.
#[derive(Drop)]
pub(crate) struct TrialsPlace {
    pub(crate) writes: CallWrites,
    pub(crate) on_trial: bool,
    pub(crate) conclusion: Conclusion,
}
