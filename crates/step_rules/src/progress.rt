//! What a machine answers when it is asked for a step.

use crate::kind::Kind;

/// The answer to a seat that steps. `F` is the faults that its machine can meet.
#[derive(Clone, Copy, PartialEq, Eq)]
pub enum Progress<F> {
    /// A step of this kind was made.
    Moved(Kind),
    /// Nothing changed: this other seat holds a lock that does not go with the one asked for.
    Blocked(u8),
    /// A page could not be read or written, or says what no page may say.
    Fault(F),
    /// Nothing changed: the machine had ended.
    Ended,
}
