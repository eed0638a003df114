//! What an answer that is told outlasts.

/// When the calls that were decided are saved.
#[derive(Clone, Copy, PartialEq, Eq)]
pub enum Durability {
    /// Before anybody is told what came of them.
    EachGroup,
    /// Each time that the relay says so, when that is asked for, and at the end.
    NowAndThen,
    /// When that is asked for, and at the end.
    InMemory,
}
