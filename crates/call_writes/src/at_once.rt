//! What became of a deed that was to be made in one go.

/// What became of a deed that was to be made in one go.
#[derive(Clone, Copy)]
pub enum AtOnce {
    /// All its steps are made.
    Made,
    /// Nothing is done. It is left to its steps.
    Left,
    /// Nothing is done, for nothing is left to do.
    Over,
}
