//! The codes of answers that are no refusal of a call (docs/PROTOCOL.md, "Answers").

/// What was asked is done.
pub const DONE: u32 = 0;

/// A record does not fit the file (docs/FAULTS.md).
pub const NO_ROOM: u32 = 50;

/// A growth was refused, or as many calls wait as may (docs/FAULTS.md).
pub const NO_MEMORY: u32 = 60;

/// The file has failed (docs/FAULTS.md).
pub const FAILED: u32 = 62;

/// A request that waited was cancelled.
pub const CANCELLED: u32 = 200;

/// The server ends: the call was not made.
pub const ENDS: u32 = 201;

/// A frame is wrong.
pub const WRONG: u32 = 203;
