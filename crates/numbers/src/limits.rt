//! The limits of queues, messages and permissions (docs/QUEUES.md), each once.

/// Queues alive at once.
pub const MAX_QUEUES: u32 = 256;

/// Messages on one queue.
pub const MAX_MESSAGES: u32 = 1024;

/// Bytes of a message's body.
pub const MAX_BODY: usize = 1024;

/// Bytes on one queue, and the greatest `qbytes`.
pub const MAX_QBYTES: u32 = 65_536;

/// The `qbytes` of a new queue.
pub const DEFAULT_QBYTES: u32 = 16_384;

/// The first number that is no queue id; ids are 1 and up, below it.
pub const END_OF_IDS: u32 = 4_294_967_295;

/// The first number that is no message serial; serials are 1 and up, below it.
pub const END_OF_SERIALS: u64 = 18_446_744_073_709_551_615;

/// Modes are the numbers below this one: nine bits.
pub const MODES: u16 = 512;

/// The user id that lacks no permission.
pub const SUPERUSER: u32 = 0;
