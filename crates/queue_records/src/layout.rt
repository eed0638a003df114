//! The kinds of records, and the bytes of their values (docs/FORMAT.md, "Records").

/// The kind of the record that counts queues.
pub const COUNTER: u8 = 1;

/// The kind of a record that gives a key its queue.
pub const KEY: u8 = 2;

/// The kind of a queue's own record.
pub const QUEUE: u8 = 3;

/// The kind of a record of a message type that stands on a queue.
pub const TYPE: u8 = 4;

/// The kind of a message's record.
pub const MESSAGE: u8 = 5;

/// Bytes of the value of the Counter.
pub const COUNTER_BYTES: usize = 8;

/// Bytes of the value of a Key.
pub const KEY_BYTES: usize = 4;

/// Bytes of the value of a Queue.
pub const QUEUE_BYTES: usize = 99;

/// Bytes of the value of a Queue of version 1, which ends with its lowest type.
pub const OLDER_QUEUE_BYTES: usize = 81;

/// The mode of a queue of version 1, which has none: all may read and write.
pub const OLDER_MODE: u16 = 0o666;

/// Bytes of the value of a Type.
pub const TYPE_BYTES: usize = 32;

/// Bytes of the value of a Message before its body.
pub const MESSAGE_BYTES: usize = 36;

/// Bytes of the longest value: that of a Message with the longest body.
pub const MAX_VALUE_BYTES: usize = 1060;
