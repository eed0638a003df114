//! The names of arguments, by which the table of commands has them and a parse gives them.

/// Operands.
pub const BODY: &str = "BODY";

pub const COMMAND: &str = "COMMAND";

pub const FILE: &str = "FILE";

pub const KEY: &str = "KEY";

pub const NEW: &str = "NEW";

pub const OLD: &str = "OLD";

pub const PAGES: &str = "PAGES";

pub const SCHEDULE: &str = "SCHEDULE";

pub const SCRIPT: &str = "SCRIPT";

/// Options.
pub const ALL: &str = "all";

pub const CREATE: &str = "create";

pub const GID: &str = "gid";

pub const GROUP: &str = "group";

pub const HEADER: &str = "header";

pub const JSON: &str = "json";

pub const LINES: &str = "lines";

pub const MAP: &str = "map";

pub const METRICS: &str = "metrics";

pub const MODE: &str = "mode";

pub const NEW_PAGES: &str = "pages";

pub const NOERROR: &str = "noerror";

pub const NOWAIT: &str = "nowait";

pub const OWNER: &str = "owner";

pub const PID: &str = "pid";

pub const QBYTES: &str = "qbytes";

pub const SERIAL: &str = "serial";

pub const SHARED_WITH: &str = "shared";

pub const SIZE: &str = "size";

pub const TRACE: &str = "trace";

pub const TYPE: &str = "type";

pub const UID: &str = "uid";

pub const VERBOSE: &str = "verbose";

pub const WAIT: &str = "wait";

/// The value of a wait without one.
pub const FOR_EVER: &str = "ever";
