//! The user and the group of this process.

use std::fs;
use std::io::{self, ErrorKind};
use std::rt::Files;

/// Where Linux tells of a process, a line each, `Uid:` of its users and `Gid:` of its groups: the real
/// one stands first.
pub const STATUS: &str = "/proc/self/status";

/// The real user and group of this process, as the system tells them.
pub fn own_ids<R>(rt: &R) -> io::Result<(u32, u32)>
where
    R: Files + AllocGlobal,
{
    let text = fs::read_to_string(rt, STATUS)?;
    match (number_behind("Uid:", &text), number_behind("Gid:", &text)) {
        (Some(uid), Some(gid)) => Ok((uid, gid)),
        _ => Err(ErrorKind::InvalidData.into()),
    }
}

/// The number behind a word that begins a line.
fn number_behind(word: &str, text: &str) -> Option<u32> {
    text.lines().find_map(|line| {
        let mut words = line.split_ascii_whitespace();
        if words.next() != Some(word) {
            return None;
        }
        words.next()?.parse().ok()
    })
}
