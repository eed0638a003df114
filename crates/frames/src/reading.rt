//! Records of the relay, out of its stream.

ghost use Rattle.std.specs.Prelude.{◌≡◌, ℕ, List, ◌++◌, length, Ok, Err, Some, IfOk, IfErr};
ghost use Rattle.frames.specs.declared.incoming.Incoming.{Incoming};
ghost use Rattle.frames.specs.Reading.{Gives, IsAsked, IsAskedIn, bare_of, incoming_of, kind_of, request_of};
ghost use Rattle.frames.specs.Records.{Fits, Measures, ReadsAs, Says, at_moment, spelled};

use crate::frame::Frame;
use crate::head::{HEAD_BYTES, Head};
use crate::incoming::{Incoming, Kind, Request, Unread};
use crate::little::four_at;
use numbers::limits::MAX_BODY;
use std::alloc::Global;

/// The most bytes of a record, with its length: those of a Send of the longest body.
pub const MAX_RECORD: usize = HEAD_BYTES + 20 + MAX_BODY;

/// How many bytes the first record of these has, with its length; none where not all of them have
/// come, which are fewer than `MAX_RECORD` then. `Broken` where its length is one that no record
/// has.
pub fn whole(bytes: &[u8]) -> Result<Option<usize>, Unread>
    ensures size { Measures bytes.now result }
    ensures only { (incoming : Incoming) (rest : List ℕ) → Fits incoming →
        bytes.now ≡ spelled incoming ++ rest → result ≡ Ok (Some (length (spelled incoming))) }
{
    measure(bytes)
}

fn measure(bytes: &[u8]) -> Result<Option<usize>, Unread>
    ensures { Measures bytes.now result }
{
    if bytes.len() < 4 {
        return Ok(None);
    }
    let size = 4 + four_at(bytes, 0) as usize;
    if size < HEAD_BYTES {
        return Err(Unread::Broken);
    }
    if size > MAX_RECORD {
        return Err(Unread::Broken);
    }
    if bytes.len() < size {
        return Ok(None);
    }
    Ok(Some(size))
}

/// What a record tells, with its length, as `whole` cuts it out of the stream. The moment, in
/// seconds, becomes that of its call. It is refused exactly where it is no record; one that was
/// refused for want of memory may be read again.
pub fn read(alloc: Global, bytes: &[u8], moment: u64) -> Result<Incoming, Unread>
    ensures ok { IfOk result (λ incoming. (spelled incoming ≡ bytes.now)
        × (at_moment moment incoming ≡ incoming)) }
    ensures only { (incoming : Incoming) → Fits incoming → spelled incoming ≡ bytes.now →
        ReadsAs (at_moment moment incoming) result }
    ensures err { IfErr result (Says bytes.now) }
{
    incoming(alloc, bytes, moment)
}

fn incoming(alloc: Global, bytes: &[u8], moment: u64) -> Result<Incoming, Unread>
    ensures { Gives (IsAskedIn bytes.now) (incoming_of moment bytes.now) result }
{
    let Some(head) = Head::read(bytes) else {
        return Err(Unread::Broken);
    };
    let kind = kind(alloc, &head, moment)?;
    Ok(Incoming {
        connection: head.connection,
        caller: head.caller,
        kind,
    })
}

/// What the record of this head tells.
fn kind(alloc: Global, head: &Head, moment: u64) -> Result<Kind, Unread>
    ensures { Gives (IsAsked head.now) (kind_of moment head.now) result }
{
    if head.kind == 0 {
        return request(alloc, head, moment);
    }
    if head.rest.len() != 0 {
        return Err(Unread::Broken);
    }
    bare(head.kind)
}

/// The kind of this number, of those that have nothing behind their head.
fn bare(kind: u32) -> Result<Kind, Unread>
    ensures { result ≡ bare_of kind }
{
    match kind {
        1 => Ok(Kind::Gone),
        2 => Ok(Kind::Tick),
        3 => Ok(Kind::End),
        _ => Err(Unread::Broken),
    }
}

/// The request of a client that stands behind a head.
fn request(alloc: Global, head: &Head, moment: u64) -> Result<Kind, Unread>
    requires { head.now.kind ≡ 0 }
    ensures { Gives (IsAsked head.now) (request_of moment head.now) result }
{
    let Some(frame) = Frame::read(head.rest.as_slice()) else {
        return Err(Unread::Broken);
    };
    let (connection, number) = (head.connection, frame.number);
    let Ok(operation) = frame.operation(alloc, moment) else {
        return Err(Unread::NoMemory { connection, number });
    };
    let Some(operation) = operation else {
        return Err(Unread::Wrong { connection, number });
    };
    Ok(Kind::Request(Request { number, operation }))
}
