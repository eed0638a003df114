//! The frames of the calls that have arguments: operations 1, 2, 3 and 5 (docs/PROTOCOL.md,
//! "Requests").

ghost use Rattle.std.specs.Prelude.{◌≡◌, ◌≤◌, length, IfOk};
ghost use Rattle.frames.specs.Requests.{flag};
ghost use Rattle.frames.specs.Reading.{given, get_flags, get_of, is_get, is_receive, is_send, is_set, kept, receive_of, send_of, set_flags, set_of, type_of};

use crate::frame::Frame;
use crate::little::{eight_at, four_at};
use numbers::limits::MAX_BODY;
use queue_model::{Body, GetArguments, NoMemory, ReceiveArguments, SendArguments, SetArguments};
use std::alloc::Global;

/// Refuse in place of waiting.
pub const NO_WAIT: u8 = 1;

/// Cut a message that is too long.
pub const NO_ERROR: u8 = 2;

/// Make the queue where the key has none.
pub const CREATE: u8 = 4;

/// Refuse where the key has a queue.
pub const EXCLUSIVE: u8 = 8;

/// A key is given.
pub const HAS_KEY: u8 = 16;

/// A user is given.
pub const HAS_USER: u8 = 32;

/// A group is given.
pub const HAS_GROUP: u8 = 64;

/// A mode is given.
pub const HAS_MODE: u8 = 128;

/// What a flag adds to the flags of a frame.
pub fn flag(is_set: bool, number: u8) -> u8
    ensures value { result ≡ flag is_set number }
    ensures within { result ≤ number }
{
    if is_set { number } else { 0 }
}

/// The type of a number, by two's complement.
pub fn type_of(number: u64) -> i64
    ensures { result ≡ type_of number }
{
    number.cast_signed()
}

/// A number that stands in a frame, where it is given.
fn given(is_given: bool, number: u32) -> Option<u32>
    ensures { result ≡ given is_given number }
{
    if is_given { Some(number) } else { None }
}

impl<'a> Frame<'a> {
    /// The Get that it asks for.
    pub fn get(&self, moment: u64) -> Option<GetArguments>
        ensures { result ≡ kept (is_get self.now) (get_of moment self.now) }
    {
        if self.fields.len() != 4 {
            return None;
        }
        let arguments = self.get_arguments(moment);
        if self.flags != get_flags(&arguments) {
            return None;
        }
        if self.id != 0 {
            return None;
        }
        if four_at(self.fields.as_slice(), 0) != arguments.key.unwrap_or(0) {
            return None;
        }
        Some(arguments)
    }

    fn get_arguments(&self, moment: u64) -> GetArguments
        requires { length self.now.fields ≡ 4 }
        ensures { result ≡ get_of moment self.now }
    {
        GetArguments {
            key: given(self.has(HAS_KEY), four_at(self.fields.as_slice(), 0)),
            create: self.has(CREATE),
            excl: self.has(EXCLUSIVE),
            mode: self.mode,
            moment,
        }
    }

    /// The Send that it asks for.
    pub fn send(&self, alloc: Global, moment: u64) -> Result<Option<SendArguments>, NoMemory>
        ensures { IfOk result (λ found. found ≡ kept (is_send self.now) (send_of moment self.now)) }
    {
        if self.fields.len() < 8 {
            return Ok(None);
        }
        if self.fields.len() > 8 + MAX_BODY {
            return Ok(None);
        }
        let nowait = self.has(NO_WAIT);
        if self.flags != flag(nowait, NO_WAIT) {
            return Ok(None);
        }
        if self.mode != 0 {
            return Ok(None);
        }
        let (_, body) = self.fields.as_slice().split_at(8);
        let body = Body::new(Vec::from_slice(alloc, body)?);
        Ok(Some(SendArguments {
            id: self.id,
            mtype: type_of(eight_at(self.fields.as_slice(), 0)),
            body,
            nowait,
            moment,
        }))
    }

    /// The Receive that it asks for.
    pub fn receive(&self, moment: u64) -> Option<ReceiveArguments>
        ensures { result ≡ kept (is_receive self.now) (receive_of moment self.now) }
    {
        if self.fields.len() != 12 {
            return None;
        }
        let (nowait, noerror) = (self.has(NO_WAIT), self.has(NO_ERROR));
        if self.flags != flag(nowait, NO_WAIT) + flag(noerror, NO_ERROR) {
            return None;
        }
        if self.mode != 0 {
            return None;
        }
        Some(ReceiveArguments {
            id: self.id,
            size: four_at(self.fields.as_slice(), 8),
            mtype: type_of(eight_at(self.fields.as_slice(), 0)),
            nowait,
            noerror,
            moment,
        })
    }

    /// The Set that it asks for.
    pub fn set(&self, moment: u64) -> Option<SetArguments>
        ensures { result ≡ kept (is_set self.now) (set_of moment self.now) }
    {
        if self.fields.len() != 12 {
            return None;
        }
        let arguments = self.set_arguments(moment);
        if self.flags != set_flags(&arguments) {
            return None;
        }
        if four_at(self.fields.as_slice(), 4) != arguments.uid.unwrap_or(0) {
            return None;
        }
        if four_at(self.fields.as_slice(), 8) != arguments.gid.unwrap_or(0) {
            return None;
        }
        if self.mode != arguments.mode.unwrap_or(0) {
            return None;
        }
        Some(arguments)
    }

    fn set_arguments(&self, moment: u64) -> SetArguments
        requires { length self.now.fields ≡ 12 }
        ensures { result ≡ set_of moment self.now }
    {
        SetArguments {
            id: self.id,
            qbytes: four_at(self.fields.as_slice(), 0),
            uid: given(self.has(HAS_USER), four_at(self.fields.as_slice(), 4)),
            gid: given(self.has(HAS_GROUP), four_at(self.fields.as_slice(), 8)),
            mode: if self.has(HAS_MODE) {
                Some(self.mode)
            } else {
                None
            },
            moment,
        }
    }
}

/// The flags of a Get.
pub fn get_flags(arguments: &GetArguments) -> u8
    ensures { result ≡ get_flags arguments.now }
{
    flag(arguments.create, CREATE)
        + flag(arguments.excl, EXCLUSIVE)
        + flag(arguments.key.is_some(), HAS_KEY)
}

/// The flags of a Set.
pub fn set_flags(arguments: &SetArguments) -> u8
    ensures { result ≡ set_flags arguments.now }
{
    flag(arguments.uid.is_some(), HAS_USER)
        + flag(arguments.gid.is_some(), HAS_GROUP)
        + flag(arguments.mode.is_some(), HAS_MODE)
}
