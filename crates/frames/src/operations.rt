//! The frames of all operations (docs/PROTOCOL.md, "Requests").

ghost use Rattle.std.specs.Prelude.{◌≡◌, IfOk};
ghost use Rattle.frames.specs.Reading.{is_reserve, kept, operation_of, plain_of, reserve_of, small_of};

use crate::calls::{NO_WAIT, flag, type_of};
use crate::frame::Frame;
use crate::incoming::Operation;
use crate::little::eight_at;
use queue_model::{Call, NoMemory};
use std::alloc::Global;

impl<'a> Frame<'a> {
    /// The operation that it asks for, and none where the frame is wrong.
    pub fn operation(&self, alloc: Global, moment: u64) -> Result<Option<Operation>, NoMemory>
        ensures { IfOk result (λ found. found ≡ operation_of moment self.now) }
    {
        if self.code != 2 {
            return Ok(self.small(moment));
        }
        let Some(arguments) = self.send(alloc, moment)? else {
            return Ok(None);
        };
        Ok(Some(Operation::Call(Call::Send(arguments))))
    }

    /// The operation that it asks for, of those that take no memory.
    fn small(&self, moment: u64) -> Option<Operation>
        ensures { result ≡ small_of moment self.now }
    {
        match self.code {
            1 => Some(Operation::Call(Call::Get(self.get(moment)?))),
            3 => Some(Operation::Call(Call::Receive(self.receive(moment)?))),
            5 => Some(Operation::Call(Call::Set(self.set(moment)?))),
            12 => self.reserve(),
            _ if self.flags == 0 && self.mode == 0 && self.fields.len() == 0 => {
                plain(self.code, self.id)
            }
            _ => None,
        }
    }

    /// The Reserve that it asks for.
    fn reserve(&self) -> Option<Operation>
        ensures { result ≡ kept (is_reserve self.now) (reserve_of self.now) }
    {
        if self.fields.len() != 8 {
            return None;
        }
        let nowait = self.has(NO_WAIT);
        if self.flags != flag(nowait, NO_WAIT) {
            return None;
        }
        if self.mode != 0 {
            return None;
        }
        Some(Operation::Reserve {
            id: self.id,
            mtype: type_of(eight_at(self.fields.as_slice(), 0)),
            nowait,
        })
    }
}

/// The operation of this number that has an id, or 0 in its place, and nothing else.
fn plain(code: u8, id: u32) -> Option<Operation>
    ensures { result ≡ plain_of code id }
{
    match code {
        4 => Some(Operation::Call(Call::Stat { id })),
        6 => Some(Operation::Call(Call::Remove { id })),
        7 => Some(Operation::Next { after: id }),
        8 => Some(Operation::Nth { place: id }),
        9 if id == 0 => Some(Operation::Save),
        10 if id == 0 => Some(Operation::Info),
        11 => Some(Operation::Cancel { number: id }),
        13 => Some(Operation::Acknowledge { id }),
        14 => Some(Operation::Release { id }),
        _ => None,
    }
}
