//! The messages that an input is.

ghost use Rattle.std.specs.Prelude.{◌≡◌, ◌<◌, ◌^◌, ℕ, IfErr, IfOk, IfSome, List, MatchOption, length, Option, [], ◌∷◌};
ghost use Rattle.queue_commands.specs.Messages.{IsAllUpTo, Refuses, Sends};
ghost use Rattle.queue_commands.specs.declared.messages.Framing.{Framing};

use crate::lines::lines_of;
use crate::unsent::Unsent;
use queue_model::{Body, MAX_BODY, MAX_QBYTES};
use std::alloc::Global;
use std::io::Read;

/// How an input is cut into messages.
#[derive(Clone, Copy)]
pub enum Framing {
    /// All of it is one.
    Whole,
    /// Each line is one, its line end included.
    Lines,
}

/// All that a reader gives as one message, or each of its lines as one. No more is read than a
/// queue may hold, and a byte.
pub fn messages_of<R: Read>(
    alloc: Global,
    reader: &mut R,
    framing: Framing,
) -> Result<Vec<Body>, Unsent>
    ensures ok { IfOk result (λ bodies. Sends framing (R.remaining reader.old) bodies.items) }
    ensures err { IfErr result (Refuses framing (R.remaining reader.old)) }
{
    match framing {
        Framing::Whole => match read_up_to(alloc, reader, MAX_BODY)? {
            Some(text) => one_of(alloc, text),
            None => Err(Unsent::LongInput),
        },
        Framing::Lines => match read_up_to(alloc, reader, MAX_QBYTES as usize)? {
            Some(text) => lines_of(alloc, text.as_slice()),
            None => Err(Unsent::TooMany),
        },
    }
}

/// A text as one message.
fn one_of(alloc: Global, text: Vec<u8>) -> Result<Vec<Body>, Unsent>
    ensures ok { IfOk result (λ bodies. bodies.items ≡ text.items ∷ []) }
    ensures err { (f : Framing) (known : Option (List ℕ)) → IfErr result (Refuses f known) }
{
    let mut bodies = Vec::new(alloc);
    let Ok(()) = bodies.push(Body::new(text)) else {
        return Err(Unsent::NoMemory);
    };
    Ok(bodies)
}

/// All that a reader gives, or none where it is more than so many bytes.
fn read_up_to<R: Read>(
    alloc: Global,
    reader: &mut R,
    most: usize,
) -> Result<Option<Vec<u8>>, Unsent>
    requires { most < 2 ^ 32 }
    ensures ok { IfOk result (λ text. MatchOption text
        (IfSome (R.remaining reader.old) (λ xs. most < length xs))
        (λ bytes. IsAllUpTo most (R.remaining reader.old) bytes.items)) }
    ensures err { (f : Framing) (known : Option (List ℕ)) → IfErr result (Refuses f known) }
{
    let mut text = Vec::new(alloc);
    let mut limited = reader.take(most as u64 + 1);
    match limited.read_to_end(&mut text) {
        Ok(_) if text.len() > most => Ok(None),
        Ok(_) => Ok(Some(text)),
        Err(error) => Err(Unsent::Unread(error)),
    }
}
