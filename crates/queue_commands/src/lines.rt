//! The lines of a text.

ghost use Rattle.std.specs.Prelude.{◌≡◌, ◌≤◌, ◌<◌, ◌==◌, ℕ, IfErr, IfOk, IfSome, List, Option, length};
ghost use Rattle.std.specs.List.{position};
ghost use Rattle.queue_commands.specs.Lines.{ArePutAs, first_line};
ghost use Rattle.queue_commands.specs.Messages.{Refuses};
ghost use Rattle.queue_commands.specs.declared.messages.Framing.TheVariants.{Lines};

use crate::unsent::Unsent;
use queue_model::{Body, MAX_BODY, MAX_MESSAGES};
use std::alloc::Global;

/// Each line of a text as a message, its line end included.
pub(crate) fn lines_of(alloc: Global, text: &[u8]) -> Result<Vec<Body>, Unsent>
    ensures ok { IfOk result (λ bodies. ArePutAs text.now bodies.items) }
    ensures err { (known : Option (List ℕ)) → IfErr result (Refuses Lines known) }
{
    let mut bodies = Vec::new(alloc);
    let mut rest = text;
    for number in 1..=MAX_MESSAGES {
        if rest.is_empty() {
            return Ok(bodies);
        }
        let (line, after) = rest.split_at(first_line(rest));
        if line.len() > MAX_BODY {
            return Err(Unsent::LongLine(number));
        }
        let Ok(()) = bodies.push(Body::new(Vec::from_slice(alloc, line)?)) else {
            return Err(Unsent::NoMemory);
        };
        rest = after;
    }
    if rest.is_empty() {
        Ok(bodies)
    } else {
        Err(Unsent::TooMany)
    }
}

/// As many bytes has the first line of a text, with its line end.
fn first_line(text: &[u8]) -> usize
    ensures value { result ≡ first_line text.now }
    ensures within { result ≤ length text.now }
{
    match line_end(text) {
        Some(place) => place + 1,
        None => text.len(),
    }
}

/// Where the first line end of a text stands.
fn line_end(text: &[u8]) -> Option<usize>
    ensures value { result ≡ position (λ (byte : ℕ). byte == 10) text.now }
    ensures within { IfSome result (λ place. place < length text.now) }
{
    text.iter().position(|byte| *byte == b'\n')
}
