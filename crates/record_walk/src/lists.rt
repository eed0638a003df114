//! The lists along which the links of a queue's records run.

ghost use Rattle.std.specs.Prelude.{◌≡◌, ◌+◌, ◌<◌, ◌<ℤ◌, ℤ, length, slice_get, IfOk, OnOk};
ghost use Rattle.std.specs.List.{AllPairs, Contains, HoldsAt};
ghost use Rattle.type_chains.specs.Neighbours.{before_place};
ghost use Rattle.record_walk.specs.Words.{first_of, last_of, serials, types, with_type};

use numbers::faults::NoMemory;
use queue_model::Messages;
use std::alloc::Global;

/// The serials of messages.
pub(crate) fn serials_of(alloc: Global, messages: &Messages) -> Result<Vec<u64>, NoMemory>
    ensures { IfOk result (λ list. list.items ≡ serials messages.now) }
{
    let mut list = Vec::new(alloc);
    for place in 0..messages.len() {
        list.push(messages.get(place).serial)?;
    }
    Ok(list)
}

/// The types of messages, each once, in ascending order.
pub(crate) fn types_of(alloc: Global, messages: &Messages) -> Result<Vec<i64>, NoMemory>
    ensures { IfOk result (λ list. list.items ≡ types messages.now) }
{
    let mut list = Vec::new(alloc);
    for place in 0..messages.len() {
        put_type(&mut list, messages.get(place).mtype)?;
    }
    Ok(list)
}

/// Puts a type among ascending types, where it does not stand there yet.
fn put_type(list: &mut Vec<i64>, mtype: i64) -> Result<(), NoMemory>
    requires { AllPairs (λ (a b : ℤ). a <ℤ b) list.old.items }
    ensures { OnOk result (list.new.items ≡ with_type list.old.items mtype) }
{
    match list.binary_search(&mtype) {
        Ok(_) => Ok(()),
        Err(place) => {
            list.insert(place, mtype)?;
            Ok(())
        }
    }
}

/// The number before a place of a list.
pub(crate) fn before(list: &[u64], place: usize) -> Option<u64>
    ensures { result ≡ before_place list.now place }
{
    if place == 0 {
        return None;
    }
    list.get(place - 1).copied()
}

/// The number behind a place of a list.
pub(crate) fn behind(list: &[u64], place: usize) -> Option<u64>
    requires { place < length list.now }
    ensures { result ≡ slice_get list.now (place + 1) }
{
    list.get(place + 1).copied()
}

/// The first number of a list.
pub(crate) fn first(list: &[u64]) -> Option<u64>
    ensures { result ≡ first_of list.now }
{
    list.get(0).copied()
}

/// The last number of a list.
pub(crate) fn last(list: &[u64]) -> Option<u64>
    ensures { result ≡ last_of list.now }
{
    if list.is_empty() {
        return None;
    }
    list.get(list.len() - 1).copied()
}

/// The lowest of ascending types.
pub(crate) fn first_type(list: &[i64]) -> Option<i64>
    ensures { result ≡ first_of list.now }
{
    list.get(0).copied()
}

/// The type before a place of a list.
pub(crate) fn type_before(list: &[i64], place: usize) -> Option<i64>
    ensures { result ≡ before_place list.now place }
{
    if place == 0 {
        return None;
    }
    list.get(place - 1).copied()
}

/// The type behind a place of a list.
pub(crate) fn type_behind(list: &[i64], place: usize) -> Option<i64>
    requires { place < length list.now }
    ensures { result ≡ slice_get list.now (place + 1) }
{
    list.get(place + 1).copied()
}

/// The place of a type that stands on a list of ascending types.
pub(crate) fn place_of_type(list: &[i64], mtype: i64) -> usize
    requires ascend { AllPairs (λ (a b : ℤ). a <ℤ b) list.now }
    requires stands { Contains list.now mtype }
    ensures within { result < length list.now }
    ensures there { HoldsAt (λ (t : ℤ). t ≡ mtype) list.now result }
{
    match list.binary_search(&mtype) {
        Ok(place) => place,
        Err(_) => 0,
    }
}
