//! Whether queues can be those of a system.

ghost use Rattle.queue_model.specs.Places.{IsFirstOfItsKey};
ghost use Rattle.std.specs.Prelude.{◌≡◌, ◌<◌, false, length, map, IsTrue, ◌↔◌};
ghost use Rattle.std.specs.List.{AllPairs};
ghost use Rattle.queue_model.specs.declared.queue.Queue.{Queue};
ghost use Rattle.queue_model.specs.Lawful.{AreKeysApart, AreLawfulQueues, FollowsQueue, IsLawful};

use crate::queue::Queue;
use crate::system::first_with_key;
use numbers::limits::{END_OF_IDS, MAX_QUEUES};

/// Whether queues and a next id make up a lawful system.
pub(crate) fn are_lawful(queues: &[Queue], next_id: u32) -> bool
    ensures { IsTrue result ↔
        IsLawful (record { queues = queues.now; next_id = next_id; stopped = false }) }
{
    if queues.len() > MAX_QUEUES as usize || next_id < 1 || next_id > END_OF_IDS {
        return false;
    }
    if !are_lawful_queues(queues, next_id) {
        return false;
    }
    are_keys_apart(queues)
}

/// Whether each queue is lawful and its id was given out, and ids ascend.
fn are_lawful_queues(queues: &[Queue], next_id: u32) -> bool
    ensures { IsTrue result ↔ AreLawfulQueues next_id queues.now }
{
    let mut low = 0;
    for queue in queues {
        if !follows(queue, low, next_id) {
            return false;
        }
        low = queue.id;
    }
    true
}

/// Whether a queue can be alive under a next id, behind a queue of an id.
fn follows(queue: &Queue, low: u32, next_id: u32) -> bool
    ensures { IsTrue result ↔ FollowsQueue next_id low queue.now }
{
    low < queue.id && 1 <= queue.id && queue.id < next_id && queue.is_lawful()
}

/// Whether no two queues have one key. There are few queues.
fn are_keys_apart(queues: &[Queue]) -> bool
    ensures { IsTrue result ↔ AllPairs AreKeysApart (map (λ (q : Queue). q.key) queues.now) }
{
    for place in 0..queues.len() {
        if !is_first_of_its_key(queues, place) {
            return false;
        }
    }
    true
}

/// Whether no queue before a place has the key of the queue there.
fn is_first_of_its_key(queues: &[Queue], place: usize) -> bool
    requires { place < length queues.now }
    ensures { IsTrue result ↔ IsFirstOfItsKey queues.now place }
{
    match queues[place].key {
        Some(key) => first_with_key(queues, key) == Some(place),
        None => true,
    }
}
