//! How a queue is named.

ghost use Rattle.std.specs.Prelude.{◌≡◌, position};
ghost use Rattle.queue_commands.specs.Naming.{is_named};

use queue_model::{Queue, System};

/// How a queue is named.
#[derive(Clone, Copy)]
pub enum QueueName {
    /// By its key.
    Key(u32),
    /// By its id.
    Id(u32),
}

impl QueueName {
    /// The place of the queue in a system, from 0 on in ascending order of id.
    pub fn place_in(self, system: &System) -> Option<usize>
        ensures { result ≡ position (is_named self) system.now.queues }
    {
        for place in 0..system.queues() {
            if self.names(system.queue(place)) {
                return Some(place);
            }
        }
        None
    }

    /// Whether it is the name of a queue.
    fn names(self, queue: &Queue) -> bool
        ensures { result ≡ is_named self queue.now }
    {
        match self {
            QueueName::Key(key) => queue.key == Some(key),
            QueueName::Id(id) => queue.id == id,
        }
    }
}
