//! The core of a server: what comes of each record of the relay, and what may be told of it behind a
//! commit.

#![tactic(auto)]

mod came;
mod client;
mod durability;
mod hearing;
mod holding;
mod live_queues;
mod note;
mod opening;
mod outbox;
mod reserving;
mod returning;
mod server;
mod trouble;

pub use durability::Durability;
pub use durable_desk;
pub use frames;
pub use hearing::Heard;
pub use server::Server;
pub use trouble::{Unheard, Unopened, Unreleased};
