//! Commands on message queues as a shell asks for them. Each is a few calls of one caller, one after the
//! other, and a text that is printed: tables or JSON of queues and messages. And the messages that an
//! input is.

#![tactic(auto)]

mod answering;
mod asking;
mod cell;
mod changing;
mod commands;
mod error;
mod finding;
mod lines;
mod messages;
mod objects;
mod plain;
mod queue_name;
mod receiving;
mod request;
mod sending;
mod tables;
mod text;
mod unsent;

pub use answering::Answering;
pub use commands::ask;
pub use error::{AskError, ExitStatus};
pub use messages::{Framing, messages_of};
pub use objects::{put_messages_json, put_queues_json};
pub use plain::PlainLists;
pub use queue_name::QueueName;
pub use request::{Command, NewQueue, Receiving, Request, Sending, Setting, Settings};
pub use tables::{put_messages, put_queues};
pub use text::Text;
pub use unsent::Unsent;
