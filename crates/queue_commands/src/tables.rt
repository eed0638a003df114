//! The tables.

ghost use Rattle.std.specs.Prelude.{◌≡◌, ◌<◌, ◌^◌, ◌++◌, OnOk, map};
ghost use Rattle.std.specs.List.{sum_by};
ghost use Rattle.queue_model.specs.Selection.{total_bytes};
ghost use Rattle.queue_commands.specs.Cells.{cell_text};
ghost use Rattle.queue_commands.specs.Tables.{bytes_of, message_cells, message_heads, messages_text, messages_total, queue_cells, queue_heads, queues_text, queues_total};

use crate::cell::Cell;
use crate::text::Text;
use numbers::faults::NoMemory;
use queue_model::{Message, Messages, QueueInfo, System};

/// Puts a table of the queues of a system last, in order of id, with headings and totals.
///
/// # Errors
///
/// `NoMemory` where there is none for the text.
pub fn put_queues(text: &mut Text, system: &System) -> Result<(), NoMemory>
    ensures { OnOk result (text.new ≡ text.old ++ queues_text system.now) }
{
    text.put_row(&headings_of_queues())?;
    for place in 0..system.queues() {
        if let Some(info) = system.info(place) {
            text.put_row(&cells_of_queue(&info))?;
        }
    }
    text.put_row(&totals_of_queues(system))
}

/// Puts a table of the messages of a queue last, in the order in which they were sent, with
/// headings and totals.
///
/// # Errors
///
/// `NoMemory` where there is none for the text.
pub fn put_messages(text: &mut Text, messages: &Messages) -> Result<(), NoMemory>
    requires { total_bytes messages.now < 2 ^ 64 }
    ensures { OnOk result (text.new ≡ text.old ++ messages_text messages.now) }
{
    text.put_row(&headings_of_messages())?;
    for place in 0..messages.len() {
        text.put_row(&cells_of_message(messages.get(place)))?;
    }
    text.put_row(&totals_of_messages(messages))
}

/// The headings of queues.
fn headings_of_queues<'a>() -> [Cell<'a>; 12]
    ensures { map cell_text result ≡ queue_heads }
{
    [
        Cell::Text(b"KEY"),
        Cell::Text(b"ID"),
        Cell::Text(b"MESSAGES"),
        Cell::Text(b"BYTES"),
        Cell::Text(b"LIMIT"),
        Cell::Text(b"MODE"),
        Cell::Text(b"OWNER"),
        Cell::Text(b"LSPID"),
        Cell::Text(b"LRPID"),
        Cell::Text(b"SENT"),
        Cell::Text(b"RECEIVED"),
        Cell::Text(b"CHANGED"),
    ]
}

/// The cells of a queue.
fn cells_of_queue<'a>(info: &QueueInfo) -> [Cell<'a>; 12]
    ensures { map cell_text result ≡ queue_cells info.now }
{
    [
        Cell::Key(info.key),
        Cell::Number(u64::from(info.id)),
        Cell::Number(u64::from(info.qnum)),
        Cell::Number(u64::from(info.cbytes)),
        Cell::Number(u64::from(info.qbytes)),
        Cell::Mode(info.permissions.mode),
        Cell::Number(u64::from(info.permissions.uid)),
        Cell::Number(u64::from(info.lspid)),
        Cell::Number(u64::from(info.lrpid)),
        Cell::Number(info.stime),
        Cell::Number(info.rtime),
        Cell::Number(info.ctime),
    ]
}

/// How many queues a system has, and how many messages and bytes are on them.
fn totals_of_queues<'a>(system: &System) -> [Cell<'a>; 4]
    ensures { map cell_text result ≡ queues_total system.now }
{
    [
        Cell::Text(b"total"),
        Cell::Number(system.queues() as u64),
        Cell::Number(system.messages() as u64),
        Cell::Number(bytes_on(system)),
    ]
}

/// How many bytes are on the queues of a system.
fn bytes_on(system: &System) -> u64
    ensures { result ≡ sum_by bytes_of system.now.queues }
{
    system.keeps_limits();
    let mut bytes = 0;
    for place in 0..system.queues() {
        bytes += system.queue(place).messages.total_bytes() as u64;
    }
    bytes
}

/// The headings of messages.
fn headings_of_messages<'a>() -> [Cell<'a>; 5]
    ensures { map cell_text result ≡ message_heads }
{
    [
        Cell::Text(b"SERIAL"),
        Cell::Text(b"TYPE"),
        Cell::Text(b"SENDER"),
        Cell::Text(b"LENGTH"),
        Cell::Text(b"BODY"),
    ]
}

/// The cells of a message.
fn cells_of_message(message: &Message) -> [Cell<'_>; 5]
    ensures { map cell_text result ≡ message_cells message.now }
{
    [
        Cell::Number(message.serial),
        Cell::Signed(message.mtype),
        Cell::Number(u64::from(message.sender)),
        Cell::Number(message.bytes.len() as u64),
        Cell::Body(message.bytes.as_slice()),
    ]
}

/// How many bytes messages have, and how many there are.
fn totals_of_messages<'a>(messages: &Messages) -> [Cell<'a>; 5]
    requires { total_bytes messages.now < 2 ^ 64 }
    ensures { map cell_text result ≡ messages_total messages.now }
{
    [
        Cell::Text(b"total"),
        Cell::Text(b""),
        Cell::Text(b""),
        Cell::Number(messages.total_bytes() as u64),
        Cell::Messages(messages.len() as u64),
    ]
}
