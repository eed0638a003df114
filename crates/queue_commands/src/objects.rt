//! JSON objects of queues and messages, whose members have POSIX's names.

ghost use Rattle.std.specs.Prelude.{◌≡◌, ◌++◌, ◌%◌, IfOk, OnOk, map, string_bytes};
ghost use Rattle.std.specs.Fmt.{decimal};
ghost use Rattle.queue_commands.specs.Cells.{mode_text};
ghost use Rattle.queue_commands.specs.Json.{IsPlain, PutsJson, count, info_data, key_data, message_data, messages_data, permissions_data, queue_data, queues_data, queues_of};
ghost use Rattle.serde_json.specs.Data.{Data, no_members, object, put as with_member};
ghost use Rattle.serde_json.specs.View.{members_view, view};

use crate::text::Text;
use itoa::Buffer;
use numbers::faults::NoMemory;
use queue_model::{Message, Messages, Permissions, QueueInfo, System};
use serde_json::{Map, Value, json, put};
use std::alloc::Global;

/// Puts the queues of a system last, in order of id, as one JSON object and a line.
///
/// # Errors
///
/// `NoMemory` where there is none for the object or for the text, here and below.
pub fn put_queues_json(text: &mut Text, alloc: Global, system: &System) -> Result<(), NoMemory>
    ensures { OnOk result (PutsJson (queues_data system.now) text.old text.new) }
{
    let queues = queue_objects(alloc, system)?;
    let value = queues_object(alloc, queues)?;
    put_object(text, alloc, &value)
}

/// Puts what Stat tells of a queue and its messages last, in the order in which they were sent, as
/// one JSON object and a line.
pub fn put_messages_json(
    text: &mut Text,
    alloc: Global,
    info: &QueueInfo,
    messages: &Messages,
) -> Result<(), NoMemory>
    ensures { OnOk result (PutsJson (messages_data info.now messages.now) text.old text.new) }
{
    let value = messages_object(alloc, info, messages)?;
    put_object(text, alloc, &value)
}

/// Puts what a value says last, as a line.
fn put_object(text: &mut Text, alloc: Global, value: &Value) -> Result<(), NoMemory>
    ensures { (d : Data) → view value.now ≡ d → IsPlain d →
        OnOk result (PutsJson d text.old text.new) }
{
    text.put(value.to_string(alloc)?.as_bytes())?;
    text.put(b"\n")
}

/// The object of queues.
fn queues_object(alloc: Global, queues: Vec<Value>) -> Result<Value, NoMemory>
    ensures { IfOk result (λ value. view value ≡ queues_of (map view queues.items)) }
{
    Ok(json!(in alloc; {"queues": queues})?)
}

/// The object of a queue and of its messages.
fn messages_object(alloc: Global, info: &QueueInfo, messages: &Messages) -> Result<Value, NoMemory>
    ensures { IfOk result (λ value. view value ≡ messages_data info.now messages.now) }
{
    let mut members = Map::new(alloc);
    put_held(&mut members, alloc, info, messages)?;
    Ok(Value::Object(members))
}

/// Puts a queue and its messages into an object that is empty.
fn put_held(
    members: &mut Map<String, Value>,
    alloc: Global,
    info: &QueueInfo,
    messages: &Messages,
) -> Result<(), NoMemory>
    ensures { members_view members.old.entries ≡ no_members → OnOk result
        (object (members_view members.new.entries) ≡ messages_data info.now messages.now) }
{
    let messages = message_objects(alloc, messages)?;
    put(members, alloc, "messages", Value::Array(messages))?;
    let queue = info_object(alloc, info)?;
    put(members, alloc, "queue", queue)?;
    Ok(())
}

/// An object for each queue of a system.
fn queue_objects(alloc: Global, system: &System) -> Result<Vec<Value>, NoMemory>
    ensures { IfOk result (λ values. map view values.items ≡ map queue_data system.now.queues) }
{
    let mut values = Vec::new(alloc);
    for place in 0..system.queues() {
        if let Some(info) = system.info(place) {
            let value = info_object(alloc, &info)?;
            values.push(value)?;
        }
    }
    Ok(values)
}

/// An object for each message.
fn message_objects(alloc: Global, messages: &Messages) -> Result<Vec<Value>, NoMemory>
    ensures { IfOk result (λ values. map view values.items ≡ map message_data messages.now) }
{
    let mut values = Vec::new(alloc);
    for place in 0..messages.len() {
        let value = message_object(alloc, messages.get(place))?;
        values.push(value)?;
    }
    Ok(values)
}

/// What Stat tells of a queue.
fn info_object(alloc: Global, info: &QueueInfo) -> Result<Value, NoMemory>
    ensures { IfOk result (λ value. view value ≡ info_data info.now) }
{
    let mut members = Map::new(alloc);
    put_info(&mut members, alloc, *info)?;
    Ok(Value::Object(members))
}

/// Puts what Stat tells of a queue into an object that is empty.
fn put_info(
    members: &mut Map<String, Value>,
    alloc: Global,
    info: QueueInfo,
) -> Result<(), NoMemory>
    ensures { members_view members.old.entries ≡ no_members →
        OnOk result (object (members_view members.new.entries) ≡ info_data info) }
{
    put_count(members, alloc, "id", u64::from(info.id))?;
    put(members, alloc, "key", key_value(info.key))?;
    put_count(members, alloc, "msg_cbytes", u64::from(info.cbytes))?;
    put_count(members, alloc, "msg_ctime", info.ctime)?;
    put_count(members, alloc, "msg_lrpid", u64::from(info.lrpid))?;
    put_count(members, alloc, "msg_lspid", u64::from(info.lspid))?;
    let permissions = permissions_object(alloc, info.permissions)?;
    put(members, alloc, "msg_perm", permissions)?;
    put_count(members, alloc, "msg_qbytes", u64::from(info.qbytes))?;
    put_count(members, alloc, "msg_qnum", u64::from(info.qnum))?;
    put_count(members, alloc, "msg_rtime", info.rtime)?;
    put_count(members, alloc, "msg_stime", info.stime)?;
    Ok(())
}

/// A key, or null where there is none.
fn key_value(key: Option<u32>) -> Value
    ensures { view result ≡ key_data key }
{
    match key {
        Some(key) => Value::from(key),
        None => Value::Null,
    }
}

/// The owner, the creator and the mode of a queue.
fn permissions_object(alloc: Global, permissions: Permissions) -> Result<Value, NoMemory>
    ensures { IfOk result (λ value. view value ≡ permissions_data permissions) }
{
    let mut members = Map::new(alloc);
    put_permissions(&mut members, alloc, permissions)?;
    Ok(Value::Object(members))
}

/// Puts the owner, the creator and the mode of a queue into an object that is empty.
fn put_permissions(
    members: &mut Map<String, Value>,
    alloc: Global,
    permissions: Permissions,
) -> Result<(), NoMemory>
    ensures { members_view members.old.entries ≡ no_members →
        OnOk result (object (members_view members.new.entries) ≡ permissions_data permissions) }
{
    put_count(members, alloc, "cgid", u64::from(permissions.cgid))?;
    put_count(members, alloc, "cuid", u64::from(permissions.cuid))?;
    put_count(members, alloc, "gid", u64::from(permissions.gid))?;
    put_count(members, alloc, "mode", u64::from(permissions.mode))?;
    let digits = octal(alloc, permissions.mode)?;
    put(members, alloc, "mode_octal", Value::from(digits))?;
    put_count(members, alloc, "uid", u64::from(permissions.uid))?;
    Ok(())
}

/// Nine bits as three octal digits.
fn octal(alloc: Global, mode: u16) -> Result<String, NoMemory>
    ensures { IfOk result (λ digits. string_bytes digits ≡ mode_text mode) }
{
    let mut digits = String::new(alloc);
    push_digit(&mut digits, mode / 64)?;
    push_digit(&mut digits, mode / 8)?;
    push_digit(&mut digits, mode)?;
    Ok(digits)
}

/// Puts the last octal digit of a number last.
fn push_digit(digits: &mut String, number: u16) -> Result<(), NoMemory>
    ensures { OnOk result (string_bytes digits.new
        ≡ string_bytes digits.old ++ decimal (number % 8)) }
{
    digits.push_str(Buffer::new().format(number % 8))?;
    Ok(())
}

/// A message: its bytes as a text, in which what is no UTF-8 is replaced, and in hexadecimal
/// digits.
fn message_object(alloc: Global, message: &Message) -> Result<Value, NoMemory>
    ensures { IfOk result (λ value. view value ≡ message_data message.now) }
{
    let mut members = Map::new(alloc);
    put_message(&mut members, alloc, message)?;
    Ok(Value::Object(members))
}

/// Puts a message into an object that is empty.
fn put_message(
    members: &mut Map<String, Value>,
    alloc: Global,
    message: &Message,
) -> Result<(), NoMemory>
    ensures { members_view members.old.entries ≡ no_members →
        OnOk result (object (members_view members.new.entries) ≡ message_data message.now) }
{
    let bytes = message.bytes.as_slice();
    put_count(members, alloc, "length", bytes.len() as u64)?;
    let text = String::from_utf8_lossy(alloc, bytes)?;
    put(members, alloc, "mtext", Value::from(text))?;
    let digits = hex::encode(alloc, bytes)?;
    put(members, alloc, "mtext_hex", Value::from(digits))?;
    put(members, alloc, "mtype", Value::from(message.mtype))?;
    put_count(members, alloc, "sender", u64::from(message.sender))?;
    put_count(members, alloc, "serial", message.serial)?;
    Ok(())
}

/// Puts a number as a member.
fn put_count(
    members: &mut Map<String, Value>,
    alloc: Global,
    name: &str,
    number: u64,
) -> Result<(), NoMemory>
    ensures { OnOk result (members_view members.new.entries
        ≡ with_member name.now (count number) (members_view members.old.entries)) }
{
    put(members, alloc, name, Value::from(number))?;
    Ok(())
}
