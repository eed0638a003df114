//! The map of a file as JSON.

ghost use Rattle.std.specs.Prelude.{◌≡◌, ◌∷◌, ◌++◌, [], false, IfOk, OnErr, OnOk, codes, map, string_bytes};
ghost use Rattle.msgq_cli.specs.Maps.{bucket_data, count, map_data, map_text};
ghost use Rattle.msgq_cli.specs.Outputs.{Prints};
ghost use Rattle.serde_json.specs.Data.{Data, array, no_members, object, put as with_member};
ghost use Rattle.serde_json.specs.View.{items_of, members_view, view};
ghost use Rattle.serde_json.specs.Written.{compact_text, has_float};

use crate::file_map::{FileMap, MappedBucket};
use crate::output::Output;
use numbers::faults::NoMemory;
use serde_json::{Map, Value, put};
use std::alloc::Global;
use std::io::Write;

/// Prints the map of a file as one JSON object and a line end.
///
/// # Errors
///
/// `NoMemory` where there is none for the object or for its text. Then nothing is printed.
pub fn print_map<W: Write + Drop>(
    alloc: Global,
    map: &FileMap,
    output: &mut Output<W>,
) -> Result<(), NoMemory>
    ensures ok { OnOk result (Prints output.old output.new (map_text map.now)) }
    ensures err { OnErr result (output.new ≡ output.old) }
{
    let text = text_of(alloc, map)?;
    put_line(text.as_bytes(), output);
    Ok(())
}

/// Prints a text and a line end.
fn put_line<W: Write + Drop>(text: &[u8], output: &mut Output<W>)
    ensures { Prints output.old output.new (text.now ++ 10 ∷ []) }
{
    output.put(text);
    output.put(b"\n");
}

/// The text of a map, without space.
fn text_of(alloc: Global, map: &FileMap) -> Result<String, NoMemory>
    ensures { IfOk result (λ text. string_bytes text ≡ compact_text (map_data map.now)) }
{
    let value = map_object(alloc, map)?;
    written(alloc, &value)
}

/// The text of a value without floats, without space.
fn written(alloc: Global, value: &Value) -> Result<String, NoMemory>
    ensures { (d : Data) → view value.now ≡ d → has_float d ≡ false →
        IfOk result (λ text. string_bytes text ≡ compact_text d) }
{
    Ok(value.to_string(alloc)?)
}

/// The object of a map.
fn map_object(alloc: Global, map: &FileMap) -> Result<Value, NoMemory>
    ensures { IfOk result (λ value. view value ≡ map_data map.now) }
{
    let mut members = Map::new(alloc);
    put_map(&mut members, alloc, map)?;
    Ok(Value::Object(members))
}

/// Puts a map into an object that is empty.
fn put_map(members: &mut Map<String, Value>, alloc: Global, map: &FileMap) -> Result<(), NoMemory>
    ensures { members_view members.old.entries ≡ no_members →
        OnOk result (object (members_view members.new.entries) ≡ map_data map.now) }
{
    put_buckets(members, alloc, map.buckets.as_slice())?;
    put_count(members, alloc, "depth", u64::from(map.depth))?;
    put_numbers(members, alloc, "entries", map.entries.as_slice())?;
    put_numbers(members, alloc, "free", map.free.as_slice())?;
    put_count(members, alloc, "messages", map.messages)?;
    put_count(members, alloc, "pages", u64::from(map.pages))?;
    put_count(members, alloc, "queues", map.queues)
}

/// Puts the objects of buckets as a member.
fn put_buckets(
    members: &mut Map<String, Value>,
    alloc: Global,
    buckets: &[MappedBucket],
) -> Result<(), NoMemory>
    ensures { OnOk result (members_view members.new.entries ≡ with_member (codes "buckets")
        (array (items_of (map bucket_data buckets.now))) (members_view members.old.entries)) }
{
    let values = bucket_objects(alloc, buckets)?;
    put(members, alloc, "buckets", Value::Array(values))?;
    Ok(())
}

/// Puts a list of numbers as a member.
fn put_numbers(
    members: &mut Map<String, Value>,
    alloc: Global,
    name: &str,
    numbers: &[u32],
) -> Result<(), NoMemory>
    ensures { OnOk result (members_view members.new.entries ≡ with_member name.now
        (array (items_of (map count numbers.now))) (members_view members.old.entries)) }
{
    let values = numbers_of(alloc, numbers)?;
    put(members, alloc, name, Value::Array(values))?;
    Ok(())
}

/// Puts a number as a member.
fn put_count(
    members: &mut Map<String, Value>,
    alloc: Global,
    name: &str,
    number: u64,
) -> Result<(), NoMemory>
    ensures { OnOk result (members_view members.new.entries
        ≡ with_member name.now (count number) (members_view members.old.entries)) }
{
    put(members, alloc, name, Value::from(number))?;
    Ok(())
}

/// An object for each bucket.
fn bucket_objects(alloc: Global, buckets: &[MappedBucket]) -> Result<Vec<Value>, NoMemory>
    ensures { IfOk result (λ values. map view values.items ≡ map bucket_data buckets.now) }
{
    let mut values = Vec::with_capacity(alloc, buckets.len())?;
    for bucket in buckets {
        let value = bucket_object(alloc, *bucket)?;
        values.push(value)?;
    }
    Ok(values)
}

/// The object of a bucket.
fn bucket_object(alloc: Global, bucket: MappedBucket) -> Result<Value, NoMemory>
    ensures { IfOk result (λ value. view value ≡ bucket_data bucket) }
{
    let mut members = Map::new(alloc);
    put_bucket(&mut members, alloc, bucket)?;
    Ok(Value::Object(members))
}

/// Puts a bucket into an object that is empty.
fn put_bucket(
    members: &mut Map<String, Value>,
    alloc: Global,
    bucket: MappedBucket,
) -> Result<(), NoMemory>
    ensures { members_view members.old.entries ≡ no_members →
        OnOk result (object (members_view members.new.entries) ≡ bucket_data bucket) }
{
    put_count(members, alloc, "bytes", bucket.bytes)?;
    put_count(members, alloc, "depth", u64::from(bucket.depth))?;
    put_count(members, alloc, "next", u64::from(bucket.next))?;
    put_count(members, alloc, "page", u64::from(bucket.page))?;
    put_count(members, alloc, "pattern", u64::from(bucket.pattern))?;
    put_count(members, alloc, "records", bucket.records)
}

/// A value for each number.
fn numbers_of(alloc: Global, numbers: &[u32]) -> Result<Vec<Value>, NoMemory>
    ensures { IfOk result (λ values. map view values.items ≡ map count numbers.now) }
{
    let mut values = Vec::with_capacity(alloc, numbers.len())?;
    for number in numbers {
        let value = Value::from(*number);
        values.push(value)?;
    }
    Ok(values)
}
