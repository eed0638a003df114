//! Links set in the bytes of a value, where the record stands.

ghost use Rattle.std.specs.Prelude.{◌≡◌, ◌≤◌, ◌+◌, ◌++◌, ℕ, ℤ, List, Option, Some, length, unwrap_or};
ghost use Rattle.bucket_page.specs.numbers.Numbers.{eight};
ghost use Rattle.queue_records.specs.declared.layout.TheConstants.{MESSAGE_BYTES, TYPE_BYTES};
ghost use Rattle.queue_records.specs.declared.message_entry.MessageEntry.{MessageEntry};
ghost use Rattle.queue_records.specs.declared.record.Record.{Record};
ghost use Rattle.queue_records.specs.declared.type_entry.TypeEntry.{TypeEntry};
ghost use Rattle.queue_records.specs.Fields.{serial_number, type_link_number};
ghost use Rattle.queue_records.specs.Relinking.{HasSuch, linked, linked_bytes, relinked, with_message_links, with_type_links};
ghost use Rattle.queue_records.specs.Spelling.{message_bytes, type_bytes, value_of};

use crate::field::type_number;
use crate::layout::{MESSAGE_BYTES, TYPE_BYTES};
use crate::links::{Link, Links, MessageLinks, TypeLinks};
use bucket_page::fields::{set_bytes, write_eight};

impl Links {
    /// The links of such a record stand among so many bytes at the front of its value.
    pub fn front_bytes(&self) -> usize
        ensures { result ≡ linked_bytes self.now }
    {
        match self {
            Links::Message(_) => MESSAGE_BYTES,
            Links::Type(_) => TYPE_BYTES,
        }
    }
}

/// Sets new links at the front of the value of a record of their kind, or in all of the value.
/// The other bytes stay.
pub fn relink(front: &mut [u8], links: &Links)
    requires long { linked_bytes links.now ≤ length front.old }
    ensures set { (r : Record) (rest : List ℕ) → HasSuch links.now (Some r) →
        front.old ++ rest ≡ value_of r → front.new ++ rest ≡ value_of (relinked links.now r) }
    ensures len { length front.new ≡ length front.old }
{
    match links {
        Links::Message(links) => relink_message(front, links),
        Links::Type(links) => relink_type(front, links),
    }
}

fn relink_message(front: &mut [u8], links: &MessageLinks)
    requires long { MESSAGE_BYTES ≤ length front.old }
    ensures set { (m : MessageEntry) (rest : List ℕ) → front.old ++ rest ≡ message_bytes m →
        front.new ++ rest ≡ message_bytes (with_message_links links.now m) }
    ensures len { length front.new ≡ length front.old }
{
    set_number(front, 12, serial_set(links.previous));
    set_number(front, 20, serial_set(links.next));
    set_number(front, 28, serial_set(links.next_of_type));
}

fn relink_type(front: &mut [u8], links: &TypeLinks)
    requires long { TYPE_BYTES ≤ length front.old }
    ensures set { (t : TypeEntry) (rest : List ℕ) → front.old ++ rest ≡ type_bytes t →
        front.new ++ rest ≡ type_bytes (with_type_links links.now t) }
    ensures len { length front.new ≡ length front.old }
{
    set_number(front, 0, links.first);
    set_number(front, 8, links.last);
    set_number(front, 16, type_set(links.lower));
    set_number(front, 24, type_set(links.higher));
}

/// The number of a serial that is set, if one is.
fn serial_set(link: Link<u64>) -> Option<u64>
    ensures { (old : Option ℕ) →
        unwrap_or result (serial_number old) ≡ serial_number (linked link old) }
{
    match link {
        Link::Stays => None,
        Link::Ends => Some(0),
        Link::LeadsTo(serial) => Some(serial),
    }
}

/// The number of a type that is set, if one is.
fn type_set(link: Link<i64>) -> Option<u64>
    ensures { (old : Option ℤ) →
        unwrap_or result (type_link_number old) ≡ type_link_number (linked link old) }
{
    match link {
        Link::Stays => None,
        Link::Ends => Some(0),
        Link::LeadsTo(mtype) => Some(type_number(mtype)),
    }
}

/// Sets a number of eight bytes in its place, if there is one to set.
fn set_number(bytes: &mut [u8], place: usize, number: Option<u64>)
    requires { place + 8 ≤ length bytes.old }
    ensures set { (before behind : List ℕ) (old : ℕ) → length before ≡ place →
        bytes.old ≡ before ++ (eight old ++ behind) →
        bytes.new ≡ before ++ (eight (unwrap_or number old) ++ behind) }
    ensures len { length bytes.new ≡ length bytes.old }
{
    let Some(number) = number else { return };
    let mut new = [0; 8];
    write_eight(&mut new, number);
    set_bytes(bytes, place, &new);
}
