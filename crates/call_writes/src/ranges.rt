//! Where a write is made, and whether what it writes keeps the limits of one record.

ghost use Rattle.std.specs.Prelude.{◌≡◌, ◌↔◌, IsTrue, IfSome};
ghost use Rattle.queue_records.specs.Range.{IsSerial, IsType};
ghost use Rattle.queue_records.specs.Relinking.{AreLinksInRange, AreMessageLinksInRange, AreTypeLinksInRange, IfLeads};
ghost use Rattle.xsi_inquiry.specs.Writing.{HasRange, key_written};

use bucket_page::RecordKey;
use queue_records::{Link, Links, MessageLinks, TypeLinks};
use xsi_inquiry::Write;

/// The key at which it writes.
pub(crate) fn key_written(write: &Write) -> RecordKey
    ensures { result ≡ key_written write.now }
{
    match write {
        Write::Replace(entry) => entry.key(),
        Write::Relink(key, _) => *key,
        Write::Delete(key) => *key,
    }
}

/// Whether the limits are kept. The records that were read keep theirs, but on a device that fails
/// no more is known of what was made of them.
pub(crate) fn has_range(write: &Write) -> bool
    ensures { IsTrue result ↔ HasRange write.now }
{
    match write {
        Write::Replace(entry) => entry.is_in_range(),
        Write::Relink(_, links) => are_links_in_range(links),
        Write::Delete(_) => true,
    }
}

fn are_links_in_range(links: &Links) -> bool
    ensures { IsTrue result ↔ AreLinksInRange links.now }
{
    match links {
        Links::Message(links) => are_message_links_in_range(links),
        Links::Type(links) => are_type_links_in_range(links),
    }
}

fn are_message_links_in_range(links: &MessageLinks) -> bool
    ensures { IsTrue result ↔ AreMessageLinksInRange links.now }
{
    leads_to_serial(links.previous)
        && leads_to_serial(links.next)
        && leads_to_serial(links.next_of_type)
}

fn are_type_links_in_range(links: &TypeLinks) -> bool
    ensures { IsTrue result ↔ AreTypeLinksInRange links.now }
{
    is_serial(links.first)
        && is_serial(links.last)
        && leads_to_type(links.lower)
        && leads_to_type(links.higher)
}

fn leads_to_serial(link: Link<u64>) -> bool
    ensures { IsTrue result ↔ IfLeads link IsSerial }
{
    match link {
        Link::Stays | Link::Ends => true,
        Link::LeadsTo(serial) => serial >= 1,
    }
}

fn leads_to_type(link: Link<i64>) -> bool
    ensures { IsTrue result ↔ IfLeads link IsType }
{
    match link {
        Link::Stays | Link::Ends => true,
        Link::LeadsTo(mtype) => mtype >= 1,
    }
}

fn is_serial(serial: Option<u64>) -> bool
    ensures { IsTrue result ↔ IfSome serial IsSerial }
{
    match serial {
        None => true,
        Some(serial) => serial >= 1,
    }
}
