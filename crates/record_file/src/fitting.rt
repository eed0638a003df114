//! The numbers of links fit their fields.

ghost use Rattle.std.specs.Prelude.{IfSome, FitsSigned};
ghost use Rattle.std.specs.Int.{w64};
ghost use Rattle.queue_records.specs.Records.{FitsEight};
ghost use Rattle.queue_records.specs.Relinking.{IfLeads};
ghost use Rattle.record_file.specs.Purposes.{FitLinks, FitMessageLinks, FitTypeLinks};

use queue_records::{Link, Links, MessageLinks, TypeLinks, eight_fits, type_fits};

/// Those of links of either kind.
pub(crate) fn links_fit(links: &Links)
    ensures { FitLinks links.now }
{
    match links {
        Links::Message(links) => message_links_fit(links),
        Links::Type(links) => type_links_fit(links),
    }
}

fn message_links_fit(links: &MessageLinks)
    ensures { FitMessageLinks links.now }
{
    serial_link_fits(links.previous);
    serial_link_fits(links.next);
    serial_link_fits(links.next_of_type);
}

fn type_links_fit(links: &TypeLinks)
    ensures { FitTypeLinks links.now }
{
    serial_fits(links.first);
    serial_fits(links.last);
    type_link_fits(links.lower);
    type_link_fits(links.higher);
}

fn serial_link_fits(link: Link<u64>)
    ensures { IfLeads link FitsEight }
{
    match link {
        Link::Stays | Link::Ends => {}
        Link::LeadsTo(serial) => eight_fits(serial),
    }
}

fn type_link_fits(link: Link<i64>)
    ensures { IfLeads link (FitsSigned w64) }
{
    match link {
        Link::Stays | Link::Ends => {}
        Link::LeadsTo(mtype) => type_fits(mtype),
    }
}

fn serial_fits(serial: Option<u64>)
    ensures { IfSome serial FitsEight }
{
    match serial {
        None => {}
        Some(serial) => eight_fits(serial),
    }
}
