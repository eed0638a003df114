//! Headers written.

ghost use Rattle.std.specs.Prelude.{◌≡◌, ◌≤◌, length};
ghost use Rattle.page_device.specs.declared.page.TheConstants.{MAX_PAGES, PAYLOAD_BYTES};
ghost use Rattle.directory.specs.Spelling.{SpellsHeader, header_bytes};

use crate::header::Header;
use crate::layout::{COUNTS_BYTES, GREATEST_DEPTH, HEADER, LEAST_PAGES, MAGIC, VERSION};
use numbers::fields::{blank, write_four, write_numbers};
use page_device::{MAX_PAGES, Payload};

/// Writes a header over the whole payload.
pub fn write_header(header: &Header, payload: &mut Payload)
    requires depth { header.now.depth ≤ GREATEST_DEPTH }
    requires least { LEAST_PAGES ≤ header.now.pages }
    requires most { header.now.pages ≤ MAX_PAGES }
    ensures { SpellsHeader header.now payload.new }
{
    header.fits_bytes();
    write(payload, header);
}

fn write(bytes: &mut [u8], header: &Header)
    requires { length bytes.old ≡ PAYLOAD_BYTES }
    ensures { bytes.new ≡ header_bytes header.now }
{
    let (head, others) = bytes.split_at_mut(4);
    let (magic, others) = others.split_at_mut(8);
    let (pages, others) = others.split_at_mut(4);
    let (first_free, others) = others.split_at_mut(4);
    let (counts, rest) = others.split_at_mut(COUNTS_BYTES);
    head[0] = HEADER;
    head[1] = VERSION;
    head[2] = header.depth;
    head[3] = 0;
    magic.copy_from_slice(&MAGIC);
    write_four(pages, header.pages);
    write_four(first_free, header.first_free);
    write_numbers(counts, &header.counts);
    blank(rest);
}
