//! New files.

ghost use Rattle.std.specs.Prelude.{◌≡◌, ◌+◌, ◌<◌, ◌≤◌, [], IsTrue, OnOk};
ghost use Rattle.page_device.specs.Device.{HasCause};
ghost use Rattle.page_device.specs.declared.page.TheConstants.{MAX_PAGES};
ghost use Rattle.directory.specs.declared.layout.TheConstants.{LEAST_PAGES};
ghost use Rattle.directory.specs.Pages.{SpellsDirectory};
ghost use Rattle.bucket_page.specs.Changes.{SpellsBucket};
ghost use Rattle.record_file.specs.Files.{IsNewFile, MayNotFormat, entries_on, file_header, free_behind, new_page, new_records, root_bucket};

use bucket_page::{put, write_bucket, write_free};
use directory::{
    FIRST_DIRECTORY_PAGE, Header, LOCAL_DEPTHS, PAGE_ENTRIES, ROOT_PAGE, write_directory,
    write_header,
};
use page_device::{DeviceFault, PAYLOAD_BYTES, PageDevice, Payload, seal};
use step_rules::queue_records::{Counter, Value};

/// Makes a new file of so many pages on a device without pages: an empty directory of depth 0, a
/// root bucket with the record that counts queues, and all other pages on the list of free pages
/// (Fagin, Nievergelt, Pippenger and Strong 1979). It takes no memory of its own.
///
/// `Device` where a transfer failed, `NoMemory` where the device has none for another page. Either
/// leaves the pages written so far.
pub fn format<D: PageDevice>(device: &mut D, pages: u32) -> Result<(), DeviceFault>
    requires empty { D.content device.old ≡ [] }
    requires least { LEAST_PAGES ≤ pages }
    requires most { pages ≤ MAX_PAGES }
    ensures ok { IsTrue (D.is_honest device.old) →
        OnOk result (IsNewFile pages (D.content device.new)) }
    ensures synced { IsTrue (D.is_honest device.old) →
        OnOk result (IsTrue (D.is_synced device.new)) }
    ensures honest { D.is_honest device.new ≡ D.is_honest device.old }
    ensures cause { HasCause MayNotFormat
        (D.fault_count device.old) (D.fault_count device.new) result }
{
    let mut payload = [0; PAYLOAD_BYTES];
    for page in 0..pages {
        write_page(pages, page, &mut payload);
        device.extend(&seal(page, &payload))?;
    }
    device.sync()
}

/// Writes a page of a new file of so many pages.
fn write_page(pages: u32, page: u32, payload: &mut Payload)
    requires least { LEAST_PAGES ≤ pages }
    requires most { pages ≤ MAX_PAGES }
    requires within { page < pages }
    ensures { payload.new ≡ new_page pages page }
{
    if page == 0 {
        write_header(&new_header(pages), payload);
    } else if page == ROOT_PAGE {
        write_root(payload);
    } else if page < ROOT_PAGE {
        write_entries(payload, page);
    } else {
        write_free(payload, free_behind(pages, page));
    }
}

/// The header: one bucket, of local depth 0, and the pages behind it are free.
fn new_header(pages: u32) -> Header
    requires { pages ≤ MAX_PAGES }
    ensures { result ≡ file_header pages }
{
    let mut counts = [0; LOCAL_DEPTHS];
    counts[0] = 1;
    Header {
        depth: 0,
        pages,
        first_free: free_behind(pages, ROOT_PAGE),
        counts,
    }
}

/// The page that follows on the list of free pages, 0 behind the last.
fn free_behind(pages: u32, page: u32) -> u32
    requires { page < MAX_PAGES }
    ensures { result ≡ free_behind pages page }
{
    if page + 1 == pages { 0 } else { page + 1 }
}

/// Writes a page of the directory, of which entry 0 alone is in use.
fn write_entries(payload: &mut Payload, page: u32)
    ensures { SpellsDirectory (entries_on page) payload.new }
{
    let mut entries = [0; PAGE_ENTRIES];
    if page == FIRST_DIRECTORY_PAGE {
        entries[0] = ROOT_PAGE;
    }
    write_directory(payload, &entries);
}

/// Writes the root bucket. Its one record counts no queue, and gives the first id out next.
fn write_root(payload: &mut Payload)
    ensures { SpellsBucket (root_bucket new_records) payload.new }
{
    let counter = Counter {
        next_id: 1,
        queues_alive: 0,
    };
    let mut value = Value::new();
    counter.encode(&mut value);
    write_bucket(payload, 0, 0, 0);
    let _ = put(payload, &counter.key(), value.as_slice());
}
