//! The pair of the system beside the one in memory: the same saves, notes, kills and openings leave the same
//! pages and journals.

ghost use Rattle.std.specs.Prelude.{IsTrue};
ghost use Rattle.safe_device.specs.Safe.{IsAtRest, IsSafe};

use rollback_journal::SystemPair;
use safe_device::page_device::{PAGE_BYTES, Page, PageDevice};
use safe_device::{GuardedFile, Images, Loss, MemPair, PageImage, PagePair, SafeDevice, recover};
use std::alloc::Global;
use std::fs::{self, File, OpenOptions};
use std::rt::Files;
use std::test::Fail;

/// Numbers that are drawn.
#[derive(Clone, Copy)]
struct Dice {
    state: u32,
}

impl Dice {
    /// One below a bound.
    fn roll(&mut self, sides: u32) -> u32 {
        self.state = self
            .state
            .wrapping_mul(1_664_525)
            .wrapping_add(1_013_904_223);
        if sides == 0 {
            return 0;
        }
        (self.state >> 8) % sides
    }
}

/// A page full of a byte that is drawn.
fn draw_page(dice: &mut Dice) -> Page {
    [(dice.roll(250) % 250) as u8; PAGE_BYTES]
}

/// Notes the first bytes of a page as calls.
fn note<P: PagePair>(device: &mut SafeDevice<P>, dice: &mut Dice) -> Result<(), Fail> {
    let page = draw_page(dice);
    let many = dice.roll(100) as usize % PAGE_BYTES;
    device.note(&page[..many])?;
    Ok(())
}

/// Saves some pages, and maybe adds one.
fn save<P: PagePair>(device: &mut SafeDevice<P>, dice: &mut Dice) -> Result<(), Fail> {
    for _ in 0..dice.roll(3) {
        device.write(dice.roll(2), &draw_page(dice))?;
    }
    if dice.roll(8) == 0 {
        device.extend(&draw_page(dice))?;
    }
    device.sync()?;
    Ok(())
}

/// Saves and notes some times.
fn serve<P: PagePair>(device: &mut SafeDevice<P>, dice: &mut Dice) -> Result<(), Fail> {
    for _ in 0..dice.roll(4) {
        if dice.roll(3) > 0 {
            note(device, dice)?;
        } else {
            save(device, dice)?;
        }
    }
    Ok(())
}

/// Images of some pages.
fn draw_images(alloc: Global, dice: &mut Dice) -> Result<Vec<PageImage>, Fail> {
    let mut images = Vec::new(alloc);
    for _ in 0..dice.roll(3) {
        images.push(PageImage {
            page: dice.roll(2),
            bytes: draw_page(dice),
        })?;
    }
    Ok(images)
}

/// Writes pages whose images stand in the journal, and maybe adds one.
fn write<P: PagePair>(
    alloc: Global,
    file: &mut GuardedFile<P>,
    pages: &[PageImage],
    dice: &mut Dice,
) -> Result<(), Fail>
    requires { IsTrue P.is_honest → IsSafe P.file P.journal P.may_leave file.old }
{
    file.write_all(&mut Images::new(alloc), pages)?;
    if dice.roll(3) == 0 {
        file.extend(&draw_page(dice))?;
    }
    Ok(())
}

/// Writes pages of a pair at rest, and is killed before their journal ends.
fn cut_off<P: PagePair + Drop>(alloc: Global, pair: P, dice: &mut Dice) -> Result<P, Fail>
    requires { IsTrue P.is_honest → IsAtRest P.file P.journal P.may_leave pair }
{
    let mut file = GuardedFile::new(alloc, pair)?;
    let pages = draw_images(alloc, dice)?;
    write(alloc, &mut file, &pages, dice)?;
    Ok(file.pair)
}

/// Saves and notes on a pair at rest, and is killed.
fn served<P: PagePair + Drop>(alloc: Global, pair: P, dice: &mut Dice) -> Result<P, Fail>
    requires { IsTrue P.is_honest → IsAtRest P.file P.journal P.may_leave pair }
{
    let mut device = SafeDevice::new(alloc, pair)?;
    serve(&mut device, dice)?;
    Ok(device.into_pair())
}

/// Opens a pair, does something with it, and is killed.
fn opened<P: PagePair + Drop>(alloc: Global, pair: P, dice: &mut Dice) -> Result<P, Fail> {
    let mut pair = pair;
    recover(&mut pair)?;
    if dice.roll(3) == 0 {
        cut_off(alloc, pair, dice)
    } else {
        served(alloc, pair, dice)
    }
}

/// Whether both have the same pages.
fn have_same_pages<P: PagePair>(one: &P, other: &MemPair) -> Result<bool, Fail> {
    let (mut page, mut its) = ([0; PAGE_BYTES], [0; PAGE_BYTES]);
    for number in 0..other.pages() {
        one.load(number, &mut page)?;
        other.load(number, &mut its)?;
        if page != its {
            return Ok(false);
        }
    }
    Ok(one.pages() == other.pages())
}

/// An addition of calls.
fn calls_at<P: PagePair>(alloc: Global, pair: &P, index: usize) -> Result<Vec<u8>, Fail> {
    let mut calls = Vec::new(alloc);
    pair.load_calls(index, &mut calls)?;
    Ok(calls)
}

/// Whether both have the same calls, of which there are so many additions.
fn have_same_calls<P: PagePair>(
    alloc: Global,
    one: &P,
    other: &MemPair,
    many: usize,
) -> Result<bool, Fail> {
    for index in 0..many {
        if calls_at(alloc, one, index)? != calls_at(alloc, other, index)? {
            return Ok(false);
        }
    }
    Ok(true)
}

/// Whether both have the same images, of which there are so many.
fn have_same_images<P: PagePair>(one: &P, other: &MemPair, many: u32) -> Result<bool, Fail> {
    let (mut page, mut its) = ([0; PAGE_BYTES], [0; PAGE_BYTES]);
    for index in 0..many {
        let number = one.load_image(index, &mut page)?;
        if number != other.load_image(index, &mut its)? || page != its {
            return Ok(false);
        }
    }
    Ok(true)
}

/// Whether both have the same journal.
fn have_same_journal<P: PagePair>(alloc: Global, one: &P, other: &MemPair) -> Result<bool, Fail> {
    let found = one.find_journal()?;
    if found != other.find_journal()? {
        return Ok(false);
    }
    let Some(found) = found else {
        return Ok(true);
    };
    Ok(
        have_same_calls(alloc, one, other, found.calls)?
            && have_same_images(one, other, found.images)?,
    )
}

/// A file of the system anew, of so many bytes.
fn make<R: Files<File = File>>(rt: &R, path: &str, bytes: u64) -> Result<(), Fail> {
    let mut how = OpenOptions::new();
    how.read(true).write(true).create(true).truncate(true);
    how.open(rt, path)?.set_len(bytes)?;
    Ok(())
}

/// An open file that is there.
fn found<R: Files<File = File>>(rt: &R, path: &str) -> Result<File, Fail> {
    let mut how = OpenOptions::new();
    how.read(true).write(true);
    Ok(how.open(rt, path)?)
}

/// The pair of the system.
fn on_disk<R: Files<File = File>>(rt: &R, alloc: Global) -> Result<SystemPair<File>, Fail> {
    let file = found(rt, "beside")?;
    let journal = found(rt, "beside.journal")?;
    Ok(SystemPair::new(alloc, file, journal)?)
}

/// The same is done with both, each of which is opened first. Whether they have the same then.
fn is_same_beside<R: Files<File = File>>(
    rt: &R,
    alloc: Global,
    memory: &MemPair,
    before: Dice,
) -> Result<bool, Fail> {
    let mut dice = before;
    let system = opened(alloc, on_disk(rt, alloc)?, &mut dice)?;
    Ok(have_same_pages(&system, memory)? && have_same_journal(alloc, &system, memory)?)
}

#[test]
fn both_pairs_leave_the_same(rt: HostRuntime) -> Result<(), Fail> {
    let alloc = rt.alloc();
    make(&rt, "beside", 2 * PAGE_BYTES as u64)?;
    make(&rt, "beside.journal", 0)?;
    let pages = Vec::from_array(alloc, [[0; PAGE_BYTES]; 2])?;
    let mut memory = MemPair::new(alloc, pages, 10_000)?;
    let mut dice = Dice { state: 11 };
    for round in 0..300 {
        let before = dice;
        memory = opened(alloc, memory, &mut dice)?;
        assert!(rt;
            is_same_beside(&rt, alloc, &memory, before)?,
            "round {round}"
        );
        memory = memory.crash(Loss::Nothing, true, 10_000)?;
    }
    fs::remove_file(&rt, "beside")?;
    fs::remove_file(&rt, "beside.journal")?;
    Ok(())
}
