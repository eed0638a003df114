//! The frames of a pool: which page each holds, and how often each page is pinned.
ghost use Rattle.std.specs.Prelude.{◌≡◌, ◌+◌, ◌-◌, ◌^◌, ◌<◌, length, replicate, ℕ, true, false, Some, None, IsSome, IfOk};
ghost use Rattle.buffer_pool.specs.Table.{place_of, pins_of, page_of, is_changed, payload_in, count_pinned, no_pages, with_pins, moved_in, cleaned_at, without, IsWhole, IsFree, IsNext, IsTaken};
ghost use Rattle.std.specs.Borrow.{sem};
ghost use Rattle.page_device.specs.Sealed.{IsSealed, payload_of};
ghost use Rattle.buffer_pool.specs.Lending.{LendsPayload};

use crate::file_page::FilePage;
use crate::framed::Framed;
use page_device::Page;
use std::alloc::{AllocError, Global};
use std::marker::Model;

/// Frames, each with a place for one payload, and the pages that they hold.
#[derive(Drop)]
pub struct Table {
    places: Vec<Option<usize>>,
    pins: Vec<u32>,
    pinned: usize,
    pages: Vec<Option<u32>>,
    changed: Vec<bool>,
    /// The payloads of the frames that hold pages, which are the first ones. Room for all is taken
    /// at the opening and touched as they are filled, so that only then the system gives it memory.
    payloads: Vec<Framed>,
    /// Of each frame, whether it was used since the hand went by.
    used: Vec<bool>,
    /// Where the search for a frame goes on.
    hand: usize,
}

impl Model for Table {
    ghost use Rattle.std.specs.Prelude.{length, vec_capacity};
    ghost use Rattle.buffer_pool.specs.Table.{Held, IsKept, filled_up};

    ghost Value = { Held };

    ghost view = { λ t. record {
      places = t.places.items;
      pins = t.pins.items;
      pages = t.pages.items;
      changed = t.changed.items;
      payloads = filled_up (length t.pages.items) t.payloads.items;
    } };

    ghost invariant = { λ t. IsKept t.pinned (length t.payloads.items) (vec_capacity t.payloads)
        t.used.items (record {
          places = t.places.items;
          pins = t.pins.items;
          pages = t.pages.items;
          changed = t.changed.items;
          payloads = filled_up (length t.pages.items) t.payloads.items;
        }) };
}

impl Table {
    /// So many frames, which hold none of so many pages. All memory is taken here.
    pub fn new(alloc: Global, pages: usize, frames: usize) -> Result<Table, AllocError>
        ensures { IfOk result (λ table. table ≡ no_pages pages frames) }
    {
        Ok(Table {
            places: copies(alloc, None, pages)?,
            pins: copies(alloc, 0, pages)?,
            pinned: 0,
            pages: copies(alloc, None, frames)?,
            changed: copies(alloc, false, frames)?,
            payloads: Vec::with_capacity(alloc, frames)?,
            used: copies(alloc, false, frames)?,
            hand: 0,
        })
    }

    /// How many frames there are.
    pub fn frames(&self) -> usize
        ensures { result ≡ length self.now.pages }
    {
        self.pages.len()
    }

    /// The frame of a page.
    pub fn place(&self, page: u32) -> Option<usize>
        requires { page < length self.now.places }
        ensures { result ≡ place_of self.now page }
    {
        self.places[page as usize]
    }

    /// How often a page is pinned.
    pub fn pins(&self, page: u32) -> u32
        requires { page < length self.now.places }
        ensures { result ≡ pins_of self.now page }
    {
        self.pins[page as usize]
    }

    /// The page of a frame.
    pub fn page(&self, frame: usize) -> Option<u32>
        requires { frame < length self.now.pages }
        ensures { result ≡ page_of self.now frame }
    {
        self.pages[frame]
    }

    /// Whether a frame was changed since it was read or written.
    pub fn is_changed(&self, frame: usize) -> bool
        requires { frame < length self.now.pages }
        ensures { result ≡ is_changed self.now frame }
    {
        self.changed[frame]
    }

    /// The payload in a frame that holds a page.
    pub fn payload(&self, frame: usize) -> &FilePage
        requires { IsSome (page_of self.now frame) }
        ensures { result.now ≡ payload_in self.now frame }
    {
        self.payloads[frame].page()
    }

    /// How many pages are pinned.
    pub fn pinned(&self) -> usize
        ensures { result ≡ count_pinned self.now.pins }
    {
        self.pinned
    }

    /// Pins a page, which is in a frame, once more.
    pub fn pin(&mut self, page: u32)
        requires placed { IsSome (place_of self.old page) }
        requires room { pins_of self.old page + 1 < 2 ^ 32 }
        ensures { self.new ≡ with_pins page (pins_of self.old page + 1) self.old }
    {
        let pins = self.pins[page as usize];
        self.pins[page as usize] = pins + 1;
        if pins == 0 {
            self.pinned += 1;
        }
    }

    /// Pins a page once less.
    pub fn unpin(&mut self, page: u32)
        requires { 0 < pins_of self.old page }
        ensures { self.new ≡ with_pins page (pins_of self.old page - 1) self.old }
    {
        let pins = self.pins[page as usize];
        self.pins[page as usize] = pins - 1;
        if pins == 1 {
            self.pinned -= 1;
        }
    }

    /// Says what is true of each table.
    pub fn keeps_whole(&self)
        ensures { IsWhole self.now }
    {
        let _ = &self.pinned;
    }

    /// The first frame that holds no page. Where each holds one, a frame whose page is not pinned:
    /// the first one that was not used since the hand went by.
    pub fn free_frame(&mut self) -> usize
        requires { count_pinned self.old.pins < length self.old.pages }
        ensures free { IsFree self.old result }
        ensures next { IsNext self.old.pages result }
        ensures within { result < length self.old.pages }
        ensures same { self.new ≡ self.old }
    {
        let filled = self.payloads.len();
        if filled < self.pages.len() {
            return filled;
        }
        self.unused_frame()
    }

    /// A frame whose page is not pinned: the first one that was not used since the hand went by.
    fn unused_frame(&mut self) -> usize
        requires { count_pinned self.old.pins < length self.old.pages }
        ensures free { IsFree self.old result }
        ensures within { result < length self.old.pages }
        ensures same { self.new ≡ self.old }
    {
        for _ in 0..self.pages.len().saturating_mul(2) {
            let frame = self.next_frame();
            if self.is_free(frame) && !self.was_used(frame) {
                return frame;
            }
        }
        self.first_free()
    }

    /// The frame at the hand, which goes on.
    fn next_frame(&mut self) -> usize
        requires { 0 < length self.old.pages }
        ensures within { result < length self.old.pages }
        ensures same { self.new ≡ self.old }
    {
        if self.hand >= self.pages.len() {
            self.hand = 0;
        }
        let frame = self.hand;
        self.hand += 1;
        frame
    }

    /// Whether the frame was used since the hand went by, which it does now.
    fn was_used(&mut self, frame: usize) -> bool
        requires { frame < length self.old.pages }
        ensures { self.new ≡ self.old }
    {
        let used = self.used[frame];
        self.used[frame] = false;
        used
    }

    fn is_free(&self, frame: usize) -> bool
        requires { frame < length self.now.pages }
        ensures free { result ≡ true → IsFree self.now frame }
        ensures taken { result ≡ false → IsTaken self.now frame }
    {
        self.keeps_whole();
        match self.page(frame) {
            Some(page) => self.pins(page) == 0,
            None => true,
        }
    }

    /// There are more frames than pinned pages, so one is free.
    fn first_free(&self) -> usize
        requires { count_pinned self.now.pins < length self.now.pages }
        ensures free { IsFree self.now result }
        ensures within { result < length self.now.pages }
    {
        for frame in 0..self.pages.len() {
            if self.is_free(frame) {
                return frame;
            }
        }
        self.keeps_whole();
        unreachable!()
    }

    /// Puts a page and its payload into a frame, in the place of the page that was there.
    pub fn move_in(&mut self, frame: usize, page: u32, payload: FilePage)
        requires frame { frame < length self.old.pages }
        requires free { IsFree self.old frame }
        requires next { IsNext self.old.pages frame }
        requires page { page < length self.old.places }
        requires outside { place_of self.old page ≡ None }
        ensures { self.new ≡ moved_in frame page payload self.old }
    {
        forget(&mut self.places, self.pages[frame]);
        self.places[page as usize] = Some(frame);
        self.pages[frame] = Some(page);
        self.changed[frame] = false;
        self.used[frame] = true;
        let framed = Framed::new(payload);
        if frame == self.payloads.len() {
            self.payloads.push_reserved(framed);
        } else {
            self.payloads[frame] = framed;
        }
    }

    /// The frame of a page that is in one.
    pub fn frame_of(&self, page: u32) -> usize
        requires within { page < length self.now.places }
        requires placed { IsSome (place_of self.now page) }
        ensures place { place_of self.now page ≡ Some result }
        ensures held { IsSome (page_of self.now result) }
    {
        self.keeps_whole();
        match self.place(page) {
            Some(frame) => frame,
            None => unreachable!(),
        }
    }

    /// Lends the payload in a frame that holds a page, which is changed by that.
    pub fn payload_mut(&mut self, frame: usize) -> &mut FilePage
        requires { IsSome (page_of self.old frame) }
        ensures* writes_back { sem 𝓛 (LendsPayload self.entry frame result) }
        ensures value { result.now ≡ payload_in self.old frame }
    {
        self.changed[frame] = true;
        self.payloads[frame].page_mut()
    }

    /// The page of a frame, as it is to be written: sealed. Its digest is computed once, until the
    /// payload is lent.
    pub fn sealed(&mut self, frame: usize, page: u32) -> Page
        requires { IsSome (page_of self.old frame) }
        ensures same { self.new ≡ self.old }
        ensures sealed { IsSealed page result }
        ensures payload { payload_of result ≡ payload_in self.old frame }
    {
        self.payloads[frame].sealed(page)
    }

    /// Notes that the device has what the frame has.
    pub fn clean(&mut self, frame: usize)
        requires { frame < length self.old.pages }
        ensures { self.new ≡ cleaned_at frame self.old }
    {
        self.changed[frame] = false;
    }

    /// Notes that the frame was used.
    pub fn touch(&mut self, frame: usize)
        requires { frame < length self.old.pages }
        ensures { self.new ≡ self.old }
    {
        self.used[frame] = true;
    }
}

/// Takes a page, if there is one, out of its frame.
fn forget(places: &mut Vec<Option<usize>>, page: Option<u32>)
    requires { (k : ℕ) → page ≡ Some k → k < length places.old.items }
    ensures { places.new.items ≡ without page places.old.items }
{
    if let Some(page) = page {
        places[page as usize] = None;
    }
}

/// A list of so many copies of a value.
fn copies<T: Copy + Drop>(alloc: Global, value: T, count: usize) -> Result<Vec<T>, AllocError>
    ensures { IfOk result (λ list. list.items ≡ replicate count value) }
{
    let mut list = Vec::new(alloc);
    list.resize(count, value)?;
    Ok(list)
}
