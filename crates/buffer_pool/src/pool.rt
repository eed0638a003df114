//! Pools: the images of a device's pages, in frames.
ghost use Rattle.std.specs.Prelude.{◌≡◌, ◌↔◌, ◌+◌, ◌-◌, ◌^◌, ◌<◌, ◌≤◌, false, length, is_ok, Some, IsTrue, IfOk, IfErr, IfSome, IsErrAnd, IsErrOf, OnOk, slice_get, slice_set, if◌then◌else◌};
ghost use Rattle.page_device.specs.Sealed.{IsSealed, payload_of};
ghost use Rattle.page_device.specs.declared.fault.DeviceFault.TheVariants.{PastEnd};
ghost use Rattle.buffer_pool.specs.Pool.{pins_at, opened, IsAtRest, payloads_of, IsCrowded, IsOnDevice, KeepsImages, KeepsStored, PoolHasCause, MayNotOpen, MayNotPin, MayNotFlush, TellsChanged};
ghost use Rattle.std.specs.Borrow.{sem};
ghost use Rattle.buffer_pool.specs.Lending.{LendsImage, LendsResident};

use crate::fault::PoolFault;
use crate::file_page::FilePage;
use crate::frame::Frame;
use crate::table::Table;
use crate::transfer::{bring_in, write_all};
use page_device::{DeviceFault, Page, PageDevice};
use std::alloc::Global;
use std::marker::Model;

/// Frames over a device. A clause sees the image of each page, which is what was last stored there,
/// else the payload that the device has.
#[derive(Drop)]
pub struct Pool<D: PageDevice> {
    device: D,
    table: Table,
}

impl<D: PageDevice> Model for Pool<D> {
    ghost use Rattle.std.specs.Prelude.{length};
    ghost use Rattle.buffer_pool.specs.Pool.{PoolState, IsSoundPool, images_of};

    ghost Value = { PoolState };

    ghost view = { λ p. record {
      images = images_of (D.content p.device) p.table;
      pins = p.table.pins;
      stored = D.content p.device;
      frames = length p.table.pages;
      honest = D.is_honest p.device;
      synced = D.is_synced p.device;
      faults = D.fault_count p.device;
    } };

    ghost invariant = { λ p. IsSoundPool (D.content p.device) (D.is_honest p.device) p.table };
}

impl<D: PageDevice> Pool<D> {
    /// A pool of so many frames, which takes its memory here and none later. With no frame it is
    /// `TooFewFrames`; each refusal gives the device back.
    pub fn open(alloc: Global, device: D, frames: usize) -> Result<Pool<D>, (D, PoolFault)>
        ensures ok { IfOk result (λ pool. pool ≡ opened frames (D.content device)
            (D.is_honest device) (D.is_synced device) (D.fault_count device)) }
        ensures rest { IfOk result IsAtRest }
        ensures few { IsErrAnd result (λ refusal. refusal.1 ≡ PoolFault.TooFewFrames) ↔
            (frames ≡ 0) }
        ensures device { IfErr result (λ refusal. refusal.0 ≡ device) }
        ensures cause { IfErr result (λ refusal. MayNotOpen refusal.1) }
    {
        if frames == 0 {
            return Err((device, PoolFault::TooFewFrames));
        }
        match Table::new(alloc, device.pages() as usize, frames) {
            Ok(table) => Ok(Pool { device, table }),
            Err(_) => Err((device, PoolFault::NoMemory)),
        }
    }

    /// How many pages the device has.
    #[tactic(auto, using(crate::proofs::ImagesLemmas::images_length))]
    pub fn pages(&self) -> u32
        ensures images { result ≡ length self.now.images }
        ensures stored { result ≡ length self.now.stored }
    {
        self.device.pages()
    }

    /// How many transfers of the device have failed.
    pub fn faults(&self) -> u64
        ensures { result ≡ self.now.faults }
    {
        self.device.faults()
    }

    /// Pins a page, so that it stays in its frame. Where it has none it is read, and its digest and
    /// its payload are tested. A pool with a frame for each page writes nothing here.
    #[tactic(auto, using(crate::proofs::ImagesLemmas::images_length))]
    pub fn pin(&mut self, page: u32) -> Result<Frame, PoolFault>
        requires { pins_at self.old page + 1 < 2 ^ 32 }
        ensures ok { IfOk result (λ frame.
            (frame ≡ page) × (pins_at self.new page ≡ pins_at self.old page + 1)) }
        ensures pins { self.new.pins ≡ (if is_ok result
            then slice_set self.old.pins page (pins_at self.old page + 1) else self.old.pins) }
        ensures past { IsErrOf result (PoolFault.Device PastEnd) ↔ (length self.old.images ≤ page) }
        ensures crowded { IsErrOf result PoolFault.TooFewFrames ↔ IsCrowded page self.old }
        ensures keeps { KeepsStored (is_ok result) self.old self.new }
        ensures cause { PoolHasCause (MayNotPin page self.old)
            self.old.faults self.new.faults result }
    {
        if page >= self.device.pages() {
            return Err(PoolFault::Device(DeviceFault::PastEnd));
        }
        if self.table.pins(page) == 0 && self.table.pinned() >= self.table.frames() {
            return Err(PoolFault::TooFewFrames);
        }
        bring_in(&mut self.device, &mut self.table, page)?;
        self.table.pin(page);
        Ok(Frame::new(page))
    }

    /// Gives a pin back.
    pub fn unpin(&mut self, frame: Frame)
        requires { 0 < pins_at self.old frame }
        ensures { self.new ≡ record self.old {
          pins = slice_set self.old.pins frame (pins_at self.old frame - 1);
        } }
    {
        self.table.unpin(frame.into_page());
    }

    /// The image of a pinned page.
    pub fn image(&self, frame: &Frame) -> &FilePage
        requires { 0 < pins_at self.now frame.now }
        ensures { slice_get self.now.images frame.now ≡ Some result.now }
    {
        self.table.payload(self.table.frame_of(frame.page()))
    }

    /// A pinned page as it is to be written: its image, sealed. Its digest is computed once, until
    /// the image is lent to be changed.
    pub fn sealed(&mut self, frame: &Frame) -> Page
        requires { 0 < pins_at self.old frame.now }
        ensures same { self.new ≡ self.old }
        ensures sealed { IsSealed frame.now result }
        ensures image { slice_get self.old.images frame.now ≡ Some (payload_of result) }
    {
        let at = self.table.frame_of(frame.page());
        self.table.sealed(at, frame.page())
    }

    /// The image of a page that is in a frame, pinned or not; none where it is in no frame.
    pub fn resident(&self, page: u32) -> Option<&FilePage>
        ensures { IfSome result (λ image. slice_get self.now.images page ≡ Some image.now) }
    {
        if page >= self.device.pages() {
            return None;
        }
        let frame = self.table.place(page)?;
        Some(self.table.payload(frame))
    }

    /// Lends the image of a page that is in a frame, pinned or not, to be changed in place; none
    /// where it is in no frame. It counts as stored, as one that `image_mut` lends.
    pub fn resident_mut(&mut self, page: u32) -> Option<&mut FilePage>
        ensures* writes_back { sem 𝓛 (LendsResident D.row D.PageDevice self.entry page result) }
        ensures value { IfSome result (λ image. slice_get self.old.images page ≡ Some image.now) }
    {
        if page >= self.device.pages() {
            return None;
        }
        let frame = self.table.place(page)?;
        Some(self.table.payload_mut(frame))
    }

    /// Notes that a page was used, so that it stays in its frame for longer. One that is in none is
    /// not brought in.
    pub fn touch(&mut self, page: u32)
        ensures { self.new ≡ self.old }
    {
        if page >= self.device.pages() {
            return;
        }
        if let Some(frame) = self.table.place(page) {
            self.table.touch(frame);
        }
    }

    /// Makes this page the image of a pinned page.
    pub fn store(&mut self, frame: &Frame, page: FilePage)
        requires { 0 < pins_at self.old frame.now }
        ensures { self.new ≡ record self.old {
          images = slice_set self.old.images frame.now page;
        } }
    {
        *self.image_mut(frame) = page;
    }

    /// Lends the image of a pinned page, to be changed in place. It counts as stored, and the page
    /// is sealed when it is written back.
    pub fn image_mut(&mut self, frame: &Frame) -> &mut FilePage
        requires { 0 < pins_at self.old frame.now }
        ensures* writes_back { sem 𝓛 (LendsImage D.row D.PageDevice self.entry frame.now result) }
        ensures value { slice_get self.old.images frame.now ≡ Some result.now }
    {
        let at = self.table.frame_of(frame.page());
        self.table.payload_mut(at)
    }

    /// The next page from this one on that may have changed in its frame since the device had it;
    /// `None` where there is none. An honest device has the images of all pages that are passed by.
    pub fn next_changed(&self, from: u32) -> Option<u32>
        ensures { TellsChanged from result self.now }
    {
        for page in from..self.pages() {
            if self.is_changed(page) {
                return Some(page);
            }
        }
        None
    }

    /// Whether a page was changed in its frame since the device had it.
    fn is_changed(&self, page: u32) -> bool
        requires { page < length self.now.images }
        ensures { result ≡ false → IsOnDevice page self.now }
    {
        match self.table.place(page) {
            Some(frame) => self.table.is_changed(frame),
            None => false,
        }
    }

    /// Writes each image that was stored to the device, and syncs it.
    pub fn flush(&mut self) -> Result<(), PoolFault>
        ensures ok { IsTrue self.old.honest →
            OnOk result (payloads_of self.new.stored ≡ self.old.images) }
        ensures synced { IsTrue self.old.honest → OnOk result (IsTrue self.new.synced) }
        ensures pins { self.new.pins ≡ self.old.pins }
        ensures keeps { KeepsImages (is_ok result) self.old self.new }
        ensures cause { PoolHasCause MayNotFlush self.old.faults self.new.faults result }
    {
        write_all(&mut self.device, &mut self.table)?;
        Ok(())
    }

    /// The device, as it is. What was stored since the last flush may be lost.
    pub fn into_device(self) -> D
        ensures content { D.content result ≡ self.stored }
        ensures honest { D.is_honest result ≡ self.honest }
        ensures synced { D.is_synced result ≡ self.synced }
        ensures faults { D.fault_count result ≡ self.faults }
    {
        let Pool { device, table: _ } = self;
        device
    }
}
