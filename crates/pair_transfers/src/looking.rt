//! A look at the journal of a file: what stands in it, as far as its digests are right.
ghost use Rattle.std.specs.Prelude.{◌≡◌, ◌≤◌, length};
ghost use Rattle.journal_bytes.specs.Bytes.{says};
ghost use Rattle.pair_transfers.specs.Reading.{asked_of_look, behind_calls, begun_behind, looked, looks_at, next_addition, next_image, seen_by, then_next_image, told_calls, told_head, told_image, transfer_of_look, with_calls_passed, with_image};

use crate::additions::{Additions, Came};
use crate::recovery::Seen;
use crate::transfers::Transfer;
use journal_bytes::{
    FoundHead, HEAD_BYTES, Head, IMAGE_BYTES, Image, PageZero, Sum, read_head, read_image,
};
use safe_device::FoundJournal;
use safe_device::page_device::PAGE_BYTES;

/// What is read next.
#[derive(Clone, Copy)]
pub enum Look {
    /// The head.
    Head,
    /// A part of an addition of calls.
    Calls,
    /// Page 0 of the file.
    Zero,
    /// An image.
    Image,
    /// Nothing: this is what stands there.
    Told(Seen),
}

/// A look at a journal, and how far it has come.
#[derive(Clone, Copy)]
pub struct Looking {
    /// As many bytes the journal has.
    pub journal: u64,
    /// The same of the file.
    pub file: u64,
    /// What its head says.
    pub head: Head,
    /// The additions of calls behind it.
    pub additions: Additions,
    /// So many of them have calls.
    pub calls: usize,
    /// So many images stand behind these.
    pub images: u32,
    /// The digest with which the last one ends.
    pub sum: Sum,
    /// Where the next one begins.
    pub at: u64,
    /// The head is of this file: page 0, or an image of it, is the one that it knows.
    pub is_its: bool,
    pub step: Look,
}

/// No head was read.
const NO_HEAD: Head = Head {
    count: 0,
    takes_calls: false,
    number: 0,
    page_zero: PageZero::Seal([0; 24]),
    sum: [0; 32],
};

impl Looking {
    /// A look at a journal and a file of so many bytes.
    pub fn begin(journal: u64, file: u64) -> Looking
        ensures { result ≡ looks_at journal file NO_HEAD }
    {
        let step = if journal < HEAD_BYTES as u64 {
            Look::Told(Seen::Nothing)
        } else {
            Look::Head
        };
        let sum = NO_HEAD.sum;
        Looking {
            journal,
            file,
            head: NO_HEAD,
            additions: Additions::begin(sum, journal),
            calls: 0,
            images: 0,
            sum,
            at: HEAD_BYTES as u64,
            is_its: false,
            step,
        }
    }

    /// The part that is read next.
    pub fn transfer(&self) -> Transfer
        ensures { result ≡ transfer_of_look self.now }
    {
        match self.step {
            Look::Head => Transfer::ReadJournal(0, HEAD_BYTES as u32),
            Look::Calls => Transfer::ReadJournal(self.additions.at, self.additions.wanted()),
            Look::Image => Transfer::ReadJournal(self.at, IMAGE_BYTES as u32),
            Look::Zero | Look::Told(_) => Transfer::ReadPage(0),
        }
    }

    /// How many bytes it has.
    pub fn asked(&self) -> u32
        ensures { result ≡ asked_of_look self.now }
    {
        match self.step {
            Look::Head => HEAD_BYTES as u32,
            Look::Calls => self.additions.wanted(),
            Look::Zero => PAGE_BYTES as u32,
            Look::Image => IMAGE_BYTES as u32,
            Look::Told(_) => 0,
        }
    }

    /// These were read.
    pub fn told(&mut self, read: &[u8])
        requires { length read.now ≡ asked_of_look self.old }
        ensures { self.new ≡ looked read.now self.old }
    {
        match self.step {
            Look::Head => {
                let mut head = [0; HEAD_BYTES];
                head.copy_from_slice(read);
                self.told_head(read_head(&head));
            }
            Look::Calls => {
                let came = self.additions.told(read);
                self.told_calls(came);
            }
            Look::Zero => {
                let mut page = [0; PAGE_BYTES];
                page.copy_from_slice(read);
                self.is_its = self.head.page_zero.is(&page);
                self.step = self.next_image();
            }
            Look::Image => {
                let image = read_image(&self.sum, read);
                self.told_image(image);
            }
            Look::Told(_) => {}
        }
    }

    /// What stands where a head is looked for.
    fn told_head(&mut self, found: FoundHead)
        ensures { self.new ≡ told_head found self.old }
    {
        match found {
            FoundHead::Torn | FoundHead::Ended(_) => self.step = Look::Told(Seen::Nothing),
            FoundHead::OtherVersion => self.step = Look::Told(Seen::OtherVersion),
            FoundHead::Whole(head) => {
                self.head = head;
                self.additions = Additions::begin(head.sum, self.journal);
                self.go_behind();
            }
        }
    }

    /// It goes on behind a head.
    fn go_behind(&mut self)
        ensures { self.new ≡ begun_behind self.old }
    {
        if self.head.takes_calls {
            self.next_addition();
        } else {
            self.pass_calls();
        }
    }

    /// What came of a part of an addition.
    fn told_calls(&mut self, came: Came)
        ensures { self.new ≡ told_calls came self.old }
    {
        match came {
            Came::Word => {}
            Came::Calls(calls) => {
                if calls > 0 {
                    self.calls = self.calls.saturating_add(1);
                }
                self.next_addition();
            }
            Came::End => self.pass_calls(),
        }
    }

    /// The next addition is read, where one may follow.
    fn next_addition(&mut self)
        ensures { self.new ≡ next_addition self.old }
    {
        if self.additions.has_room() {
            self.step = Look::Calls;
        } else {
            self.pass_calls();
        }
    }

    /// No more calls follow.
    fn pass_calls(&mut self)
        ensures { self.new ≡ with_calls_passed self.old }
    {
        self.step = self.behind_calls();
        self.at = self.additions.at;
        self.sum = self.additions.sum;
    }

    /// What is looked at behind the calls.
    fn behind_calls(&self) -> Look
        ensures { result ≡ behind_calls self.now }
    {
        if self.head.takes_calls && self.calls == 0 {
            return Look::Told(Seen::Nothing);
        }
        let least = u64::from(self.head.count) * PAGE_BYTES as u64;
        if self.file < least || self.file < PAGE_BYTES as u64 {
            return Look::Told(Seen::Foreign);
        }
        Look::Zero
    }

    /// Whether an image is read next.
    fn next_image(&self) -> Look
        ensures { result ≡ next_image self.now }
    {
        if self.at.saturating_add(IMAGE_BYTES as u64) <= self.journal {
            return Look::Image;
        }
        Look::Told(self.seen())
    }

    /// What was read where an image is looked for.
    fn told_image(&mut self, image: Option<Image>)
        ensures { self.new ≡ told_image image self.old }
    {
        let Some(image) = image else {
            self.step = Look::Told(self.seen());
            return;
        };
        if image.number >= self.head.count {
            self.step = Look::Told(Seen::Foreign);
            return;
        }
        self.pass_image(&image);
        self.step = self.next_image();
    }

    /// An image is passed by.
    fn pass_image(&mut self, image: &Image)
        ensures { self.new ≡ with_image image.now self.old }
    {
        if image.number == 0 && self.head.page_zero.is(&image.page) {
            self.is_its = true;
        }
        self.images = self.images.saturating_add(1);
        self.at = self.at.saturating_add(IMAGE_BYTES as u64);
        self.sum = image.sum;
    }

    /// What stands in the journal, where no image follows.
    fn seen(&self) -> Seen
        ensures { result ≡ seen_by self.now }
    {
        if !self.is_its {
            return Seen::Foreign;
        }
        let pages = (self.file / PAGE_BYTES as u64).min(u32::MAX as u64) as u32;
        Seen::Whole(
            FoundJournal {
                count: self.head.count,
                calls: self.calls,
                images: self.images,
            },
            pages,
        )
    }
}
