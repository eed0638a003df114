//! A file without its records.

ghost use Rattle.std.specs.Prelude.{◌≡◌, ◌≤◌, ◌<◌, ◌^◌, true, false, length, IfSome, IfNone};
ghost use Rattle.page_device.specs.declared.page.TheConstants.{MAX_PAGES};
ghost use Rattle.directory.specs.declared.layout.TheConstants.{GREATEST_DEPTH};
ghost use Rattle.hash_file.specs.Store.{IsFreePage, bucket_at, count_at, entry_at, has_bucket};
ghost use Rattle.file_walk.specs.Outlines.{IsBucketAt, IsFreeAt, IsKeptAt, IsOutlined};

use crate::form::Form;
use directory::{Header, Layout};
use hash_file::Shape;
use std::marker::Model;

/// What is kept of a file while it is walked: its header, the entries of its directory and
/// its pages without their records. A clause sees it as a file. It takes 16 bytes a page,
/// and four an entry.
#[derive(Drop)]
pub struct Outline {
    pub(crate) layout: Layout,
    pub(crate) header: Header,
    pub(crate) entries: Vec<u32>,
    pub(crate) forms: Vec<Form>,
}

impl Model for Outline {
    ghost use Rattle.hash_file.specs.Store.{Store};
    ghost use Rattle.file_walk.specs.Outlines.{IsOutlineIn, shown_in};

    ghost Value = { Store };

    ghost view = { λ o. shown_in o.layout o.header o.entries.items o.forms.items };

    ghost invariant = { λ o. IsOutlineIn o.layout o.header o.entries.items o.forms.items };
}

impl Outline {
    /// It is laid out as each file is, and has no bucket below the root.
    pub fn keeps_layout(&self)
        ensures { IsOutlined self.now }
    {
        let _ = &self.header;
    }

    /// The page of the first bucket.
    pub fn root(&self) -> u32
        ensures { result ≡ self.now.layout.root }
    {
        self.layout.root_page
    }

    /// The greatest depth of the directory and of a bucket.
    pub fn greatest_depth(&self) -> u8
        ensures value { result ≡ self.now.layout.greatest }
        ensures most { result ≤ GREATEST_DEPTH }
    {
        self.layout.greatest_depth
    }

    /// How many low bits of a pseudokey choose its entry.
    pub fn depth(&self) -> u8
        ensures { result ≡ self.now.header.depth }
    {
        self.header.depth
    }

    /// Pages of the file.
    pub fn pages(&self) -> u32
        ensures value { result ≡ length self.now.pages }
        ensures most { result ≤ MAX_PAGES }
    {
        self.header.pages
    }

    /// The first page on the list of free pages, 0 for none.
    pub fn first_free(&self) -> u32
        ensures { result ≡ self.now.header.first_free }
    {
        self.header.first_free
    }

    /// What the header says of the buckets of a local depth.
    pub fn count(&self, depth: u8) -> u32
        requires { depth ≤ GREATEST_DEPTH }
        ensures { result ≡ count_at self.now depth }
    {
        self.header.count(depth)
    }

    /// The page that an entry names.
    pub fn entry(&self, index: u32) -> u32
        requires { index < 2 ^ self.now.header.depth }
        ensures { result ≡ entry_at self.now index }
    {
        self.entries[index as usize]
    }

    /// The bucket on a page, where there is one.
    pub fn bucket(&self, page: u32) -> Option<Shape>
        ensures some { IfSome result (λ bucket. IsBucketAt self.now page bucket) }
        ensures none { IfNone result (has_bucket self.now page ≡ false) }
    {
        match self.form(page) {
            Some(Form::Bucket(shape)) => Some(shape),
            Some(Form::Free { .. }) => None,
            Some(Form::Tombstone { .. }) => None,
            Some(Form::Other) => None,
            None => None,
        }
    }

    /// The next page on the list of free pages, where this page of the file is free.
    pub fn behind(&self, page: u32) -> Option<u32>
        ensures some { IfSome result (λ next. IsFreeAt self.now page next) }
        ensures none { IfNone result
            (IsFreePage self.now page × (page < length self.now.pages) → ⊥) }
    {
        match self.form(page) {
            Some(Form::Free { next }) => Some(next),
            Some(Form::Bucket(_)) => None,
            Some(Form::Tombstone { .. }) => None,
            Some(Form::Other) => None,
            None => None,
        }
    }

    /// How many entries the directory has: 2 to the power of its depth.
    pub fn entries(&self) -> u32
        ensures { result ≡ 2 ^ self.now.header.depth }
    {
        1 << self.header.depth
    }

    /// The local depth of the bucket on a page.
    pub fn local_depth(&self, page: u32) -> u8
        requires { has_bucket self.now page ≡ true }
        ensures { result ≡ (bucket_at self.now page).depth }
    {
        match self.bucket(page) {
            Some(bucket) => bucket.range.depth,
            None => unreachable!(),
        }
    }

    /// What is kept of a page of the file.
    fn form(&self, page: u32) -> Option<Form>
        ensures some { IfSome result (IsKeptAt self.now page) }
        ensures none { IfNone result (length self.now.pages ≤ page) }
    {
        match self.forms.get(page as usize) {
            Some(form) => Some(*form),
            None => None,
        }
    }
}
