//! A new file has another name, beside its own, until it is whole and on the disk.

use crate::begun_files::{begin_of, expect_neither, name_beside};
use crate::complaint::{complain, complain_of_fault, tell};
use crate::file_names::{expect_none, link, sync_folder_of};
use crate::heard::{Heard, Refusal};
use crate::unmade::Unmade;
use numbers::faults;
use page_device::SystemFile;
use std::alloc::Global;
use std::fs::{File, OpenOptions, Permissions};
use std::io::Write;
use std::os::unix::fs::{MetadataExt, OpenOptionsExt, PermissionsExt, chown};
use std::rt::Files;
use std::{fs, io};

/// What is said of a file that can't be made.
pub const CANT_BE_MADE: &str = "it can't be made";

/// The modes of a file that its maker alone may read, and of one that a group may read and write.
const OWNER_ALONE: u32 = 0o600;

const SHARED: u32 = 0o660;

/// A file that is being made. It is locked, so that no other process takes it for one that a run
/// which was killed has left.
#[derive(Drop)]
pub struct Unnamed<'a> {
    name: &'a str,
    beside: String,
    file: File,
}

/// Begins a file, as `Unnamed::begin` does, that is made of another one, if there is one. Why it
/// can't be made is said, and the fault is told.
pub fn create_file<'a, R, E>(
    rt: &R,
    name: &'a str,
    of: Option<&str>,
    errors: &mut E,
) -> Result<Unnamed<'a>, u8>
where
    R: Files<File = File> + AllocGlobal,
    E: Write,
{
    match Unnamed::begin(rt, name, of) {
        Ok(unnamed) => Ok(unnamed),
        Err(why) => {
            let fault = why.number();
            complain_of_fault(name, CANT_BE_MADE, fault, why, errors);
            Err(fault)
        }
    }
}

impl<'a> Unnamed<'a> {
    /// A file without a page, where nothing may be by its name, nor the journal of a file of this
    /// name. What a process that was killed has left of such a file is removed, unless it is made of
    /// that.
    pub fn begin<R>(rt: &R, name: &'a str, of: Option<&str>) -> Result<Unnamed<'a>, Unmade>
    where
        R: Files<File = File> + AllocGlobal,
    {
        expect_none(rt, name)?;
        let mut how = OpenOptions::new();
        how.read(true).write(true).create_new(true);
        let unnamed = Unnamed::begin_beside(rt, name, of, &how)?;
        // Another process may have made the file meanwhile, and use it.
        if let Err(why) = expect_neither(rt, name) {
            let _ = fs::remove_file(rt, unnamed.beside.as_str());
            return Err(why);
        }
        Ok(unnamed)
    }

    /// A file without a page that is to take the name of one which the caller has locked. Until then
    /// nobody but its maker may read it.
    pub fn begin_in_place<R>(rt: &R, name: &'a str) -> Result<Unnamed<'a>, Unmade>
    where
        R: Files<File = File> + AllocGlobal,
    {
        let mut how = OpenOptions::new();
        how.read(true)
            .write(true)
            .create_new(true)
            .mode(OWNER_ALONE);
        Unnamed::begin_beside(rt, name, Some(name), &how)
    }

    /// A file without a page, under the name that it has until it is whole.
    fn begin_beside<R>(
        rt: &R,
        name: &'a str,
        of: Option<&str>,
        how: &OpenOptions,
    ) -> Result<Unnamed<'a>, Unmade>
    where
        R: Files<File = File> + AllocGlobal,
    {
        let beside = name_beside(rt.alloc(), name)?;
        let file = begin_of(rt, beside.as_str(), of, how)?;
        Ok(Unnamed { name, beside, file })
    }

    /// Its name.
    pub fn name(&self) -> &'a str {
        self.name
    }

    /// The transfers of the file, and where the reason is kept if one is refused.
    pub fn transfers(&self, alloc: Global) -> Result<(Heard<SystemFile<File>>, Refusal), Unmade> {
        let file = SystemFile::new(self.file.try_clone()?);
        Ok(Heard::new(alloc, file)?)
    }

    /// Gives the file its name, which is on the disk then. It has to be whole and synced before.
    /// Where it can't be named, as where something is there by now, this is said, and there is no
    /// file. Where only its name can't be brought to the disk, which is said too, it stays.
    pub fn give_name<R, E>(self, rt: &R, errors: &mut E) -> bool
    where
        R: Files<File = File>,
        E: Write,
    {
        let named = link(rt, self.beside.as_str(), self.name);
        self.end(rt, named, errors)
    }

    /// Gives the file the owner, the group and the mode of the one that has its name, and takes the
    /// name, which is on the disk then. It has to be whole before. Where that can't be done this is
    /// said, and the name is still that of the other. Where only the name can't be brought to the
    /// disk, which is said too, it is taken.
    pub fn take_name<R, E>(self, rt: &R, errors: &mut E) -> bool
    where
        R: Files<File = File>,
        E: Write,
    {
        let taken = self.replace(rt);
        self.end(rt, taken, errors)
    }

    /// Gives the file what the one that has its name has, and then the name.
    fn replace<R: Files<File = File>>(&self, rt: &R) -> io::Result<()> {
        self.resemble(rt)?;
        fs::rename(rt, self.beside.as_str(), self.name)
    }

    /// Brings the name of the file to the disk, where it was named. Else it is said why it was not,
    /// and the file is removed.
    fn end<R, E>(self, rt: &R, named: io::Result<()>, errors: &mut E) -> bool
    where
        R: Files<File = File>,
        E: Write,
    {
        match named {
            Ok(()) => keep_name(rt, self.name, errors),
            Err(error) => {
                complain_of_fault(self.name, CANT_BE_MADE, faults::DEVICE, &error, errors);
                self.remove(rt, errors);
                false
            }
        }
    }

    /// Gives the file the owner, the group and the mode of the one that has its name.
    fn resemble<R: Files<File = File>>(&self, rt: &R) -> io::Result<()> {
        let like = fs::metadata(rt, self.name)?;
        let now = self.file.metadata()?;
        if now.uid() != like.uid() || now.gid() != like.gid() {
            chown(rt, self.beside.as_str(), Some(like.uid()), Some(like.gid()))?;
        }
        let mode = like.permissions().mode() & 0o7777;
        self.file.set_permissions(Permissions::from_mode(mode))?;
        self.file.sync_all()
    }

    /// Gives the file to its owner and to a group, who alone may read and write it.
    pub fn share_with<R: Files<File = File>>(&self, rt: &R, group: u32) -> io::Result<()> {
        chown(rt, self.beside.as_str(), None, Some(group))?;
        self.file.set_permissions(Permissions::from_mode(SHARED))
    }

    /// Says why nothing comes of the file, removes it, and tells the fault.
    pub fn give_up<R, E>(self, rt: &R, why: Unmade, errors: &mut E) -> u8
    where
        R: Files,
        E: Write,
    {
        let fault = why.number();
        complain_of_fault(self.name, CANT_BE_MADE, fault, why, errors);
        self.remove(rt, errors);
        fault
    }

    /// Removes the file, of which nothing came.
    pub fn remove<R: Files, E: Write>(self, rt: &R, errors: &mut E) {
        match rt.remove_file(self.beside.as_str()) {
            Ok(()) => tell(self.name, "what was made of it is removed", errors),
            Err(error) => {
                let what = "what was made of it can't be removed";
                complain(self.beside.as_str(), what, &error, errors)
            }
        }
    }
}

/// Brings the name of a file to the disk. Where that can't be done it is said.
fn keep_name<R, E>(rt: &R, name: &str, errors: &mut E) -> bool
where
    R: Files<File = File>,
    E: Write,
{
    match sync_folder_of(rt, name) {
        Ok(()) => true,
        Err(error) => {
            let what = "its name can't be kept";
            complain_of_fault(name, what, faults::DEVICE, &error, errors);
            false
        }
    }
}
