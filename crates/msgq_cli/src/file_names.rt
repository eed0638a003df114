//! What has a name, and names that files are given.

use std::fs::{File, Metadata, OpenOptions};
use std::io::ErrorKind;
use std::os::unix::fs::MetadataExt;
use std::rt::Files;
use std::{fs, io};

/// The numbers of the errors by which the system says that a file exists, and that a name leads
/// nowhere.
const EXISTS: i32 = 17;

const NOWHERE: i32 = 2;

/// Which file it is.
#[derive(Clone, Copy)]
pub(crate) struct Identity {
    device: u64,
    inode: u64,
}

impl Identity {
    /// That of a file of which the system tells this.
    pub fn of(found: &Metadata) -> Identity {
        Identity {
            device: found.dev(),
            inode: found.ino(),
        }
    }

    /// Whether it is the same file.
    pub fn is(self, other: Identity) -> bool {
        self.inode == other.inode && self.device == other.device
    }
}

/// What has a name itself, if anything has it.
pub(crate) fn at_name<R: Files>(rt: &R, name: &str) -> io::Result<Option<Identity>> {
    match fs::symlink_metadata(rt, name) {
        Ok(found) => Ok(Some(Identity::of(&found))),
        Err(error) => {
            unless(ErrorKind::NotFound, error)?;
            Ok(None)
        }
    }
}

/// An error, unless it is of this kind.
pub(crate) fn unless(kind: ErrorKind, error: io::Error) -> io::Result<()> {
    if error.kind() == kind {
        return Ok(());
    }
    Err(error)
}

/// The file to which a name leads, where the system tells it.
fn behind_name<R: Files>(rt: &R, name: &str) -> Option<Identity> {
    match fs::metadata(rt, name) {
        Ok(found) => Some(Identity::of(&found)),
        Err(_) => None,
    }
}

/// Refuses a name that something has, and the empty one, which nothing can have.
pub(crate) fn expect_none<R: Files>(rt: &R, name: &str) -> io::Result<()> {
    if name.is_empty() {
        return Err(io::Error::from_raw_os_error(NOWHERE));
    }
    match at_name(rt, name)? {
        Some(_) => Err(io::Error::from_raw_os_error(EXISTS)),
        None => Ok(()),
    }
}

/// Whether two names are of one file.
pub(crate) fn is_same<R: Files>(rt: &R, one: &str, other: &str) -> bool {
    let Some(one) = behind_name(rt, one) else {
        return false;
    };
    match behind_name(rt, other) {
        Some(other) => one.is(other),
        None => false,
    }
}

/// Gives a file a name more, where nothing has that, and takes the old one. Not every system of
/// files has links: where it has none, the file is renamed.
pub(crate) fn link<R: Files>(rt: &R, from: &str, to: &str) -> io::Result<()> {
    match fs::hard_link(rt, from, to) {
        Ok(()) => {
            let _ = fs::remove_file(rt, from);
            Ok(())
        }
        Err(error) => rename_unless(rt, from, to, error),
    }
}

/// Gives a file that got no link another name, unless that is since something has the name.
fn rename_unless<R: Files>(rt: &R, from: &str, to: &str, error: io::Error) -> io::Result<()> {
    if error.kind() == ErrorKind::AlreadyExists {
        return Err(error);
    }
    rename(rt, from, to)
}

/// Gives a file another name, where nothing has it.
fn rename<R: Files>(rt: &R, from: &str, to: &str) -> io::Result<()> {
    expect_none(rt, to)?;
    fs::rename(rt, from, to)
}

/// Brings the names of the folder of a file to where they outlast a crash.
pub(crate) fn sync_folder_of<R: Files<File = File>>(rt: &R, file: &str) -> io::Result<()> {
    let folder = match file.rfind('/') {
        Some(0) => "/",
        Some(end) => &file[..end],
        None => ".",
    };
    let mut how = OpenOptions::new();
    how.read(true);
    how.open(rt, folder)?.sync_all()
}
