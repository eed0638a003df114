//! A file is begun: made under the name that it has until it is whole, and locked.

use crate::file_names::{Identity, at_name, expect_none, is_same, unless};
use crate::unmade::Unmade;
use rollback_journal::is_left_behind;
use std::alloc::{AllocError, Global};
use std::fs::{File, OpenOptions, TryLockError};
use std::io::ErrorKind;
use std::rt::Files;
use std::{fs, io};

/// What the name of a file has more while it is made.
const SUFFIX: &str = ".unmade";

/// So often a file is begun anew, where others begin one of its name at once.
const TRIES: u32 = 16;

/// Refuses a name that something has, or the journal of a file of this name.
pub(crate) fn expect_neither<R>(rt: &R, name: &str) -> Result<(), Unmade>
where
    R: Files<File = File> + AllocGlobal,
{
    expect_none(rt, name)?;
    match is_left_behind(rt, name) {
        Ok(true) => Err(Unmade::LeftBehind),
        Ok(false) => Ok(()),
        Err(error) => unless_unasked(error),
    }
}

/// What is not told of a journal for want of memory stands in the way, and nothing else.
fn unless_unasked(error: io::Error) -> Result<(), Unmade> {
    if error.kind() == ErrorKind::OutOfMemory {
        return Err(Unmade::Refused(error));
    }
    Ok(())
}

/// The name that a file has until it is whole.
pub(crate) fn name_beside(alloc: Global, name: &str) -> Result<String, AllocError> {
    let mut beside = String::from_str(alloc, name)?;
    beside.push_str(SUFFIX)?;
    Ok(beside)
}

/// Makes a file by this name, as `begin_at` does, and again where it has lost the name. Where it is
/// made of another one, that may not have the name.
pub(crate) fn begin_of<R>(
    rt: &R,
    name: &str,
    of: Option<&str>,
    how: &OpenOptions,
) -> Result<File, Unmade>
where
    R: Files<File = File>,
{
    if let Some(old) = of {
        if is_same(rt, old, name) {
            return Err(Unmade::OfItself);
        }
    }
    for _ in 0..TRIES {
        if let Some(file) = begin_at(rt, name, how)? {
            return Ok(file);
        }
    }
    Err(Unmade::InMaking)
}

/// Makes a file by this name and locks it. None where it has lost the name, or where something was
/// there: what a process that was killed has left is removed.
fn begin_at<R>(rt: &R, name: &str, how: &OpenOptions) -> Result<Option<File>, Unmade>
where
    R: Files<File = File>,
{
    match how.open(rt, name) {
        Ok(file) => locked(rt, name, file),
        Err(error) => make_way(rt, name, error),
    }
}

/// Locks a file that was made by this name. None where it has lost the name.
fn locked<R: Files>(rt: &R, name: &str, file: File) -> Result<Option<File>, Unmade> {
    match lock(rt, name, &file) {
        Ok(true) => Ok(Some(file)),
        Ok(false) => Ok(None),
        Err(why) => Err(why),
    }
}

/// Removes what a process that was killed has left by this name, where a file was not made since it
/// exists. There is none yet then.
fn make_way<R>(rt: &R, name: &str, error: io::Error) -> Result<Option<File>, Unmade>
where
    R: Files<File = File>,
{
    unless(ErrorKind::AlreadyExists, error)?;
    remove_left(rt, name)?;
    Ok(None)
}

/// Locks a file, and tells whether it still has its name. Where another process has it locked, that
/// one makes it, or is about to remove it.
fn lock<R: Files>(rt: &R, name: &str, file: &File) -> Result<bool, Unmade> {
    match file.try_lock() {
        Ok(()) => Ok(has_name(rt, name, file)?),
        Err(TryLockError::WouldBlock) => Err(Unmade::InMaking),
        Err(TryLockError::Error(error)) => Err(Unmade::Refused(error)),
    }
}

/// Whether a file has this name.
fn has_name<R: Files>(rt: &R, name: &str, file: &File) -> io::Result<bool> {
    let Some(here) = at_name(rt, name)? else {
        return Ok(false);
    };
    let found = file.metadata()?;
    Ok(here.is(Identity::of(&found)))
}

/// Removes what a process that was killed has left by this name, if it is still there.
fn remove_left<R: Files<File = File>>(rt: &R, name: &str) -> Result<(), Unmade> {
    let mut how = OpenOptions::new();
    how.read(true).write(true);
    match how.open(rt, name) {
        Ok(left) => remove_locked(rt, name, &left),
        Err(error) => Ok(unless(ErrorKind::NotFound, error)?),
    }
}

/// Locks a file, and removes it where it still has its name.
fn remove_locked<R: Files>(rt: &R, name: &str, left: &File) -> Result<(), Unmade> {
    if lock(rt, name, left)? {
        fs::remove_file(rt, name)?;
    }
    Ok(())
}
