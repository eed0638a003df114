//! Files of the system opened with their journals.

use crate::holder::{Holder, holder_of};
use crate::refused::Refused;
use crate::system_pair::SystemPair;
use numbers::faults;
use safe_device::page_device::{PAGE_BYTES, unseal};
use safe_device::{PagePair, RecoveryFault, SafeDevice, recover};
use std::alloc::AllocError;
use std::fs::{File, Metadata, OpenOptions, Permissions, TryLockError};
use std::io::{self, ErrorKind};
use std::os::unix::fs::{FileExt, MetadataExt, OpenOptionsExt, PermissionsExt, chown};
use std::rt::{Clock, Files};
use std::time::{Duration, Instant};
use std::{fs, thread};
use thiserror::Error;

/// What a journal's name has more than its file's.
pub const SUFFIX: &str = ".journal";

/// A journal is made with this mode, before it has its file's.
const OWNER_ALONE: u32 = 0o600;

/// So often a file is opened anew whose name another one has taken.
const TRIES: u32 = 16;

/// How many milliseconds an opening sleeps before it tries again.
const NAP: u64 = 10;

/// A file that is to be opened to change it.
#[derive(Clone, Copy)]
pub struct Opening<'a> {
    /// Its name.
    pub path: &'a str,
    /// How long the opening waits where another process has it open to change it.
    pub wait: Duration,
}

/// Why a file was not opened with its journal.
#[derive(Debug, Drop, Error)]
pub enum OpenError {
    /// The system did not open or make one of the two, or failed to read or write it.
    #[error(transparent)]
    Refused(#[from] Refused),
    /// It is a fifo, a device or a socket.
    #[error("it is no file")]
    NoFile,
    /// Another process has it open to change it.
    #[error("it is in use by {0}")]
    InUse(Holder),
    /// The journal is of another file, or names pages that this one does not have.
    #[error("its journal is of another file: put the file or the journal that belongs there")]
    Foreign,
    /// The journal is of another version.
    #[error("its journal is of another version")]
    OtherVersion,
    /// Calls stand in the journal that a server has answered, and that who opens it does not make.
    #[error("calls stand in its journal: a server that opens it makes them")]
    HasCalls,
    /// It does not hold whole pages.
    #[error("its length is no multiple of 4096, the bytes of a page")]
    NotWhole,
    /// It has no page, and no journal stands beside it.
    #[error("the file is cut")]
    NoPage,
    /// Its page 0 is none, and no journal stands beside it.
    #[error("page 0 has a wrong digest")]
    BadDigest,
    /// There is no memory.
    #[error("out of memory")]
    NoMemory,
}

impl From<AllocError> for OpenError {
    fn from(_: AllocError) -> OpenError {
        OpenError::NoMemory
    }
}

impl OpenError {
    /// The number that a program prints.
    pub fn number(&self) -> u8 {
        match self {
            OpenError::NotWhole | OpenError::NoPage => faults::PAST_END,
            OpenError::BadDigest => faults::BAD_DIGEST,
            OpenError::NoMemory => faults::NO_MEMORY,
            OpenError::Refused(refused) if refused.is_of_memory() => faults::NO_MEMORY,
            _ => faults::DEVICE,
        }
    }

    /// Of what a recovery failed of, and what the system said where it refused a transfer of it.
    fn of_recovery(fault: RecoveryFault, refused: Option<Refused>) -> OpenError {
        match fault {
            RecoveryFault::Damaged => OpenError::Foreign,
            RecoveryFault::Failed(error) => match error.kind() {
                ErrorKind::InvalidData => OpenError::Foreign,
                ErrorKind::Unsupported => OpenError::OtherVersion,
                _ => OpenError::Refused(refused.unwrap_or(Refused::Journal(error))),
            },
        }
    }
}

/// Who makes the calls that stand in a journal.
#[derive(Clone, Copy, PartialEq, Eq)]
enum Calls {
    /// Who opens the file.
    AreMade,
    /// Nobody: where there is one, the file is not opened.
    AreRefused,
}

/// Opens a file to change it as `open` does. Where another process has it open it is tried again until
/// the time that the opening waits is over.
pub fn open_in_turn<R>(rt: &R, opening: Opening) -> Result<SafeDevice<SystemPair<File>>, OpenError>
where
    R: Files<File = File> + AllocGlobal + Clock,
{
    try_in_turn(rt, opening, Calls::AreRefused)
}

/// Opens a file as `open_in_turn` does, for who makes the calls that stand in its journal: they are
/// read by `SafeDevice::noted`, and its first sync ends them.
pub fn open_with_calls<R>(
    rt: &R,
    opening: Opening,
) -> Result<SafeDevice<SystemPair<File>>, OpenError>
where
    R: Files<File = File> + AllocGlobal + Clock,
{
    try_in_turn(rt, opening, Calls::AreMade)
}

/// Opens a file once no other process has it open, or says who has it when the time is over.
fn try_in_turn<R>(
    rt: &R,
    opening: Opening,
    calls: Calls,
) -> Result<SafeDevice<SystemPair<File>>, OpenError>
where
    R: Files<File = File> + AllocGlobal + Clock,
{
    let begun = Instant::now(rt).map_err(Refused::Clock)?;
    for _ in 0..u64::MAX {
        let opened = try_open(rt, opening.path, calls);
        let Err(OpenError::InUse(_)) = &opened else {
            return opened;
        };
        let waited = begun.elapsed(rt).map_err(Refused::Clock)?;
        let left = opening.wait.saturating_sub(waited);
        if left.is_zero() {
            return opened;
        }
        thread::sleep(rt, left.min(Duration::from_millis(NAP)));
    }
    Err(OpenError::InUse(Holder::Unknown))
}

/// Opens a file to change it, once what a session that was cut off has left is undone. Where another
/// process has it open that is an error; also where calls stand in its journal.
///
/// Its journal stands beside it; who may not read the file may not read it. Where there is none it is
/// made, but not beside a file that does not begin with a sealed page: that is refused. It is locked
/// until the device is let go: no other process opens the file so meanwhile. Where another file has
/// taken its name by then, that one is opened.
pub fn open<R>(rt: &R, path: &str) -> Result<SafeDevice<SystemPair<File>>, OpenError>
where
    R: Files<File = File> + AllocGlobal,
{
    try_open(rt, path, Calls::AreRefused)
}

/// Opens the file that has a name, also where another one takes it meanwhile.
fn try_open<R>(rt: &R, path: &str, calls: Calls) -> Result<SafeDevice<SystemPair<File>>, OpenError>
where
    R: Files<File = File> + AllocGlobal,
{
    for _ in 0..TRIES {
        if let Some(device) = open_named(rt, path, calls)? {
            return Ok(device);
        }
    }
    Err(OpenError::InUse(Holder::Unknown))
}

/// Opens the file that has a name now. None where another one has it once the journal is locked.
fn open_named<R>(
    rt: &R,
    path: &str,
    calls: Calls,
) -> Result<Option<SafeDevice<SystemPair<File>>>, OpenError>
where
    R: Files<File = File> + AllocGlobal,
{
    // A fifo would wait for a writer.
    let found = fs::metadata(rt, path).map_err(Refused::File)?;
    if !found.is_file() && !found.is_dir() {
        return Err(OpenError::NoFile);
    }
    let mut how = OpenOptions::new();
    how.read(true).write(true);
    let file = how.open(rt, path).map_err(Refused::File)?;
    let journal = open_journal(rt, path, &file)?;
    match journal.try_lock() {
        Ok(()) => {}
        Err(TryLockError::WouldBlock) => return Err(OpenError::InUse(holder_of(rt, &journal))),
        Err(TryLockError::Error(error)) => return Err(Refused::Journal(error).into()),
    }
    // Whoever had the lock may have put another file in the place of this one.
    if !has_name(rt, path, &file).map_err(Refused::File)? {
        return Ok(None);
    }
    let mut pair = SystemPair::new(rt.alloc(), file, journal).map_err(Refused::File)?;
    match pair.find_journal() {
        Ok(Some(found)) if found.calls > 0 && calls == Calls::AreRefused => {
            return Err(OpenError::HasCalls);
        }
        Ok(_) => {}
        Err(error) => return Err(OpenError::of_recovery(error.into(), pair.into_refused())),
    }
    if let Err(fault) = recover(&mut pair) {
        return Err(OpenError::of_recovery(fault, pair.into_refused()));
    }
    if !pair.is_whole().map_err(Refused::File)? {
        return Err(OpenError::NotWhole);
    }
    Ok(Some(SafeDevice::new(rt.alloc(), pair)?))
}

/// Whether a name is that of an open file.
fn has_name<R>(rt: &R, path: &str, file: &File) -> io::Result<bool>
where
    R: Files<File = File>,
{
    let named = fs::metadata(rt, path)?;
    let opened = file.metadata()?;
    Ok(named.dev() == opened.dev() && named.ino() == opened.ino())
}

/// The journal's name: that of the file, where no link leads on, and the suffix.
pub fn journal_of<R: Files + AllocGlobal>(rt: &R, path: &str) -> io::Result<String> {
    let mut name = String::new(rt.alloc());
    let real = fs::canonicalize(rt, path)?;
    let Some(real) = real.to_str() else {
        return Err(ErrorKind::InvalidFilename.into());
    };
    name.push_str(real)?;
    name.push_str(SUFFIX)?;
    Ok(name)
}

/// The journal of a file, which is made where there is none and the file begins with a page.
fn open_journal<R>(rt: &R, path: &str, file: &File) -> Result<File, OpenError>
where
    R: Files<File = File> + AllocGlobal,
{
    let name = journal_of(rt, path).map_err(Refused::Journal)?;
    if let Some(journal) = find_journal(rt, name.as_str(), file).map_err(Refused::Journal)? {
        return Ok(journal);
    }
    let tested = test_beginning(file);
    if tested.is_ok() {
        match make_journal(rt, name.as_str(), file) {
            Err(error) if error.kind() == ErrorKind::AlreadyExists => {}
            made => return Ok(made.map_err(Refused::Journal)?),
        }
    }
    // Another process may have made it meanwhile, and may be writing page 0.
    if let Some(journal) = find_journal(rt, name.as_str(), file).map_err(Refused::Journal)? {
        return Ok(journal);
    }
    tested?;
    Err(Refused::Journal(ErrorKind::NotFound.into()).into())
}

/// Tests that a file has whole pages, and that page 0 is sealed.
fn test_beginning(file: &File) -> Result<(), OpenError> {
    let bytes = file.metadata().map_err(Refused::File)?.len();
    if bytes % PAGE_BYTES as u64 != 0 {
        return Err(OpenError::NotWhole);
    }
    if bytes == 0 {
        return Err(OpenError::NoPage);
    }
    let mut page = [0; PAGE_BYTES];
    file.read_exact_at(&mut page, 0).map_err(Refused::File)?;
    match unseal(0, &page) {
        Ok(_) => Ok(()),
        Err(_) => Err(OpenError::BadDigest),
    }
}

/// The journal of a file, where there is one.
fn find_journal<R>(rt: &R, name: &str, file: &File) -> io::Result<Option<File>>
where
    R: Files<File = File>,
{
    match fs::symlink_metadata(rt, name) {
        Ok(found) => Ok(Some(open_found(rt, name, &found, file)?)),
        Err(error) if error.kind() == ErrorKind::NotFound => Ok(None),
        Err(error) => Err(error),
    }
}

/// The journal that was found.
fn open_found<R>(rt: &R, name: &str, found: &Metadata, file: &File) -> io::Result<File>
where
    R: Files<File = File>,
{
    if !found.is_file() || !may_write(found, &file.metadata()?) {
        return Err(ErrorKind::PermissionDenied.into());
    }
    let mut how = OpenOptions::new();
    how.read(true).write(true);
    let journal = how.open(rt, name)?;
    guard(rt, name, &journal, &file.metadata()?)?;
    Ok(journal)
}

/// A journal where there is none.
fn make_journal<R>(rt: &R, name: &str, file: &File) -> io::Result<File>
where
    R: Files<File = File>,
{
    let mut how = OpenOptions::new();
    how.read(true)
        .write(true)
        .create_new(true)
        .mode(OWNER_ALONE);
    let journal = how.open(rt, name)?;
    guard(rt, name, &journal, &file.metadata()?)?;
    sync_folder_of(rt, name)?;
    Ok(journal)
}

/// Whether what stands at a journal's name was made by somebody who may write the file: its owner
/// or a superuser, one of its group where that may write it, or anybody where all may.
fn may_write(found: &Metadata, file: &Metadata) -> bool {
    let mode = file.permissions().mode();
    let is_owners = found.uid() == file.uid() || found.uid() == 0;
    let is_groups = found.gid() == file.gid() && mode & 0o020 != 0;
    is_owners || is_groups || mode & 0o002 != 0
}

/// Sees to it that who may not read a file may not read its journal: it gets the owner, the group
/// and the mode of the file, as far as the system lets it. Where the group is another, its members
/// may not read it.
fn guard<R: Files>(rt: &R, name: &str, journal: &File, like: &Metadata) -> io::Result<()> {
    let now = journal.metadata()?;
    if now.uid() != like.uid() || now.gid() != like.gid() {
        // Only a superuser gives a file away.
        let _ = chown(rt, name, Some(like.uid()), Some(like.gid()));
        let _ = chown(rt, name, None, Some(like.gid()));
    }
    let group = if journal.metadata()?.gid() == like.gid() {
        0o060
    } else {
        0
    };
    let mode = like.permissions().mode() & (0o606 | group);
    if journal.metadata()?.permissions().mode() & 0o777 == mode {
        return Ok(());
    }
    journal.set_permissions(Permissions::from_mode(mode))
}

/// Brings the names of a folder to where they outlast a crash.
fn sync_folder_of<R: Files<File = File>>(rt: &R, name: &str) -> io::Result<()> {
    let folder = match name.rfind('/') {
        Some(0) | None => "/",
        Some(end) => &name[..end],
    };
    let mut how = OpenOptions::new();
    how.read(true);
    how.open(rt, folder)?.sync_all()
}
