//! How a journal's file comes to be open and locked.
use crate::fault::OpenFault;
use std::fs::{self, File, Files, OpenOptions};
use std::io::{self, ErrorKind};
use std::os::fd::AsRawFd;
use std::os::unix::fs::{MetadataExt, OpenOptionsExt};

/// The greatest descriptor that is a standard stream's.
const LAST_STREAM: i32 = 2;

/// Opens the regular file that stands at a path, and locks it. None if nothing stands there.
pub(crate) fn open_locked<R: Files<File = File>>(
    rt: &R,
    path: &str,
) -> Result<Option<File>, OpenFault> {
    match fs::symlink_metadata(rt, path) {
        Ok(found) if found.is_file() => {}
        Ok(_) => return Err(OpenFault::NotRegular),
        Err(error) if error.kind() == ErrorKind::NotFound => return Ok(None),
        Err(error) => return Err(OpenFault::Io(error)),
    }
    let file = OpenOptions::new().read(true).write(true).open(rt, path)?;
    Ok(Some(locked(rt, file, path)?))
}

/// Opens the regular file that a path leads to, for reading alone. None if it leads nowhere.
pub(crate) fn open_unlocked<R: Files<File = File>>(
    rt: &R,
    path: &str,
) -> Result<Option<File>, OpenFault> {
    match fs::metadata(rt, path) {
        Ok(found) if found.is_file() => Ok(Some(File::open(rt, path)?)),
        Ok(_) => Err(OpenFault::NotRegular),
        Err(error) if error.kind() == ErrorKind::NotFound => Ok(None),
        Err(error) => Err(OpenFault::Io(error)),
    }
}

/// Makes a file, which only its owner may read and write, and locks it.
pub(crate) fn make_locked<R: Files<File = File>>(rt: &R, path: &str) -> Result<File, OpenFault> {
    let made = OpenOptions::new()
        .read(true)
        .write(true)
        .create_new(true)
        .mode(0o600)
        .open(rt, path);
    match made {
        Ok(file) => locked(rt, file, path),
        Err(error) if error.kind() == ErrorKind::AlreadyExists => Err(OpenFault::Busy),
        Err(error) => Err(OpenFault::Io(error)),
    }
}

/// Locks a file that was opened at a path, and sees that it still stands there.
fn locked<R: Files<File = File>>(rt: &R, file: File, path: &str) -> Result<File, OpenFault> {
    let file = above_streams(file)?;
    file.try_lock()?;
    let found = file.metadata()?;
    let named = match fs::symlink_metadata(rt, path) {
        Ok(named) => named,
        Err(error) if error.kind() == ErrorKind::NotFound => return Err(OpenFault::Busy),
        Err(error) => return Err(OpenFault::Io(error)),
    };
    if !found.is_file() || !named.is_file() {
        return Err(OpenFault::NotRegular);
    }
    if found.dev() != named.dev() || found.ino() != named.ino() {
        return Err(OpenFault::Busy);
    }
    Ok(file)
}

/// The same file under a descriptor that is no standard stream's. What the program prints must not land in a journal.
fn above_streams(file: File) -> io::Result<File> {
    if file.as_raw_fd() <= LAST_STREAM {
        file.try_clone()
    } else {
        Ok(file)
    }
}
