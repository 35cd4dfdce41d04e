//! Putting a journal into its place.
use crate::fault::OpenFault;
use crate::names::{begun_name, folder_of};
use std::fs::{self, File, Files};
use std::io::{self, ErrorKind};

/// Puts the journal that was begun for a path there, where nothing stands yet or an empty file, and flushes the folder.
/// It stays locked, and no other file is overwritten.
///
/// # Errors
///
/// [`OpenFault`]: `Busy` if anything else stands at the path, also if it came there meanwhile. After `Io` the journal
/// may stand there, under both names or not yet on the disk.
pub fn place_journal<R: Files<File = File> + AllocGlobal>(
    rt: &R,
    path: &str,
) -> Result<(), OpenFault> {
    let name = begun_name(rt.alloc(), path)?;
    match fs::symlink_metadata(rt, path) {
        Ok(found) if found.is_file() && found.len() == 0 => fs::rename(rt, name.as_str(), path)?,
        Ok(_) => return Err(OpenFault::Busy),
        Err(error) if error.kind() == ErrorKind::NotFound => link(rt, name.as_str(), path)?,
        Err(error) => return Err(OpenFault::Io(error)),
    }
    File::open(rt, folder_of(path))?.sync_all()?;
    Ok(())
}

/// Gives a file the name where nothing stands, in the place of its own.
fn link<R: Files<File = File>>(rt: &R, name: &str, path: &str) -> Result<(), OpenFault> {
    match fs::hard_link(rt, name, path) {
        Ok(()) => {}
        Err(error) if error.kind() == ErrorKind::AlreadyExists => return Err(OpenFault::Busy),
        Err(error) => return Err(OpenFault::Io(error)),
    }
    fs::remove_file(rt, name)?;
    Ok(())
}
