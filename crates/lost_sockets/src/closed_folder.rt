//! The folder in which a Unix socket is made before anybody may use it.
use crate::listen_error::{ListenError, unix_error_of};
use crate::socket_file::Standing;
use std::alloc::{AllocError, Global};
use std::fs::{
    DirBuilder, Permissions, hard_link, remove_dir, remove_file, rename, set_permissions,
};
use std::io;
use std::io::ErrorKind;
use std::net::Net;
use std::os::unix::fs::{DirBuilderExt, PermissionsExt};
use std::os::unix::net::UnixListener;
use std::random::RandomSource;
use std::rt::Files;

/// The folder's mode: only this user may enter.
const FOLDER_MODE: u32 = 0o700;

/// A folder that no other user may enter, and the socket in it.
#[derive(Drop)]
pub(crate) struct ClosedFolder {
    path: String,
    socket: String,
}

impl ClosedFolder {
    /// Makes a folder beside a path. Its name is the path, a dot and eight random hexadecimal digits. If the program is
    /// killed before it removes the folder, the folder stays.
    pub(crate) fn beside<R: Files + RandomSource + AllocGlobal>(
        rt: &R,
        path: &str,
    ) -> Result<ClosedFolder, ListenError> {
        let number = random_number(rt)?;
        let Ok(folder) = ClosedFolder::named(rt.alloc(), path, number) else {
            return Err(ListenError::Memory);
        };
        let mut builder = DirBuilder::new();
        builder.mode(FOLDER_MODE);
        match builder.create(rt, folder.path.as_str()) {
            Ok(()) => Ok(folder),
            Err(error) => Err(unix_error_of(error.kind())),
        }
    }

    /// The names of a folder with this number beside a path, and of the socket in it, which has 11 bytes more than the
    /// path.
    fn named(alloc: Global, path: &str, number: u32) -> Result<ClosedFolder, AllocError> {
        let path = format!(in alloc; "{path}.{number:08x}")?;
        let socket = format!(in alloc; "{path}/s")?;
        Ok(ClosedFolder { path, socket })
    }

    /// Makes a socket in the folder, gives it its mode, and moves it to its path.
    pub(crate) fn listen_at<R: Files + Net>(
        &self,
        rt: &R,
        path: &str,
        mode: u32,
        standing: Standing,
    ) -> io::Result<UnixListener> {
        let listener = UnixListener::bind(rt, self.socket.as_str())?;
        set_permissions(rt, self.socket.as_str(), Permissions::from_mode(mode))?;
        match standing {
            Standing::Nothing => self.put_at_free(rt, path)?,
            Standing::Stale => rename(rt, self.socket.as_str(), path)?,
        }
        Ok(listener)
    }

    /// Moves the socket to a path where nothing stood. A link replaces nothing, so what came there meanwhile stays. On
    /// a file system without links it may still rename.
    fn put_at_free<R: Files>(&self, rt: &R, path: &str) -> io::Result<()> {
        match hard_link(rt, self.socket.as_str(), path) {
            Err(error) if error.kind() != ErrorKind::AlreadyExists => {
                rename(rt, self.socket.as_str(), path)
            }
            linked => linked,
        }
    }

    /// Removes the folder and the socket in it.
    pub(crate) fn remove<R: Files>(self, rt: &R) {
        // A renamed socket is no longer there. What cannot be removed stays.
        let _removed = remove_file(rt, self.socket.as_str());
        let _removed = remove_dir(rt, self.path.as_str());
    }
}

/// A random number for the folder's name.
fn random_number<R: RandomSource>(rt: &R) -> Result<u32, ListenError> {
    let mut bytes = [0u8; 4];
    match rt.fill_bytes(&mut bytes) {
        Ok(()) => Ok(u32::from_ne_bytes(bytes)),
        Err(_) => Err(ListenError::NotMade),
    }
}
