//! The file of a Unix socket.
use crate::address::Address;
use crate::listen_error::{ListenError, unix_error_of};
use std::fs::{remove_file, symlink_metadata};
use std::io::ErrorKind;
use std::net::Net;
use std::os::unix::fs::FileTypeExt;
use std::os::unix::net::UnixStream;
use std::rt::Files;

/// What stands at a path where a socket may be made.
#[derive(Clone, Copy, PartialEq, Eq, Debug)]
pub(crate) enum Standing {
    /// Nothing.
    Nothing,
    /// The socket of a dead server.
    Stale,
}

/// What stands at a path where a socket is to be made. A socket is asked for a connection: if it takes one, its server
/// lives, and sees a connection that ends at once. The call waits while that server's queue of connections is full.
pub(crate) fn look_at<R: Files + Net>(rt: &R, path: &str) -> Result<Standing, ListenError> {
    match symlink_metadata(rt, path) {
        Ok(metadata) if metadata.file_type().is_socket() => ask(rt, path),
        Ok(_) => Err(ListenError::NotASocket),
        Err(error) if error.kind() == ErrorKind::NotFound => Ok(Standing::Nothing),
        Err(error) => Err(unix_error_of(error.kind())),
    }
}

/// Whether the server of a socket is dead, as a refused connection says.
fn ask<R: Net>(rt: &R, path: &str) -> Result<Standing, ListenError> {
    match UnixStream::connect(rt, path) {
        Ok(_) => Err(ListenError::InUse),
        Err(error) => match error.kind() {
            ErrorKind::ConnectionRefused => Ok(Standing::Stale),
            ErrorKind::NotFound => Ok(Standing::Nothing),
            kind => Err(unix_error_of(kind)),
        },
    }
}

/// Removes the file of a Unix socket, at the end of its server. Call it while the listener stands, so that the file is
/// not that of a later server. Anything that is no socket is left alone, and so is a TCP address. A file that cannot be
/// removed stays, and the next server replaces it.
pub fn remove_socket<R: Files>(rt: &R, address: Address<'_>) {
    let Address::Unix(path) = address else {
        return;
    };
    if let Ok(metadata) = symlink_metadata(rt, path)
        && metadata.file_type().is_socket()
    {
        let _removed = remove_file(rt, path);
    }
}
