//! How a Unix socket is made at its path.
ghost use Rattle.std.specs.Prelude.{◌≡◌, ◌<◌, ◌↔◌, [], Err, length};

use crate::closed_folder::ClosedFolder;
use crate::listen_error::{ListenError, unix_error_of};
use crate::socket_file::look_at;
use std::net::Net;
use std::os::unix::net::UnixListener;
use std::random::RandomSource;
use std::rt::Files;

/// The most bytes of a path: the system takes 107, and the socket's first name has 11 more than the path.
const MAX_PATH: usize = 96;

/// Listens at a path. The socket is made in a folder that no other user may enter, gets its mode there, and then moves
/// to its path in one step. So it is never open to more users than the mode says.
///
/// If no file is there, two servers cannot both take the path. If a dead server's file is there, they can: the second
/// server then takes the place of the first.
pub(crate) fn listen_unix<R: Files + Net + RandomSource + AllocGlobal>(
    rt: &R,
    path: &str,
    mode: u32,
) -> Result<UnixListener, ListenError>
    ensures empty { path.now ≡ [] → result ≡ Err ListenError.NotAPath }
    ensures long { 96 < length path.now → result ≡ Err ListenError.PathTooLong }
{
    check_path(path)?;
    let standing = look_at(rt, path)?;
    let folder = ClosedFolder::beside(rt, path)?;
    let listened = folder.listen_at(rt, path, mode, standing);
    folder.remove(rt);
    match listened {
        Ok(listener) => Ok(listener),
        Err(error) => Err(unix_error_of(error.kind())),
    }
}

/// Refuses an empty path, and one that leaves no room for the longer name that the socket has at first.
fn check_path(path: &str) -> Result<(), ListenError>
    ensures empty { (result ≡ Err ListenError.NotAPath) ↔ (path.now ≡ []) }
    ensures long { (result ≡ Err ListenError.PathTooLong) ↔ (96 < length path.now) }
{
    if path.is_empty() {
        return Err(ListenError::NotAPath);
    }
    if path.len() > MAX_PATH {
        return Err(ListenError::PathTooLong);
    }
    Ok(())
}
