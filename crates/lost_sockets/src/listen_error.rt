//! Why an address cannot be listened on.
ghost use Rattle.std.specs.Prelude.{◌≡◌, Some};
ghost use Rattle.lost_sockets.specs.ListenError.{tcp_error_of, unix_error_of, listen_error_text};

use std::error::Error;
use std::fmt;
use std::fmt::{Display, Formatter};
use std::io::ErrorKind;

/// Why an address cannot be listened on.
#[derive(Clone, Copy, PartialEq, Eq, Debug)]
pub enum ListenError {
    /// Another program listens there.
    InUse,
    /// This user may not listen on a port below 1024.
    PortRights,
    /// The address is not one of this machine.
    NotHere,
    /// The text is neither an address nor a known name with a port.
    NotAnAddress,
    /// This user may not use what stands at the path, or may make nothing in its folder.
    FileRights,
    /// What stands at the path is no socket: a file, a folder or a link.
    NotASocket,
    /// The folder of the path is not there.
    NoFolder,
    /// The path has more than 96 bytes.
    PathTooLong,
    /// The path is empty.
    NotAPath,
    /// No socket could be made at the path, for another reason.
    NotMade,
    /// Memory was refused.
    Memory,
}

impl ListenError {
    /// The error's text behind an option and its address, in one clause.
    pub fn text(self) -> &'static str
        ensures { result.now ≡ listen_error_text self }
    {
        match self {
            ListenError::InUse => "is in use: another program listens there",
            ListenError::PortRights =>
                "may not be used: a port below 1024 wants rights that this user lacks",
            ListenError::NotHere => "is no address of this machine",
            ListenError::NotAnAddress =>
                "cannot be used: it must be an address or a name of this machine and a port, as 127.0.0.1:5222",
            ListenError::FileRights =>
                "may not be used: this user lacks rights to that file or to its folder",
            ListenError::NotASocket => "cannot be used: something that is no socket stands there",
            ListenError::NoFolder => "cannot be used: its folder is not there",
            ListenError::PathTooLong => "cannot be used: the path of a socket has at most 96 bytes",
            ListenError::NotAPath =>
                "cannot be used: a path must stand behind unix:, as unix:/run/lostd/desk.sock",
            ListenError::NotMade => "cannot be used: no socket can be made there",
            ListenError::Memory => "cannot be used: memory ran out",
        }
    }
}

impl Display for ListenError {
    ghost output = { λ error. Some (listen_error_text error) };

    fn fmt<W: fmt::Write>(&self, f: &mut Formatter<W>) -> fmt::Result {
        f.write_str(self.text())
    }
}

impl Error for ListenError {}

/// Why a host and a port cannot be listened on, by the system's error.
pub(crate) fn tcp_error_of(kind: ErrorKind) -> ListenError
    ensures { result ≡ tcp_error_of kind }
{
    match kind {
        ErrorKind::AddrInUse => ListenError::InUse,
        ErrorKind::PermissionDenied => ListenError::PortRights,
        ErrorKind::AddrNotAvailable => ListenError::NotHere,
        ErrorKind::OutOfMemory => ListenError::Memory,
        _ => ListenError::NotAnAddress,
    }
}

/// Why no Unix socket can be made at a path, by the system's error.
pub(crate) fn unix_error_of(kind: ErrorKind) -> ListenError
    ensures { result ≡ unix_error_of kind }
{
    match kind {
        ErrorKind::AddrInUse | ErrorKind::AlreadyExists => ListenError::InUse,
        ErrorKind::PermissionDenied | ErrorKind::ReadOnlyFilesystem => ListenError::FileRights,
        ErrorKind::NotFound | ErrorKind::NotADirectory => ListenError::NoFolder,
        ErrorKind::OutOfMemory => ListenError::Memory,
        _ => ListenError::NotMade,
    }
}
