//! Where a server listens (own rules): addresses, listeners and streams of TCP and of Unix sockets.
#![tactic(auto)]

mod accepting;
mod address;
mod addresses;
mod closed_folder;
mod files;
mod listen_error;
mod listener;
mod mode;
mod peer;
mod socket_file;
mod stream;
mod unix;

pub use accepting::{accept, accept_until};
pub use address::Address;
pub use addresses::Addresses;
pub use files::most_files;
pub use listen_error::ListenError;
pub use listener::{Listener, listen};
pub use mode::mode_of;
pub use peer::Peer;
pub use socket_file::remove_socket;
pub use stream::Stream;
