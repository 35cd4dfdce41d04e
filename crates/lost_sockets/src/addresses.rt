//! The addresses of a server.

/// The addresses of a server, as they were given.
#[derive(Clone, Copy)]
pub struct Addresses<'a> {
    /// The address of queries.
    pub queries: &'a str,
    /// The address of the desk, if one is given.
    pub desk: Option<&'a str>,
    /// The address of the status, if one is given.
    pub status: Option<&'a str>,
    /// The mode of the files of Unix sockets, at most `0o777`.
    pub socket_mode: u32,
}
