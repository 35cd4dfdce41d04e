//! A connection.

/// The two ends of a connection: its input and its output. It is closed when it is dropped.
#[derive(Drop)]
pub struct Connection<I, O> {
    /// The source of lines.
    pub input: I,
    /// The destination of replies.
    pub output: O,
}
