//! A connection that is read and written by two owners.
use lost_sockets::Stream;
use std::alloc::{AllocError, Global};
use std::io;
use std::io::{Read, Write};
use std::sync::Arc;

/// One of two owners of a connection, which is closed once both are dropped.
#[derive(Drop)]
pub(crate) struct SharedStream {
    stream: Arc<Stream>,
}

impl SharedStream {
    /// Both owners of a connection.
    pub(crate) fn pair(
        alloc: Global,
        stream: Stream,
    ) -> Result<(SharedStream, SharedStream), AllocError> {
        let Ok(stream) = Arc::new(alloc, stream) else {
            return Err(AllocError);
        };
        let other = Arc::try_clone(&stream)?;
        Ok((SharedStream { stream }, SharedStream { stream: other }))
    }
}

impl Read for SharedStream {
    fn read(&mut self, buf: &mut [u8]) -> io::Result<usize> {
        let mut stream = &*self.stream;
        stream.read(buf)
    }
}

impl Write for SharedStream {
    fn write(&mut self, buf: &[u8]) -> io::Result<usize> {
        let mut stream = &*self.stream;
        stream.write(buf)
    }

    fn flush(&mut self) -> io::Result<()> {
        Ok(())
    }
}
