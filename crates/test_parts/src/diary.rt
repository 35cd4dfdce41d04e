//! What happens to a stream, in order: what is read and sent, and what a gate is asked and told.
use std::alloc::Global;
use std::cell::RefCell;
use std::io;
use std::io::{Read, Write};

/// One thing that happened.
#[derive(Clone, Copy, PartialEq, Eq, Debug, Drop)]
pub enum Event {
    /// A read was made.
    Read,
    /// A flush sent what was written before it: so many bytes in all by now.
    Sent(usize),
    /// A gate was asked for the line with this number.
    Asked(u64),
    /// A gate was told that the line with this number was answered.
    Told(u64),
}

/// What happened, in order. A reader, a writer and a gate may record in one diary.
#[derive(Drop)]
pub struct Diary {
    events: RefCell<Vec<Event>>,
}

impl Diary {
    /// A diary in which nothing is recorded.
    pub fn new(alloc: Global) -> Diary {
        Diary {
            events: RefCell::new(Vec::new(alloc)),
        }
    }

    /// Records an event. If memory is refused, the event is missing.
    pub fn record(&self, event: Event) {
        if let Ok(mut events) = self.events.try_borrow_mut() {
            let _ = events.push(event);
        }
    }

    /// Gives back what was recorded.
    pub fn into_events(self) -> Vec<Event> {
        self.events.into_inner()
    }
}

/// A reader or a writer that records its reads, and its flushes after a write.
#[derive(Drop)]
pub struct Recorded<'d, T> {
    inner: T,
    diary: &'d Diary,
    written: usize,
    sent: usize,
}

impl<'d, T> Recorded<'d, T> {
    /// Records in a diary from here on.
    pub fn new(inner: T, diary: &'d Diary) -> Recorded<'d, T> {
        Recorded {
            inner,
            diary,
            written: 0,
            sent: 0,
        }
    }

    /// Gives back the reader or the writer.
    pub fn into_inner(self) -> T {
        let Recorded {
            inner,
            diary: _,
            written: _,
            sent: _,
        } = self;
        inner
    }
}

impl<T: Read> Read for Recorded<'_, T> {
    fn read(&mut self, buf: &mut [u8]) -> io::Result<usize> {
        self.diary.record(Event::Read);
        self.inner.read(buf)
    }
}

impl<T: Write> Write for Recorded<'_, T> {
    fn write(&mut self, buf: &[u8]) -> io::Result<usize> {
        let count = self.inner.write(buf)?;
        self.written = self.written.saturating_add(count);
        Ok(count)
    }

    fn flush(&mut self) -> io::Result<()> {
        self.inner.flush()?;
        if self.written > self.sent {
            self.sent = self.written;
            self.diary.record(Event::Sent(self.sent));
        }
        Ok(())
    }
}
