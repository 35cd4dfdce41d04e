//! Events as lines.

use lost_core::Event;
use lost_spec::Coded;
use std::io::{self, Write};

/// Prints an event as a line; the reply to a request has its own byte 10.
pub(crate) fn print<R: Print>(rt: &R, event: &Event) -> io::Result<()> {
    match event {
        Event::Staged(pending) => println!(rt; "staged {pending}"),
        Event::Refused(error) => println!(rt; "refused {}", error.code()),
        Event::Published(edition) => println!(rt; "published {edition}"),
        Event::Entered(edition) => println!(rt; "entered {edition}"),
        Event::Told(edition) => println!(rt; "told {edition}"),
        Event::Replied(line) => print_reply(rt, line.as_slice()),
        Event::NoWorker => println!(rt; "no worker"),
    }
}

/// Prints a reply.
fn print_reply<R: Print>(rt: &R, line: &[u8]) -> io::Result<()> {
    print!(rt; "replied ")?;
    io::writer(rt).write_all(line)
}
