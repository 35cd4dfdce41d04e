//! Connections that are served in bursts.
use crate::always::moments_of;
use crate::sipping::{Piecewise, Sipping};
use crate::telling::tell_lines;
use lost_connections::{Client, ClientFault, Progress};
use lost_worker::{NoGate, Replier, Turns, Watched, serve_lines};
use std::alloc::Global;
use std::io;
use test_parts::Setting;

/// The most bytes of a read.
const CHUNK: usize = 1_024;

/// The most bursts of a connection.
const MOST_BURSTS: u64 = 10_000_000;

/// A stream, and the text that is written when it is served as a whole.
#[derive(Drop)]
struct Served<'a> {
    setting: &'a Setting,
    bytes: &'a [u8],
    whole: Vec<u8>,
}

/// Serves a stream by a replier as a whole, and then in bursts, once for each place where it can be cut in two, by an
/// output that takes so many bytes at a time. Prints the replies, at how many places it was cut, and at how many of
/// these the replies differed.
pub(crate) fn cut_everywhere<R: Print + AllocGlobal, P: Replier>(
    rt: &R,
    replier: &mut P,
    setting: &Setting,
    bytes: &[u8],
    most: usize,
) -> io::Result<()> {
    let served = serve_whole(rt, replier, setting, bytes)?;
    let mut others = 0u64;
    for place in 0..=bytes.len() {
        if !served.is_same(rt.alloc(), replier, place, most)? {
            others = others.saturating_add(1);
        }
    }
    println!(rt;
        "cut at {} places, other replies at {others}",
        bytes.len() + 1
    )
}

/// The same, cut at one place alone.
pub(crate) fn cut_once<R: Print + AllocGlobal, P: Replier>(
    rt: &R,
    replier: &mut P,
    setting: &Setting,
    bytes: &[u8],
    place: usize,
) -> io::Result<()> {
    let served = serve_whole(rt, replier, setting, bytes)?;
    let same = served.is_same(rt.alloc(), replier, place, CHUNK)?;
    println!(rt; "cut at {place}, the same replies {same}")
}

/// Serves a stream as a whole, and prints the replies.
fn serve_whole<'a, R: Print + AllocGlobal, P: Replier>(
    rt: &R,
    replier: &mut P,
    setting: &'a Setting,
    bytes: &'a [u8],
) -> io::Result<Served<'a>> {
    let whole = whole_text(rt.alloc(), replier, setting, bytes)?;
    tell_lines(rt, whole.as_slice())?;
    Ok(Served {
        setting,
        bytes,
        whole,
    })
}

/// The text written when a stream is served as a whole.
fn whole_text<P: Replier>(
    alloc: Global,
    replier: &mut P,
    setting: &Setting,
    bytes: &[u8],
) -> io::Result<Vec<u8>> {
    let mut input = Watched::new(bytes);
    let mut output = Watched::new(Vec::new(alloc));
    let served = serve_lines(
        alloc,
        &mut input,
        &mut output,
        replier,
        &setting.name,
        &mut moments_of(setting),
        &NoGate,
        Turns::USUAL,
    );
    match served {
        Ok(_) => Ok(output.into_inner()),
        Err(_) => Err(io::Error::from(io::ErrorKind::Other)),
    }
}

impl Served<'_> {
    /// Whether the same text is written when the stream comes in two pieces.
    fn is_same<P: Replier>(
        &self,
        alloc: Global,
        replier: &mut P,
        place: usize,
        most: usize,
    ) -> io::Result<bool> {
        let input = Piecewise::of(self.bytes, place);
        let output = Sipping::new(alloc, most);
        let mut client = Client::new(alloc, input, output, Turns::USUAL.lines);
        let mut chunk = [0u8; CHUNK];
        let name = &self.setting.name;
        for _ in 0..MOST_BURSTS {
            let mut moments = moments_of(self.setting);
            let served = client.serve_burst(
                alloc,
                &mut chunk,
                replier,
                name,
                &mut moments,
                &NoGate,
            );
            match served {
                Ok(burst) if burst.progress == Progress::Over => {
                    return Ok(client.output().text.as_slice() == self.whole.as_slice());
                }
                Ok(_) => {}
                Err(fault) => return Err(fault_error(fault)),
            }
        }
        Ok(false)
    }
}

/// An error that says how a connection ended.
fn fault_error(fault: ClientFault) -> io::Error {
    match fault {
        ClientFault::Memory => io::Error::from(io::ErrorKind::OutOfMemory),
        ClientFault::Read | ClientFault::Write | ClientFault::Spent => {
            io::Error::from(io::ErrorKind::Other)
        }
    }
}
