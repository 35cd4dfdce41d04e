//! Serves a stream by a replay, a desk or a reader.
use crate::always::moments_of;
use lost_book::Limits;
use lost_desk::{Desk, Reader, open_desk};
use lost_replay::replay;
use lost_worker::{Counts, NoGate, ServeError, Turns, Watched, serve_desk, serve_lines};
use std::alloc::Global;
use std::io::Read;
use std::sync::Wait;
use test_parts::{Setting, Sink};

/// The server of a stream.
#[derive(Clone, Copy, Drop)]
pub(crate) enum By {
    /// A replay.
    Replay,
    /// A desk with no edits.
    Desk,
    /// A reader of such a desk.
    Queries,
}

impl By {
    /// The server that a word of a command names.
    pub(crate) fn named(word: &str) -> Option<By> {
        match word {
            "replay" => Some(By::Replay),
            "desk" => Some(By::Desk),
            "queries" => Some(By::Queries),
            _ => None,
        }
    }
}

/// How a stream was served, what was written, in how many writes, and how many reads were made.
#[derive(Drop)]
pub(crate) struct Outcome {
    pub(crate) result: Result<Counts, ServeError>,
    pub(crate) text: Vec<u8>,
    pub(crate) writes: u64,
    pub(crate) reads: u64,
}

impl Outcome {
    /// How a stream was served, read from the streams after it.
    fn of<R: Read + Drop>(
        served: Result<Counts, ServeError>,
        input: &Watched<R>,
        output: Watched<Sink>,
    ) -> Outcome {
        let sink = output.into_inner();
        Outcome {
            result: served,
            writes: sink.writes,
            text: sink.text,
            reads: input.reads(),
        }
    }
}

/// Serves a stream from its start; `None` where memory is refused before the first read.
pub(crate) fn served<T: Wait, R: Read + Drop>(
    rt: &T,
    alloc: Global,
    setting: &Setting,
    by: By,
    reader: R,
    writer: Sink,
    turns: Turns,
) -> Option<Outcome> {
    match by {
        By::Replay => Some(by_replay(alloc, setting, reader, writer, turns)),
        By::Desk => by_new_desk(rt, alloc, reader, writer, turns),
        By::Queries => by_reader_of_desk(rt, alloc, setting, reader, writer, turns),
    }
}

/// Serves a stream by a replay.
fn by_replay<R: Read + Drop>(
    alloc: Global,
    setting: &Setting,
    reader: R,
    writer: Sink,
    turns: Turns,
) -> Outcome {
    let (mut input, mut output) = (Watched::new(reader), Watched::new(writer));
    let (name, moment) = (&setting.name, &setting.moment);
    let served = replay(alloc, &mut input, &mut output, name, moment, turns);
    Outcome::of(served, &input, output)
}

/// Serves a stream by a desk with no edits.
fn by_new_desk<T: Wait, R: Read + Drop>(
    rt: &T,
    alloc: Global,
    reader: R,
    writer: Sink,
    turns: Turns,
) -> Option<Outcome> {
    let Ok((mut desk, _readers)) = open_desk(rt, alloc, Limits::widest(), 1) else {
        return None;
    };
    let outcome = by_desk(rt, alloc, &mut desk, reader, writer, turns);
    desk.close(rt);
    Some(outcome)
}

/// Serves a stream by a desk.
fn by_desk<T: Wait, R: Read + Drop>(
    rt: &T,
    alloc: Global,
    desk: &mut Desk,
    reader: R,
    writer: Sink,
    turns: Turns,
) -> Outcome {
    let (mut input, mut output) = (Watched::new(reader), Watched::new(writer));
    let served = serve_desk(rt, alloc, &mut input, &mut output, desk, turns);
    Outcome::of(served, &input, output)
}

/// Serves a stream by a reader of a desk with no edits.
fn by_reader_of_desk<T: Wait, R: Read + Drop>(
    rt: &T,
    alloc: Global,
    setting: &Setting,
    reader: R,
    writer: Sink,
    turns: Turns,
) -> Option<Outcome> {
    let Ok((desk, mut readers)) = open_desk(rt, alloc, Limits::widest(), 1) else {
        return None;
    };
    let outcome = match readers.take() {
        Some(mut replier) => Some(by_reader(alloc, setting, &mut replier, reader, writer, turns)),
        None => None,
    };
    desk.close(rt);
    outcome
}

/// Serves a stream by a reader.
fn by_reader<R: Read + Drop>(
    alloc: Global,
    setting: &Setting,
    replier: &mut Reader,
    reader: R,
    writer: Sink,
    turns: Turns,
) -> Outcome {
    let (mut input, mut output) = (Watched::new(reader), Watched::new(writer));
    let mut moments = moments_of(setting);
    let served = serve_lines(
        alloc,
        &mut input,
        &mut output,
        replier,
        &setting.name,
        &mut moments,
        &NoGate,
        turns,
    );
    Outcome::of(served, &input, output)
}
