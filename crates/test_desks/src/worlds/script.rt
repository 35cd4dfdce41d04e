//! The lines of worlds.
use lost_book::Limits;
use lost_core::Step;
use lost_json::{DeskFault, DeskLine, read_desk};
use lost_mapping::{MappingError, Moment};
use std::alloc::{AllocError, Global};
use test_parts::limits_of;

/// A line of worlds.
#[derive(Drop)]
pub(crate) enum Line {
    /// A world of so many workers, whose book has these limits, begins.
    World(u8, Limits),
    /// The next step of the world.
    Step(Step),
    /// Neither.
    Other,
}

/// Reads a line; requests are at one moment.
pub(crate) fn read_line(alloc: Global, moment: Moment, line: &str) -> Result<Line, AllocError> {
    let (word, rest) = line.split_once(' ').unwrap_or((line, ""));
    match word {
        "world" => Ok(world(rest)),
        "stage" => stage(alloc, rest.as_bytes()),
        "publish" => Ok(Line::Step(Step::Publish)),
        "enter" => Ok(enter(rest)),
        "tell" => Ok(tell(rest)),
        "answer" => answer(alloc, moment, rest),
        _ => Ok(Line::Other),
    }
}

/// The world of so many workers and of these limits.
fn world(words: &str) -> Line {
    let (workers, limits) = words.split_once(' ').unwrap_or((words, ""));
    match (workers.parse(), limits_of(limits.trim_end())) {
        (Ok(workers), Some(limits)) => Line::World(workers, limits),
        _ => Line::Other,
    }
}

/// The step that stages the edit of a desk line.
fn stage(alloc: Global, line: &[u8]) -> Result<Line, AllocError> {
    match read_desk(alloc, line) {
        Ok(Some(DeskLine::Edit(edit))) => Ok(Line::Step(Step::Stage(edit))),
        Err(DeskFault::Mapping(MappingError::Memory)) => Err(AllocError),
        _ => Ok(Line::Other),
    }
}

/// The step at which a worker enters.
fn enter(word: &str) -> Line {
    match word.parse() {
        Ok(worker) => Line::Step(Step::Enter(worker)),
        Err(_) => Line::Other,
    }
}

/// The step that tells a worker of so many edits.
fn tell(words: &str) -> Line {
    let (worker, told) = words.split_once(' ').unwrap_or((words, ""));
    match (worker.parse(), told.parse()) {
        (Ok(worker), Ok(told)) => Line::Step(Step::Tell(worker, told)),
        _ => Line::Other,
    }
}

/// The step that answers a request line.
fn answer(alloc: Global, moment: Moment, words: &str) -> Result<Line, AllocError> {
    let (worker, line) = words.split_once(' ').unwrap_or((words, ""));
    match worker.parse() {
        Ok(worker) => {
            let line = Vec::from_slice(alloc, line.as_bytes())?;
            Ok(Line::Step(Step::Answer(worker, moment, line)))
        }
        Err(_) => Ok(Line::Other),
    }
}
