//! Answers requests as of an edition of a journal.

use crate::auditing::{TURNS, begin_walk, is_end};
use crate::fault::AuditFault;
use lost_book::Limits;
use lost_desk::{Desk, open_desk};
use lost_journal_file::{JournalDisk, JournalLength};
use lost_json::{bad_request, internal_error, reply_line};
use lost_keeping::Walk;
use lost_lines::{Answer, Answerer, Counts, NoGate, Text, Watched, run_lines};
use lost_mapping::{Moment, Source, Stamp, StampError};
use lost_routing::Routing;
use memchr::{memchr, memmem};
use std::alloc::{AllocError, Global};
use std::fs::{File, Files};
use std::io::{Read, Write};
use std::sync::Wait;

/// What a commit's line has before its time.
const TIME: &[u8] = b"\"time\":\"";

/// Up to where a journal is read.
#[derive(Clone, Copy)]
pub enum AtEdition {
    /// Up to the commit that made this edition.
    Edition(u64),
    /// Up to the last commit whose time is not later than the moment of the answers.
    ByTime,
}

/// Answers the request lines of `input` from the book of an edition that the journal at a path keeps, as the server of
/// this name at a moment, and writes a reply for each.
///
/// # Errors
///
/// [`AuditFault`].
pub fn explain<R: Wait + Files<File = File> + AllocGlobal, I: Read + Drop, W: Write + Drop>(
    rt: &R,
    path: &str,
    at: AtEdition,
    name: &Source,
    moment: &Moment,
    input: I,
    output: W,
) -> Result<Counts, AuditFault> {
    let edition = match at {
        AtEdition::Edition(edition) => edition,
        AtEdition::ByTime => edition_at(rt, path, moment)?,
    };
    let length = JournalLength::of(rt, path);
    let mut walk = begin_walk(rt, path)?;
    match open_desk(rt, rt.alloc(), Limits::widest(), 1) {
        Ok((mut desk, _readers)) => {
            let explained = match reach(rt, &mut walk, &length, &mut desk, edition) {
                Ok(()) => {
                    let explaining = Explaining {
                        book: desk.published(),
                        name,
                        moment,
                    };
                    answer_all(rt, explaining, input, output)
                }
                Err(fault) => Err(fault),
            };
            desk.close(rt);
            explained
        }
        Err(_) => Err(AuditFault::Memory),
    }
}

/// Answers the lines of an input.
fn answer_all<R: AllocGlobal, I: Read + Drop, W: Write + Drop>(
    rt: &R,
    mut explaining: Explaining<'_>,
    input: I,
    output: W,
) -> Result<Counts, AuditFault> {
    let mut input = Watched::new(input);
    let mut output = Watched::new(output);
    let alloc = rt.alloc();
    match run_lines(
        alloc,
        &mut input,
        &mut output,
        &mut explaining,
        &NoGate,
        TURNS,
    ) {
        Ok(counts) => Ok(counts),
        Err(error) => Err(AuditFault::Stream(error)),
    }
}

/// Publishes a journal's edits up to the commit that made an edition.
fn reach<R: Wait + Files<File = File>>(
    rt: &R,
    walk: &mut Walk<JournalDisk>,
    length: &JournalLength<'_>,
    desk: &mut Desk,
    edition: u64,
) -> Result<(), AuditFault> {
    let mut has_more = true;
    for _commit in rt.forever() {
        if !has_more || desk.edition() >= edition {
            break;
        }
        has_more = next_commit(rt, walk, length, desk)?;
    }
    if desk.edition() == edition {
        return Ok(());
    }
    Err(AuditFault::NoEdition(edition))
}

/// Publishes a journal's edits up to the next commit. Says whether there was one.
fn next_commit<R: Wait + Files<File = File>>(
    rt: &R,
    walk: &mut Walk<JournalDisk>,
    length: &JournalLength<'_>,
    desk: &mut Desk,
) -> Result<bool, AuditFault> {
    match walk.next_commit(rt, desk) {
        Ok(has_more) => Ok(has_more),
        Err(stopped) if is_end(rt, length, &stopped) => Ok(false),
        Err(stopped) => Err(AuditFault::NotRead(stopped)),
    }
}

/// The edition that the last commit made whose time is not later than a moment.
fn edition_at<R: Wait + Files<File = File> + AllocGlobal>(
    rt: &R,
    path: &str,
    moment: &Moment,
) -> Result<u64, AuditFault> {
    let length = JournalLength::of(rt, path);
    let mut walk = begin_walk(rt, path)?;
    match open_desk(rt, rt.alloc(), Limits::widest(), 1) {
        Ok((mut desk, _readers)) => {
            let edition = last_edition(rt, &mut walk, &length, &mut desk, moment);
            desk.close(rt);
            edition
        }
        Err(_) => Err(AuditFault::Memory),
    }
}

/// The same, over a desk that has no edits.
fn last_edition<R: Wait + Files<File = File> + AllocGlobal>(
    rt: &R,
    walk: &mut Walk<JournalDisk>,
    length: &JournalLength<'_>,
    desk: &mut Desk,
    moment: &Moment,
) -> Result<u64, AuditFault> {
    let mut edition = None;
    for _commit in rt.forever() {
        if !next_commit(rt, walk, length, desk)? || is_later(rt.alloc(), walk.line(), moment)? {
            break;
        }
        edition = Some(desk.edition());
    }
    match edition {
        Some(edition) => Ok(edition),
        None => Err(AuditFault::TooEarly),
    }
}

/// Whether a commit's line has a time that is later than a moment.
fn is_later(alloc: Global, line: &[u8], moment: &Moment) -> Result<bool, AllocError> {
    let Some(at) = memmem::find(line, TIME) else {
        return Ok(false);
    };
    let (_front, rest) = line.split_at(at);
    let time = rest.strip_prefix(TIME).unwrap_or(rest);
    let end = memchr(b'"', time).unwrap_or(0);
    let (time, _rest) = time.split_at(end);
    match Stamp::parse(alloc, time) {
        Ok(stamp) => Ok(moment.is_earlier(&stamp.moment())),
        Err(StampError::Bad) => Ok(false),
        Err(StampError::Memory) => Err(AllocError),
    }
}

/// Answers request lines from a book.
#[derive(Drop)]
struct Explaining<'b> {
    book: &'b Routing,
    name: &'b Source,
    moment: &'b Moment,
}

impl Answerer for Explaining<'_> {
    ghost step = { λ old cut reply new. Unit {0} };

    fn answer(&mut self, alloc: Global, line: &[u8]) -> Answer {
        match reply_line(alloc, self.book, self.name, self.moment, line) {
            Ok(text) => Answer {
                text: Text::Kept(text),
                is_internal_error: false,
            },
            Err(_) => internal_error(),
        }
    }

    fn answer_long(&mut self) -> Answer {
        bad_request()
    }

    fn answer_unread(&mut self) -> Answer {
        internal_error()
    }
}
