//! Events at a server: each is a line of words, with a space between each two.
//!
//! | Event | Meaning |
//! |---|---|
//! | `ready` | the server answers from its map |
//! | `reply WORKER LINE` | a worker gives a reply |
//! | `busy WORKER`, `idle WORKER` | a worker serves a connection, and serves none any more |
//! | `hits WORKER COUNT` | a worker's cache counts so many hits |
//! | `accepted`, `turned away` | a query connection is accepted, and is closed at once |
//! | `taken WORKER`, `ended WORKER`, `failed WORKER` | a worker takes a query connection, which ends well, or in a fault |
//! | `lost` | a query connection is accepted, and no worker takes it |
//! | `refused CODE` | the desk refuses a line |
//! | `book EDITION MAPPINGS PENDING DIGEST` | the desk's edition, how many mappings and pending edits it has, and the
//! digest of the mappings, a number |
//! | `commit SECONDS` | the desk commits so many seconds after 1970 |
//! | `desk`, `no desk` | a desk connects, and leaves |
//! | `journal failed` | the journal can keep nothing more |
//! | `logged COUNT`, `left out COUNT` | so many lines of the log of answers are written, and left out |
//! | `after SECONDS` | so many seconds pass |
use super::watch::Watch;
use lost_status::{
    ConnectionCounter, ConnectionEvent, DeskCounter, DeskEvent, Status, WorkerCounters,
};
use std::alloc::{AllocError, Global};

/// What the threads of a row's server count by.
#[derive(Drop)]
pub(crate) struct Threads<'s> {
    status: &'s Status,
    acceptor: ConnectionCounter<'s>,
    desk: DeskCounter<'s>,
    workers: Vec<WorkerCounters<'s>>,
}

impl<'s> Threads<'s> {
    /// The threads of a server, with this many workers.
    pub(crate) fn of(
        alloc: Global,
        status: &'s Status,
        count: u32,
    ) -> Result<Threads<'s>, AllocError> {
        let mut workers = Vec::new(alloc);
        for number in 0..count {
            if let Some(worker) = status.worker(number as usize) {
                workers.push(worker)?;
            }
        }
        Ok(Threads {
            status,
            acceptor: status.acceptor(),
            desk: status.desk(),
            workers,
        })
    }

    /// Lets an event happen. Any other line counts as `no desk`.
    pub(crate) fn happen(
        &mut self,
        alloc: Global,
        event: &str,
        watch: &Watch,
    ) -> Result<(), AllocError> {
        let (word, rest) = event.split_once(' ').unwrap_or((event, ""));
        match word {
            "reply" | "hits" => return self.reply(alloc, word, rest),
            "taken" | "ended" | "failed" | "busy" | "idle" => self.at_worker(word, rest),
            "after" => watch.pass(number_of(rest)),
            "ready" => self.status.set_ready(),
            "logged" => self.status.log()?.add_written(number_of(rest)),
            "left" => {
                let (_out, count) = rest.split_once(' ').unwrap_or((rest, ""));
                self.status.log()?.add_left_out(number_of(count));
            }
            _ => self.at_connection(event),
        }
        Ok(())
    }

    /// Lets an event of a query connection happen where they are accepted, or one of the desk.
    fn at_connection(&mut self, event: &str) {
        match event {
            "accepted" => self.acceptor.count(ConnectionEvent::Accepted),
            "turned away" => self.acceptor.count(ConnectionEvent::TurnedAway),
            "lost" => {
                self.acceptor.count(ConnectionEvent::Accepted);
                self.acceptor.count(ConnectionEvent::Taken);
                self.acceptor.count(ConnectionEvent::Failed);
            }
            _ => self.at_desk(event),
        }
    }

    /// Lets an event of a query connection happen at a worker.
    fn at_worker(&mut self, word: &str, number: &str) {
        let number = number.parse::<usize>().unwrap_or(usize::MAX);
        let Some(worker) = self.workers.get_mut(number) else {
            return;
        };
        worker.connections.count(match word {
            "taken" => ConnectionEvent::Taken,
            "ended" => ConnectionEvent::Ended,
            "failed" => ConnectionEvent::Failed,
            "busy" => ConnectionEvent::Busy,
            _ => ConnectionEvent::Idle,
        });
    }

    /// Lets a worker give a reply, or its cache count its hits.
    fn reply(&mut self, alloc: Global, word: &str, rest: &str) -> Result<(), AllocError> {
        let (number, rest) = rest.split_once(' ').unwrap_or((rest, ""));
        let number = number.parse::<usize>().unwrap_or(usize::MAX);
        let Some(worker) = self.workers.get_mut(number) else {
            return Ok(());
        };
        if word == "hits" {
            worker.replies.set_cache_hits(number_of(rest));
            return Ok(());
        }
        // Its line ends in byte 10.
        let line = format!(in alloc; "{rest}\n")?;
        worker.replies.count_reply(line.as_bytes());
        Ok(())
    }

    /// Lets an event of the desk happen.
    fn at_desk(&mut self, event: &str) {
        let (word, rest) = event.split_once(' ').unwrap_or((event, ""));
        self.desk.count(match word {
            "refused" => DeskEvent::Refused(rest.parse::<u8>().unwrap_or(0)),
            "commit" => DeskEvent::Committed(number_of(rest)),
            "book" => held(rest),
            "desk" => DeskEvent::Connected,
            "journal" => DeskEvent::JournalFailed,
            _ => DeskEvent::Left,
        });
    }
}

/// What a desk holds, by its numbers.
fn held(numbers: &str) -> DeskEvent {
    let (edition, rest) = numbers.split_once(' ').unwrap_or((numbers, ""));
    let (mappings, rest) = rest.split_once(' ').unwrap_or((rest, ""));
    let (pending, digest) = rest.split_once(' ').unwrap_or((rest, ""));
    DeskEvent::Holds {
        edition: number_of(edition),
        mappings: number_of(mappings),
        pending: number_of(pending),
        digest: digest.parse::<u128>().unwrap_or(0),
    }
}

/// A number; 0 where the text is none.
fn number_of(text: &str) -> u64 {
    text.parse::<u64>().unwrap_or(0)
}
