//! A content that is opened as a journal.
ghost use Rattle.std.specs.Prelude.{◌≡◌, []};
ghost use Rattle.lost_worker.specs.Desking.{lists_of};
ghost use Rattle.lost_keeping.specs.Kept.{all_published};

use crate::filling::{FILLING, open_filled};
use crate::listed::Listed;
use crate::noted::Noted;
use crate::record::{Notebook, Record};
use lost_book::Limits;
use lost_desk::{Desk, open_desk};
use lost_keeping::{Recovered, Stopped};
use sqlite_disk::{Fuse, Memory};
use std::alloc::AllocError;
use std::io;
use std::sync::Wait;

/// What was found in a journal that was opened.
#[derive(Clone, Copy)]
pub(crate) struct Found {
    /// What is published.
    pub(crate) listed: Listed,
    /// What was read.
    pub(crate) recovered: Recovered,
}

/// How a content was opened.
#[derive(Drop)]
pub(crate) struct Reopened {
    pub(crate) outcome: Result<Found, Stopped>,
    /// What was asked of the file.
    pub(crate) record: Record,
}

/// Opens a content by a new desk, on a disk that takes so many calls and then stops for good.
pub(crate) fn reopen<R: Wait + AllocGlobal>(
    rt: &R,
    limits: Limits,
    content: &[u8],
    calls: u64,
) -> io::Result<Reopened> {
    let notebook = Notebook::new(rt.alloc());
    let outcome = match open_desk(rt, rt.alloc(), limits, 1) {
        Ok((mut desk, _readers)) => {
            let outcome = open_on(rt, &notebook, &mut desk, content, calls);
            desk.close(rt);
            outcome?
        }
        Err(_) => return Err(AllocError.into()),
    };
    Ok(Reopened {
        outcome,
        record: notebook.into_record(),
    })
}

/// Opens a content by a desk with no edits.
fn open_on<R: Wait + AllocGlobal>(
    rt: &R,
    notebook: &Notebook,
    desk: &mut Desk,
    content: &[u8],
    calls: u64,
) -> io::Result<Result<Found, Stopped>>
    requires nothing { lists_of desk.old ≡ all_published [] }
{
    let noted = Noted::new(Memory::new(rt.alloc()), notebook);
    let disk = Fuse::new(noted, calls.saturating_add(FILLING));
    match open_filled(rt, rt.alloc(), disk, content, desk)? {
        Ok((_keeper, recovered)) => Ok(Ok(Found {
            listed: Listed::published(desk),
            recovered,
        })),
        Err(stopped) => Ok(Err(stopped)),
    }
}
