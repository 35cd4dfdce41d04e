//! A row that is run by a desk whose edits a journal keeps, on a disk that fails.
ghost use Rattle.std.specs.Prelude.{◌≡◌, []};
ghost use Rattle.lost_worker.specs.Desking.{lists_of};
ghost use Rattle.lost_keeping.specs.Kept.{all_published};

use crate::account::Account;
use crate::allowed::Allowed;
use crate::filling::{FILLING, open_filled};
use crate::flaw::Plan;
use crate::listed::Listed;
use crate::noted::Noted;
use crate::once::Once;
use crate::record::{Notebook, Record};
use crate::row::Row;
use lost_desk::{Desk, open_desk};
use lost_journal::NotKept;
use lost_keeping::{Keeper, Stopped, serve_desk_kept};
use lost_worker::{Turns, Watched};
use sqlite_disk::{Disk, Fuse, Memory};
use std::alloc::{AllocError, Global};
use std::io;
use std::sync::Wait;
use std::time::Clock;

/// A disk in memory that fails as a plan says, and whose calls are noted.
type Failing<'n> = Fuse<Once<Noted<'n, Memory>>>;

/// How the lines of a row were answered.
#[derive(Drop)]
pub(crate) struct Answered {
    pub(crate) replies: Vec<u8>,
    pub(crate) account: Account,
    pub(crate) published: Listed,
    pub(crate) staged: Listed,
    /// Why a line was not kept, the first time.
    pub(crate) fault: Option<NotKept>,
}

impl Answered {
    /// What may be published after a crash.
    pub(crate) fn allowed(&self) -> Allowed {
        let more = if self.account.may_be_kept {
            Some(self.staged)
        } else {
            None
        };
        Allowed {
            published: self.published,
            more,
            is_at_rest: self.account.is_at_rest,
        }
    }
}

/// A row that was run.
#[derive(Drop)]
pub(crate) struct Run {
    /// How its lines were answered, or why the journal was not opened before.
    pub(crate) outcome: Result<Answered, Stopped>,
    /// What was asked of the file.
    pub(crate) record: Record,
}

/// Runs a row from a journal of this content on, on a disk that fails as a plan says.
pub(crate) fn run_row<R: Wait + Clock + AllocGlobal>(
    rt: &R,
    row: &Row,
    content: &[u8],
    plan: Plan,
) -> io::Result<Run> {
    let notebook = Notebook::new(rt.alloc());
    let outcome = match open_desk(rt, rt.alloc(), row.limits, 1) {
        Ok((mut desk, _readers)) => {
            let outcome = run_on(rt, row, content, plan, &notebook, &mut desk);
            desk.close(rt);
            outcome?
        }
        Err(_) => return Err(AllocError.into()),
    };
    Ok(Run {
        outcome,
        record: notebook.into_record(),
    })
}

/// Runs a row by a desk with no edits.
fn run_on<R: Wait + Clock + AllocGlobal>(
    rt: &R,
    row: &Row,
    content: &[u8],
    plan: Plan,
    notebook: &Notebook,
    desk: &mut Desk,
) -> io::Result<Result<Answered, Stopped>>
    requires nothing { lists_of desk.old ≡ all_published [] }
{
    let disk = failing(rt.alloc(), plan, notebook);
    match open_filled(rt, rt.alloc(), disk, content, desk)? {
        Ok((mut keeper, _recovered)) => {
            let answered = answer(rt, row, desk, &mut keeper)?;
            Ok(Ok(answered))
        }
        Err(stopped) => Ok(Err(stopped)),
    }
}

/// An empty disk that fails as a plan says once it is filled.
fn failing(alloc: Global, plan: Plan, notebook: &Notebook) -> Failing<'_> {
    let noted = Noted::new(Memory::new(alloc), notebook);
    let calls = plan.calls.saturating_add(FILLING);
    Fuse::new(Once::new(noted, plan.flaw), calls)
}

/// Answers the lines of a row.
fn answer<R: Wait + Clock + AllocGlobal, D: Disk>(
    rt: &R,
    row: &Row,
    desk: &mut Desk,
    keeper: &mut Keeper<D>,
) -> io::Result<Answered> {
    let mut account = Account::new();
    let mut input = Watched::new(row.lines.as_slice());
    let mut output = Watched::new(Vec::new(rt.alloc()));
    let served = serve_desk_kept(
        rt,
        rt.alloc(),
        &mut input,
        &mut output,
        desk,
        keeper,
        &mut account,
        Turns::USUAL,
    );
    if served.is_err() {
        return Err(AllocError.into());
    }
    Ok(Answered {
        replies: output.into_inner(),
        account,
        published: Listed::published(desk),
        staged: Listed::staged(desk),
        fault: keeper.take_fault(),
    })
}
