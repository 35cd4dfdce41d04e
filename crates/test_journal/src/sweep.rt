//! Each row, on each disk that fails.
use crate::flaw::{Effect, Flaw, Plan};
use crate::judging::judge;
use crate::row::Row;
use crate::rows::rows;
use crate::sums::Sums;
use crate::verdict::Fault;
use lost_keeping::first_line;
use std::io;
use std::rt::Files;
use std::sync::Wait;
use std::time::Clock;

/// The latest stop behind a call that fails, as a number of calls from that one on.
const LATEST: u64 = 8;

/// Runs all rows, and prints and returns whether all is as expected.
pub(crate) fn run_rows<R: Files + Wait + Clock + Print + AllocGlobal + Clone + Drop>(
    rt: &R,
) -> io::Result<bool> {
    let first = first_line(rt.alloc(), rt.since_1970().ok())?;
    let mut all = true;
    for row in &rows(rt)? {
        if !is_right(rt, row, first.as_bytes())? {
            all = false;
        }
    }
    Ok(all)
}

/// Runs a row on each disk, and prints how much was run, or what is wrong.
fn is_right<R: Wait + Clock + Print + AllocGlobal>(
    rt: &R,
    row: &Row,
    first: &[u8],
) -> io::Result<bool> {
    let mut sweep = Sweep {
        rt,
        row,
        first,
        sums: Sums::new(),
        plan: Plan::SOUND,
    };
    match sweep.run() {
        Ok(()) => {
            sweep.print()?;
            Ok(true)
        }
        Err(Fault::Wrong(wrong)) => {
            println!(rt; "wrong: {}: {}: {wrong}", row.name, sweep.plan)?;
            Ok(false)
        }
        Err(Fault::Io(error)) => Err(error),
    }
}

/// The runs of a row.
#[derive(Drop)]
struct Sweep<'a, R> {
    rt: &'a R,
    row: &'a Row,
    /// The content of the journal before.
    first: &'a [u8],
    sums: Sums,
    /// How the disk fails in the last run.
    plan: Plan,
}

impl<R: Wait + Clock + Print + AllocGlobal> Sweep<'_, R> {
    /// Runs the row with no failure, and then on each disk that fails.
    fn run(&mut self) -> Result<(), Fault> {
        let calls = self.judge(Plan::SOUND)?;
        for before in 0..calls {
            self.judge(Plan {
                flaw: None,
                calls: before,
            })?;
            for effect in [Effect::Nothing, Effect::Whole] {
                self.fail_once(Flaw { before, effect })?;
            }
        }
        Ok(())
    }

    /// Runs the row on disks of which one call fails, and which stop for good some calls later, or do not stop.
    fn fail_once(&mut self, flaw: Flaw) -> Result<(), Fault> {
        for later in 1..=LATEST {
            self.judge(Plan {
                flaw: Some(flaw),
                calls: flaw.before.saturating_add(later),
            })?;
        }
        self.judge(Plan {
            flaw: Some(flaw),
            calls: u64::MAX,
        })?;
        Ok(())
    }

    /// Runs the row as a plan says, and gives how many calls its disk took.
    fn judge(&mut self, plan: Plan) -> Result<u64, Fault> {
        self.plan = plan;
        judge(self.rt, self.row, self.first, plan, &mut self.sums)
    }

    /// Prints how much was run.
    fn print(&self) -> io::Result<()> {
        println!(self.rt;
            "{}: {} runs, {} contents opened, {} torn gates and {} commits behind refused, {} openings stopped",
            self.row.name,
            self.sums.runs,
            self.sums.opened,
            self.sums.torn,
            self.sums.behind,
            self.sums.stopped
        )
    }
}
