//! The threads of a server: one for each worker, one that accepts connections, and this one, which serves desks.
ghost use Rattle.std.specs.Prelude.{◌≡◌, ◌≢◌, Err};

use crate::run_fault::RunFault;
use lost_lines::Counts;
use lost_loop::{Acceptor, WorkerHandle};
use std::alloc::Global;
use std::io::Eprint;
use std::sync::Wait;
use std::sync::atomic::Ordering;
use std::thread;
use std::thread::{JoinHandle, Threads};
use std::time::Clock;

/// What a thread does.
pub(crate) trait Task {
    /// What it gives at the end.
    type Output;

    /// Does it.
    fn run(self) -> Self::Output;
}

/// Runs each worker in a thread of its own, and accepts connections in one more until the server is over. Serves desks
/// in this thread, since what keeps their edits is never sent to another one, and waits for all threads. Gives the sum of all counts. `handles` wake the workers, so they outlive them.
///
/// # Errors
///
/// [`RunFault::Memory`] if a thread was refused. [`RunFault::Accept`] if the listener was given up, or if `desks` says
/// that one was expected and none came.
pub(crate) fn run_threads<
    R: Threads + Wait + Clock + Eprint + Sync,
    G: Sync,
    W: Task<Output = Counts> + Send + Drop,
    D: Task<Output = bool> + Drop,
>(
    rt: &R,
    alloc: Global,
    workers: Vec<W>,
    desks: D,
    acceptor: &Acceptor<'_, R, G>,
    handles: Vec<WorkerHandle>,
) -> Result<Counts, RunFault>
    ensures { result ≢ Err RunFault.Workers }
{
    thread::scope(
        thread::scope_env(),
        rt,
        |scope| -> Result<Counts, RunFault>
            ensures { result ≢ Err RunFault.Workers }
        {
            let mut handles = handles;
            let mut threads = Vec::new(alloc);
            let mut is_short = false;
            for worker in workers {
                match scope.spawn(move || worker.run()) {
                    Ok(thread) => is_short = threads.push(thread).is_err() || is_short,
                    Err(_) => is_short = true,
                }
            }
            let accepted = if is_short {
                Err(RunFault::Memory)
            } else {
                serve_desks_beside(rt, desks, acceptor, handles.as_slice())
            };
            for handle in handles.iter_mut() {
                handle.close();
            }
            join_all(rt, threads, accepted)
        },
    )
}

/// Serves desks in this thread while another one accepts connections, until the server is over.
fn serve_desks_beside<
    R: Threads + Wait + Clock + Eprint + Sync,
    G: Sync,
    D: Task<Output = bool> + Drop,
>(
    rt: &R,
    desks: D,
    acceptor: &Acceptor<'_, R, G>,
    handles: &[WorkerHandle],
) -> Result<Counts, RunFault>
    ensures { result ≢ Err RunFault.Workers }
{
    thread::scope(
        thread::scope_env(),
        rt,
        |scope| -> Result<Counts, RunFault>
            ensures { result ≢ Err RunFault.Workers }
        {
            let Ok(accepting) = scope.spawn(move || accept_all(acceptor, handles)) else {
                return Err(RunFault::Memory);
            };
            let has_served = desks.run();
            match accepting.join(rt) {
                Some(counts) if has_served => Ok(counts),
                _ => Err(RunFault::Accept),
            }
        },
    )
}

/// Accepts connections until the server is over, and then says that it is. Counts a fault for each that no worker could
/// take; nothing if the listener was given up.
fn accept_all<R: Wait + Clock + Eprint, G>(
    acceptor: &Acceptor<'_, R, G>,
    handles: &[WorkerHandle],
) -> Option<Counts> {
    let accepted = acceptor.accept_all(handles);
    acceptor.is_over.store(true, Ordering::SeqCst);
    accepted
}

/// Waits for the threads of all workers. Gives the sum of all counts, if no desk was missed and all connections were
/// accepted.
fn join_all<R: Threads + Wait>(
    rt: &R,
    threads: Vec<JoinHandle<Counts>>,
    accepted: Result<Counts, RunFault>,
) -> Result<Counts, RunFault>
    requires { accepted ≢ Err RunFault.Workers }
    ensures { result ≢ Err RunFault.Workers }
{
    let mut sum = Counts::default();
    for thread in threads {
        sum = sum.plus(thread.join(rt));
    }
    Ok(sum.plus(accepted?))
}
