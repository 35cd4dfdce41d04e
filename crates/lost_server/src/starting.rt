//! Runs a server as ordered: reads its journal and its map, listens, and answers connections.
ghost use Rattle.std.specs.Prelude.{◌≡◌, [], IfOk, IfSome};
ghost use Rattle.lost_worker.specs.Desking.{IsSameDesk, lists_of};
ghost use Rattle.lost_keeping.specs.Kept.{all_published};
ghost use Rattle.lost_keeping.specs.Keepers.{IsCleanKeeper, IsKept};

use crate::listeners::{Listeners, Ready, listen_at, open_listeners, remove_sockets};
use crate::loading::{load_from, load_kept};
use crate::map::say;
use crate::order::ServerOrder;
use crate::run::{Run, limits_of_given};
use crate::run_fault::{RunFault, fault_of_opening};
use crate::server_fault::ServerFault;
use crate::status_port::answer_status;
use crate::system::System;
use lost_answer_log::{AnswerLog, AnswerLogWriter, Begun, LogFault, start_answer_log};
use lost_book::Limits;
use lost_desk::{Desk, Readers, open_desk};
use lost_desks::tell_book;
use lost_journal_file::JournalDisk;
use lost_keeping::Keeper;
use lost_lines::{Counts, NoGate};
use lost_log::{ConnectionLog, LogSender, start_log};
use lost_sockets::{Address, Listener, remove_socket};
use lost_status::{DeskCounter, DeskEvent, Status};
use std::alloc::AllocError;
use std::io::Eprint;
use std::net::{Net, TcpListener, TcpStream};
use std::sync::atomic::{AtomicBool, Ordering};
use std::thread;
use std::time::{Clock, Duration};

/// Runs a server as ordered: it reads its journal and its map, listens, tells `ready`, and answers connections. With a number of
/// connections it ends when all of them have ended. Without one it ends once `is_over` is set, one more connection
/// comes, and all connections have ended. Its status is answered from the beginning. Gives the sums of the query
/// connections' counts, as [`crate::serve`] does.
///
/// # Errors
///
/// [`ServerFault::Journal`] and [`ServerFault::Map`] if the journal is not used or the map was not loaded, before it listens; [`ServerFault::Address`] if an address cannot be
/// listened on; [`ServerFault::Ready`] if `ready` fails; [`ServerFault::Run`] as [`crate::serve`] says.
pub fn run_server<
    R: System + Net<Listener = TcpListener, Stream = TcpStream> + Send + Sync,
    Y: Ready,
>(rt: &R, order: &ServerOrder<'_>, ready: &Y, is_over: &AtomicBool) -> Result<Counts, ServerFault> {
    match open_desk(rt, rt.alloc(), Limits::widest(), order.workers) {
        Ok((mut desk, readers)) => {
            let result = match status_of(rt, order.workers) {
                Ok(status) => {
                    let start = Start {
                        rt,
                        order,
                        ready,
                        is_over,
                        status: &status,
                    };
                    start.run(&mut desk, readers)
                }
                Err(fault) => Err(fault),
            };
            desk.close(rt);
            result
        }
        Err(error) => Err(ServerFault::Run(fault_of_opening(error))),
    }
}

/// The counters of a server with this many workers that starts now.
fn status_of<R: Clock + AllocGlobal>(rt: &R, workers: u32) -> Result<Status, ServerFault> {
    let started = rt.since_1970().unwrap_or(Duration::from_secs(0));
    match Status::new(rt.alloc(), workers, started) {
        Ok(status) => Ok(status),
        Err(AllocError) => Err(ServerFault::Run(RunFault::Memory)),
    }
}

/// The counts of a server that ran, or why it did not start or stopped.
type Ran = Result<Counts, ServerFault>;

/// A server that starts: what it runs on, its order, whom it tells that it is ready, whether it is over, and its
/// counters.
#[derive(Drop)]
struct Start<'s, 'o, R, Y> {
    rt: &'s R,
    order: &'s ServerOrder<'o>,
    ready: &'s Y,
    is_over: &'s AtomicBool,
    status: &'s Status,
}

impl<R, Y> Start<'_, '_, R, Y>
where
    R: System + Net<Listener = TcpListener, Stream = TcpStream> + Send + Sync,
    Y: Ready,
{
    /// Runs the server over an open desk, and meanwhile answers for its status, if that is ordered.
    fn run(&self, desk: &mut Desk, readers: Readers) -> Ran
        requires opening { readers.each.opening ≡ desk.old.opening }
        requires nothing { lists_of desk.old ≡ all_published [] }
    {
        let addresses = self.order.addresses;
        let Some(address) = addresses.status else {
            return self.start(desk, readers);
        };
        let listener = listen_at(self.rt, "--status", address, addresses.socket_mode)?;
        let result = self.start_beside(&listener, desk, readers);
        remove_socket(self.rt, Address::of(address));
        result
    }

    /// Runs the server while a thread answers for its status at this listener.
    fn start_beside(&self, listener: &Listener, desk: &mut Desk, readers: Readers) -> Ran
        requires opening { readers.each.opening ≡ desk.old.opening }
        requires nothing { lists_of desk.old ≡ all_published [] }
    {
        if listener.set_nonblocking(true).is_err() {
            return Err(ServerFault::Run(RunFault::Accept));
        }
        let (rt, status) = (self.rt, self.status);
        let has_ended = AtomicBool::new(false);
        let has_ended = &has_ended;
        thread::scope(
            thread::scope_env(),
            rt,
            |scope| -> Ran
                requires opening { readers.each.opening ≡ desk.now.opening }
                requires nothing { lists_of desk.now ≡ all_published [] }
            {
                let Ok(answering) = scope.spawn(move || answer_status(
                    rt,
                    rt.alloc(),
                    listener,
                    status,
                    has_ended,
                )) else {
                    return Err(ServerFault::Run(RunFault::Memory));
                };
                self.ready.begins(listener);
                let result = self.start(desk, readers);
                has_ended.store(true, Ordering::SeqCst);
                answering.join(rt);
                result
            },
        )
    }

    /// Reads the journal and the map, listens, and answers connections.
    fn start(&self, desk: &mut Desk, readers: Readers) -> Ran
        requires opening { readers.each.opening ≡ desk.old.opening }
        requires nothing { lists_of desk.old ≡ all_published [] }
    {
        let mut counter = self.status.desk();
        let keeper = self.load(desk, &mut counter)?;
        tell_book(&mut counter, desk);
        let (answers, writer) = self.begin_answer_log()?;
        let listeners = open_listeners(self.rt, &self.order.addresses)?;
        let result = self.answer(&listeners, desk, keeper, answers, readers, counter);
        remove_sockets(self.rt, &self.order.addresses);
        if let Some(writer) = writer {
            writer.finish(self.rt);
        }
        result
    }

    /// Begins the log of answers, if it is ordered.
    fn begin_answer_log(
        &self,
    ) -> Result<(Option<AnswerLog>, Option<AnswerLogWriter>), ServerFault> {
        let Some((path, kept)) = self.order.answers else {
            return Ok((None, None));
        };
        let Ok(counts) = self.status.log() else {
            return Err(ServerFault::Log(LogFault::Memory));
        };
        match start_answer_log(self.rt, self.rt.alloc(), path, kept, counts) {
            Ok(Begun { log, writer, cut }) => {
                say_cut(self.rt, cut);
                Ok((Some(log), Some(writer)))
            }
            Err(fault) => Err(ServerFault::Log(fault)),
        }
    }

    /// Reads the journal and the map, if there are such, and counts the end of the map, or of a journal that keeps edits,
    /// as a commit. Gives what keeps further edits.
    fn load(
        &self,
        desk: &mut Desk,
        counter: &mut DeskCounter<'_>,
    ) -> Result<Option<Keeper<JournalDisk>>, ServerFault>
        requires nothing { lists_of desk.old ≡ all_published [] }
        ensures kept { IfOk result (λ keeper. IfSome keeper (λ k. IsCleanKeeper k → IsKept k desk.new)) }
        ensures same { IsSameDesk desk.old desk.new }
    {
        let keeper = match (self.order.journal, self.order.map) {
            (Some(path), _) => Some(load_kept(self.rt, path, self.order, desk)?),
            (None, Some(path)) => {
                load_from(self.rt, path, self.order, desk)?;
                None
            }
            (None, None) => None,
        };
        if self.order.map.is_some() || desk.edition() > 0 {
            self.count_end(counter);
        }
        Ok(keeper)
    }

    /// Counts the end of what was read as a commit.
    fn count_end(&self, counter: &mut DeskCounter<'_>) {
        if let Ok(since) = self.rt.since_1970() {
            counter.count(DeskEvent::Committed(since.as_secs()));
        }
    }

    /// Tells that it is ready, and answers connections. Meanwhile a thread writes what is said about them.
    fn answer(
        &self,
        listeners: &Listeners,
        desk: &mut Desk,
        keeper: Option<Keeper<JournalDisk>>,
        answers: Option<AnswerLog>,
        readers: Readers,
        counter: DeskCounter<'_>,
    ) -> Ran
        requires { readers.each.opening ≡ desk.old.opening }
    {
        if self.order.connections.is_none()
            && let Some(desks) = &listeners.desk
            && desks.set_nonblocking(true).is_err()
        {
            return Err(ServerFault::Run(RunFault::Accept));
        }
        let Ok((sender, writer)) = start_log(self.rt, self.rt.alloc()) else {
            return Err(ServerFault::Run(RunFault::Memory));
        };
        let result = self.answer_logged(sender, listeners, desk, keeper, answers, readers, counter);
        writer.finish(self.rt);
        result
    }

    /// Tells that it is ready, and answers connections. Lines about them go to `sender`.
    fn answer_logged(
        &self,
        sender: LogSender,
        listeners: &Listeners,
        desk: &mut Desk,
        keeper: Option<Keeper<JournalDisk>>,
        answers: Option<AnswerLog>,
        readers: Readers,
        counter: DeskCounter<'_>,
    ) -> Ran
        requires { readers.each.opening ≡ desk.old.opening }
    {
        let (rt, order) = (self.rt, self.order);
        let log = ConnectionLog::new(rt, rt.alloc(), order.settings.is_quiet, Some(sender));
        let run = Run {
            rt,
            alloc: rt.alloc(),
            name: order.name,
            gate: &NoGate,
            log: &log,
            answers,
            status: self.status,
            counts_replies: order.addresses.status.is_some(),
            settings: order.settings,
            limits: match order.connections {
                Some(_) => limits_of_given(&order.settings),
                None => order.limits,
            },
            workers: order.workers,
            connections: order.connections,
            is_over: self.is_over,
        };
        self.status.set_ready();
        if self.ready.ready(listeners).is_err() {
            return Err(ServerFault::Ready);
        }
        run.answer(listeners, desk, keeper, readers, counter)
            .map_err(ServerFault::Run)
    }
}

/// Says how many bytes of a line that was not ended were cut off the log, if any were.
fn say_cut<R: Eprint + AllocGlobal>(rt: &R, bytes: u64) {
    if bytes > 0 {
        say(
            rt,
            format!(in rt.alloc();
                "lostd: --log: dropped a last line that was not ended: bytes {bytes}\n"
            ),
        );
    }
}
