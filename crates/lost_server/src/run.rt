//! A server that runs: its workers answer connections, and meanwhile desks are served.
ghost use Rattle.std.specs.Prelude.{◌≡◌, ◌≢◌, Err};

use crate::listeners::Listeners;
use crate::order::ConnectionSettings;
use crate::run_fault::RunFault;
use crate::threads::{Task, run_threads};
use crate::workers::{cached_readers, workers_of};
use lost_answer_log::AnswerLog;
use lost_connections::{ConnectionLimits, TimeLimits};
use lost_desk::{Desk, Readers};
use lost_desks::{DeskService, serve_desks, serve_one_desk};
use lost_journal_file::JournalDisk;
use lost_keeping::Keeper;
use lost_lines::{Counts, Gate, Turns};
use lost_log::ConnectionLog;
use lost_loop::{Acceptor, Service, SharedAdmission, WhenFull};
use lost_mapping::Source;
use lost_sockets::Listener;
use lost_status::{DeskCounter, Status};
use std::alloc::Global;
use std::io::Eprint;
use std::net::Net;
use std::random::RandomSource;
use std::sync::Wait;
use std::sync::atomic::AtomicBool;
use std::thread::Threads;
use std::time::Clock;

/// What a server that runs keeps to the end.
#[derive(Drop)]
pub(crate) struct Run<'s, R, G> {
    pub(crate) rt: &'s R,
    pub(crate) alloc: Global,
    pub(crate) name: &'s Source,
    pub(crate) gate: &'s G,
    pub(crate) log: &'s ConnectionLog<'s, R>,
    /// Where its workers log their answers, if they do.
    pub(crate) answers: Option<AnswerLog>,
    pub(crate) status: &'s Status,
    /// Whether replies are counted in the status, as when somebody may ask for it.
    pub(crate) counts_replies: bool,
    pub(crate) settings: ConnectionSettings,
    pub(crate) limits: ConnectionLimits,
    pub(crate) workers: u32,
    /// After how many query connections it stops. Then it serves one desk. Without it there is no end, and desks are
    /// served one after another.
    pub(crate) connections: Option<u32>,
    pub(crate) is_over: &'s AtomicBool,
}

/// The limits on query connections whose number is given: none is refused, and each may have as many lines as the turns
/// of a stream allow. A client may take no byte of its waiting replies for `idle`.
pub(crate) fn limits_of_given(settings: &ConnectionSettings) -> ConnectionLimits {
    ConnectionLimits {
        line_time: None,
        reply_time: settings.idle,
        most_connections: u32::MAX,
        per_address: None,
    }
}

impl<R, G> Run<'_, R, G>
where
    R: Threads + Wait + Clock + Eprint + RandomSource + Net + Send + Sync,
    G: Gate + Sync,
{
    /// Answers all connections, with one worker for each reader. Each worker begins with what the desk has published.
    /// `keeper` keeps the desk's edits, if there is one. What happens at the desk is counted by `counter`.
    pub(crate) fn answer(
        &self,
        listeners: &Listeners,
        desk: &mut Desk,
        keeper: Option<Keeper<JournalDisk>>,
        readers: Readers,
        counter: DeskCounter<'_>,
    ) -> Result<Counts, RunFault>
        requires { readers.each.opening ≡ desk.old.opening }
        ensures { result ≢ Err RunFault.Workers }
    {
        listeners.queries.let_more_wait();
        let readers = cached_readers(self.rt, self.alloc, self.workers, desk, readers)?;
        let admission = SharedAdmission::new(self.rt, self.alloc, &self.limits, readers.len())?;
        let service = self.service(&admission);
        let mut handles = Vec::new(self.alloc);
        let workers = workers_of(
            self.rt,
            &service,
            self.counts_replies,
            self.answers.as_ref(),
            readers,
            &mut handles,
        )?;
        let desks = DeskTask {
            service: self.desk_service(),
            listener: listeners.desk.as_ref(),
            is_only_one: self.connections.is_some(),
            desk,
            keeper,
            counter,
        };
        let acceptor = self.acceptor(&service, &listeners.queries);
        run_threads(self.rt, self.alloc, workers, desks, &acceptor, handles)
    }

    /// What its acceptor and its workers share.
    fn service<'a>(&'a self, admission: &'a SharedAdmission) -> Service<'a, R, G> {
        Service {
            rt: self.rt,
            alloc: self.alloc,
            name: self.name,
            gate: self.gate,
            log: self.log,
            status: self.status,
            admission,
            limits: TimeLimits::of(self.settings.idle, &self.limits),
            most_lines: match self.connections {
                Some(_) => Turns::USUAL.lines,
                None => u64::MAX,
            },
        }
    }

    /// What serves its desks.
    fn desk_service(&self) -> DeskService<'_, R> {
        DeskService {
            rt: self.rt,
            alloc: self.alloc,
            log: self.log,
            idle: self.settings.desk_idle,
            is_over: self.is_over,
        }
    }

    /// What accepts its query connections.
    fn acceptor<'a>(
        &'a self,
        service: &'a Service<'a, R, G>,
        listener: &'a Listener,
    ) -> Acceptor<'a, R, G> {
        let (most, when_full) = match self.connections {
            Some(connections) => (u64::from(connections), WhenFull::Wait),
            None => (u64::MAX, WhenFull::Refuse),
        };
        Acceptor {
            service,
            listener,
            most,
            when_full,
            is_over: self.is_over,
        }
    }
}

/// Serves desks, if there is a listener for them.
#[derive(Drop)]
struct DeskTask<'s, R> {
    service: DeskService<'s, R>,
    listener: Option<&'s Listener>,
    /// Whether only one desk is served.
    is_only_one: bool,
    desk: &'s mut Desk,
    keeper: Option<Keeper<JournalDisk>>,
    counter: DeskCounter<'s>,
}

/// False if one desk was expected and none came.
impl<R: Wait + Clock + Eprint> Task for DeskTask<'_, R> {
    type Output = bool;

    fn run(self) -> bool {
        let DeskTask {
            service,
            listener,
            is_only_one,
            desk,
            mut keeper,
            mut counter,
        } = self;
        let Some(listener) = listener else {
            return true;
        };
        if is_only_one {
            return serve_one_desk(&service, listener, desk, &mut keeper, &mut counter);
        }
        serve_desks(&service, listener, desk, &mut keeper, &mut counter);
        true
    }
}
