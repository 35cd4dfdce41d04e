//! What the desk's thread counts.
ghost use Rattle.std.specs.Prelude.{◌≡◌};
ghost use Rattle.lost_status.specs.Figures.{desk_counted, no_desk};

use crate::desk_event::{CODES, DeskEvent, DeskFigures};
use crate::held_block::HeldBlock;
use std::array;
use std::marker::Model;
use std::sync::atomic::{AtomicBool, AtomicU64, Ordering};

/// The desk's numbers where any thread may read them. One thread writes them.
#[derive(Drop)]
pub(crate) struct DeskBlock {
    held: HeldBlock,
    last_commit: AtomicU64,
    is_open: AtomicBool,
    journal_failed: AtomicBool,
    refusals: [AtomicU64; CODES],
}

impl DeskBlock {
    /// Nothing is held or counted, and no desk is connected.
    pub(crate) fn new() -> DeskBlock {
        DeskBlock {
            held: HeldBlock::new(),
            last_commit: AtomicU64::new(0),
            is_open: AtomicBool::new(false),
            journal_failed: AtomicBool::new(false),
            refusals: array::from_fn(|_| AtomicU64::new(0)),
        }
    }

    /// Stores the numbers that an event changes. No contract can say what an atomic holds: the rows of `status.rows`
    /// compare what is shown.
    fn show(&self, event: DeskEvent, figures: &DeskFigures) {
        match event {
            DeskEvent::Refused(code) => self.show_refusals(code, figures),
            DeskEvent::Committed(_) => self
                .last_commit
                .store(figures.last_commit, Ordering::SeqCst),
            DeskEvent::Holds { .. } => self.held.show(figures),
            DeskEvent::Connected | DeskEvent::Left => {
                self.is_open.store(figures.is_open, Ordering::SeqCst);
            }
            DeskEvent::JournalFailed => self
                .journal_failed
                .store(figures.journal_failed, Ordering::SeqCst),
        }
    }

    /// Stores how many lines were refused with a code.
    fn show_refusals(&self, code: u8, figures: &DeskFigures) {
        let place = usize::from(code).wrapping_sub(1);
        if let Some(count) = self.refusals.as_slice().get(place)
            && let Some(refusals) = figures.refusals.as_slice().get(place)
        {
            count.store(*refusals, Ordering::SeqCst);
        }
    }

    /// Loads the numbers, those of what is held at one moment and the others one after another. No contract can say what an atomic holds: the rows of `status.rows`
    /// compare it.
    pub(crate) fn load(&self) -> DeskFigures {
        let held = self.held.load();
        DeskFigures {
            edition: held.edition,
            mappings: held.mappings,
            pending: held.pending,
            digest: held.digest,
            last_commit: self.last_commit.load(Ordering::SeqCst),
            is_open: self.is_open.load(Ordering::SeqCst),
            journal_failed: self.journal_failed.load(Ordering::SeqCst),
            refusals: array::from_fn(|place| match self.refusals.as_slice().get(place) {
                Some(count) => count.load(Ordering::SeqCst),
                None => 0,
            }),
        }
    }
}

/// What the desk's thread counts. Contracts see its figures. After each event it shows them to whoever asks for the
/// status.
#[derive(Drop)]
pub struct DeskCounter<'s> {
    figures: DeskFigures,
    block: &'s DeskBlock,
}

impl<'s> Model for DeskCounter<'s> {
    ghost use Rattle.lost_status.specs.declared.desk_event.DeskFigures.{DeskFigures};

    ghost Value = { DeskFigures };

    ghost view = { λ c. c.figures };
}

impl<'s> DeskCounter<'s> {
    /// Nothing is held or counted, and no desk is connected. It is the only one that writes the block.
    pub(crate) fn new(block: &'s DeskBlock) -> DeskCounter<'s>
        ensures { result ≡ no_desk }
    {
        DeskCounter {
            figures: DeskFigures::none(),
            block,
        }
    }

    /// Counts an event, once, and shows it.
    pub fn count(&mut self, event: DeskEvent)
        ensures { self.new ≡ desk_counted self.old event }
    {
        self.figures.count(event);
        self.block.show(event, &self.figures);
    }
}
