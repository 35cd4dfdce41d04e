//! A reader, which answers from the copy published last.
ghost use Rattle.std.specs.Prelude.{◌≡◌, ◌+◌, Some, IsTrue, length, IfOk, OnOk};
ghost use Rattle.lost_spec.specs.Laws.{BeginsWith};
ghost use Rattle.lost_spec.specs.Book.{is_accepted};
ghost use Rattle.lost_history.specs.History.{longer};
ghost use Rattle.lost_json.specs.Line.{line_reply};
ghost use Rattle.left_right.specs.Sides.{view};
ghost use Rattle.lost_desk.specs.Seen.{seen_book, with_seen};
ghost use Rattle.lost_desk.specs.States.{IsSeated, reader_seen};

use crate::rule::OneList;
use crate::sets::NoSets;
use crate::told::Told;
use crate::version::Version;
use crate::view::View;
use lost_history::Front;
use lost_mapping::{Moment, Source};
use lost_tape::Scratch;
use std::alloc::{AllocError, Global};
use std::marker::Model;

/// A seat at the copies.
pub(crate) type Seat = left_right::reader::Reader<Version, View, OneList>;

/// A reader. Contracts see its opening and limits, the list of edits that it has seen or was told, the list of the copy
/// that it entered last, and how often it entered.
pub struct Reader {
    pub(crate) seat: Option<Seat>,
    pub(crate) latest: Front,
    /// Working memory of the request parser. It holds nothing of the lines.
    pub(crate) scratch: Box<Scratch>,
}

impl Drop for Reader {
    fn drop(self) {
        let Reader {
            seat: _,
            latest: _,
            scratch: _,
        } = self;
    }
}

impl Model for Reader {
    ghost use Rattle.left_right.specs.Sides as sides;
    ghost use Rattle.lost_desk.specs.Seen.{ReaderSeen};
    ghost use Rattle.lost_desk.specs.States.{reader_seen, IsReader};

    ghost Value = { ReaderSeen };

    ghost view = { λ r. reader_seen (λ s. sides.view s.place) r.seat r.latest };

    ghost invariant = { λ r. IsReader (λ s. sides.view s.place) r.seat r.latest };
}

impl Reader {
    /// The reader with this seat. It knows the copies and has seen nothing.
    pub(crate) fn of(seat: Seat, latest: Front, scratch: Box<Scratch>) -> Reader
        requires { IsSeated (view seat.place) latest }
        ensures { result ≡ reader_seen (λ w. w) (Some (view seat.place)) latest }
    {
        Reader {
            seat: Some(seat),
            latest,
            scratch,
        }
    }

    /// Answers a line from the copy that is published when it enters: reads the request, answers it as the server of
    /// this name at an instant, and writes the reply's line. It waits for nobody.
    ///
    /// # Errors
    ///
    /// If memory is refused or the desk is closed. The reader may then have entered once and seen a longer list.
    pub fn reply_line(
        &mut self,
        alloc: Global,
        name: &Source,
        moment: &Moment,
        line: &[u8],
    ) -> Result<Vec<u8>, AllocError>
        ensures reply { IfOk result (λ reply.
            reply.items ≡ line_reply (seen_book self.new) name.now moment.now line.now) }
        ensures begins { BeginsWith self.new.seen self.old.seen }
        ensures entered { OnOk result (self.new.entries ≡ self.old.entries + 1) }
        ensures entered_list { OnOk result (self.new.seen ≡ self.new.entered) }
        ensures one_list { OnOk result (IsTrue (is_accepted self.new.limits self.new.seen)) }
        ensures same { (self.new.opening ≡ self.old.opening) × (self.new.limits ≡ self.old.limits) }
    {
        self.reply_line_over(alloc, &mut NoSets, name, moment, line)
    }

    #[tactic(auto, using(crate::proofs::SeatLemmas::still_reader))]
    /// Learns what the desk told: from now on the reader answers from no shorter list. Both are of one opening.
    pub fn learn(&mut self, told: Told)
        requires { told.opening ≡ self.old.opening }
        ensures longer { self.new ≡ with_seen self.old (longer self.old.seen told.list) }
        ensures begins { BeginsWith self.new.seen self.old.seen }
        ensures told { BeginsWith self.new.seen told.list }
    {
        self.latest.learn(&told.front);
    }

    /// The number of edits that the reader has seen or was told.
    pub fn edition(&self) -> u64
        ensures { result ≡ length self.now.seen }
    {
        self.latest.len()
    }
}
