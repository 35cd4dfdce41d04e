//! A reader that answers over kept sets of places.
ghost use Rattle.std.specs.Prelude.{◌≡◌, ◌+◌, IsTrue, IfOk, OnOk};
ghost use Rattle.lost_spec.specs.Laws.{BeginsWith};
ghost use Rattle.lost_spec.specs.Book.{is_accepted};
ghost use Rattle.lost_json.specs.Line.{line_reply};
ghost use Rattle.lost_desk.specs.Seen.{seen_book};
ghost use Rattle.lost_desk.specs.Copies.{IsBookOfItsList};
ghost use Rattle.lost_desk.specs.Sets.{AreRightFor};

use crate::answering::reply_over_sets;
use crate::reader::Reader;
use crate::rule::Entering;
use crate::sets::PlaceSets;
use crate::taking::{put_back, take_out};
use crate::version::Version;
use lost_history::Front;
use lost_mapping::{Moment, Source};
use lost_tape::Scratch;
use std::alloc::{AllocError, Global};

impl Reader {
    #[tactic(auto, using(crate::proofs::StepLemmas::enters))]
    /// Answers a line as [`Reader::reply_line`] does. If the request is answered at a place, the place's set is taken
    /// from `sets`, or made and handed to `sets` if it is wanted. Each kept entry is right for the list that the reader
    /// has seen: its edition is no longer than the list, and its set is that of the book of the list's first edits, as
    /// many as the edition. Afterwards each is right for the list that the reader has then seen.
    ///
    /// # Errors
    ///
    /// If memory is refused or the desk is closed. The reader may then have entered once and seen a longer list.
    pub fn reply_line_over<S: PlaceSets>(
        &mut self,
        alloc: Global,
        sets: &mut S,
        name: &Source,
        moment: &Moment,
        line: &[u8],
    ) -> Result<Vec<u8>, AllocError>
        requires { AreRightFor (S.keeps sets.old) self.old.limits self.old.seen }
        ensures reply { IfOk result (λ reply.
            reply.items ≡ line_reply (seen_book self.new) name.now moment.now line.now) }
        ensures begins { BeginsWith self.new.seen self.old.seen }
        ensures entered { OnOk result (self.new.entries ≡ self.old.entries + 1) }
        ensures entered_list { OnOk result (self.new.seen ≡ self.new.entered) }
        ensures one_list { OnOk result (IsTrue (is_accepted self.new.limits self.new.seen)) }
        ensures same { (self.new.opening ≡ self.old.opening) × (self.new.limits ≡ self.old.limits) }
        ensures right { AreRightFor (S.keeps sets.new) self.new.limits self.new.seen }
    {
        let seat = take_out(&mut self.seat);
        match seat.enter_as::<Entering>() {
            Ok(reading) => {
                let reply = reply_from_over(
                    alloc,
                    sets,
                    reading.get(),
                    &mut self.latest,
                    name,
                    moment,
                    line,
                    &mut self.scratch,
                );
                put_back(&mut self.seat, reading.leave());
                reply
            }
            Err(seat) => {
                put_back(&mut self.seat, seat);
                Err(AllocError)
            }
        }
    }
}

#[tactic(auto, using(crate::proofs::ListLemmas::begins_whole))]
/// Answers a line from a copy over kept sets of places, if the copy's list is the longest that the reader has seen or
/// was told. Kept sets are right for the longest list, before and afterwards.
fn reply_from_over<S: PlaceSets>(
    alloc: Global,
    sets: &mut S,
    version: &Version,
    latest: &mut Front,
    name: &Source,
    moment: &Moment,
    line: &[u8],
    scratch: &mut Scratch,
) -> Result<Vec<u8>, AllocError>
    requires opening { version.now.front.opening ≡ latest.old.opening }
    requires copy { IsBookOfItsList version.now }
    requires right { AreRightFor (S.keeps sets.old) version.now.book.limits latest.old.list }
    ensures reply { IfOk result (λ reply. reply.items ≡ line_reply version.now.book name.now moment.now line.now) }
    ensures list { OnOk result (latest.new.list ≡ version.now.front.list) }
    ensures begins { BeginsWith latest.new.list latest.old.list }
    ensures copy { BeginsWith latest.new.list version.now.front.list }
    ensures opening { latest.new.opening ≡ latest.old.opening }
    ensures right { AreRightFor (S.keeps sets.new) version.now.book.limits latest.new.list }
{
    latest.learn(&version.front);
    if version.front.len() < latest.len() {
        return Err(AllocError);
    }
    reply_over_sets(alloc, sets, &version.book, name, moment, line, scratch)
}
