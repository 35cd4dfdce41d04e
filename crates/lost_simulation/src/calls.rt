//! The calls that the laws speak of. Each function makes one call of a desk or of a reader, and its contract is what the
//! laws take that call to give. So the laws take no more than the contracts of lost_desk say. Nothing runs these
//! functions: the product makes the calls itself.
ghost use Rattle.std.specs.Prelude.{◌≡◌, ◌≢◌, true, false, IfOk, IfErr, IfSome, IfNone, MatchResult};
ghost use Rattle.lost_spec.specs.Text.{Text};
ghost use Rattle.lost_mapping.specs.Edit.{edit_of};
ghost use Rattle.lost_desk.specs.Seen.{TellsBeginning};
ghost use Rattle.lost_desk.specs.Sets.{AreRightFor};
ghost use Rattle.lost_simulation.specs.Clauses.{StagesEdit, LeavesEdit, PublishesPending, DropsPending, LeavesDesk, TellsPublished, LearnsTold, SeesPublished, AnswersLine};
ghost use Rattle.lost_simulation.specs.Crew.{setting_of, crew_of, IsOpened};

use lost_book::{Edit, EditError, Limits};
use lost_desk::{CommitError, Desk, OpenError, PlaceSets, Reader, Readers, Told, open_desk};
use lost_mapping::{Moment, Source};
use std::alloc::{AllocError, Global};
use std::sync::Wait;

/// Opens a desk with its readers, as [`open_desk`] does.
///
/// # Errors
///
/// Those of [`open_desk`].
pub fn open_crew<R: Wait>(
    rt: &R,
    alloc: Global,
    limits: Limits,
    workers: u32,
) -> Result<(Desk, Readers), OpenError>
    ensures { (name : Text) → IfOk result (λ given.
        IsOpened (setting_of limits workers name) given.0.opening (crew_of given.0 given.1)) }
{
    open_desk(rt, alloc, limits, workers)
}

/// Stages an edit, as [`Desk::stage`] does.
///
/// # Errors
///
/// The refusal of the book of all edits, or [`EditError::Memory`].
pub fn stage(desk: &mut Desk, edit: Edit) -> Result<u64, EditError>
    ensures takes { IfOk result (λ pending. StagesEdit desk.old desk.new (edit_of edit) pending) }
    ensures refuses { IfErr result (λ e. e ≢ EditError.Memory → LeavesEdit desk.old desk.new (edit_of edit) e) }
    ensures fails { result ≡ Err EditError.Memory → LeavesDesk desk.old desk.new }
{
    desk.stage(edit)
}

/// Publishes what is pending, as [`Desk::commit`] does.
///
/// # Errors
///
/// [`CommitError::Memory`].
pub fn commit<R: Wait>(desk: &mut Desk, rt: &R) -> Result<u64, CommitError>
    ensures { MatchResult result
        (λ edition. PublishesPending desk.old desk.new edition)
        (λ _. LeavesDesk desk.old desk.new) }
{
    desk.commit(rt)
}

/// Drops what is pending, as [`Desk::drop_pending`] does.
///
/// # Errors
///
/// Those of [`Desk::drop_pending`].
pub fn drop_pending(desk: &mut Desk) -> Result<(), AllocError>
    ensures { MatchResult result
        (λ _. DropsPending desk.old desk.new)
        (λ _. LeavesDesk desk.old desk.new) }
{
    desk.drop_pending()
}

/// Tells the published list, as [`Desk::tell`] does.
pub fn tell(desk: &mut Desk) -> Told
    ensures { TellsPublished desk.old desk.new result }
{
    desk.tell()
}

/// Learns what the desk told, as [`Reader::learn`] does. Both are of one opening.
pub fn learn(reader: &mut Reader, told: Told)
    requires { told.opening ≡ reader.old.opening }
    ensures { LearnsTold reader.old reader.new told }
{
    reader.learn(told);
}

/// Answers a line, as [`Reader::reply_line`] does, and gives the reply, or the error, if the desk has then published all
/// that the reader has seen; else `None`. Both are of one opening.
pub fn reply_line(
    desk: &Desk,
    reader: &mut Reader,
    alloc: Global,
    name: &Source,
    moment: &Moment,
    line: &[u8],
) -> Option<Result<Vec<u8>, AllocError>>
    requires { reader.old.opening ≡ desk.now.opening }
    ensures counts { IfSome result (λ given. MatchResult given
        (λ reply. AnswersLine name.now desk.now reader.old reader.new moment.now line.now reply.items)
        (λ _. SeesPublished desk.now reader.old reader.new)) }
    ensures unpublished { IfNone result (TellsBeginning false desk.now.published reader.new.seen) }
{
    let given = reader.reply_line(alloc, name, moment, line);
    counted(desk, reader, given)
}

/// The same over kept sets of places, as [`Reader::reply_line_over`] answers. Each kept entry is right for the list that
/// the reader has seen.
pub fn reply_line_over<S: PlaceSets>(
    desk: &Desk,
    reader: &mut Reader,
    alloc: Global,
    sets: &mut S,
    name: &Source,
    moment: &Moment,
    line: &[u8],
) -> Option<Result<Vec<u8>, AllocError>>
    requires opening { reader.old.opening ≡ desk.now.opening }
    requires right { AreRightFor (S.keeps sets.old) reader.old.limits reader.old.seen }
    ensures counts { IfSome result (λ given. MatchResult given
        (λ reply. AnswersLine name.now desk.now reader.old reader.new moment.now line.now reply.items)
        (λ _. SeesPublished desk.now reader.old reader.new)) }
    ensures unpublished { IfNone result (TellsBeginning false desk.now.published reader.new.seen) }
{
    let given = reader.reply_line_over(alloc, sets, name, moment, line);
    counted(desk, reader, given)
}

/// A call of a reader counts once the desk has published all that the reader has then seen; until then `None`.
fn counted<T: Drop>(desk: &Desk, reader: &Reader, given: T) -> Option<T>
    requires { reader.now.opening ≡ desk.now.opening }
    ensures counts { IfSome result (λ it. (it ≡ given) × TellsBeginning true desk.now.published reader.now.seen) }
    ensures unpublished { IfNone result (TellsBeginning false desk.now.published reader.now.seen) }
{
    if desk.has_seen(reader) {
        Some(given)
    } else {
        None
    }
}
