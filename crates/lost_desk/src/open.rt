//! Opening a desk with its readers.
ghost use Rattle.std.specs.Prelude.{◌≡◌, ◌≤◌, ◌<◌, ◌⊎◌, [], drop, IfOk};
ghost use Rattle.left_right.specs.Sides.{view};
ghost use Rattle.lost_desk.specs.Seen.{new_desk, new_reader};
ghost use Rattle.lost_desk.specs.Copies.{first_version};
ghost use Rattle.lost_desk.specs.Rule.{named, IsNewWriter, reader_of};

use crate::copies::{Copies, CopyWriter};
use crate::desk::Desk;
use crate::faults::OpenError;
use crate::reader::Reader;
use crate::readers::Readers;
use crate::rule::{Meeting, Naming, Telling};
use crate::version::Version;
use lost_book::Limits;
use lost_history::{Front, Seal, open_history};
use lost_routing::Routing;
use lost_tape::Scratch;
use std::alloc::{AllocError, Global};
use std::collections::VecDeque;
use std::snapshot::Snapshot;
use std::sync::Wait;

/// The most readers of a desk.
const MAX_WORKERS: u32 = 64;

/// Opens a desk with no edits, within these limits, and with `workers` readers, 1 to 64. It may wait if a reader's
/// place is refused.
///
/// # Errors
///
/// [`OpenError::Workers`] unless `workers` is 1 to 64; after it [`OpenError::Memory`].
pub fn open_desk<R: Wait>(
    rt: &R,
    alloc: Global,
    limits: Limits,
    workers: u32,
) -> Result<(Desk, Readers), OpenError>
    ensures desk { IfOk result (λ r. r.0 ≡ new_desk r.0.opening limits) }
    ensures readers { IfOk result (λ r. r.1.each ≡ new_reader r.0.opening limits) }
    ensures left { IfOk result (λ r. r.1.left ≡ workers) }
    ensures accepted { IfOk result (λ _. (1 ≤ workers) × (workers ≤ 64)) }
    ensures refused { result ≡ Err OpenError.Workers → (workers < 1) ⊎ (64 < workers) }
    ensures memory_last { result ≡ Err OpenError.Memory → (1 ≤ workers) × (workers ≤ 64) }
{
    if workers < 1 || workers > MAX_WORKERS {
        return Err(OpenError::Workers);
    }
    let (head, front, seals) = open_history();
    let Ok(ahead) = Routing::new(alloc, limits) else {
        return Err(OpenError::Memory);
    };
    match open_copies(rt, alloc, limits, &front, seals, workers) {
        Ok((copies, readers)) => {
            let desk = Desk::of(copies, VecDeque::new(alloc), ahead, front, head);
            Ok((desk, readers))
        }
        Err(AllocError) => Err(OpenError::Memory),
    }
}

/// Two copies of an empty book, which take the opening's two seals, and their `workers` readers.
fn open_copies<R: Wait>(
    rt: &R,
    alloc: Global,
    limits: Limits,
    front: &Front,
    seals: (Seal, Seal),
    workers: u32,
) -> Result<(Copies, Readers), AllocError>
    requires workers { (0 < workers) × (workers ≤ 64) }
    requires front { (front.now.list ≡ []) × (seals.0 ≡ front.now.opening) × (seals.1 ≡ front.now.opening) }
    ensures copies { IfOk result (λ r. (r.0.shown ≡ first_version front.now.opening limits) × (r.0.waiting ≡ [])) }
    ensures readers { IfOk result (λ r. (r.1.each ≡ new_reader front.now.opening limits) × (r.1.left ≡ workers)) }
{
    let mut writer = open_writer(rt, alloc, limits, front, seals, workers)?;
    match make_readers(alloc, &mut writer, workers) {
        Ok(readers) => Ok((Copies::of(writer), readers)),
        Err(_) => {
            let _shown = writer.take(rt);
            Err(AllocError)
        }
    }
}

#[tactic(auto, using(crate::proofs::StepLemmas::opening_names))]
/// The writer of two copies of an empty book. Its seat knows the copies' limits and opening.
fn open_writer<R: Wait>(
    rt: &R,
    alloc: Global,
    limits: Limits,
    front: &Front,
    seals: (Seal, Seal),
    workers: u32,
) -> Result<CopyWriter, AllocError>
    requires workers { (0 < workers) × (workers ≤ 64) }
    requires front { (front.now.list ≡ []) × (seals.0 ≡ front.now.opening) × (seals.1 ≡ front.now.opening) }
    ensures shown { IfOk result (λ w. w.desk.shown.value ≡ first_version front.now.opening limits) }
    ensures waiting { IfOk result (λ w. drop w.behind w.log.items ≡ []) }
    ensures named { IfOk result (λ w. view w.desk.place ≡ named (first_version front.now.opening limits)) }
{
    let writer = new_writer(alloc, limits, front, seals, workers)?;
    let (writer, result) = writer.publish_as::<Naming, R>(rt);
    if result.is_err() {
        let _shown = writer.take(rt);
        return Err(AllocError);
    }
    Ok(writer)
}

#[tactic(auto, using(crate::proofs::StepLemmas::opens_first))]
/// The writer of two copies of an empty book.
fn new_writer(
    alloc: Global,
    limits: Limits,
    front: &Front,
    seals: (Seal, Seal),
    workers: u32,
) -> Result<CopyWriter, AllocError>
    requires workers { (0 < workers) × (workers ≤ 64) }
    requires front { (front.now.list ≡ []) × (seals.0 ≡ front.now.opening) × (seals.1 ≡ front.now.opening) }
    ensures shown { IfOk result (λ w. w.desk.shown.value ≡ first_version front.now.opening limits) }
    ensures waiting { IfOk result (λ w. drop w.behind w.log.items ≡ []) }
{
    let first = open_version(alloc, limits, front, seals.0)?;
    let second = open_version(alloc, limits, front, seals.1)?;
    CopyWriter::new(alloc, first, second, workers as usize)
}

/// A copy of an empty book, which takes a seal.
fn open_version(
    alloc: Global,
    limits: Limits,
    front: &Front,
    seal: Seal,
) -> Result<Version, AllocError>
    requires { (front.now.list ≡ []) × (seal ≡ front.now.opening) }
    ensures { IfOk result (λ v. v ≡ first_version front.now.opening limits) }
{
    Ok(Version {
        book: Routing::new(alloc, limits)?,
        front: front.again(),
        seal,
    })
}

#[tactic(auto, using(crate::proofs::ListLemmas::replicate_push))]
/// This many readers, which have seen nothing.
fn make_readers(alloc: Global, writer: &mut CopyWriter, workers: u32) -> Result<Readers, AllocError>
    requires { (0 < workers) × IsNewWriter (writer.old.desk.shown.value) (view writer.old.desk.place) }
    ensures kept { (writer.new.desk.shown ≡ writer.old.desk.shown) × (drop writer.new.behind writer.new.log.items ≡ drop writer.old.behind writer.old.log.items) }
    ensures readers { IfOk result (λ r. (r.each ≡ reader_of writer.old.desk.shown.value) × (r.left ≡ workers)) }
{
    let mut readers = Vec::with_capacity(alloc, workers as usize)?;
    let first = make_reader(alloc, writer)?;
    let each = Snapshot::of(&first);
    readers.push(first)?;
    while readers.len() < workers as usize {
        readers.push(make_reader(alloc, writer)?)?;
    }
    Ok(Readers::of(readers, each))
}

#[tactic(auto, using(crate::proofs::StepLemmas::admits, crate::proofs::StepLemmas::forks, crate::proofs::StepLemmas::merges))]
/// One more reader, which has seen nothing. It learns what the copies are from the writer's seat.
fn make_reader(alloc: Global, writer: &mut CopyWriter) -> Result<Reader, AllocError>
    requires { IsNewWriter (writer.old.desk.shown.value) (view writer.old.desk.place) }
    ensures kept { (writer.new.desk.shown ≡ writer.old.desk.shown) × (writer.new.log ≡ writer.old.log) × (writer.new.behind ≡ writer.old.behind) × (view writer.new.desk.place ≡ view writer.old.desk.place) }
    ensures reader { IfOk result (λ r. r ≡ reader_of writer.old.desk.shown.value) }
{
    let scratch = Box::new(alloc, Scratch::new(alloc))?;
    let mut seat = writer.factory().reader()?;
    seat.learn::<Meeting>(writer.tell::<Telling>());
    Ok(Reader::of(seat, writer.published().front.again(), scratch))
}
