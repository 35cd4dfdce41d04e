//! Writes a journal anew.
ghost use Rattle.std.specs.Prelude.{◌≡◌, None, length, IsTrue, IfOk, OnOk};
ghost use Rattle.lost_digest.specs.Digest.{map_digest};
ghost use Rattle.lost_desk.specs.Seen.{published_book, staged_book};
ghost use Rattle.lost_worker.specs.Desking.{IsSameDesk};

use crate::fault::{CompactFault, JournalFault};
use crate::opening::read_journal;
use lost_book::Limits;
use lost_desk::{Desk, open_desk};
use lost_digest::MapDigest;
use lost_export::{publish_line, trace_lines};
use lost_keeping::{RecoveryFault, Rewriting};
use lost_lines::MAX_LINE;
use lost_mapping::Moment;
use lost_routing::Routing;
use memchr::memchr;
use std::alloc::{AllocError, Global};
use std::fs::{File, Files};
use std::io::Write;
use std::sync::Wait;
use std::time::Clock;

/// What a journal that was written anew keeps.
#[derive(Clone, Copy, PartialEq, Eq, Debug)]
pub struct Compacted {
    /// How many edits were published in the journal that was read.
    pub edition_before: u64,
    /// The digest of its map.
    pub digest_before: MapDigest,
    /// How many edits the new journal has.
    pub edition: u64,
    /// How many mappings it holds.
    pub mappings: usize,
    /// How many withdrawals it remembers.
    pub traces: usize,
    /// The digest of its map.
    pub digest: MapDigest,
}

/// Reads the journal at a path, and writes one that keeps the same map and the same traces in one commit: for each trace
/// a publish and its withdrawal, and then a publish for each mapping, in order. Mappings that have expired at a moment,
/// if one is given, are left out; else the map has the same digest.
///
/// # Errors
///
/// [`CompactFault`].
pub fn compact_journal<R: Wait + Clock + Files<File = File> + AllocGlobal, O: Write>(
    rt: &R,
    path: &str,
    output: &mut O,
    expired_at: Option<&Moment>,
) -> Result<Compacted, CompactFault>
    ensures same_map { expired_at.entry ≡ None → IfOk result (λ compacted. compacted.digest ≡ compacted.digest_before) }
{
    match open_desk(rt, rt.alloc(), Limits::widest(), 1) {
        Ok((mut desk, _readers)) => {
            let compacted = match read_journal(rt, path, &mut desk) {
                Ok(_recovered) => write_anew(rt, &desk, output, expired_at),
                Err(fault) => Err(CompactFault::NotRead(fault)),
            };
            desk.close(rt);
            compacted
        }
        Err(_) => Err(CompactFault::Memory),
    }
}

/// Writes a journal that keeps what a desk has published.
fn write_anew<R: Wait + Clock + AllocGlobal, O: Write>(
    rt: &R,
    desk: &Desk,
    output: &mut O,
    expired_at: Option<&Moment>,
) -> Result<Compacted, CompactFault>
    ensures same_map { expired_at.entry ≡ None → IfOk result (λ compacted. compacted.digest ≡ compacted.digest_before) }
{
    match open_desk(rt, rt.alloc(), Limits::widest(), 1) {
        Ok((mut fresh, _readers)) => {
            let mut copying = Copying {
                alloc: rt.alloc(),
                rewriting: Rewriting::new(rt.alloc()),
                output,
                lines: 0,
            };
            let written = copying.write(rt, desk, &mut fresh, expired_at);
            let compacted = match written {
                Ok(()) => Ok(compacted_of(desk, &fresh)),
                Err(fault) => Err(fault),
            };
            fresh.close(rt);
            compacted
        }
        Err(_) => Err(CompactFault::Memory),
    }
}

/// What a desk's journal and the one that was made of it keep.
fn compacted_of(before: &Desk, fresh: &Desk) -> Compacted
    ensures edition_before { result.edition_before ≡ length before.now.published }
    ensures digest_before { result.digest_before ≡ map_digest (published_book before.now).mappings }
    ensures edition { result.edition ≡ (staged_book fresh.now).edits }
    ensures mappings { result.mappings ≡ length (staged_book fresh.now).mappings }
    ensures traces { result.traces ≡ length (staged_book fresh.now).traces }
    ensures digest { result.digest ≡ map_digest (staged_book fresh.now).mappings }
{
    Compacted {
        edition_before: before.edition(),
        digest_before: before.digest(),
        edition: fresh.staged().edition(),
        mappings: fresh.staged().len(),
        traces: fresh.staged().traces(),
        digest: fresh.staged_digest(),
    }
}

/// Whether all edits of a desk make the map that another one has published, by their digests.
fn is_same_map(before: &Desk, fresh: &Desk) -> bool
    ensures { IsTrue result → map_digest (staged_book fresh.now).mappings ≡ map_digest (published_book before.now).mappings }
{
    fresh.staged_digest() == before.digest()
}

/// The writing of a journal.
#[derive(Drop)]
struct Copying<'o, O> {
    alloc: Global,
    rewriting: Rewriting,
    output: &'o mut O,
    /// How many lines were written behind the first.
    lines: u64,
}

impl<O: Write> Copying<'_, O> {
    /// Writes all lines.
    fn write<R: Clock>(
        &mut self,
        rt: &R,
        desk: &Desk,
        fresh: &mut Desk,
        expired_at: Option<&Moment>,
    ) -> Result<(), CompactFault>
        ensures same_map { expired_at.entry ≡ None
            → OnOk result (map_digest (staged_book fresh.new).mappings ≡ map_digest (published_book desk.now).mappings) }
        ensures same { IsSameDesk fresh.old fresh.new }
    {
        let first = self.rewriting.first_line(rt.since_1970().ok())?;
        self.output.write_all(first.as_bytes())?;
        self.write_traces(desk.published(), fresh)?;
        self.write_mappings(desk.published(), fresh, expired_at)?;
        if expired_at.is_none() && !is_same_map(desk, fresh) {
            return Err(CompactFault::OtherMap);
        }
        let last = self.rewriting.last_line(fresh, rt.since_1970().ok())?;
        self.output.write_all(last.as_bytes())?;
        Ok(())
    }

    /// Writes the lines of each trace.
    fn write_traces(&mut self, book: &Routing, fresh: &mut Desk) -> Result<(), CompactFault>
        ensures same { IsSameDesk fresh.old fresh.new }
    {
        for position in 0..book.traces() {
            let (identity, stamp) = book.trace(position);
            let lines = trace_lines(self.alloc, identity, stamp)?;
            self.put_lines(lines.as_slice(), fresh)?;
        }
        Ok(())
    }

    /// Writes the line of each mapping that has not expired.
    fn write_mappings(
        &mut self,
        book: &Routing,
        fresh: &mut Desk,
        expired_at: Option<&Moment>,
    ) -> Result<(), CompactFault>
        ensures same { IsSameDesk fresh.old fresh.new }
    {
        for position in 0..book.len() {
            let mapping = book.mapping(position);
            let stays = match expired_at {
                Some(moment) => mapping.is_live(moment),
                None => true,
            };
            if stays {
                let line = publish_line(self.alloc, mapping)?;
                self.put_lines(line.as_slice(), fresh)?;
            }
        }
        Ok(())
    }

    /// Writes whole lines, each of an edit.
    fn put_lines(&mut self, lines: &[u8], fresh: &mut Desk) -> Result<(), CompactFault>
        ensures same { IsSameDesk fresh.old fresh.new }
    {
        let mut rest = lines;
        // Each turn takes a byte at least.
        for _line in 0..lines.len() {
            let Some(end) = memchr(b'\n', rest) else {
                break;
            };
            let (line, behind) = rest.split_at(end);
            self.put(line, fresh)?;
            self.output.write_all(line)?;
            self.output.write_all(b"\n")?;
            rest = match behind.split_first() {
                Some((_end, behind)) => behind,
                None => b"",
            };
        }
        Ok(())
    }

    /// Takes an edit's line.
    fn put(&mut self, line: &[u8], fresh: &mut Desk) -> Result<(), CompactFault>
        ensures same { IsSameDesk fresh.old fresh.new }
    {
        self.lines = self.lines.saturating_add(1);
        if line.len() > MAX_LINE {
            return Err(CompactFault::TooLong(self.lines));
        }
        match self.rewriting.edit(line, fresh) {
            Ok(()) => Ok(()),
            Err(RecoveryFault::Memory) => Err(CompactFault::Memory),
            Err(fault) => Err(CompactFault::Refused(self.lines, fault)),
        }
    }
}
