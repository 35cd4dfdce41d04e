//! The map that a server reads before it listens.
ghost use Rattle.std.specs.Prelude.{◌≡◌, [], IfOk, IfErr, OnOk};
ghost use Rattle.lost_server.specs.Map.{IsFault, IsLoaded, IsMapRead, IsWhole};
ghost use Rattle.lost_worker.specs.Desking.{IsSameDesk, lists_of};

use crate::order::{OnRefusal, Progress};
use crate::server_fault::MapFault;
use lost_causes::refusal_cause;
use lost_desk::Desk;
use lost_json::{DeskReply, is_code};
use lost_lines::{MAX_LINE, Turns, Watched};
use lost_routing::Routing;
use lost_worker::{DeskWitness, serve_desk_with};
use lost_writing::refusal_name;
use std::alloc::{AllocError, Global};
use std::io;
use std::io::{Eprint, Read};
use std::sync::Wait;

/// After how many lines the progress is reported.
const STEP: u64 = 100_000;

/// No limit on the lines of a map.
pub(crate) const TURNS: Turns = Turns {
    lines: u64::MAX,
    reads: u64::MAX,
};

/// The counts of a map's lines.
#[derive(Clone, Copy, PartialEq, Eq, Debug)]
pub struct MapFound {
    /// How many lines the map has.
    pub lines: u64,
    /// How many of them were refused.
    pub refused: u64,
}

/// Answers the desk lines of a map as those of a desk's connection, without a limit on their number. For each refused
/// line it writes the number, from 1, the code and its name, and the cause to standard error. If the progress is shown,
/// it writes there after each 100,000 lines how many were read. Afterwards nothing is pending.
///
/// # Errors
///
/// [`MapFault::Unread`] if the map could not be read. If it is to stop, [`MapFault::Refused`] if a line was refused, or
/// if no commit follows the last edit. If it is to go on, such edits are dropped and reported, and [`MapFault::Memory`]
/// says that they could not be. After an error the edits of the accepted lines stand.
pub fn load_map<T: Wait + Eprint, I: Read + Drop>(
    rt: &T,
    alloc: Global,
    input: I,
    desk: &mut Desk,
    on_refusal: OnRefusal,
    progress: Progress,
) -> Result<MapFound, MapFault>
    // Each line of the map is answered by the lists of the desk, which change as the lines say.
    ensures loaded { IfOk result (λ found. IsLoaded (I.remaining input) desk.old desk.new found) }

    // If it is to stop, the published edits are exactly those that the map's lines make.
    ensures whole { on_refusal ≡ OnRefusal.Stop → OnOk result (IsWhole (I.remaining input) desk.old desk.new) }
    ensures none_refused { on_refusal ≡ OnRefusal.Stop → IfOk result (λ found. found.refused ≡ 0) }
    ensures faults { IfErr result (λ fault. IsFault (I.remaining input) desk.old desk.new on_refusal fault) }
    ensures nothing_pending { OnOk result (desk.new.pending ≡ []) }
    ensures same { IsSameDesk desk.old desk.new }
{
    let found = read_map(rt, alloc, input, desk, progress)?;
    let pending = desk.pending();
    if on_refusal == OnRefusal::Stop && (found.refused > 0 || pending > 0) {
        return Err(MapFault::Refused {
            refused: found.refused,
            pending,
        });
    }
    if pending > 0 {
        say(
            rt,
            format!(in alloc;
                "lostd: --map: {pending} edits after the last commit were left out\n"
            ),
        );
    }
    match desk.drop_pending() {
        Ok(()) => Ok(found),
        Err(AllocError) => Err(MapFault::Memory),
    }
}

/// Answers the desk lines of a map, and gives the counts.
fn read_map<T: Wait + Eprint, I: Read + Drop>(
    rt: &T,
    alloc: Global,
    input: I,
    desk: &mut Desk,
    progress: Progress,
) -> Result<MapFound, MapFault>
    ensures answered { IfOk result (λ found. IsMapRead (I.remaining input) desk.old (lists_of desk.new) found) }
    ensures faults { IfErr result (λ fault. fault ≡ MapFault.Unread) }
    ensures same { IsSameDesk desk.old desk.new }
{
    let mut input = Watched::new(input);
    let mut output = Watched::new(io::sink());
    let mut reading = MapReading {
        rt,
        alloc,
        found: MapFound {
            lines: 0,
            refused: 0,
        },
        progress,
    };
    match serve_desk_with(
        rt,
        alloc,
        &mut input,
        &mut output,
        desk,
        &mut reading,
        TURNS,
    ) {
        Ok(_) => Ok(reading.found),
        Err(_) => Err(MapFault::Unread),
    }
}

/// The witness of a map's lines.
#[derive(Drop)]
pub(crate) struct MapReading<'r, R: Eprint> {
    pub(crate) rt: &'r R,
    pub(crate) alloc: Global,
    pub(crate) found: MapFound,
    pub(crate) progress: Progress,
}

impl<R: Eprint> DeskWitness for MapReading<'_, R> {
    ghost use Rattle.std.specs.Prelude.{◌≡◌};
    ghost use Rattle.lost_server.specs.Map.{counted};

    ghost step = { λ old reply new. new.found ≡ counted old.found reply };

    fn saw(&mut self, line: Option<&[u8]>, reply: DeskReply, desk: &Desk) {
        self.found.lines = self.found.lines.saturating_add(1);
        let lines = self.found.lines;
        if let DeskReply::Refused(code) = reply {
            self.found.refused = self.found.refused.saturating_add(1);
            let line = refusal_line(self.alloc, lines, code, line, desk.staged());
            say(self.rt, line);
        }
        if self.progress == Progress::Shown && lines % STEP == 0 {
            say(
                self.rt,
                format!(in self.alloc; "lostd: --map: {lines} lines\n"),
            );
        }
    }
}

/// Writes a line in one piece, or nothing if memory is refused. If standard error fails, it is lost.
pub(crate) fn say<R: Eprint>(rt: &R, line: Result<String, AllocError>) {
    if let Ok(line) = line {
        let _said = rt.eprint(line.as_str());
    }
}

/// The report of a refused line: its number, the code and its name, and the cause if one is found.
fn refusal_line(
    alloc: Global,
    number: u64,
    code: u8,
    line: Option<&[u8]>,
    staged: &Routing,
) -> Result<String, AllocError> {
    let name = if is_code(code) {
        refusal_name(code)
    } else {
        ""
    };
    let cause = cause_of(alloc, code, line, staged)?;
    if cause.is_empty() {
        return format!(in alloc; "lostd: --map: line {number}: {code} {name}\n");
    }
    format!(in alloc; "lostd: --map: line {number}: {code} {name}: {cause}\n")
}

/// The cause of a refusal; empty if none is found.
fn cause_of(
    alloc: Global,
    code: u8,
    line: Option<&[u8]>,
    staged: &Routing,
) -> Result<String, AllocError> {
    match line {
        Some(line) => refusal_cause(alloc, line, code, staged),
        None if code == 1 => format!(in alloc; "the line has more than {MAX_LINE} bytes"),
        None => Ok(String::new(alloc)),
    }
}
