//! A worker serves connections one after another.
ghost use Rattle.std.specs.Prelude.{map, IfSome};
ghost use Rattle.lost_worker.specs.Lines.{Answers, CountsConnection, HasSeenMore};
ghost use Rattle.lost_worker.specs.Sources.{ends_of};
ghost use Rattle.lost_worker.specs.Sum.{SumsConnections, SumsOver};

use crate::connection::Connection;
use crate::moments::Moments;
use crate::replier::Replier;
use crate::source::{ChannelSource, ConnectionSource};
use crate::streams::serve_lines;
use crossbeam_channel::Receiver;
use lost_lines::{Counts, Gate, Turns, Watched};
use lost_mapping::Source;
use std::alloc::Global;
use std::io::{Read, Write};
use std::sync::Wait;

/// Serves each connection that `receiver` gives by [`serve_lines`], one after another, until the channel is closed.
/// Gives the sum of their counts, number by number. A connection that ends in a fault adds one to `faults` and nothing
/// else. A number stays at its greatest value.
pub fn worker_loop<I: Read + Drop, O: Write + Drop, P: Replier, M: Moments, G: Gate, R: Wait>(
    rt: &R,
    alloc: Global,
    receiver: &Receiver<Connection<I, O>>,
    replier: &mut P,
    name: &Source,
    moments: &mut M,
    gate: &G,
    turns: Turns,
) -> Counts
    ensures seen { HasSeenMore (P.reader replier.old) (P.reader replier.new) }
    ensures sum { SumsConnections (G.says gate.now) (Answers name.now)
        (record { reader = P.reader replier.old; moments = M.coming moments.old })
        (record { reader = P.reader replier.new; moments = M.coming moments.new }) result }
{
    let mut source = ChannelSource { receiver };
    serve_connections(rt, alloc, &mut source, replier, name, moments, gate, turns)
}

/// Serves each connection of `source` by [`serve_lines`], one after another, to the last. Gives the sum of their counts,
/// as [`worker_loop`] does.
pub fn serve_connections<
    I: Read + Drop,
    O: Write + Drop,
    S: ConnectionSource<I, O>,
    P: Replier,
    M: Moments,
    G: Gate,
    R: Wait,
>(
    rt: &R,
    alloc: Global,
    source: &mut S,
    replier: &mut P,
    name: &Source,
    moments: &mut M,
    gate: &G,
    turns: Turns,
) -> Counts
    ensures seen { HasSeenMore (P.reader replier.old) (P.reader replier.new) }
    ensures sum { SumsConnections (G.says gate.now) (Answers name.now)
        (record { reader = P.reader replier.old; moments = M.coming moments.old })
        (record { reader = P.reader replier.new; moments = M.coming moments.new }) result }

    // If the source tells its connections, exactly these were served, each once, and counted.
    ensures told { IfSome (S.coming source.old) (λ connections. SumsOver (G.says gate.now) (Answers name.now)
        (record { reader = P.reader replier.old; moments = M.coming moments.old })
        (record { reader = P.reader replier.new; moments = M.coming moments.new })
        (map (ends_of I.remaining O.contents) connections) result) }
{
    let mut sum = Counts::default();
    for _round in rt.forever() {
        let Some(connection) = source.next(rt) else {
            return sum;
        };
        let counts = serve_connection(alloc, connection, replier, name, moments, gate, turns);
        sum = sum.plus(counts);
    }
    unreachable!()
}

/// Serves a connection, closes it, and gives its counts: those of its lines, or one fault and nothing else.
fn serve_connection<I: Read + Drop, O: Write + Drop, P: Replier, M: Moments, G: Gate>(
    alloc: Global,
    connection: Connection<I, O>,
    replier: &mut P,
    name: &Source,
    moments: &mut M,
    gate: &G,
    turns: Turns,
) -> Counts
    ensures seen { HasSeenMore (P.reader replier.old) (P.reader replier.new) }
    ensures counted { CountsConnection (G.says gate.now) (Answers name.now)
        (record { reader = P.reader replier.old; moments = M.coming moments.old })
        (record { reader = P.reader replier.new; moments = M.coming moments.new })
        (I.remaining connection.input) (O.contents connection.output) result }
{
    let Connection { input, output } = connection;
    let mut input = Watched::new(input);
    let mut output = Watched::new(output);
    let served = serve_lines(
        alloc,
        &mut input,
        &mut output,
        replier,
        name,
        moments,
        gate,
        turns,
    );
    match served {
        Ok(counts) => counts,
        Err(_) => Counts::of_fault(),
    }
}
