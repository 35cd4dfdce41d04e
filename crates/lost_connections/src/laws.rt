//! What all bursts of a connection amount to, and the limits on connections.
ghost use Rattle.lost_connections.specs.Admission.{IsEmptyOnceAllLeft};
ghost use Rattle.lost_connections.specs.Laws.{BurstIsStream, BurstsAreStream};

use crate::admission::Admission;
use lost_worker::Gate;
use std::hash::Hash;

/// One burst of a connection is a stream of lines and replies.
pub fn law_burst_is_stream<G: Gate>(_gate: &G)
    ensures { BurstIsStream (G.says _gate.now) }
{}

/// Bursts of a connection, one after another, are one stream. Its lines are those of all bytes that came, wherever the
/// bursts cut them; each was let through by its number among them. Each line has its reply, in order, from a list that
/// begins with the lists of all replies before it, whatever other connections its worker served in between. A beginning
/// of the replies was written.
pub fn law_bursts_are_stream<G: Gate>(_gate: &G)
    ensures { BurstsAreStream (G.says _gate.now) }
{}

/// Once all connections that entered have left, in whatever order, none is open and no address is kept.
pub fn law_all_have_left<A: Eq + Hash>(_before: &Admission<A>, _after: &Admission<A>)
    ensures { IsEmptyOnceAllLeft _before.now _after.now }
{}
