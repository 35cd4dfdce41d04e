//! The positions of a ring, with or without the runs of its edges.

ghost use Rattle.std.specs.Prelude.{◌≡◌, IfOk};
ghost use Rattle.lost_spec.specs.Ring.{edges, crossings, is_odd};
ghost use Rattle.lost_geo.specs.Kept.{positions_of};

use crate::edge;
use crate::long_ring::LongRing;
use crate::point::GeoPoint;
use std::alloc::{AllocError, Global};

/// The most positions of a ring that is kept without runs.
const MOST_WITHOUT_RUNS: usize = 33;

/// The positions of a ring.
#[derive(Debug, Drop)]
pub(crate) enum Ring {
    /// The positions alone.
    Plain(Vec<GeoPoint>),
    /// Many positions, with the runs of their edges.
    Long(LongRing),
}

impl Ring {
    /// The positions.
    pub(crate) fn positions(&self) -> &[GeoPoint]
        ensures { result.now ≡ positions_of self.now }
    {
        match self {
            Ring::Plain(positions) => positions.as_slice(),
            Ring::Long(ring) => ring.positions(),
        }
    }

    /// Whether an odd number of the ring's edges cross at the place.
    pub(crate) fn has_odd_crossings(&self, place: &GeoPoint) -> bool
        ensures { result ≡ is_odd (crossings (edges (positions_of self.now)) place.now) }
    {
        match self {
            Ring::Plain(positions) => edge::has_odd_crossings(positions.as_slice(), place),
            Ring::Long(ring) => ring.has_odd_crossings(place),
        }
    }

    /// The same positions, with the runs of their edges where there are many.
    pub(crate) fn with_runs(self, alloc: Global) -> Result<Ring, AllocError>
        ensures { IfOk result (λ ring. positions_of ring ≡ positions_of self) }
    {
        match self {
            Ring::Plain(positions) => ring_of(alloc, positions),
            Ring::Long(ring) => Ok(Ring::Long(ring)),
        }
    }

    /// A copy.
    pub(crate) fn clone(&self) -> Result<Ring, AllocError>
        ensures { IfOk result (λ ring. positions_of ring ≡ positions_of self.now) }
    {
        match self {
            Ring::Plain(positions) => Ok(Ring::Plain(positions.clone()?)),
            Ring::Long(ring) => Ok(Ring::Long(ring.clone()?)),
        }
    }
}

fn ring_of(alloc: Global, positions: Vec<GeoPoint>) -> Result<Ring, AllocError>
    ensures { IfOk result (λ ring. positions_of ring ≡ positions.items) }
{
    if positions.len() <= MOST_WITHOUT_RUNS {
        return Ok(Ring::Plain(positions));
    }
    Ok(Ring::Long(LongRing::new(alloc, positions)?))
}
