//! A ring of many positions, kept with the runs of its edges.

ghost use Rattle.std.specs.Prelude.{◌≡◌, IfOk};
ghost use Rattle.lost_spec.specs.Ring.{edges, crossings, is_odd};

use crate::point::GeoPoint;
use crate::run;
use std::alloc::{AllocError, Global};
use std::marker::Model;

/// The positions of a ring, and behind them, in the same list, the corners of the runs of its edges: a search that reads
/// the ring finds both in one place. Contracts see it as the list of its positions.
#[derive(Debug, Drop)]
pub(crate) struct LongRing {
    places: Vec<GeoPoint>,
    len: usize,
}

impl Model for LongRing {
    ghost use Rattle.std.specs.Prelude.{List, take};
    ghost use Rattle.lost_spec.specs.Ring.{Point};
    ghost use Rattle.lost_geo.specs.Runs.{IsLongRing};

    ghost Value = { List Point };

    ghost view = { λ a. take a.len a.places.items };

    ghost invariant = { λ a. IsLongRing a.len a.places.items };
}

impl LongRing {
    /// The ring of these positions, with its runs.
    pub(crate) fn new(alloc: Global, positions: Vec<GeoPoint>) -> Result<LongRing, AllocError>
        ensures { IfOk result (λ ring. ring ≡ positions.items) }
    {
        let mut corners = run::corners_of(alloc, &positions)?;
        let len = positions.len();
        let mut places = positions;
        places.reserve_exact(corners.len())?;
        places.append(&mut corners)?;
        Ok(LongRing { places, len })
    }

    /// A copy.
    pub(crate) fn clone(&self) -> Result<LongRing, AllocError>
        ensures { IfOk result (λ ring. ring ≡ self.now) }
    {
        Ok(LongRing {
            places: self.places.clone()?,
            len: self.len,
        })
    }

    /// The positions.
    pub(crate) fn positions(&self) -> &[GeoPoint]
        ensures { result.now ≡ self.now }
    {
        &self.places[..self.len]
    }

    /// Whether an odd number of the ring's edges cross at the place.
    pub(crate) fn has_odd_crossings(&self, place: &GeoPoint) -> bool
        ensures { result ≡ is_odd (crossings (edges self.now) place.now) }
    {
        run::has_odd_crossings(&self.places[self.len..], self.positions(), place)
    }
}
