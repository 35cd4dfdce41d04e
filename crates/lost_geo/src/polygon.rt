//! A ring of positions, kept with its exact bounds.

ghost use Rattle.std.specs.Prelude.{◌≡◌, ◌<◌, List, length, IfOk, None};
ghost use Rattle.std.specs.Result.{result_err};
ghost use Rattle.lost_spec.specs.Ring.{Point, ring_fault, inside as is_inside, is_closed as is_closed_list};
ghost use Rattle.lost_geo.specs.Bounds.{bounds_of, AreExact, AreInRange, IsRingWith};
ghost use Rattle.lost_geo.specs.Kept.{positions_of};

use crate::bounds::Bounds;
use crate::point::GeoPoint;
use crate::ring::Ring;
use lost_spec::faults::RingError;
use std::alloc::{AllocError, Global};
use std::marker::Model;

/// The fewest positions of a ring.
pub const MIN_POSITIONS: usize = 4;

/// The most positions of a ring.
pub const MAX_POSITIONS: usize = 4096;

/// The area that one exterior ring bounds (RFC 5222, section 12.2). The plane is flat, and inside is by the even-odd
/// rule; orientation and self-crossing are not examined (own rules). Contracts see it as the list of its positions.
#[derive(Debug)]
pub struct Polygon {
    ring: Ring,
    bounds: Bounds,
}

impl Drop for Polygon {
    fn drop(self) {
        let Polygon { ring: _, bounds: _ } = self;
    }
}

impl Model for Polygon {
    ghost Value = { List Point };

    ghost view = { λ a. positions_of a.ring };

    ghost invariant = { λ a. IsRingWith (positions_of a.ring) a.bounds };
}

impl Polygon {
    /// The polygon with this ring.
    ///
    /// # Errors
    ///
    /// In this order: [`RingError::TooShort`] for fewer than 4 positions, [`RingError::NotClosed`] where the last
    /// position is not the first one, [`RingError::TooLong`] for more than 4,096. The positions are then dropped.
    pub fn new(positions: Vec<GeoPoint>) -> Result<Polygon, RingError>
        ensures refused { result_err result ≡ ring_fault positions.items }
        ensures ring { IfOk result (λ polygon. polygon ≡ positions.items) }
    {
        check_ring(&positions)?;
        let bounds = Bounds::of(&positions[0], &positions[1..]);
        Ok(Polygon {
            ring: Ring::Plain(positions),
            bounds,
        })
    }

    /// The positions of the ring, the last one equal to the first.
    pub fn positions(&self) -> &[GeoPoint]
        ensures positions { result.now ≡ self.now }
        ensures is_ring { ring_fault self.now ≡ None }
    {
        self.ring.positions()
    }

    /// The least and the greatest latitude and longitude of the ring.
    pub fn bounds(&self) -> Bounds
        ensures bounds { result ≡ bounds_of self.now }
        ensures exact { AreExact result self.now }
        ensures in_range { AreInRange result }
        ensures is_ring { ring_fault self.now ≡ None }
    {
        self.bounds
    }

    /// Whether the point's normal form is inside the ring, by the even-odd rule (own reading of RFC 5222, section
    /// 12.2): lower and left edges belong, upper and right ones do not.
    pub fn inside(&self, point: &GeoPoint) -> bool
        ensures inside { result ≡ is_inside self.now point.now }
        ensures is_ring { ring_fault self.now ≡ None }
    {
        let place = point.normal();
        self.bounds.holds(&place) && self.ring.has_odd_crossings(&place)
    }

    /// The same polygon. Where it has more than 33 positions, it comes with what makes `inside` faster.
    pub fn with_runs(self, alloc: Global) -> Result<Polygon, AllocError>
        ensures { IfOk result (λ polygon. polygon ≡ self) }
    {
        let Polygon { ring, bounds } = self;
        Ok(Polygon {
            ring: ring.with_runs(alloc)?,
            bounds,
        })
    }

    /// A copy, of each position too.
    pub fn clone(&self) -> Result<Polygon, AllocError>
        ensures { IfOk result (λ copy. copy ≡ self.now) }
    {
        Ok(Polygon {
            ring: self.ring.clone()?,
            bounds: self.bounds,
        })
    }
}

/// The first reason why the positions are no ring.
fn check_ring(positions: &[GeoPoint]) -> Result<(), RingError>
    ensures { result_err result ≡ ring_fault positions.now }
{
    if positions.len() < MIN_POSITIONS {
        return Err(RingError::TooShort);
    }
    if !is_closed(positions) {
        return Err(RingError::NotClosed);
    }
    if positions.len() > MAX_POSITIONS {
        return Err(RingError::TooLong);
    }
    Ok(())
}

/// Whether the last position is equal to the first.
fn is_closed(positions: &[GeoPoint]) -> bool
    requires { 0 < length positions.now }
    ensures { result ≡ is_closed_list positions.now }
{
    positions[0] == positions[positions.len() - 1]
}
