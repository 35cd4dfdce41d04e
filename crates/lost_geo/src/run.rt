//! The runs of a ring's edges, with the bounds of each: a place is compared with the bounds of a run before it is compared
//! with the run's edges, and mostly in their stead.

ghost use Rattle.std.specs.Prelude.{◌≡◌, ℕ, ◌+◌, ◌-◌, ◌<◌, ◌≤◌, length, filter, take, drop, int_le, int_lt, IfOk};
ghost use Rattle.lost_spec.specs.Ring.{edges, spans as edge_spans, crossings, is_odd};
ghost use Rattle.lost_geo.specs.Bounds.{bounds_of, AreInRange};
ghost use Rattle.lost_geo.specs.Runs.{edges_of_a_run, is_spanned, AreCornersOf};

use crate::bounds::Bounds;
use crate::edge;
use crate::point::GeoPoint;
use std::alloc::{AllocError, Global};

/// Whether an odd number of the edges of a run cross at the place. The run begins with the position at `begin` of the
/// list and has these bounds. No edge to the left of the place crosses there. One to the right does just where it spans
/// the place's latitude. Of most runs no position is looked at.
fn run_has_odd_crossings(
    run: &Bounds,
    positions: &[GeoPoint],
    begin: usize,
    place: &GeoPoint,
) -> bool
    requires some { begin < length positions.now }
    requires run { run.now ≡ bounds_of (take (edges_of_a_run + 1) (drop begin positions.now)) }
    ensures { result ≡ is_odd (crossings (edges (take (edges_of_a_run + 1) (drop begin positions.now))) place.now) }
{
    if !spans(run, place) {
        return false;
    }
    if is_left(run, place) {
        return false;
    }
    let positions = run_at(positions, begin);
    if is_right(run, place) {
        return is_spanned_oddly(positions, place);
    }
    edge::has_odd_crossings(positions, place)
}

/// Whether the latitude of the place lies from the run's least one up to before its greatest one. Where it does not, no
/// edge of the run crosses at the place.
fn spans(run: &Bounds, place: &GeoPoint) -> bool
    ensures { result ≡ is_spanned run.now place.now.lat }
{
    let lat = place.lat();
    i64::from(run.lat_min) <= lat && lat < i64::from(run.lat_max)
}

/// Whether the run is to the left of the place.
fn is_left(run: &Bounds, place: &GeoPoint) -> bool
    ensures { result ≡ int_lt run.now.lon_max place.now.lon }
{
    i64::from(run.lon_max) < place.lon()
}

/// Whether the run is to the right of the place.
fn is_right(run: &Bounds, place: &GeoPoint) -> bool
    ensures { result ≡ int_lt place.now.lon run.now.lon_min }
{
    place.lon() < i64::from(run.lon_min)
}

/// Whether an odd number of the edges between the positions span the latitude of the place: just where it lies between
/// those of the first and the last position.
fn is_spanned_oddly(positions: &[GeoPoint], place: &GeoPoint) -> bool
    requires { 0 < length positions.now }
    ensures { result ≡ is_odd (length (filter (λ e. edge_spans e place.now) (edges positions.now))) }
{
    is_low(&positions[0], place) != is_low(&positions[positions.len() - 1], place)
}

/// Whether the position's latitude is at most that of the place.
fn is_low(position: &GeoPoint, place: &GeoPoint) -> bool
    ensures { result ≡ int_le position.now.lat place.now.lat }
{
    position.lat() <= place.lat()
}

/// The corners of the runs of a list of positions, two for each run.
pub(crate) fn corners_of(alloc: Global, positions: &[GeoPoint]) -> Result<Vec<GeoPoint>, AllocError>
    ensures { IfOk result (λ corners. AreCornersOf edges_of_a_run corners.items positions.now) }
{
    let mut corners = Vec::new(alloc);
    let mut rest = positions;
    while rest.len() > 1 {
        let (low, high) = bounds_of_run(first_run(rest)).corners();
        corners.push(low)?;
        corners.push(high)?;
        rest = behind_run(rest);
    }
    Ok(corners)
}

/// The bounds of the run whose edges join these positions.
fn bounds_of_run(positions: &[GeoPoint]) -> Bounds
    requires { 0 < length positions.now }
    ensures bounds { result ≡ bounds_of positions.now }
    ensures in_range { AreInRange result }
{
    Bounds::of(&positions[0], &positions[1..])
}

/// Whether an odd number of the edges between the positions, whose runs have these corners, cross at the place.
pub(crate) fn has_odd_crossings(
    corners: &[GeoPoint],
    positions: &[GeoPoint],
    place: &GeoPoint,
) -> bool
    requires { AreCornersOf edges_of_a_run corners.now positions.now }
    ensures { result ≡ is_odd (crossings (edges positions.now) place.now) }
{
    let mut odd = false;
    let mut begin = 0;
    let mut rest = corners;
    while rest.len() > 1 {
        let run = Bounds::between(&rest[0], &rest[1]);
        odd ^= run_has_odd_crossings(&run, positions, begin, place);
        begin += run_len();
        rest = behind_corners(rest);
    }
    odd
}

/// The corners behind those of the first run.
fn behind_corners(corners: &[GeoPoint]) -> &[GeoPoint]
    requires { 1 < length corners.now }
    ensures value { result.now ≡ drop 2 corners.now }
    ensures shorter { length result.now < length corners.now }
{
    &corners[2..]
}

/// The positions of the run that begins with the position at this place of the list.
fn run_at(positions: &[GeoPoint], begin: usize) -> &[GeoPoint]
    requires { begin < length positions.now }
    ensures value { result.now ≡ take (edges_of_a_run + 1) (drop begin positions.now) }
    ensures some { 0 < length result.now }
{
    first_run(&positions[begin..])
}

/// The positions of the first run: those that its edges begin at, and the last one's end.
fn first_run(positions: &[GeoPoint]) -> &[GeoPoint]
    requires { 0 < length positions.now }
    ensures value { result.now ≡ take (edges_of_a_run + 1) positions.now }
    ensures some { 0 < length result.now }
{
    if positions.len() > run_len() {
        &positions[..=run_len()]
    } else {
        positions
    }
}

/// The positions from the end of the first run on.
fn behind_run(positions: &[GeoPoint]) -> &[GeoPoint]
    ensures value { result.now ≡ drop edges_of_a_run positions.now }
    ensures shorter { length result.now ≤ length positions.now - 1 }
{
    if positions.len() > run_len() {
        &positions[run_len()..]
    } else {
        &[]
    }
}

/// How many edges a run has.
fn run_len() -> usize
    ensures value { result ≡ edges_of_a_run }
    ensures some { 0 < result }
    ensures few { result < 1000 }
{
    16
}
