//! Calls of lost_geo.
use crate::case_error::CaseError;
use crate::fields::Fields;
use crate::gathered::Gathered;
use crate::words::{compared, number_pair, number_pairs, owned, refused, yes_or_no};
use lost_geo::{GeoPoint, Polygon, is_ring};
use lost_spec::Coded;
use std::alloc::Global;

/// The result of a call.
pub(crate) fn said(alloc: Global, call: &str, fields: &Fields) -> Result<String, CaseError> {
    let text = fields.text(1)?;
    match call {
        "geo point" => new_point(alloc, text),
        "geo same" => same_points(alloc, text, fields),
        "geo ring" => new_ring(alloc, text),
        "geo is ring" => check_ring(alloc, text),
        "geo decimal" => decimal(alloc, text),
        "geo positions" => positions(alloc, text),
        "geo bounds" => bounds(alloc, text),
        "geo inside" => inside(alloc, text, fields),
        _ => Err(CaseError::NoCase),
    }
}

fn same_points(alloc: Global, text: &str, fields: &Fields) -> Result<String, CaseError> {
    let one = point(text)?;
    owned(alloc, compared(&one, &point(fields.text(2)?)?))
}

fn check_ring(alloc: Global, text: &str) -> Result<String, CaseError> {
    let positions = number_pairs(alloc, text)?;
    owned(alloc, yes_or_no(is_ring(positions.as_slice())))
}

fn inside(alloc: Global, text: &str, fields: &Fields) -> Result<String, CaseError> {
    let point = point(fields.text(2)?)?;
    owned(alloc, yes_or_no(polygon(alloc, text)?.inside(&point)))
}

/// The point that two numbers make.
pub(crate) fn point(text: &str) -> Result<GeoPoint, CaseError> {
    let (lat, lon) = number_pair(text)?;
    match GeoPoint::new(lat, lon) {
        Ok(point) => Ok(point),
        Err(_) => Err(CaseError::NoCase),
    }
}

/// The polygon that a ring makes.
fn polygon(alloc: Global, text: &str) -> Result<Polygon, CaseError> {
    match Polygon::new(points(alloc, text)?) {
        Ok(polygon) => Ok(polygon),
        Err(_) => Err(CaseError::NoCase),
    }
}

fn points(alloc: Global, text: &str) -> Result<Vec<GeoPoint>, CaseError> {
    let mut points = Vec::new(alloc);
    for (lat, lon) in number_pairs(alloc, text)? {
        match GeoPoint::new(lat, lon) {
            Ok(point) => points.push(point)?,
            Err(_) => return Err(CaseError::NoCase),
        }
    }
    Ok(points)
}

/// The numbers of a point, and those of its normal form.
fn new_point(alloc: Global, text: &str) -> Result<String, CaseError> {
    let (lat, lon) = number_pair(text)?;
    match GeoPoint::new(lat, lon) {
        Ok(point) => shown_point(alloc, &point),
        Err(refusal) => refused(alloc, refusal.code()),
    }
}

fn shown_point(alloc: Global, point: &GeoPoint) -> Result<String, CaseError> {
    let normal = point.normal();
    let mut text = Gathered::new(alloc);
    text.add_two(point.lat(), point.lon());
    text.add(" normally ");
    text.add_two(normal.lat(), normal.lon());
    text.done()
}

/// The numbers that a text of degrees spells, or `none`.
fn decimal(alloc: Global, text: &str) -> Result<String, CaseError> {
    match GeoPoint::decimal(text.as_bytes()) {
        Some((lat, lon)) => Ok(format!(in alloc; "{lat},{lon}")?),
        None => owned(alloc, "none"),
    }
}

/// The number of positions of a ring.
fn new_ring(alloc: Global, text: &str) -> Result<String, CaseError> {
    match Polygon::new(points(alloc, text)?) {
        Ok(polygon) => shown_count(alloc, polygon.positions().len()),
        Err(refusal) => refused(alloc, refusal.code()),
    }
}

fn shown_count(alloc: Global, count: usize) -> Result<String, CaseError> {
    Ok(format!(in alloc; "{count} positions")?)
}

/// The numbers of a ring's positions.
fn positions(alloc: Global, text: &str) -> Result<String, CaseError> {
    let polygon = polygon(alloc, text)?;
    let mut text = Gathered::new(alloc);
    add_positions(&mut text, polygon.positions());
    text.done()
}

/// Adds the numbers of positions, with a space between each two.
pub(crate) fn add_positions(text: &mut Gathered, points: &[GeoPoint]) {
    let mut before = "";
    for point in points {
        text.add(before);
        text.add_two(point.lat(), point.lon());
        before = " ";
    }
}

fn bounds(alloc: Global, text: &str) -> Result<String, CaseError> {
    let bounds = polygon(alloc, text)?.bounds();
    let (south, north) = (bounds.lat_min, bounds.lat_max);
    let (west, east) = (bounds.lon_min, bounds.lon_max);
    Ok(format!(in alloc; "{south} to {north}, {west} to {east}")?)
}
