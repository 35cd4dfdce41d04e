//! A mapping's regions, in lists of their own. Each costs a pointer.
ghost use Rattle.std.specs.Prelude.{◌≡◌, IfOk};

use crate::mapped_polygon::MappedPolygon;
use lost_civic::CivicPattern;
use lost_mapping::Mapping;
use lost_profile::TokenSet;
use std::alloc::{AllocError, Global};

/// The polygons of a mapping.
pub(crate) fn polygons_of(
    alloc: Global,
    mapping: &Mapping,
) -> Result<Vec<MappedPolygon>, AllocError>
    ensures { IfOk result (λ polygons. polygons.items ≡ mapping.now.regions.polygons) }
{
    let count = mapping.polygons().len();
    let mut polygons = Vec::with_capacity(alloc, count)?;
    for position in 0..count {
        polygons.push(MappedPolygon::of(mapping, position)?)?;
    }
    Ok(polygons)
}

/// The patterns of a mapping.
pub(crate) fn patterns_of(alloc: Global, mapping: &Mapping) -> Result<Vec<CivicPattern>, AllocError>
    ensures { IfOk result (λ patterns. patterns.items ≡ mapping.now.regions.patterns) }
{
    let mut patterns = Vec::with_capacity(alloc, mapping.patterns().len())?;
    for pattern in mapping.patterns() {
        patterns.push(pattern.clone()?)?;
    }
    Ok(patterns)
}

/// The token sets of a mapping.
pub(crate) fn token_sets_of(alloc: Global, mapping: &Mapping) -> Result<Vec<TokenSet>, AllocError>
    ensures { IfOk result (λ sets. sets.items ≡ mapping.now.regions.token_sets) }
{
    let mut sets = Vec::with_capacity(alloc, mapping.token_sets().len())?;
    for set in mapping.token_sets() {
        sets.push(set.clone()?)?;
    }
    Ok(sets)
}
