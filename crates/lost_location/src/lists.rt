//! The regions of a mapping while they are read.
ghost use Rattle.std.specs.Prelude.{◌≡◌, [], ◌∷◌, ◌++◌, IfOk, OnOk, None};
ghost use Rattle.std.specs.Option.{option_to_list};
ghost use Rattle.lost_spec.specs.Place.{is_region, polygon_of, pattern_of, token_set_of, by_kind, no_regions};
ghost use Rattle.lost_location.specs.Refusals.{Refuses, bad_unless, regions_fault};
ghost use Rattle.lost_location.specs.Region.{region_of, regions_of};

use crate::patterns::read_pattern;
use crate::region::Region;
use crate::rings::read_polygon;
use crate::token_sets::read_token_set;
use lost_civic::CivicPattern;
use lost_geo::Polygon;
use lost_profile::TokenSet;
use lost_spec::faults::MappingError;
use std::alloc::Global;
use std::marker::Model;

/// Regions that were read, by kind. Contracts see the record of the three lists.
#[derive(Drop)]
pub(crate) struct RegionLists {
    pub polygons: Vec<Polygon>,
    pub patterns: Vec<CivicPattern>,
    pub token_sets: Vec<TokenSet>,
}

impl Model for RegionLists {
    ghost use Rattle.lost_spec.specs.Place as spec;

    ghost Value = { spec.Regions };

    ghost view = { λ r. record { polygons = r.polygons.items; patterns = r.patterns.items; token_sets = r.token_sets.items } };
}

impl RegionLists {
    /// No regions. It takes no memory.
    fn new(alloc: Global) -> RegionLists
        ensures { result ≡ no_regions }
    {
        RegionLists {
            polygons: Vec::new(alloc),
            patterns: Vec::new(alloc),
            token_sets: Vec::new(alloc),
        }
    }

    /// The regions that were handed in, by kind.
    pub(crate) fn read(alloc: Global, regions: Vec<Region>) -> Result<RegionLists, MappingError>
        ensures regions { IfOk result (λ read. read ≡ by_kind (regions_of regions.items)) }
        ensures refuses { Refuses result (regions_fault (regions_of regions.items)) }
    {
        let mut read = RegionLists::new(alloc);
        for region in regions {
            read.add(alloc, region)?;
        }
        Ok(read)
    }

    fn add(&mut self, alloc: Global, region: Region) -> Result<(), MappingError>
        ensures polygons { OnOk result (self.new.polygons ≡ self.old.polygons ++ option_to_list (polygon_of (region_of region))) }
        ensures patterns { OnOk result (self.new.patterns ≡ self.old.patterns ++ option_to_list (pattern_of (region_of region))) }
        ensures token_sets { OnOk result (self.new.token_sets ≡ self.old.token_sets ++ option_to_list (token_set_of (region_of region))) }
        ensures refuses { Refuses result (bad_unless (is_region (region_of region))) }
    {
        match region {
            Region::Ring(positions) => push(&mut self.polygons, read_polygon(alloc, &positions)?),
            Region::Pattern(pairs) => push(&mut self.patterns, read_pattern(alloc, pairs)?),
            Region::Tokens(texts) => push(&mut self.token_sets, read_token_set(alloc, &texts)?),
            Region::Unreadable => Err(MappingError::BadRegion),
        }
    }
}

/// Puts a region behind those of its kind.
fn push<T: Drop>(regions: &mut Vec<T>, region: T) -> Result<(), MappingError>
    ensures regions { OnOk result (regions.new.items ≡ regions.old.items ++ region ∷ []) }
    ensures refuses { Refuses result None }
{
    match regions.push(region) {
        Ok(()) => Ok(()),
        Err(_) => Err(MappingError::Memory),
    }
}
