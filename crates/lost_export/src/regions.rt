//! Regions (RFC 5222, section 5.5; tokens own).
ghost use Rattle.std.specs.Prelude.{◌≡◌, IfOk};
ghost use Rattle.serde_json.specs.Data.{object, no_members};
ghost use Rattle.serde_json.specs.View.{view, members_view};
ghost use Rattle.lost_civic.specs.Pairs.{seen_pairs};
ghost use Rattle.lost_export.specs.Export.{position_data, polygon_data, put_pairs, pattern_data, token_set_data, regions_data};

use crate::lists::{Shown, list_tree, push_each};
use crate::members::{Members, put_text};
use lost_civic::CivicPattern;
use lost_geo::{GeoPoint, Polygon};
use lost_location::{CIVIC, GEODETIC_2D, Regions, X_TOKEN};
use lost_profile::{Token, TokenSet};
use serde_json::{Value, json};
use std::alloc::{AllocError, Global};

impl Shown for GeoPoint {
    ghost shown = { position_data };

    fn tree(&self, alloc: Global) -> Result<Value, AllocError> {
        json!(in alloc; [(self.lat()), (self.lon())])
    }
}

impl Shown for Polygon {
    ghost shown = { polygon_data };

    fn tree(&self, alloc: Global) -> Result<Value, AllocError> {
        let positions = list_tree(alloc, self.positions())?;
        json!(in alloc; {"polygon": positions, "profile": GEODETIC_2D})
    }
}

/// The members of these pairs, by their names in ascending byte order.
fn pair_members(alloc: Global, pairs: &[(String, String)]) -> Result<Members, AllocError>
    ensures { IfOk result (λ members. members_view members.entries ≡ put_pairs no_members (seen_pairs pairs.now)) }
{
    let mut members = Members::new(alloc);
    for pair in pairs {
        put_text(&mut members, alloc, pair.0.as_str(), pair.1.as_str())?;
    }
    Ok(members)
}

impl Shown for CivicPattern {
    ghost shown = { pattern_data };

    fn tree(&self, alloc: Global) -> Result<Value, AllocError> {
        let pairs = Value::Object(pair_members(alloc, self.pairs())?);
        json!(in alloc; {"pattern": pairs, "profile": CIVIC})
    }
}

impl Shown for Token {
    ghost use Rattle.serde_json.specs.Data.{string};

    ghost shown = { λ token. string token };

    fn tree(&self, alloc: Global) -> Result<Value, AllocError> {
        Value::try_from_str(alloc, self.text())
    }
}

impl Shown for TokenSet {
    ghost shown = { token_set_data };

    fn tree(&self, alloc: Global) -> Result<Value, AllocError> {
        let tokens = list_tree(alloc, self.tokens())?;
        json!(in alloc; {"profile": X_TOKEN, "tokens": tokens})
    }
}

/// The list of all regions of a mapping: polygons, then patterns, then token sets.
pub(crate) fn regions_tree(alloc: Global, regions: &Regions) -> Result<Value, AllocError>
    ensures { IfOk result (λ tree. view tree ≡ regions_data regions.now) }
{
    let mut list = Vec::new(alloc);
    push_each(alloc, &mut list, regions.polygons())?;
    push_each(alloc, &mut list, regions.patterns())?;
    push_each(alloc, &mut list, regions.token_sets())?;
    Ok(Value::Array(list))
}
