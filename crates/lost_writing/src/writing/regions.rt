//! Regions (RFC 5222, section 5.5; tokens own).
ghost use Rattle.std.specs.Prelude.{◌≡◌, OnOk, IfOk};
ghost use Rattle.serde_json.specs.Data.{object, no_members};
ghost use Rattle.lost_spec.specs.Place.{of_kind};
ghost use Rattle.lost_civic.specs.Pairs.{seen_pairs};
ghost use Rattle.lost_writing.specs.Replies.{position_data, polygon_data, put_pairs, pattern_data, token_set_data, regions_data};
ghost use Rattle.lost_writing.specs.Tokens.{then_members, then_value};
ghost use Rattle.lost_writing.specs.Named.{named_members};

use crate::token_text::TokenText;
use crate::writing::lists::{Written, write_each, write_list};
use crate::writing::members::{list_member, text_member};
use lost_civic::CivicPattern;
use lost_geo::{GeoPoint, Polygon};
use lost_location::{CIVIC, GEODETIC_2D, PlaceKind, Regions, X_TOKEN};
use lost_profile::{Token, TokenSet};
use std::alloc::{AllocError, Global};
use std::collections::BTreeMap;

impl Written for GeoPoint {
    ghost tree = { position_data };

    fn write(&self, text: &mut TokenText) -> Result<(), AllocError> {
        text.begin_list()?;
        text.whole(self.lat())?;
        text.whole(self.lon())?;
        text.end_list()
    }
}

impl Written for Polygon {
    ghost tree = { polygon_data };

    #[tactic(auto, using(crate::proofs::ShapeLemmas::two_written))]
    fn write(&self, text: &mut TokenText) -> Result<(), AllocError> {
        text.begin_object()?;
        list_member(text, "polygon", self.positions())?;
        text_member(text, "profile", GEODETIC_2D)?;
        text.end_object()
    }
}

/// The pairs by their names, in ascending byte order.
fn by_name(alloc: Global, pairs: &[(String, String)]) -> Result<BTreeMap<&str, &str>, AllocError>
    ensures { IfOk result (λ named. named_members named.entries ≡ put_pairs no_members (seen_pairs pairs.now)) }
{
    let mut named = BTreeMap::new(alloc);
    for pair in pairs {
        named.insert(pair.0.as_str(), pair.1.as_str())?;
    }
    Ok(named)
}

/// Writes the members of pairs by their names, without the brackets of an object.
fn write_named(text: &mut TokenText, named: &BTreeMap<&str, &str>) -> Result<(), AllocError>
    ensures { OnOk result (text.new ≡ then_members (named_members named.now.entries) text.old) }
{
    for (name, value) in named.iter() {
        text_member(text, name, value)?;
    }
    Ok(())
}

/// Writes the object of these pairs.
#[tactic(auto, using(crate::proofs::TokenLemmas::object_written))]
fn write_pairs(text: &mut TokenText, pairs: &[(String, String)]) -> Result<(), AllocError>
    ensures { OnOk result (text.new ≡ then_value (object (put_pairs no_members (seen_pairs pairs.now))) text.old) }
{
    let named = by_name(text.alloc(), pairs)?;
    text.begin_object()?;
    write_named(text, &named)?;
    text.end_object()
}

impl Written for CivicPattern {
    ghost tree = { pattern_data };

    #[tactic(auto, using(crate::proofs::ShapeLemmas::two_written))]
    fn write(&self, text: &mut TokenText) -> Result<(), AllocError> {
        text.begin_object()?;
        text.name("pattern")?;
        write_pairs(text, self.pairs())?;
        text_member(text, "profile", CIVIC)?;
        text.end_object()
    }
}

impl Written for Token {
    ghost use Rattle.serde_json.specs.Data.{string};

    ghost tree = { λ token. string token };

    fn write(&self, text: &mut TokenText) -> Result<(), AllocError> {
        text.text(self.text())
    }
}

impl Written for TokenSet {
    ghost tree = { token_set_data };

    #[tactic(auto, using(crate::proofs::ShapeLemmas::two_written))]
    fn write(&self, text: &mut TokenText) -> Result<(), AllocError> {
        text.begin_object()?;
        text_member(text, "profile", X_TOKEN)?;
        list_member(text, "tokens", self.tokens())?;
        text.end_object()
    }
}

/// Writes all regions of a mapping, in the order of their kinds (RFC 5222, section 9).
#[tactic(auto, using(crate::proofs::ShapeLemmas::three_lists_written))]
pub(crate) fn write_regions(text: &mut TokenText, regions: &Regions) -> Result<(), AllocError>
    ensures { OnOk result (text.new ≡ then_value (regions_data regions.now) text.old) }
{
    text.begin_list()?;
    write_each(text, regions.polygons())?;
    write_each(text, regions.patterns())?;
    write_each(text, regions.token_sets())?;
    text.end_list()
}

/// Writes the regions of one kind alone (RFC 5222, section 5.5).
#[tactic(auto, using(crate::proofs::RegionLemmas::alone))]
pub(crate) fn write_regions_of(
    text: &mut TokenText,
    kind: PlaceKind,
    regions: &Regions,
) -> Result<(), AllocError>
    ensures { OnOk result (text.new ≡ then_value (regions_data (of_kind kind regions.now)) text.old) }
{
    match kind {
        PlaceKind::Geodetic2d => write_list(text, regions.polygons()),
        PlaceKind::Civic => write_list(text, regions.patterns()),
        PlaceKind::XToken => write_list(text, regions.token_sets()),
    }
}
