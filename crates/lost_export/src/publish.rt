//! The line that publishes a mapping.
ghost use Rattle.std.specs.Prelude.{◌≡◌, IfOk, OnOk, option_map, codes};
ghost use Rattle.std.specs.Option.{option_copied};
ghost use Rattle.serde_json.specs.Data.{string, object};
ghost use Rattle.serde_json.specs.View.{view, members_view};
ghost use Rattle.lost_mapping.specs.Expires.{expires_seen};
ghost use Rattle.lost_mapping.specs.Parts.{display_name_of};
ghost use Rattle.lost_export.specs.Export.{expires_text as text_of_expires, display_name_data, display_names_data, default_data, boundary_data, members_from_service, publish_members, publish_data, publish_json, publish_text};
ghost use Rattle.lost_export.specs.Put.{put_if};
ghost use Rattle.lost_export.specs.ReadBack.{IsBuilt, ReadsBack};

use crate::lists::{Shown, list_tree, texts_tree};
use crate::members::{Members, put_text};
use crate::regions::regions_tree;
use lost_mapping::{DisplayName, Expires, Mapping};
use serde_json::{Value, json, put};
use std::alloc::{AllocError, Global};

impl Shown for DisplayName {
    ghost shown = { λ name. display_name_data (display_name_of name) };

    fn tree(&self, alloc: Global) -> Result<Value, AllocError> {
        json!(in alloc; {"lang": (self.lang.as_str()), "text": (self.text.as_str())})
    }
}

/// The text that says until when a mapping holds (RFC 5222, section 5.2).
fn expires_text(expires: &Expires) -> &str
    ensures { result.now ≡ text_of_expires (expires_seen expires.now) }
{
    match expires {
        Expires::NoCache => "NO-CACHE",
        Expires::NoExpiration => "NO-EXPIRATION",
        Expires::At(stamp) => stamp.text(),
    }
}

/// Puts in a text under a name, if there is one.
fn put_text_if_any(
    members: &mut Members,
    alloc: Global,
    name: &str,
    text: Option<&str>,
) -> Result<(), AllocError>
    ensures { OnOk result (members_view members.new.entries
        ≡ put_if name.now (option_map string (option_copied text.entry)) (members_view members.old.entries)) }
{
    match text {
        Some(text) => put_text(members, alloc, name, text),
        None => Ok(()),
    }
}

/// Puts in the regions, unless the mapping is a default (RFC 5222, section 5.5).
fn put_regions(members: &mut Members, alloc: Global, mapping: &Mapping) -> Result<(), AllocError>
    ensures { OnOk result (members_view members.new.entries
        ≡ put_if (codes "serviceBoundary") (boundary_data mapping.now.is_default mapping.now.regions) (members_view members.old.entries)) }
{
    if mapping.is_default() {
        return Ok(());
    }
    let regions = regions_tree(alloc, mapping.regions())?;
    put(members, alloc, "serviceBoundary", regions)
}

/// Puts in the display names, if there are any (RFC 5222, section 5.3).
fn put_display_names(
    members: &mut Members,
    alloc: Global,
    mapping: &Mapping,
) -> Result<(), AllocError>
    ensures { OnOk result (members_view members.new.entries
        ≡ put_if (codes "displayName") (display_names_data mapping.now.display_names) (members_view members.old.entries)) }
{
    let names = mapping.display_names();
    if names.is_empty() {
        return Ok(());
    }
    let list = list_tree(alloc, names)?;
    put(members, alloc, "displayName", list)
}

/// Puts in the mark of a default, if the mapping is one.
fn put_default(members: &mut Members, alloc: Global, mapping: &Mapping) -> Result<(), AllocError>
    ensures { OnOk result (members_view members.new.entries
        ≡ put_if (codes "default") (default_data mapping.now.is_default) (members_view members.old.entries)) }
{
    if !mapping.is_default() {
        return Ok(());
    }
    put(members, alloc, "default", Value::Bool(true))
}

/// The members of a mapping from `service` on (RFC 5222, section 5).
#[tactic(auto, using(crate::proofs::MemberLemmas::from_service))]
fn members_from_service(alloc: Global, mapping: &Mapping) -> Result<Members, AllocError>
    ensures { IfOk result (λ members. members_view members.entries ≡ members_from_service mapping.now) }
{
    let mut members = Members::new(alloc);
    put(
        &mut members,
        alloc,
        "uri",
        texts_tree(alloc, mapping.uris())?,
    )?;
    put_text(
        &mut members,
        alloc,
        "sourceId",
        mapping.identity().source_id(),
    )?;
    put_text(
        &mut members,
        alloc,
        "source",
        mapping.identity().source().text(),
    )?;
    put_text_if_any(&mut members, alloc, "serviceNumber", mapping.number())?;
    put_regions(&mut members, alloc, mapping)?;
    put_text(&mut members, alloc, "service", mapping.service().text())?;
    Ok(members)
}

/// All members of a mapping, as a desk hands them in (RFC 5222, section 5).
#[tactic(auto, using(crate::proofs::MemberLemmas::before_service))]
fn all_members(alloc: Global, mapping: &Mapping) -> Result<Members, AllocError>
    ensures { IfOk result (λ members. members_view members.entries ≡ publish_members mapping.now) }
{
    let mut members = members_from_service(alloc, mapping)?;
    put_text(&mut members, alloc, "lastUpdated", mapping.stamp().text())?;
    put_text_if_any(&mut members, alloc, "key", mapping.key())?;
    put_text(
        &mut members,
        alloc,
        "expires",
        expires_text(mapping.expires()),
    )?;
    put_display_names(&mut members, alloc, mapping)?;
    put_default(&mut members, alloc, mapping)?;
    Ok(members)
}

/// The tree of the desk line that publishes a mapping.
fn publish_tree(alloc: Global, mapping: &Mapping) -> Result<Value, AllocError>
    ensures { IfOk result (λ tree. view tree ≡ publish_data mapping.now) }
{
    let members = Value::Object(all_members(alloc, mapping)?);
    json!(in alloc; {"publish": members})
}

/// The text of the desk line that publishes a mapping, without a byte 10.
fn publish_json(alloc: Global, mapping: &Mapping) -> Result<Vec<u8>, AllocError>
    ensures text { IfOk result (λ json. json.items ≡ publish_json mapping.now) }
    ensures reads_back { IfOk result (λ json. IsBuilt mapping.now → ReadsBack mapping.now) }
{
    let tree = publish_tree(alloc, mapping)?;
    tree.to_vec(alloc)
}

/// The desk line that publishes a mapping, with its byte 10 (own format over RFC 5222, section 5). It may be longer than the
/// line that the mapping came from, since each position is two whole numbers, and longer than the longest line that is read.
///
/// # Errors
///
/// [`AllocError`] where there is no memory for the line.
pub fn publish_line(alloc: Global, mapping: &Mapping) -> Result<Vec<u8>, AllocError>
    ensures text { IfOk result (λ line. line.items ≡ publish_text mapping.now) }

    // A reader of desk lines reads the publish of this mapping, where parts made it.
    ensures reads_back { IfOk result (λ line. IsBuilt mapping.now → ReadsBack mapping.now) }
{
    let mut line = publish_json(alloc, mapping)?;
    line.push(b'\n')?;
    Ok(line)
}
