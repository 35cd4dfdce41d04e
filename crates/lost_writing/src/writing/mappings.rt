//! Mappings (RFC 5222, section 8.4.1).
ghost use Rattle.std.specs.Prelude.{◌≡◌, OnOk, map, option_map, codes};
ghost use Rattle.std.specs.Option.{option_copied};
ghost use Rattle.serde_json.specs.Data.{string};
ghost use Rattle.lost_spec.specs.Answer.{reference_of};
ghost use Rattle.lost_spec.specs.Service.{service_text};
ghost use Rattle.lost_mapping.specs.Expires.{expires_seen};
ghost use Rattle.lost_mapping.specs.Parts.{display_name_of};
ghost use Rattle.lost_mapping.specs.Reply.{boundary_of, shown_with, all_shown_of};
ghost use Rattle.lost_writing.specs.Replies.{display_name_data, display_names_data, expires_text as text_of_expires, value_data, reference_data, list_data, shown_data, texts_data};
ghost use Rattle.lost_writing.specs.Tokens.{then_member, then_member_if, then_value, then_values};
ghost use Rattle.lost_writing.specs.Written.{key_data};

use crate::token_text::TokenText;
use crate::writing::lists::Written;
use crate::writing::members::{list_member_if_any, text_member, texts_member};
use crate::writing::regions::write_regions_of;
use lost_mapping::{Boundary, DisplayName, Expires, FoundMappings, Mapping};
use std::alloc::AllocError;

impl Written for DisplayName {
    ghost tree = { λ name. display_name_data (display_name_of name) };

    #[tactic(auto, using(crate::proofs::ShapeLemmas::two_written))]
    fn write(&self, text: &mut TokenText) -> Result<(), AllocError> {
        text.begin_object()?;
        text_member(text, "lang", self.lang.as_str())?;
        text_member(text, "text", self.text.as_str())?;
        text.end_object()
    }
}

/// Writes the display names of a mapping, if it has any (RFC 5222, section 5.3).
fn names_member(text: &mut TokenText, mapping: &Mapping) -> Result<(), AllocError>
    ensures { OnOk result
        (text.new ≡ then_member_if (codes "displayName") (display_names_data mapping.now.display_names) text.old) }
{
    list_member_if_any(text, "displayName", mapping.display_names())
}

/// The text that says until when a mapping holds (RFC 5222, section 5.2).
fn expires_text(expires: &Expires) -> &str
    ensures { result.now ≡ text_of_expires (expires_seen expires.now) }
{
    match expires {
        Expires::NoCache => "NO-CACHE",
        Expires::NoExpiration => "NO-EXPIRATION",
        Expires::At(stamp) => stamp.text(),
    }
}

/// Writes until when a mapping holds (RFC 5222, section 5.2).
fn expires_member(text: &mut TokenText, mapping: &Mapping) -> Result<(), AllocError>
    ensures { OnOk result
        (text.new ≡ then_member (codes "expires") (string (text_of_expires mapping.now.expires)) text.old) }
{
    text_member(text, "expires", expires_text(mapping.expires()))
}

/// Writes when a mapping was last changed (RFC 5222, section 5.1).
fn updated_member(text: &mut TokenText, mapping: &Mapping) -> Result<(), AllocError>
    ensures { OnOk result
        (text.new ≡ then_member (codes "lastUpdated") (string mapping.now.stamp.text) text.old) }
{
    text_member(text, "lastUpdated", mapping.stamp().text())
}

/// Writes the service of a mapping (RFC 5222, section 5.4).
fn service_member(text: &mut TokenText, mapping: &Mapping) -> Result<(), AllocError>
    ensures { OnOk result
        (text.new ≡ then_member (codes "service") (string (service_text mapping.now.service)) text.old) }
{
    text_member(text, "service", mapping.service().text())
}

/// Writes the source of a mapping (RFC 5222, section 5.1).
fn source_member(text: &mut TokenText, mapping: &Mapping) -> Result<(), AllocError>
    ensures { OnOk result (text.new ≡ then_member (codes "source") (string mapping.now.source) text.old) }
{
    text_member(text, "source", mapping.identity().source().text())
}

/// Writes the name of a mapping at its source (RFC 5222, section 5.1).
fn source_id_member(text: &mut TokenText, mapping: &Mapping) -> Result<(), AllocError>
    ensures { OnOk result
        (text.new ≡ then_member (codes "sourceId") (string mapping.now.source_id) text.old) }
{
    text_member(text, "sourceId", mapping.identity().source_id())
}

/// Writes the URIs of the service (RFC 5222, section 5.8).
fn uris_member(text: &mut TokenText, mapping: &Mapping) -> Result<(), AllocError>
    ensures { OnOk result
        (text.new ≡ then_member (codes "uri") (texts_data mapping.now.uris) text.old) }
{
    texts_member(text, "uri", mapping.uris())
}

/// Writes the boundary by value, if it is shown so (RFC 5222, section 5.5).
fn boundary_member(
    text: &mut TokenText,
    mapping: &Mapping,
    boundary: Boundary,
) -> Result<(), AllocError>
    ensures { OnOk result
        (text.new ≡ then_member_if (codes "serviceBoundary") (value_data (boundary_of boundary mapping.now)) text.old) }
{
    match boundary {
        Boundary::ByReference => Ok(()),
        Boundary::ByValue(kind) => {
            text.name("serviceBoundary")?;
            write_regions_of(text, kind, mapping.regions())
        }
    }
}

/// Writes a key and its source (RFC 5222, section 5.6).
#[tactic(auto, using(crate::proofs::ShapeLemmas::two_written))]
fn write_key(text: &mut TokenText, key: &str, source: &str) -> Result<(), AllocError>
    ensures { OnOk result (text.new ≡ then_value (key_data key.now source.now) text.old) }
{
    text.begin_object()?;
    text_member(text, "key", key)?;
    text_member(text, "source", source)?;
    text.end_object()
}

/// Writes the key of a mapping and its source, if the mapping has a key (RFC 5222, section 5.6).
fn key_member(text: &mut TokenText, mapping: &Mapping) -> Result<(), AllocError>
    ensures { OnOk result (text.new ≡ then_member_if (codes "serviceBoundaryReference")
        (reference_data (reference_of mapping.now.key mapping.now.source)) text.old) }
{
    match mapping.key() {
        Some(key) => {
            text.name("serviceBoundaryReference")?;
            write_key(text, key, mapping.identity().source().text())
        }
        None => Ok(()),
    }
}

/// Writes the boundary by reference, if it is shown so (RFC 5222, section 5.6).
fn reference_member(
    text: &mut TokenText,
    mapping: &Mapping,
    boundary: Boundary,
) -> Result<(), AllocError>
    ensures { OnOk result (text.new ≡ then_member_if (codes "serviceBoundaryReference")
        (reference_data (boundary_of boundary mapping.now)) text.old) }
{
    match boundary {
        Boundary::ByReference => key_member(text, mapping),
        Boundary::ByValue(_) => Ok(()),
    }
}

/// Writes the number to dial, if there is one (RFC 5222, section 5.7).
fn number_member(text: &mut TokenText, mapping: &Mapping) -> Result<(), AllocError>
    ensures { OnOk result
        (text.new ≡ then_member_if (codes "serviceNumber") (option_map string mapping.now.number) text.old) }
{
    match mapping.number() {
        Some(number) => text_member(text, "serviceNumber", number),
        None => Ok(()),
    }
}

/// Writes the boundary of a mapping by value or by reference, and none for a default (RFC 5222, section 8.3.4).
fn shown_members(
    text: &mut TokenText,
    mapping: &Mapping,
    boundary: Boundary,
) -> Result<(), AllocError>
    ensures { OnOk result (text.new
        ≡ then_member_if (codes "serviceBoundaryReference") (reference_data (shown_with boundary mapping.now).boundary)
        (then_member_if (codes "serviceBoundary") (value_data (shown_with boundary mapping.now).boundary) text.old)) }
{
    if mapping.is_default() {
        return Ok(());
    }
    boundary_member(text, mapping, boundary)?;
    reference_member(text, mapping, boundary)
}

/// Writes a mapping with the boundary of this kind, and none for a default (RFC 5222, section 8.4.1).
pub(crate) fn write_mapping(
    text: &mut TokenText,
    mapping: &Mapping,
    boundary: Boundary,
) -> Result<(), AllocError>
    ensures { OnOk result
        (text.new ≡ then_value (shown_data (shown_with boundary mapping.now)) text.old) }
{
    text.begin_object()?;
    names_member(text, mapping)?;
    expires_member(text, mapping)?;
    updated_member(text, mapping)?;
    service_member(text, mapping)?;
    shown_members(text, mapping, boundary)?;
    number_member(text, mapping)?;
    source_member(text, mapping)?;
    source_id_member(text, mapping)?;
    uris_member(text, mapping)?;
    text.end_object()
}

/// Writes each mapping with the boundary of this kind, without the brackets of a list.
fn write_mappings(
    text: &mut TokenText,
    mappings: &[Mapping],
    boundary: Boundary,
) -> Result<(), AllocError>
    ensures { OnOk result
        (text.new ≡ then_values (map (λ m. shown_data (shown_with boundary m)) mappings.now) text.old) }
{
    for mapping in mappings {
        write_mapping(text, mapping, boundary)?;
    }
    Ok(())
}

/// Writes the list of the mappings found (RFC 5222, section 8.4).
pub(crate) fn write_found_mappings(
    text: &mut TokenText,
    found: &FoundMappings,
) -> Result<(), AllocError>
    ensures { OnOk result
        (text.new ≡ then_value (list_data shown_data (all_shown_of found.now)) text.old) }
{
    text.begin_list()?;
    write_mapping(text, &found.first, found.boundary)?;
    write_mappings(text, &found.rest, found.boundary)?;
    text.end_list()
}
