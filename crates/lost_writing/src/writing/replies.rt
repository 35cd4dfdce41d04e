//! The tokens of replies.
ghost use Rattle.std.specs.Prelude.{◌≡◌, OnOk, option_map, codes};
ghost use Rattle.lost_spec.specs.Request as spec;
ghost use Rattle.lost_mapping.specs.Path.{shown_path};
ghost use Rattle.lost_mapping.specs.Reply.{all_shown_of, validation_of, reply_of};
ghost use Rattle.lost_writing.specs.Replies.{list_data, shown_data, validation_data, warnings_data, services_data, warning_name as warning_text, error_data, reply_data};
ghost use Rattle.lost_writing.specs.Tokens.{then_begun, then_ended, then_member, then_member_if, then_value};

use crate::token_text::TokenText;
use crate::writing::lists::Written;
use crate::writing::mappings::write_found_mappings;
use crate::writing::members::{
    count_member, list_member, list_member_if_any, path_member, text_member, texts_member,
};
use crate::writing::names::{error_name, warning_name};
use crate::writing::regions::write_regions;
use lost_mapping::{AnswerError, FoundMappings, Mapping, Path, Reply, Validation, Warning};
use lost_urn::ServiceUrn;
use std::alloc::AllocError;

impl Written for ServiceUrn {
    ghost use Rattle.serde_json.specs.Data.{string};
    ghost use Rattle.lost_spec.specs.Service.{service_text};

    ghost tree = { λ service. string (service_text service) };

    fn write(&self, text: &mut TokenText) -> Result<(), AllocError> {
        text.text(self.text())
    }
}

impl Written for Warning {
    ghost use Rattle.serde_json.specs.Data.{string};

    ghost tree = { λ warning. string (warning_text warning) };

    fn write(&self, text: &mut TokenText) -> Result<(), AllocError> {
        text.text(warning_name(*self))
    }
}

/// Writes the names of an address's elements by how they were judged (RFC 5222, section 8.4.2).
fn write_validation(text: &mut TokenText, judged: &Validation) -> Result<(), AllocError>
    ensures { OnOk result (text.new ≡ then_value (validation_data (validation_of judged.now)) text.old) }
{
    text.begin_object()?;
    texts_member(text, "invalid", &judged.invalid)?;
    texts_member(text, "unchecked", &judged.unchecked)?;
    texts_member(text, "valid", &judged.valid)?;
    text.end_object()
}

/// Writes how an address was judged, if it was.
fn validation_member(text: &mut TokenText, judged: &Option<Validation>) -> Result<(), AllocError>
    ensures { OnOk result (text.new ≡ then_member_if (codes "locationValidation")
        (option_map validation_data (option_map validation_of judged.now)) text.old) }
{
    match judged {
        Some(judged) => {
            text.name("locationValidation")?;
            write_validation(text, judged)
        }
        None => Ok(()),
    }
}

/// Writes the warnings, if there are any (RFC 5222, section 13.2).
fn warnings_member(text: &mut TokenText, warnings: &[Warning]) -> Result<(), AllocError>
    ensures { OnOk result
        (text.new ≡ then_member_if (codes "warnings") (warnings_data warnings.now) text.old) }
{
    list_member_if_any(text, "warnings", warnings)
}

/// Writes the mappings of a reply.
fn mappings_member(text: &mut TokenText, mappings: &FoundMappings) -> Result<(), AllocError>
    ensures { OnOk result (text.new
        ≡ then_member (codes "mapping") (list_data shown_data (all_shown_of mappings.now)) text.old) }
{
    text.name("mapping")?;
    write_found_mappings(text, mappings)
}

/// Writes the services of a reply.
fn services_member(text: &mut TokenText, services: &[ServiceUrn]) -> Result<(), AllocError>
    ensures { OnOk result
        (text.new ≡ then_member (codes "serviceList") (services_data services.now) text.old) }
{
    list_member(text, "serviceList", services)
}

/// Opens an object whose one member has this name and is an object.
fn begin(text: &mut TokenText, name: &str) -> Result<(), AllocError>
    ensures { OnOk result (text.new ≡ then_begun name.now text.old) }
{
    text.begin_object()?;
    text.name(name)?;
    text.begin_object()
}

/// Closes both objects.
fn end(text: &mut TokenText) -> Result<(), AllocError>
    ensures { OnOk result (text.new ≡ then_ended text.old) }
{
    text.end_object()?;
    text.end_object()
}

/// Writes the reply with the mappings found (RFC 5222, section 8.4).
fn write_found(
    text: &mut TokenText,
    edition: u64,
    location_used: &str,
    judged: &Option<Validation>,
    mappings: &FoundMappings,
    path: &Path<'_>,
    warnings: &[Warning],
) -> Result<(), AllocError>
    ensures { OnOk result (text.new ≡ then_value (reply_data (spec.FindServiceResponse edition location_used.now
        (option_map validation_of judged.now) (all_shown_of mappings.now) (shown_path path.now) warnings.now)) text.old) }
{
    begin(text, "findServiceResponse")?;
    count_member(text, "edition", edition)?;
    text_member(text, "locationUsed", location_used)?;
    validation_member(text, judged)?;
    mappings_member(text, mappings)?;
    path_member(text, path)?;
    warnings_member(text, warnings)?;
    end(text)
}

/// Writes the services at the location (RFC 5222, section 11).
fn write_services_at(
    text: &mut TokenText,
    edition: u64,
    location_used: &str,
    path: &Path<'_>,
    services: &[ServiceUrn],
) -> Result<(), AllocError>
    ensures { OnOk result (text.new ≡ then_value (reply_data
        (spec.ListServicesByLocationResponse edition location_used.now (shown_path path.now) services.now)) text.old) }
{
    begin(text, "listServicesByLocationResponse")?;
    count_member(text, "edition", edition)?;
    text_member(text, "locationUsed", location_used)?;
    path_member(text, path)?;
    services_member(text, services)?;
    end(text)
}

/// Writes the services anywhere (RFC 5222, section 10).
fn write_services_anywhere(
    text: &mut TokenText,
    edition: u64,
    path: &Path<'_>,
    services: &[ServiceUrn],
) -> Result<(), AllocError>
    ensures { OnOk result (text.new ≡ then_value
        (reply_data (spec.ListServicesResponse edition (shown_path path.now) services.now)) text.old) }
{
    begin(text, "listServicesResponse")?;
    count_member(text, "edition", edition)?;
    path_member(text, path)?;
    services_member(text, services)?;
    end(text)
}

/// Writes all regions of a mapping, in the order of their kinds (RFC 5222, section 9).
fn write_all_regions(
    text: &mut TokenText,
    edition: u64,
    path: &Path<'_>,
    mapping: &Mapping,
) -> Result<(), AllocError>
    ensures { OnOk result (text.new ≡ then_value (reply_data (spec.GetServiceBoundaryResponse edition
        (shown_path path.now) mapping.now.regions)) text.old) }
{
    begin(text, "getServiceBoundaryResponse")?;
    count_member(text, "edition", edition)?;
    path_member(text, path)?;
    text.name("serviceBoundary")?;
    write_regions(text, mapping.regions())?;
    end(text)
}

/// Writes an error of an answer (RFC 5222, section 13.1).
fn write_answer_error(
    text: &mut TokenText,
    edition: u64,
    error: AnswerError,
) -> Result<(), AllocError>
    ensures { OnOk result (text.new ≡ then_value (reply_data (spec.Errors edition error)) text.old) }
{
    begin(text, "errors")?;
    count_member(text, "edition", edition)?;
    text_member(text, "error", error_name(error))?;
    end(text)
}

/// Writes an error without an edition (RFC 5222, section 13.1).
fn write_error(text: &mut TokenText, name: &str) -> Result<(), AllocError>
    ensures { OnOk result (text.new ≡ then_value (error_data name.now) text.old) }
{
    begin(text, "errors")?;
    text_member(text, "error", name)?;
    end(text)
}

/// Writes a reply (RFC 5222, sections 8.4, 9 to 11 and 13; own format).
pub(crate) fn write_tree(text: &mut TokenText, reply: &Reply<'_>) -> Result<(), AllocError>
    ensures { OnOk result (text.new ≡ then_value (reply_data (reply_of reply.now)) text.old) }
{
    match reply {
        Reply::FindServiceResponse {
            edition,
            location_used,
            validation,
            mappings,
            path,
            warnings,
        } => write_found(
            text,
            *edition,
            location_used,
            validation,
            mappings,
            path,
            warnings,
        ),
        Reply::ListServicesByLocationResponse {
            edition,
            location_used,
            path,
            services,
        } => write_services_at(text, *edition, location_used, path, services),
        Reply::ListServicesResponse {
            edition,
            path,
            services,
        } => write_services_anywhere(text, *edition, path, services),
        Reply::GetServiceBoundaryResponse {
            edition,
            path,
            mapping,
        } => write_all_regions(text, *edition, path, mapping),
        Reply::Errors { edition, error } => write_answer_error(text, *edition, *error),
        Reply::BadRequest => write_error(text, "badRequest"),
        Reply::InternalError => write_error(text, "internalError"),
    }
}
