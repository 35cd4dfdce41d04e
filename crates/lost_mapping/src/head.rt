//! The head of a mapping: its identity, when it was changed, when it expires, and its service.
ghost use Rattle.std.specs.Prelude.{◌≡◌, not, is_err, IfOk};
ghost use Rattle.std.specs.Result.{result_err};
ghost use Rattle.lost_spec.specs.Text.{lowered};
ghost use Rattle.lost_spec.specs.Service.{read_service as read_service_text};
ghost use Rattle.lost_spec.specs.Moment.{is_stamp, stamp_of};
ghost use Rattle.lost_spec.specs.Mapping.{expires_of};
ghost use Rattle.lost_mapping.specs.Expires.{expires_seen};
ghost use Rattle.lost_location.specs.Refusals.{Refuses, fault_if};
ghost use Rattle.lost_mapping.specs.Faults.{terms_fault, head_fault_of, head_fault};
ghost use Rattle.lost_mapping.specs.Parts.{parts_of};

use crate::expires::Expires;
use crate::identity::Identity;
use crate::parts::Parts;
use crate::stamp::Stamp;
use lost_spec::faults::{MappingError, StampError, UrnError};
use lost_urn::ServiceUrn;
use std::alloc::Global;

/// The identity, the stamp, the expiry and the service of a mapping (RFC 5222, sections 5.1, 5.2 and 5.4).
#[derive(Drop)]
pub(crate) struct Head {
    pub identity: Identity,
    pub stamp: Stamp,
    pub expires: Expires,
    pub service: ServiceUrn,
}

impl Head {
    /// Reads the source, the sourceId, the stamp, the expiry and the service, and refuses the first that is bad.
    pub(crate) fn read(alloc: Global, parts: &Parts) -> Result<Head, MappingError>
        ensures source { IfOk result (λ head. head.identity.source ≡ lowered (parts_of parts.now).source) }
        ensures source_id { IfOk result (λ head. head.identity.source_id ≡ (parts_of parts.now).source_id) }
        ensures stamp { IfOk result (λ head. head.stamp ≡ stamp_of (parts_of parts.now).last_updated) }
        ensures expires { IfOk result (λ head. expires_seen head.expires ≡ expires_of (parts_of parts.now).expires) }
        ensures service { IfOk result (λ head. read_service_text (parts_of parts.now).service ≡ Ok head.service) }
        ensures refuses { Refuses result (head_fault (parts_of parts.now)) }
    {
        let identity = Identity::parse(alloc, parts.source.as_str(), parts.source_id.as_str())?;
        let stamp = read_stamp(alloc, parts.last_updated.as_str())?;
        let expires = Expires::parse(alloc, parts.expires.as_str())?;
        let service = read_service(alloc, parts.service.as_str())?;
        Ok(Head {
            identity,
            stamp,
            expires,
            service,
        })
    }

    /// Refuses the first bad one of the source, sourceId, stamp, expiry and service. It takes no memory.
    pub(crate) fn check(
        source: &str,
        source_id: &str,
        last_updated: &str,
        expires: &str,
        service: &str,
    ) -> Result<(), MappingError>
        ensures { result_err result ≡ head_fault_of source.now source_id.now last_updated.now expires.now service.now }
    {
        Identity::check(source, source_id)?;
        check_terms(last_updated, expires, service)
    }
}

/// Refuses the first bad one of the stamp, expiry and service.
fn check_terms(last_updated: &str, expires: &str, service: &str) -> Result<(), MappingError>
    ensures { result_err result ≡ terms_fault last_updated.now expires.now service.now }
{
    if !Stamp::is_stamp(last_updated.as_bytes()) {
        return Err(MappingError::BadStamp);
    }
    if !Expires::is_expires(expires) {
        return Err(MappingError::BadExpires);
    }
    if !is_service(service) {
        return Err(MappingError::BadService);
    }
    Ok(())
}

fn is_service(text: &str) -> bool
    ensures { result ≡ not (is_err (read_service_text text.now)) }
{
    ServiceUrn::check(text.as_bytes()).is_ok()
}

fn read_stamp(alloc: Global, text: &str) -> Result<Stamp, MappingError>
    ensures stamp { IfOk result (λ stamp. stamp ≡ stamp_of text.now) }
    ensures refuses { Refuses result (fault_if (not (is_stamp text.now)) MappingError.BadStamp) }
{
    match Stamp::parse(alloc, text.as_bytes()) {
        Ok(stamp) => Ok(stamp),
        Err(StampError::Bad) => Err(MappingError::BadStamp),
        Err(StampError::Memory) => Err(MappingError::Memory),
    }
}

fn read_service(alloc: Global, text: &str) -> Result<ServiceUrn, MappingError>
    ensures service { IfOk result (λ service. read_service_text text.now ≡ Ok service) }
    ensures refuses { Refuses result (fault_if (is_err (read_service_text text.now)) MappingError.BadService) }
{
    match ServiceUrn::parse(alloc, text.as_bytes()) {
        Ok(service) => Ok(service),
        Err(UrnError::Memory) => Err(MappingError::Memory),
        Err(_) => Err(MappingError::BadService),
    }
}
