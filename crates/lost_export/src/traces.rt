//! The lines that make a trace: a placeholder is published, and withdrawn.
ghost use Rattle.std.specs.Prelude.{◌≡◌, None, IfOk};
ghost use Rattle.lost_spec.specs.Mapping.{parts_fault, mapping_of};
ghost use Rattle.lost_spec.specs.Book.{identity_of};
ghost use Rattle.lost_mapping.specs.Parts.{parts_of};
ghost use Rattle.lost_export.specs.ReadBack.{IsBuilt, ReadsBack, WithdrawalReadsBack};
ghost use Rattle.lost_export.specs.Traces.{earliest, placeholder_of, trace_text};

use crate::publish::publish_line;
use crate::withdraw::withdraw_line;
use lost_mapping::{Identity, Mapping, MappingError, Parts, Stamp};
use std::alloc::{AllocError, Global};

/// The parts of the placeholder of an identity.
fn placeholder_parts(alloc: Global, identity: &Identity) -> Result<Parts, AllocError>
    ensures accepted { IfOk result (λ parts. parts_fault (parts_of parts) ≡ None) }
    ensures mapping { IfOk result (λ parts. mapping_of (parts_of parts) ≡ placeholder_of identity.now) }
{
    let source = identity.source().text();
    let source_id = identity.source_id();
    Ok(Parts {
        source: String::from_str(alloc, source)?,
        source_id: String::from_str(alloc, source_id)?,
        last_updated: String::from_str(alloc, "0001-01-01T00:00:00Z")?,
        expires: String::from_str(alloc, "NO-EXPIRATION")?,
        service: String::from_str(alloc, "urn:service:sos")?,
        uris: vec![in alloc; String::from_str(alloc, "about:blank")?]?,
        number: None,
        regions: Vec::new(alloc),
        is_default: true,
        display_names: Vec::new(alloc),
        key: None,
    })
}

/// The mapping that is published so that its withdrawal leaves the trace of an identity (own): a default, with no
/// region, no key and no end, of the earliest stamp.
///
/// # Errors
///
/// [`AllocError`] where there is no memory for the mapping.
pub fn placeholder(alloc: Global, identity: &Identity) -> Result<Mapping, AllocError>
    ensures mapping { IfOk result (λ mapping. mapping ≡ placeholder_of identity.now) }
    ensures identity { IfOk result (λ mapping. identity_of mapping ≡ identity.now) }
    ensures no_key { IfOk result (λ mapping. mapping.key ≡ None) }
    ensures stamp { IfOk result (λ mapping. mapping.stamp ≡ earliest) }

    // Its line reads back.
    ensures is_built { IfOk result (λ mapping. IsBuilt mapping) }
{
    let parts = placeholder_parts(alloc, identity)?;
    match Mapping::build(alloc, parts) {
        Ok(mapping) => Ok(mapping),
        Err(MappingError::Memory) => Err(AllocError),
        Err(_) => unreachable!(),
    }
}

/// The two desk lines that make the trace of an identity and a stamp, each with its byte 10: a publish of the
/// placeholder, and its withdrawal (own format).
///
/// # Errors
///
/// [`AllocError`] where there is no memory for the lines.
pub fn trace_lines(alloc: Global, identity: &Identity, stamp: &Stamp) -> Result<Vec<u8>, AllocError>
    ensures text { IfOk result (λ lines. lines.items ≡ trace_text (identity.now, stamp.now)) }

    // A reader of desk lines reads both.
    ensures published { IfOk result (λ lines. ReadsBack (placeholder_of identity.now)) }
    ensures withdrawn { IfOk result (λ lines. WithdrawalReadsBack identity.now stamp.now) }
{
    let mapping = placeholder(alloc, identity)?;
    let mut lines = publish_line(alloc, &mapping)?;
    let withdraw = withdraw_line(alloc, identity, stamp)?;
    lines.extend_from_slice(withdraw.as_slice())?;
    Ok(lines)
}
