//! The reply to getServiceBoundary (RFC 5222, section 9).
ghost use Rattle.std.specs.Prelude.{◌≡◌, IfOk};
ghost use Rattle.lost_spec.specs.Services.{by_key};
ghost use Rattle.lost_spec.specs.Answer.{boundary_reply};
ghost use Rattle.lost_mapping.specs.Reply.{reply_of};
ghost use Rattle.lost_mapping.specs.Path.{shown_path};

use crate::holdings::Holdings;
use crate::refusals::refusal;
use lost_mapping::{Moment, Path, Reply};
use lost_spec::answers::AnswerError;
use std::alloc::AllocError;

/// The reply to getServiceBoundary: the regions of the live mapping that has the key, or `notFound` (RFC 5222, section
/// 9; keys own).
pub(crate) fn get_boundary<'a, H: Holdings>(
    holdings: &H,
    moment: &Moment,
    path: &Path<'a>,
    key: &str,
) -> Result<Reply<'a>, AllocError>
    ensures { IfOk result (λ reply. reply_of reply
        ≡ boundary_reply (H.book holdings.now).edits (shown_path path.now) (by_key (H.book holdings.now) moment.now key.now)) }
{
    let Some(position) = holdings.by_key(moment, key) else {
        return Ok(refusal(holdings, AnswerError::NotFound));
    };
    Ok(Reply::GetServiceBoundaryResponse {
        edition: holdings.edition(),
        path: *path,
        mapping: holdings.mapping(position).clone()?,
    })
}
