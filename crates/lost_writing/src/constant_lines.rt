//! Lines that are the same each time.
ghost use Rattle.std.specs.Prelude.{◌≡◌};
ghost use Rattle.lost_spec.specs.Request.{BadRequest, InternalError};
ghost use Rattle.lost_writing.specs.Replies.{reply_text};

/// The line of the error `internalError` (RFC 5222, section 13.1).
pub const INTERNAL_ERROR: &[u8] = b"{\"errors\":{\"error\":\"internalError\"}}\n";

/// The line of the error `badRequest` (RFC 5222, section 13.1).
pub const BAD_REQUEST: &[u8] = b"{\"errors\":{\"error\":\"badRequest\"}}\n";

/// The two lines above are those of the replies `internalError` and `badRequest`.
#[tactic(auto, unfolding(crate::specs::Replies::reply_text, serde_json::proofs::OnLiterals::serde_json_on_literals))]
pub fn law_constant_lines()
    ensures internal_error { INTERNAL_ERROR.now ≡ reply_text InternalError }
    ensures bad_request { BAD_REQUEST.now ≡ reply_text BadRequest }
{}
