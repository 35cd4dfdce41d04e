//! The names of errors and warnings.
ghost use Rattle.std.specs.Prelude.{◌≡◌};
ghost use Rattle.lost_writing.specs.Replies.{error_name as error_text, warning_name as warning_text};

use lost_mapping::{AnswerError, Warning};

/// The name of an error (RFC 5222, section 13.1).
pub(crate) fn error_name(error: AnswerError) -> &'static str
    ensures { result.now ≡ error_text error }
{
    match error {
        AnswerError::Loop => "loop",
        AnswerError::LocationProfileUnrecognized => "locationProfileUnrecognized",
        AnswerError::SrsInvalid => "SRSInvalid",
        AnswerError::LocationInvalid => "locationInvalid",
        AnswerError::NotFound => "notFound",
        AnswerError::ServiceNotImplemented => "serviceNotImplemented",
    }
}

/// The name of a warning (RFC 5222, section 13.2).
pub(crate) fn warning_name(warning: Warning) -> &'static str
    ensures { result.now ≡ warning_text warning }
{
    match warning {
        Warning::ServiceSubstitution => "serviceSubstitution",
        Warning::DefaultMappingReturned => "defaultMappingReturned",
        Warning::LocationValidationUnavailable => "locationValidationUnavailable",
    }
}
