//! When a mapping expires.
ghost use Rattle.std.specs.Prelude.{◌≡◌, ◌↔◌, false, IsTrue, IfOk, IsOkUnless};
ghost use Rattle.lost_spec.specs.Mapping.{is_expires, expires_of, is_unexpired};

use crate::moment::Moment;
use crate::stamp::Stamp;
use lost_spec::faults::{MappingError, StampError};
use std::alloc::{AllocError, Global};

/// When a mapping expires (RFC 5222, section 5.2).
#[derive(Debug)]
pub enum Expires {
    /// Never, and an answer with the mapping is not to be cached.
    NoCache,
    /// Never.
    NoExpiration,
    /// At the instant of a stamp.
    At(Stamp),
}

impl Drop for Expires {
    fn drop(self) {
        match self {
            Expires::NoCache => {}
            Expires::NoExpiration => {}
            Expires::At(_) => {}
        }
    }
}

impl Expires {
    ghost use Rattle.lost_mapping.specs.Expires.{expires_seen};

    /// Reads `NO-CACHE`, `NO-EXPIRATION` or a stamp. Any other text is refused as `BadExpires`.
    pub(crate) fn parse(alloc: Global, text: &str) -> Result<Expires, MappingError>
        ensures bad { (result ≡ Err MappingError.BadExpires) ↔ (is_expires text.now ≡ false) }
        ensures accepted { IsTrue (is_expires text.now) → IsOkUnless result MappingError.Memory }
        ensures value { IfOk result (λ e. expires_seen e ≡ expires_of text.now) }
    {
        if text == "NO-CACHE" {
            return Ok(Expires::NoCache);
        }
        if text == "NO-EXPIRATION" {
            return Ok(Expires::NoExpiration);
        }
        match Stamp::parse(alloc, text.as_bytes()) {
            Ok(stamp) => Ok(Expires::At(stamp)),
            Err(StampError::Bad) => Err(MappingError::BadExpires),
            Err(StampError::Memory) => Err(MappingError::Memory),
        }
    }

    /// Whether a text is `NO-CACHE`, `NO-EXPIRATION` or a stamp. It takes no memory.
    pub(crate) fn is_expires(text: &str) -> bool
        ensures { result ≡ is_expires text.now }
    {
        text == "NO-CACHE" || text == "NO-EXPIRATION" || Stamp::is_stamp(text.as_bytes())
    }

    /// Whether a mapping with this expiry is live at an instant: always with one of the two words, and else before the
    /// stamp's instant.
    pub fn is_live_at(&self, now: &Moment) -> bool
        ensures { result ≡ is_unexpired (expires_seen self.now) now.now }
    {
        match self {
            Expires::NoCache | Expires::NoExpiration => true,
            Expires::At(stamp) => now.is_earlier(&stamp.moment()),
        }
    }

    /// A copy.
    pub fn clone(&self) -> Result<Expires, AllocError>
        ensures { IfOk result (λ e. expires_seen e ≡ expires_seen self.now) }
    {
        match self {
            Expires::NoCache => Ok(Expires::NoCache),
            Expires::NoExpiration => Ok(Expires::NoExpiration),
            Expires::At(stamp) => Ok(Expires::At(stamp.clone()?)),
        }
    }
}
