//! The refusals that definitions and code share. A variant's number, where a line or a table shows one, is its `code`.

use crate::code::Coded;
use thiserror::Error;

/// Why a text is no service URN (RFC 5031, section 3; the bounds are an own rule).
#[derive(Clone, Copy, PartialEq, Eq, Debug, Error)]
pub enum UrnError {
    #[error("the text does not begin with urn:service:")]
    Prefix,
    #[error("a label is empty")]
    EmptyLabel,
    #[error("a label has a character other than ASCII letters, digits and hyphens")]
    BadCharacter,
    #[error("a label begins or ends with a hyphen")]
    HyphenAtEnd,
    #[error("a label has more than 63 characters")]
    LabelTooLong,
    #[error("there are more than 8 labels")]
    TooManyLabels,
    #[error("memory ran out")]
    Memory,
}

/// The number of the refusal, from 1 to 7 in the order of the checks.
impl Coded for UrnError {
    ghost use Rattle.lost_spec.specs.Codes.{urn_code};

    ghost code_of = { urn_code };

    fn code(self) -> u8 {
        match self {
            UrnError::Prefix => 1,
            UrnError::EmptyLabel => 2,
            UrnError::BadCharacter => 3,
            UrnError::HyphenAtEnd => 4,
            UrnError::LabelTooLong => 5,
            UrnError::TooManyLabels => 6,
            UrnError::Memory => 7,
        }
    }
}

/// Why two numbers are no point (RFC 5222, section 12.2; the unit of 1e-7 degrees is an own rule).
#[derive(Clone, Copy, PartialEq, Eq, Debug, Error)]
pub enum GeoError {
    #[error("the latitude is outside -900000000 to 900000000")]
    Latitude,
    #[error("the longitude is outside -1800000000 to 1800000000")]
    Longitude,
}

/// The number of the refusal, 1 or 2 in the order of the checks.
impl Coded for GeoError {
    ghost use Rattle.lost_spec.specs.Codes.{geo_code};

    ghost code_of = { geo_code };

    fn code(self) -> u8 {
        match self {
            GeoError::Latitude => 1,
            GeoError::Longitude => 2,
        }
    }
}

/// Why a list of points is no ring (RFC 5222, section 12.2; the greatest length is an own rule).
#[derive(Clone, Copy, PartialEq, Eq, Debug, Error)]
pub enum RingError {
    #[error("the ring has fewer than 4 positions")]
    TooShort,
    #[error("the ring does not end where it begins")]
    NotClosed,
    #[error("the ring has more than 4096 positions")]
    TooLong,
}

/// The number of the refusal, from 1 to 3 in the order of the checks.
impl Coded for RingError {
    ghost use Rattle.lost_spec.specs.Codes.{ring_code};

    ghost code_of = { ring_code };

    fn code(self) -> u8 {
        match self {
            RingError::TooShort => 1,
            RingError::NotClosed => 2,
            RingError::TooLong => 3,
        }
    }
}

/// Why a list of pairs is no civic address or no civic pattern. The numbers are not the order of the
/// checks: an address checks 3, 2, 1, 4, and a pattern 3, 2, 5, 1, 4.
#[derive(Clone, Copy, PartialEq, Eq, Debug, Error)]
pub enum CivicError {
    #[error("no name is a civic element")]
    NoKnownElement,
    #[error("a name occurs twice")]
    Repeated,
    #[error("there are more than 128 pairs, or a name or a value has more than 512 bytes")]
    TooLong,
    #[error("memory ran out")]
    Memory,
    #[error("a name is not a civic element")]
    UnknownElement,
}

/// The number of the refusal.
impl Coded for CivicError {
    ghost use Rattle.lost_spec.specs.Codes.{civic_code};

    ghost code_of = { civic_code };

    fn code(self) -> u8 {
        match self {
            CivicError::NoKnownElement => 1,
            CivicError::Repeated => 2,
            CivicError::TooLong => 3,
            CivicError::Memory => 4,
            CivicError::UnknownElement => 5,
        }
    }
}

/// Why a text is no mapping source and no server name (RFC 5222, section 5.1; own spelling).
#[derive(Clone, Copy, PartialEq, Eq, Debug, Error)]
pub enum SourceError {
    #[error("the text is not a name of labels joined by dots")]
    Bad,
    #[error("memory ran out")]
    Memory,
}

/// The number of the refusal, 1 or 2.
impl Coded for SourceError {
    ghost use Rattle.lost_spec.specs.Codes.{source_code};

    ghost code_of = { source_code };

    fn code(self) -> u8 {
        match self {
            SourceError::Bad => 1,
            SourceError::Memory => 2,
        }
    }
}

/// Why a text is no stamp (RFC 5222, sections 5.1 and 5.2; own spelling).
#[derive(Clone, Copy, PartialEq, Eq, Debug, Error)]
pub enum StampError {
    #[error("the text is not a time in UTC, such as 2026-01-01T00:00:00Z")]
    Bad,
    #[error("memory ran out")]
    Memory,
}

/// The number of the refusal, 1 or 2.
impl Coded for StampError {
    ghost use Rattle.lost_spec.specs.Codes.{stamp_code};

    ghost code_of = { stamp_code };

    fn code(self) -> u8 {
        match self {
            StampError::Bad => 1,
            StampError::Memory => 2,
        }
    }
}

/// Why a text is no token, or a list of tokens no token set (own rules).
#[derive(Clone, Copy, PartialEq, Eq, Debug, Error)]
pub enum TokenError {
    #[error("the text is no token, or the list is not of 1 to 64 tokens, each once")]
    Bad,
    #[error("memory ran out")]
    Memory,
}

/// The number of the refusal, 1 or 2.
impl Coded for TokenError {
    ghost use Rattle.lost_spec.specs.Codes.{token_code};

    ghost code_of = { token_code };

    fn code(self) -> u8 {
        match self {
            TokenError::Bad => 1,
            TokenError::Memory => 2,
        }
    }
}

/// Why the parts of a mapping are no mapping (RFC 5222, section 5; the bounds are own rules).
#[derive(Clone, Copy, PartialEq, Eq, Debug, Error)]
pub enum MappingError {
    #[error("the source is not a name of labels joined by dots")]
    BadSource,
    #[error("the sourceId is not a text of 1 to 128 bytes without control characters")]
    BadSourceId,
    #[error("lastUpdated is not a stamp")]
    BadStamp,
    #[error("expires is not a stamp, NO-CACHE or NO-EXPIRATION")]
    BadExpires,
    #[error("the service is not a service URN")]
    BadService,
    #[error("the list of URIs is empty or too long, or has a bad URI or two of one scheme")]
    BadUri,
    #[error("the service number is not a text of 1 to 64 digits, stars and hashes")]
    BadNumber,
    #[error("a region is no polygon, no civic pattern and no token set")]
    BadRegion,
    #[error("a default has a region, or a mapping that is not a default has none")]
    RegionMissing,
    #[error("there are too many polygons, patterns, token sets or display names, or a display name is too long")]
    TooLarge,
    #[error("the key is bad, a default has one, or a mapping that is not a default has none")]
    BadKey,
    #[error("memory ran out")]
    Memory,
}

/// The number of the refusal on the desk's lines: 2 to 12 in the order of the checks, and 20.
impl Coded for MappingError {
    ghost use Rattle.lost_spec.specs.Codes.{mapping_code};

    ghost code_of = { mapping_code };

    fn code(self) -> u8 {
        match self {
            MappingError::BadSource => 2,
            MappingError::BadSourceId => 3,
            MappingError::BadStamp => 4,
            MappingError::BadExpires => 5,
            MappingError::BadService => 6,
            MappingError::BadUri => 7,
            MappingError::BadNumber => 8,
            MappingError::BadRegion => 9,
            MappingError::RegionMissing => 10,
            MappingError::TooLarge => 11,
            MappingError::BadKey => 12,
            MappingError::Memory => 20,
        }
    }
}

/// Why a book refuses an edit.
#[derive(Clone, Copy, PartialEq, Eq, Debug, Error)]
pub enum EditError {
    #[error("a mapping with this source and sourceId is held")]
    IdentityHeld,
    #[error("no mapping with this source and sourceId is held")]
    IdentityUnknown,
    #[error("lastUpdated is not after that of the mapping held")]
    NotNewer,
    #[error("another mapping has the key")]
    KeyHeld,
    #[error("the regions changed and the key did not")]
    KeyUnchanged,
    #[error("the limit of mappings is reached")]
    Full,
    #[error("the limit of edits is reached")]
    EditsSpent,
    #[error("memory ran out")]
    Memory,
    #[error("the identity was withdrawn, and lastUpdated is not after that of the withdrawal")]
    Withdrawn,
    #[error("the limit of withdrawn identities is reached")]
    TracesFull,
}

/// The number of the refusal on the desk's lines, from 13 to 22. It is not the order of the checks.
impl Coded for EditError {
    ghost use Rattle.lost_spec.specs.Codes.{edit_code};

    ghost code_of = { edit_code };

    fn code(self) -> u8 {
        match self {
            EditError::IdentityHeld => 13,
            EditError::IdentityUnknown => 14,
            EditError::NotNewer => 15,
            EditError::KeyHeld => 16,
            EditError::KeyUnchanged => 17,
            EditError::Full => 18,
            EditError::EditsSpent => 19,
            EditError::Memory => 20,
            EditError::Withdrawn => 21,
            EditError::TracesFull => 22,
        }
    }
}
