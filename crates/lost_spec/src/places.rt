//! The kinds of places.

/// A kind of place, of which requests have locations and mappings have regions. Each has a profile of its own (RFC 5222,
/// section 12.1).
#[derive(Clone, Copy, PartialEq, Eq, Debug)]
pub enum PlaceKind {
    /// Points and polygons, the profile `geodetic-2d` (RFC 5222, section 12.2).
    Geodetic2d,
    /// Civic addresses and patterns, the profile `civic` (RFC 5222, section 12.3).
    Civic,
    /// Tokens and sets of them, the profile `x-token` (own).
    XToken,
}
