//! What a map desk hands in for a mapping, as plain texts and lists that nothing has checked yet.

use lost_location::Region;

/// The parts of a mapping (RFC 5222, section 5).
#[derive(Debug, Drop)]
pub struct Parts {
    /// The name of the server that the mapping comes from (RFC 5222, section 5.1).
    pub source: String,
    /// What names the mapping at its source (RFC 5222, section 5.1).
    pub source_id: String,
    /// When the mapping was last changed (RFC 5222, section 5.1).
    pub last_updated: String,
    /// `NO-CACHE`, `NO-EXPIRATION`, or until when the mapping holds (RFC 5222, section 5.2).
    pub expires: String,
    /// The service URN (RFC 5222, section 5.4).
    pub service: String,
    /// Where the service is reached (RFC 5222, section 5.8).
    pub uris: Vec<String>,
    /// The number to dial for the service (RFC 5222, section 5.7).
    pub number: Option<String>,
    /// Where the mapping holds (RFC 5222, section 5.5).
    pub regions: Vec<Region>,
    /// Whether the mapping is given where no other holds.
    pub is_default: bool,
    /// Names to show for the service (RFC 5222, section 5.3).
    pub display_names: Vec<DisplayName>,
    /// What names the regions (RFC 5222, section 5.6).
    pub key: Option<String>,
}

impl Parts {
    ghost use Rattle.std.specs.Prelude.{◌≡◌, string_bytes};
    ghost use Rattle.lost_location.specs.Region.{region_of};
    ghost use Rattle.lost_mapping.specs.Parts.{display_name_of, parts_of, borrowed_parts_of};

    /// The same parts, borrowed.
    pub fn borrowed(&self) -> BorrowedParts<'_, String, Region, DisplayName>
        ensures { borrowed_parts_of string_bytes region_of display_name_of result ≡ parts_of self.now }
    {
        BorrowedParts {
            source: self.source.as_str(),
            source_id: self.source_id.as_str(),
            last_updated: self.last_updated.as_str(),
            expires: self.expires.as_str(),
            service: self.service.as_str(),
            uris: self.uris.as_slice(),
            number: self.number.as_deref(),
            regions: self.regions.as_slice(),
            is_default: self.is_default,
            display_names: self.display_names.as_slice(),
            key: self.key.as_deref(),
        }
    }
}

/// The parts of a mapping where they lie, to be checked before memory is taken: the fields of [`Parts`], in lists of
/// any items that hold the URIs, the regions and the display names.
#[derive(Drop)]
pub struct BorrowedParts<'a, U, R, N> {
    /// The name of the server that the mapping comes from (RFC 5222, section 5.1).
    pub source: &'a str,
    /// What names the mapping at its source (RFC 5222, section 5.1).
    pub source_id: &'a str,
    /// When the mapping was last changed (RFC 5222, section 5.1).
    pub last_updated: &'a str,
    /// `NO-CACHE`, `NO-EXPIRATION`, or until when the mapping holds (RFC 5222, section 5.2).
    pub expires: &'a str,
    /// The service URN (RFC 5222, section 5.4).
    pub service: &'a str,
    /// Where the service is reached (RFC 5222, section 5.8).
    pub uris: &'a [U],
    /// The number to dial for the service (RFC 5222, section 5.7).
    pub number: Option<&'a str>,
    /// Where the mapping holds (RFC 5222, section 5.5).
    pub regions: &'a [R],
    /// Whether the mapping is given where no other holds.
    pub is_default: bool,
    /// Names to show for the service (RFC 5222, section 5.3).
    pub display_names: &'a [N],
    /// What names the regions (RFC 5222, section 5.6).
    pub key: Option<&'a str>,
}

/// A name to show for the service (RFC 5222, section 5.3).
#[derive(Debug)]
pub struct DisplayName {
    /// The language of the text.
    pub lang: String,
    /// The name itself.
    pub text: String,
}

impl Drop for DisplayName {
    fn drop(self) {
        let DisplayName { lang: _, text: _ } = self;
    }
}
