//! How to read the parts of a mapping from the items of lists, so that one check serves parts wherever they lie.
ghost use Rattle.std.specs.Prelude.{string_bytes};
ghost use Rattle.lost_location.specs.Region.{region_of};
ghost use Rattle.lost_mapping.specs.Parts.{display_name_of};

use crate::parts::{DisplayName, Parts};
use lost_location::{PlaceKind, Region};

/// How to read the URIs, the regions and the display names of a mapping from the items of lists.
pub trait PartItems {
    ghost use Rattle.std.specs.Prelude.{◌≡◌};
    ghost use Rattle.lost_spec.specs.Mapping as spec;
    ghost use Rattle.lost_spec.specs.Place as places;
    ghost use Rattle.lost_spec.specs.Text.{Text};
    ghost use Rattle.lost_location.specs.Region.{region_kind as kind_of_region};

    /// An item that holds a URI.
    type Uri;

    /// An item that holds a region.
    type Region;

    /// An item that holds a display name.
    type DisplayName;

    // The text of a URI.
    ghost uri_of: { Self.Uri → Text };

    // The region of an item.
    ghost region_of: { Self.Region → places.Region };

    // The display name of an item.
    ghost display_name_of: { Self.DisplayName → spec.DisplayName };

    /// The text of a URI.
    fn uri(uri: &Self::Uri) -> &str
        ensures { result.now ≡ uri_of uri.now };

    /// The kind of a region. `None` where it cannot be read or is refused (RFC 5222, section 5.5).
    fn region_kind(region: &Self::Region) -> Option<PlaceKind>
        ensures { result ≡ kind_of_region (region_of region.now) };

    /// The language of a display name (RFC 5222, section 5.3).
    fn lang(name: &Self::DisplayName) -> &str
        ensures { result.now ≡ (display_name_of name.now).lang };

    /// The text of a display name (RFC 5222, section 5.3).
    fn text(name: &Self::DisplayName) -> &str
        ensures { result.now ≡ (display_name_of name.now).text };
}

/// The lists of parts that are owned.
impl PartItems for Parts {
    type Uri = String;

    type Region = Region;

    type DisplayName = DisplayName;

    ghost uri_of = { string_bytes };

    ghost region_of = { region_of };

    ghost display_name_of = { display_name_of };

    fn uri(uri: &String) -> &str {
        uri.as_str()
    }

    fn region_kind(region: &Region) -> Option<PlaceKind> {
        region.kind()
    }

    fn lang(name: &DisplayName) -> &str {
        name.lang.as_str()
    }

    fn text(name: &DisplayName) -> &str {
        name.text.as_str()
    }
}
