//! A mapping, built from its parts.
ghost use Rattle.std.specs.Prelude.{◌≡◌, ◌≢◌, None, Err, IfOk, IfErr, IfSome, OnOk};
ghost use Rattle.std.specs.Option.{option_copied};
ghost use Rattle.std.specs.Result.{result_err};
ghost use Rattle.lost_spec.specs.Mapping.{parts_fault, mapping_of, is_live};
ghost use Rattle.lost_spec.specs.Book.{identity_of};
ghost use Rattle.lost_mapping.specs.Expires.{expires_seen};
ghost use Rattle.lost_location.specs.Refusals.{Refuses};
ghost use Rattle.lost_mapping.specs.Parts.{parts_of, borrowed_parts_of, display_names_of};
ghost use Rattle.lost_mapping.specs.Shape.{IsShaped};
ghost use Rattle.lost_mapping.specs.Shown.{reference_text};
ghost use Rattle.lost_mapping.specs.Texts.{texts_of};

use crate::checks::{check_areas, check_contact};
use crate::expires::Expires;
use crate::head::Head;
use crate::identity::Identity;
use crate::moment::Moment;
use crate::part_items::PartItems;
use crate::parts::{BorrowedParts, DisplayName, Parts};
use crate::reference_text::ReferenceText;
use crate::stamp::Stamp;
use lost_civic::CivicPattern;
use lost_geo::Polygon;
use lost_location::Regions;
use lost_profile::TokenSet;
use lost_spec::faults::MappingError;
use lost_urn::ServiceUrn;
use std::alloc::{AllocError, Global};
use std::marker::Model;
use std::sync::Arc;

/// A mapping (RFC 5222, section 5). It never changes and is shared, so a copy costs a pointer. Contracts see it as
/// the record `Mapping`.
pub struct Mapping {
    inner: Arc<Fields>,
}

impl Drop for Mapping {
    fn drop(self) {
        let Mapping { inner: _ } = self;
    }
}

#[derive(Drop)]
struct Fields {
    // What a search looks at lies together, beside the count of owners, and then what a reply takes.
    is_default: bool,
    expires: Expires,
    service: ServiceUrn,
    regions: Regions,
    reference_text: Option<ReferenceText>,
    // The rest.
    identity: Identity,
    stamp: Stamp,
    uris: Vec<String>,
    number: Option<String>,
    display_names: Vec<DisplayName>,
    key: Option<String>,
}

impl Model for Mapping {
    ghost use Rattle.std.specs.Arc.{arc_value};
    ghost use Rattle.lost_spec.specs.Mapping as spec;
    ghost use Rattle.lost_mapping.specs.Fields.{mapping_with, IsKept};

    ghost Value = { spec.Mapping };

    ghost view = { λ m. mapping_with (arc_value m.inner) };

    ghost invariant = { λ m. IsKept (arc_value m.inner) };
}

impl Mapping {
    ghost use Rattle.lost_mapping.specs.Fields.{mapping_with, IsKept};

    /// The mapping of these parts.
    ///
    /// # Errors
    ///
    /// The first that applies, in the order of the codes: [`MappingError::BadSource`] to [`MappingError::BadService`]
    /// for the text of that name, [`MappingError::BadUri`] unless there are 1 to 16 URIs and no scheme twice in any
    /// case, [`MappingError::BadNumber`], [`MappingError::BadRegion`] where a region is no polygon, no civic
    /// pattern and no token set, [`MappingError::RegionMissing`] for a default with a region or another mapping without one,
    /// [`MappingError::TooLarge`] for more than 64 polygons, 256 patterns, 64 token sets or 16 display names, or a
    /// language or text of more than 1,024 bytes in one, [`MappingError::BadKey`] where a default has a key, or another mapping has
    /// none or a bad one. [`MappingError::Memory`] comes only after the checks.
    pub fn build(alloc: Global, parts: Parts) -> Result<Mapping, MappingError>
        ensures accepted { OnOk result (parts_fault (parts_of parts) ≡ None) }
        ensures mapping { IfOk result (λ mapping. mapping ≡ mapping_of (parts_of parts)) }
        ensures refused { IfErr result (λ e. e ≢ MappingError.Memory → parts_fault (parts_of parts) ≡ Some e) }

        // Memory comes only after the checks.
        ensures checked_first { IfSome (parts_fault (parts_of parts)) (λ e. result ≡ Err e) }
    {
        Mapping::check::<Parts>(&parts.borrowed())?;
        let head = Head::read(alloc, &parts)?;
        let regions = Regions::read(alloc, parts.regions)?;
        Mapping::share(
            alloc,
            Fields {
                identity: head.identity,
                stamp: head.stamp,
                expires: head.expires,
                service: head.service,
                uris: parts.uris,
                number: parts.number,
                regions,
                is_default: parts.is_default,
                display_names: parts.display_names,
                key: parts.key,
                reference_text: None,
            },
        )
    }

    /// Ok where `build` takes these parts, else the first refusal in the order of the codes. It takes no memory. The
    /// parts may lie anywhere: `T` says how to read the items of their lists.
    ///
    /// # Errors
    ///
    /// Those of `build`, but for [`MappingError::Memory`].
    pub fn check<T: PartItems>(
        parts: &BorrowedParts<'_, T::Uri, T::Region, T::DisplayName>,
    ) -> Result<(), MappingError>
        ensures { result_err result ≡ parts_fault (borrowed_parts_of T.uri_of T.region_of T.display_name_of parts.now) }
    {
        Head::check(
            parts.source,
            parts.source_id,
            parts.last_updated,
            parts.expires,
            parts.service,
        )?;
        check_contact::<T>(parts)?;
        check_areas::<T>(parts)
    }

    /// The mapping with these fields.
    fn share(alloc: Global, fields: Fields) -> Result<Mapping, MappingError>
        requires { IsKept fields }
        ensures mapping { IfOk result (λ mapping. mapping ≡ mapping_with fields) }
        ensures refuses { Refuses result None }
    {
        match Arc::new(alloc, fields) {
            Ok(inner) => Ok(Mapping { inner }),
            Err(_) => Err(MappingError::Memory),
        }
    }

    /// The name of the mapping over the whole server (RFC 5222, section 5.1; own scope).
    pub fn identity(&self) -> &Identity
        ensures { result.now ≡ identity_of self.now }
    {
        &self.inner.identity
    }

    /// When the mapping was last changed (RFC 5222, section 5.1).
    pub fn stamp(&self) -> &Stamp
        ensures { result.now ≡ self.now.stamp }
    {
        &self.inner.stamp
    }

    /// Until when the mapping holds (RFC 5222, section 5.2).
    pub fn expires(&self) -> &Expires
        ensures { expires_seen result.now ≡ self.now.expires }
    {
        &self.inner.expires
    }

    /// The service (RFC 5222, section 5.4).
    pub fn service(&self) -> &ServiceUrn
        ensures { result.now ≡ self.now.service }
    {
        &self.inner.service
    }

    /// Where the service is reached, as given (RFC 5222, section 5.8).
    pub fn uris(&self) -> &[String]
        ensures { texts_of result.now ≡ self.now.uris }
    {
        &self.inner.uris
    }

    /// The number to dial for the service, where there is one (RFC 5222, section 5.7).
    pub fn number(&self) -> Option<&str>
        ensures { option_copied result ≡ self.now.number }
    {
        self.inner.number.as_deref()
    }

    /// Names to show for the service, as given (RFC 5222, section 5.3).
    pub fn display_names(&self) -> &[DisplayName]
        ensures { display_names_of result.now ≡ self.now.display_names }
    {
        &self.inner.display_names
    }

    /// Where the mapping holds (RFC 5222, section 5.5).
    pub fn regions(&self) -> &Regions
        ensures regions { result.now ≡ self.now.regions }
        ensures is_shaped { IsShaped self.now }
    {
        &self.inner.regions
    }

    /// The polygons where the mapping holds, in the order given (RFC 5222, section 5.5).
    pub fn polygons(&self) -> &[Polygon]
        ensures { result.now ≡ self.now.regions.polygons }
    {
        self.inner.regions.polygons()
    }

    /// The civic patterns where the mapping holds, in the order given (RFC 5222, section 5.5).
    pub fn patterns(&self) -> &[CivicPattern]
        ensures { result.now ≡ self.now.regions.patterns }
    {
        self.inner.regions.patterns()
    }

    /// The token sets where the mapping holds, in the order given.
    pub fn token_sets(&self) -> &[TokenSet]
        ensures { result.now ≡ self.now.regions.token_sets }
    {
        self.inner.regions.token_sets()
    }

    /// What names the regions; a default has none, and any other mapping has one (RFC 5222, section 5.6; own rule).
    pub fn key(&self) -> Option<&str>
        ensures key { option_copied result ≡ self.now.key }
        ensures is_shaped { IsShaped self.now }
    {
        self.inner.key.as_deref()
    }

    /// Whether the mapping is given where no other holds.
    pub fn is_default(&self) -> bool
        ensures is_default { result ≡ self.now.is_default }
        ensures is_shaped { IsShaped self.now }
    {
        self.inner.is_default
    }

    /// Whether the mapping is live at an instant: it never ends, or it ends later (RFC 5222, section 5.2; own rule).
    pub fn is_live(&self, moment: &Moment) -> bool
        ensures { result ≡ is_live self.now moment.now }
    {
        self.inner.expires.is_live_at(moment)
    }

    /// The text of the mapping as a reply shows it by reference, if it is kept (RFC 5222, section 8.4.1; own format).
    pub fn reference_text(&self) -> Option<&[u8]>
        ensures { IfSome result (λ text. text.now ≡ reference_text self.now) }
    {
        match &self.inner.reference_text {
            Some(text) => Some(text.as_slice()),
            None => None,
        }
    }

    /// The mapping, with its text by reference kept beside it. A mapping that has another owner keeps no text.
    pub fn with_reference_text(self, text: Vec<u8>) -> Mapping
        requires { text.items ≡ reference_text self }
        ensures { result ≡ self }
    {
        let mut mapping = self;
        if let Some(fields) = Arc::get_mut(&mut mapping.inner) {
            fields.reference_text = Some(ReferenceText::of(text));
        }
        mapping
    }

    /// A copy. It costs a pointer.
    pub fn clone(&self) -> Result<Mapping, AllocError>
        ensures { IfOk result (λ copy. copy ≡ self.now) }
    {
        Ok(Mapping {
            inner: Arc::try_clone(&self.inner)?,
        })
    }
}
