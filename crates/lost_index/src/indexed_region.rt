//! A region as the index keeps it.
ghost use Rattle.std.specs.Prelude.{◌≡◌, ◌≤◌, ◌&&◌, length, slice_get};
ghost use Rattle.std.specs.List.{list_any};

use lost_profile::Profile;
use std::marker::Model;

/// A region. Its outline and the keys of its cover are made anew where they are needed. Contracts see it as the region.
pub(crate) struct IndexedRegion<P: Profile> {
    region: P::Region,
}

impl<P: Profile> Drop for IndexedRegion<P> {
    fn drop(self) {
        let IndexedRegion { region: _ } = self;
    }
}

impl<P: Profile> Model for IndexedRegion<P> {
    ghost Value = { P.Region };

    ghost view = { λ a. a.region };

    ghost invariant = { λ a. P.is_region a.region };
}

impl<P: Profile> IndexedRegion<P> {
    /// The region, to be kept.
    pub(crate) fn new(region: P::Region) -> IndexedRegion<P>
        ensures region { result ≡ region }
        ensures is_region { P.is_region result }
    {
        // Shows to the proof that it is a region.
        let _outline = P::outline(&region);
        IndexedRegion { region }
    }

    /// The number of positions at which the keys of its cover stand, or a few more.
    pub(crate) fn key_room(&self) -> usize
        ensures { length (P.cover_of self.now) ≤ result }
    {
        // Shows to the proof that it is a region.
        let _region = &self.region;
        P::COVER_MAX
    }

    /// The key at a position of its cover; `None` behind its end.
    pub(crate) fn key_at(&self, position: usize) -> Option<P::Key>
        ensures { result ≡ slice_get (P.cover_of self.now) position }
    {
        P::key_at(&self.region, position)
    }

    /// Its outline.
    pub(crate) fn outline(&self) -> P::Outline
        ensures { result ≡ P.outline_of self.now }
    {
        P::outline(&self.region)
    }

    /// Whether its outline is equal to this one, and the key is one of its cover.
    pub(crate) fn covers_with(&self, key: &P::Key, outline: &P::Outline) -> bool
        ensures { result ≡ (P.Outline.eq outline.now (P.outline_of self.now) && list_any (P.Key.eq key.now) (P.cover_of self.now)) }
    {
        *outline == P::outline(&self.region) && P::has_key(&self.region, key)
    }

    /// Whether the region contains the location.
    pub(crate) fn contains(&self, location: &P::Location) -> bool
        ensures { result ≡ P.holds self.now location.now }
    {
        P::contains(&self.region, location)
    }
}
