//! The regions of one number.
ghost use Rattle.std.specs.Prelude.{◌≡◌, ◌≤◌, ◌++◌, [], length, All, IfOk, OnOk, OnErr};
ghost use Rattle.std.specs.List.{list_any, slice_range};
ghost use Rattle.lost_index.specs.Notes.{covers_with as are_covering_with};

use crate::indexed_region::IndexedRegion;
use lost_profile::Profile;
use std::alloc::{AllocError, Global};
use std::marker::Model;

/// The regions of one number, in order. Contracts see it as their list.
pub(crate) struct Entry<P: Profile> {
    kept: Vec<IndexedRegion<P>>,
}

impl<P: Profile> Drop for Entry<P> {
    fn drop(self) {
        let Entry { kept: _ } = self;
    }
}

impl<P: Profile> Model for Entry<P> {
    ghost use Rattle.std.specs.Prelude.{List};

    ghost Value = { List P.Region };

    ghost view = { λ a. a.kept.items };
}

impl<P: Profile> Entry<P> {
    /// The regions, each with its outline.
    pub(crate) fn new(alloc: Global, regions: Vec<P::Region>) -> Result<Entry<P>, AllocError>
        ensures regions { IfOk result (λ entry. entry ≡ regions.items) }
        ensures are_regions { IfOk result (λ entry. All P.is_region entry) }
    {
        let mut kept = Vec::with_capacity(alloc, regions.len())?;
        for region in regions {
            kept.push(IndexedRegion::new(region))?;
        }
        Ok(Entry { kept })
    }

    /// The regions as they are kept.
    pub(crate) fn kept(&self) -> &[IndexedRegion<P>]
        ensures { result.now ≡ self.now }
    {
        &self.kept
    }

    /// Adds regions at the end. If memory is refused, nothing changes.
    pub(crate) fn append(&mut self, more: &mut Entry<P>) -> Result<(), AllocError>
        ensures appended { OnOk result (self.new ≡ self.old ++ more.old) }
        ensures refused { OnErr result (self.new ≡ self.old) }
        ensures given_back { OnErr result (more.new ≡ more.old) }
    {
        self.kept.reserve_exact(more.kept.len())?;
        self.kept.append(&mut more.kept)?;
        Ok(())
    }

    /// Keeps only the regions at the positions from `from` up to before `to`. It takes no memory, and gives back what the
    /// others took.
    pub(crate) fn cut(&mut self, from: usize, to: usize)
        requires in_order { from ≤ to }
        requires within { to ≤ length self.old }
        ensures { self.new ≡ slice_range self.old from to }
    {
        self.kept.truncate(to);
        self.kept.rotate_left(from);
        self.kept.truncate(to - from);
        self.kept.shrink_to_fit();
    }

    /// Whether some region contains the location.
    pub(crate) fn contains(&self, location: &P::Location) -> bool
        ensures { result ≡ list_any (λ region. P.holds region location.now) self.now }
    {
        for one in &self.kept {
            if one.contains(location) {
                return true;
            }
        }
        false
    }
}

/// Whether the key is in the cover of some region whose outline is equal to this one.
pub(crate) fn covers_with<P: Profile>(
    kept: &[IndexedRegion<P>],
    key: &P::Key,
    outline: &P::Outline,
) -> bool
    ensures { result ≡ are_covering_with P.Key.eq P.Outline.eq P.cover_of P.outline_of kept.now key.now outline.now }
{
    for one in kept {
        if one.covers_with(key, outline) {
            return true;
        }
    }
    false
}
