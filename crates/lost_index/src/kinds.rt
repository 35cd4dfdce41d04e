//! Which kinds of keys have been noted.
ghost use Rattle.std.specs.Prelude.{◌≡◌, ◌≢◌, ◌<◌, ℕ, true, false, All};
ghost use Rattle.lost_index.specs.Kinds.{has_kind, KeepsKinds, HasKindsOf};

use crate::indexed_region::IndexedRegion;
use lost_profile::{KINDS, Profile};
use std::marker::Model;

/// A flag for each kind of key, set once a key of that kind is noted. Contracts see it as the list of the flags.
#[derive(Drop)]
pub(crate) struct Kinds {
    marked: [bool; KINDS],
}

impl Model for Kinds {
    ghost use Rattle.std.specs.Prelude.{List, Bool};

    ghost Value = { List Bool };

    ghost view = { λ a. a.marked };
}

impl Kinds {
    /// No kind.
    pub(crate) fn none() -> Kinds
        ensures { (kind : ℕ) → has_kind result kind ≡ false }
    {
        Kinds {
            marked: [false; KINDS],
        }
    }

    /// Marks a kind. The others stay as they were.
    pub(crate) fn mark(&mut self, kind: usize)
        requires { kind < KINDS }
        ensures marked { has_kind self.new kind ≡ true }
        ensures keeps { KeepsKinds self.old self.new }
        ensures others { (other : ℕ) → other ≢ kind → has_kind self.new other ≡ has_kind self.old other }
    {
        self.marked[kind] = true;
    }

    /// Whether the kind is marked.
    pub(crate) fn has(&self, kind: usize) -> bool
        requires { kind < KINDS }
        ensures { result ≡ has_kind self.now kind }
    {
        self.marked[kind]
    }
}

/// Marks the kinds of the keys of regions. What was marked stays so.
pub(crate) fn mark_covers<P: Profile>(kinds: &mut Kinds, kept: &[IndexedRegion<P>])
    ensures marked { All (λ region. HasKindsOf P.kind_of kinds.new (P.cover_of region)) kept.now }
    ensures keeps { KeepsKinds kinds.old kinds.new }
{
    for one in kept {
        mark_keys(kinds, one);
    }
}

/// Marks the kinds of the keys of a region. What was marked stays so.
fn mark_keys<P: Profile>(kinds: &mut Kinds, one: &IndexedRegion<P>)
    ensures marked { HasKindsOf P.kind_of kinds.new (P.cover_of one.now) }
    ensures keeps { KeepsKinds kinds.old kinds.new }
{
    for position in 0..one.key_room() {
        let Some(key) = one.key_at(position) else {
            return;
        };
        kinds.mark(P::key_kind(&key));
    }
}
