//! Sets of places that are kept between lines.
ghost use Rattle.std.specs.Prelude.{◌≡◌, ◌⊎◌, IfSome, ⊤};
ghost use Rattle.std.specs.Borrow.{sem, follows_so};
ghost use mathlib.Core.Option.{none};
ghost use Rattle.lost_spec.specs.Holders.{Entry};
ghost use Rattle.lost_location.specs.Place.{place_of};
ghost use Rattle.lost_desk.specs.Sets.{entry, KeepsTheSame};

use lost_query::Place;

/// A store for sets of places (own rule). A place's set is the rising positions of the mappings that hold it, live or
/// not. An entry is an edition, a place and a set.
pub trait PlaceSets {
    /// The entries that it keeps.
    ghost keeps: { Self → Entry → Type 0 };

    /// The kept set of this edition and place, or `None`. The entries stay.
    fn find(&mut self, edition: u64, place: &Place) -> Option<&[usize]>
        ensures* stays { sem 𝓛 (follows_so Self.row Self.row self.entry.ghost_name none (λ _ _. ⊤)
            (λ n. KeepsTheSame (keeps self.old) (keeps n))) }
        ensures kept { IfSome result (λ set. keeps self.old (entry edition (place_of place.now) set.now)) };

    /// Whether to make and keep the set of the place that was looked for last and not found. If not, the line is
    /// answered without it. The entries stay.
    fn is_wanted(&mut self) -> bool
        ensures { KeepsTheSame (keeps self.old) (keeps self.new) }
    {
        true
    }

    /// Keeps the set of this edition and place, and may drop any entry. If memory is refused, it drops this one.
    fn keep(&mut self, edition: u64, place: Place, set: Vec<usize>)
        ensures { (e : Entry) → keeps self.new e → keeps self.old e ⊎ (e ≡ entry edition (place_of place) set.items) };
}

/// Keeps no sets.
#[derive(Drop)]
pub(crate) struct NoSets;

impl PlaceSets for NoSets {
    ghost keeps = { λ _ _. ⊥ };

    fn find(&mut self, _edition: u64, _place: &Place) -> Option<&[usize]> {
        None
    }

    fn is_wanted(&mut self) -> bool {
        false
    }

    fn keep(&mut self, _edition: u64, _place: Place, _set: Vec<usize>) {}
}
