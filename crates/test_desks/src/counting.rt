//! A keeper of the last set of positions. It counts how often sets are looked for, found and kept.
ghost use Rattle.std.specs.Prelude.{◌≡◌, None, IfSome};
ghost use Rattle.lost_location.specs.Place.{place_of};
ghost use Rattle.lost_desk.specs.Sets.{entry};

use lost_desk::PlaceSets;
use lost_query::Place;

/// The set of a place in the book of an edition.
#[derive(Drop)]
pub(crate) struct Kept {
    edition: u64,
    place: Place,
    set: Vec<usize>,
}

/// The last set that was kept, and the counts of the calls.
#[derive(Drop)]
pub(crate) struct Counting {
    kept: Option<Kept>,
    pub(crate) finds: u64,
    pub(crate) found: u64,
    pub(crate) keeps: u64,
}

impl Counting {
    ghost use Rattle.test_desks.specs.Counting.{IsTheOne};

    /// Nothing is kept or counted.
    pub(crate) fn new() -> Counting
        ensures { result.kept ≡ None }
    {
        Counting {
            kept: None,
            finds: 0,
            found: 0,
            keeps: 0,
        }
    }

    /// The kept set, if it is of this edition and place.
    fn set_of(&self, edition: u64, place: &Place) -> Option<&[usize]>
        ensures { IfSome result (λ set. IsTheOne self.now.kept (entry edition (place_of place.now) set.now)) }
    {
        match &self.kept {
            Some(kept) => {
                if kept.edition == edition && kept.place == *place {
                    Some(kept.set.as_slice())
                } else {
                    None
                }
            }
            None => None,
        }
    }
}

impl PlaceSets for Counting {
    ghost use Rattle.test_desks.specs.Counting.{IsTheOne};

    ghost keeps = { λ c e. IsTheOne c.kept e };

    fn find(&mut self, edition: u64, place: &Place) -> Option<&[usize]> {
        self.finds = self.finds.saturating_add(1);
        if self.set_of(edition, place).is_some() {
            self.found = self.found.saturating_add(1);
        }
        self.set_of(edition, place)
    }

    fn keep(&mut self, edition: u64, place: Place, set: Vec<usize>) {
        self.keeps = self.keeps.saturating_add(1);
        self.kept = Some(Kept {
            edition,
            place,
            set,
        });
    }
}
