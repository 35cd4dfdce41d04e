//! Laws that callers may rest on. Each function's contract is the law, and its body is empty.
ghost use Rattle.std.specs.Prelude.{◌≡◌, Some, List};
ghost use Rattle.std.specs.List.Sorted.{IsPermutation};
ghost use Rattle.lost_spec.specs.Mapping.{Mapping};
ghost use Rattle.lost_spec.specs.Moment.{Stamp};
ghost use Rattle.lost_spec.specs.Book.{Book, Identity, Publish, Replace, Withdraw, held, identity_of, mappings_after};
ghost use Rattle.lost_digest.specs.Digest.{map_digest, with_mapping, without_mapping};

/// The order of the mappings decides nothing.
pub fn order_decides_nothing()
    ensures { (xs ys : List Mapping) → IsPermutation xs ys → map_digest ys ≡ map_digest xs }
{}

/// A publish adds the mapping.
pub fn publish_adds()
    ensures { (b : Book) (m : Mapping) → map_digest (mappings_after b.mappings (Publish m)) ≡ with_mapping (map_digest b.mappings) m }
{}

/// A replacement takes the mapping held away, and adds the new one.
pub fn replacement_exchanges()
    ensures { (b : Book) (m old : Mapping) → held b (identity_of m) ≡ Some old
        → map_digest (mappings_after b.mappings (Replace m)) ≡ with_mapping (without_mapping (map_digest b.mappings) old) m }
{}

/// A withdrawal takes the mapping held away.
pub fn withdrawal_takes_away()
    ensures { (b : Book) (id : Identity) (stamp : Stamp) (old : Mapping) → held b id ≡ Some old
        → map_digest (mappings_after b.mappings (Withdraw id stamp)) ≡ without_mapping (map_digest b.mappings) old }
{}
