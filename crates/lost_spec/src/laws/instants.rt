//! A law of instants.

ghost use Rattle.lost_spec.specs.MomentLaws.{InstantsAreOrdered};

/// Of two instants one is earlier, or they are equal. None is earlier than itself, and "earlier" is transitive.
pub fn instants_are_ordered()
    ensures { InstantsAreOrdered }
{}
