//! Laws of crossings and of the inside of a ring, over the definitions alone. Each function's contract is the law, and
//! its body is empty.

ghost use Rattle.lost_geo.specs.Laws.{ReverseCrossesAlike, SpannedEvenly, InsideIsWithinBounds, CutsAreRings, CutsShareTheInside};

/// An edge and its reverse cross at the same points.
pub fn reverse_crosses_alike()
    ensures { ReverseCrossesAlike }
{}

/// In a closed ring an even number of edges has the latitude of a point from its low end up to before its high end.
pub fn spanned_evenly()
    ensures { SpannedEvenly }
{}

/// Where a point is inside a closed ring, its normal form is within the bounds of the ring.
pub fn inside_is_within_bounds()
    ensures { InsideIsWithinBounds }
{}

/// Where a ring is cut along a chain of edges between two of its positions, both parts are rings, and a point is
/// inside the whole exactly where it is inside one of the two and not both.
pub fn cut_shares_the_inside()
    ensures rings { CutsAreRings }
    ensures inside { CutsShareTheInside }
{}
