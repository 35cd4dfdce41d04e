//! Laws of what is found.

ghost use Rattle.lost_spec.specs.FindLaws.{FoundIsThere, NothingWhereNothingIs, NothingUnlessImplemented, ImplementedMeansHere, HereMeansImplemented, EditsElsewhereDoNotMatter};

/// The mappings found are all live holders of the place for the longest service of the chain that has one. Where there
/// is no holder, they are all live defaults of the longest service that has one.
pub fn found_is_there()
    ensures { FoundIsThere }
{}

/// Where no live mapping of the chain holds the place or is a default, nothing is found.
pub fn nothing_where_nothing_is()
    ensures { NothingWhereNothingIs }
{}

/// Where the service is not implemented, nothing is found.
pub fn nothing_unless_implemented()
    ensures { NothingUnlessImplemented }
{}

/// Where no live mapping has a service of the chain, the service is not implemented.
pub fn implemented_means_here()
    ensures { ImplementedMeansHere }
{}

/// Where the service is not implemented, no live mapping has a service of the chain.
pub fn here_means_implemented()
    ensures { HereMeansImplemented }
{}

/// An edit of mappings with no service of the chain changes nothing but the edition in an answer to findService.
pub fn edits_elsewhere_do_not_matter()
    ensures { EditsElsewhereDoNotMatter }
{}
