//! Laws of the lists of an answer.

ghost use Rattle.lost_spec.specs.ListLaws.{ServicesAreChildren, AllServicesAreChildren, ServicesAreThere, AllServicesAreThere, ValidationCoversTheAddress, PositionsAreWhereItPasses};

/// The services at a place are in order, each once, and each is one label longer than what was asked.
pub fn services_are_children()
    ensures { ServicesAreChildren }
{}

/// The services anywhere are in order, each once, and each is one label longer than what was asked.
pub fn all_services_are_children()
    ensures { AllServicesAreChildren }
{}

/// A service is listed at a place exactly where it is what was asked and one label more, and some live mapping, no
/// default, holds the place and has a service that begins with it.
pub fn services_are_there()
    ensures { ServicesAreThere }
{}

/// A service is listed anywhere exactly where it is what was asked and one label more, and some live mapping has a
/// service that begins with it.
pub fn all_services_are_there()
    ensures { AllServicesAreThere }
{}

/// A validation has each name of the address once: as valid, as invalid or as unchecked.
pub fn validation_covers_the_address()
    ensures { ValidationCoversTheAddress }
{}

/// The positions of the mappings that pass a test rise, and at them stand those mappings, in order.
pub fn positions_are_where_it_passes()
    ensures { PositionsAreWhereItPasses }
{}
