//! Laws that callers may use. Each function's contract is the law, and its body is empty.
ghost use Rattle.lost_tables.specs.Lookup.{ServicesAreWalked};

/// Each number that is listed under a service is in the list of a row of that service (own rule).
pub fn services_are_walked()
    ensures walked { ServicesAreWalked }
{}
