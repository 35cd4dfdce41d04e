//! The worked rows of civic keys. Each function's contract is a row, which the check proves by computing.

ghost use Rattle.lost_civicdex.specs.Rows.{CoversRow, NamedRow, ReferencesRow};

/// The keys under which patterns are kept, and under which an address is looked up.
pub fn covers()
    ensures { CoversRow }
{}

/// The keys of a pattern among references, and which patterns are references.
pub fn references()
    ensures { ReferencesRow }
{}

/// The elements under which a pattern is kept, and whether it names one.
pub fn named_elements()
    ensures { NamedRow }
{}
