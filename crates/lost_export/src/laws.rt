//! Laws over the definitions alone. Their bodies are empty.
ghost use Rattle.lost_export.specs.ReadBack.{PublishedAreBuilt, ReplacingAreBuilt};
ghost use Rattle.lost_export.specs.Traces.{TraceIsMade, NoneIsEarlier, TraceIsAccepted};

/// A mapping that a desk line says is built, so its own line reads back.
pub fn law_said_is_built()
    ensures published { PublishedAreBuilt }
    ensures replacing { ReplacingAreBuilt }
{}

/// The two edits of a trace leave a book's mappings as they were, and one more trace, where nothing is known of its
/// identity.
pub fn law_trace_is_made()
    ensures { TraceIsMade }
{}

/// No stamp is earlier than a placeholder's, and where nothing is known of an identity, a book with room accepts both
/// edits of a trace of a later stamp.
pub fn law_trace_is_accepted()
    ensures earliest { NoneIsEarlier }
    ensures accepted { TraceIsAccepted }
{}
