//! Sources, and names of servers: labels joined by dots.
ghost use Rattle.std.specs.Prelude.{◌≡◌, ◌↔◌, false, IsTrue, IfOk, OnOk, bytes_eq};
ghost use Rattle.std.specs.Hash as fed;
ghost use Rattle.std.proofs.Common.{rules};
ghost use Rattle.std.specs.Cmp.{partial_equiv_from_equiv};
ghost use Rattle.std.specs.Cmp.Lexicographic.{nat_list_eq_equiv};
ghost use Rattle.std.specs.Cmp.Rules.{hashing};
ghost use Rattle.lost_spec.specs.Text.{lowered};
ghost use Rattle.lost_spec.specs.Mapping.{is_source};

use crate::ascii::to_lowercase;
use crate::labels::is_source;
use lost_spec::faults::SourceError;
use std::alloc::{AllocError, Global};
use std::hash::{Hash, Hasher};
use std::marker::Model;

/// The source of a mapping, or the name of a server (RFC 5222, section 5.1): 1 to 253 bytes, labels of 1 to 63 ASCII
/// letters, digits and hyphens with no hyphen at either end, joined by single dots (own spelling). It is kept in
/// lower case, and sources are compared by that text.
#[derive(Debug)]
pub struct Source {
    text: String,
}

impl Drop for Source {
    fn drop(self) {
        let Source { text: _ } = self;
    }
}

impl Model for Source {
    ghost use Rattle.std.specs.Prelude.{string_bytes};
    ghost use Rattle.lost_spec.specs.Text.{Text};
    ghost use Rattle.lost_mapping.specs.Source.{IsLowerSource};

    ghost Value = { Text };

    ghost view = { λ s. string_bytes s.text };

    ghost invariant = { λ s. IsLowerSource (string_bytes s.text) };
}

impl Source {
    /// Reads a source in any case. A text that is none is refused as `Bad`.
    pub fn parse(alloc: Global, text: &[u8]) -> Result<Source, SourceError>
        ensures accepted { OnOk result (IsTrue (is_source text.now)) }
        ensures value { IfOk result (λ s. s ≡ lowered text.now) }
        ensures bad { (result ≡ Err SourceError.Bad) ↔ (is_source text.now ≡ false) }
    {
        if !is_source(text) {
            return Err(SourceError::Bad);
        }
        Source::lowered(alloc, text).map_err(|_| SourceError::Memory)
    }

    /// The source that a text in any case spells.
    pub(crate) fn lowered(alloc: Global, text: &[u8]) -> Result<Source, AllocError>
        requires { IsTrue (is_source text.now) }
        ensures { IfOk result (λ s. s ≡ lowered text.now) }
    {
        Ok(Source {
            text: to_lowercase(alloc, text)?,
        })
    }

    /// The text, in lower case.
    pub fn text(&self) -> &str
        ensures text { result.now ≡ self.now }
        ensures well_formed { IsTrue (is_source self.now) }
        ensures lower { lowered self.now ≡ self.now }
    {
        self.text.as_str()
    }

    /// A copy.
    pub fn clone(&self) -> Result<Source, AllocError>
        ensures { IfOk result (λ s. s ≡ self.now) }
    {
        Ok(Source {
            text: self.text.clone()?,
        })
    }
}

impl PartialEq for Source {
    ghost eq = { bytes_eq };

    ghost laws = { partial_equiv_from_equiv nat_list_eq_equiv };

    fn eq(&self, other: &Source) -> bool {
        self.text() == other.text()
    }
}

impl Eq for Source {
    ghost laws = { nat_list_eq_equiv };
}

impl Hash for Source {
    ghost hash_input = { fed.str };

    ghost respects_eq = { Prim.search (hashing, rules) };

    fn hash<H: Hasher>(&self, state: &mut H) {
        self.text().hash(state);
    }
}
