//! The name of a mapping over the whole server.
ghost use Rattle.std.specs.Prelude.{◌≡◌, ◌&&◌, ◌++◌, bytes_eq, IsTrue, IsNone, IfSome, IfOk, IsOkUnless};
ghost use Rattle.std.specs.Hash as fed;
ghost use Rattle.std.specs.Result.{result_err};
ghost use Rattle.std.proofs.Common.{rules};
ghost use Rattle.std.specs.Cmp.Rules.{comparing, hashing};
ghost use Rattle.lost_spec.specs.Token.{is_id};
ghost use Rattle.lost_spec.specs.Text.{lowered};
ghost use Rattle.lost_spec.specs.Mapping.{is_source};
ghost use Rattle.lost_mapping.specs.Identity.{identity_fault};

use crate::labels::is_source;
use crate::source::Source;
use lost_profile::is_id;
use lost_spec::faults::MappingError;
use std::alloc::{AllocError, Global};
use std::hash::{Hash, Hasher};
use std::marker::Model;
use std::sync::Arc;

/// The source and the sourceId of a mapping, which name it over the whole server (RFC 5222, section 5.1; own scope).
/// A sourceId is 1 to 128 bytes without bytes below 32 and without byte 127, and is compared byte for byte. It never
/// changes and is shared, so a copy costs a pointer.
#[derive(Debug)]
pub struct Identity {
    inner: Arc<Fields>,
}

impl Drop for Identity {
    fn drop(self) {
        let Identity { inner: _ } = self;
    }
}

#[derive(Drop, Debug)]
struct Fields {
    source: Source,
    source_id: String,
}

impl Model for Identity {
    ghost use Rattle.std.specs.Prelude.{string_bytes};
    ghost use Rattle.std.specs.Arc.{arc_value};
    ghost use Rattle.lost_spec.specs.Book as spec;
    ghost use Rattle.lost_mapping.specs.Identity.{IsWellFormed};

    ghost Value = { spec.Identity };

    ghost view = { λ i. record { source = (arc_value i.inner).source; source_id = string_bytes (arc_value i.inner).source_id } };

    ghost invariant = { λ i. IsWellFormed (arc_value i.inner).source (string_bytes (arc_value i.inner).source_id) };
}

impl Identity {
    /// Reads the source, in any case, and the sourceId. `BadSource` comes first, then `BadSourceId`.
    pub fn parse(alloc: Global, source: &str, source_id: &str) -> Result<Identity, MappingError>
        ensures refused { IfSome (identity_fault source.now source_id.now) (λ e. result ≡ Err e) }
        ensures accepted { IsNone (identity_fault source.now source_id.now)
            → IsOkUnless result MappingError.Memory }
        ensures value { IfOk result
            (λ i. i ≡ record { source = lowered source.now; source_id = source_id.now }) }
    {
        Identity::check(source, source_id)?;
        Identity::keep(alloc, source, source_id).map_err(|_| MappingError::Memory)
    }

    /// Ok where `parse` reads this source and sourceId, and else their refusal. It takes no memory.
    pub fn check(source: &str, source_id: &str) -> Result<(), MappingError>
        ensures { result_err result ≡ identity_fault source.now source_id.now }
    {
        if !is_source(source.as_bytes()) {
            return Err(MappingError::BadSource);
        }
        if !is_id(source_id) {
            return Err(MappingError::BadSourceId);
        }
        Ok(())
    }

    fn keep(alloc: Global, source: &str, source_id: &str) -> Result<Identity, AllocError>
        requires source { IsTrue (is_source source.now) }
        requires source_id { IsTrue (is_id source_id.now) }
        ensures { IfOk result
            (λ i. i ≡ record { source = lowered source.now; source_id = source_id.now }) }
    {
        let fields = Fields {
            source: Source::lowered(alloc, source.as_bytes())?,
            source_id: String::from_str(alloc, source_id)?,
        };
        Ok(Identity {
            inner: Arc::new(alloc, fields)?,
        })
    }

    /// The source.
    pub fn source(&self) -> &Source
        ensures value { result.now ≡ self.now.source }
        ensures well_formed { IsTrue (is_source self.now.source) }
    {
        &self.inner.source
    }

    /// The sourceId, as it was given.
    pub fn source_id(&self) -> &str
        ensures text { result.now ≡ self.now.source_id }
        ensures well_formed { IsTrue (is_id self.now.source_id) }
    {
        self.inner.source_id.as_str()
    }

    /// A copy. It costs a pointer.
    pub fn clone(&self) -> Result<Identity, AllocError>
        ensures { IfOk result (λ i. i ≡ self.now) }
    {
        Ok(Identity {
            inner: Arc::try_clone(&self.inner)?,
        })
    }
}

impl PartialEq for Identity {
    ghost eq = { λ a b. bytes_eq a.source b.source && bytes_eq a.source_id b.source_id };

    ghost laws = { Prim.search (comparing, rules) };

    fn eq(&self, other: &Identity) -> bool {
        self.source() == other.source() && self.source_id() == other.source_id()
    }
}

impl Eq for Identity {
    ghost laws = { Prim.search (comparing, rules) };
}

impl Hash for Identity {
    ghost hash_input = { λ i. fed.str i.source ++ fed.str i.source_id };

    ghost respects_eq = { Prim.search (hashing, rules) };

    fn hash<H: Hasher>(&self, state: &mut H) {
        self.source().hash(state);
        self.source_id().hash(state);
    }
}
