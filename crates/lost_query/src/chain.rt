//! The services of a chain.
ghost use Rattle.std.specs.Prelude.{◌≡◌, ◌≤◌, IfOk, length, take};
ghost use Rattle.lost_query.specs.Finding.{chain_service};

use lost_urn::ServiceUrn;
use std::alloc::{AllocError, Global};

/// A service of the chain of the service asked for (RFC 5222, section 8; policy own).
#[derive(Drop)]
pub(crate) enum ChainService<'a> {
    /// The service itself.
    Asked(&'a ServiceUrn),
    /// A service above it. It lies in a box, since most finds are of the service itself, and they move little then.
    Above(Box<ServiceUrn>),
}

impl<'a> ChainService<'a> {
    /// The service of the first `depth` labels of the service asked for. `depth` is from 1 to the number of its labels.
    /// The service itself takes no memory.
    pub(crate) fn of_depth(
        alloc: Global,
        asked: &'a ServiceUrn,
        depth: usize,
    ) -> Result<ChainService<'a>, AllocError>
        requires some { 1 ≤ depth }
        requires within { depth ≤ length asked.now }
        ensures { IfOk result (λ found. chain_service found ≡ take depth asked.now) }
    {
        if depth == asked.depth() {
            return Ok(ChainService::Asked(asked));
        }
        Ok(ChainService::Above(Box::new(alloc, asked.cut(depth)?)?))
    }

    /// The service.
    pub(crate) fn service(&self) -> &ServiceUrn
        ensures { result.now ≡ chain_service self.now }
    {
        match self {
            ChainService::Asked(service) => service,
            ChainService::Above(service) => service,
        }
    }
}
