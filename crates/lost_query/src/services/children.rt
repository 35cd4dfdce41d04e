//! The services just below a service.
ghost use Rattle.std.specs.Prelude.{◌≡◌, IfOk, IfSome, OnOk, IsTrue};
ghost use Rattle.std.specs.Option.{option_copied};
ghost use Rattle.lost_spec.specs.Service.{is_service, child};
ghost use Rattle.lost_query.specs.Children.{no_children, with_child_to};

use lost_urn::ServiceUrn;
use std::alloc::{AllocError, Global};
use std::collections::BTreeSet;
use std::marker::Model;

/// The services just below one, or the topmost, on the way to services that are added one after another (RFC 5222,
/// section 10). They come out in the order of their texts, each once. The order and number of additions do not matter.
#[derive(Drop)]
pub struct Children<'a> {
    above: Option<&'a ServiceUrn>,
    found: BTreeSet<ServiceUrn>,
}

impl<'a> Model for Children<'a> {
    ghost use Rattle.std.specs.Option.{option_copied};
    ghost use Rattle.lost_query.specs.Children as spec;

    ghost Value = { spec.Children };

    ghost view = { λ c. record { above = option_copied c.above; found = c.found.keys } };

    ghost invariant = { λ c. spec.AreServices c.found.keys };
}

impl<'a> Children<'a> {
    /// No children yet of this service, or of the top if there is none.
    pub fn new(alloc: Global, above: Option<&'a ServiceUrn>) -> Children<'a>
        ensures { result ≡ no_children (option_copied above.entry) }
    {
        Children {
            above,
            found: BTreeSet::new(alloc),
        }
    }

    /// Adds the child on the way to a service, unless there is none or it is already there.
    pub fn add(&mut self, service: &ServiceUrn) -> Result<(), AllocError>
        ensures child { OnOk result (self.new ≡ with_child_to service.now self.old) }

        // What is added is a service: a list of added services has to show that.
        ensures well_formed { OnOk result (IsTrue (is_service service.now)) }
    {
        // Shows to the proof that the labels make a service.
        let _text = service.text();
        if let Some(child) = child(self.above, service)? {
            self.found.insert(child)?;
        }
        Ok(())
    }

    /// The children, in the order of their texts.
    pub fn into_list(self, alloc: Global) -> Result<Vec<ServiceUrn>, AllocError>
        ensures { IfOk result (λ services. services.items ≡ self.entry.found) }
    {
        self.found.into_iter().collect(alloc)
    }
}

/// The service just below one, or the topmost, on the way to a service (RFC 5222, section 10).
fn child(above: Option<&ServiceUrn>, service: &ServiceUrn) -> Result<Option<ServiceUrn>, AllocError>
    ensures child { IfOk result (λ found. found ≡ child (option_copied above.entry) service.now) }
    ensures service { IfOk result (λ found. IfSome found (λ s. IsTrue (is_service s))) }
{
    let depth = match above {
        Some(above) if service.is_at_or_below(above) => above.depth(),
        Some(_) => return Ok(None),
        None => 0,
    };
    if depth >= service.depth() {
        return Ok(None);
    }
    let child = service.cut(depth + 1)?;
    // Shows to the proof that the labels make a service.
    let _text = child.text();
    Ok(Some(child))
}
