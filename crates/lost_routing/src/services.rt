//! The services held.
ghost use Rattle.std.specs.Prelude.{◌≡◌, IfOk, filter, length};
ghost use Rattle.std.specs.List.Sorted.{IsStrictlySortedBy};
ghost use Rattle.std.specs.Option.{option_copied};
ghost use Rattle.std.specs.Ordering.{nat_cmp};
ghost use Rattle.lost_spec.specs.Mapping.{is_live};
ghost use Rattle.lost_spec.specs.Services.{children_in};
ghost use Rattle.lost_routing.specs.Walk.{is_live_of, live_position};

use crate::store::Store;
use lost_mapping::{Mapping, Moment};
use lost_query::Children;
use lost_tables::{NumberedMappings, laws, picks};
use lost_urn::ServiceUrn;
use std::alloc::AllocError;

impl Store {
    /// The services just below one, or the topmost, of the live mappings. It looks at one live mapping of each service,
    /// and not at the others.
    pub(crate) fn services_below(
        &self,
        moment: &Moment,
        above: Option<&ServiceUrn>,
    ) -> Result<Vec<ServiceUrn>, AllocError>
        ensures { IfOk result (λ found.
            found.items ≡ children_in (option_copied above.entry) (filter (λ m. is_live m moment.now) self.now.mappings)) }
    {
        let mut children = Children::new(self.alloc, above);
        for row in 0..self.tables.service_count() {
            let (text, candidates) = self.tables.service_at(row);
            let position = live_position(&self.rows, moment, text, candidates);
            if let Some(position) = position {
                children.add(self.rows.at(position).service())?;
            }
        }

        // Shows to the proof that the number of each mapping stands in the row of its service.
        laws::services_are_walked();
        children.into_list(self.alloc)
    }
}

/// The position of the first of these candidates whose mapping is live and has the service of this text. The numbers of
/// the mappings rise.
fn live_position(
    rows: &NumberedMappings,
    moment: &Moment,
    text: &str,
    candidates: &[u64],
) -> Option<usize>
    requires rising { IsStrictlySortedBy nat_cmp rows.now.numbers }
    requires paired { length rows.now.numbers ≡ length rows.now.mappings }
    ensures { result ≡ live_position rows.now.numbers rows.now.mappings moment.now text.now candidates.now }
{
    picks::one(rows, candidates, |mapping| {
        is_live_of(mapping, moment, text)
    })
}

/// Whether a mapping is live and its service has this text.
fn is_live_of(mapping: &Mapping, moment: &Moment, text: &str) -> bool
    ensures { result ≡ is_live_of mapping.now moment.now text.now }
{
    mapping.is_live(moment) && mapping.service().text() == text
}
