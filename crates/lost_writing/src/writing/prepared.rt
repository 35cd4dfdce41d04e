//! Mappings that keep the text which most replies show of them.
ghost use Rattle.std.specs.Prelude.{◌≡◌, IfOk};
ghost use Rattle.lost_mapping.specs.Shown.{reference_text};

use crate::token_text::TokenText;
use crate::writing::mappings::write_mapping;
use lost_mapping::{Boundary, Mapping};
use std::alloc::{AllocError, Global};

/// The first room of a mapping's text, in bytes.
const ROOM: usize = 1_024;

/// The same mapping, which keeps its text by reference from now on, so that a reply with it alone is written fast. A
/// mapping that has another owner keeps no text (RFC 5222, section 8.4.1; own rule).
///
/// # Errors
///
/// [`AllocError`] where there is no memory for the text.
pub fn prepare(alloc: Global, mapping: Mapping) -> Result<Mapping, AllocError>
    ensures { IfOk result (λ prepared. prepared ≡ mapping) }
{
    let text = write_reference(alloc, &mapping)?;
    Ok(mapping.with_reference_text(text))
}

/// The text of a mapping by reference, in no more room than it takes.
#[tactic(auto, unfolding(lost_mapping::specs::Shown::reference_text), using(crate::proofs::TokenLemmas::value_printed))]
fn write_reference(alloc: Global, mapping: &Mapping) -> Result<Vec<u8>, AllocError>
    ensures { IfOk result (λ text. text.items ≡ reference_text mapping.now) }
{
    let mut text = TokenText::with_room(alloc, ROOM)?;
    write_mapping(&mut text, mapping, Boundary::ByReference)?;
    let mut written = text.into_text();
    written.shrink_to_fit();
    Ok(written)
}
