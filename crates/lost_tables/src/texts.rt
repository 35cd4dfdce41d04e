//! Lists of numbers under texts.
ghost use Rattle.std.specs.Prelude.{◌≡◌, false, IfSome, IsTrue, IsFalse, OnOk, []};
ghost use Rattle.std.specs.HashMap.{get_by_text};
ghost use Rattle.std.specs.Option.{option_copied};
ghost use Rattle.lost_spec.specs.Text.{same_text, Text};
ghost use Rattle.lost_spec.specs.Book.{is_key};
ghost use Rattle.lost_tables.specs.Lists.{Stands, IsUnlisted, KeepsLists, KeepsOtherNumbers, KeepsUnder, under_text};

use crate::cell::Cell;
use indexmap::IndexMap;
use std::alloc::{AllocError, Global};

/// The numbers under a text.
#[tactic(auto, using(std::proofs::lemmas::Map::Text::text_keys))]
pub(crate) fn numbers_under<'a>(lists: &'a IndexMap<String, Cell>, text: &str) -> &'a [u64]
    ensures { result.now ≡ under_text lists.now text.now }
{
    match lists.get(text) {
        Some(cell) => cell.numbers(),
        None => &[],
    }
}

/// Lists a number under a text, if there is one. If memory is refused, what was listed stays.
pub(crate) fn list(
    lists: &mut IndexMap<String, Cell>,
    alloc: Global,
    text: Option<&str>,
    number: u64,
) -> Result<(), AllocError>
    ensures listed { OnOk result (IfSome (option_copied text.entry) (λ text. Stands number (under_text lists.new text))) }
    ensures keeps { KeepsLists (under_text lists.old) (under_text lists.new) }
{
    match text {
        Some(text) => list_under(lists, alloc, text, number),
        None => Ok(()),
    }
}

/// Lists a number under a text. If memory is refused, what was listed stays.
#[tactic(auto, using(std::proofs::lemmas::Map::Text::text_keys))]
fn list_under(
    lists: &mut IndexMap<String, Cell>,
    alloc: Global,
    text: &str,
    number: u64,
) -> Result<(), AllocError>
    ensures listed { OnOk result (Stands number (under_text lists.new text.now)) }
    ensures keeps { KeepsLists (under_text lists.old) (under_text lists.new) }
{
    if let Some(cell) = lists.get_mut(text) {
        return cell.add(number);
    }
    lists.insert(String::from_str(alloc, text)?, Cell::of(alloc, number)?)?;
    Ok(())
}

/// Removes a number from a text's list, if there is a text and it is not `remaining`.
pub(crate) fn unlist(
    lists: &mut IndexMap<String, Cell>,
    gone: Option<&str>,
    remaining: Option<&str>,
    number: u64,
)
    ensures others { KeepsOtherNumbers number (under_text lists.old) (under_text lists.new) }
    ensures remaining { IfSome (option_copied remaining.entry) (λ text. KeepsUnder text (under_text lists.old) (under_text lists.new)) }
    ensures gone { IfSome (option_copied gone.entry) (λ text.
        is_key (option_copied remaining.entry) text ≡ false → IsUnlisted number (get_by_text lists.new text)) }
{
    let Some(text) = gone else {
        return;
    };
    if !is_text(remaining, text) {
        unlist_under(lists, text, number);
    }
}

/// Whether there is a text that is equal to this one.
fn is_text(own: Option<&str>, text: &str) -> bool
    ensures { result ≡ is_key (option_copied own.entry) text.now }
{
    match own {
        Some(own) => own == text,
        None => false,
    }
}

/// Removes a number from a text's list, and the list if it is then empty.
#[tactic(auto, using(std::proofs::lemmas::Map::Text::text_keys))]
fn unlist_under(lists: &mut IndexMap<String, Cell>, text: &str, number: u64)
    ensures others { KeepsOtherNumbers number (under_text lists.old) (under_text lists.new) }
    ensures elsewhere { (other : Text) → same_text other text.now ≡ false → KeepsUnder other (under_text lists.old) (under_text lists.new) }
    ensures gone { IsUnlisted number (get_by_text lists.new text.now) }
{
    if remove_from_list(lists, text, number) {
        lists.swap_remove(text);
    }
}

/// Removes a number from the list under a text, and returns whether the list is then empty.
#[tactic(auto, using(std::proofs::lemmas::Map::Text::text_keys))]
fn remove_from_list(lists: &mut IndexMap<String, Cell>, text: &str, number: u64) -> bool
    ensures others { KeepsOtherNumbers number (under_text lists.old) (under_text lists.new) }
    ensures elsewhere { (other : Text) → same_text other text.now ≡ false → KeepsUnder other (under_text lists.old) (under_text lists.new) }
    ensures empty { IsTrue result → under_text lists.new text.now ≡ [] }
    ensures gone { IsFalse result → IsUnlisted number (get_by_text lists.new text.now) }
{
    let Some(cell) = lists.get_mut(text) else {
        return false;
    };
    cell.remove(number);
    cell.is_empty()
}
