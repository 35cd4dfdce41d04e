//! Lists of numbers under keys of any kind.
ghost use Rattle.std.specs.Prelude.{◌≡◌, false, [], IfOk, IfSome, IsTrue, IsFalse, MatchOption, OnOk};
ghost use Rattle.std.specs.Option.{option_copied};
ghost use Rattle.std.specs.HashMap.{get};
ghost use Rattle.lost_tables.specs.Lists.{Stands, IsUnlisted, KeepsLists, KeepsOtherNumbers, KeepsUnder, under};

use crate::cell::Cell;
use indexmap::IndexMap;
use std::alloc::{AllocError, Global};
use std::hash::Hash;

/// The numbers under a key.
pub(crate) fn numbers_under<'a, K: Eq + Hash>(lists: &'a IndexMap<K, Cell>, key: &K) -> &'a [u64]
    ensures { result.now ≡ under K.eq lists.now key.now }
{
    match lists.get(key) {
        Some(cell) => cell.numbers(),
        None => &[],
    }
}

/// Lists a number under a key that has a list, and returns whether it has one. If memory is refused, what was listed
/// stays.
pub(crate) fn add<K: Eq + Hash + Drop>(
    lists: &mut IndexMap<K, Cell>,
    key: &K,
    number: u64,
) -> Result<bool, AllocError>
    ensures listed { IfOk result (λ there. IsTrue there → Stands number (under K.eq lists.new key.now)) }
    ensures keeps { KeepsLists (under K.eq lists.old) (under K.eq lists.new) }
{
    let Some(cell) = lists.get_mut(key) else {
        return Ok(false);
    };
    cell.add(number)?;
    Ok(true)
}

/// Lists a number under a key. If memory is refused, what was listed stays.
pub(crate) fn insert<K: Eq + Hash + Drop>(
    lists: &mut IndexMap<K, Cell>,
    alloc: Global,
    key: K,
    number: u64,
) -> Result<(), AllocError>
    ensures listed { OnOk result (Stands number (under K.eq lists.new key)) }
    ensures keeps { KeepsLists (under K.eq lists.old) (under K.eq lists.new) }
{
    if let Some(cell) = lists.get_mut(&key) {
        return cell.add(number);
    }
    lists.insert(key, Cell::of(alloc, number)?)?;
    Ok(())
}

/// Removes a number from a key's list, unless the key is `remaining`.
pub(crate) fn unlist<K: Eq + Hash + Drop>(
    lists: &mut IndexMap<K, Cell>,
    gone: &K,
    remaining: Option<&K>,
    number: u64,
)
    ensures others { KeepsOtherNumbers number (under K.eq lists.old) (under K.eq lists.new) }
    ensures remaining { IfSome (option_copied remaining.entry) (λ key. KeepsUnder key (under K.eq lists.old) (under K.eq lists.new)) }
    ensures gone { MatchOption (option_copied remaining.entry) (IsUnlisted number (get K.eq lists.new gone.now))
        (λ key. K.eq gone.now key ≡ false → IsUnlisted number (get K.eq lists.new gone.now)) }
{
    if !is_key(remaining, gone) {
        unlist_under(lists, gone, number);
    }
}

/// Whether there is a key that is equal to this one.
fn is_key<K: Eq>(own: Option<&K>, key: &K) -> bool
    ensures { MatchOption (option_copied own.entry) (IsFalse result) (λ own. result ≡ K.eq key.now own) }
{
    match own {
        Some(own) => key == own,
        None => false,
    }
}

/// Removes a number from a key's list, and the list if it is then empty.
fn unlist_under<K: Eq + Hash + Drop>(lists: &mut IndexMap<K, Cell>, key: &K, number: u64)
    ensures others { KeepsOtherNumbers number (under K.eq lists.old) (under K.eq lists.new) }
    ensures elsewhere { (other : _) → K.eq key.now other ≡ false → KeepsUnder other (under K.eq lists.old) (under K.eq lists.new) }
    ensures gone { IsUnlisted number (get K.eq lists.new key.now) }
{
    if remove_from_list(lists, key, number) {
        lists.swap_remove(key);
    }
}

/// Removes a number from the list under a key, and returns whether the list is then empty.
fn remove_from_list<K: Eq + Hash + Drop>(
    lists: &mut IndexMap<K, Cell>,
    key: &K,
    number: u64,
) -> bool
    ensures others { KeepsOtherNumbers number (under K.eq lists.old) (under K.eq lists.new) }
    ensures elsewhere { (other : _) → K.eq key.now other ≡ false → KeepsUnder other (under K.eq lists.old) (under K.eq lists.new) }
    ensures empty { IsTrue result → under K.eq lists.new key.now ≡ [] }
    ensures gone { IsFalse result → IsUnlisted number (get K.eq lists.new key.now) }
{
    let Some(cell) = lists.get_mut(key) else {
        return false;
    };
    cell.remove(number);
    cell.is_empty()
}
