//! Chunks of one size, all full but the last.
ghost use Rattle.std.specs.Prelude.{◌≡◌, ◌<◌, ◌≤◌, ◌+◌, ◌-◌, ◌/◌, ◌++◌, ◌∷◌, [], length, slice_get, slice_set, remove, OnOk, OnErr};
ghost use Rattle.std.specs.List.{slice_index_or};
ghost use Rattle.std.specs.Option.{option_copied};
ghost use Rattle.lost_tables.specs.Chunks.{full, elements, AreFilled, LacksAt};

use std::alloc::{AllocError, Global};
use std::collections::VecDeque;

/// The number of elements in a full chunk.
const FULL: usize = 512;

/// The element at a position of the list, if there is one.
pub(crate) fn get<T>(chunks: &[VecDeque<T>], position: usize) -> Option<&T>
    requires { AreFilled chunks.now }
    ensures { option_copied result ≡ slice_get (elements chunks.now) position }
{
    match chunks.get(position / FULL) {
        Some(chunk) => chunk.get(position % FULL),
        None => None,
    }
}

/// Adds an element at the end. If memory is refused, nothing changes and the element is dropped.
pub(crate) fn push<T: Drop>(
    chunks: &mut Vec<VecDeque<T>>,
    alloc: Global,
    element: T,
) -> Result<(), AllocError>
    requires { AreFilled chunks.old.items }
    ensures filled { AreFilled chunks.new.items }
    ensures pushed { OnOk result (elements chunks.new.items ≡ elements chunks.old.items ++ element ∷ []) }
    ensures refused { OnErr result (elements chunks.new.items ≡ elements chunks.old.items) }
{
    if let Some(last) = chunks.last_mut() {
        if last.len() < FULL {
            return Ok(last.push_back(element)?);
        }
    }
    let mut chunk = VecDeque::new(alloc);
    chunk.push_back(element)?;
    chunks.push(chunk)?;
    Ok(())
}

/// Replaces the element at a position of the list.
pub(crate) fn set<T: Drop>(chunks: &mut [VecDeque<T>], position: usize, element: T)
    requires filled { AreFilled chunks.old }
    requires within { position < length (elements chunks.old) }
    ensures filled { AreFilled chunks.new }
    ensures set { elements chunks.new ≡ slice_set (elements chunks.old) position element }
{
    chunks[position / FULL][position % FULL] = element;
}

/// Removes the element at a position of the list.
pub(crate) fn remove<T: Drop>(chunks: &mut Vec<VecDeque<T>>, position: usize) -> T
    requires filled { AreFilled chunks.old.items }
    requires within { position < length (elements chunks.old.items) }
    ensures filled { AreFilled chunks.new.items }
    ensures value { result ≡ slice_index_or (elements chunks.old.items) position result }
    ensures rest { elements chunks.new.items ≡ remove (elements chunks.old.items) position }
{
    let element = take_out(chunks, position);
    close_up(chunks, position / FULL);
    drop_empty(chunks);
    element
}

/// Takes an element out of its chunk, which then lacks one.
fn take_out<T>(chunks: &mut [VecDeque<T>], position: usize) -> T
    requires filled { AreFilled chunks.old }
    requires within { position < length (elements chunks.old) }
    ensures lacks { LacksAt (position / full) chunks.new }
    ensures value { result ≡ slice_index_or (elements chunks.old) position result }
    ensures rest { elements chunks.new ≡ remove (elements chunks.old) position }
{
    match chunks[position / FULL].remove(position % FULL) {
        Some(element) => element,
        None => unreachable!(),
    }
}

/// Moves one element from each later chunk to the one before. Then the last chunk lacks the one that `row` lacked.
fn close_up<T>(chunks: &mut [VecDeque<T>], row: usize)
    requires { LacksAt row chunks.old }
    ensures lacks { LacksAt (length chunks.new - 1) chunks.new }
    ensures same { elements chunks.new ≡ elements chunks.old }
{
    for lacking in row..chunks.len() - 1 {
        pull(chunks, lacking);
    }
}

/// Moves the first element of the next chunk to the end of one that lacks one. Then the next chunk lacks one.
fn pull<T>(chunks: &mut [VecDeque<T>], row: usize)
    requires within { row + 1 < length chunks.old }
    requires lacks { LacksAt row chunks.old }
    ensures lacks { LacksAt (row + 1) chunks.new }
    ensures same { elements chunks.new ≡ elements chunks.old }
{
    match chunks[row + 1].pop_front() {
        Some(first) => chunks[row].push_back_reserved(first),
        None => unreachable!(),
    }
}

/// Removes the last chunk if it is empty.
fn drop_empty<T: Drop>(chunks: &mut Vec<VecDeque<T>>)
    requires { LacksAt (length chunks.old.items - 1) chunks.old.items }
    ensures filled { AreFilled chunks.new.items }
    ensures same { elements chunks.new.items ≡ elements chunks.old.items }
{
    if chunks[chunks.len() - 1].is_empty() {
        chunks.pop();
    }
}
