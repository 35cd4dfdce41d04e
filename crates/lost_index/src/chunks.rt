//! Numbered rows in chunks, in rising order of their numbers.
ghost use Rattle.std.specs.Prelude.{◌≡◌, ◌<◌, ◌≤◌, ◌++◌, ◌∷◌, [], Some, length, remove as remove_at, nat_eq, IsTrue, IfErr, OnOk, OnErr};
ghost use Rattle.std.specs.List.Sorted.{IsPartitionPoint};
ghost use Rattle.std.specs.Map.{lookup};
ghost use Rattle.std.specs.Option.{option_copied};
ghost use Rattle.lost_index.specs.Chunks.{AreRising, HasRow, AreFilled, AreChunks, IsChunkOf, rows_of, ends_below as is_below};
ghost use Rattle.lost_index.specs.Entries.{IsHeld, IsAbove, without};

use std::alloc::Global;

/// The number of rows in a full chunk.
const FULL: usize = 64;

/// The position of the only chunk that may have a number.
pub(crate) fn chunk_of<T>(chunks: &[Vec<(u64, T)>], number: u64) -> usize
    requires { AreChunks chunks.now }
    ensures { IsChunkOf number chunks.now result }
{
    chunks.partition_point(|chunk| ends_below(chunk, number))
}

/// Whether the last number of a chunk is below this one.
fn ends_below<T>(chunk: &[(u64, T)], number: u64) -> bool
    ensures { result ≡ is_below number chunk.now }
{
    match chunk.last() {
        Some(row) => row.0 < number,
        None => true,
    }
}

/// The position in a chunk at which a number stands, or would.
pub(crate) fn place_in<T>(chunk: &[(u64, T)], number: u64) -> usize
    requires { AreRising chunk.now }
    ensures { IsPartitionPoint (λ row. row.0 < number) (λ row. number ≤ row.0) chunk.now result }
{
    chunk.partition_point(|row| row.0 < number)
}

/// What stands under a number, if anything does.
pub(crate) fn get<T>(chunks: &[Vec<(u64, T)>], number: u64) -> Option<&T>
    requires { AreChunks chunks.now }
    ensures { option_copied result ≡ lookup (nat_eq number) (rows_of chunks.now) }
{
    match chunks.get(chunk_of(chunks, number)) {
        Some(chunk) => get_in(chunk, number),
        None => None,
    }
}

/// What stands under a number in a chunk, if anything does.
fn get_in<T>(chunk: &[(u64, T)], number: u64) -> Option<&T>
    requires { AreRising chunk.now }
    ensures { option_copied result ≡ lookup (nat_eq number) chunk.now }
{
    let Some(row) = chunk.get(place_in(chunk, number)) else {
        return None;
    };
    if row.0 == number { Some(&row.1) } else { None }
}

/// Adds a row at the end. If memory is refused, nothing changes and the value is given back.
pub(crate) fn put<T: Drop>(
    chunks: &mut Vec<Vec<(u64, T)>>,
    alloc: Global,
    number: u64,
    value: T,
) -> Result<(), T>
    requires chunks { AreChunks chunks.old.items }
    requires above { IsAbove number (rows_of chunks.old.items) }
    ensures chunks { AreChunks chunks.new.items }
    ensures put { OnOk result (rows_of chunks.new.items ≡ rows_of chunks.old.items ++ (number, value) ∷ []) }
    ensures refused { OnErr result (rows_of chunks.new.items ≡ rows_of chunks.old.items) }
    ensures given_back { IfErr result (λ back. back ≡ value) }
{
    if has_room(chunks) {
        return put_in_last(chunks, number, value);
    }
    if chunks.reserve(1).is_err() {
        return Err(value);
    }
    let mut chunk = Vec::new(alloc);
    match chunk.push((number, value)) {
        Ok(()) => {
            chunks.push_reserved(chunk);
            Ok(())
        }
        Err(refused) => Err(refused.value.1),
    }
}

/// Whether there is a last chunk, and it is not full.
fn has_room<T>(chunks: &[Vec<(u64, T)>]) -> bool
    ensures { IsTrue result → 0 < length chunks.now }
{
    match chunks.last() {
        Some(last) => last.len() < FULL,
        None => false,
    }
}

/// Adds a row to the last chunk.
fn put_in_last<T: Drop>(chunks: &mut [Vec<(u64, T)>], number: u64, value: T) -> Result<(), T>
    requires some { 0 < length chunks.old }
    requires chunks { AreChunks chunks.old }
    requires above { IsAbove number (rows_of chunks.old) }
    ensures chunks { AreChunks chunks.new }
    ensures put { OnOk result (rows_of chunks.new ≡ rows_of chunks.old ++ (number, value) ∷ []) }
    ensures refused { OnErr result (rows_of chunks.new ≡ rows_of chunks.old) }
    ensures given_back { IfErr result (λ back. back ≡ value) }
{
    let last = chunks.len() - 1;
    match chunks[last].push((number, value)) {
        Ok(()) => Ok(()),
        Err(refused) => Err(refused.value.1),
    }
}

/// Removes the row of a number that has one. It takes no memory.
pub(crate) fn remove<T: Drop>(chunks: &mut Vec<Vec<(u64, T)>>, number: u64) -> T
    requires chunks { AreChunks chunks.old.items }
    requires held { IsHeld number (rows_of chunks.old.items) }
    ensures chunks { AreChunks chunks.new.items }
    ensures value { lookup (nat_eq number) (rows_of chunks.old.items) ≡ Some result }
    ensures rest { rows_of chunks.new.items ≡ without number (rows_of chunks.old.items) }
{
    let position = chunk_of(chunks, number);
    let value = remove_in(&mut chunks[position], number);
    drop_empty(chunks, position);
    value
}

/// Removes the row of a number from its chunk.
fn remove_in<T: Drop>(chunk: &mut Vec<(u64, T)>, number: u64) -> T
    requires { HasRow number chunk.old.items }
    ensures value { lookup (nat_eq number) chunk.old.items ≡ Some result }
    ensures rest { chunk.new.items ≡ without number chunk.old.items }
{
    let place = place_in(chunk, number);
    let (_, value) = chunk.remove(place);
    give_back(chunk);
    value
}

/// Gives back what a chunk that is half empty has too much.
fn give_back<T>(chunk: &mut Vec<(u64, T)>)
    ensures { chunk.new.items ≡ chunk.old.items }
{
    if chunk.len() <= chunk.capacity() / 2 {
        chunk.shrink_to_fit();
    }
}

/// Removes the chunk at a position if it is empty. The others are not.
fn drop_empty<T: Drop>(chunks: &mut Vec<Vec<(u64, T)>>, position: usize)
    requires within { position < length chunks.old.items }
    requires rising { AreRising (rows_of chunks.old.items) }
    requires others { AreFilled (remove_at chunks.old.items position) }
    ensures chunks { AreChunks chunks.new.items }
    ensures same { rows_of chunks.new.items ≡ rows_of chunks.old.items }
{
    if chunks[position].is_empty() {
        chunks.remove(position);
    }
}
