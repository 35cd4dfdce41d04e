//! A row of edits of an index, over any kind of location.
ghost use Rattle.std.specs.Prelude.{◌≡◌, [], IfOk, OnOk, length};
ghost use Rattle.lost_index.specs.Entries.{IsAbove};
ghost use Rattle.test_index.specs.Rows.{HoldsTwo};

use crate::rings::{FAR, NEAR, point, square};
use crate::sets::{print_found, set, token};
use lost_geo::Polygon;
use lost_grid::Geodetic2d;
use lost_index::Index;
use lost_profile::{Profile, TokenSet, Tokens};
use std::alloc::{AllocError, Global};
use std::io;

/// A kind of location, with the regions and the question of the row.
pub(crate) trait Row: Profile {
    /// A region that holds the location of the question.
    fn near(alloc: Global) -> io::Result<Self::Region>;

    /// A region that is far from it.
    fn far(alloc: Global) -> io::Result<Self::Region>;

    /// The numbers that hold the location.
    fn asked(alloc: Global, index: &Index<Self>) -> io::Result<Vec<u64>>;
}

impl Row for Geodetic2d {
    fn near(alloc: Global) -> io::Result<Polygon> {
        square(alloc, NEAR)
    }

    fn far(alloc: Global) -> io::Result<Polygon> {
        square(alloc, FAR)
    }

    fn asked(_alloc: Global, index: &Index<Geodetic2d>) -> io::Result<Vec<u64>> {
        Ok(index.holding(&point(5_000_000, 5_000_000)?)?)
    }
}

impl Row for Tokens {
    fn near(alloc: Global) -> io::Result<TokenSet> {
        set(alloc, "t1 t2")
    }

    fn far(alloc: Global) -> io::Result<TokenSet> {
        set(alloc, "t3")
    }

    fn asked(alloc: Global, index: &Index<Tokens>) -> io::Result<Vec<u64>> {
        Ok(index.holding(&token(alloc, "t2")?)?)
    }
}

/// Prints what the index answers at each step of the row, and then tries alone each step that takes memory.
pub(crate) fn print_all<R: Print + AllocGlobal, P: Row>(rt: &R) -> io::Result<()> {
    print_steps::<R, P>(rt)?;
    try_first_put::<R, P>(rt, &mut Index::new(rt.alloc()))?;
    try_second_put::<R, P>(rt, &mut Index::new(rt.alloc()))?;
    try_last_step::<R, P>(rt)
}

/// Makes the regions, and prints what an index of them answers at each step of the row.
fn print_steps<R: Print + AllocGlobal, P: Row>(rt: &R) -> io::Result<()> {
    let alloc = rt.alloc();
    let first = near::<P>(alloc)?;
    let second = near_twice::<P>(alloc)?;
    print_row::<R, P>(rt, &mut Index::new(alloc), first, second, far::<P>(alloc)?)
}

/// Prints what an index answers at each step of the row: it puts the first and the second regions, and then adds more.
fn print_row<R: Print + AllocGlobal, P: Row>(
    rt: &R,
    index: &mut Index<P>,
    first: Vec<P::Region>,
    second: Vec<P::Region>,
    more: Vec<P::Region>,
) -> io::Result<()>
    requires empty { index.old ≡ [] }
    requires single { length first.items ≡ 1 }
    requires further { length more.items ≡ 1 }
{
    put_both(index, first, second)?;
    print_asked(rt, "put", index)?;
    print_changes(rt, index, more)
}

#[tactic(auto, using(crate::proofs::RowLemmas::both_put))]
/// Puts numbers 1 and 2, with the first and the second regions.
pub(super) fn put_both<P: Profile>(
    index: &mut Index<P>,
    first: Vec<P::Region>,
    second: Vec<P::Region>,
) -> Result<(), AllocError>
    requires empty { index.old ≡ [] }
    requires single { length first.items ≡ 1 }
    ensures { OnOk result (HoldsTwo index.new) }
{
    index.put(1, first)?;
    index.put(2, second)?;
    Ok(())
}

#[tactic(auto, using(crate::proofs::RowLemmas::first_held, crate::proofs::RowLemmas::still_held, crate::proofs::RowLemmas::two_held, crate::proofs::RowLemmas::second_held))]
/// Prints what the index answers after an add, a cut and a take.
fn print_changes<R: Print + AllocGlobal, P: Row>(
    rt: &R,
    index: &mut Index<P>,
    more: Vec<P::Region>,
) -> io::Result<()>
    requires two { HoldsTwo index.old }
    requires further { length more.items ≡ 1 }
{
    index.add(1, more)?;
    print_asked(rt, "add", index)?;
    index.cut(1, 1, 2);
    print_asked(rt, "cut", index)?;
    index.take(2);
    print_asked(rt, "take", index)
}

/// Does the row's first put alone. If memory is refused, prints what the index then answers, puts again, and prints
/// that answer.
fn try_first_put<R: Print + AllocGlobal, P: Row>(rt: &R, index: &mut Index<P>) -> io::Result<()>
    requires { index.old ≡ [] }
{
    if index.put(1, near::<P>(rt.alloc())?).is_ok() {
        return Ok(());
    }
    print_asked(rt, "first put refused", index)?;
    index.put(1, near::<P>(rt.alloc())?)?;
    print_asked(rt, "first put again", index)
}

/// The same with the second put.
fn try_second_put<R: Print + AllocGlobal, P: Row>(rt: &R, index: &mut Index<P>) -> io::Result<()>
    requires { index.old ≡ [] }
{
    index.put(1, near::<P>(rt.alloc())?)?;
    try_put_of_two(rt, index)
}

/// Does the second put, after the first one.
fn try_put_of_two<R: Print + AllocGlobal, P: Row>(rt: &R, index: &mut Index<P>) -> io::Result<()>
    requires { IsAbove 2 index.old }
{
    if index.put(2, near_twice::<P>(rt.alloc())?).is_ok() {
        return Ok(());
    }
    print_asked(rt, "second put refused", index)?;
    index.put(2, near_twice::<P>(rt.alloc())?)?;
    print_asked(rt, "second put again", index)
}

/// Makes the regions of both puts, and does the same with the add after them.
fn try_last_step<R: Print + AllocGlobal, P: Row>(rt: &R) -> io::Result<()> {
    let alloc = rt.alloc();
    let first = near::<P>(alloc)?;
    let second = near_twice::<P>(alloc)?;
    let mut index = Index::new(alloc);
    put_both(&mut index, first, second)?;
    try_add::<R, P>(rt, &mut index)
}

#[tactic(auto, using(crate::proofs::RowLemmas::first_held))]
/// Does the add, after both puts.
fn try_add<R: Print + AllocGlobal, P: Row>(rt: &R, index: &mut Index<P>) -> io::Result<()>
    requires { HoldsTwo index.old }
{
    if index.add(1, far::<P>(rt.alloc())?).is_ok() {
        return Ok(());
    }
    print_asked(rt, "add refused", index)?;
    index.add(1, far::<P>(rt.alloc())?)?;
    print_asked(rt, "add again", index)
}

/// The near region, alone.
fn near<P: Row>(alloc: Global) -> io::Result<Vec<P::Region>>
    ensures { IfOk result (λ regions. length regions.items ≡ 1) }
{
    let mut regions = Vec::new(alloc);
    regions.push(P::near(alloc)?)?;
    Ok(regions)
}

/// The near region twice.
fn near_twice<P: Row>(alloc: Global) -> io::Result<Vec<P::Region>> {
    let mut regions = near::<P>(alloc)?;
    regions.push(P::near(alloc)?)?;
    Ok(regions)
}

/// The far region, alone.
fn far<P: Row>(alloc: Global) -> io::Result<Vec<P::Region>>
    ensures { IfOk result (λ regions. length regions.items ≡ 1) }
{
    let mut regions = Vec::new(alloc);
    regions.push(P::far(alloc)?)?;
    Ok(regions)
}

/// Prints the numbers that hold the location after a step. If memory is refused, prints that and asks again.
fn print_asked<R: Print + AllocGlobal, P: Row>(
    rt: &R,
    step: &str,
    index: &Index<P>,
) -> io::Result<()> {
    if let Ok(found) = P::asked(rt.alloc(), index) {
        return print_numbers(rt, step, &found);
    }
    println!(rt; "holding refused")?;
    print_numbers(rt, step, &P::asked(rt.alloc(), index)?)
}

/// Prints the name of a step and its numbers.
fn print_numbers<R: Print>(rt: &R, step: &str, numbers: &[u64]) -> io::Result<()> {
    print!(rt; "{step}:")?;
    print_found(rt, numbers)
}
