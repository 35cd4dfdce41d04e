//! Calls that take no memory, over each profile: whether a region contains a location, and the cut and the take of an
//! index. Their values are made first.
ghost use Rattle.std.specs.Prelude.{◌≡◌, IfOk, length};
ghost use Rattle.test_index.specs.Rows.{HoldsOne};

use crate::reading::{address, pattern, required};
use crate::rings::{FAR, NEAR, point, square};
use crate::sets::{token, two};
use lost_civic::CivicPattern;
use lost_civicdex::{Civic, References};
use lost_geo::Polygon;
use lost_grid::Geodetic2d;
use lost_index::Index;
use lost_profile::{Profile, Tokens};
use std::alloc::Global;
use std::io;

/// The address of the questions, and its required elements.
const ADDRESS: &str = "country=US;A3= leonia ;HNO=6";

const REQUIRED: &str = "country=US;A3= leonia ;HNO=6 / country A3";

/// Makes the values of each profile. If `are_made`, makes the calls too and prints their answers.
pub(crate) fn print_all<R: Print + AllocGlobal>(rt: &R, are_made: bool) -> io::Result<()> {
    print_squares(rt, are_made)?;
    print_patterns(rt, are_made)?;
    print_required(rt, are_made)?;
    print_tokens(rt, are_made)
}

fn print_squares<R: Print + AllocGlobal>(rt: &R, are_made: bool) -> io::Result<()> {
    let place = point(5_000_000, 5_000_000)?;
    let asked = squares(rt.alloc())?;
    print_calls::<R, Geodetic2d>(rt, squares(rt.alloc())?, &asked, &place, are_made)
}

fn print_patterns<R: Print + AllocGlobal>(rt: &R, are_made: bool) -> io::Result<()> {
    let Some(place) = address(rt.alloc(), ADDRESS) else {
        return Err(unreadable());
    };
    let asked = patterns(rt.alloc())?;
    print_calls::<R, Civic>(rt, patterns(rt.alloc())?, &asked, &place, are_made)
}

fn print_required<R: Print + AllocGlobal>(rt: &R, are_made: bool) -> io::Result<()> {
    let Some(place) = required(rt.alloc(), REQUIRED) else {
        return Err(unreadable());
    };
    let asked = patterns(rt.alloc())?;
    print_calls::<R, References>(rt, patterns(rt.alloc())?, &asked, &place, are_made)
}

fn print_tokens<R: Print + AllocGlobal>(rt: &R, are_made: bool) -> io::Result<()> {
    let place = token(rt.alloc(), "t2")?;
    let asked = two(rt.alloc(), "t1 t2", "t3")?;
    let kept = two(rt.alloc(), "t1 t2", "t3")?;
    print_calls::<R, Tokens>(rt, kept, &asked, &place, are_made)
}

#[tactic(auto, using(crate::proofs::RowLemmas::one_put))]
/// Makes an index of two regions. If `are_made`, makes the calls too and prints their answers.
fn print_calls<R: Print + AllocGlobal, P: Profile>(
    rt: &R,
    kept: Vec<P::Region>,
    asked: &[P::Region],
    location: &P::Location,
    are_made: bool,
) -> io::Result<()>
    requires { length kept.items ≡ 2 }
{
    let mut index: Index<P> = Index::new(rt.alloc());
    index.put(1, kept)?;
    println!(rt; "{} prepared", P::NAME)?;
    if !are_made {
        return Ok(());
    }
    make_calls(rt, &mut index, asked, location)
}

#[tactic(auto, using(crate::proofs::RowLemmas::one_held, crate::proofs::RowLemmas::has_both, crate::proofs::RowLemmas::cut_held))]
/// Prints which regions contain a location, cuts one of the index's two away, and takes the other one out.
fn make_calls<R: Print, P: Profile>(
    rt: &R,
    index: &mut Index<P>,
    asked: &[P::Region],
    location: &P::Location,
) -> io::Result<()>
    requires { HoldsOne index.old }
{
    print_contained::<R, P>(rt, asked, location)?;
    index.cut(1, 1, 2);
    index.take(1);
    println!(rt; "cut and taken")
}

/// Prints which regions contain a location.
fn print_contained<R: Print, P: Profile>(
    rt: &R,
    regions: &[P::Region],
    location: &P::Location,
) -> io::Result<()> {
    for region in regions {
        println!(rt; "contains {}", P::contains(region, location))?;
    }
    Ok(())
}

/// A square that holds the point of the questions, and one that is far from it.
fn squares(alloc: Global) -> io::Result<Vec<Polygon>>
    ensures { IfOk result (λ regions. length regions.items ≡ 2) }
{
    let mut regions = Vec::new(alloc);
    regions.push(square(alloc, NEAR)?)?;
    regions.push(square(alloc, FAR)?)?;
    Ok(regions)
}

/// A pattern that the address matches, and one of another town.
fn patterns(alloc: Global) -> io::Result<Vec<CivicPattern>>
    ensures { IfOk result (λ regions. length regions.items ≡ 2) }
{
    let mut regions = Vec::new(alloc);
    regions.push(in_town(alloc, "country=US;A3=Leonia")?)?;
    regions.push(in_town(alloc, "country=US;A3=Fort Lee")?)?;
    Ok(regions)
}

/// The pattern of a text.
fn in_town(alloc: Global, text: &str) -> io::Result<CivicPattern> {
    match pattern(alloc, text) {
        Some(pattern) => Ok(pattern),
        None => Err(unreadable()),
    }
}

/// A text is no pattern or address, or memory was refused.
fn unreadable() -> io::Error {
    io::Error::from(io::ErrorKind::InvalidData)
}
