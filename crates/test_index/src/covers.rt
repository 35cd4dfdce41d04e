//! Covers and probes.

use crate::rings::{Corners, EARTH, FAR, NEAR, TWO, UNDER_TWO, point, square};
use lost_grid::{Cell, Geodetic2d};
use lost_profile::Profile;
use std::io;

/// Prints the covers and the probes of the rows.
pub(crate) fn print_all<R: Print + AllocGlobal>(rt: &R) -> io::Result<()> {
    for (name, corners) in [
        ("a square of a degree", NEAR),
        ("one far from it", FAR),
        ("a little under two cells of level 2 high", UNDER_TWO),
        ("two cells of level 2 high", TWO),
        ("the earth", EARTH),
    ] {
        print_cover(rt, name, corners)?;
    }
    print_probes(rt)
}

/// Prints the cover of one ring.
fn print_cover<R: Print + AllocGlobal>(rt: &R, name: &str, corners: Corners) -> io::Result<()> {
    let alloc = rt.alloc();
    let cells = Geodetic2d::cover(alloc, &square(alloc, corners)?)?;
    print_cells(rt, name, &cells)
}

/// Prints the probes of the row's point.
fn print_probes<R: Print + AllocGlobal>(rt: &R) -> io::Result<()> {
    let cells = Geodetic2d::probes(rt.alloc(), &point(5_000_000, 5_000_000)?)?;
    print_cells(rt, "probes of a point", &cells)
}

/// Prints a name and its cells.
fn print_cells<R: Print + AllocGlobal>(rt: &R, name: &str, cells: &[Cell]) -> io::Result<()> {
    print!(rt; "{name}:")?;
    for cell in cells {
        print!(rt; " ({},{},{})", cell.level, cell.row, cell.column)?;
    }
    println!(rt; "")
}
