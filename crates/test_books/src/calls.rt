//! Calls that take no memory: on texts, points, rings, addresses, mappings and moments, and on both kinds of books.
//! Their values are made first.

mod making;
mod refusals;
mod values;

use crate::calls::refusals::Refusals;
use crate::calls::values::Values;
use crate::kinds::Kind;
use std::alloc::Global;
use std::rt::Files;
use std::{fs, io};

/// The values of the calls, and the books of each kind.
#[derive(Drop)]
struct Prepared<A: Kind, B: Kind> {
    values: Values,
    first: Refusals<A>,
    second: Refusals<B>,
}

impl<A: Kind, B: Kind> Prepared<A, B> {
    /// Makes the values, and the books of a table.
    fn read(alloc: Global, table: &str) -> io::Result<Prepared<A, B>> {
        Ok(Prepared {
            values: Values::new(alloc)?,
            first: Refusals::read(alloc, table)?,
            second: Refusals::read(alloc, table)?,
        })
    }

    /// Makes the calls, and prints the answers.
    fn print<R: Print>(self, rt: &R) -> io::Result<()> {
        let Prepared {
            values,
            first,
            second,
        } = self;
        values.print(rt)?;
        first.print(rt)?;
        second.print(rt)
    }
}

/// Makes the values. If `are_made`, makes the calls too and prints their answers.
pub(crate) fn print_calls<R: Files + Print + AllocGlobal, A: Kind, B: Kind>(
    rt: &R,
    are_made: bool,
) -> io::Result<()> {
    let table = fs::read_to_string(rt, "calls.lines")?;
    let prepared = Prepared::<A, B>::read(rt.alloc(), table.as_str())?;
    println!(rt; "prepared")?;
    if are_made {
        return prepared.print(rt);
    }
    Ok(())
}

/// A value is not as it should be, or memory was refused.
pub(crate) fn unfit() -> io::Error {
    io::Error::from(io::ErrorKind::InvalidData)
}
