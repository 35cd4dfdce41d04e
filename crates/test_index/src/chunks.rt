//! A list in chunks, which is edited beside a plain one.

use lost_tables::TieredVec;
use std::alloc::{AllocError, Global};
use std::io;

/// How many elements are pushed first: some chunks, and part of one.
const PUSHED: usize = 2_000;

/// The distance between the positions of two turns: a prime, so that they spread over the list.
const STRIDE: usize = 7_919;

/// Edits both. Prints and returns whether they are the same after each edit.
pub(crate) fn print_edits<R: Print + AllocGlobal>(rt: &R) -> io::Result<bool> {
    let mut lists = Lists::new(rt.alloc());
    for element in 0..PUSHED {
        lists.push(element)?;
    }
    for turn in 0..PUSHED {
        if !lists.edit(turn)? || !lists.are_same() {
            println!(rt; "other than the plain list after turn {turn}")?;
            return Ok(false);
        }
    }
    println!(rt;
        "as the plain list: {PUSHED} pushes, {PUSHED} turns, {} left",
        lists.len()
    )?;
    Ok(true)
}

/// A list in chunks, and a plain one of the same elements.
#[derive(Drop)]
struct Lists {
    tiered: TieredVec<usize>,
    plain: Vec<usize>,
}

impl Lists {
    /// Two empty lists.
    fn new(alloc: Global) -> Lists {
        Lists {
            tiered: TieredVec::new(alloc),
            plain: Vec::new(alloc),
        }
    }

    /// How many elements the list in chunks has.
    fn len(&self) -> usize {
        self.tiered.len()
    }

    /// Pushes an element on both.
    fn push(&mut self, element: usize) -> Result<(), AllocError> {
        self.tiered.push(element)?;
        self.plain.push(element)?;
        Ok(())
    }

    /// Changes an element of both, takes one out of both, and every third time pushes one on both. Says whether both
    /// gave the same.
    fn edit(&mut self, turn: usize) -> Result<bool, AllocError> {
        let len = self.tiered.len();
        if len == 0 || self.plain.len() != len {
            return Ok(false);
        }
        let changed = turn % len;
        self.tiered.set(changed, turn);
        self.plain[changed] = turn;
        let taken = turn.wrapping_mul(STRIDE) % len;
        let same = self.tiered.remove(taken) == self.plain.remove(taken);
        if turn % 3 == 0 {
            self.push(turn)?;
        }
        Ok(same)
    }

    /// Whether both have the same elements in the same order.
    fn are_same(&self) -> bool {
        for position in 0..self.plain.len() {
            if self.tiered.get(position) != self.plain.get(position) {
                return false;
            }
        }
        self.tiered.get(self.plain.len()).is_none() && self.tiered.len() == self.plain.len()
    }
}
