//! Worlds of steps, and the events of the steps.

mod script;
mod shown;

use lost_book::Limits;
use lost_core::{Step, World};
use script::Line;
use std::alloc::Global;
use std::mem::replace;
use std::rt::Files;
use std::{fs, io};
use test_parts::Setting;

/// Runs the worlds of `worlds.lines`, and prints their events.
pub(crate) fn print_worlds<R: Files + Print + AllocGlobal>(rt: &R) -> io::Result<()> {
    let setting = Setting::new(rt.alloc())?;
    let script = fs::read_to_string(rt, "worlds.lines")?;
    let mut draft = Draft::new(rt.alloc(), 0, Limits::widest());
    for line in script.as_str().lines() {
        take(rt, &setting, &mut draft, line)?;
    }
    run(rt, &setting, draft)
}

/// A world of so many workers, whose book has these limits, and its steps so far.
#[derive(Drop)]
struct Draft {
    workers: u8,
    limits: Limits,
    steps: Vec<Step>,
}

impl Draft {
    /// A world with no steps.
    fn new(alloc: Global, workers: u8, limits: Limits) -> Draft {
        Draft {
            workers,
            limits,
            steps: Vec::new(alloc),
        }
    }
}

/// Adds the step of a line. Where a line begins the next world, runs the one before it.
fn take<R: Print + AllocGlobal>(
    rt: &R,
    setting: &Setting,
    draft: &mut Draft,
    line: &str,
) -> io::Result<()> {
    match script::read_line(rt.alloc(), setting.moment, line)? {
        Line::World(workers, limits) => {
            let next = Draft::new(rt.alloc(), workers, limits);
            run(rt, setting, replace(draft, next))
        }
        Line::Step(step) => add(&mut draft.steps, step),
        Line::Other => println!(rt; "this is no step"),
    }
}

/// Adds a step.
fn add(steps: &mut Vec<Step>, step: Step) -> io::Result<()> {
    steps.push(step)?;
    Ok(())
}

/// Runs a world, and prints its events.
fn run<R: Print + AllocGlobal>(rt: &R, setting: &Setting, draft: Draft) -> io::Result<()> {
    let Draft {
        workers,
        limits,
        steps,
    } = draft;
    for event in &World::run(rt.alloc(), limits, workers, &setting.name, steps)? {
        shown::print(rt, event)?;
    }
    Ok(())
}
