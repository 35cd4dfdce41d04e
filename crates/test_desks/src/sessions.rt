//! Sessions, each answered by desks with readers that keep places, and the expected replies.

mod cached;

use crate::limits::limits;
use crate::rows::{Row, names};
use lost_book::Limits;
use std::io;
use std::rt::Files;
use std::sync::Wait;
use test_parts::Setting;

/// The folder of the sessions.
const FOLDER: &str = "sessions";

/// How many places the readers keep.
const PLACES: [u32; 3] = [1, 2, 1_024];

/// Has each session answered. Prints and returns whether all replies are as expected.
pub(crate) fn print_sessions<R: Files + Wait + Print + AllocGlobal + Clone + Drop>(
    rt: &R,
) -> io::Result<bool> {
    let setting = Setting::new(rt.alloc())?;
    let mut all = true;
    for name in &names(rt, FOLDER)? {
        if !is_as_expected(rt, name.as_str(), &setting)? {
            all = false;
        }
    }
    Ok(all)
}

/// Has one session answered by a reader of each kind. Prints and returns whether the replies are as expected.
fn is_as_expected<R: Files + Wait + Print + AllocGlobal>(
    rt: &R,
    name: &str,
    setting: &Setting,
) -> io::Result<bool> {
    let row = Row::read(rt, FOLDER, name)?;
    let limits = limits(rt, FOLDER, name)?;
    if !are_same(rt, name, &row, setting, limits)? {
        return Ok(false);
    }
    println!(rt; "{name}: as expected")?;
    Ok(true)
}

/// Whether the replies of each reader are the expected ones. Prints where they are not.
fn are_same<R: Wait + Print + AllocGlobal>(
    rt: &R,
    name: &str,
    row: &Row,
    setting: &Setting,
    limits: Limits,
) -> io::Result<bool> {
    for places in PLACES {
        let replies = cached::replies(rt, &row.lines, setting, limits, places);
        if !is_same(rt, name, places, replies, &row.expected)? {
            return Ok(false);
        }
    }
    Ok(true)
}

/// Whether the replies are the expected ones. Prints where they are not.
fn is_same<R: Print>(
    rt: &R,
    name: &str,
    places: u32,
    replies: Option<Vec<u8>>,
    expected: &[u8],
) -> io::Result<bool> {
    let Some(replies) = replies else {
        println!(rt; "{name}, {places} places kept: the run ended in a fault")?;
        return Ok(false);
    };
    if replies.as_slice() == expected {
        return Ok(true);
    }
    println!(rt; "{name}, {places} places kept: differs")?;
    Ok(false)
}
