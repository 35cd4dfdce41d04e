//! The commands of the hostile script.
use crate::by::By;
use crate::faults::{tell_faults, tell_marks};
use crate::stream::{Stream, no_command};
use crate::sweeps::{Sweep, prefixes, reads, spaces, whole, writes};
use crate::worker::work;
use std::io;
use std::sync::Wait;
use test_parts::Setting;

/// Runs the script.
pub(crate) fn run<R: Wait + Print + AllocGlobal>(rt: &R, script: &str) -> io::Result<()> {
    let setting = Setting::new(rt.alloc())?;
    let mut stream = Stream::new(rt.alloc());
    for line in script.lines() {
        let line = line.trim_end();
        if !stream.is_prepared(line)? {
            serve(rt, &setting, stream.bytes.as_slice(), line)?;
            stream = Stream::new(rt.alloc());
        }
    }
    Ok(())
}

/// Prints a command, and serves a stream anew as it says.
fn serve<R: Wait + Print + AllocGlobal>(
    rt: &R,
    setting: &Setting,
    bytes: &[u8],
    command: &str,
) -> io::Result<()> {
    println!(rt; "-- {command}")?;
    match command {
        "worker" => work(rt, setting, bytes),
        "faults" => tell_faults(rt),
        "marks" => tell_marks(rt),
        _ => match command.split_once(' ') {
            Some((who, how)) => serve_by(rt, setting, bytes, who, how),
            None => no_command(rt),
        },
    }
}

/// Serves a stream as two words say: by whom, and how.
fn serve_by<R: Wait + Print + AllocGlobal>(
    rt: &R,
    setting: &Setting,
    bytes: &[u8],
    who: &str,
    how: &str,
) -> io::Result<()> {
    let Some(by) = By::named(who) else {
        return no_command(rt);
    };
    let sweep = Sweep { setting, by, bytes };
    match how.split_once(' ') {
        Some(("reads", count)) => reads(rt, &sweep, count.parse::<usize>().unwrap_or(1)),
        Some(_) => no_command(rt),
        None => match how {
            "whole" => whole(rt, &sweep, usize::MAX),
            "bytes" => whole(rt, &sweep, 1),
            "writes" => writes(rt, &sweep),
            "prefixes" => prefixes(rt, &sweep),
            "spaces" => spaces(rt, &sweep),
            _ => no_command(rt),
        },
    }
}
