//! The commands of the script of streams: what is served, and by whom.
use crate::always::moments_of;
use crate::bursts::{cut_everywhere, cut_once};
use crate::in_turn::take_turns;
use crate::recording_gate::RecordingGate;
use crate::stream::{Stream, no_command};
use crate::telling::tell;
use crate::workers::serve_two;
use lost_desk::{Desk, Reader, Readers, open_desk};
use lost_spec::Coded;
use lost_worker::{Gate, NoGate, Replier, Watched, serve_desk, serve_lines};
use std::io;
use std::sync::Wait;
use std::thread::Threads;
use std::time::Clock;
use test_parts::{Diary, Setting, limits};

/// A desk and two of its readers.
#[derive(Drop)]
struct Bench<'d> {
    desk: &'d mut Desk,
    first: &'d mut Reader,
    second: &'d mut Reader,
    setting: &'d Setting,
}

/// Runs the script over a desk with two readers.
pub(crate) fn run<R: Threads + Wait + Clock + Sync + Print + AllocGlobal>(
    rt: &R,
    script: &str,
) -> io::Result<()> {
    match open_desk(rt, rt.alloc(), limits(), 2) {
        Ok((mut desk, mut readers)) => {
            let result = run_bench(rt, &mut desk, &mut readers, script);
            desk.close(rt);
            result
        }
        Err(error) => println!(rt; "open: {}", error.code()),
    }
}

/// Runs the script over a desk and both readers.
fn run_bench<R: Threads + Wait + Clock + Sync + Print + AllocGlobal>(
    rt: &R,
    desk: &mut Desk,
    readers: &mut Readers,
    script: &str,
) -> io::Result<()> {
    let setting = Setting::new(rt.alloc())?;
    let (Some(mut first), Some(mut second)) = (readers.take(), readers.take()) else {
        return Ok(());
    };
    let mut bench = Bench {
        desk,
        first: &mut first,
        second: &mut second,
        setting: &setting,
    };
    run_script(rt, &mut bench, script)
}

/// Runs the script.
fn run_script<R: Threads + Wait + Clock + Sync + Print + AllocGlobal>(
    rt: &R,
    bench: &mut Bench,
    script: &str,
) -> io::Result<()> {
    let mut stream = Stream::new(rt.alloc());
    for line in script.lines() {
        let line = line.trim_end();
        if !stream.is_prepared(line)? {
            serve(rt, bench, &stream, line)?;
            stream = Stream::new(rt.alloc());
        }
    }
    Ok(())
}

/// Prints a command, and serves a stream as it says.
fn serve<R: Threads + Wait + Clock + Sync + Print + AllocGlobal>(
    rt: &R,
    bench: &mut Bench,
    stream: &Stream,
    command: &str,
) -> io::Result<()> {
    println!(rt; "-- {command}")?;
    let setting = bench.setting;
    match command {
        "desk" => serve_by_desk(rt, bench.desk, stream),
        "queries" => serve_queries(rt, bench.first, setting, stream),
        "workers" => serve_two(rt, bench.first, bench.second, setting, stream),
        "in turn" => take_turns(rt, bench.desk, bench.first, setting),
        _ => serve_in_bursts(rt, bench, stream, command),
    }
}

/// Serves a stream in bursts, as a command with a number says.
fn serve_in_bursts<R: Print + AllocGlobal>(
    rt: &R,
    bench: &mut Bench,
    stream: &Stream,
    command: &str,
) -> io::Result<()> {
    let (word, number) = command.split_once(' ').unwrap_or((command, ""));
    let number = number.parse::<usize>().unwrap_or(1);
    let bytes = stream.bytes.as_slice();
    match word {
        "bursts" => cut_everywhere(rt, bench.first, bench.setting, bytes, number),
        "cut" => cut_once(rt, bench.first, bench.setting, bytes, number),
        _ => no_command(rt),
    }
}

/// Serves a stream by the desk.
fn serve_by_desk<R: Wait + Print + AllocGlobal>(
    rt: &R,
    desk: &mut Desk,
    stream: &Stream,
) -> io::Result<()> {
    let alloc = rt.alloc();
    let mut input = Watched::new(stream.bytes.as_slice());
    let mut output = Watched::new(Vec::new(alloc));
    let result = serve_desk(rt, alloc, &mut input, &mut output, desk, stream.turns);
    let written: Vec<u8> = output.into_inner();
    tell(rt, written.as_slice(), result)
}

/// Serves a stream by a reader, through a gate where a line is refused.
fn serve_queries<R: Print + AllocGlobal, P: Replier>(
    rt: &R,
    replier: &mut P,
    setting: &Setting,
    stream: &Stream,
) -> io::Result<()> {
    match stream.refused {
        Some(refused) => {
            let diary = Diary::new(rt.alloc());
            let gate = RecordingGate {
                diary: &diary,
                refused,
            };
            serve_through(rt, replier, setting, &gate, stream)
        }
        None => serve_through(rt, replier, setting, &NoGate, stream),
    }
}

/// Serves a stream by a reader through a gate.
fn serve_through<R: Print + AllocGlobal, P: Replier, G: Gate>(
    rt: &R,
    replier: &mut P,
    setting: &Setting,
    gate: &G,
    stream: &Stream,
) -> io::Result<()> {
    let alloc = rt.alloc();
    let mut input = Watched::new(stream.bytes.as_slice());
    let mut output = Watched::new(Vec::new(alloc));
    let mut moments = moments_of(setting);
    let name = &setting.name;
    let result = serve_lines(
        alloc,
        &mut input,
        &mut output,
        replier,
        name,
        &mut moments,
        gate,
        stream.turns,
    );
    let written: Vec<u8> = output.into_inner();
    tell(rt, written.as_slice(), result)
}
