//! A desk and one reader. First come the numbers of workers that are refused, and whether there is a second reader. If
//! memory is refused for the desk, it is opened again.
ghost use Rattle.std.specs.Prelude.{◌≡◌};

use crate::orders::{is_ordered, opened, print_reply};
use lost_desk::{Desk, Reader, Readers, open_desk};
use lost_spec::Coded;
use std::rt::Files;
use std::sync::Wait;
use std::{fs, io};
use test_parts::{Setting, limits};

/// Refuses desks of too few and too many workers, and then runs the lines of `desk.lines`.
pub(crate) fn run<R: Files + Wait + Print + AllocGlobal>(rt: &R) -> io::Result<()> {
    let text = fs::read_to_string(rt, "desk.lines")?;
    for workers in [0, 65] {
        refused(rt, workers)?;
    }
    run_lines(rt, text.as_str())
}

/// Runs lines by a desk of their own.
fn run_lines<R: Wait + Print + AllocGlobal>(rt: &R, text: &str) -> io::Result<()> {
    let Some((mut desk, mut readers)) = opened(rt, 1)? else {
        return Ok(());
    };
    let result = take_and_answer(rt, &mut desk, &mut readers, text);
    desk.close(rt);
    result
}

/// Prints how a desk with so many workers is refused.
fn refused<R: Wait + Print + AllocGlobal>(rt: &R, workers: u32) -> io::Result<()> {
    match open_desk(rt, rt.alloc(), limits(), workers) {
        Ok((desk, _readers)) => {
            desk.close(rt);
            println!(rt; "{workers} workers: opened")
        }
        Err(error) => println!(rt; "{workers} workers: refused, code {}", error.code()),
    }
}

/// Takes the reader, prints whether there is a second one, and answers lines.
fn take_and_answer<R: Wait + Print + AllocGlobal>(
    rt: &R,
    desk: &mut Desk,
    readers: &mut Readers,
    text: &str,
) -> io::Result<()>
    requires { readers.old.each.opening ≡ desk.old.opening }
{
    let setting = Setting::new(rt.alloc())?;
    let Some(mut reader) = readers.take() else {
        return Ok(());
    };
    println!(rt; "a second reader: {}", readers.take().is_some())?;
    answer_lines(rt, desk, &mut reader, &setting, text)
}

/// Prints the answer to each line that is not empty.
fn answer_lines<R: Wait + Print + AllocGlobal>(
    rt: &R,
    desk: &mut Desk,
    reader: &mut Reader,
    setting: &Setting,
    text: &str,
) -> io::Result<()>
    requires { reader.old.opening ≡ desk.old.opening }
{
    for line in text.lines() {
        if !line.is_empty() {
            answer(rt, desk, reader, setting, line)?;
        }
    }
    Ok(())
}

/// Prints the answer to a line.
fn answer<R: Wait + Print + AllocGlobal>(
    rt: &R,
    desk: &mut Desk,
    reader: &mut Reader,
    setting: &Setting,
    line: &str,
) -> io::Result<()>
    requires { reader.old.opening ≡ desk.old.opening }
    ensures desk { desk.new.opening ≡ desk.old.opening }
    ensures reader { reader.new.opening ≡ reader.old.opening }
{
    if line == "tell" {
        reader.learn(desk.tell());
        return println!(rt; "told, edition {}", reader.edition());
    }
    if is_ordered(rt, desk, line)? {
        return Ok(());
    }
    print_reply(
        rt,
        reader.reply_line(rt.alloc(), &setting.name, &setting.moment, line.as_bytes()),
    )
}
