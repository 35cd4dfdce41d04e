//! Calls of a desk and of its readers that take no memory, and the texts of a desk's answers. The desks are made first,
//! from the table `calls.lines`: a line `limits` begins a desk with these limits, a line `accepted` has an edit that it
//! accepts, and a line `refused` one that it refuses after the others are committed.
ghost use Rattle.std.specs.Prelude.{◌≡◌};

use crate::orders::commit;
use lost_book::Edit;
use lost_desk::{Desk, Reader, Readers, open_desk};
use lost_json::{DeskLine, DeskReply, DeskText, read_desk, write_desk};
use lost_spec::Coded;
use lost_worker::CachedReader;
use std::alloc::{AllocError, Global};
use std::rt::Files;
use std::sync::Wait;
use std::{fs, io};
use test_parts::limits_of;

/// Makes each desk of the table. If `are_made`, makes the calls too and prints their answers.
pub(crate) fn run<R: Files + Wait + Print + AllocGlobal>(rt: &R, are_made: bool) -> io::Result<()> {
    let table = fs::read_to_string(rt, "calls.lines")?;
    for part in table.as_str().split("limits ").skip(1) {
        run_part(rt, part, are_made)?;
    }
    if !are_made {
        return Ok(());
    }
    write_replies(rt)
}

/// Makes the desk of a part of the table, and the calls.
fn run_part<R: Wait + Print + AllocGlobal>(rt: &R, part: &str, are_made: bool) -> io::Result<()> {
    let (numbers, lines) = part.split_once('\n').unwrap_or((part, ""));
    let Some(limits) = limits_of(numbers) else {
        return Err(unfit());
    };
    match open_desk(rt, rt.alloc(), limits, 2) {
        Ok((mut desk, mut readers)) => {
            let result = prepare_and_call(rt, &mut desk, &mut readers, lines, are_made);
            desk.close(rt);
            result
        }
        Err(error) => println!(rt; "open: {}", error.code()),
    }
}

/// Has the desk accept its edits, and makes the calls.
fn prepare_and_call<R: Wait + Print + AllocGlobal>(
    rt: &R,
    desk: &mut Desk,
    readers: &mut Readers,
    lines: &str,
    are_made: bool,
) -> io::Result<()>
    requires { readers.old.each.opening ≡ desk.old.opening }
{
    let mut refused = Vec::new(rt.alloc());
    stage_lines(rt.alloc(), desk, lines, &mut refused)?;
    if desk.commit(rt).is_err() {
        return Err(AllocError.into());
    }
    take_and_call(rt, desk, readers, refused, are_made)
}

/// Takes a reader that keeps a place, and makes the calls.
fn take_and_call<R: Wait + Print + AllocGlobal>(
    rt: &R,
    desk: &mut Desk,
    readers: &mut Readers,
    refused: Vec<Edit>,
    are_made: bool,
) -> io::Result<()>
    requires { readers.old.each.opening ≡ desk.old.opening }
{
    let Some(reader) = readers.take() else {
        return Err(unfit());
    };
    let Ok(cached) = CachedReader::new(rt.alloc(), reader, 1) else {
        return Err(AllocError.into());
    };
    println!(rt; "prepared")?;
    if are_made {
        call(rt, desk, readers, &cached, refused)
    } else {
        Ok(())
    }
}

/// Makes the calls, and prints their answers.
fn call<R: Wait + Print>(
    rt: &R,
    desk: &mut Desk,
    readers: &mut Readers,
    cached: &CachedReader,
    refused: Vec<Edit>,
) -> io::Result<()>
    requires { readers.old.each.opening ≡ desk.old.opening }
{
    tell_and_learn(rt, desk, readers)?;
    println!(rt; "hits {}", cached.hits())?;
    println!(rt; "digest {}", desk.digest().number())?;
    refuse(rt, desk, refused)
}

/// Stages the edits that are accepted, and keeps those that are refused later.
fn stage_lines(
    alloc: Global,
    desk: &mut Desk,
    lines: &str,
    refused: &mut Vec<Edit>,
) -> io::Result<()>
    ensures { desk.new.opening ≡ desk.old.opening }
{
    for line in lines.lines() {
        stage_line(alloc, desk, line, refused)?;
    }
    Ok(())
}

/// Stages the edit of a line, or keeps it.
fn stage_line(alloc: Global, desk: &mut Desk, line: &str, refused: &mut Vec<Edit>) -> io::Result<()>
    ensures { desk.new.opening ≡ desk.old.opening }
{
    let (how, edit) = line.split_once(' ').unwrap_or((line, ""));
    let Ok(Some(DeskLine::Edit(edit))) = read_desk(alloc, edit.as_bytes()) else {
        return Err(unfit());
    };
    if how == "refused" {
        refused.push(edit)?;
        return Ok(());
    }
    match desk.stage(edit) {
        Ok(_) => Ok(()),
        Err(_) => Err(unfit()),
    }
}

/// Tells the second reader what is published, and prints whether there is a third one. Commits with nothing pending.
fn tell_and_learn<R: Wait + Print>(rt: &R, desk: &mut Desk, readers: &mut Readers) -> io::Result<()>
    requires { readers.old.each.opening ≡ desk.old.opening }
{
    let Some(mut reader) = readers.take() else {
        return Err(unfit());
    };
    learn(rt, desk, &mut reader)?;
    println!(rt; "a third reader: {}", readers.take().is_some())?;
    commit(rt, desk)
}

/// Tells a reader what is published, and prints the editions.
fn learn<R: Print>(rt: &R, desk: &mut Desk, reader: &mut Reader) -> io::Result<()>
    requires { reader.old.opening ≡ desk.old.opening }
{
    let told = desk.tell();
    print!(rt; "told, edition {}", told.edition())?;
    reader.learn(told);
    println!(rt; ", and learned, edition {}", reader.edition())
}

/// Prints how a desk refuses each edit, and then the edition again.
fn refuse<R: Wait + Print>(rt: &R, desk: &mut Desk, refused: Vec<Edit>) -> io::Result<()> {
    for edit in refused.into_iter() {
        refuse_edit(rt, desk, edit)?;
    }
    commit(rt, desk)
}

/// Prints how a desk refuses an edit.
fn refuse_edit<R: Print>(rt: &R, desk: &mut Desk, edit: Edit) -> io::Result<()> {
    match desk.stage(edit) {
        Ok(pending) => println!(rt; "staged, pending {pending}"),
        Err(error) => println!(rt; "refused, code {}", error.code()),
    }
}

/// Prints the texts of a desk's answers.
fn write_replies<R: Print>(rt: &R) -> io::Result<()> {
    print_written(rt, &write_desk(&DeskReply::Staged(1)))?;
    print_written(rt, &write_desk(&DeskReply::Committed(u64::MAX)))?;
    print_written(rt, &write_desk(&DeskReply::Refused(22)))
}

/// Prints a text, which ends with byte 10.
fn print_written<R: Print>(rt: &R, text: &DeskText) -> io::Result<()> {
    match std::str::from_utf8(text.bytes()) {
        Ok(text) => print!(rt; "{text}"),
        Err(_) => Err(unfit()),
    }
}

/// The table is not as it should be.
fn unfit() -> io::Error {
    io::Error::from(io::ErrorKind::InvalidData)
}
