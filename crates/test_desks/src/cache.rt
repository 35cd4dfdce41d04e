//! A desk and two readers: one has a cache of one place, and the other one answers over a keeper of one set that counts
//! its calls. First come the capacities that are refused, and what the reader that is handed back then answers, and
//! last the counts. If memory is refused for a desk, a cache or a question, it is asked for again.

use crate::counting::Counting;
use crate::orders::{QUESTION, is_ordered, opened, print_reply, say_memory};
use lost_desk::{Desk, Reader, Readers};
use lost_spec::Coded;
use lost_worker::{CacheRefusal, CachedReader, Replier};
use std::alloc::AllocError;
use std::rt::Files;
use std::sync::Wait;
use std::{fs, io};
use test_parts::Setting;

/// The line between two sessions of the file.
const NEXT: &str = "next\n";

/// Runs the sessions of `cache.lines`, each with a desk of its own.
pub(crate) fn run<R: Files + Wait + Print + AllocGlobal>(rt: &R) -> io::Result<()> {
    let text = fs::read_to_string(rt, "cache.lines")?;
    for session in text.as_str().split(NEXT) {
        run_session(rt, session)?;
    }
    Ok(())
}

/// Runs the lines of a session.
fn run_session<R: Wait + Print + AllocGlobal>(rt: &R, text: &str) -> io::Result<()> {
    let Some((mut desk, mut readers)) = opened(rt, 2)? else {
        return Ok(());
    };
    let result = take_and_answer(rt, &mut desk, &mut readers, text);
    desk.close(rt);
    result
}

/// Takes both readers, prints which capacities are refused, and answers lines.
fn take_and_answer<R: Wait + Print + AllocGlobal>(
    rt: &R,
    desk: &mut Desk,
    readers: &mut Readers,
    text: &str,
) -> io::Result<()> {
    let setting = Setting::new(rt.alloc())?;
    let Some(mut cached) = cached(rt, readers, &setting)? else {
        return Ok(());
    };
    let Some(mut reader) = readers.take() else {
        return Ok(());
    };
    answer_lines(rt, desk, &mut cached, &mut reader, &setting, text)
}

/// A reader with a cache of one place, after it was refused caches of too few and too many.
fn cached<R: Print + AllocGlobal>(
    rt: &R,
    readers: &mut Readers,
    setting: &Setting,
) -> io::Result<Option<CachedReader>> {
    let Some(mut reader) = readers.take() else {
        return Ok(None);
    };
    for capacity in [0, 65_537, 1] {
        match CachedReader::new(rt.alloc(), reader, capacity) {
            Ok(cached) => return Ok(Some(cached)),
            Err(refusal) => reader = handed_back(rt, refusal, capacity, setting)?,
        }
    }
    match CachedReader::new(rt.alloc(), reader, 1) {
        Ok(cached) => Ok(Some(cached)),
        Err(_) => Err(AllocError.into()),
    }
}

/// Prints how a reader is refused a cache of so many places, and has the reader that is handed back answer. Gives it
/// back.
fn handed_back<R: Print + AllocGlobal>(
    rt: &R,
    refusal: CacheRefusal,
    capacity: u32,
    setting: &Setting,
) -> io::Result<Reader> {
    println!(rt;
        "capacity {capacity}: refused, code {}",
        refusal.code.code()
    )?;
    let mut reader = refusal.reader;
    print_answer(rt, &mut reader, setting, QUESTION)?;
    Ok(reader)
}

/// Prints the answer of a replier to a line. If memory is refused, it is asked again, once.
fn print_answer<R: Print + AllocGlobal, P: Replier>(
    rt: &R,
    replier: &mut P,
    setting: &Setting,
    line: &[u8],
) -> io::Result<()> {
    let (name, moment) = (&setting.name, &setting.moment);
    let mut reply = replier.reply_line(rt.alloc(), name, moment, line);
    if reply.is_err() {
        say_memory(rt)?;
        reply = replier.reply_line(rt.alloc(), name, moment, line);
    }
    print_reply(rt, reply)
}

/// Answers each line that is not empty, and prints the counts.
#[tactic(auto, using(crate::proofs::CountingLemmas::nothing_is_right))]
fn answer_lines<R: Wait + Print + AllocGlobal>(
    rt: &R,
    desk: &mut Desk,
    cached: &mut CachedReader,
    reader: &mut Reader,
    setting: &Setting,
    text: &str,
) -> io::Result<()> {
    let (name, moment) = (&setting.name, &setting.moment);
    let mut sets = Counting::new();
    for line in text.lines() {
        if !line.is_empty() && !is_ordered(rt, desk, line)? {
            let bytes = line.as_bytes();
            print_answer(rt, cached, setting, bytes)?;
            let mut reply = reader.reply_line_over(rt.alloc(), &mut sets, name, moment, bytes);
            if reply.is_err() {
                say_memory(rt)?;
                reply = reader.reply_line_over(rt.alloc(), &mut sets, name, moment, bytes);
            }
            print_reply(rt, reply)?;
        }
    }
    print_counts(rt, cached.hits(), &sets)
}

/// Prints the counts of both readers.
fn print_counts<R: Print>(rt: &R, hits: u64, sets: &Counting) -> io::Result<()> {
    println!(rt; "hits {hits}")?;
    println!(rt;
        "finds {}, sets {}, keeps {}",
        sets.finds, sets.found, sets.keeps
    )
}
