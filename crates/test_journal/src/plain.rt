//! A row that is run by a desk without a journal.
use crate::listed::Listed;
use lost_book::Limits;
use lost_desk::{Desk, open_desk};
use lost_worker::{Turns, Watched, serve_desk};
use std::alloc::{AllocError, Global};
use std::io;
use std::sync::Wait;

/// How lines are answered without a journal.
#[derive(Drop)]
pub(crate) struct Plain {
    pub(crate) replies: Vec<u8>,
    pub(crate) published: Listed,
    pub(crate) staged: Listed,
}

/// Answers lines by a new desk without a journal.
pub(crate) fn answer_plainly<R: Wait + AllocGlobal>(
    rt: &R,
    limits: Limits,
    lines: &[u8],
) -> io::Result<Plain> {
    match open_desk(rt, rt.alloc(), limits, 1) {
        Ok((mut desk, _readers)) => {
            let plain = answer(rt, &mut desk, lines);
            desk.close(rt);
            plain
        }
        Err(_) => Err(AllocError.into()),
    }
}

/// Answers lines by a desk.
fn answer<R: Wait + AllocGlobal>(rt: &R, desk: &mut Desk, lines: &[u8]) -> io::Result<Plain> {
    let mut input = Watched::new(lines);
    let mut output = Watched::new(Vec::new(rt.alloc()));
    let served = serve_desk(rt, rt.alloc(), &mut input, &mut output, desk, Turns::USUAL);
    if served.is_err() {
        return Err(AllocError.into());
    }
    Ok(Plain {
        replies: output.into_inner(),
        published: Listed::published(desk),
        staged: Listed::staged(desk),
    })
}

/// The lines, or the replies to them.
type Text = Vec<u8>;

/// Those lines whose replies are none of these refusals, and the replies to them.
pub(crate) fn not_refused(
    alloc: Global,
    lines: &[u8],
    replies: &[u8],
    refusals: &[&[u8]],
) -> Result<(Text, Text), AllocError> {
    let (mut kept, mut answers) = (Vec::new(alloc), Vec::new(alloc));
    let mut reply_lines = replies.split(|byte| *byte == b'\n');
    for line in lines.split(|byte| *byte == b'\n') {
        let reply = reply_lines.next().unwrap_or(b"");
        if !line.is_empty() && !(&*refusals).contains(&reply) {
            add_line(&mut kept, line)?;
            add_line(&mut answers, reply)?;
        }
    }
    Ok((kept, answers))
}

/// Adds a line and its byte 10.
fn add_line(text: &mut Text, line: &[u8]) -> Result<(), AllocError> {
    text.extend_from_slice(line)?;
    text.push(b'\n')?;
    Ok(())
}
