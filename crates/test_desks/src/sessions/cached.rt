//! One session through a desk and a reader that keeps places.
use lost_book::{Edit, Limits};
use lost_desk::{Desk, Reader, open_desk};
use lost_json::{
    DeskFault, DeskLine, DeskReply, bad_request, desk_answer, internal_error, read_desk,
};
use lost_lines::{Answer, Answerer, NoGate, Text, Turns, Watched, run_lines};
use lost_mapping::MappingError;
use lost_spec::Coded;
use lost_worker::{CachedReader, Replier};
use std::alloc::Global;
use std::sync::Wait;
use test_parts::Setting;

/// Answers the lines of a session: desk lines by the desk, and other lines by the reader.
#[derive(Drop)]
struct Cached<'r, 'd, 's, R: Wait> {
    rt: &'r R,
    desk: &'d mut Desk,
    reader: CachedReader,
    setting: &'s Setting,
}

impl<R: Wait> Answerer for Cached<'_, '_, '_, R> {
    ghost step = { λ _ _ _ _. Unit {0} };

    fn answer(&mut self, alloc: Global, line: &[u8]) -> Answer {
        match read_desk(alloc, line) {
            Ok(Some(DeskLine::Edit(edit))) => stage(self.desk, edit),
            Ok(Some(DeskLine::Commit)) => commit(self.rt, self.desk),
            Ok(None) => request(alloc, &mut self.reader, self.setting, line),
            Err(DeskFault::Mapping(MappingError::Memory)) => internal_error(),
            Err(fault) => desk_answer(DeskReply::Refused(fault.code())),
        }
    }

    fn answer_long(&mut self) -> Answer {
        bad_request()
    }

    fn answer_unread(&mut self) -> Answer {
        internal_error()
    }
}

/// Stages an edit.
fn stage(desk: &mut Desk, edit: Edit) -> Answer {
    match desk.stage(edit) {
        Ok(pending) => desk_answer(DeskReply::Staged(pending)),
        Err(error) => desk_answer(DeskReply::Refused(error.code())),
    }
}

/// Publishes all that is staged.
fn commit<R: Wait>(rt: &R, desk: &mut Desk) -> Answer {
    match desk.commit(rt) {
        Ok(edition) => desk_answer(DeskReply::Committed(edition)),
        Err(_) => desk_answer(DeskReply::Refused(20)),
    }
}

/// Answers a line that is no desk line.
fn request(alloc: Global, reader: &mut CachedReader, setting: &Setting, line: &[u8]) -> Answer {
    match reader.reply_line(alloc, &setting.name, &setting.moment, line) {
        Ok(text) => Answer {
            text: Text::Kept(text),
            is_internal_error: false,
        },
        Err(_) => internal_error(),
    }
}

/// The replies to the lines of a session, by a desk of these limits and a reader that keeps so many places, or `None`
/// where the run ends in a fault.
pub(crate) fn replies<R: Wait + AllocGlobal>(
    rt: &R,
    lines: &[u8],
    setting: &Setting,
    limits: Limits,
    places: u32,
) -> Option<Vec<u8>> {
    let Ok((mut desk, mut readers)) = open_desk(rt, rt.alloc(), limits, 1) else {
        return None;
    };
    let replies = match readers.take() {
        Some(reader) => replies_of(rt, lines, setting, &mut desk, reader, places),
        None => None,
    };
    desk.close(rt);
    replies
}

/// The replies by this desk and this reader.
fn replies_of<R: Wait + AllocGlobal>(
    rt: &R,
    lines: &[u8],
    setting: &Setting,
    desk: &mut Desk,
    reader: Reader,
    places: u32,
) -> Option<Vec<u8>> {
    let Ok(reader) = CachedReader::new(rt.alloc(), reader, places) else {
        return None;
    };
    let mut cached = Cached {
        rt,
        desk,
        reader,
        setting,
    };
    run(rt.alloc(), lines, &mut cached)
}

/// The replies to the lines of a session, or `None` where the run ends in a fault.
fn run<A: Answerer>(alloc: Global, lines: &[u8], answerer: &mut A) -> Option<Vec<u8>> {
    let mut input = Watched::new(lines);
    let mut output = Watched::new(Vec::new(alloc));
    match run_lines(
        alloc,
        &mut input,
        &mut output,
        answerer,
        &NoGate,
        Turns::USUAL,
    ) {
        Ok(_) => Some(output.into_inner()),
        Err(_) => None,
    }
}
