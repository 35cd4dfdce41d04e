//! Answers the lines of a connection.

use crate::moments::Moments;
use crate::replier::Replier;
use lost_json::{bad_request, internal_error};
use lost_lines::{Answer, Answerer, Text};
use lost_mapping::Source;
use std::alloc::Global;

/// Answers the lines of a connection under one server name. Each line that goes to the replier takes a moment.
#[derive(Drop)]
pub(crate) struct Serving<'n, 'p, 'm, P: Replier, M: Moments> {
    pub(crate) name: &'n Source,
    pub(crate) replier: &'p mut P,
    pub(crate) moments: &'m mut M,
}

impl<P: Replier, M: Moments> Answerer for Serving<'_, '_, '_, P, M> {
    ghost use Rattle.lost_worker.specs.Serving.{Serves};

    ghost step = { Serves P.reader M.coming };

    fn answer(&mut self, alloc: Global, line: &[u8]) -> Answer {
        let moment = self.moments.now();
        match self.replier.reply_line(alloc, self.name, &moment, line) {
            Ok(text) => Answer {
                text: Text::Kept(text),
                is_internal_error: false,
            },
            Err(_) => internal_error(),
        }
    }

    fn answer_long(&mut self) -> Answer {
        bad_request()
    }

    fn answer_unread(&mut self) -> Answer {
        internal_error()
    }
}
