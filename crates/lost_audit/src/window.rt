//! Questions that wait to be judged, by the editions that they were answered from.
use crate::log_line::{Kept, Question};
use std::alloc::{AllocError, Global};
use std::collections::BTreeMap;

/// The most questions that wait.
pub(crate) const MOST_LINES: usize = 65_536;

/// The most bytes that the questions that wait have, and one more question.
const MOST_BYTES: usize = 67_108_864;

/// A question with its edition and the number of its line.
type Place = (u64, u64);

/// Questions that wait: the one of the smallest edition comes first, and of one edition the one that came first.
#[derive(Drop)]
pub(crate) struct Window {
    questions: BTreeMap<Place, Question>,
    bytes: usize,
}

impl Window {
    /// No questions.
    pub(crate) fn new(alloc: Global) -> Window {
        Window {
            questions: BTreeMap::new(alloc),
            bytes: 0,
        }
    }

    /// Adds the question of a line.
    pub(crate) fn add(&mut self, line: u64, question: Question) -> Result<(), AllocError> {
        let bytes = size_of(&question);
        self.questions.insert((question.edition, line), question)?;
        self.bytes = self.bytes.saturating_add(bytes);
        Ok(())
    }

    /// Whether one must be judged before more are added.
    pub(crate) fn is_full(&self) -> bool {
        self.questions.len() >= MOST_LINES || self.bytes >= MOST_BYTES
    }

    /// The edition of the first question.
    pub(crate) fn first_edition(&self) -> Option<u64> {
        let ((edition, _line), _question) = self.questions.first_key_value()?;
        Some(*edition)
    }

    /// Takes the first question out, with the number of its line.
    pub(crate) fn take(&mut self) -> Option<(u64, Question)> {
        let ((_edition, line), question) = self.questions.pop_first()?;
        self.bytes = self.bytes.saturating_sub(size_of(&question));
        Some((line, question))
    }
}

/// How many bytes a question has.
fn size_of(question: &Question) -> usize {
    let kept = match &question.kept {
        Kept::Whole(reply) => reply.len(),
        Kept::Digest(_) | Kept::Nothing => 0,
    };
    question.request.len().saturating_add(kept)
}
