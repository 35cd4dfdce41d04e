//! A gate that records what it is asked and told.
use lost_lines::Gate;
use test_parts::{Diary, Event};

/// Records in a diary what it is asked and told, and refuses the line with a number and all after it.
#[derive(Drop)]
pub(crate) struct RecordingGate<'d> {
    pub(crate) diary: &'d Diary,
    pub(crate) refused: u64,
}

impl Gate for RecordingGate<'_> {
    ghost says = { λ _ _ _. Unit {0} };

    const IS_OPEN: bool = false;

    fn before_reply(&self, line: u64) -> bool {
        self.diary.record(Event::Asked(line));
        line < self.refused
    }

    fn after_reply(&self, line: u64) {
        self.diary.record(Event::Told(line));
    }
}
