//! An answerer of lines.
ghost use Rattle.lost_lines.specs.Run.{Cut, Reply};

use lost_lines::{Answer, Answerer, Text};
use lost_spec::DeskText;
use std::alloc::{AllocError, Global};

/// Answers a line with its length. Lines that were kept whole get texts of each kind.
#[derive(Drop)]
pub(crate) struct Lengths;

impl Lengths {
    /// The text of a length.
    fn spelled(alloc: Global, length: usize) -> Result<Text, AllocError> {
        let text = format!(in alloc; "{length}\n")?;
        Ok(Text::Kept(text.into_bytes()))
    }
}

impl Answerer for Lengths {
    ghost step = { λ _ _ _ _. Unit {0} };

    fn answer(&mut self, alloc: Global, line: &[u8]) -> Answer {
        let text = match line.len() {
            0 => Ok(Text::Constant(b"0\n")),
            1 => Ok(Text::Short(short(b"1\n"))),
            length => Lengths::spelled(alloc, length),
        };
        match text {
            Ok(text) => Answer {
                text,
                is_internal_error: false,
            },
            Err(_) => refused(),
        }
    }

    fn answer_long(&mut self) -> Answer {
        Answer {
            text: Text::Constant(b"long\n"),
            is_internal_error: false,
        }
    }

    fn answer_unread(&mut self) -> Answer {
        refused()
    }
}

/// A text that takes no memory.
fn short(part: &'static [u8; 2]) -> DeskText {
    let mut text = DeskText::new();
    text.push(part);
    text
}

/// The answer where memory is refused.
fn refused() -> Answer {
    Answer {
        text: Text::Constant(b"refused\n"),
        is_internal_error: true,
    }
}
