//! The right to make a history grow.
ghost use Rattle.std.specs.Prelude.{◌≡◌, []};

use crate::change::Change;
use crate::front::Front;
use crate::rule::{Empty, Rises};
use crate::seal::Seal;
use logbook::{Seen, Start, Word};
use std::marker::Model;

/// The right to make a history grow: its word. Contracts see it as its opening.
#[derive(Drop)]
pub struct Head {
    pub(crate) word: Word<Change, u64, Rises>,
}

impl Model for Head {
    ghost use Rattle.std.specs.Prelude.{◌≡◌};
    ghost use Rattle.lost_history.specs.History.{Opening};
    ghost use Rattle.lost_history.specs.Rules.{word_of};

    ghost Value = { Opening };

    ghost view = { λ h. h.word.book };

    ghost invariant = { λ h. h.word ≡ word_of h.word.book };
}

/// A new history, which is empty, with its front and its two seals.
pub fn open_history() -> (Head, Front, (Seal, Seal))
    ensures opening { result.1.opening ≡ result.0 }
    ensures empty { result.1.list ≡ [] }
    ensures seals { (result.2.0 ≡ result.0) × (result.2.1 ≡ result.0) }
{
    let (seen, mut words) = Seen::open_row::<(), Empty>(&(), Start::alone(), 3);
    let (mut first, mut second, mut third) = (words.take(), words.take(), words.take());
    let head = Head {
        word: Word::tracked(0, &mut first),
    };
    let seals = (
        Seal {
            word: Word::tracked(0, &mut second),
        },
        Seal {
            word: Word::tracked(0, &mut third),
        },
    );
    (head, Front::first(seen), seals)
}
