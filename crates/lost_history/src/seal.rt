//! The seals of a history.
use crate::change::Change;
use crate::rule::Rises;
use logbook::Word;
use std::marker::Model;

/// A seal of a history. Each history has two, which are made when it opens. Nobody can make a third or copy one, so at
/// most two things that hold a seal are of one history. Contracts see it as its opening.
#[derive(Drop)]
pub struct Seal {
    pub(crate) word: Word<Change, u64, Rises>,
}

impl Model for Seal {
    ghost use Rattle.lost_history.specs.History.{Opening};
    ghost use Rattle.lost_history.specs.Rules.{IsSeal};

    ghost Value = { Opening };

    ghost view = { λ s. s.word.book };

    ghost invariant = { λ s. IsSeal s.word };
}
