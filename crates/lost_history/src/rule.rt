//! The rule of the history, and its one kind of step.
use crate::change::Change;
use logbook::{Gain, Opening, Plain, Play, Rule};
use std::marker::{Brand, PhantomData};

/// The rule: the word of the history is its length.
pub struct Rises;

impl Rule<Change, u64> for Rises {
    ghost use Rattle.std.specs.Prelude.{[]};
    ghost use base.Fml.{ftrue};
    ghost use Rattle.lost_history.specs.Rules.{IsCounted};

    ghost holds = { λ cells log. IsCounted cells log };

    ghost first = { [] };

    ghost hinted = { λ n log. Unit {0} };

    ghost shows = { λ log. [] };

    ghost keeps = { λ names log. ftrue };

    ghost moves = { λ ask before after answer. Unit {0} };
}

/// A history opens empty.
pub(crate) struct Empty;

impl Opening<(), Change> for Empty {
    ghost use Rattle.std.specs.Prelude.{[]};

    ghost log = { λ words about. [] };
}

/// Callers trade nothing.
pub(crate) struct Nothing;

impl Gain<Change, u64> for Nothing {
    ghost use base.Fml.{ftrue};

    ghost after = { λ names about answer. ftrue };
}

/// The list that the history is to become. Each call picks it.
pub trait Aim {
    ghost use Rattle.std.specs.Prelude.{List};
    ghost use Rattle.lost_spec.specs.Book as spec;

    ghost list: { List spec.Edit };
}

impl Aim for Brand {
    ghost use Rattle.std.specs.Prelude.{[]};

    ghost list = { [] };
}

/// A step that makes the history the list of its aim.
pub(crate) struct Reaches<A: Aim> {
    aim: PhantomData<A>,
}

impl<A: Aim> Play<Change, u64> for Reaches<A> {
    ghost use Rattle.lost_history.specs.Rules.{reached};

    ghost then = { reached A.list };
}

/// A step asks for nothing beside its aim.
impl<A: Aim> Plain<(), Change, u64> for Reaches<A> {
    ghost use Rattle.std.specs.Prelude.{None};
    ghost use Rattle.lost_history.specs.Rules.{any_edit};

    ghost ask = { λ _. any_edit };

    ghost state = { λ _. None };
}
