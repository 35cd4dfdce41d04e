//! A list that a desk tells a reader.
ghost use Rattle.std.specs.Prelude.{◌≡◌, length};

use lost_history::Front;
use std::marker::Model;

/// The list that was published when the desk told it. Contracts see its opening and the list.
#[derive(Drop)]
pub struct Told {
    pub(crate) front: Front,
}

impl Model for Told {
    ghost use Rattle.lost_history.specs.History.{Beginning};

    ghost Value = { Beginning };

    ghost view = { λ t. t.front };
}

impl Told {
    /// The number of edits in the list.
    pub fn edition(&self) -> u64
        ensures { result ≡ length self.now.list }
    {
        self.front.len()
    }
}
