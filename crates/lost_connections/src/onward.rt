//! A gate for the lines that come behind others.
ghost use Rattle.std.specs.Prelude.{◌≡◌, ◌+◌, ◌-◌, ◌^◌, min};

use lost_worker::Gate;

/// A gate asked about lines that count on from those that a connection had before.
#[derive(Drop)]
pub(crate) struct Onward<'g, G> {
    pub(crate) gate: &'g G,
    /// How many lines the connection had before.
    pub(crate) before: u64,
}

impl<G: Gate> Gate for Onward<'_, G> {
    ghost says = { λ onward line answer. G.says onward.gate.now (min (onward.before + line) (2 ^ 64 - 1)) answer };

    const IS_OPEN: bool = G::IS_OPEN;

    fn before_reply(&self, line: u64) -> bool {
        self.gate.before_reply(self.before.saturating_add(line))
    }

    fn after_reply(&self, line: u64) {
        self.gate.after_reply(self.before.saturating_add(line));
    }
}
