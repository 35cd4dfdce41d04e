//! The trait that lets lines through to be answered.
ghost use Rattle.std.specs.Prelude.{◌≡◌, ℕ, Bool};

/// Asked before a line is answered, and told once its reply is on its way. It holds a line back until it returns. Lines
/// count from 1, those over the limit too.
pub trait Gate {
    /// The answers that it may give for a line number: whether the line is let through.
    ghost says: { Self → ℕ → Bool → Type 0 };

    /// Whether it holds no line back, so that replies may be gathered. Where it is false, each reply is sent before
    /// `after_reply`, and so before the gate is asked about the next line.
    const IS_OPEN: bool;

    /// Whether the line with this number is answered. If not, the stream ends.
    fn before_reply(&self, line: u64) -> bool
        ensures { says self.now line result };

    /// The line with this number was answered.
    fn after_reply(&self, line: u64);
}

/// The gate that lets every line through at once.
#[derive(Drop)]
pub struct NoGate;

impl Gate for NoGate {
    ghost use Rattle.std.specs.Prelude.{◌≡◌, true};

    ghost says = { λ gate line answer. answer ≡ true };

    const IS_OPEN: bool = true;

    fn before_reply(&self, _line: u64) -> bool {
        true
    }

    fn after_reply(&self, _line: u64) {}
}
