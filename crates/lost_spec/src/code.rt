//! The numbers of refusals and faults.
ghost use Rattle.std.specs.Prelude.{◌≡◌, ℕ};

/// A refusal or a fault that has a number, as tables and the desk's lines show it.
pub trait Coded {
    // The number of each.
    ghost code_of: { Self → ℕ };

    /// Its number.
    fn code(self) -> u8
        ensures { result ≡ code_of self };
}
