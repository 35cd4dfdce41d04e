//! The progress through a long input, on standard error.
use lost_lines::Gate;

/// After how many lines the progress is reported.
const STEP: u64 = 100_000;

/// The gate that lets every line through at once and, if wanted, reports after each 100,000 lines how many were read.
#[derive(Clone, Copy)]
pub(crate) struct Progress<'a, R> {
    pub(crate) rt: &'a R,
    pub(crate) is_shown: bool,
}

impl<R: Eprint> Gate for Progress<'_, R> {
    ghost use Rattle.std.specs.Prelude.{◌≡◌, true};

    ghost says = { λ gate line answer. answer ≡ true };

    const IS_OPEN: bool = true;

    fn before_reply(&self, _line: u64) -> bool {
        true
    }

    fn after_reply(&self, line: u64) {
        if self.is_shown && line % STEP == 0 {
            // If standard error fails, the check goes on.
            let _said = eprintln!(self.rt; "lostd: {line} lines");
        }
    }
}
