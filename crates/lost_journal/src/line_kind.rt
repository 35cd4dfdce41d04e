//! What lines a journal has.
ghost use Rattle.std.specs.Prelude.{◌≡◌, ◌≢◌, ◌++◌, ◌∷◌, [], true, false, All, List, ℕ, IsTrue, IsFalse};
ghost use Rattle.lost_lines.specs.Cutting.{newline};
ghost use Rattle.lost_journal.specs.Format.{closed, is_commit as is_commit_line};

use memchr::memchr;

/// How a commit's line begins.
pub const COMMIT_START: &[u8] = b"{\"commit\":";

/// The gate of a commit behind which nothing counts.
pub const CLOSED: u8 = b' ';

/// The gate of a commit behind which another one counts.
pub const OPEN: u8 = b'\t';

/// How the line of the last commit ends.
pub const LAST_END: &[u8] = b" \n";

/// Whether a line is a commit's.
pub fn is_commit(line: &[u8]) -> bool
    ensures { result ≡ is_commit_line line.now }
{
    line.starts_with(COMMIT_START)
}

/// Whether a text has no byte 10.
pub(crate) fn is_unbroken(text: &[u8]) -> bool
    ensures { IsTrue result → All (λ b. b ≢ newline) text.now }
{
    memchr(b'\n', text).is_none()
}

/// Whether a text is a commit's line up to its gate.
pub(crate) fn is_begun_commit(text: &[u8]) -> bool
    ensures unbroken { IsTrue result → All (λ b. b ≢ newline) text.now }
    ensures commit { IsTrue result → is_commit_line text.now ≡ true }
{
    is_commit(text) && is_unbroken(text)
}
