//! The line that commits.
ghost use Rattle.std.specs.Prelude.{◌≡◌, Some, Ok};
ghost use Rattle.lost_reading.specs.Desk.{Commit, desk_line};
ghost use Rattle.lost_export.specs.Export.{commit_json, commit_text};

/// The desk line that commits what was staged, with its byte 10 (own format).
pub const COMMIT_LINE: &[u8] = b"{\"commit\":{}}\n";

/// The line above is that of a commit, and says to commit.
#[tactic(auto, unfolding(serde_json::proofs::OnLiterals::serde_json_on_literals))]
pub fn law_commit_line()
    ensures text { COMMIT_LINE.now ≡ commit_text }
    ensures reads_back { desk_line commit_json ≡ Some (Ok Commit) }
{}
