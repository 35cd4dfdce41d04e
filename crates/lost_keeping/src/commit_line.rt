//! The line of a commit in a journal.
use jiff::Timestamp;
use lost_digest::MapDigest;
use std::alloc::{AllocError, Global};
use std::hash::{DefaultHasher, Hasher};
use std::time::Duration;

/// A commit's line up to its time: how many edits are published then, the digest of the map that is held then, and the
/// sum of the bytes since the commit's line before, its SipHash-1-3 under the key 0 (own format).
pub(crate) fn front_of_line(
    alloc: Global,
    edition: u64,
    digest: MapDigest,
    sum: u64,
) -> Result<String, AllocError> {
    let map = digest.text(alloc)?;
    let sum = sum_text(alloc, sum)?;
    format!(in alloc; "{{\"commit\":{{\"edition\":{edition},\"map\":\"{map}\",{sum},\"time\":\"")
}

/// How a sum stands in a commit's line.
pub(crate) fn sum_text(alloc: Global, sum: u64) -> Result<String, AllocError> {
    let sum = hex::encode(alloc, &sum.to_be_bytes())?;
    format!(in alloc; "\"sum\":\"{sum}\"")
}

/// A commit's line up to its gate, from its front and the time since 1970 of the machine's clock; no time if the clock
/// cannot be read.
pub(crate) fn line_of(
    alloc: Global,
    front: &str,
    since: Option<Duration>,
) -> Result<String, AllocError> {
    match moment_of(since) {
        Some(moment) => format!(in alloc; "{front}{moment}\"}}}}"),
        None => format!(in alloc; "{front}\"}}}}"),
    }
}

/// The moment of a time since 1970; none past the end of the calendar.
fn moment_of(since: Option<Duration>) -> Option<Timestamp> {
    let Ok(second) = i64::try_from(since?.as_secs()) else {
        return None;
    };
    Timestamp::from_second(second).ok()
}

/// The first line of a journal: a commit of nothing, with a closed gate and its byte 10.
pub fn first_line(alloc: Global, since: Option<Duration>) -> Result<String, AllocError> {
    let line = line_of_nothing(alloc, since)?;
    format!(in alloc; "{line} \n")
}

/// The line of a commit of nothing, up to its gate.
pub(crate) fn line_of_nothing(
    alloc: Global,
    since: Option<Duration>,
) -> Result<String, AllocError> {
    let front = front_of_line(alloc, 0, MapDigest::empty(), DefaultHasher::new().finish())?;
    line_of(alloc, front.as_str(), since)
}
