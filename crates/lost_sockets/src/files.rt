//! How many files a program may have open.
use libc::types::rlimit;
use libc::{RLIMIT_NOFILE, getrlimit};

/// How many files this program may have open, connections and listeners included (`ulimit -n`); `None` if the system
/// does not say.
pub fn most_files() -> Option<u64> {
    let mut limit = rlimit {
        rlim_cur: 0,
        rlim_max: 0,
    };
    if getrlimit(RLIMIT_NOFILE, &mut limit) != 0 {
        return None;
    }
    Some(limit.rlim_cur)
}
