//! Numbers of things.
use crate::stop::{Stop, found};
use std::alloc::Global;

/// Why there are too many of something. `what` names the things, and `name` what has them.
pub(crate) fn at_most(
    alloc: Global,
    name: &str,
    what: &str,
    count: usize,
    most: usize,
) -> Result<(), Stop> {
    if count > most {
        return Err(found(format!(in alloc;
            "{name}: it has {count} {what}, and at most {most} are allowed"
        )));
    }
    Ok(())
}
