//! The names beside a journal's.
use std::alloc::{AllocError, Global};

/// Where a journal stands until it is put into its place.
pub(crate) fn begun_name(alloc: Global, path: &str) -> Result<String, AllocError> {
    format!(in alloc; "{path}.new")
}

/// The folder that a path's last name stands in.
pub(crate) fn folder_of(path: &str) -> &str {
    match path.rsplit_once('/') {
        None => ".",
        Some(("", _)) => "/",
        Some((folder, _)) => folder,
    }
}
