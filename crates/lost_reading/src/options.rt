//! The path of a request, and how it wants boundaries.
ghost use Rattle.std.specs.Prelude.{◌≡◌, option_map};
ghost use Rattle.serde_json.specs.View.{members_view};
ghost use Rattle.lost_mapping.specs.Request.{path_names};
ghost use Rattle.lost_reading.specs.Gives.{Gives};
ghost use Rattle.lost_reading.specs.Requests.{path_kind, path_in, preference, by_value_kind};

use crate::reading::{Kind, defaulting};
use crate::request::ReadError;
use serde_json::{Map, Value};
use std::alloc::Global;
use std::borrow::CowStr;

/// The most names of a path (own rule).
pub const MAX_NAMES: usize = 32;

/// At most 32 texts: the names of the servers that a request came through (RFC 5222, section 6; bound own).
#[derive(Drop)]
pub(crate) struct Path<'a>(pub Vec<CowStr<'a>>);

impl<'a> Kind for Path<'a> {
    ghost use Rattle.std.specs.Prelude.{List};
    ghost use Rattle.lost_spec.specs.Text.{Text};

    ghost Seen = { List Text };

    ghost seen = { λ path. path_names path.0.items };

    ghost meant = { path_kind };

    fn read(alloc: Global, value: &Value) -> Result<Path<'a>, ReadError> {
        let names = Vec::<CowStr<'a>>::read(alloc, value)?;
        if names.len() <= MAX_NAMES {
            Ok(Path(names))
        } else {
            Err(ReadError::BadRequest)
        }
    }
}

/// The path of a request, empty if it has none.
pub(crate) fn read_path<'a>(
    alloc: Global,
    members: &Map<String, Value>,
) -> Result<Vec<CowStr<'a>>, ReadError>
    ensures { Gives (λ path. path_names path.items) result (path_in (members_view members.now.entries)) }
{
    let path = defaulting(alloc, members, "path", Path(Vec::new(alloc)))?;
    Ok(path.0)
}

/// Whether boundaries are wanted by value: `value`, or `reference` (RFC 5222, section 8.3.4).
#[derive(Drop)]
pub(crate) struct ByValue(pub bool);

impl Kind for ByValue {
    ghost use Rattle.std.specs.Prelude.{Bool};

    ghost Seen = { Bool };

    ghost seen = { λ wanted. wanted.0 };

    ghost meant = { by_value_kind };

    fn read(_alloc: Global, value: &Value) -> Result<ByValue, ReadError> {
        match value.as_str() {
            Some(text) => read_preference(text),
            None => Err(ReadError::BadRequest),
        }
    }
}

fn read_preference(text: &str) -> Result<ByValue, ReadError>
    ensures { Gives (λ wanted. wanted.0) result (preference text.now) }
{
    match by_value(text) {
        Some(wanted) => Ok(ByValue(wanted)),
        None => Err(ReadError::BadRequest),
    }
}

/// Whether a text asks for boundaries by value: `value` does, and `reference` does not (RFC 5222, section 8.3.4).
/// `None` for any other text.
pub fn by_value(text: &str) -> Option<bool>
    ensures { result ≡ preference text.now }
{
    if "value" == text {
        Some(true)
    } else if "reference" == text {
        Some(false)
    } else {
        None
    }
}
