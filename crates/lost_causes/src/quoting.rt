//! Texts of a line as a cause shows them.
use serde_json::Value;
use std::alloc::{AllocError, Global};

/// The most characters shown of a text.
const MOST_SHOWN: usize = 80;

/// A text as JSON has it, so that it breaks no line. A long text is cut, with three dots.
pub(crate) fn quoted(alloc: Global, text: &str) -> Result<String, AllocError> {
    let mut shown = String::new(alloc);
    for character in text.chars().take(MOST_SHOWN) {
        shown.push(character)?;
    }
    if shown.len() < text.len() {
        shown.push_str("...")?;
    }
    Value::String(shown).to_string(alloc)
}
