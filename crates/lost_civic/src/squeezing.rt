//! Comparison texts, by which two values are compared.

ghost use Rattle.std.specs.Prelude.{◌≡◌, ◌==◌, ◌<◌, ◌++◌, not, IfOk, OnOk, string_bytes, string_len, encode_utf8};
ghost use Rattle.std.specs.Char.{to_ascii_lowercase};
ghost use Rattle.lost_spec.specs.Civic.{is_white, comparison_text};
ghost use Rattle.lost_civic.specs.Squeezed.{gap};

use std::alloc::{AllocError, Global};

/// Whether the character is white space: one of the codes 9 to 13, and 32.
fn is_white_space(character: char) -> bool
    ensures { result ≡ is_white character }
{
    matches!(character, '\u{9}'..='\u{d}' | ' ')
}

/// Appends a character in lower case, after one space where white space stands between it and the text before.
fn push_character(text: &mut String, after_white: bool, character: char) -> Result<(), AllocError>
    ensures written { OnOk result
        (string_bytes text.new
        ≡ string_bytes text.old
        ++ (gap (not (string_len text.old == 0)) after_white ++ encode_utf8 (to_ascii_lowercase character))) }
    ensures started { OnOk result (0 < string_len text.new) }
{
    if after_white && !text.is_empty() {
        text.push(' ')?;
    }
    text.push(character.to_ascii_lowercase())
}

/// The comparison text of a value: each run of white space is one space, both ends are trimmed, and ASCII letters
/// are in lower case. It is never longer than the value.
pub(crate) fn make_comparison_text(alloc: Global, value: &str) -> Result<String, AllocError>
    ensures { IfOk result (λ text. string_bytes text ≡ comparison_text value.now) }
{
    let mut text = String::with_capacity(alloc, value.len())?;
    let mut after_white = false;
    for character in value.chars() {
        if is_white_space(character) {
            after_white = true;
        } else {
            push_character(&mut text, after_white, character)?;
            after_white = false;
        }
    }
    Ok(text)
}
