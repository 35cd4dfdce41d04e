//! Members of objects.
ghost use Rattle.std.specs.Prelude.{◌≡◌, OnOk, codes};
ghost use Rattle.serde_json.specs.Data.{number, string, unsigned};
ghost use Rattle.lost_mapping.specs.Texts.{texts_of};
ghost use Rattle.lost_mapping.specs.Path.{shown_path};
ghost use Rattle.lost_writing.specs.Replies.{list_data, texts_data};
ghost use Rattle.lost_writing.specs.Tokens.{then_member, then_member_if};
ghost use Rattle.lost_writing.specs.Written.{list_if_any};

use crate::token_text::TokenText;
use crate::writing::lists::{Written, write_list, write_path, write_texts};
use lost_mapping::Path;
use std::alloc::AllocError;

/// Writes a text under a name.
pub(crate) fn text_member(text: &mut TokenText, name: &str, value: &str) -> Result<(), AllocError>
    ensures { OnOk result (text.new ≡ then_member name.now (string value.now) text.old) }
{
    text.name(name)?;
    text.text(value)
}

/// Writes a count under a name.
pub(crate) fn count_member(text: &mut TokenText, name: &str, count: u64) -> Result<(), AllocError>
    ensures { OnOk result (text.new ≡ then_member name.now (number (unsigned count)) text.old) }
{
    text.name(name)?;
    text.count(count)
}

/// Writes texts under a name.
pub(crate) fn texts_member(
    text: &mut TokenText,
    name: &str,
    texts: &[String],
) -> Result<(), AllocError>
    ensures { OnOk result (text.new ≡ then_member name.now (texts_data (texts_of texts.now)) text.old) }
{
    text.name(name)?;
    write_texts(text, texts)
}

/// Writes the path of a reply (RFC 5222, section 6).
pub(crate) fn path_member(text: &mut TokenText, path: &Path<'_>) -> Result<(), AllocError>
    ensures { OnOk result (text.new ≡ then_member (codes "path") (texts_data (shown_path path.now)) text.old) }
{
    text.name("path")?;
    write_path(text, path)
}

/// Writes a list of things under a name.
pub(crate) fn list_member<T: Written>(
    text: &mut TokenText,
    name: &str,
    things: &[T],
) -> Result<(), AllocError>
    ensures { OnOk result (text.new ≡ then_member name.now (list_data T.tree things.now) text.old) }
{
    text.name(name)?;
    write_list(text, things)
}

/// Writes a list of things under a name, if there are any.
pub(crate) fn list_member_if_any<T: Written>(
    text: &mut TokenText,
    name: &str,
    things: &[T],
) -> Result<(), AllocError>
    ensures { OnOk result (text.new ≡ then_member_if name.now (list_if_any T.tree things.now) text.old) }
{
    if things.is_empty() {
        return Ok(());
    }
    list_member(text, name, things)
}
