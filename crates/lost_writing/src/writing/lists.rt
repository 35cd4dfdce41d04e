//! Lists of things, each written in one way.
ghost use Rattle.std.specs.Prelude.{◌≡◌, map, OnOk};
ghost use Rattle.serde_json.specs.Data.{string};
ghost use Rattle.lost_mapping.specs.Texts.{texts_of};
ghost use Rattle.lost_mapping.specs.Path.{shown_path};
ghost use Rattle.lost_writing.specs.Replies.{list_data, texts_data};
ghost use Rattle.lost_writing.specs.Tokens.{then_value, then_values};

use crate::token_text::TokenText;
use lost_mapping::Path;
use std::alloc::AllocError;
use std::borrow::CowStr;

/// A thing that is written as a tree (own format).
pub(crate) trait Written {
    ghost use Rattle.serde_json.specs.Data.{Data};

    /// The tree of a thing.
    ghost tree: { Self → Data };

    /// Writes the tokens of the tree.
    fn write(&self, text: &mut TokenText) -> Result<(), AllocError>
        ensures { OnOk result (text.new ≡ then_value (tree self.now) text.old) };
}

impl Written for String {
    ghost use Rattle.std.specs.Prelude.{string_bytes};

    ghost tree = { λ text. string (string_bytes text) };

    fn write(&self, text: &mut TokenText) -> Result<(), AllocError> {
        text.text(self.as_str())
    }
}

impl Written for CowStr<'_> {
    ghost use Rattle.std.specs.Cow.{cow_str_bytes};

    ghost tree = { λ text. string (cow_str_bytes text) };

    fn write(&self, text: &mut TokenText) -> Result<(), AllocError> {
        text.text(self.as_str())
    }
}

/// Writes each thing, without the brackets of a list.
#[tactic(auto, using(crate::proofs::TokenLemmas::values_more))]
pub(crate) fn write_each<T: Written>(text: &mut TokenText, things: &[T]) -> Result<(), AllocError>
    ensures { OnOk result (text.new ≡ then_values (map T.tree things.now) text.old) }
{
    for thing in things {
        thing.write(text)?;
    }
    Ok(())
}

/// Writes the list of these things.
#[tactic(auto, using(crate::proofs::TokenLemmas::list_written))]
pub(crate) fn write_list<T: Written>(text: &mut TokenText, things: &[T]) -> Result<(), AllocError>
    ensures { OnOk result (text.new ≡ then_value (list_data T.tree things.now) text.old) }
{
    text.begin_list()?;
    write_each(text, things)?;
    text.end_list()
}

/// Writes the list of these texts.
pub(crate) fn write_texts(text: &mut TokenText, texts: &[String]) -> Result<(), AllocError>
    ensures { OnOk result (text.new ≡ then_value (texts_data (texts_of texts.now)) text.old) }
{
    write_list(text, texts)
}

/// Writes the list of the names of a reply's path (RFC 5222, section 6).
pub(crate) fn write_path(text: &mut TokenText, path: &Path<'_>) -> Result<(), AllocError>
    ensures { OnOk result (text.new ≡ then_value (texts_data (shown_path path.now)) text.old) }
{
    text.begin_list()?;
    write_each(text, path.names)?;
    text.text(path.server.text())?;
    text.end_list()
}
