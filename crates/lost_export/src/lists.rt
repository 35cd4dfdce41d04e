//! Lists of things, each with one tree.
ghost use Rattle.std.specs.Prelude.{◌≡◌, ◌++◌, map, IfOk, OnOk};
ghost use Rattle.serde_json.specs.Data.{string};
ghost use Rattle.serde_json.specs.View.{view};
ghost use Rattle.lost_mapping.specs.Texts.{texts_of};
ghost use Rattle.lost_export.specs.Export.{list_data, texts_data};

use serde_json::Value;
use std::alloc::{AllocError, Global};

/// A thing that has a tree (own format).
pub(crate) trait Shown {
    ghost use Rattle.serde_json.specs.Data.{Data};

    /// What the tree of a thing is.
    ghost shown: { Self → Data };

    /// The tree of a thing.
    fn tree(&self, alloc: Global) -> Result<Value, AllocError>
        ensures { IfOk result (λ tree. view tree ≡ shown self.now) };
}

impl Shown for String {
    ghost use Rattle.std.specs.Prelude.{string_bytes};

    ghost shown = { λ text. string (string_bytes text) };

    fn tree(&self, alloc: Global) -> Result<Value, AllocError> {
        Value::try_from_str(alloc, self.as_str())
    }
}

/// Adds the tree of each thing to a list.
pub(crate) fn push_each<T: Shown>(
    alloc: Global,
    list: &mut Vec<Value>,
    things: &[T],
) -> Result<(), AllocError>
    ensures { OnOk result (map view list.new.items ≡ map view list.old.items ++ map T.shown things.now) }
{
    for thing in things {
        list.push(thing.tree(alloc)?)?;
    }
    Ok(())
}

/// The list of the trees of these things.
pub(crate) fn list_tree<T: Shown>(alloc: Global, things: &[T]) -> Result<Value, AllocError>
    ensures { IfOk result (λ tree. view tree ≡ list_data T.shown things.now) }
{
    let mut list = Vec::new(alloc);
    push_each(alloc, &mut list, things)?;
    Ok(Value::Array(list))
}

/// The list of these texts.
pub(crate) fn texts_tree(alloc: Global, texts: &[String]) -> Result<Value, AllocError>
    ensures { IfOk result (λ tree. view tree ≡ texts_data (texts_of texts.now)) }
{
    list_tree(alloc, texts)
}
