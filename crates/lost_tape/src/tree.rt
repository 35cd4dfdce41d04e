//! A value of a line, read from its tokens in the line's list.
ghost use Rattle.std.specs.Prelude.{◌≡◌, Some, None, Option, IfSome, OnSome, option_map, MatchOption, length, ◌<◌};
ghost use Rattle.std.specs.Bool.{OnTrue};
ghost use Rattle.serde_json.specs.Data.{Items as SpecItems, no_items, item, Members as SpecMembers, no_members, put};
ghost use Rattle.serde_json.specs.Find.{as_bool, as_str, as_array, as_object};
ghost use Rattle.lost_reading.specs.Members.{unless_null, the_member, whole_in, only_member};
ghost use Rattle.lost_tape.specs.Tapes.{data_of, members_of, HoldsItems, HoldsMembers};

use crate::numbers::whole_number;
use json::{Element, Items, Members};
use std::marker::Model;

/// A value of a line. Contracts see the tokens from its first on.
#[derive(Drop)]
pub(crate) struct Tree<'t, 'a> {
    pub(crate) element: Element<'t, 'a>,
}

impl<'t, 'a> Model for Tree<'t, 'a> {
    ghost use Rattle.std.specs.Prelude.{List};
    ghost use Rattle.json.specs.Token.{Token, tokens_code};
    ghost use Rattle.lost_tape.specs.Tapes.{IsTree};

    ghost Value = { List Token };

    ghost coded = { tokens_code };

    ghost view = { λ t. t.element };

    ghost invariant = { λ t. IsTree t.element };
}

impl<'t, 'a> Tree<'t, 'a> {
    /// The text, if this is one.
    pub(crate) fn text(&self) -> Option<&'a str>
        ensures { IfSome result (λ text. as_str (data_of self.now) ≡ Some text.now) }
    {
        self.element.as_str()
    }

    /// The truth value, if this is one.
    pub(crate) fn truth(&self) -> Option<bool>
        ensures { IfSome result (λ truth. as_bool (data_of self.now) ≡ Some truth) }
    {
        self.element.as_bool()
    }

    /// The whole number, if this is one that fits in 64 bits.
    pub(crate) fn whole(&self) -> Option<i64>
        ensures { IfSome result (λ number. whole_in (data_of self.now) ≡ Some number) }
    {
        whole_number(self.element.as_number()?)
    }

    /// Whether this is an object.
    pub(crate) fn is_object(&self) -> bool
        ensures { OnTrue result (as_object (data_of self.now) ≡ Some (members_of self.now)) }
    {
        self.element.members().is_some()
    }

    /// This value, unless it is `null`.
    pub(crate) fn unless_null(self) -> Option<Tree<'t, 'a>>
        ensures { option_map data_of result ≡ unless_null (data_of self.entry) }
    {
        if self.element.is_null() {
            None
        } else {
            Some(self)
        }
    }

    /// The last member of this name, unless it is `null`.
    pub(crate) fn member(&self, name: &str) -> Option<Tree<'t, 'a>>
        ensures { option_map data_of result ≡ the_member name.now (members_of self.now) }
    {
        let element = self.element.get(name)?;
        Tree { element }.unless_null()
    }

    /// The name and the value of an object's one member.
    pub(crate) fn only_member(&self) -> Option<(&'a str, Tree<'t, 'a>)>
        ensures { IfSome result (λ found. only_member (data_of self.now) ≡ Some (found.0.now, data_of found.1)) }
    {
        let mut members = self.element.members()?;
        let (name, element) = members.next()?;
        if members.next().is_some() {
            None
        } else {
            Some((name, Tree { element }))
        }
    }

    /// The items, if this is an array.
    pub(crate) fn items(&self) -> Option<Trees<'t, 'a>>
        ensures { IfSome result (λ rest. (items : SpecItems) × (as_array (data_of self.now) ≡ Some items) × HoldsItems rest items) }
    {
        let items = self.element.items()?;
        Some(Trees { items })
    }

    /// The members, if this is an object.
    pub(crate) fn named(&self) -> Option<Named<'t, 'a>>
        ensures { IfSome result (λ rest. (all : SpecMembers) × (as_object (data_of self.now) ≡ Some all) × HoldsMembers rest no_members all) }
    {
        let members = self.element.members()?;
        Some(Named { members })
    }
}

/// The items of an array from a given one to its end. Contracts see their tokens.
#[derive(Drop)]
pub(crate) struct Trees<'t, 'a> {
    items: Items<'t, 'a>,
}

impl<'t, 'a> Model for Trees<'t, 'a> {
    ghost use Rattle.std.specs.Prelude.{List};
    ghost use Rattle.json.specs.Token.{Token, tokens_code};
    ghost use Rattle.lost_tape.specs.Tapes.{HasItems};

    ghost Value = { List Token };

    ghost coded = { tokens_code };

    ghost view = { λ t. t.items };

    ghost invariant = { λ t. HasItems t.items };
}

impl<'t, 'a> Trees<'t, 'a> {
    /// The next item.
    pub(crate) fn next(&mut self) -> Option<Tree<'t, 'a>>
        ensures value { (held : SpecItems) → HoldsItems self.old held → MatchOption result (held ≡ no_items)
            (λ tree. (rest : SpecItems) × (held ≡ item (data_of tree) rest) × HoldsItems self.new rest) }
        ensures shorter { OnSome result (length self.new < length self.old) }
    {
        let element = self.items.next()?;
        Some(Tree { element })
    }
}

/// The members of an object from a given one to its end. Contracts see their tokens.
#[derive(Drop)]
pub(crate) struct Named<'t, 'a> {
    members: Members<'t, 'a>,
}

impl<'t, 'a> Model for Named<'t, 'a> {
    ghost use Rattle.std.specs.Prelude.{List};
    ghost use Rattle.json.specs.Token.{Token, tokens_code};
    ghost use Rattle.lost_tape.specs.Tapes.{HasMembers};

    ghost Value = { List Token };

    ghost coded = { tokens_code };

    ghost view = { λ n. n.members };

    ghost invariant = { λ n. HasMembers n.members };
}

impl<'t, 'a> Named<'t, 'a> {
    /// The next member: its name and its value. It is put over those before it, so the last of a name stays.
    pub(crate) fn next(&mut self) -> Option<(&'a str, Tree<'t, 'a>)>
        ensures value { (before all : SpecMembers) → HoldsMembers self.old before all → MatchOption result (before ≡ all)
            (λ found. HoldsMembers self.new (put found.0.now (data_of found.1) before) all) }
        ensures shorter { OnSome result (length self.new < length self.old) }
    {
        let (name, element) = self.members.next()?;
        Some((name, Tree { element }))
    }
}
