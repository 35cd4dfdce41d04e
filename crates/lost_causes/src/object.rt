//! The members of an object, by their kinds.
use crate::stop::{Stop, found};
use serde_json::{Map, Value};
use std::alloc::Global;

/// An object of a line, and its name in a cause.
#[derive(Clone, Copy)]
pub(crate) struct Object<'v> {
    pub(crate) alloc: Global,
    pub(crate) name: &'v str,
    pub(crate) members: &'v Map<String, Value>,
}

impl<'v> Object<'v> {
    /// The object of a value.
    pub(crate) fn of(alloc: Global, name: &'v str, value: &'v Value) -> Result<Object<'v>, Stop> {
        match value.as_object() {
            Some(members) => Ok(Object {
                alloc,
                name,
                members,
            }),
            None => Err(found(format!(in alloc; "{name}: an object is wanted"))),
        }
    }

    /// The value of a member. A member that is `null` counts as absent.
    pub(crate) fn member(&self, name: &str) -> Option<&'v Value> {
        let value = self.members.get(name)?;
        if value.is_null() { None } else { Some(value) }
    }

    /// The text of a member that is a text.
    pub(crate) fn text(&self, name: &str) -> Option<&'v str> {
        self.member(name)?.as_str()
    }

    /// A required member.
    pub(crate) fn required(&self, name: &str) -> Result<&'v Value, Stop> {
        match self.member(name) {
            Some(value) => Ok(value),
            None => Err(self.missing(name)),
        }
    }

    /// A required text.
    pub(crate) fn required_text(&self, name: &str) -> Result<&'v str, Stop> {
        match self.required(name)?.as_str() {
            Some(text) => Ok(text),
            None => Err(self.wanted(name, "a text")),
        }
    }

    /// An optional text.
    pub(crate) fn optional_text(&self, name: &str) -> Result<Option<&'v str>, Stop> {
        if self.member(name).is_none() {
            return Ok(None);
        }
        Ok(Some(self.required_text(name)?))
    }

    /// An optional truth value.
    pub(crate) fn optional_truth(&self, name: &str) -> Result<(), Stop> {
        match self.member(name) {
            Some(value) if value.as_bool().is_none() => Err(self.wanted(name, "true or false")),
            _ => Ok(()),
        }
    }

    /// The items of an optional list, none if it is absent. `what` names the kind of list.
    pub(crate) fn optional_list(&self, name: &str, what: &str) -> Result<&'v [Value], Stop> {
        match self.member(name) {
            Some(value) => self.list(name, what, value),
            None => Ok(&[]),
        }
    }

    /// The items of a required list.
    pub(crate) fn required_list(&self, name: &str, what: &str) -> Result<&'v [Value], Stop> {
        let value = self.required(name)?;
        self.list(name, what, value)
    }

    fn list(&self, name: &str, what: &str, value: &'v Value) -> Result<&'v [Value], Stop> {
        match value.as_array() {
            Some(items) => Ok(items.as_slice()),
            None => Err(self.wanted(name, what)),
        }
    }

    /// Checks that each item of a list is a text.
    pub(crate) fn are_texts(&self, name: &str, items: &[Value]) -> Result<(), Stop> {
        let owner = self.name;
        for (place, item) in items.iter().enumerate() {
            if item.as_str().is_none() {
                return Err(found(format!(in self.alloc;
                    "{owner}.{name}[{place}]: a text is wanted"
                )));
            }
        }
        Ok(())
    }

    /// The member is missing. `null` counts as missing.
    fn missing(&self, name: &str) -> Stop {
        let owner = self.name;
        if self.members.contains_key(name) {
            found(format!(in self.alloc; "{owner}.{name}: it is null, which counts as missing"))
        } else {
            found(format!(in self.alloc; "{owner}.{name}: it is missing"))
        }
    }

    /// The member is of another kind than it must be.
    pub(crate) fn wanted(&self, name: &str, kind: &str) -> Stop {
        let owner = self.name;
        found(format!(in self.alloc; "{owner}.{name}: {kind} is wanted"))
    }
}
