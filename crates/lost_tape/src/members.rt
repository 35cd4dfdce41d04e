//! The members of a request and of a location, all found by one walk over an object.
ghost use Rattle.std.specs.Prelude.{OnSome};
ghost use Rattle.serde_json.specs.Data.{Members as SpecMembers, no_members, put};
ghost use Rattle.lost_tape.specs.Tapes.{data_of, members_of, HoldsMembers};
ghost use Rattle.lost_tape.specs.ByName.{HoldsRequest, HoldsLocation};

use crate::tree::{Named, Tree};

/// The members of a request that has locations: the last one of each name, unless it is `null`.
#[derive(Drop)]
pub(crate) struct RequestMembers<'t, 'a> {
    pub(crate) service: Option<Tree<'t, 'a>>,
    pub(crate) location: Option<Tree<'t, 'a>>,
    pub(crate) validate: Option<Tree<'t, 'a>>,
    pub(crate) boundary: Option<Tree<'t, 'a>>,
    pub(crate) path: Option<Tree<'t, 'a>>,
}

impl<'t, 'a> RequestMembers<'t, 'a> {
    /// No members.
    pub(crate) fn none() -> RequestMembers<'t, 'a>
        ensures { HoldsRequest result no_members }
    {
        RequestMembers {
            service: None,
            location: None,
            validate: None,
            boundary: None,
            path: None,
        }
    }

    /// Reads the members of an object, after [`RequestMembers::none`]. `None` if the value is no object.
    pub(crate) fn read(&mut self, object: &Tree<'t, 'a>) -> Option<()>
        ensures { HoldsRequest self.old no_members → OnSome result (HoldsRequest self.new (members_of object.now)) }
    {
        let members = object.named()?;
        self.put_all(members);
        Some(())
    }

    /// Adds members after those before them.
    fn put_all(&mut self, members: Named<'t, 'a>)
        ensures { (before all : SpecMembers) → HoldsMembers members.entry before all → HoldsRequest self.old before → HoldsRequest self.new all }
    {
        let mut members = members;
        while let Some((name, tree)) = members.next() {
            self.put(name, tree);
        }
    }

    /// Adds a member after those before it.
    fn put(&mut self, name: &str, tree: Tree<'t, 'a>)
        ensures { (before : SpecMembers) → HoldsRequest self.old before → HoldsRequest self.new (put name.now (data_of tree.entry) before) }
    {
        let member = tree.unless_null();
        if "service" == name {
            self.service = member;
        } else if "location" == name {
            self.location = member;
        } else if "validateLocation" == name {
            self.validate = member;
        } else if "serviceBoundary" == name {
            self.boundary = member;
        } else if "path" == name {
            self.path = member;
        }
    }
}

/// The members of a location: the last one of each name, unless it is `null`.
#[derive(Drop)]
pub(crate) struct LocationMembers<'t, 'a> {
    pub(crate) id: Option<Tree<'t, 'a>>,
    pub(crate) profile: Option<Tree<'t, 'a>>,
    pub(crate) srs_name: Option<Tree<'t, 'a>>,
    pub(crate) pos: Option<Tree<'t, 'a>>,
    pub(crate) address: Option<Tree<'t, 'a>>,
    pub(crate) token: Option<Tree<'t, 'a>>,
}

impl<'t, 'a> LocationMembers<'t, 'a> {
    /// No members.
    pub(crate) fn none() -> LocationMembers<'t, 'a>
        ensures { HoldsLocation result no_members }
    {
        LocationMembers {
            id: None,
            profile: None,
            srs_name: None,
            pos: None,
            address: None,
            token: None,
        }
    }

    /// Reads the members of an object, after [`LocationMembers::none`]. `None` if the value is no object.
    pub(crate) fn read(&mut self, object: &Tree<'t, 'a>) -> Option<()>
        ensures { HoldsLocation self.old no_members → OnSome result (HoldsLocation self.new (members_of object.now)) }
    {
        let members = object.named()?;
        self.put_all(members);
        Some(())
    }

    /// Adds members after those before them.
    fn put_all(&mut self, members: Named<'t, 'a>)
        ensures { (before all : SpecMembers) → HoldsMembers members.entry before all → HoldsLocation self.old before → HoldsLocation self.new all }
    {
        let mut members = members;
        while let Some((name, tree)) = members.next() {
            self.put(name, tree);
        }
    }

    /// Adds a member after those before it.
    fn put(&mut self, name: &str, tree: Tree<'t, 'a>)
        ensures { (before : SpecMembers) → HoldsLocation self.old before → HoldsLocation self.new (put name.now (data_of tree.entry) before) }
    {
        let member = tree.unless_null();
        if "id" == name {
            self.id = member;
        } else if "profile" == name {
            self.profile = member;
        } else if "srsName" == name {
            self.srs_name = member;
        } else if "pos" == name {
            self.pos = member;
        } else if "address" == name {
            self.address = member;
        } else if "token" == name {
            self.token = member;
        }
    }
}
