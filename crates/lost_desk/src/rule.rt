//! The rule over the copies (own rule), and the kinds of step that keep it.
use crate::version::Version;
use crate::view::View;
use atomic_table::{Join, Split};
use crossbeam_utils::rule::{Outcome, Protocol};

/// The published copy is the book of its list of edits, and each seat has seen a beginning of that list.
pub struct OneList;

impl Protocol<Version, View> for OneList {
    ghost use Rattle.lost_desk.specs.Rule.{IsOneList, newcomer};

    ghost holds = { IsOneList };

    ghost first = { newcomer };
}

/// Enter: a reader takes the published copy.
pub(crate) struct Entering;

impl Outcome<Version, View> for Entering {
    ghost use Rattle.lost_desk.specs.Rule.{Enters};

    ghost then = { Enters };
}

/// Name: at opening, the writer's seat learns what its copies are.
pub(crate) struct Naming;

impl Outcome<Version, View> for Naming {
    ghost use Rattle.lost_desk.specs.Rule.{names};

    ghost then = { names };
}

/// Show: a publication, which changes no view.
pub(crate) struct Showing;

impl Outcome<Version, View> for Showing {
    ghost use Rattle.lost_desk.specs.Rule.{shows};

    ghost then = { shows };
}

/// At opening, the writer tells a reader what the copies are.
pub(crate) struct Telling;

impl Split<View> for Telling {
    ghost left = { λ v. v };

    ghost right = { λ v. v };
}

/// At opening, a reader learns what the copies are.
pub(crate) struct Meeting;

impl Join<View> for Meeting {
    ghost use Rattle.lost_desk.specs.Rule.{newcomer};

    ghost both = { λ v told. told };

    ghost spent = { newcomer };
}
